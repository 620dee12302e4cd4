//! The part of a configuration that matters for what follows (ES 201 873-4).
#![tactic(auto)]

mod canonical;

pub use canonical::{canon, canon_owned};
