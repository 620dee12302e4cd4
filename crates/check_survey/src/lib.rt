//! Things that refer to one another: circles, chains of references, and how large a thing is written out.
#![tactic(auto)]

mod findings;
mod search;
mod size;
mod thing;

pub use findings::{Findings, survey};
pub use thing::{Thing, is_complete};
