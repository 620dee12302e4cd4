//! How far an exploration is, on a terminal, while it goes on.
#![tactic(auto)]

mod behind;
mod progress;

pub use behind::Behind;
pub use progress::{Progress, Showing};
