//! What each step of a run does (ES 201 873-4).
#![tactic(auto)]

mod story;
mod verdict;

pub use story::{Story, Told, tell};
pub use verdict::verdict_at;
