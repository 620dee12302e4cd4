//! From fine labels, and what came of their choices, to the labels of the run that they stand for (ES 201 873-1, 20.2).
#![tactic(auto)]

mod fate;
mod gathering;

pub use fate::{Fate, Told};
pub use gathering::gather;
