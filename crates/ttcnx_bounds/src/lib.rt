//! All runs of a test case that have few expiries of timers, or patient timers, up to a bound on steps.
#![tactic(auto)]

mod exploration;
mod fewest;
mod laws;
mod search;

pub use exploration::{explore_bounded, explore_bounded_until};
pub use fewest::{Fewest, fewest_expiries};
pub use laws::a_bound_that_forbids_nothing_leaves_all_runs;
