//! A test case as a system whose states are canonical configurations, and what is found of it by all its runs up to a bound.
#![tactic(auto)]

mod branched;
pub mod equality;
mod exploration;
mod keys;
mod laws;
mod outcome;
mod places;
mod recalling;
mod remembered;
mod remembering;
mod runs;
mod scheme;
pub mod search;
mod shortening;
mod sights;
mod sparing;
mod state;
mod step;
mod step_place;
mod timed;
mod working_out;

pub use exploration::{Exploration, Extent, explore_runs, explore_runs_until, extent_of};
pub use keys::BranchPlace;
pub use laws::canonical_forms_are_equal_for_equal_live_parts;
pub use runs::{Runs, mark_of};
pub use scheme::Scheme;
pub use sights::{Sights, sight_runs};
pub use state::State;
pub use step_place::StepPlace;
