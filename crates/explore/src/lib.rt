//! Every run of a system up to a bound, by a search that keeps each state once.
#![tactic(auto)]

mod answer;
mod ending;
pub mod example;
mod expand;
mod layers;
mod runs;
mod sightings;
mod watched;

pub use answer::{Answer, Reached, Sighted, explore, explore_until, explore_watched};
pub use ending::{Ending, Stops};
pub use search_layer::{ExploreError, Gate, NoGate, Plan, Sparing};
pub use sightings::Sighting;
pub use watched::Watched;
