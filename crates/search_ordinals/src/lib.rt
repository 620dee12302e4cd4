//! Systems whose steps are told by how many enabled labels come before theirs, and explorations by them.
#![tactic(auto)]

mod branched;
mod exploration;
mod following;
mod laws;
mod ordinal;
mod places;
mod steps;
mod system;
mod watched;

pub use branched::Branched;
pub use exploration::{explore_by_ordinals, explore_watched_by_ordinals};
pub use laws::{ordinals_are_explored_alike, ordinals_tell_runs};
pub use ordinal::Ordinal;
pub use steps::nth_of;
pub use system::OrdinalSystem;
pub use watched::BranchedWatched;
