//! A layer of the search: the workers find its new states, which enter those that were found before.
#![tactic(auto)]

mod entering;
mod lasts;
mod plan;
mod showing;
mod sparing;
mod visited;
mod workers;

pub use entering::enter_layer;
pub use lasts::Lasts;
pub use plan::{ExploreError, Gate, NoGate, Plan};
pub use showing::show_states;
pub use sparing::Sparing;
pub use visited::{Candidate, Step, Visited};
pub use workers::{Firsts, find_first};
