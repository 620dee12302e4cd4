//! Systems whose runs have few expiries of timers, or timers that wait until no statement has a step.
#![tactic(auto)]

mod bound;
mod kind;
mod laws;
mod places;
mod state;
mod system;
mod timed;

pub use bound::Bound;
pub use kind::Kind;
pub use laws::bounded_runs_keep_the_bound;
pub use state::Bounded;
pub use system::BoundedSystem;
pub use timed::Timed;
