//! What is said where a module breaks a rule, and what looks wrong in it.
#![tactic(auto)]

mod calls;
mod names;
mod oddities;
mod rules;
mod scene;
mod sought;
mod statements;
mod values;

pub use oddities::{Oddity, Warning, warnings};
pub use rules::remarks;
pub use scene::{Part, Scene};
