//! How statements are read, with the declarations and events in them and the blocks that hold them.
#![tactic(auto)]

mod actions;
mod declarations;
mod events;
mod heads;
mod statements;

pub use declarations::{constants, initial_value, timers};
pub use statements::{block, branches};
