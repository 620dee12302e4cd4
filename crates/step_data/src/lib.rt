//! How a component's own data change in its step: values are stored, frames and defaults come and go (ES 201 873-1, 16, 19.1 and 20.5).
#![tactic(auto)]

mod defaults;
mod frames;
mod storing;

pub use defaults::{activate, create_child, deactivate, deactivate_all};
pub use frames::{enter, enter_all, leave, limit_frames};
pub use storing::store;
