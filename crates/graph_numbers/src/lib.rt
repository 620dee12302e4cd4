//! Names and lists by numbers: equal ones have one number, and a number stands for one of them.
#![tactic(auto)]

mod fixed;
mod lists;
mod names;

pub use fixed::Fixed;
pub use lists::{Cell, Lists};
pub use names::Names;
