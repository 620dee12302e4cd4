//! Values that are equal by `==` are one value: names and trees.
#![tactic(auto)]

mod definition;
mod exact;
mod expression;
mod part;
mod statement;
mod template;
mod value;

pub use exact::{Exact, are_one};
