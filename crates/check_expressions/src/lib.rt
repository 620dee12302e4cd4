//! The rules that expressions, values, calls and templates break, and the types of expressions.
#![tactic(auto)]

pub mod call;
pub mod expression;
pub mod target;
pub mod template;
pub mod value;
