//! The checker: which modules are well typed.
#![tactic(auto)]

mod checker;
mod error;
mod parts;

pub use check_rules::{DataType, Definitions, Meaning, Program, Rule, Target, TestId, Typing};
pub use checker::check;
pub use error::CheckError;
