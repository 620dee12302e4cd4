//! How expressions, values and templates are read.
#![tactic(auto)]

mod expressions;
mod templates;
mod values;

pub use expressions::{component, expression, reference};
pub use templates::{message, template};
pub use values::{AType, AValue, activation, call, is_at_call, rhs, type_name, value};
