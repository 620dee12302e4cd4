//! The rules that the phrases of a module break, and programs, which break none.
#![tactic(auto)]

mod callee;
mod definition_table;
mod field;
mod finding;
mod program;
mod returns;
mod test_cases;

pub use callee::{
    CallPlace, behaviour_meant, component_meant, component_named, parameters_of, port_meant,
    runs_on_of, template_meant,
};
pub use check_scope::names::Meaning;
pub use check_scope::rule::Rule;
pub use check_scope::types::{DataType, Target, Typing};
pub use definition_table::Definitions;
pub use field::within;
pub use finding::Finding;
pub use program::{Program, TestId};
pub use returns::Returns;
