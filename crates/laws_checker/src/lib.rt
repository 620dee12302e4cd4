//! Laws of programs, for the layers above: they run no code.
#![tactic(auto)]

mod laws;

pub use laws::{
    blocks_are_fine, calls_resolve, definitions_are_fine, expressions_fit, expressions_have_types,
    literals_fit, named_templates_fit, names_resolve, operations_have_types, record_templates_fit,
    scopes_are_whole,
};
