//! What is known at a place of a module: the names that are visible there, types, fields and ports, and the rules.
#![tactic(auto)]

pub mod broken;
pub mod field_table;
pub mod least;
pub mod name_set;
pub mod names;
pub mod rule;
pub mod scope;
pub mod table;
pub mod traffic;
pub mod type_listing;
pub mod types;
pub mod typing;
