//! The rules that statements break, and those that definitions break inside.
#![tactic(auto)]

mod action;
mod declaration;
mod definition;
mod kinds;
mod member;
mod message;
mod number_set;
mod parameter;
mod place;
mod statement;

pub use definition::check_definitions;
