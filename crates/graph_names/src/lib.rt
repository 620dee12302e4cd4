//! The names that steps change or declare, and those of ports that they name.
#![tactic(auto)]

mod known;

pub use known::Names;
