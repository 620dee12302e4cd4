//! What is said of a text that is not read as a module.
#![tactic(auto)]

mod bytes;
mod expected;
mod faults;
mod lexical;
mod tables;

pub use faults::unparsed;
pub use lexical::unlexed;
