//! Scripts, read from JSON: an object from system ports to the messages that come in there (ES 201 873-1, 9 and 22.2).
#![tactic(auto)]

mod error;
mod message;
mod script;
mod value;

pub use error::ScriptError;
pub use script::read_script;
