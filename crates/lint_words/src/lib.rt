//! What is found in a module's text, as text in the form of a compiler, or as JSON.
#![tactic(auto)]

mod answer;
mod json;
mod source;
mod text;

pub use answer::{Format, Linted, lint};
pub use json::to_json;
pub use text::to_text;
