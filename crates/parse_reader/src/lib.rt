//! The parser's place in the tokens of a text, what it takes from there, and lists. What the functions of all layers
//! of the parser read stands in `specs/internal/`.
#![tactic(auto)]

mod error;
mod heads;
mod lists;
mod parser;
mod shape;

pub use error::ParseError;
pub use heads::{ForHeader, Head, Wait};
pub use lists::{AName, Listed};
pub use parser::{Parser, is_name, is_symbol, is_word};
pub use shape::Shape;
