//! What is refused of a list of tokens before it is read: brackets that nest too deep, and what this subset leaves out.
#![tactic(auto)]

mod limits;

pub use limits::{DEPTH, closes, first_left_out, first_too_deep, partner};
