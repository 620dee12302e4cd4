//! The command line of `ttcnx`: what it takes, and what is asked for by words.
#![tactic(auto)]

mod command;
mod definition;

pub use command::{Format, Line, LineError, LintFormat, Wishes, read_line};
