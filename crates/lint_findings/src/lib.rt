//! What is wrong with the text of a module, and what looks wrong.
#![tactic(auto)]

mod edit;
mod finding;
mod lost;
mod parts;
mod search;
mod text;

pub use finding::{Finding, Findings, Reason};
pub use lint_names::Remark;
pub use lint_remarks::{Oddity, Warning};
pub use text::findings;
