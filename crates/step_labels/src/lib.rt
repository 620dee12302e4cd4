//! Labels of steps, runs of labels, and where components stand (ES 201 873-4).
#![tactic(auto)]

mod fine;
mod label;
mod standing;

pub use fine::FineLabel;
pub use label::Label;
pub use standing::Standing;
