//! What a component asks for in its step, by the statement at which it stands (ES 201 873-1, 16 and 19 to 24).
#![tactic(auto)]

mod choice;
mod place;
mod step;
mod waiting;

pub use place::branch;
pub use step::act;
