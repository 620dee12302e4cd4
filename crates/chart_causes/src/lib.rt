//! Why the step of a component is a dynamic error, and why a component takes no branch, in words (ES 201 873-1, 7, 15 and
//! 19 to 23).
#![tactic(auto)]

mod branches;
mod choice;
mod declared;
mod event;
mod expression;
mod members;
mod names;
mod operation;
mod outcome;
mod reference;
mod request;
mod scene;
mod search;
mod sight;
mod statement;
mod template;
mod value;
mod written;

pub use branches::{Branching, branches_of};
pub use choice::Judged;
pub use event::Seen;
pub use members::cause_at_start;
pub use names::{Names, write_name, write_path};
pub use scene::Scene;
pub use search::statement_at;
pub use statement::Cause;
