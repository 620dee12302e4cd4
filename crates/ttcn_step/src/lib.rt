//! Runs of a test case (ES 201 873-4).
#![tactic(auto)]

mod alt;
mod begun;
mod branches;
mod coarsen;
mod double;
mod error;
mod fine;
mod labels;
mod laws;
mod limit;
mod machine;
mod places;
mod plain;
mod replay;
mod start;
mod step;
mod successor;
mod successors;
mod telling;
mod testcases;

pub use error::{CoarsenError, ReplayError, StepError};
pub use laws::{canonical_forms_fit, labels_are_enabled};
pub use limit::frames_keep_the_limit;
pub use machine::Machine;
pub use step_labels::{FineLabel, Label, Standing};
pub use step_script::Script;
pub use successor::Successor;
pub use telling::Sent;
pub use ttcn_graph::Part;
pub use value_types::Path;
