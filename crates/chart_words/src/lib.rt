//! What happens in a run, in words (ES 201 873-4).
#![tactic(auto)]

mod cause;
mod changes;
mod chart;
mod columns;
mod ending;
mod parting;
mod passage;
mod rows;
mod settings;
mod source;
mod step;
mod untaken;
mod waiting;

pub use chart::{Run, chart_of};
pub use chart_causes::Names;
pub use parting::{Course, order_of};
pub use passage::{Passage, passages_at};
pub use settings::verdict_settings;
pub use untaken::untaken_branches;
