//! What a component sees when it makes a step (ES 201 873-1, 20.2).
#![tactic(auto)]

mod arguments;
mod reads;
mod slots;
mod snapshot;
mod test_case;

pub use arguments::argument_cells;
pub use snapshot::Snapshot;
pub use test_case::TestCase;
