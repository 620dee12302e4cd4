//! Readers and writers whose failed calls are counted: what is read of one, and what is written to one.
#![tactic(auto)]

mod counted;
mod reading;
mod writing;

pub use counted::Counted;
pub use reading::{ReadError, read_up_to};
pub use writing::{WriteError, write_whole};
