//! Two objects that any number of threads share without a lock: a table of the first of each kind of item, and a
//! board of numbers that are drawn once each. Each call is a few atomic steps, and none of them waits.
#![tactic(auto)]

mod board;
mod error;
mod seen;

pub use board::view::{BoardKey, BoardView};
pub use board::{Board, BoardSeat};
pub use error::NoSeat;
pub use seen::view::{SeenKey, SeenView};
pub use seen::{Seen, SeenSeat};
