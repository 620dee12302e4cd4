//! Tables that several threads fill and read without a lock: each place is written once.
#![tactic(auto)]

mod cells;
mod interner;
mod keyed;
mod memory;

pub use interner::{Interned, Interner};
pub use keyed::Keyed;
pub use memory::Memory;
