//! Sets in the order of insertion that several threads fill.
#![tactic(auto)]

mod cells;
mod place;
mod set;
mod shard;

pub use place::number_of;
pub use set::ShardedSet;
