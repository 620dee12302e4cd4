//! What the positions of graphs keep: items of what remains to be done, and the names that are declared.
#![tactic(auto)]

mod at;
mod declared;
mod first;
mod item;
mod referred;

pub use at::At;
pub use declared::Declared;
pub use first::{First, first_of};
pub use item::{Item, Part, Site, Target};
pub use referred::Referred;
