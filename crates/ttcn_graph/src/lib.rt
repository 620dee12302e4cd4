//! The flow graphs of a module's behaviours: a position for each list of what remains to be done.
#![tactic(auto)]

mod block;
mod cells;
mod draft;
mod drawn;
mod graphs;
mod known;
mod names;

pub use draft::Draft;
pub use graph_items::{At, Declared, First, Item, Part, Referred, Site, Target};
pub use graph_sites::{EventFacts, Facts, Goal};
pub use graphs::{Graphs, compile};
