//! What is known of names and types at a site of a behaviour.
#![tactic(auto)]

mod facts;
mod facts_at;
mod here;
mod own;
mod ports;
mod typing;

pub use facts::{EventFacts, Facts, Goal};
pub use facts_at::{facts_of_branches, facts_of_part};
pub use here::Here;
pub use ports::port_type;
