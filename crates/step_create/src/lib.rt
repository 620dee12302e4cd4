//! New components: their ports, and frame 0 by the declarations of their type (ES 201 873-1, 6.2.10, 8.4 and 21.3.1).
#![tactic(auto)]

mod component;
mod members;
mod mtc;
mod ports;
mod types;

pub use component::new_component;
pub use members::Maker;
pub use mtc::start;
