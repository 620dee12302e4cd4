//! What a component chooses at an `alt` (ES 201 873-1, 20.2).
#![tactic(auto)]

mod altstep;
mod arguments;
mod choose;
mod event;
mod receive;
mod redirect;
mod taken;

pub use choose::{choose_alt, choose_call, choose_event};
pub use taken::{Deed, Stored, Taken};
