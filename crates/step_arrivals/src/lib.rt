//! What comes to components without a statement of theirs (ES 201 873-4): timers expire, and messages come in at system ports.
#![tactic(auto)]

mod delivery;
mod expiry;
mod slots;

pub use delivery::{delivery_named, next_message, push_deliveries};
pub use expiry::{expiry_named, push_expiries};
pub use slots::slots_are_ordered;
