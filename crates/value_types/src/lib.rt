//! Values, templates, and the frames in which expressions are evaluated.
#![tactic(auto)]

mod entries;
mod fault;
mod frame;
mod laws;
mod path;
mod template;
mod value;

pub use entries::{Slot, seen_entry};
pub use fault::Fault;
pub use frame::{Frame, TimerState, timer_state};
pub use laws::{equal_templates_are_one, equal_values_are_one};
pub use path::Path;
pub use template::{Pattern, Template};
pub use value::{ComponentId, Value};
