//! What expressions read.
ghost use Rattle.std.specs.Prelude.{◌≡◌};
ghost use Rattle.value_types.specs.Frames.{timer_of};

use crate::entries::{Slot, seen_entry};
use crate::{ComponentId, Path, Value};
use check_rules::Definitions;
use ttcn_syntax::Name;

/// The state of a timer (ES 201 873-1, section 12).
#[derive(Clone, Copy, Debug, PartialEq, Eq)]
pub enum TimerState {
    Inactive,
    Running,
    Expired,
}

/// What an expression reads: the definitions of its module, the values of names that have one, the timers, the components
/// that run, and what `self` and `mtc` are. An entry belongs to the name of its slot. Of several entries of a name the first
/// one counts, and those of the innermost frame count before those of the component type.
#[derive(Clone, Copy)]
pub struct Frame<'a> {
    pub definitions: &'a Definitions<'a>,
    /// The name of each slot: an entry of another slot says nothing.
    pub names: &'a [Name],
    /// The values of the innermost frame.
    pub locals: &'a [(Slot, Value)],
    /// The values of the component type's variables and constants.
    pub members: &'a [(Slot, Value)],
    pub local_timers: &'a [(Slot, TimerState)],
    pub member_timers: &'a [(Slot, TimerState)],
    /// The components that run.
    pub running: &'a [&'a Path],
    pub itself: &'a ComponentId,
    pub mtc: &'a ComponentId,
}

/// The state of the timer of a name, if there is one.
pub fn timer_state(name: &Name, frame: &Frame<'_>) -> Option<TimerState>
    ensures { result ≡ timer_of frame.now name.now }
{
    let state = seen_entry(frame.names, frame.local_timers, frame.member_timers, name)?;
    Some(*state)
}
