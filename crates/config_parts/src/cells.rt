//! Names get values, and timers states (ES 201 873-1, 11, 12 and 19.1).
ghost use Rattle.std.specs.Prelude.{◌≡◌, IfOk, OnOk};
ghost use Rattle.std.specs.List.{position};
ghost use Rattle.config_parts.specs.internal.Stored as spec;

use crate::frame::Cells;
use std::alloc::{AllocError, Global};
use std::mem;
use ttcn_syntax::Seq;
use value_types::{Slot, TimerState, Value};

// ---- entries

/// The place of the entry of a slot, or of the first one behind it.
fn place_for<T>(entries: &[(Slot, T)], slot: Slot) -> Option<usize>
    ensures { result ≡ position (spec.is_not_below slot) entries.now }
{
    entries.iter().position(|entry| slot.cmp(&entry.0).is_le())
}

/// A slot has this, whatever it had before.
pub(crate) fn put<T: Drop>(
    entries: Seq<(Slot, T)>,
    slot: Slot,
    stored: T,
) -> Result<Seq<(Slot, T)>, AllocError>
    ensures { IfOk result (λ changed. changed ≡ spec.put slot stored entries) }
{
    let mut entries = entries.into_vec();
    match place_for(&entries, slot) {
        Some(at) => {
            if entries[at].0 == slot {
                entries[at].1 = stored;
            } else {
                entries.insert(at, (slot, stored))?;
            }
        }
        None => entries.push((slot, stored))?,
    }
    Ok(Seq::from_vec(entries))
}

/// A slot has nothing more.
fn without<T: Drop>(entries: Seq<(Slot, T)>, slot: Slot) -> Seq<(Slot, T)>
    ensures { result ≡ spec.without slot entries }
{
    let mut entries = entries.into_vec();
    entries.retain(|entry| entry.0 != slot);
    Seq::from_vec(entries)
}

// ---- the names of a frame

impl Cells {
    /// No names.
    pub fn new(alloc: Global) -> Cells
        ensures { result ≡ spec.no_cells }
    {
        Cells {
            values: Seq::new(alloc),
            timers: Seq::new(alloc),
        }
    }

    /// A name has a value.
    pub(crate) fn set_value(self, slot: Slot, value: Value) -> Result<Cells, AllocError>
        ensures { IfOk result (λ cells. cells ≡ spec.with_value slot value self) }
    {
        let Cells { values, timers } = self;
        let values = put(values, slot, value)?;
        Ok(Cells { values, timers })
    }

    /// A timer is in a state.
    pub(crate) fn set_timer(self, slot: Slot, state: TimerState) -> Result<Cells, AllocError>
        ensures { IfOk result (λ cells. cells ≡ spec.with_timer slot state self) }
    {
        let Cells { values, timers } = self;
        let timers = put(timers, slot, state)?;
        Ok(Cells { values, timers })
    }

    /// A name is declared, without value.
    pub fn forget(self, slot: Slot) -> Cells
        ensures { result ≡ spec.forget slot self }
    {
        let Cells { values, timers } = self;
        Cells {
            values: without(values, slot),
            timers: without(timers, slot),
        }
    }

    /// A name is declared with a value.
    pub fn declare(self, slot: Slot, value: Value) -> Result<Cells, AllocError>
        ensures { IfOk result (λ cells. cells ≡ spec.declare slot value self) }
    {
        let Cells { values, timers } = self;
        let values = put(values, slot, value)?;
        Ok(Cells {
            values,
            timers: without(timers, slot),
        })
    }

    /// A timer is declared.
    pub fn declare_timer(self, slot: Slot) -> Result<Cells, AllocError>
        ensures { IfOk result (λ cells. cells ≡ spec.declare_timer slot self) }
    {
        let Cells { values, timers } = self;
        let timers = put(timers, slot, TimerState::Inactive)?;
        Ok(Cells {
            values: without(values, slot),
            timers,
        })
    }
}
