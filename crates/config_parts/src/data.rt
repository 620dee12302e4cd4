//! Changes of a component's own data: of its names, and of what remains (ES 201 873-1, 11, 12, 16 and 19).
ghost use Rattle.std.specs.Prelude.{◌≡◌, ◌<◌, true, IfOk, OnOk};
ghost use Rattle.semantics.specs.Entries.{put};
ghost use Rattle.semantics.specs.Storing as rules;
ghost use Rattle.config_parts.specs.Legend.{IsLegend, Legend, data_by};
ghost use Rattle.config_parts.specs.Views.{Extent, IsWithin};
ghost use Rattle.config_parts.specs.declared.frame.Cells.{Cells};
ghost use Rattle.config_parts.specs.internal.Stored as spec;

use crate::copy::TryClone;
use crate::frame::{Cells, Data, Frame};
use crate::shared::Shared;
use std::alloc::{AllocError, Global};
use std::mem;
use ttcn_syntax::Seq;
use value_types::{Slot, TimerState, Value};

/// What remains in the last frame is at this position.
fn with_position(calls: Seq<Frame>, position: usize) -> Seq<Frame>
    ensures { result ≡ spec.in_last (spec.with_position position) calls }
{
    let mut calls = calls.into_vec();
    if let Some(frame) = calls.first_mut() {
        frame.remaining = position;
    }
    Seq::from_vec(calls)
}

impl Data {
    /// The names of the last frame, which other configurations may share.
    fn last_cells(&self, alloc: Global) -> Result<Cells, AllocError>
        ensures { IfOk result (λ cells. cells ≡ spec.last_cells self.now.calls) }
    {
        match self.calls.as_slice().first() {
            Some(frame) => frame.cells.get().try_clone(alloc),
            None => Ok(Cells::new(alloc)),
        }
    }

    /// Takes the names out of the last frame, or out of frame 0.
    fn take_cells(&mut self, alloc: Global, last: bool) -> Result<Cells, AllocError>
        ensures taken { IfOk result (λ cells. cells ≡ spec.cells_in last self.old) }
        ensures left { OnOk result ((cells : Cells) → spec.with_cells_in last cells self.new ≡ spec.with_cells_in last cells self.old) }
    {
        if last {
            return self.last_cells(alloc);
        }
        Ok(mem::replace(&mut self.members, Cells::new(alloc)))
    }

    /// Puts names into the last frame, or into frame 0.
    fn put_cells(&mut self, alloc: Global, last: bool, cells: Cells) -> Result<(), AllocError>
        ensures { OnOk result (self.new ≡ spec.with_cells_in last cells self.old) }
    {
        if !last {
            self.members = cells;
            return Ok(());
        }
        let mut calls = mem::replace(&mut self.calls, Seq::new(alloc)).into_vec();
        if let Some(frame) = calls.first_mut() {
            frame.cells = Shared::new(alloc, cells)?;
        }
        self.calls = Seq::from_vec(calls);
        Ok(())
    }

    /// A name of the last frame, or of frame 0, has a value.
    pub fn set_value(
        &mut self,
        alloc: Global,
        last: bool,
        slot: Slot,
        value: Value,
    ) -> Result<(), AllocError>
        ensures changed { (legend : Legend) → IsLegend legend → OnOk result (data_by legend self.new ≡ rules.in_frame last (λ frame. rules.with_values (put (legend.names slot) value frame.values) frame) (data_by legend self.old)) }
        ensures within { (size : Extent) → slot < size.names → IsWithin size self.old → OnOk result (IsWithin size self.new) }
    {
        let taken = self.take_cells(alloc, last)?;
        let cells = taken.set_value(slot, value)?;
        self.put_cells(alloc, last, cells)
    }

    /// A timer of the last frame, or of frame 0, is in a state.
    pub fn set_timer(
        &mut self,
        alloc: Global,
        last: bool,
        slot: Slot,
        state: TimerState,
    ) -> Result<(), AllocError>
        ensures changed { (legend : Legend) → IsLegend legend → OnOk result (data_by legend self.new ≡ rules.in_frame last (λ frame. rules.with_timers (put (legend.names slot) state frame.timers) frame) (data_by legend self.old)) }
        ensures within { (size : Extent) → slot < size.names → IsWithin size self.old → OnOk result (IsWithin size self.new) }
    {
        let taken = self.take_cells(alloc, last)?;
        let cells = taken.set_timer(slot, state)?;
        self.put_cells(alloc, last, cells)
    }

    /// A name is declared in the last frame, without value.
    pub fn forget(&mut self, alloc: Global, slot: Slot) -> Result<(), AllocError>
        ensures changed { (legend : Legend) → IsLegend legend → OnOk result (data_by legend self.new ≡ rules.in_frame true (rules.forget (legend.names slot)) (data_by legend self.old)) }
        ensures within { (size : Extent) → IsWithin size self.old → OnOk result (IsWithin size self.new) }
    {
        let taken = self.take_cells(alloc, true)?;
        let cells = taken.forget(slot);
        self.put_cells(alloc, true, cells)
    }

    /// A name is declared in the last frame with a value.
    pub fn declare(&mut self, alloc: Global, slot: Slot, value: Value) -> Result<(), AllocError>
        ensures changed { (legend : Legend) → IsLegend legend → OnOk result (data_by legend self.new ≡ rules.in_frame true (rules.declare (legend.names slot) value) (data_by legend self.old)) }
        ensures within { (size : Extent) → slot < size.names → IsWithin size self.old → OnOk result (IsWithin size self.new) }
    {
        let taken = self.take_cells(alloc, true)?;
        let cells = taken.declare(slot, value)?;
        self.put_cells(alloc, true, cells)
    }

    /// A timer is declared in the last frame.
    pub fn declare_timer(&mut self, alloc: Global, slot: Slot) -> Result<(), AllocError>
        ensures changed { (legend : Legend) → IsLegend legend → OnOk result (data_by legend self.new ≡ rules.in_frame true (rules.declare_timer (legend.names slot)) (data_by legend self.old)) }
        ensures within { (size : Extent) → slot < size.names → IsWithin size self.old → OnOk result (IsWithin size self.new) }
    {
        let taken = self.take_cells(alloc, true)?;
        let cells = taken.declare_timer(slot)?;
        self.put_cells(alloc, true, cells)
    }

    /// What remains in the last frame is at this position.
    pub fn go_on(&mut self, alloc: Global, position: usize)
        ensures changed { (legend : Legend) → data_by legend self.new ≡ rules.going_on (legend.lists position) (data_by legend self.old) }
        ensures within { (size : Extent) → position < size.lists → IsWithin size self.old → IsWithin size self.new }
    {
        let calls = mem::replace(&mut self.calls, Seq::new(alloc));
        self.calls = with_position(calls, position);
    }
}
