//! Timers that expire (ES 201 873-1, 12 and 23).
ghost use Rattle.std.specs.Prelude.{◌≡◌, ◌<◌, ℕ, true, length, IfOk, IfSome, OnOk};
ghost use Rattle.std.specs.List.{position};
ghost use Rattle.semantics.specs.Snapshots.{Test};
ghost use Rattle.semantics.specs.Steps as rules;
ghost use Rattle.config_parts.specs.Acts.{DoesStep, HasPathsInOrder};
ghost use Rattle.config_parts.specs.Legend.{IsLegend, Legend, going_by};
ghost use Rattle.config_parts.specs.Views.{Extent, IsGoingWithin};
ghost use Rattle.config_parts.specs.internal.Expiries as spec;
ghost use Rattle.config_parts.specs.internal.Stored.{with_timer};
ghost use Rattle.value_types.specs.Frames.{is_running};
ghost use Rattle.value_types.specs.declared.frame.TimerState.TheVariants.{Expired};

use crate::change::place_of;
use crate::component::{Component, State};
use crate::config::Going;
use crate::copy::TryClone;
use crate::frame::{Cells, Data, Frame};
use crate::shared::Shared;
use std::alloc::{AllocError, Global};
use std::mem;
use ttcn_syntax::Seq;
use value_types::{Path, Slot, TimerState};

impl State {
    pub(crate) fn is_running(self) -> bool
        ensures { result ≡ spec.is_running_state self }
    {
        match self {
            State::Running => true,
            State::Created | State::Terminated => false,
        }
    }
}

fn is_running(state: TimerState) -> bool
    ensures { result ≡ is_running state }
{
    matches!(state, TimerState::Running)
}

/// The place of a timer.
fn place_of_timer(timers: &[(Slot, TimerState)], slot: Slot) -> Option<usize>
    ensures { result ≡ position (spec.is_of_slot slot) timers.now }
{
    timers.iter().position(|timer| timer.0 == slot)
}

/// Whether a timer runs.
fn runs_in(timers: &[(Slot, TimerState)], slot: Slot) -> bool
    ensures { result ≡ spec.runs_in slot timers.now }
{
    match place_of_timer(timers, slot) {
        Some(at) => is_running(timers[at].1),
        None => false,
    }
}

/// The place of the frame of a number. Frames are counted from 1, and the last one comes first.
fn place_of_frame(calls: &[Frame], number: u32) -> Option<usize>
    ensures found { result ≡ spec.place_above number calls.now }
    ensures within { IfSome result (λ at. at < length calls.now) }
{
    if number == 0 {
        return None;
    }
    calls.len().checked_sub(number as usize)
}

impl Cells {
    fn expire(&mut self, alloc: Global, slot: Slot) -> Result<(), AllocError>
        ensures { OnOk result (self.new ≡ with_timer slot Expired self.old) }
    {
        let cells = mem::replace(self, Cells::new(alloc));
        *self = cells.set_timer(slot, TimerState::Expired)?;
        Ok(())
    }
}

impl Frame {
    fn expire(&mut self, alloc: Global, slot: Slot) -> Result<(), AllocError>
        ensures { OnOk result (self.new ≡ spec.with_expired slot self.old) }
    {
        let mut cells = self.cells.get().try_clone(alloc)?;
        cells.expire(alloc, slot)?;
        self.cells = Shared::new(alloc, cells)?;
        Ok(())
    }
}

impl Data {
    /// Whether a timer of a frame runs. Frame 0 is the component's own.
    fn runs(&self, number: u32, slot: Slot) -> bool
        ensures { result ≡ spec.runs_of number slot self.now }
    {
        if number == 0 {
            return runs_in(self.members.timers.as_slice(), slot);
        }
        let calls = self.calls.as_slice();
        match place_of_frame(calls, number) {
            Some(at) => runs_in(calls[at].cells.timers.as_slice(), slot),
            None => false,
        }
    }

    /// A timer of a frame expires.
    fn expire(&mut self, alloc: Global, number: u32, slot: Slot) -> Result<(), AllocError>
        ensures { OnOk result (self.new ≡ spec.expired_of number slot self.old) }
    {
        if number == 0 {
            return self.members.expire(alloc, slot);
        }
        let mut calls = mem::replace(&mut self.calls, Seq::new(alloc)).into_vec();
        if let Some(at) = place_of_frame(&calls, number) {
            calls[at].expire(alloc, slot)?;
        }
        self.calls = Seq::from_vec(calls);
        Ok(())
    }
}

/// A timer of a component expires, if the component and the timer run.
fn expire_at(
    alloc: Global,
    components: &mut Vec<Component>,
    path: &Path,
    number: u32,
    timer: Slot,
) -> Result<bool, AllocError>
    ensures { spec.DoesOrNot (spec.expired_at components.old.items path.now number timer) components.new.items result }
{
    let Some(at) = place_of(components, path) else {
        return Ok(false);
    };
    let component = &mut components[at];
    if !component.state.is_running() {
        return Ok(false);
    }
    if !component.own.runs(number, timer) {
        return Ok(false);
    }
    let mut own = component.own.try_clone(alloc)?;
    own.expire(alloc, number, timer)?;
    component.own = Shared::new(alloc, own)?;
    Ok(true)
}

impl Going {
    /// A timer of a component's frame of this number expires, and this says whether that is a step: the component and the
    /// timer must run. The components stand in the order of their paths.
    pub fn expire(
        &mut self,
        alloc: Global,
        path: &Path,
        number: u32,
        timer: Slot,
    ) -> Result<bool, AllocError>
        ensures steps { (legend : Legend) (test : Test) → IsLegend legend → HasPathsInOrder self.old → DoesStep legend (rules.step_in test (going_by legend self.old) (rules.Expiry path.now number (legend.names timer))) self.new result }
        ensures within { (size : Extent) → timer < size.names → IsGoingWithin size self.old → IfOk result (λ expired. expired ≡ true → IsGoingWithin size self.new) }
    {
        let mut components = mem::replace(&mut self.components, Seq::new(alloc)).into_vec();
        let expired = expire_at(alloc, &mut components, path, number, timer)?;
        self.components = Seq::from_vec(components);
        Ok(expired)
    }
}
