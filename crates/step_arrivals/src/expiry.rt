//! Expiries of timers (ES 201 873-1, 23.6, ES 201 873-4).
ghost use Rattle.std.specs.Prelude.{◌≡◌, ◌<◌, ◌++◌, [], IfOk, IfSome, OnOk, length, map};
ghost use Rattle.std.specs.List.{All};
ghost use Rattle.semantics.specs.Labels as said_labels;
ghost use Rattle.semantics.specs.Statements.{most};
ghost use Rattle.semantics.specs.Steps as steps;
ghost use Rattle.step_snapshot.specs.Tests.{extent_of, legend_by, test_by};
ghost use Rattle.config_parts.specs.Acts.{HasPathsInOrder};
ghost use Rattle.config_parts.specs.Legend.{component_by, frame_by, frame_with, going_by};
ghost use Rattle.config_parts.specs.Views.{HasSlotsWithin, IsConfigWithin, IsFrameWithin, IsGoingWithin, IsWithin};
ghost use Rattle.step_arrivals.specs.Behind.{IsBehind};
ghost use Rattle.value_types.specs.Frames.{is_running};

use crate::slots::{name_of, slots_are_ordered};
use config_parts::{Cells, Component, Config, Frame, Going, TryClone};
use std::alloc::{AllocError, Global};
use step_labels::Label;
use step_snapshot::TestCase;
use ttcn_syntax::Name;
use value_types::{Path, Slot, TimerState};

// ---- labels

/// The label of the expiry of a timer.
fn expiry_label(
    alloc: Global,
    test: &TestCase<'_>,
    path: &Path,
    frame: u32,
    slot: Slot,
) -> Result<Label, AllocError>
    requires { slot < length test.now.names }
    ensures { IfOk result (λ label. label ≡ steps.Expiry path.now frame ((legend_by test.now).names slot)) }
{
    Ok(Label::Expiry {
        component: path.try_clone(alloc)?,
        frame,
        timer: name_of(alloc, test, slot)?,
    })
}

fn runs(state: TimerState) -> bool
    ensures { result ≡ is_running state }
{
    matches!(state, TimerState::Running)
}

/// The timers of a frame of a number that run.
fn push_frame(
    alloc: Global,
    test: &TestCase<'_>,
    path: &Path,
    frame: u32,
    cells: &Cells,
    labels: &mut Vec<Label>,
) -> Result<(), AllocError>
    requires { HasSlotsWithin (length test.now.names) cells.now }
    ensures { OnOk result (labels.new.items ≡ labels.old.items ++ said_labels.frame_expiries path.now frame (frame_with (legend_by test.now) [] cells.now)) }
{
    for timer in cells.timers.as_slice() {
        if runs(timer.1) {
            labels.push(expiry_label(alloc, test, path, frame, timer.0)?)?;
        }
    }
    Ok(())
}

/// The timers of the frames above frame 0 that run, those of the lowest frame first.
fn push_calls(
    alloc: Global,
    test: &TestCase<'_>,
    path: &Path,
    calls: &[Frame],
    labels: &mut Vec<Label>,
) -> Result<(), AllocError>
    requires limit { length calls.now < most }
    requires within { All (IsFrameWithin (extent_of test.now)) calls.now }
    ensures { OnOk result (labels.new.items ≡ labels.old.items ++ said_labels.call_expiries path.now (map (frame_by (legend_by test.now)) calls.now)) }
{
    for below in 0..calls.len() {
        let cells = calls[calls.len() - 1 - below].cells.get();
        push_frame(alloc, test, path, below as u32 + 1, cells, labels)?;
    }
    Ok(())
}

/// The timers of a component that run.
pub fn push_expiries(
    alloc: Global,
    test: &TestCase<'_>,
    component: &Component,
    labels: &mut Vec<Label>,
) -> Result<(), AllocError>
    requires limit { length component.now.own.calls < most }
    requires within { IsWithin (extent_of test.now) component.now.own }
    ensures { OnOk result (labels.new.items ≡ labels.old.items ++ said_labels.expiries (component_by (legend_by test.now) component.now)) }
{
    let path = &component.itself.path;
    push_frame(alloc, test, path, 0, &component.own.members, labels)?;
    push_calls(alloc, test, path, component.own.calls.as_slice(), labels)
}

// ---- steps

/// The configuration behind the expiry of the timer of a slot, if it is enabled.
fn expiry(
    alloc: Global,
    test: &TestCase<'_>,
    going: &Going,
    path: &Path,
    frame: u32,
    timer: Slot,
) -> Result<Option<Config>, AllocError>
    requires ordered { HasPathsInOrder going.now }
    requires all { IsGoingWithin (extent_of test.now) going.now }
    requires within { timer < length test.now.names }
    ensures behind { IfOk result (IsBehind (legend_by test.now) (steps.step_in (test_by test.now) (going_by (legend_by test.now) going.now) (steps.Expiry path.now frame ((legend_by test.now).names timer)))) }
    ensures within { IfOk result (λ after. IfSome after (IsConfigWithin (extent_of test.now))) }
{
    slots_are_ordered(test);
    let mut copy = going.try_clone(alloc)?;
    if copy.expire(alloc, path, frame, timer)? {
        Ok(Some(Config::Going(copy)))
    } else {
        Ok(None)
    }
}

/// The configuration behind the expiry of a timer of a component, if it is enabled.
pub fn expiry_named(
    alloc: Global,
    test: &TestCase<'_>,
    going: &Going,
    path: &Path,
    frame: u32,
    timer: &Name,
) -> Result<Option<Config>, AllocError>
    requires ordered { HasPathsInOrder going.now }
    requires all { IsGoingWithin (extent_of test.now) going.now }
    ensures behind { IfOk result (IsBehind (legend_by test.now) (steps.step_in (test_by test.now) (going_by (legend_by test.now) going.now) (steps.Expiry path.now frame timer.now))) }
    ensures within { IfOk result (λ after. IfSome after (IsConfigWithin (extent_of test.now))) }
{
    slots_are_ordered(test);
    match test.slot(timer) {
        Some(slot) => expiry(alloc, test, going, path, frame, slot),
        None => Ok(None),
    }
}
