//! What changes of a component's own data in a step (ES 201 873-1, 16, 19, 20.5 and 23).
use chart_causes::Names;
use config_parts::{ActiveDefault, Cells, Component, Data, Frame};
use std::alloc::{AllocError, Global};
use std::fmt::Write;
use value_types::{Slot, TimerState, Value};

/// What a step changes, in words.
#[derive(Drop)]
pub(crate) struct Changes {
    pub(crate) words: Vec<String>,
    /// Whether only values changed: no timer, no default, no frame.
    pub(crate) only_values: bool,
}

/// Whether a name had this value.
fn had_value(values: &[(Slot, Value)], slot: Slot, value: &Value) -> bool {
    match values.iter().find(|entry| entry.0 == slot) {
        Some(entry) => entry.1 == *value,
        None => false,
    }
}

/// The state that a timer had.
fn state_of(timers: &[(Slot, TimerState)], slot: Slot) -> Option<TimerState> {
    match timers.iter().find(|entry| entry.0 == slot) {
        Some(entry) => Some(entry.1),
        None => None,
    }
}

/// The words for a timer's new state.
fn timer_word(state: TimerState) -> &'static str {
    match state {
        TimerState::Running => ".start",
        TimerState::Inactive => ".stop",
        TimerState::Expired => " EXPIRES",
    }
}

/// The values that are new in the names of a frame.
fn push_values(
    alloc: Global,
    names: Names<'_>,
    before: &Cells,
    behind: &Cells,
    changes: &mut Changes,
) -> Result<(), AllocError> {
    for (slot, value) in behind.values.as_slice() {
        if !had_value(before.values.as_slice(), *slot, value) {
            let mut text = String::new(alloc);
            names.write_slot(&mut text, *slot)?;
            text.push_str(" := ")?;
            names.write_value(&mut text, value)?;
            changes.words.push(text)?;
        }
    }
    Ok(())
}

/// The timers of a frame that start or stop.
fn push_timers(
    alloc: Global,
    names: Names<'_>,
    before: &Cells,
    behind: &Cells,
    changes: &mut Changes,
) -> Result<(), AllocError> {
    for (slot, state) in behind.timers.as_slice() {
        let old = state_of(before.timers.as_slice(), *slot);
        let is_new = match old {
            Some(TimerState::Expired) => *state == TimerState::Running,
            Some(old) => old != *state,
            None => *state != TimerState::Inactive,
        };
        if is_new {
            let mut text = String::new(alloc);
            names.write_slot(&mut text, *slot)?;
            text.push_str(timer_word(*state))?;
            changes.words.push(text)?;
            changes.only_values = false;
        }
    }
    Ok(())
}

/// What changes in the names of a frame.
fn push_cells(
    alloc: Global,
    names: Names<'_>,
    before: &Cells,
    behind: &Cells,
    changes: &mut Changes,
) -> Result<(), AllocError> {
    push_values(alloc, names, before, behind, changes)?;
    push_timers(alloc, names, before, behind, changes)
}

/// The frame at a depth: the last frame stands first, and depths count from the other end.
fn frame_at(frames: &[Frame], depth: usize) -> Option<&Frame> {
    let above = frames.len().checked_sub(depth)?;
    frames.get(above.checked_sub(1)?)
}

/// What changes in the last frame that was there before and is there behind, and whether frames come or go.
fn push_frames(
    alloc: Global,
    names: Names<'_>,
    before: &[Frame],
    behind: &[Frame],
    changes: &mut Changes,
) -> Result<(), AllocError> {
    let (old, new) = (before.len(), behind.len());
    let both = if old < new { old } else { new };
    if let Some(depth) = both.checked_sub(1) {
        if let (Some(before), Some(behind)) = (frame_at(before, depth), frame_at(behind, depth)) {
            push_cells(
                alloc,
                names,
                before.cells.get(),
                behind.cells.get(),
                changes,
            )?;
        }
    }
    if old != new {
        changes.only_values = false;
    }
    Ok(())
}

/// Whether a default is among these.
fn is_active(defaults: &[ActiveDefault], number: u32) -> bool {
    defaults.iter().any(|default| default.number == number)
}

/// The defaults that are activated or deactivated.
fn push_defaults(
    alloc: Global,
    names: Names<'_>,
    before: &[ActiveDefault],
    behind: &[ActiveDefault],
    changes: &mut Changes,
) -> Result<(), AllocError> {
    for default in behind {
        if !is_active(before, default.number) {
            let number = default.number;
            let mut text = format!(in alloc; "default {number} active: ")?;
            names.write_definition(&mut text, default.altstep)?;
            changes.words.push(text)?;
            changes.only_values = false;
        }
    }
    for default in before {
        if !is_active(behind, default.number) {
            let number = default.number;
            changes
                .words
                .push(format!(in alloc; "default {number} not active any more")?)?;
            changes.only_values = false;
        }
    }
    Ok(())
}

/// What a step changes of a component's own data.
fn data_changes(
    alloc: Global,
    names: Names<'_>,
    before: &Data,
    behind: &Data,
) -> Result<Changes, AllocError> {
    let mut changes = Changes {
        words: Vec::new(alloc),
        only_values: true,
    };
    push_cells(alloc, names, &before.members, &behind.members, &mut changes)?;
    push_frames(
        alloc,
        names,
        before.calls.as_slice(),
        behind.calls.as_slice(),
        &mut changes,
    )?;
    push_defaults(
        alloc,
        names,
        before.defaults.as_slice(),
        behind.defaults.as_slice(),
        &mut changes,
    )?;
    Ok(changes)
}

/// What a step changes of a component's own data, where the component is there before and behind.
pub(crate) fn changes_of(
    alloc: Global,
    names: Names<'_>,
    before: Option<&Component>,
    behind: Option<&Component>,
) -> Result<Changes, AllocError> {
    match (before, behind) {
        (Some(before), Some(behind)) => {
            data_changes(alloc, names, before.own.get(), behind.own.get())
        }
        _ => Ok(Changes {
            words: Vec::new(alloc),
            only_values: false,
        }),
    }
}
