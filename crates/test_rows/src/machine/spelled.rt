//! The labels that can be spelled, enabled or not.
use std::alloc::{AllocError, Global};
use step_labels::Label;
use ttcn_config::{Component, Config};
use ttcn_syntax::{Name, Seq};
use ttcn_values::Path;

/// The names with which labels are spelled.
#[derive(Drop)]
pub struct LabelNames {
    pub timers: Vec<Name>,
    /// Of system ports.
    pub ports: Vec<Name>,
}

/// The labels that can be spelled with these names: those of each component and of a child that it hasn't created yet, with a
/// frame more than the component has, and the deliveries. Where the test case has ended, those of an MTC without frames, and
/// the deliveries.
pub fn spelled(
    alloc: Global,
    config: &Config,
    names: &LabelNames,
) -> Result<Vec<Label>, AllocError> {
    let mut labels = Vec::new(alloc);
    let timers = names.timers.as_slice();
    match config {
        Config::Ended(_) => push_labels(alloc, &[], 0, timers, &mut labels)?,
        Config::Going(going) => {
            for component in going.components.as_slice() {
                push_component(alloc, component, timers, &mut labels)?;
            }
        }
    }
    for port in names.ports.as_slice() {
        labels.push(Label::Delivery(port.try_clone(alloc)?))?;
    }
    Ok(labels)
}

/// The labels of a component, and those of its next child.
fn push_component(
    alloc: Global,
    component: &Component,
    timers: &[Name],
    labels: &mut Vec<Label>,
) -> Result<(), AllocError> {
    let path = component.itself.path.numbers.as_slice();
    let child = next_child(alloc, path, component.own.children)?;
    let calls = component.own.calls.len();
    push_labels(alloc, path, calls, timers, labels)?;
    push_labels(alloc, child.as_slice(), calls, timers, labels)
}

/// The path of the child that a component creates next, where it has created so many.
fn next_child(alloc: Global, path: &[u32], children: u32) -> Result<Vec<u32>, AllocError> {
    let mut child = Vec::from_slice(alloc, path)?;
    child.push(children.saturating_add(1))?;
    Ok(child)
}

/// The label of the statement of a path, and those of its timers in each frame up to the one above so many calls.
fn push_labels(
    alloc: Global,
    path: &[u32],
    calls: usize,
    timers: &[Name],
    labels: &mut Vec<Label>,
) -> Result<(), AllocError> {
    labels.push(Label::Statement(path_of(alloc, path)?))?;
    let calls = u32::try_from(calls).unwrap_or(u32::MAX);
    for frame in 0..calls.saturating_add(2) {
        for timer in timers {
            labels.push(Label::Expiry {
                component: path_of(alloc, path)?,
                frame,
                timer: timer.try_clone(alloc)?,
            })?;
        }
    }
    Ok(())
}

/// A path of its own with these numbers.
fn path_of(alloc: Global, numbers: &[u32]) -> Result<Path, AllocError> {
    let numbers = Vec::from_slice(alloc, numbers)?;
    Ok(Path {
        numbers: Seq::from_vec(numbers),
    })
}
