//! All runs up to a number of steps, layer by layer.
use crate::machine::agreement::agrees;
use crate::machine::spelled::LabelNames;
use report::LabelText;
use std::alloc::{AllocError, Global};
use step_labels::Label;
use ttcn_step::{Machine, ReplayError};

/// Whether the calls of a machine say the same behind each run of at most so many steps, or the first run behind which they
/// differ.
pub fn compared(
    alloc: Global,
    machine: &Machine<'_>,
    steps: u64,
    names: &LabelNames,
) -> Result<String, AllocError> {
    let mut layer = Vec::new(alloc);
    layer.push(Vec::new(alloc))?;
    for _ in 0..steps {
        if let Some(run) = first_that_differs(alloc, machine, names, layer.as_slice())? {
            return differs_behind(alloc, run);
        }
        layer = next_layer(alloc, machine, layer.as_slice())?;
    }
    match first_that_differs(alloc, machine, names, layer.as_slice())? {
        Some(run) => differs_behind(alloc, run),
        None => String::from_str(alloc, "alike"),
    }
}

/// The first of the runs behind which the calls of a machine differ.
fn first_that_differs<'a>(
    alloc: Global,
    machine: &Machine<'_>,
    names: &LabelNames,
    layer: &'a [Vec<Label>],
) -> Result<Option<&'a [Label]>, AllocError> {
    for run in layer {
        if !agrees(alloc, machine, names, run.as_slice())? {
            return Ok(Some(run.as_slice()));
        }
    }
    Ok(None)
}

/// Each run with each of the labels that are enabled behind it.
fn next_layer(
    alloc: Global,
    machine: &Machine<'_>,
    layer: &[Vec<Label>],
) -> Result<Vec<Vec<Label>>, AllocError> {
    let mut longer = Vec::new(alloc);
    for run in layer {
        for label in labels_behind(alloc, machine, run.as_slice())? {
            longer.push(extended(alloc, run.as_slice(), &label)?)?;
        }
    }
    Ok(longer)
}

/// The labels that are enabled behind a run; none, where it is no run.
fn labels_behind(
    alloc: Global,
    machine: &Machine<'_>,
    run: &[Label],
) -> Result<Vec<Label>, AllocError> {
    match machine.replay(alloc, run) {
        Ok(config) => machine.labels(alloc, &config),
        Err(ReplayError::NotEnabled(_)) => Ok(Vec::new(alloc)),
        Err(ReplayError::Memory) => Err(AllocError),
    }
}

/// A run, and a label behind it.
pub fn extended(alloc: Global, run: &[Label], label: &Label) -> Result<Vec<Label>, AllocError> {
    let mut longer = Vec::new(alloc);
    for step in run {
        longer.push(step.try_clone(alloc)?)?;
    }
    longer.push(label.try_clone(alloc)?)?;
    Ok(longer)
}

/// The answer for a run behind which the calls differ.
fn differs_behind(alloc: Global, run: &[Label]) -> Result<String, AllocError> {
    let mut answer = String::from_str(alloc, "differs behind")?;
    for label in run {
        let label = format!(in alloc; " {}", LabelText(label))?;
        answer.push_str(label.as_str())?;
    }
    Ok(answer)
}
