//! What the calls of a machine say behind a run.
ghost use Rattle.ttcn_step.specs.Machines.{Fits};

use crate::machine::runs::extended;
use crate::machine::spelled::{LabelNames, spelled};
use std::alloc::{AllocError, Global};
use step_labels::Label;
use ttcn_config::Config;
use ttcn_step::{Machine, ReplayError, StepError, Successor};

/// Whether the calls say the same of the configuration behind a run: which labels of those that can be spelled are enabled,
/// and where they lead.
pub fn agrees(
    alloc: Global,
    machine: &Machine<'_>,
    names: &LabelNames,
    run: &[Label],
) -> Result<bool, AllocError> {
    let config = match machine.replay(alloc, run) {
        Ok(config) => config,
        Err(ReplayError::NotEnabled(_)) => return Ok(false),
        Err(ReplayError::Memory) => return Err(AllocError),
    };
    let labels = machine.labels(alloc, &config)?;
    let spelled = spelled(alloc, &config, names)?;
    if !labels.iter().all(|label| spelled.contains(label)) {
        return Ok(false);
    }
    if !blocked_agree(alloc, machine, &config, labels.as_slice())? {
        return Ok(false);
    }
    if !successors_agree(alloc, machine, &config, labels.as_slice())? {
        return Ok(false);
    }
    labels_agree(
        alloc,
        machine,
        run,
        &config,
        labels.as_slice(),
        spelled.as_slice(),
    )
}

/// Whether the components that run are blocked exactly where there is no label, and the machine says so where it is asked
/// for that alone.
fn blocked_agree(
    alloc: Global,
    machine: &Machine<'_>,
    config: &Config,
    labels: &[Label],
) -> Result<bool, AllocError>
    requires { Fits machine.now config.now }
{
    if machine.is_stuck(alloc, config)? != labels.is_empty() {
        return Ok(false);
    }
    let blocked = machine.blocked(alloc, config)?;
    if !labels.is_empty() {
        return Ok(blocked.is_empty());
    }
    let standings = machine.standings(alloc, config)?;
    Ok(blocked.len() == standings.len())
}

/// Whether the successors have these labels, in this order, and `next` leads where they do.
fn successors_agree(
    alloc: Global,
    machine: &Machine<'_>,
    config: &Config,
    labels: &[Label],
) -> Result<bool, AllocError>
    requires { Fits machine.now config.now }
{
    let successors = machine.successors(alloc, config)?;
    if successors.len() != labels.len() {
        return Ok(false);
    }
    for (successor, label) in successors.iter().zip(labels) {
        if !successor_agrees(alloc, machine, config, successor, label)? {
            return Ok(false);
        }
    }
    Ok(true)
}

/// Whether a successor has this label, and `next` leads where it does.
fn successor_agrees(
    alloc: Global,
    machine: &Machine<'_>,
    config: &Config,
    successor: &Successor,
    label: &Label,
) -> Result<bool, AllocError>
    requires { Fits machine.now config.now }
{
    match machine.next(alloc, config, label) {
        Ok(after) => Ok(successor.label == *label && successor.config == after),
        Err(StepError::NotEnabled) => Ok(false),
        Err(StepError::Memory) => Err(AllocError),
    }
}

/// Whether exactly the enabled ones among the labels that can be spelled lead on, and to one configuration by each call.
fn labels_agree(
    alloc: Global,
    machine: &Machine<'_>,
    run: &[Label],
    config: &Config,
    enabled: &[Label],
    spelled: &[Label],
) -> Result<bool, AllocError>
    requires { Fits machine.now config.now }
{
    for label in spelled {
        let next = next(alloc, machine, config, label)?;
        let agrees = next.is_some() == enabled.contains(label)
            && leads(alloc, machine, run, label, &next)?
            && takes_branch_by_statement_alone(alloc, machine, config, label)?;
        if !agrees {
            return Ok(false);
        }
    }
    Ok(true)
}

/// The configuration to which a label leads, if it is enabled.
fn next(
    alloc: Global,
    machine: &Machine<'_>,
    config: &Config,
    label: &Label,
) -> Result<Option<Config>, AllocError>
    requires { Fits machine.now config.now }
{
    match machine.next(alloc, config, label) {
        Ok(after) => Ok(Some(after)),
        Err(StepError::NotEnabled) => Ok(None),
        Err(StepError::Memory) => Err(AllocError),
    }
}

/// Whether a run with a label behind it ends in this configuration; for none, whether the label is its first that is not
/// enabled.
fn leads(
    alloc: Global,
    machine: &Machine<'_>,
    run: &[Label],
    label: &Label,
    next: &Option<Config>,
) -> Result<bool, AllocError> {
    let longer = extended(alloc, run, label)?;
    match machine.replay(alloc, longer.as_slice()) {
        Ok(after) => Ok(match next {
            Some(next) => after == *next,
            None => false,
        }),
        Err(ReplayError::NotEnabled(number)) => Ok(next.is_none() && number == longer.len()),
        Err(ReplayError::Memory) => Err(AllocError),
    }
}

/// Whether a label is that of a statement, or takes no branch.
fn takes_branch_by_statement_alone(
    alloc: Global,
    machine: &Machine<'_>,
    config: &Config,
    label: &Label,
) -> Result<bool, AllocError>
    requires { Fits machine.now config.now }
{
    let place = machine.branch(alloc, config, label)?;
    Ok(matches!(label, Label::Statement(_)) || place.is_none())
}
