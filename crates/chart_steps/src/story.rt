//! Runs, step by step.
ghost use Rattle.std.specs.Prelude.{◌≡◌, ◌++◌, ◌∷◌, [], IfErr, IfOk, Ok, OnOk};
ghost use Rattle.chart_steps.specs.Stories.{AreTold, IsTold, Refuses, last_of};
ghost use Rattle.chart_steps.specs.internal.Telling.{TellsStep};
ghost use Rattle.semantics.specs.Runs as runs;
ghost use Rattle.ttcn_step.specs.Machines.{Fits, said};

use config_parts::{Config, Request};
use std::alloc::{AllocError, Global};
use step_labels::Label;
use ttcn_step::{Machine, Part, ReplayError, Sent, StepError};
use ttcn_syntax::Span;

/// What a step does.
#[derive(Drop)]
pub struct Told {
    /// The place of the statement that the step begins with, where it is that of a statement.
    pub place: Option<Span>,
    /// What of that statement it begins with.
    pub part: Option<Part>,
    /// The place of the branch that it takes, if it takes one.
    pub branch: Option<Span>,
    /// What it asks for, where it is that of a statement and does not fail.
    pub request: Option<Request>,
    /// The message that it sends, or that comes in with it.
    pub sent: Option<Sent>,
    /// The configuration behind it.
    pub behind: Config,
}

/// A run: where it starts, and what its steps do.
#[derive(Drop)]
pub struct Story {
    pub start: Config,
    pub steps: Vec<Told>,
}

impl Story {
    /// Where the run ends.
    pub fn end(&self) -> &Config
        ensures { result.now ≡ last_of self.now.start self.now.steps.items }
    {
        last_of(&self.start, self.steps.as_slice())
    }
}

/// Where steps lead, one behind the other.
fn last_of<'b>(start: &'b Config, steps: &'b [Told]) -> &'b Config
    ensures { result.now ≡ last_of start.now steps.now }
{
    match steps.last() {
        Some(told) => &told.behind,
        None => start,
    }
}

/// What the step of a label does, which has this number in the run.
fn tell_step(
    alloc: Global,
    machine: &Machine<'_>,
    config: &Config,
    label: &Label,
    number: usize,
) -> Result<Told, ReplayError>
    requires { Fits machine.now config.now }
    ensures told { TellsStep machine.now config.now label.now number result }
    ensures fits { IfOk result (λ told. Fits machine.now told.behind) }
{
    let behind = match machine.next(alloc, config, label) {
        Ok(behind) => behind,
        Err(StepError::NotEnabled) => return Err(ReplayError::NotEnabled(number)),
        Err(StepError::Memory) => return Err(ReplayError::Memory),
    };
    let branch = machine.branch(alloc, config, label)?;
    let request = machine.request(alloc, config, label)?;
    let sent = machine.sent(alloc, config, label)?;
    Ok(Told {
        place: machine.place(config, label),
        part: machine.part(config, label),
        branch,
        request,
        sent,
        behind,
    })
}

/// One step more.
fn push(steps: &mut Vec<Told>, told: Told) -> Result<(), AllocError>
    ensures { OnOk result (steps.new.items ≡ steps.old.items ++ told ∷ []) }
{
    steps.push(told)?;
    Ok(())
}

/// What the steps of a run do, or the number of its first label that is not enabled where it stands.
pub fn tell(alloc: Global, machine: &Machine<'_>, run: &[Label]) -> Result<Story, ReplayError>
    ensures start { IfOk result (λ story. said machine.now story.start ≡ runs.start machine.now.test) }
    ensures told { IfOk result (λ story. AreTold machine.now story.start run.now story.steps.items) }
    ensures ends { IfOk result (λ story. runs.replay machine.now.test run.now ≡ Ok (said machine.now (last_of story.start story.steps.items))) }
    ensures fits { IfOk result (λ story. Fits machine.now (last_of story.start story.steps.items)) }
    ensures refused { IfErr result (Refuses machine.now run.now) }
{
    let start = machine.start(alloc)?;
    let mut steps = Vec::new(alloc);
    for place in 0..run.len() {
        let config = last_of(&start, steps.as_slice());
        let told = tell_step(alloc, machine, config, &run[place], place + 1)?;
        push(&mut steps, told)?;
    }
    Ok(Story { start, steps })
}
