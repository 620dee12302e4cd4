//! Runs of labels (ES 201 873-4).
ghost use Rattle.std.specs.Prelude.{◌≡◌, ◌+◌, ◌<◌, ◌^◌, IfOk};
ghost use Rattle.semantics.specs.Runs as runs;
ghost use Rattle.semantics.specs.Steps as steps;
ghost use Rattle.step_snapshot.specs.Tests.{test_by};
ghost use Rattle.ttcn_step.specs.Answers.{Ends};
ghost use Rattle.ttcn_step.specs.Machines.{Fits, machine_of, said};
ghost use Rattle.ttcn_step.specs.internal.Runs as spec;

use crate::error::{ReplayError, StepError};
use crate::start::start;
use crate::step::next;
use config_parts::Config;
use std::alloc::Global;
use step_labels::Label;
use step_snapshot::TestCase;

/// The configuration to which the label of a number leads.
pub(crate) fn follow(
    alloc: Global,
    test: &TestCase<'_>,
    config: &Config,
    label: &Label,
    number: usize,
) -> Result<Config, ReplayError>
    requires { Fits (machine_of test.now) config.now }
    ensures follows { spec.Follows (machine_of test.now) number (steps.next (test_by test.now) (said (machine_of test.now) config.now) label.now) result }
    ensures fits { IfOk result (Fits (machine_of test.now)) }
{
    match next(alloc, test, config, label) {
        Ok(after) => Ok(after),
        Err(StepError::NotEnabled) => Err(ReplayError::NotEnabled(number)),
        Err(StepError::Memory) => Err(ReplayError::Memory),
    }
}

/// The configuration in which a run ends.
pub(crate) fn replay(
    alloc: Global,
    test: &TestCase<'_>,
    run: &[Label],
) -> Result<Config, ReplayError>
    ensures ends { Ends (machine_of test.now) (runs.replay (test_by test.now) run.now) result }
    ensures fits { IfOk result (Fits (machine_of test.now)) }
{
    let mut config = start(alloc, test)?;
    for place in 0..run.len() {
        config = follow(alloc, test, &config, &run[place], place + 1)?;
    }
    Ok(config)
}
