//! Runs as fine runs: each step at an `alt` becomes a snapshot and the choice by it (ES 201 873-1, 20.2).
ghost use Rattle.std.specs.Prelude.{◌≡◌, ◌++◌, [], MatchOption, OnOk, false, true};
ghost use Rattle.laws_fine.specs.Doubling.{doubled_label, is_alt_in};
ghost use Rattle.semantics.specs.Steps.{Statement};
ghost use Rattle.step_snapshot.specs.Tests.{test_by};
ghost use Rattle.ttcn_step.specs.FineAnswers.{Doubles};
ghost use Rattle.ttcn_step.specs.Machines.{machine_of, said};

use crate::alt::is_of_alt;
use crate::error::ReplayError;
use crate::replay::follow;
use crate::start::start;
use config_parts::Config;
use std::alloc::{AllocError, Global};
use step_labels::{FineLabel, Label};
use step_snapshot::TestCase;
use value_types::Path;

/// Whether a label is the statement of an `alt`.
fn is_alt_in(test: &TestCase<'_>, config: &Config, label: &Label) -> bool
    ensures { result ≡ is_alt_in (test_by test.now) (said (machine_of test.now) config.now) label.now }
{
    match config {
        Config::Ended(_) => false,
        Config::Going(going) => is_of_alt(test, going, label),
    }
}

/// The component whose statement a label is of, if that is an `alt`.
fn alt_of<'b>(test: &TestCase<'_>, config: &Config, label: &'b Label) -> Option<&'b Path>
    ensures { MatchOption result (is_alt_in (test_by test.now) (said (machine_of test.now) config.now) label.now ≡ false)
        (λ path. (label.now ≡ Statement path.now) × (is_alt_in (test_by test.now) (said (machine_of test.now) config.now) label.now ≡ true)) }
{
    match label {
        Label::Statement(path) => {
            if is_alt_in(test, config, label) {
                Some(path)
            } else {
                None
            }
        }
        Label::Expiry { .. } => None,
        Label::Delivery(_) => None,
    }
}

/// The fine labels of a label.
fn push_doubled(
    alloc: Global,
    test: &TestCase<'_>,
    config: &Config,
    label: &Label,
    labels: &mut Vec<FineLabel>,
) -> Result<(), AllocError>
    ensures { OnOk result (labels.new.items ≡ labels.old.items
        ++ doubled_label (is_alt_in (test_by test.now) (said (machine_of test.now) config.now) label.now) label.now []) }
{
    match alt_of(test, config, label) {
        Some(path) => {
            labels.push(FineLabel::Snap(path.try_clone(alloc)?))?;
            labels.push(FineLabel::Choose(path.try_clone(alloc)?))?;
        }
        None => labels.push(FineLabel::Plain(label.try_clone(alloc)?))?,
    }
    Ok(())
}

/// The doubling of a run.
pub(crate) fn double(
    alloc: Global,
    test: &TestCase<'_>,
    run: &[Label],
) -> Result<Vec<FineLabel>, ReplayError>
    ensures { Doubles (machine_of test.now) run.now result }
{
    let mut config = start(alloc, test)?;
    let mut labels = Vec::new(alloc);
    for place in 0..run.len() {
        let label = &run[place];
        push_doubled(alloc, test, &config, label, &mut labels)?;
        config = follow(alloc, test, &config, label, place + 1)?;
    }
    Ok(labels)
}
