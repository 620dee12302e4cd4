//! Where the enabled labels of a configuration lead (ES 201 873-4).
ghost use Rattle.std.specs.Prelude.{◌≡◌, ◌++◌, ◌∷◌, [], IfOk, OnOk, map};
ghost use Rattle.std.specs.List.{All, flat_map};
ghost use Rattle.semantics.specs.Configurations as rules;
ghost use Rattle.semantics.specs.Labels as said_labels;
ghost use Rattle.step_snapshot.specs.Tests.{legend_by, test_by};
ghost use Rattle.config_parts.specs.Legend.{going_by};
ghost use Rattle.config_parts.specs.declared.config.Config.TheVariants as config;
ghost use Rattle.ttcn_step.specs.Answers.{IsSuccessor};
ghost use Rattle.ttcn_step.specs.Machines.{Fits, machine_of, said};
ghost use Rattle.ttcn_step.specs.internal.Steps as spec;
ghost use Rattle.ttcn_step.specs.internal.Successors as pairs;

use crate::labels::push_candidates;
use crate::step::step;
use crate::successor::Successor;
use config_parts::{Config, Going};
use std::alloc::{AllocError, Global};
use step_arrivals::push_deliveries;
use step_labels::Label;
use step_snapshot::TestCase;

/// The labels that the components of a configuration may have.
fn component_candidates(
    alloc: Global,
    test: &TestCase<'_>,
    going: &Going,
) -> Result<Vec<Label>, AllocError>
    requires { Fits (machine_of test.now) (config.Going going.now) }
    ensures { IfOk result (λ found. found.items ≡ flat_map spec.candidates_of (going_by (legend_by test.now) going.now).components) }
{
    let mut labels = Vec::new(alloc);
    for component in going.components.as_slice() {
        push_candidates(alloc, test, component, &mut labels)?;
    }
    Ok(labels)
}

/// The labels that a configuration may have.
fn candidates(alloc: Global, test: &TestCase<'_>, going: &Going) -> Result<Vec<Label>, AllocError>
    requires { Fits (machine_of test.now) (config.Going going.now) }
    ensures { IfOk result (λ found. found.items ≡ spec.candidates (test_by test.now) (going_by (legend_by test.now) going.now)) }
{
    let mut labels = component_candidates(alloc, test, going)?;
    push_deliveries(alloc, test, going, &mut labels)?;
    Ok(labels)
}

/// A label with the configuration to which it leads, if it is enabled.
fn push_successor(
    alloc: Global,
    test: &TestCase<'_>,
    going: &Going,
    label: Label,
    found: &mut Vec<Successor>,
) -> Result<(), AllocError>
    requires { Fits (machine_of test.now) (config.Going going.now) }
    ensures pairs { OnOk result (pairs.pairs_by (machine_of test.now) found.new.items ≡ pairs.pairs_by (machine_of test.now) found.old.items ++ spec.leads (test_by test.now) (rules.Goes (going_by (legend_by test.now) going.now)) (label ∷ [])) }
    ensures fits { All (λ s. Fits (machine_of test.now) s.config) found.old.items → OnOk result (All (λ s. Fits (machine_of test.now) s.config) found.new.items) }
{
    if let Some(config) = step(alloc, test, going, &label)? {
        found.push(Successor { label, config })?;
    }
    Ok(())
}

/// The enabled ones among labels, each with the configuration to which it leads.
fn successors_among(
    alloc: Global,
    test: &TestCase<'_>,
    going: &Going,
    labels: Vec<Label>,
) -> Result<Vec<Successor>, AllocError>
    requires { Fits (machine_of test.now) (config.Going going.now) }
    ensures pairs { IfOk result (λ found. pairs.pairs_by (machine_of test.now) found.items ≡ spec.leads (test_by test.now) (rules.Goes (going_by (legend_by test.now) going.now)) labels.items) }
    ensures fits { IfOk result (λ found. All (λ s. Fits (machine_of test.now) s.config) found.items) }
{
    let mut found = Vec::new(alloc);
    for label in labels {
        push_successor(alloc, test, going, label, &mut found)?;
    }
    Ok(found)
}

/// The enabled labels of a configuration, ascending, each with the configuration to which it leads.
pub(crate) fn successors(
    alloc: Global,
    test: &TestCase<'_>,
    config: &Config,
) -> Result<Vec<Successor>, AllocError>
    requires { Fits (machine_of test.now) config.now }
    ensures labels { IfOk result (λ found. map (λ s. s.label) found.items ≡ said_labels.labels (test_by test.now) (said (machine_of test.now) config.now)) }
    ensures leads { IfOk result (λ found. All (IsSuccessor (machine_of test.now) config.now) found.items) }
    ensures fits { IfOk result (λ found. All (λ s. Fits (machine_of test.now) s.config) found.items) }
{
    match config {
        Config::Ended(_) => Ok(Vec::new(alloc)),
        Config::Going(going) => {
            let labels = candidates(alloc, test, going)?;
            successors_among(alloc, test, going, labels)
        }
    }
}
