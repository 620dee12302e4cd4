//! The labels of a configuration (ES 201 873-4).
ghost use Rattle.std.specs.Prelude.{◌≡◌, ◌↔◌, ◌<◌, ◌++◌, [], IfOk, IsTrue, OnOk, length, true};
ghost use Rattle.std.specs.List.{flat_map};
ghost use Rattle.semantics.specs.Configurations as rules;
ghost use Rattle.semantics.specs.Labels as said_labels;
ghost use Rattle.semantics.specs.Statements.{most};
ghost use Rattle.semantics.specs.Steps as steps;
ghost use Rattle.step_snapshot.specs.Tests.{extent_of, legend_by, test_by};
ghost use Rattle.config_parts.specs.Acts.{HasPathsInOrder};
ghost use Rattle.config_parts.specs.Legend.{component_by, going_by};
ghost use Rattle.config_parts.specs.Views.{IsWithin};
ghost use Rattle.config_parts.specs.declared.config.Config.TheVariants as config;
ghost use Rattle.ttcn_step.specs.Machines.{Fits, machine_of, said};
ghost use Rattle.ttcn_step.specs.internal.Steps as spec;

use crate::plain::stands_at_plain;
use crate::step::{has_step, is_running};
use config_parts::{Component, Config, Going};
use std::alloc::{AllocError, Global};
use step_arrivals::{push_deliveries, push_expiries};
use step_labels::Label;
use step_snapshot::TestCase;
use value_types::Path;

/// The label of a component's statement.
pub(crate) fn statement_label(alloc: Global, path: &Path) -> Result<Label, AllocError>
    ensures { IfOk result (λ label. label ≡ steps.Statement path.now) }
{
    Ok(Label::Statement(path.try_clone(alloc)?))
}

/// The enabled labels of a component.
fn push_component(
    alloc: Global,
    test: &TestCase<'_>,
    going: &Going,
    component: &Component,
    labels: &mut Vec<Label>,
) -> Result<(), AllocError>
    requires ordered { HasPathsInOrder going.now }
    requires limit { length component.now.own.calls < most }
    requires within { IsWithin (extent_of test.now) component.now.own }
    ensures { OnOk result (labels.new.items ≡ labels.old.items ++ said_labels.labels_of_component (test_by test.now) (going_by (legend_by test.now) going.now) (component_by (legend_by test.now) component.now)) }
{
    if !is_running(component.state) {
        return Ok(());
    }
    if has_step(alloc, test, going, component)? {
        labels.push(statement_label(alloc, &component.itself.path)?)?;
    }
    push_expiries(alloc, test, component, labels)
}

/// The enabled labels of the components of a configuration.
fn component_labels(
    alloc: Global,
    test: &TestCase<'_>,
    going: &Going,
) -> Result<Vec<Label>, AllocError>
    requires { Fits (machine_of test.now) (config.Going going.now) }
    ensures { IfOk result (λ found. found.items ≡ flat_map (said_labels.labels_of_component (test_by test.now) (going_by (legend_by test.now) going.now)) (going_by (legend_by test.now) going.now).components) }
{
    let mut labels = Vec::new(alloc);
    for component in going.components.as_slice() {
        push_component(alloc, test, going, component, &mut labels)?;
    }
    Ok(labels)
}

/// The enabled labels of a configuration that goes on.
fn labels_of(alloc: Global, test: &TestCase<'_>, going: &Going) -> Result<Vec<Label>, AllocError>
    requires { Fits (machine_of test.now) (config.Going going.now) }
    ensures { IfOk result (λ found. found.items ≡ said_labels.labels (test_by test.now) (rules.Goes (going_by (legend_by test.now) going.now))) }
{
    let mut labels = component_labels(alloc, test, going)?;
    push_deliveries(alloc, test, going, &mut labels)?;
    Ok(labels)
}

/// The enabled labels of a configuration, ascending.
pub(crate) fn labels(
    alloc: Global,
    test: &TestCase<'_>,
    config: &Config,
) -> Result<Vec<Label>, AllocError>
    requires { Fits (machine_of test.now) config.now }
    ensures { IfOk result (λ found. found.items ≡ said_labels.labels (test_by test.now) (said (machine_of test.now) config.now)) }
{
    match config {
        Config::Ended(_) => Ok(Vec::new(alloc)),
        Config::Going(going) => labels_of(alloc, test, going),
    }
}

/// The enabled labels of a component alone.
fn labels_at(
    alloc: Global,
    test: &TestCase<'_>,
    going: &Going,
    component: &Component,
) -> Result<Vec<Label>, AllocError>
    requires ordered { HasPathsInOrder going.now }
    requires limit { length component.now.own.calls < most }
    requires within { IsWithin (extent_of test.now) component.now.own }
    ensures { IfOk result (λ found. found.items ≡ said_labels.labels_of_component (test_by test.now) (going_by (legend_by test.now) going.now) (component_by (legend_by test.now) component.now)) }
{
    let mut labels = Vec::new(alloc);
    push_component(alloc, test, going, component, &mut labels)?;
    Ok(labels)
}

/// Whether a component runs that stands at no `alt`: it has a step, and nothing has to be evaluated to know it.
fn has_plain_step(test: &TestCase<'_>, going: &Going) -> bool
    ensures { result ≡ true → ¬ (flat_map (said_labels.labels_of_component (test_by test.now) (going_by (legend_by test.now) going.now)) (going_by (legend_by test.now) going.now).components ≡ []) }
{
    for component in going.components.as_slice() {
        if is_running(component.state) && stands_at_plain(test, component) {
            return true;
        }
    }
    false
}

/// Whether no label of a component of a configuration is enabled. Nothing is evaluated where a component stands at no `alt`,
/// and the components behind the first that has a label are not asked.
fn are_stuck(alloc: Global, test: &TestCase<'_>, going: &Going) -> Result<bool, AllocError>
    requires { Fits (machine_of test.now) (config.Going going.now) }
    ensures { IfOk result (λ stuck. IsTrue stuck ↔ flat_map (said_labels.labels_of_component (test_by test.now) (going_by (legend_by test.now) going.now)) (going_by (legend_by test.now) going.now).components ≡ []) }
{
    if has_plain_step(test, going) {
        return Ok(false);
    }
    for component in going.components.as_slice() {
        let labels = labels_at(alloc, test, going, component)?;
        if !labels.is_empty() {
            return Ok(false);
        }
    }
    Ok(true)
}

/// Whether no label of a configuration that goes on is enabled.
fn is_stuck_going(alloc: Global, test: &TestCase<'_>, going: &Going) -> Result<bool, AllocError>
    requires { Fits (machine_of test.now) (config.Going going.now) }
    ensures { IfOk result (λ stuck. IsTrue stuck ↔ said_labels.labels (test_by test.now) (rules.Goes (going_by (legend_by test.now) going.now)) ≡ []) }
{
    if !are_stuck(alloc, test, going)? {
        return Ok(false);
    }
    let mut deliveries = Vec::new(alloc);
    push_deliveries(alloc, test, going, &mut deliveries)?;
    Ok(deliveries.is_empty())
}

/// Whether no label of a configuration is enabled.
pub(crate) fn is_stuck(
    alloc: Global,
    test: &TestCase<'_>,
    config: &Config,
) -> Result<bool, AllocError>
    requires { Fits (machine_of test.now) config.now }
    ensures { IfOk result (λ stuck. IsTrue stuck ↔ said_labels.labels (test_by test.now) (said (machine_of test.now) config.now) ≡ []) }
{
    match config {
        Config::Ended(_) => Ok(true),
        Config::Going(going) => is_stuck_going(alloc, test, going),
    }
}

/// The labels that a component may have: its statement, whether it has a step or not, and its timers that run.
pub(crate) fn push_candidates(
    alloc: Global,
    test: &TestCase<'_>,
    component: &Component,
    labels: &mut Vec<Label>,
) -> Result<(), AllocError>
    requires limit { length component.now.own.calls < most }
    requires within { IsWithin (extent_of test.now) component.now.own }
    ensures { OnOk result (labels.new.items ≡ labels.old.items ++ spec.candidates_of (component_by (legend_by test.now) component.now)) }
{
    if !is_running(component.state) {
        return Ok(());
    }
    labels.push(statement_label(alloc, &component.itself.path)?)?;
    push_expiries(alloc, test, component, labels)
}
