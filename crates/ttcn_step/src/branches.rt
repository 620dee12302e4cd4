//! The branches that steps take (ES 201 873-1, 20.2).
ghost use Rattle.std.specs.Prelude.{◌≡◌, IfOk};
ghost use Rattle.semantics.specs.Places as rules;
ghost use Rattle.step_snapshot.specs.Tests.{extent_of, legend_by, test_by};
ghost use Rattle.config_parts.specs.Acts.{HasPathsInOrder};
ghost use Rattle.config_parts.specs.Legend.{component_by, going_by};
ghost use Rattle.config_parts.specs.Views.{IsWithin};
ghost use Rattle.config_parts.specs.declared.config.Config.TheVariants as config;
ghost use Rattle.ttcn_step.specs.Machines.{Fits, machine_of, said};

use crate::step::{component_of, is_running};
use config_parts::{Component, Config, Going};
use std::alloc::{AllocError, Global};
use step_acts as acts;
use step_labels::Label;
use step_snapshot::{Snapshot, TestCase};
use ttcn_syntax::Span;

/// The place of the branch that the statement of a component takes, if it takes one.
fn branch_of(
    alloc: Global,
    test: &TestCase<'_>,
    going: &Going,
    component: &Component,
) -> Result<Option<Span>, AllocError>
    requires ordered { HasPathsInOrder going.now }
    requires within { IsWithin (extent_of test.now) component.now.own }
    ensures { IfOk result (λ place. place ≡ rules.branch_of_component (test_by test.now) (going_by (legend_by test.now) going.now) (component_by (legend_by test.now) component.now)) }
{
    if !is_running(component.state) {
        return Ok(None);
    }
    let running = going.running(alloc)?;
    let snapshot = Snapshot::new(test, going, component, &running);
    let place = acts::branch(alloc, &snapshot);
    let Snapshot {
        test: _test,
        going: _going,
        component: _component,
        running: _running,
    } = snapshot;
    place
}

/// The place of the branch that the step of a label takes, if it takes one.
fn branch_in(
    alloc: Global,
    test: &TestCase<'_>,
    going: &Going,
    label: &Label,
) -> Result<Option<Span>, AllocError>
    requires { Fits (machine_of test.now) (config.Going going.now) }
    ensures { IfOk result (λ place. place ≡ rules.branch_in (test_by test.now) (going_by (legend_by test.now) going.now) label.now) }
{
    match label {
        Label::Statement(path) => match component_of(going.components.as_slice(), &path.numbers) {
            Some(component) => branch_of(alloc, test, going, component),
            None => Ok(None),
        },
        Label::Expiry { .. } => Ok(None),
        Label::Delivery(_) => Ok(None),
    }
}

/// The place of the branch that the step of a label takes, if it takes one.
pub(crate) fn branch(
    alloc: Global,
    test: &TestCase<'_>,
    config: &Config,
    label: &Label,
) -> Result<Option<Span>, AllocError>
    requires { Fits (machine_of test.now) config.now }
    ensures { IfOk result (λ place. place ≡ rules.branch_of (test_by test.now) (said (machine_of test.now) config.now) label.now) }
{
    match config {
        Config::Ended(_) => Ok(None),
        Config::Going(going) => branch_in(alloc, test, going, label),
    }
}
