//! Single steps (ES 201 873-1, 12 and 20 to 24, ES 201 873-4).
ghost use Rattle.std.specs.Prelude.{◌≡◌, ◌<◌, IfOk, IfSome, Some, bytes_eq, is_some};
ghost use Rattle.std.specs.List.{find};
ghost use Rattle.std.specs.Option.{option_map};
ghost use Rattle.step_forms.specs.Asks.{Asks, AsksWithin, uncovered_act};
ghost use Rattle.semantics.specs.Configurations as rules;
ghost use Rattle.semantics.specs.Snapshots.{Test};
ghost use Rattle.semantics.specs.Steps as steps;
ghost use Rattle.step_snapshot.specs.Tests.{extent_of, legend_by, test_by};
ghost use Rattle.config_parts.specs.Acts.{HasPathsInOrder, IsUncovered, act_by};
ghost use Rattle.config_parts.specs.Legend.{IsLegend, Legend, component_by, going_by, state_by};
ghost use Rattle.config_parts.specs.Views.{Extent, IsActWithin, IsConfigWithin, IsGoingWithin, IsWithin};
ghost use Rattle.config_parts.specs.declared.config.Config.TheVariants as config;
ghost use Rattle.ttcn_step.specs.Answers.{Leads};
ghost use Rattle.ttcn_step.specs.Machines.{Fits, machine_of, said};
ghost use Rattle.step_arrivals.specs.Behind.{IsBehind};
ghost use Rattle.ttcn_step.specs.internal.Steps as spec;

use crate::error::StepError;
use crate::plain::stands_at_plain;
use config_parts::{Act, Component, Config, Going, State, TryClone};
use std::alloc::{AllocError, Global};
use step_acts::act;
use step_arrivals::{delivery_named, expiry_named, slots_are_ordered};
use step_labels::Label;
use step_snapshot::{Snapshot, TestCase};
use ttcn_syntax::{Seq, Verdict};
use value_types::{ComponentId, Fault};

pub(crate) fn is_running(state: State) -> bool
    ensures { result ≡ rules.is_running_state (state_by state) }
{
    match state {
        State::Running => true,
        State::Created | State::Terminated => false,
    }
}

/// The component of a path, where there is one.
pub(crate) fn component_of<'b>(
    components: &'b [Component],
    path: &Seq<u32>,
) -> Option<&'b Component>
    ensures { option_map (λ component. component.now) result ≡ find (λ component. bytes_eq component.itself.path.numbers path.now) components.now }
{
    components
        .iter()
        .find(|component| component.itself.path.numbers == *path)
}

/// What a component asks for in its step, if it has one.
pub(crate) fn asked(
    alloc: Global,
    test: &TestCase<'_>,
    going: &Going,
    component: &Component,
) -> Result<Option<Act>, Fault>
    requires ordered { HasPathsInOrder going.now }
    requires within { IsWithin (extent_of test.now) component.now.own }
    ensures asks { Asks (legend_by test.now) (uncovered_act (spec.asked test.now going.now component.now)) result }
    ensures within { AsksWithin (extent_of test.now) result }
{
    let running = going.running(alloc)?;
    let snapshot = Snapshot::new(test, going, component, &running);
    let asked = act(alloc, &snapshot);
    let Snapshot {
        test: _test,
        going: _going,
        component: _component,
        running: _running,
    } = snapshot;
    asked
}

/// Whether a component's statement has a step.
pub(crate) fn has_step(
    alloc: Global,
    test: &TestCase<'_>,
    going: &Going,
    component: &Component,
) -> Result<bool, AllocError>
    requires ordered { HasPathsInOrder going.now }
    requires within { IsWithin (extent_of test.now) component.now.own }
    ensures { IfOk result (λ has. has ≡ is_some (steps.statement_step (test_by test.now) (going_by (legend_by test.now) going.now) (component_by (legend_by test.now) component.now))) }
{
    if !is_running(component.state) {
        return Ok(false);
    }
    if stands_at_plain(test, component) {
        return Ok(true);
    }
    match asked(alloc, test, going, component) {
        Ok(None) => Ok(false),
        Ok(Some(_act)) => Ok(true),
        Err(Fault::Dynamic) => Ok(true),
        Err(Fault::Memory) => Err(AllocError),
    }
}

/// The configuration in which what a component asks for is done. A dynamic error ends the test case.
pub(crate) fn done(
    alloc: Global,
    going: &Going,
    itself: &ComponentId,
    act: Act,
) -> Result<Config, AllocError>
    ensures behind { (legend : Legend) (test : Test) → IsLegend legend → HasPathsInOrder going.now → IsUncovered (act_by legend act)
        → IfOk result (λ after. IsBehind legend (steps.apply test (going_by legend going.now) itself.now (act_by legend act)) (Some after)) }
    ensures within { (size : Extent) → IsGoingWithin size going.now → IsActWithin size act → IfOk result (IsConfigWithin size) }
{
    let copy = going.try_clone(alloc)?;
    match copy.apply(alloc, itself, act) {
        Ok(after) => Ok(after),
        Err(Fault::Dynamic) => Ok(Config::Ended(Verdict::Error)),
        Err(Fault::Memory) => Err(AllocError),
    }
}

/// The configuration behind the step of a component's statement, if it has one. A dynamic error ends the test case.
fn statement(
    alloc: Global,
    test: &TestCase<'_>,
    going: &Going,
    component: &Component,
) -> Result<Option<Config>, AllocError>
    requires ordered { HasPathsInOrder going.now }
    requires all { IsGoingWithin (extent_of test.now) going.now }
    requires within { IsWithin (extent_of test.now) component.now.own }
    ensures behind { IfOk result (IsBehind (legend_by test.now) (steps.statement_step (test_by test.now) (going_by (legend_by test.now) going.now) (component_by (legend_by test.now) component.now))) }
    ensures within { IfOk result (λ after. IfSome after (IsConfigWithin (extent_of test.now))) }
{
    slots_are_ordered(test);
    if !is_running(component.state) {
        return Ok(None);
    }
    match asked(alloc, test, going, component) {
        Ok(None) => Ok(None),
        Ok(Some(act)) => {
            let after = done(alloc, going, &component.itself, act)?;
            Ok(Some(after))
        }
        Err(Fault::Dynamic) => Ok(Some(Config::Ended(Verdict::Error))),
        Err(Fault::Memory) => Err(AllocError),
    }
}

/// The configuration behind the step of a label, if it is enabled.
pub(crate) fn step(
    alloc: Global,
    test: &TestCase<'_>,
    going: &Going,
    label: &Label,
) -> Result<Option<Config>, AllocError>
    requires { Fits (machine_of test.now) (config.Going going.now) }
    ensures behind { IfOk result (λ after. option_map (said (machine_of test.now)) after ≡ steps.next (test_by test.now) (rules.Goes (going_by (legend_by test.now) going.now)) label.now) }
    ensures fits { IfOk result (λ after. IfSome after (Fits (machine_of test.now))) }
{
    match label {
        Label::Statement(path) => match component_of(going.components.as_slice(), &path.numbers) {
            Some(component) => statement(alloc, test, going, component),
            None => Ok(None),
        },
        Label::Expiry {
            component,
            frame,
            timer,
        } => expiry_named(alloc, test, going, component, *frame, timer),
        Label::Delivery(system_port) => delivery_named(alloc, test, going, system_port),
    }
}

/// The configuration to which a label leads.
pub(crate) fn next(
    alloc: Global,
    test: &TestCase<'_>,
    config: &Config,
    label: &Label,
) -> Result<Config, StepError>
    requires { Fits (machine_of test.now) config.now }
    ensures leads { Leads (machine_of test.now) (steps.next (test_by test.now) (said (machine_of test.now) config.now) label.now) result }
    ensures fits { IfOk result (Fits (machine_of test.now)) }
{
    match config {
        Config::Ended(_) => Err(StepError::NotEnabled),
        Config::Going(going) => match step(alloc, test, going, label)? {
            Some(after) => Ok(after),
            None => Err(StepError::NotEnabled),
        },
    }
}
