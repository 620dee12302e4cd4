//! The places that reports name (ES 201 873-4).
ghost use Rattle.std.specs.Prelude.{◌≡◌, ◌++◌, ◌∷◌, [], List, IfOk, OnOk, get_or, map};
ghost use Rattle.semantics.specs.Items.{Item};
ghost use Rattle.semantics.specs.Places as rules;
ghost use Rattle.semantics.specs.Sites.{Site};
ghost use Rattle.step_snapshot.specs.Tests.{legend_by, test_by};
ghost use Rattle.config_parts.specs.Legend.{component_by, frame_by, going_by};
ghost use Rattle.graph_items.specs.Begun.{item_at};
ghost use Rattle.ttcn_step.specs.Machines.{Fits, machine_of, said};
ghost use Rattle.ttcn_step.specs.Standing.{standing_of};

use crate::labels::is_stuck;
use crate::step::is_running;
use config_parts::{Component, Config, Frame, Going};
use std::alloc::{AllocError, Global};
use step_labels::Standing;
use step_snapshot::TestCase;
use ttcn_graph::First;
use ttcn_syntax::Span;

/// The place of the statement that stands first, if a part of one does.
fn place_first(first: First<'_, '_>) -> Option<Span>
    ensures { (site : Site) (rest : List Item) → result ≡ rules.place_of_item (item_at site first.entry ∷ rest) }
{
    match first {
        First::Doing { statement, .. } => Some(statement.place),
        First::Mark(_) => None,
        First::Waiting(_) => None,
    }
}

/// The place of the first statement in the list at a position.
fn place_at(test: &TestCase<'_>, at: usize) -> Option<Span>
    ensures { result ≡ rules.place_of_item (get_or test.now.graphs.lists at []) }
{
    if at >= test.graphs.len() {
        return None;
    }
    match test.graphs.first(at) {
        Some(found) => place_first(found.0),
        None => None,
    }
}

/// The place of the first remaining statement of the last frame.
fn place_in(test: &TestCase<'_>, calls: &[Frame]) -> Option<Span>
    ensures { result ≡ rules.place_of_frames (map (frame_by (legend_by test.now)) calls.now) }
{
    match calls.first() {
        Some(frame) => place_at(test, frame.remaining),
        None => None,
    }
}

/// The place of the first remaining statement of a component that runs.
pub(crate) fn place_of(test: &TestCase<'_>, component: &Component) -> Option<Span>
    ensures { result ≡ rules.place_of (component_by (legend_by test.now) component.now) }
{
    if is_running(component.state) {
        place_in(test, component.own.calls.as_slice())
    } else {
        None
    }
}

/// A component with the place where it stands, if it runs and stands at a statement.
fn push_standing(
    alloc: Global,
    test: &TestCase<'_>,
    component: &Component,
    found: &mut Vec<Standing>,
) -> Result<(), AllocError>
    ensures { OnOk result (found.new.items ≡ found.old.items ++ rules.with_place (component_by (legend_by test.now) component.now) (rules.place_of (component_by (legend_by test.now) component.now))) }
{
    if let Some(place) = place_of(test, component) {
        let component = component.itself.path.try_clone(alloc)?;
        found.push(Standing { component, place })?;
    }
    Ok(())
}

/// The components that run, each with the place where it stands.
fn standing_in(
    alloc: Global,
    test: &TestCase<'_>,
    going: &Going,
) -> Result<Vec<Standing>, AllocError>
    ensures { IfOk result (λ found. found.items ≡ rules.standings (going_by (legend_by test.now) going.now)) }
{
    let mut found = Vec::new(alloc);
    for component in going.components.as_slice() {
        push_standing(alloc, test, component, &mut found)?;
    }
    Ok(found)
}

/// The components that run, each with the place where it stands. There are none where the test case ended.
pub(crate) fn standings(
    alloc: Global,
    test: &TestCase<'_>,
    config: &Config,
) -> Result<Vec<Standing>, AllocError>
    ensures { IfOk result (λ found. found.items ≡ standing_of (said (machine_of test.now) config.now)) }
{
    match config {
        Config::Ended(_) => Ok(Vec::new(alloc)),
        Config::Going(going) => standing_in(alloc, test, going),
    }
}

/// The components that run, each with the place where it stands, where no label is enabled.
pub(crate) fn blocked(
    alloc: Global,
    test: &TestCase<'_>,
    config: &Config,
) -> Result<Vec<Standing>, AllocError>
    requires { Fits (machine_of test.now) config.now }
    ensures { IfOk result (λ found. found.items ≡ rules.blocked (test_by test.now) (said (machine_of test.now) config.now)) }
{
    if is_stuck(alloc, test, config)? {
        standings(alloc, test, config)
    } else {
        Ok(Vec::new(alloc))
    }
}
