//! Branches, and the altsteps that stand as branches (ES 201 873-1, 16.2 and 20.2).
ghost use Rattle.std.specs.Prelude.{◌≡◌, ◌∷◌, [], IsSome, List, Some, length, map};
ghost use Rattle.std.specs.List.{flat_map, slice_get};
ghost use Rattle.std.specs.Option.{option_map};
ghost use Rattle.check_rules.specs.Calls.{altstep_meant};
ghost use Rattle.check_scope.specs.Names.{kind_at, module_names};
ghost use Rattle.step_choice.specs.Choices.{Finds, IsTaken};
ghost use Rattle.step_choice.specs.internal.Judged.{Is, IsAmong, altstep_of, below, first_of, judge_of, reads, test_of};
ghost use Rattle.semantics.specs.Branches as rules;
ghost use Rattle.semantics.specs.Branches.{Chance};
ghost use Rattle.semantics.specs.Events as events;
ghost use Rattle.semantics.specs.Events.{Effect};
ghost use Rattle.semantics.specs.Items.{Item};
ghost use Rattle.semantics.specs.Sites.{Site};
ghost use Rattle.semantics.specs.Snapshots.{view_of_arguments};
ghost use Rattle.step_choice.specs.internal.Later.{chance_through};
ghost use Rattle.step_snapshot.specs.Seen.{own_by, seen_by};
ghost use Rattle.step_snapshot.specs.Tests.{legend_by};
ghost use Rattle.config_parts.specs.Views.{HasSlotsWithin, view_by};
ghost use Rattle.graph_sites.specs.Facts.{altstep_facts, branch_facts, event_by, event_facts};
ghost use Rattle.ttcn_graph.specs.Graphs.{beginnings_at};
ghost use Rattle.ttcn_graph.specs.Ways.{items_of_branch};
ghost use Rattle.value_types.specs.Outcomes.{Gives, Yields};
ghost use Rattle.value_types.specs.declared.value.Value.{Value as AValue};

use crate::arguments::call_arguments;
use crate::event::try_event;
use crate::taken::{Deed, Taken};
use check_scope::names::Meaning;
use config_parts::{Cells, Frame, Shared};
use std::alloc::Global;
use step_snapshot::{Snapshot, TestCase, argument_cells};
use ttcn_graph::EventFacts;
use ttcn_syntax::{Alternative, Altstep, Branch, Call, DefinitionKind, Event, Expr, Seq, Span};
use ttcn_values::eval_condition;
use value_types::{Fault, Value};

/// A branch that is taken, without the frames of altsteps.
fn taken<'t, 'a>(alloc: Global, place: Span, way: usize, deed: Deed<'t, 'a>) -> Taken<'t, 'a>
    ensures { result ≡ record { place = place; way = way; frames = []; deed = deed.entry } }
{
    Taken {
        place,
        way,
        frames: Seq::new(alloc),
        deed,
    }
}

/// What a guard gives: one that isn't there is true.
fn holds(
    alloc: Global,
    snapshot: &Snapshot<'_, '_>,
    behaviour: usize,
    inner: &Cells,
    guard: &Option<Expr>,
) -> Result<bool, Fault>
    requires { HasSlotsWithin (length snapshot.now.test.now.names) inner.now }
    ensures { (site : Site) → site.behaviour ≡ behaviour → Gives (rules.guard_holds (reads snapshot.now site inner.now) guard.now) result }
{
    let Some(guard) = guard else {
        return Ok(true);
    };
    let frame = snapshot.frame(behaviour, inner);
    eval_condition(alloc, guard, &frame)
}

/// A branch with an event.
pub(crate) fn choose_open<'t, 'a>(
    alloc: Global,
    snapshot: &Snapshot<'t, 'a>,
    behaviour: usize,
    inner: &Cells,
    place: Span,
    way: usize,
    event: &'a Event,
    facts: &'a EventFacts<'t>,
) -> Result<Option<Taken<'t, 'a>>, Fault>
    requires { HasSlotsWithin (length snapshot.now.test.now.names) inner.now }
    ensures { (site : Site) (block : List Item) → site.behaviour ≡ behaviour → event_by facts.now ≡ event_facts (test_of snapshot.now).definitions site event.now
        → Finds snapshot.now (Is way block) (first_of snapshot.now (rules.open_branch (test_of snapshot.now) (judge_of snapshot.now site inner.now) place (Some event.now) block ∷ [])) result }
{
    match try_event(alloc, snapshot, behaviour, inner, event, facts) {
        Ok(Some(deed)) => Ok(Some(taken(alloc, place, way, deed))),
        Ok(None) => Ok(None),
        Err(fault) => Err(fault),
    }
}

/// The position of the altstep that is called.
fn altstep_called(snapshot: &Snapshot<'_, '_>, call: &Call) -> Option<usize>
    ensures { result ≡ altstep_meant (module_names (test_of snapshot.now).definitions call.now.name) }
{
    match snapshot.test.definitions.meaning(call.name.as_bytes()) {
        Some(Meaning::Altstep(at)) => Some(at),
        _ => None,
    }
}

/// The altstep at a position, where one is defined.
fn altstep_at<'t>(test: &TestCase<'t>, at: usize) -> Option<&'t Altstep>
    ensures { option_map (λ altstep. altstep.now) result ≡ altstep_of (kind_at test.now.definitions at) }
{
    match test.definitions.kind(at) {
        Some(DefinitionKind::Altstep(altstep)) => Some(altstep),
        _ => None,
    }
}

/// What is known of the branches of the altstep at a position.
fn altstep_facts<'t, 'a>(test: &'a TestCase<'t>, at: usize) -> &'a [EventFacts<'t>]
    ensures { map event_by result.now ≡ altstep_facts test.now.definitions at }
{
    test.graphs.altstep_facts(at)
}

/// Branches in the behaviour at a position, where the names of a frame have these values and timers: the first one that can
/// be taken. Altsteps call each other in chains of less than so many.
#[cycle(choosing)]
pub(crate) fn choose_branches<'t, 'a>(
    alloc: Global,
    snapshot: &Snapshot<'t, 'a>,
    behaviour: usize,
    inner: &Cells,
    branches: &'a [Branch],
    facts: &'a [EventFacts<'t>],
    levels: usize,
) -> Result<Option<Taken<'t, 'a>>, Fault>
    requires within { HasSlotsWithin (length snapshot.now.test.now.names) inner.now }
    requires known { length facts.now ≡ length branches.now }
    ensures { (site : Site) → site.behaviour ≡ behaviour → map event_by facts.now ≡ map (branch_facts (test_of snapshot.now).definitions site) branches.now
        → Finds snapshot.now (IsAmong (map (items_of_branch (test_of snapshot.now).definitions site) branches.now))
        (first_of snapshot.now (flat_map (rules.written_branch (below levels snapshot.now) (test_of snapshot.now) (seen_by snapshot.now) (own_by snapshot.now) (judge_of snapshot.now site inner.now)) branches.now)) result }
{
    for (way, branch) in branches.iter().enumerate() {
        let known = &facts[way];
        match choose_branch(
            alloc, snapshot, behaviour, inner, way, branch, known, levels,
        ) {
            Ok(None) => {}
            Ok(Some(taken)) => return Ok(Some(taken)),
            Err(fault) => return Err(fault),
        }
    }
    Ok(None)
}

/// One branch.
#[cycle(choosing)]
fn choose_branch<'t, 'a>(
    alloc: Global,
    snapshot: &Snapshot<'t, 'a>,
    behaviour: usize,
    inner: &Cells,
    way: usize,
    branch: &'a Branch,
    facts: &'a EventFacts<'t>,
    levels: usize,
) -> Result<Option<Taken<'t, 'a>>, Fault>
    requires { HasSlotsWithin (length snapshot.now.test.now.names) inner.now }
    ensures { (site : Site) → site.behaviour ≡ behaviour → event_by facts.now ≡ branch_facts (test_of snapshot.now).definitions site branch.now
        → Finds snapshot.now (Is way (items_of_branch (test_of snapshot.now).definitions site branch.now))
        (first_of snapshot.now (rules.written_branch (below levels snapshot.now) (test_of snapshot.now) (seen_by snapshot.now) (own_by snapshot.now) (judge_of snapshot.now site inner.now) branch.now)) result }
{
    let place = branch.place;
    match branch.alternative.get() {
        Alternative::Event(guard, event, _block) => {
            match holds(alloc, snapshot, behaviour, inner, guard) {
                Ok(true) => choose_open(
                    alloc, snapshot, behaviour, inner, place, way, event, facts,
                ),
                Ok(false) => Ok(None),
                Err(fault) => Err(fault),
            }
        }
        Alternative::Call(guard, call, _block) => {
            match holds(alloc, snapshot, behaviour, inner, guard) {
                Ok(true) => choose_call(alloc, snapshot, behaviour, inner, way, call, levels),
                Ok(false) => Ok(None),
                Err(fault) => Err(fault),
            }
        }
        Alternative::Else(_block) => Ok(Some(taken(alloc, place, way, Deed::Nothing))),
    }
}

/// A call as a branch.
#[cycle(choosing)]
fn choose_call<'t, 'a>(
    alloc: Global,
    snapshot: &Snapshot<'t, 'a>,
    behaviour: usize,
    inner: &Cells,
    way: usize,
    call: &'a Call,
    levels: usize,
) -> Result<Option<Taken<'t, 'a>>, Fault>
    requires { HasSlotsWithin (length snapshot.now.test.now.names) inner.now }
    ensures { (site : Site) (block : List Item) → site.behaviour ≡ behaviour
        → Finds snapshot.now (Is way block)
        (first_of snapshot.now (rules.written_call (below levels snapshot.now) (test_of snapshot.now) (seen_by snapshot.now) (own_by snapshot.now) (judge_of snapshot.now site inner.now) call.now block (altstep_meant (module_names (test_of snapshot.now).definitions call.now.name)))) result }
{
    match altstep_called(snapshot, call) {
        Some(at) => choose_called(alloc, snapshot, behaviour, inner, way, call, at, levels),
        None => Err(Fault::Dynamic),
    }
}

/// A call of the altstep at a position: its arguments are evaluated first.
#[cycle(choosing)]
pub(crate) fn choose_called<'t, 'a>(
    alloc: Global,
    snapshot: &Snapshot<'t, 'a>,
    behaviour: usize,
    inner: &Cells,
    way: usize,
    call: &'a Call,
    at: usize,
    levels: usize,
) -> Result<Option<Taken<'t, 'a>>, Fault>
    requires { HasSlotsWithin (length snapshot.now.test.now.names) inner.now }
    ensures { (site : Site) (block : List Item) → site.behaviour ≡ behaviour
        → Finds snapshot.now (Is way block)
        (first_of snapshot.now (rules.written_call (below levels snapshot.now) (test_of snapshot.now) (seen_by snapshot.now) (own_by snapshot.now) (judge_of snapshot.now site inner.now) call.now block (Some at))) result }
{
    match call_arguments(alloc, snapshot, behaviour, inner, call, at) {
        Ok(values) => choose_altstep(alloc, snapshot, way, at, values, levels),
        Err(fault) => Err(fault),
    }
}

/// The branches of the altstep at a position with these arguments.
#[cycle(choosing)]
pub(crate) fn choose_altstep<'t, 'a>(
    alloc: Global,
    snapshot: &Snapshot<'t, 'a>,
    way: usize,
    at: usize,
    values: Seq<Value>,
    levels: usize,
) -> Result<Option<Taken<'t, 'a>>, Fault>
    ensures { (block : List Item) → Finds snapshot.now (Is way block)
        (first_of snapshot.now (rules.written_with (below levels snapshot.now) (test_of snapshot.now) (seen_by snapshot.now) (own_by snapshot.now) at block (Yields values))) result }
{
    if levels == 0 {
        return Err(Fault::Dynamic);
    }
    let Some(altstep) = altstep_at(snapshot.test, at) else {
        return Ok(None);
    };
    let inner = argument_cells(alloc, snapshot.test, at, values)?;
    let branches = altstep.branches.as_slice();
    let facts = altstep_facts(snapshot.test, at);
    match choose_branches(alloc, snapshot, at, &inner, branches, facts, levels - 1) {
        Ok(Some(taken)) => through(alloc, snapshot, way, at, inner, taken),
        Ok(None) => Ok(None),
        Err(fault) => Err(fault),
    }
}

/// A branch that is taken of the altstep at a position, from a call of the altstep: there is one more frame.
fn through<'t, 'a>(
    alloc: Global,
    snapshot: &Snapshot<'t, 'a>,
    way: usize,
    at: usize,
    inner: Cells,
    taken: Taken<'t, 'a>,
) -> Result<Option<Taken<'t, 'a>>, Fault>
    requires within { HasSlotsWithin (length snapshot.now.test.now.names) inner }
    requires start { IsSome (slice_get (beginnings_at (test_of snapshot.now).definitions at) taken.way) }
    ensures { (chance : Chance) (effect : Effect) (values : List AValue) (block : List Item) → IsTaken snapshot.now (IsAmong (beginnings_at (test_of snapshot.now).definitions at)) chance effect taken.entry
        → view_by (legend_by snapshot.now.test.now) inner ≡ view_of_arguments (rules.argument_values (test_of snapshot.now).definitions at values)
        → Finds snapshot.now (Is way block) (events.Taken (chance_through (test_of snapshot.now) at values block chance) effect) result }
{
    let Taken {
        place,
        way: branch,
        mut frames,
        deed,
    } = taken;
    let Some(remaining) = snapshot.test.graphs.start(at, branch) else {
        unreachable!()
    };
    frames.push(Frame {
        remaining,
        cells: Shared::new(alloc, inner)?,
    })?;
    Ok(Some(Taken {
        place,
        way,
        frames,
        deed,
    }))
}
