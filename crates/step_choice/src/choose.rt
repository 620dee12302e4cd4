//! What a component chooses at an `alt`, or at what stands for one (ES 201 873-1, 20.2 and 20.5).
ghost use Rattle.std.specs.Prelude.{◌≡◌, [], IfOk, IfSome, Some, length, map};
ghost use Rattle.std.specs.List.{flat_map};
ghost use Rattle.check_rules.specs.Calls.{altstep_meant};
ghost use Rattle.check_scope.specs.Names.{module_names};
ghost use Rattle.step_choice.specs.Choices.{Chooses, Finds};
ghost use Rattle.step_choice.specs.Deeds.{HasKnownNames};
ghost use Rattle.step_choice.specs.internal.Judged.{Is, first_of, test_of};
ghost use Rattle.semantics.specs.Branches.{written_defaults};
ghost use Rattle.semantics.specs.Sites.{Site};
ghost use Rattle.step_snapshot.specs.Seen.{own_by, seen_by};
ghost use Rattle.step_snapshot.specs.Slots.{NoneIsMissing};
ghost use Rattle.graph_sites.specs.Facts.{branch_facts, event_by, event_facts};
ghost use Rattle.graph_names.specs.Known.{names_of_branch, names_of_event};
ghost use Rattle.ttcn_graph.specs.internal.Drawing.{Does};
ghost use Rattle.ttcn_syntax.specs.declared.tree.statement.Action.TheVariants as form;
ghost use Rattle.check_rules.specs.Limits as limits;

use crate::altstep::{choose_altstep, choose_branches, choose_called, choose_open};
use crate::taken::Taken;
use config_parts::TryClone;
use std::alloc::Global;
use step_snapshot::Snapshot;
use ttcn_graph::EventFacts;
use ttcn_syntax::{Branch, Call, Event, Statement};
use value_types::Fault;

/// From a branch of an `alt`, or a default, altsteps call each other in chains of so many at most.
fn longest_chain() -> usize
    ensures { result ≡ limits.longest_chain }
{
    200
}

/// The branches of a component's defaults: the first one that can be taken, in this way.
fn choose_default<'t, 'a>(
    alloc: Global,
    snapshot: &Snapshot<'t, 'a>,
    way: usize,
) -> Result<Option<Taken<'t, 'a>>, Fault>
    ensures { Finds snapshot.now (Is way []) (first_of snapshot.now (written_defaults (test_of snapshot.now) (seen_by snapshot.now) (own_by snapshot.now))) result }
{
    for default in snapshot.component.own.defaults.as_slice() {
        let arguments = default.arguments.try_clone(alloc)?;
        let levels = longest_chain();
        match choose_altstep(alloc, snapshot, way, default.altstep, arguments, levels) {
            Ok(None) => {}
            Ok(Some(taken)) => return Ok(Some(taken)),
            Err(fault) => return Err(fault),
        }
    }
    Ok(None)
}

/// What a component chooses at an `alt` in the behaviour at a position: the first of the branches, and then of the branches
/// of its defaults, that can be taken.
pub fn choose_alt<'t, 'a>(
    alloc: Global,
    snapshot: &Snapshot<'t, 'a>,
    behaviour: usize,
    statement: &'a Statement,
    branches: &'a [Branch],
    facts: &'a [EventFacts<'t>],
) -> Result<Option<Taken<'t, 'a>>, Fault>
    requires form { Does statement.now (form.Alt branches.now) }
    requires as_many { length facts.now ≡ length branches.now }
    requires named { NoneIsMissing snapshot.now.test.now.names (flat_map names_of_branch branches.now) }
    ensures chosen { (site : Site) → site.behaviour ≡ behaviour → map event_by facts.now ≡ map (branch_facts (test_of snapshot.now).definitions site) branches.now
        → Chooses snapshot.now site statement.now result }
    ensures known { (site : Site) → site.behaviour ≡ behaviour → map event_by facts.now ≡ map (branch_facts (test_of snapshot.now).definitions site) branches.now
        → IfOk result (λ found. IfSome found (λ taken. HasKnownNames snapshot.now.test.now.names taken.deed)) }
{
    let inner = snapshot.last_cells();
    let levels = longest_chain();
    match choose_branches(alloc, snapshot, behaviour, inner, branches, facts, levels) {
        Ok(None) => choose_default(alloc, snapshot, branches.len()),
        Ok(Some(taken)) => Ok(Some(taken)),
        Err(fault) => Err(fault),
    }
}

/// What a component chooses at an event, which is an `alt` of its own.
pub fn choose_event<'t, 'a>(
    alloc: Global,
    snapshot: &Snapshot<'t, 'a>,
    behaviour: usize,
    statement: &'a Statement,
    event: &'a Event,
    facts: &'a EventFacts<'t>,
) -> Result<Option<Taken<'t, 'a>>, Fault>
    requires form { Does statement.now (form.Event event.now) }
    requires named { NoneIsMissing snapshot.now.test.now.names (names_of_event event.now) }
    ensures chosen { (site : Site) → site.behaviour ≡ behaviour → event_by facts.now ≡ event_facts (test_of snapshot.now).definitions site event.now
        → Chooses snapshot.now site statement.now result }
    ensures known { (site : Site) → site.behaviour ≡ behaviour → event_by facts.now ≡ event_facts (test_of snapshot.now).definitions site event.now
        → IfOk result (λ found. IfSome found (λ taken. HasKnownNames snapshot.now.test.now.names taken.deed)) }
{
    let inner = snapshot.last_cells();
    match choose_open(
        alloc,
        snapshot,
        behaviour,
        inner,
        statement.place,
        0,
        event,
        facts,
    ) {
        Ok(None) => choose_default(alloc, snapshot, 0),
        Ok(Some(taken)) => Ok(Some(taken)),
        Err(fault) => Err(fault),
    }
}

/// What a component chooses at a call of an altstep, which is an `alt` of its own.
pub fn choose_call<'t, 'a>(
    alloc: Global,
    snapshot: &Snapshot<'t, 'a>,
    behaviour: usize,
    statement: &'a Statement,
    call: &'a Call,
    at: usize,
) -> Result<Option<Taken<'t, 'a>>, Fault>
    requires form { Does statement.now (form.Call call.now) }
    requires altstep { altstep_meant (module_names (test_of snapshot.now).definitions call.now.name) ≡ Some at }
    ensures chosen { (site : Site) → site.behaviour ≡ behaviour → Chooses snapshot.now site statement.now result }
    ensures known { IfOk result (λ found. IfSome found (λ taken. HasKnownNames snapshot.now.test.now.names taken.deed)) }
{
    let inner = snapshot.last_cells();
    let levels = longest_chain();
    match choose_called(alloc, snapshot, behaviour, inner, 0, call, at, levels) {
        Ok(None) => choose_default(alloc, snapshot, 0),
        Ok(Some(taken)) => Ok(Some(taken)),
        Err(fault) => Err(fault),
    }
}
