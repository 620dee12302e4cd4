//! What is chosen where a component stands at an `alt`, or at what stands for one (ES 201 873-1, 20.2).
ghost use Rattle.std.specs.Prelude.{◌≡◌, IfOk, IfSome, Some};
ghost use Rattle.check_rules.specs.Calls.{altstep_meant};
ghost use Rattle.check_scope.specs.Names.{module_names};
ghost use Rattle.step_forms.specs.internal.Stands.{site_of};
ghost use Rattle.step_choice.specs.Choices.{Chooses};
ghost use Rattle.step_choice.specs.Deeds.{HasKnownNames};
ghost use Rattle.semantics.specs.Items as rules;
ghost use Rattle.graph_items.specs.Standing.{part_of};
ghost use Rattle.ttcn_graph.specs.internal.Drawing.{Does};
ghost use Rattle.ttcn_syntax.specs.declared.tree.statement.Action.TheVariants as form;

use std::alloc::Global;
use step_choice::{Taken, choose_alt, choose_call, choose_event};
use step_forms::facts::awaited;
use step_forms::stand::Stand;
use ttcn_syntax::{Branch, Call, Event};
use value_types::Fault;

/// What a component chooses at a call of the altstep at a position, which is an `alt` of its own.
pub(crate) fn chosen_at_call<'t, 'a>(
    alloc: Global,
    stand: &Stand<'t, 'a>,
    call: &'a Call,
    at: usize,
) -> Result<Option<Taken<'t, 'a>>, Fault>
    requires does { Does stand.now.statement.now (form.Call call.now) }
    requires altstep { altstep_meant (module_names stand.now.snapshot.now.test.now.definitions call.now.name) ≡ Some at }
    ensures chosen { Chooses stand.now.snapshot.now (site_of stand.now) stand.now.statement.now result }
    ensures known { IfOk result (λ found. IfSome found (λ taken. HasKnownNames stand.now.snapshot.now.test.now.names taken.deed)) }
{
    choose_call(
        alloc,
        stand.snapshot,
        stand.behaviour,
        stand.statement,
        call,
        at,
    )
}

/// What a component chooses at an event, which is an `alt` of its own.
pub(crate) fn chosen_at_event<'t, 'a>(
    alloc: Global,
    stand: &Stand<'t, 'a>,
    event: &'a Event,
) -> Result<Option<Taken<'t, 'a>>, Fault>
    requires whole { part_of stand.now.part ≡ rules.Whole }
    requires does { Does stand.now.statement.now (form.Event event.now) }
    ensures chosen { Chooses stand.now.snapshot.now (site_of stand.now) stand.now.statement.now result }
    ensures known { IfOk result (λ found. IfSome found (λ taken. HasKnownNames stand.now.snapshot.now.test.now.names taken.deed)) }
{
    let facts = &awaited(stand.facts)[0];
    let behaviour = stand.behaviour;
    choose_event(
        alloc,
        stand.snapshot,
        behaviour,
        stand.statement,
        event,
        facts,
    )
}

/// What a component chooses at an `alt`.
pub(crate) fn chosen_at_alt<'t, 'a>(
    alloc: Global,
    stand: &Stand<'t, 'a>,
    branches: &'a [Branch],
) -> Result<Option<Taken<'t, 'a>>, Fault>
    requires whole { part_of stand.now.part ≡ rules.Whole }
    requires does { Does stand.now.statement.now (form.Alt branches.now) }
    ensures chosen { Chooses stand.now.snapshot.now (site_of stand.now) stand.now.statement.now result }
    ensures known { IfOk result (λ found. IfSome found (λ taken. HasKnownNames stand.now.snapshot.now.test.now.names taken.deed)) }
{
    let facts = awaited(stand.facts);
    let behaviour = stand.behaviour;
    choose_alt(
        alloc,
        stand.snapshot,
        behaviour,
        stand.statement,
        branches,
        facts,
    )
}
