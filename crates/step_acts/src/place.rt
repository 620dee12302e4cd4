//! The branch that a component's step takes (ES 201 873-1, 20.2).
ghost use Rattle.std.specs.Prelude.{◌≡◌, ◌∷◌, IfOk, Some};
ghost use Rattle.step_forms.specs.Asks.{Asks};
ghost use Rattle.step_forms.specs.internal.Places.{behind_first};
ghost use Rattle.step_forms.specs.internal.Stands.{site_of, stand_by};
ghost use Rattle.step_choice.specs.Choices.{Chooses, choice_of};
ghost use Rattle.semantics.specs.Items as rules;
ghost use Rattle.semantics.specs.Places.{place_chosen, place_in_frames, place_in_list, unless_fault};
ghost use Rattle.semantics.specs.Sites.{Site};
ghost use Rattle.semantics.specs.Statements as said;
ghost use Rattle.step_snapshot.specs.Seen.{own_by, seen_by};
ghost use Rattle.step_snapshot.specs.Tests.{test_by};
ghost use Rattle.step_snapshot.specs.declared.snapshot.Snapshot.{Snapshot as ASnapshot};
ghost use Rattle.config_parts.specs.Legend.{Legend};
ghost use Rattle.graph_items.specs.Standing.{part_of};
ghost use Rattle.ttcn_syntax.specs.declared.tree.statement.Statement.{Statement as AStatement};

use crate::choice::{chosen_at_alt, chosen_at_call, chosen_at_event};
use crate::step::act_at;
use config_parts::{Act, Frame};
use std::alloc::{AllocError, Global};
use step_choice::Taken;
use step_forms::call::altstep_called;
use step_forms::position::first_at;
use step_forms::stand::Stand;
use step_snapshot::Snapshot;
use ttcn_graph::{First, Part};
use ttcn_syntax::{Action, Span};
use value_types::Fault;

/// The place of the branch that is chosen, if one is.
fn place_of(chosen: Result<Option<Taken<'_, '_>>, Fault>) -> Result<Option<Span>, AllocError>
    ensures { (s : ASnapshot) (site : Site) (statement : AStatement) → Chooses s site statement chosen.entry
        → IfOk result (λ place. place ≡ place_chosen (choice_of (test_by s.test.now) (seen_by s) (own_by s) site statement)) }
{
    match chosen {
        Ok(Some(taken)) => Ok(Some(taken.place)),
        Ok(None) => Ok(None),
        Err(Fault::Dynamic) => Ok(None),
        Err(Fault::Memory) => Err(AllocError),
    }
}

/// The place of the branch that is chosen at the whole of a statement, if it is an `alt` or stands for one.
fn place_whole(alloc: Global, stand: &Stand<'_, '_>) -> Result<Option<Span>, AllocError>
    requires { part_of stand.now.part ≡ rules.Whole }
    ensures { IfOk result (λ place. place ≡ place_chosen (said.choice_at (stand_by stand.now) (site_of stand.now) stand.now.statement.now)) }
{
    match stand.statement.action.get() {
        Action::Call(call) => match altstep_called(stand.snapshot.test, call) {
            Some(at) => place_of(chosen_at_call(alloc, stand, call, at)),
            None => Ok(None),
        },
        Action::Event(event) => place_of(chosen_at_event(alloc, stand, event)),
        Action::Alt(branches) => place_of(chosen_at_alt(alloc, stand, branches.as_slice())),
        _ => Ok(None),
    }
}

/// The place of the branch that is chosen at a part of a statement: only the whole of one is an `alt` or stands for one.
fn place_part(alloc: Global, stand: &Stand<'_, '_>) -> Result<Option<Span>, AllocError>
    ensures { IfOk result (λ place. place ≡ place_in_list (stand_by stand.now).test (stand_by stand.now).snapshot (stand_by stand.now).own (stand_by stand.now).frame (stand_by stand.now).below
        (rules.Doing (site_of stand.now) stand.now.statement.now (part_of stand.now.part) ∷ (stand_by stand.now).rest)) }
{
    match stand.part {
        Part::Whole => place_whole(alloc, stand),
        Part::Name(_) => Ok(None),
        Part::From(_) => Ok(None),
        Part::Start => Ok(None),
        Part::Loop => Ok(None),
        Part::Last => Ok(None),
    }
}

/// The place of the branch that is chosen where a frame is the last one, if one is.
fn place_at<'t, 'a>(
    alloc: Global,
    snapshot: &'a Snapshot<'t, 'a>,
    frame: &'a Frame,
) -> Result<Option<Span>, AllocError>
    requires { snapshot.now.component.now.own.calls ≡ frame.now ∷ behind_first snapshot.now.component.now.own.calls }
    ensures { IfOk result (λ place. place ≡ place_in_frames (test_by snapshot.now.test.now) (seen_by snapshot.now) (own_by snapshot.now) (own_by snapshot.now).calls) }
{
    let test = snapshot.test;
    match first_at(test, frame.remaining) {
        None => Ok(None),
        Some(
            (
                First::Doing {
                    behaviour,
                    statement,
                    part,
                },
                rest,
            ),
        ) => {
            let stand = Stand {
                snapshot,
                frame,
                behaviour,
                statement,
                part,
                rest,
                facts: test.graphs.facts(frame.remaining),
            };
            place_part(alloc, &stand)
        }
        Some((First::Mark(_) | First::Waiting(_), _)) => Ok(None),
    }
}

/// The place, unless the step fails.
#[tactic(auto, using(crate::proofs::Placing::asked_place, crate::proofs::Placing::fault_place))]
fn unless_failed(place: Span, asked: Result<Option<Act>, Fault>) -> Result<Option<Span>, AllocError>
    ensures { (legend : Legend) (act : said.Act) → Asks legend act asked → IfOk result (λ found. found ≡ unless_fault act (Some place)) }
{
    match asked {
        Ok(_act) => Ok(Some(place)),
        Err(Fault::Dynamic) => Ok(None),
        Err(Fault::Memory) => Err(AllocError),
    }
}

/// The place of the branch that a running component's step takes, if it takes one. A step that fails takes none.
pub fn branch<'t, 'a>(
    alloc: Global,
    snapshot: &'a Snapshot<'t, 'a>,
) -> Result<Option<Span>, AllocError>
    ensures { IfOk result (λ place. place ≡ unless_fault (said.act (test_by snapshot.now.test.now) (seen_by snapshot.now) (own_by snapshot.now))
        (place_in_frames (test_by snapshot.now.test.now) (seen_by snapshot.now) (own_by snapshot.now) (own_by snapshot.now).calls)) }
{
    let Some(frame) = snapshot.component.own.calls.as_slice().first() else {
        return Ok(None);
    };
    match place_at(alloc, snapshot, frame)? {
        Some(place) => unless_failed(place, act_at(alloc, snapshot, frame)),
        None => Ok(None),
    }
}
