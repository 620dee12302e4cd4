//! Whether an event has happened in a snapshot (ES 201 873-1, 20.2, 21.3, 22.2 and 23).
ghost use Rattle.std.specs.Prelude.{◌≡◌, length};
ghost use Rattle.step_choice.specs.internal.Judged as spec;
ghost use Rattle.step_choice.specs.internal.Judged.{Tries, judge_of, test_of};
ghost use Rattle.semantics.specs.Events as rules;
ghost use Rattle.semantics.specs.Sites.{Site, is_own};
ghost use Rattle.semantics.specs.Snapshots.{View, reading_in};
ghost use Rattle.step_snapshot.specs.Seen.{own_by, seen_by};
ghost use Rattle.config_parts.specs.Views.{HasSlotsWithin};
ghost use Rattle.graph_sites.specs.Facts.{event_by, event_facts};
ghost use Rattle.value_types.specs.Frames.{reading};

use crate::receive::try_receive;
use crate::taken::Deed;
use config_parts::Cells;
use std::alloc::Global;
use step_snapshot::Snapshot;
use ttcn_graph::EventFacts;
use ttcn_syntax::{ComponentRef, Event, Name};
use ttcn_values::eval_component;
use value_types::{Fault, Frame, TimerState};

/// An event that happens where something is true, and does nothing more.
fn happened_if<'t, 'a>(truth: bool) -> Option<Deed<'t, 'a>>
    ensures { result ≡ spec.deed_if truth }
{
    if truth { Some(Deed::Nothing) } else { None }
}

/// `t.timeout`
fn try_timeout<'t, 'a>(
    snapshot: &Snapshot<'t, 'a>,
    behaviour: usize,
    inner: &Cells,
    name: &'a Name,
    own: bool,
) -> Result<Option<Deed<'t, 'a>>, Fault>
    ensures { (site : Site) → site.behaviour ≡ behaviour → own ≡ is_own (test_of snapshot.now).definitions site name.now
        → Tries snapshot.now site (rules.try_timeout name.now (rules.timer_seen (test_of snapshot.now) (seen_by snapshot.now) (own_by snapshot.now) (judge_of snapshot.now site inner.now) name.now)) result }
{
    match snapshot.timer(behaviour, inner, name) {
        Some(TimerState::Expired) => Ok(Some(Deed::Elapses(name, own))),
        Some(TimerState::Running | TimerState::Inactive) => Ok(None),
        None => Err(Fault::Dynamic),
    }
}

/// `c.done`: `null` is a dynamic error.
fn try_done<'t, 'a>(
    alloc: Global,
    snapshot: &Snapshot<'t, 'a>,
    reference: &ComponentRef,
    frame: &Frame<'_>,
) -> Result<Option<Deed<'t, 'a>>, Fault>
    ensures { (site : Site) → Tries snapshot.now site (rules.try_done (seen_by snapshot.now) (reading frame.now) reference.now) result }
{
    match eval_component(alloc, reference, frame) {
        Ok(component) => Ok(happened_if(snapshot.is_terminated(&component.path))),
        Err(fault) => Err(fault),
    }
}

/// `all component.done`: a dynamic error elsewhere than on the MTC.
fn try_all_done<'t, 'a>(snapshot: &Snapshot<'t, 'a>) -> Result<Option<Deed<'t, 'a>>, Fault>
    ensures { (site : Site) (inner : View) → Tries snapshot.now site (rules.try_all_done (test_of snapshot.now) (seen_by snapshot.now) (reading_in (test_of snapshot.now) (seen_by snapshot.now) (own_by snapshot.now) site inner)) result }
{
    if snapshot.component.itself.path == snapshot.test.mtc.path {
        Ok(happened_if(!snapshot.others_run()))
    } else {
        Err(Fault::Dynamic)
    }
}

/// Whether an event has happened in the behaviour at a position, where the names of a frame have these values and timers,
/// and what taking its branch does then.
pub(crate) fn try_event<'t, 'a>(
    alloc: Global,
    snapshot: &Snapshot<'t, 'a>,
    behaviour: usize,
    inner: &Cells,
    event: &'a Event,
    facts: &'a EventFacts<'t>,
) -> Result<Option<Deed<'t, 'a>>, Fault>
    requires { HasSlotsWithin (length snapshot.now.test.now.names) inner.now }
    ensures { (site : Site) → site.behaviour ≡ behaviour → event_by facts.now ≡ event_facts (test_of snapshot.now).definitions site event.now
        → Tries snapshot.now site (rules.try_event (test_of snapshot.now) (seen_by snapshot.now) (own_by snapshot.now) (judge_of snapshot.now site inner.now) event.now) result }
{
    match event {
        Event::Receive(receive) => {
            let frame = snapshot.frame(behaviour, inner);
            try_receive(alloc, snapshot, receive, facts, &frame)
        }
        Event::Timeout(name) => try_timeout(snapshot, behaviour, inner, name, facts.own),
        Event::Done(reference) => {
            let frame = snapshot.frame(behaviour, inner);
            try_done(alloc, snapshot, reference, &frame)
        }
        Event::AllDone => try_all_done(snapshot),
    }
}
