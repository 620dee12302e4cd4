//! Ends of frames, and results of calls (ES 201 873-1, 16 and 19.10).
ghost use Rattle.std.specs.Prelude.{◌≡◌, ◌∷◌, ◌<◌, false, length, map, IfNone, IfOk, IfSome};
ghost use Rattle.std.specs.Option.{option_and_then, option_map};
ghost use Rattle.check_rules.specs.Calls.{result_type_of};
ghost use Rattle.check_scope.specs.Names.{kind_at, module_names, resolved};
ghost use Rattle.step_forms.specs.Asks.{Asks, AsksWithin};
ghost use Rattle.step_forms.specs.internal.Places.{behind_first, list_at};
ghost use Rattle.semantics.specs.Items as rules;
ghost use Rattle.graph_items.specs.Standing.{target_of};
ghost use Rattle.step_forms.specs.internal.Stands.{legend_of, site_of, stand_by};
ghost use Rattle.step_data.specs.Frames.{left};
ghost use Rattle.semantics.specs.Statements as said;
ghost use Rattle.semantics.specs.Storing as storing;
ghost use Rattle.step_snapshot.specs.Seen.{own_by, seen_by};
ghost use Rattle.step_snapshot.specs.Slots.{IsKnown};
ghost use Rattle.step_snapshot.specs.Tests.{extent_of, legend_by, test_by};
ghost use Rattle.config_parts.specs.Legend.{data_by, frame_by};
ghost use Rattle.config_parts.specs.Views.{IsWithin};

use crate::position::first_at;
use crate::stand::Stand;
use crate::storing::store_at;
use check_rules::DataType;
use config_parts::{Act, Data, Frame, Request, TryClone};
use std::alloc::{AllocError, Global};
use step_data::leave;
use step_snapshot::{Snapshot, TestCase};
use ttcn_graph::{First, Target};
use ttcn_syntax::{DefinitionKind, Value as WrittenValue};
use value_types::{Fault, Value};

/// The target that waits first in a list, and the position of what is behind it, if one does.
fn waiting_at<'t, 'a>(test: &'t TestCase<'a>, at: usize) -> Option<(&'t Target<'a>, usize)>
    ensures none { IfNone result (said.waits_first (list_at test.now at) ≡ false) }
    ensures found { IfSome result (λ found. list_at test.now at ≡ rules.Waiting (target_of found.0.now) ∷ list_at test.now found.1) }
    ensures behind { IfSome result (λ found. found.1 < length test.now.graphs.lists) }
    ensures there { IfSome result (λ found. at < length test.now.graphs.lists) }
{
    match first_at(test, at) {
        Some((First::Waiting(target), rest)) => Some((target, rest)),
        _ => None,
    }
}

/// The component's data without the last frame.
fn left_data(alloc: Global, snapshot: &Snapshot<'_, '_>) -> Result<Data, AllocError>
    ensures own { IfOk result (λ own. data_by (legend_by snapshot.now.test.now) own ≡ left (own_by snapshot.now)) }
    ensures within { IfOk result (IsWithin (extent_of snapshot.now.test.now)) }
{
    let own = snapshot.component.own.try_clone(alloc)?;
    Ok(leave(alloc, own))
}

/// The component stops, without its last frame.
fn stop_behind(alloc: Global, snapshot: &Snapshot<'_, '_>) -> Result<Option<Act>, Fault>
    ensures asks { Asks (legend_by snapshot.now.test.now) (said.Requests (said.Stops (seen_by snapshot.now).itself.path) (left (own_by snapshot.now))) result }
    ensures within { AsksWithin (extent_of snapshot.now.test.now) result }
{
    let own = left_data(alloc, snapshot)?;
    let path = snapshot.component.itself.path.try_clone(alloc)?;
    Ok(Some(Act {
        request: Request::Stops(path),
        own,
    }))
}

/// The component goes on, without its last frame.
fn go_on_behind(alloc: Global, snapshot: &Snapshot<'_, '_>) -> Result<Option<Act>, Fault>
    ensures asks { Asks (legend_by snapshot.now.test.now) (said.Requests said.Continues (left (own_by snapshot.now))) result }
    ensures within { AsksWithin (extent_of snapshot.now.test.now) result }
{
    let own = left_data(alloc, snapshot)?;
    Ok(Some(Act {
        request: Request::Continues,
        own,
    }))
}

/// Nothing remains in the last frame: it goes.
pub fn act_end(
    alloc: Global,
    snapshot: &Snapshot<'_, '_>,
    frame: &Frame,
) -> Result<Option<Act>, Fault>
    requires { snapshot.now.component.now.own.calls ≡ frame.now ∷ behind_first snapshot.now.component.now.own.calls }
    ensures asks { (stand : said.Stand) → stand.snapshot ≡ seen_by snapshot.now → stand.own ≡ own_by snapshot.now
        → Asks (legend_by snapshot.now.test.now) (said.act_end stand (map (frame_by (legend_by snapshot.now.test.now)) (behind_first snapshot.now.component.now.own.calls))) result }
    ensures within { AsksWithin (extent_of snapshot.now.test.now) result }
{
    match snapshot.component.own.calls.as_slice().get(1) {
        None => stop_behind(alloc, snapshot),
        Some(below) => match waiting_at(snapshot.test, below.remaining) {
            Some(_) => Err(Fault::Dynamic),
            None => go_on_behind(alloc, snapshot),
        },
    }
}

/// The last frame goes, and a value goes to the target that waits in the frame below in front of the list at a position.
fn give_back(
    alloc: Global,
    snapshot: &Snapshot<'_, '_>,
    target: &Target<'_>,
    rest: usize,
    value: Value,
) -> Result<Option<Act>, Fault>
    requires known { IsKnown snapshot.now.test.now.names target.now.reference.name }
    requires behind { rest < length snapshot.now.test.now.graphs.lists }
    ensures asks { Asks (legend_by snapshot.now.test.now) (said.continuing (storing.store (test_by snapshot.now.test.now) (target_of target.now) value (storing.going_on (list_at snapshot.now.test.now rest) (left (own_by snapshot.now))))) result }
    ensures within { AsksWithin (extent_of snapshot.now.test.now) result }
{
    let mut own = left_data(alloc, snapshot)?;
    own.go_on(alloc, rest);
    let own = store_at(alloc, snapshot.test, target, value, own)?;
    Ok(Some(Act {
        request: Request::Continues,
        own,
    }))
}

/// The last frame goes, with a result or without.
fn act_leave(
    alloc: Global,
    stand: &Stand<'_, '_>,
    given: Option<Value>,
) -> Result<Option<Act>, Fault>
    ensures asks { Asks (legend_of stand.now) (said.leave (stand_by stand.now) (stand_by stand.now).below given) result }
    ensures within { AsksWithin (extent_of stand.now.snapshot.now.test.now) result }
{
    let snapshot = stand.snapshot;
    let Some(below) = snapshot.component.own.calls.as_slice().get(1) else {
        return stop_behind(alloc, snapshot);
    };
    match waiting_at(snapshot.test, below.remaining) {
        None => go_on_behind(alloc, snapshot),
        Some((target, rest)) => match given {
            None => Err(Fault::Dynamic),
            Some(value) => give_back(alloc, snapshot, target, rest, value),
        },
    }
}

/// The type of the result of the behaviour at a position, where it has one.
fn result_type(test: &TestCase<'_>, behaviour: usize) -> Option<DataType>
    ensures { result ≡ option_and_then (resolved (module_names test.now.definitions)) (result_type_of (kind_at test.now.definitions behaviour)) }
{
    match test.definitions.kind(behaviour) {
        Some(DefinitionKind::Function(function)) => match &function.returns {
            Some(name) => test.definitions.resolved(name),
            None => None,
        },
        _ => None,
    }
}

/// `return`, with a value or without.
pub fn act_return(
    alloc: Global,
    stand: &Stand<'_, '_>,
    value: &Option<WrittenValue>,
) -> Result<Option<Act>, Fault>
    ensures asks { Asks (legend_of stand.now) (said.act_return (stand_by stand.now) (site_of stand.now) value.now) result }
    ensures within { AsksWithin (extent_of stand.now.snapshot.now.test.now) result }
{
    match value {
        None => act_leave(alloc, stand, None),
        Some(value) => {
            let wanted = result_type(stand.snapshot.test, stand.behaviour);
            let found = stand.value(alloc, value, wanted)?;
            act_leave(alloc, stand, Some(found))
        }
    }
}
