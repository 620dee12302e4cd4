//! Sends, starts and stops (ES 201 873-1, 21.3 and 22.2).
ghost use Rattle.std.specs.Prelude.{◌≡◌, length, Some};
ghost use Rattle.std.specs.Option.{option_map};
ghost use Rattle.step_forms.specs.Asks.{Asks, AsksWithin};
ghost use Rattle.step_snapshot.specs.Slots.{IsKnown};
ghost use Rattle.step_snapshot.specs.Slots.{NoneIsMissing};
ghost use Rattle.graph_names.specs.Known.{names_of_component};
ghost use Rattle.step_forms.specs.internal.Stands.{legend_of, site_of, stand_by};
ghost use Rattle.semantics.specs.Sites.{is_own, scope_at};
ghost use Rattle.semantics.specs.Statements as said;
ghost use Rattle.semantics.specs.Storing as storing;
ghost use Rattle.ttcn_syntax.specs.declared.tree.expression.ComponentRef.TheVariants as form;
ghost use Rattle.value_types.specs.Outcomes.{Gives, GivesBy};
ghost use Rattle.value_types.specs.declared.frame.TimerState.TheVariants as timer;
ghost use Rattle.step_snapshot.specs.Tests.{extent_of};

use crate::call::frame_of_call;
use crate::stand::Stand;
use crate::storing::set_timer;
use check_rules::DataType;
use config_parts::{Act, Request};
use std::alloc::Global;
use ttcn_syntax::{Call, ComponentRef, Name, Reference, Send};
use value_types::{Fault, Path, TimerState, Value};

/// What is sent: a specific value.
fn sent_value(
    alloc: Global,
    stand: &Stand<'_, '_>,
    send: &Send,
    of: Option<DataType>,
) -> Result<Value, Fault>
    ensures { Gives (said.sent_value (stand_by stand.now) (site_of stand.now) send.now of) result }
{
    let Some(of) = of else {
        return Err(Fault::Dynamic);
    };
    let template = stand.template(alloc, send.message.template.get(), Some(of))?;
    template.specific_value(alloc)
}

/// Who it is sent to, where that is said.
fn sent_to(
    alloc: Global,
    stand: &Stand<'_, '_>,
    to: &Option<ComponentRef>,
) -> Result<Option<Path>, Fault>
    ensures { Gives (said.sent_to (stand_by stand.now) (site_of stand.now) to.now) result }
{
    match to {
        None => Ok(None),
        Some(component) => {
            let id = stand.component(alloc, component)?;
            Ok(Some(id.path))
        }
    }
}

/// A message is sent.
pub fn act_send(
    alloc: Global,
    stand: &Stand<'_, '_>,
    send: &Send,
    of: Option<DataType>,
) -> Result<Option<Act>, Fault>
    requires known { IsKnown stand.now.snapshot.now.test.now.names send.now.port }
    requires of { of ≡ said.sent_type (scope_at stand.now.snapshot.now.test.now.definitions (site_of stand.now)) send.now }
    ensures asks { Asks (legend_of stand.now) (said.act_send (stand_by stand.now) (site_of stand.now) send.now) result }
    ensures within { AsksWithin (extent_of stand.now.snapshot.now.test.now) result }
{
    let value = sent_value(alloc, stand, send, of)?;
    let to = sent_to(alloc, stand, &send.to)?;
    let own = stand.done(alloc)?;
    let port = stand.snapshot.test.slot_of(&send.port);
    Ok(Some(Act {
        request: Request::Sends(port, to, value),
        own,
    }))
}

/// A created component starts with a function.
pub fn act_start(
    alloc: Global,
    stand: &Stand<'_, '_>,
    component: &ComponentRef,
    call: &Call,
) -> Result<Option<Act>, Fault>
    ensures asks { Asks (legend_of stand.now) (said.act_start (stand_by stand.now) (site_of stand.now) component.now call.now) result }
    ensures within { AsksWithin (extent_of stand.now.snapshot.now.test.now) result }
{
    let id = stand.component(alloc, component)?;
    let frame = frame_of_call(alloc, stand, call)?;
    let own = stand.done(alloc)?;
    Ok(Some(Act {
        request: Request::Starts(id.path, frame),
        own,
    }))
}

/// A timer gets a state.
pub fn act_timer_state(
    alloc: Global,
    stand: &Stand<'_, '_>,
    name: &Name,
    own_timer: bool,
    state: TimerState,
) -> Result<Option<Act>, Fault>
    requires known { IsKnown stand.now.snapshot.now.test.now.names name.now }
    requires own { own_timer ≡ is_own stand.now.snapshot.now.test.now.definitions (site_of stand.now) name.now }
    ensures asks { Asks (legend_of stand.now) (said.Requests said.Continues (storing.set_timer (stand_by stand.now).test (site_of stand.now) name.now state (said.done (stand_by stand.now)))) result }
    ensures within { AsksWithin (extent_of stand.now.snapshot.now.test.now) result }
{
    let own = stand.done(alloc)?;
    let own = set_timer(alloc, stand.snapshot.test, own_timer, name, state, own)?;
    Ok(Some(Act {
        request: Request::Continues,
        own,
    }))
}

/// A component stops.
fn act_stop_component(
    alloc: Global,
    stand: &Stand<'_, '_>,
    component: &ComponentRef,
) -> Result<Option<Act>, Fault>
    ensures asks { Asks (legend_of stand.now) (said.stop_meant (stand_by stand.now) (site_of stand.now) component.now None) result }
    ensures within { AsksWithin (extent_of stand.now.snapshot.now.test.now) result }
{
    let id = stand.component(alloc, component)?;
    let own = stand.done(alloc)?;
    Ok(Some(Act {
        request: Request::Stops(id.path),
        own,
    }))
}

/// `.stop` of a name, which is a timer or refers to a component.
fn act_stop_named(
    alloc: Global,
    stand: &Stand<'_, '_>,
    component: &ComponentRef,
    reference: &Reference,
    own_timer: bool,
) -> Result<Option<Act>, Fault>
    requires named { component.now ≡ form.Named reference.now }
    requires known { IsKnown stand.now.snapshot.now.test.now.names reference.now.name }
    requires own { own_timer ≡ is_own stand.now.snapshot.now.test.now.definitions (site_of stand.now) (said.name_in component.now) }
    ensures asks { Asks (legend_of stand.now) (said.act_stop_of (stand_by stand.now) (site_of stand.now) component.now) result }
    ensures within { AsksWithin (extent_of stand.now.snapshot.now.test.now) result }
{
    match stand.timer_runs(component) {
        Some(_) => {
            let name = &reference.name;
            act_timer_state(alloc, stand, name, own_timer, TimerState::Inactive)
        }
        None => act_stop_component(alloc, stand, component),
    }
}

/// `.stop`, of a timer or a component
pub fn act_stop_of(
    alloc: Global,
    stand: &Stand<'_, '_>,
    component: &ComponentRef,
    own_timer: bool,
) -> Result<Option<Act>, Fault>
    requires known { NoneIsMissing stand.now.snapshot.now.test.now.names (names_of_component component.now) }
    requires own { own_timer ≡ is_own stand.now.snapshot.now.test.now.definitions (site_of stand.now) (said.name_in component.now) }
    ensures asks { Asks (legend_of stand.now) (said.act_stop_of (stand_by stand.now) (site_of stand.now) component.now) result }
    ensures within { AsksWithin (extent_of stand.now.snapshot.now.test.now) result }
{
    match component {
        ComponentRef::Named(reference) => {
            act_stop_named(alloc, stand, component, reference, own_timer)
        }
        ComponentRef::Itself => act_stop_component(alloc, stand, component),
        ComponentRef::Mtc => act_stop_component(alloc, stand, component),
    }
}
