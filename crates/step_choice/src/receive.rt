//! Whether a message can be received, and what is stored of it (ES 201 873-1, 22.2).
ghost use Rattle.std.specs.Prelude.{◌≡◌, Some, bytes_eq, map};
ghost use Rattle.std.specs.List.{find};
ghost use Rattle.step_choice.specs.internal.Judged.{Tries, names_of, test_of, type_fits};
ghost use Rattle.semantics.specs.Events as rules;
ghost use Rattle.semantics.specs.Sites.{Site};
ghost use Rattle.semantics.specs.Snapshots.{front_of};
ghost use Rattle.step_snapshot.specs.Seen.{seen_by};
ghost use Rattle.config_parts.specs.Legend.{message_by};
ghost use Rattle.graph_sites.specs.Facts.{event_by, event_facts};
ghost use Rattle.ttcn_syntax.specs.declared.tree.statement.Event.TheVariants as event;
ghost use Rattle.value_types.specs.Frames.{reading};
ghost use Rattle.value_types.specs.Outcomes.{Gives};

use crate::redirect::redirects;
use crate::taken::Deed;
use check_scope::types::DataType;
use config_parts::{Message, Queue};
use std::alloc::Global;
use step_snapshot::Snapshot;
use ttcn_graph::EventFacts;
use ttcn_syntax::{ComponentRef, MessageTemplate, Name, PortSelector, Receive};
use ttcn_values::{eval_component_reference, eval_template, matches};
use value_types::{ComponentId, Fault, Frame, Slot, Value};

/// The type of a value by itself.
fn type_of(value: &Value) -> Option<DataType>
    ensures { result ≡ rules.type_of value.now }
{
    match value {
        Value::Integer(_) => Some(DataType::Integer),
        Value::Boolean(_) => Some(DataType::Boolean),
        Value::Enumerated(at, _) => Some(DataType::Enumerated(*at)),
        Value::Record(at, _) => Some(DataType::Record(*at)),
        Value::Component(component) => Some(DataType::Component(component.component_type)),
        Value::Default(_) => Some(DataType::Default),
        Value::Null | Value::Omit => None,
    }
}

/// Whether a component sent a message.
fn has_sent(component: &ComponentId, sender: &Option<ComponentId>) -> bool
    ensures { result ≡ rules.has_sent component.now sender.now }
{
    match sender {
        Some(sender) => component.path == sender.path,
        None => false,
    }
}

/// Whether a message comes from a component: `null` matches none.
fn is_from(
    alloc: Global,
    reference: &Option<ComponentRef>,
    sender: &Option<ComponentId>,
    frame: &Frame<'_>,
) -> Result<bool, Fault>
    ensures { Gives (rules.from_fits (reading frame.now) reference.now sender.now) result }
{
    let Some(reference) = reference else {
        return Ok(true);
    };
    let value = eval_component_reference(alloc, reference, frame)?;
    match &value {
        Value::Component(component) => Ok(has_sent(component, sender)),
        Value::Null => Ok(false),
        _ => Err(Fault::Dynamic),
    }
}

/// Whether a template of the text matches a value of a type.
fn fits_template(
    alloc: Global,
    message: &Option<MessageTemplate>,
    of: DataType,
    value: &Value,
    frame: &Frame<'_>,
) -> Result<bool, Fault>
    ensures { Gives (rules.template_fits (reading frame.now) of message.now value.now) result }
{
    let Some(message) = message else {
        return Ok(true);
    };
    match eval_template(alloc, message.template.get(), Some(of), frame) {
        Ok(template) => Ok(matches(&template, value)),
        Err(fault) => Err(fault),
    }
}

/// A message of the right type in front of a port: the sender is judged first, then the template.
fn try_typed<'t, 'a>(
    alloc: Global,
    snapshot: &Snapshot<'t, 'a>,
    receive: &'a Receive,
    facts: &'a EventFacts<'t>,
    frame: &Frame<'_>,
    port: Slot,
    message: &Message,
    of: DataType,
) -> Result<Option<Deed<'t, 'a>>, Fault>
    ensures { (site : Site) → event_by facts.now ≡ event_facts (test_of snapshot.now).definitions site (event.Receive receive.now)
        → Tries snapshot.now site (rules.try_typed (test_of snapshot.now) site (reading frame.now) receive.now (names_of snapshot.now port) (message_by message.now) of) result }
{
    match is_from(alloc, &receive.from, &message.sender, frame) {
        Ok(true) => {}
        Ok(false) => return Ok(None),
        Err(fault) => return Err(fault),
    }
    match fits_template(alloc, &receive.message, of, &message.value, frame) {
        Ok(true) => {}
        Ok(false) => return Ok(None),
        Err(fault) => return Err(fault),
    }
    match redirects(alloc, facts, message) {
        Ok(stored) => Ok(Some(Deed::Receives(port, stored))),
        Err(fault) => Err(fault),
    }
}

/// Whether a message of a type is one that a receive takes: any is where no template stands.
fn fits_type(
    message: &Option<MessageTemplate>,
    wanted: Option<DataType>,
    found: DataType,
) -> Result<bool, Fault>
    ensures { Gives (type_fits wanted found message.now) result }
{
    if message.is_none() {
        return Ok(true);
    }
    match wanted {
        Some(wanted) => Ok(wanted.is_same(found)),
        None => Err(Fault::Dynamic),
    }
}

/// A message in front of a port: its type is judged first.
fn try_message<'t, 'a>(
    alloc: Global,
    snapshot: &Snapshot<'t, 'a>,
    receive: &'a Receive,
    facts: &'a EventFacts<'t>,
    frame: &Frame<'_>,
    port: Slot,
    message: &Message,
) -> Result<Option<Deed<'t, 'a>>, Fault>
    ensures { (site : Site) → event_by facts.now ≡ event_facts (test_of snapshot.now).definitions site (event.Receive receive.now)
        → Tries snapshot.now site (rules.try_front (test_of snapshot.now) site (reading frame.now) receive.now (names_of snapshot.now port) (Some (message_by message.now))) result }
{
    let Some(found) = type_of(&message.value) else {
        return Err(Fault::Dynamic);
    };
    match fits_type(&receive.message, facts.received, found) {
        Ok(true) => try_typed(alloc, snapshot, receive, facts, frame, port, message, found),
        Ok(false) => Ok(None),
        Err(fault) => Err(fault),
    }
}

/// The first message of a port, if there is one.
fn try_front<'t, 'a>(
    alloc: Global,
    snapshot: &Snapshot<'t, 'a>,
    receive: &'a Receive,
    facts: &'a EventFacts<'t>,
    frame: &Frame<'_>,
    queue: &Queue,
) -> Result<Option<Deed<'t, 'a>>, Fault>
    ensures { (site : Site) → event_by facts.now ≡ event_facts (test_of snapshot.now).definitions site (event.Receive receive.now)
        → Tries snapshot.now site (rules.try_front (test_of snapshot.now) site (reading frame.now) receive.now (names_of snapshot.now queue.now.port) (front_of (map message_by queue.now.messages))) result }
{
    match queue.messages.as_slice().first() {
        Some(message) => try_message(alloc, snapshot, receive, facts, frame, queue.port, message),
        None => Ok(None),
    }
}

/// `any port`: the ports in their order.
fn try_any<'t, 'a>(
    alloc: Global,
    snapshot: &Snapshot<'t, 'a>,
    receive: &'a Receive,
    facts: &'a EventFacts<'t>,
    frame: &Frame<'_>,
) -> Result<Option<Deed<'t, 'a>>, Fault>
    ensures { (site : Site) → event_by facts.now ≡ event_facts (test_of snapshot.now).definitions site (event.Receive receive.now)
        → Tries snapshot.now site (rules.try_fronts (test_of snapshot.now) site (reading frame.now) receive.now (seen_by snapshot.now).fronts) result }
{
    for queue in snapshot.component.queues.as_slice() {
        match try_front(alloc, snapshot, receive, facts, frame, queue) {
            Ok(None) => {}
            Ok(Some(deed)) => return Ok(Some(deed)),
            Err(fault) => return Err(fault),
        }
    }
    Ok(None)
}

/// The port of a name.
fn try_named<'t, 'a>(
    alloc: Global,
    snapshot: &Snapshot<'t, 'a>,
    receive: &'a Receive,
    facts: &'a EventFacts<'t>,
    frame: &Frame<'_>,
    name: &Name,
) -> Result<Option<Deed<'t, 'a>>, Fault>
    ensures { (site : Site) → event_by facts.now ≡ event_facts (test_of snapshot.now).definitions site (event.Receive receive.now)
        → Tries snapshot.now site (rules.try_port (test_of snapshot.now) site (reading frame.now) receive.now (find (λ front. bytes_eq front.0 name.now) (seen_by snapshot.now).fronts)) result }
{
    match snapshot.queue(name) {
        Some(queue) => try_front(alloc, snapshot, receive, facts, frame, queue),
        None => Err(Fault::Dynamic),
    }
}

/// Whether a message can be received in the behaviour of a frame, and what is stored then.
pub(crate) fn try_receive<'t, 'a>(
    alloc: Global,
    snapshot: &Snapshot<'t, 'a>,
    receive: &'a Receive,
    facts: &'a EventFacts<'t>,
    frame: &Frame<'_>,
) -> Result<Option<Deed<'t, 'a>>, Fault>
    ensures { (site : Site) → event_by facts.now ≡ event_facts (test_of snapshot.now).definitions site (event.Receive receive.now)
        → Tries snapshot.now site (rules.try_receive (test_of snapshot.now) (seen_by snapshot.now) site (reading frame.now) receive.now receive.now.port) result }
{
    match &receive.port {
        PortSelector::Any => try_any(alloc, snapshot, receive, facts, frame),
        PortSelector::Named(name) => try_named(alloc, snapshot, receive, facts, frame, name),
    }
}
