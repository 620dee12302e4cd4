//! Changes of single components: those that are terminated are left alone (ES 201 873-1, 21.3).
ghost use Rattle.std.specs.Prelude.{◌≡◌, ◌<◌, IfOk, IfSome, OnOk, length};
ghost use Rattle.std.specs.List.{position};
ghost use Rattle.config_parts.specs.internal.Changes as spec;

use crate::component::{Component, Message, Queue, State};
use crate::copy::TryClone;
use crate::frame::{Data, Frame};
use crate::shared::Shared;
use crate::verdict::worse;
use std::alloc::{AllocError, Global};
use std::mem;
use ttcn_syntax::{Seq, Verdict};
use value_types::{Path, Slot};

/// The place of the component with a path.
pub(crate) fn place_of(components: &[Component], path: &Path) -> Option<usize>
    ensures { result ≡ position (spec.is_of path.now) components.now }
{
    components
        .iter()
        .position(|component| component.itself.path == *path)
}

/// The place of the component with a path, unless it is terminated.
pub(crate) fn live_place(components: &[Component], path: &Path) -> Option<usize>
    ensures found { result ≡ spec.live_place components.now path.now }
    ensures within { IfSome result (λ at. at < length components.now) }
{
    let Some(at) = place_of(components, path) else {
        return None;
    };
    if components[at].state.is_terminated() {
        return None;
    }
    Some(at)
}

/// Whether the component with a path is there and terminated.
pub(crate) fn is_terminated_at(components: &[Component], path: &Path) -> bool
    ensures { result ≡ spec.is_terminated_at components.now path.now }
{
    match place_of(components, path) {
        Some(at) => components[at].state.is_terminated(),
        None => false,
    }
}

/// A component has other data.
#[tactic(auto, using(crate::proofs::Changed::unwritten))]
pub(crate) fn settle(
    alloc: Global,
    components: &mut Vec<Component>,
    path: &Path,
    own: Data,
) -> Result<(), AllocError>
    ensures { OnOk result (components.new.items ≡ spec.touch components.old.items path.now (spec.with_own own)) }
{
    if let Some(at) = live_place(components, path) {
        components[at].own = Shared::new(alloc, own)?;
    }
    Ok(())
}

#[tactic(auto, using(crate::proofs::Changed::unwritten))]
pub(crate) fn terminate(components: &mut Vec<Component>, path: &Path)
    ensures { components.new.items ≡ spec.touch components.old.items path.now (spec.with_state spec.terminated) }
{
    if let Some(at) = live_place(components, path) {
        components[at].state = State::Terminated;
    }
}

/// The verdict of a component gets no better than this.
#[tactic(auto, using(crate::proofs::Changed::unwritten))]
pub(crate) fn worsen(components: &mut Vec<Component>, path: &Path, verdict: Verdict)
    ensures { components.new.items ≡ spec.touch components.old.items path.now (spec.with_verdict verdict) }
{
    if let Some(at) = live_place(components, path) {
        let component = &mut components[at];
        component.verdict = worse(component.verdict, verdict);
    }
}

/// A component begins to run with a frame.
pub(crate) fn begin(
    alloc: Global,
    components: &mut Vec<Component>,
    at: usize,
    frame: Frame,
) -> Result<(), AllocError>
    requires { at < length components.old.items }
    ensures { OnOk result (components.new.items ≡ spec.changed_at components.old.items at (spec.begun frame)) }
{
    let mut calls = Seq::new(alloc);
    calls.push(frame)?;
    let component = &mut components[at];
    let mut own = component.own.try_clone(alloc)?;
    own.calls = calls;
    component.own = Shared::new(alloc, own)?;
    component.state = State::Running;
    Ok(())
}

/// The place of the queue of a port.
fn queue_of(queues: &[Queue], port: Slot) -> Option<usize>
    ensures { result ≡ position (spec.is_of_port port) queues.now }
{
    queues.iter().position(|queue| queue.port == port)
}

/// A message comes to a port.
fn with_message(queues: Seq<Queue>, port: Slot, message: Message) -> Result<Seq<Queue>, AllocError>
    ensures { IfOk result (λ changed. changed ≡ spec.with_message port message queues) }
{
    let mut queues = queues.into_vec();
    let Some(at) = queue_of(&queues, port) else {
        return Ok(Seq::from_vec(queues));
    };
    queues[at].messages.push(message)?;
    Ok(Seq::from_vec(queues))
}

/// The messages without the first.
fn without_first(messages: Seq<Message>) -> Seq<Message>
    ensures { result ≡ spec.without_first messages }
{
    let mut messages = messages.into_vec();
    if messages.len() > 0 {
        let _first = messages.remove(0);
    }
    Seq::from_vec(messages)
}

/// The first message of a port is gone.
fn without_message(alloc: Global, queues: Seq<Queue>, port: Slot) -> Seq<Queue>
    ensures { result ≡ spec.without_message port queues }
{
    let mut queues = queues.into_vec();
    let Some(at) = queue_of(&queues, port) else {
        return Seq::from_vec(queues);
    };
    let queue = &mut queues[at];
    let messages = mem::replace(&mut queue.messages, Seq::new(alloc));
    queue.messages = without_first(messages);
    Seq::from_vec(queues)
}

/// A message comes to a port of a component.
#[tactic(auto, using(crate::proofs::Changed::unwritten))]
pub(crate) fn deliver(
    alloc: Global,
    components: &mut Vec<Component>,
    path: &Path,
    port: Slot,
    message: Message,
) -> Result<(), AllocError>
    ensures { OnOk result (components.new.items ≡ spec.touch components.old.items path.now (spec.with_queues (spec.with_message port message))) }
{
    if let Some(at) = live_place(components, path) {
        let component = &mut components[at];
        let queues = with_message(component.queues.try_clone(alloc)?, port, message)?;
        component.queues = Shared::new(alloc, queues)?;
    }
    Ok(())
}

/// The first message of a port of a component is removed.
#[tactic(auto, using(crate::proofs::Changed::unwritten))]
pub(crate) fn remove_first(
    alloc: Global,
    components: &mut Vec<Component>,
    path: &Path,
    port: Slot,
) -> Result<(), AllocError>
    ensures { OnOk result (components.new.items ≡ spec.touch components.old.items path.now (spec.with_queues (spec.without_message port))) }
{
    if let Some(at) = live_place(components, path) {
        let component = &mut components[at];
        let queues = without_message(alloc, component.queues.try_clone(alloc)?, port);
        component.queues = Shared::new(alloc, queues)?;
    }
    Ok(())
}
