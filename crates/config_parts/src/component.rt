//! Components, and the messages that wait for them.
ghost use Rattle.std.specs.Prelude.{◌≡◌};
ghost use Rattle.config_parts.specs.internal.Changes.{is_terminated};
ghost use Rattle.config_parts.specs.internal.Done.{is_created};

use crate::frame::Data;
use crate::shared::Shared;
use ttcn_syntax::{Seq, Verdict};
use value_types::{ComponentId, Slot, Value};

/// How far a component has come (ES 201 873-1, 21.3).
#[derive(Clone, Copy, Debug, PartialEq, Eq)]
pub enum State {
    Created,
    Running,
    Terminated,
}

impl State {
    pub(crate) fn is_created(self) -> bool
        ensures { result ≡ is_created self }
    {
        match self {
            State::Created => true,
            State::Running | State::Terminated => false,
        }
    }

    pub(crate) fn is_terminated(self) -> bool
        ensures { result ≡ is_terminated self }
    {
        match self {
            State::Terminated => true,
            State::Created | State::Running => false,
        }
    }
}

/// A message, and the component that sent it: none did where it came in at a system port.
#[derive(PartialEq, Eq)]
pub struct Message {
    pub value: Value,
    pub sender: Option<ComponentId>,
}

impl Drop for Message {
    fn drop(self) {
        let Message {
            value: _value,
            sender: _sender,
        } = self;
    }
}

/// The messages that wait at a port, the one that came first in front (ES 201 873-1, 22.1).
#[derive(PartialEq, Eq)]
pub struct Queue {
    pub port: Slot,
    pub messages: Seq<Message>,
}

impl Drop for Queue {
    fn drop(self) {
        let Queue {
            port: _port,
            messages: _messages,
        } = self;
    }
}

/// A component. Configurations share what a step leaves as it was.
#[derive(PartialEq, Eq)]
pub struct Component {
    /// The component's path, with its type.
    pub itself: ComponentId,
    pub own: Shared<Data>,
    pub state: State,
    pub verdict: Verdict,
    /// The ports of its type in the order of their declaration.
    pub queues: Shared<Seq<Queue>>,
}

impl Drop for Component {
    fn drop(self) {
        let Component {
            itself: _itself,
            own: _own,
            state: _state,
            verdict: _verdict,
            queues: _queues,
        } = self;
    }
}

impl Component {
    /// The component's path, with its type.
    pub fn into_itself(self) -> ComponentId
        ensures { result ≡ self.itself }
    {
        let Component {
            itself,
            own: _own,
            state: _state,
            verdict: _verdict,
            queues: _queues,
        } = self;
        itself
    }
}
