//! Copies of configurations and their parts. A copy shares what is `Shared`.
ghost use Rattle.std.specs.Prelude.{◌≡◌, IfOk};

use crate::component::{Component, Message, Queue};
use crate::config::{Config, Going};
use crate::connection::{Connection, End, Links};
use crate::frame::{ActiveDefault, Cells, Data, Frame};
use std::alloc::{AllocError, Global};
use ttcn_syntax::Seq;
use value_types::{ComponentId, Path, Slot, TimerState, Value};

/// What can be copied into memory of its own.
pub trait TryClone {
    fn try_clone(&self, alloc: Global) -> Result<Self, AllocError>
        ensures { IfOk result (λ copy. copy ≡ self.now) };
}

impl<T: TryClone + Drop> TryClone for Seq<T> {
    fn try_clone(&self, alloc: Global) -> Result<Seq<T>, AllocError> {
        let mut copies = Vec::with_capacity(alloc, self.len())?;
        for element in self.as_slice() {
            copies.push(element.try_clone(alloc)?)?;
        }
        Ok(Seq::from_vec(copies))
    }
}

impl TryClone for (Slot, Value) {
    fn try_clone(&self, alloc: Global) -> Result<(Slot, Value), AllocError> {
        Ok((self.0, self.1.try_clone(alloc)?))
    }
}

impl TryClone for (Slot, TimerState) {
    fn try_clone(&self, _alloc: Global) -> Result<(Slot, TimerState), AllocError> {
        Ok((self.0, self.1))
    }
}

impl TryClone for Value {
    fn try_clone(&self, alloc: Global) -> Result<Value, AllocError> {
        Value::try_clone(self, alloc)
    }
}

impl TryClone for Cells {
    fn try_clone(&self, alloc: Global) -> Result<Cells, AllocError> {
        Ok(Cells {
            values: self.values.try_clone(alloc)?,
            timers: self.timers.try_clone(alloc)?,
        })
    }
}

impl TryClone for Frame {
    fn try_clone(&self, _alloc: Global) -> Result<Frame, AllocError> {
        Ok(Frame {
            remaining: self.remaining,
            cells: self.cells.share()?,
        })
    }
}

impl TryClone for ActiveDefault {
    fn try_clone(&self, alloc: Global) -> Result<ActiveDefault, AllocError> {
        Ok(ActiveDefault {
            number: self.number,
            altstep: self.altstep,
            arguments: self.arguments.try_clone(alloc)?,
        })
    }
}

impl TryClone for Data {
    fn try_clone(&self, alloc: Global) -> Result<Data, AllocError> {
        Ok(Data {
            members: self.members.try_clone(alloc)?,
            calls: self.calls.try_clone(alloc)?,
            defaults: self.defaults.try_clone(alloc)?,
            activations: self.activations,
            children: self.children,
        })
    }
}

impl TryClone for Option<ComponentId> {
    fn try_clone(&self, alloc: Global) -> Result<Option<ComponentId>, AllocError> {
        Ok(match self {
            Some(component) => Some(component.try_clone(alloc)?),
            None => None,
        })
    }
}

impl TryClone for Message {
    fn try_clone(&self, alloc: Global) -> Result<Message, AllocError> {
        Ok(Message {
            value: self.value.try_clone(alloc)?,
            sender: self.sender.try_clone(alloc)?,
        })
    }
}

impl TryClone for Queue {
    fn try_clone(&self, alloc: Global) -> Result<Queue, AllocError> {
        Ok(Queue {
            port: self.port,
            messages: self.messages.try_clone(alloc)?,
        })
    }
}

impl TryClone for Component {
    fn try_clone(&self, alloc: Global) -> Result<Component, AllocError> {
        Ok(Component {
            itself: self.itself.try_clone(alloc)?,
            own: self.own.share()?,
            state: self.state,
            verdict: self.verdict,
            queues: self.queues.share()?,
        })
    }
}

impl TryClone for End {
    fn try_clone(&self, alloc: Global) -> Result<End, AllocError> {
        Ok(End {
            component: self.component.try_clone(alloc)?,
            port: self.port,
        })
    }
}

impl TryClone for Connection {
    fn try_clone(&self, alloc: Global) -> Result<Connection, AllocError> {
        Ok(Connection {
            one: self.one.try_clone(alloc)?,
            other: self.other.try_clone(alloc)?,
        })
    }
}

impl TryClone for (Slot, End) {
    fn try_clone(&self, alloc: Global) -> Result<(Slot, End), AllocError> {
        Ok((self.0, self.1.try_clone(alloc)?))
    }
}

impl TryClone for (Slot, usize) {
    fn try_clone(&self, _alloc: Global) -> Result<(Slot, usize), AllocError> {
        Ok((self.0, self.1))
    }
}

impl TryClone for Going {
    fn try_clone(&self, alloc: Global) -> Result<Going, AllocError> {
        Ok(Going {
            components: self.components.try_clone(alloc)?,
            links: self.links.share()?,
            forgotten: self.forgotten,
        })
    }
}

impl TryClone for Config {
    fn try_clone(&self, alloc: Global) -> Result<Config, AllocError> {
        Ok(match self {
            Config::Ended(verdict) => Config::Ended(*verdict),
            Config::Going(going) => Config::Going(going.try_clone(alloc)?),
        })
    }
}
