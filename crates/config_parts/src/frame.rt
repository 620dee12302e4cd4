//! What a component has of its own.
use crate::shared::Shared;
use ttcn_syntax::Seq;
use value_types::{Slot, TimerState, Value};

/// The values of names and the states of timers, each in the order of the slots. A name without value has no entry among
/// the values.
#[derive(Drop, PartialEq, Eq)]
pub struct Cells {
    pub values: Seq<(Slot, Value)>,
    pub timers: Seq<(Slot, TimerState)>,
}

/// The position of what remains to be done in a frame, and the frame's names. A copy shares the names.
#[derive(PartialEq, Eq)]
pub struct Frame {
    pub remaining: usize,
    pub cells: Shared<Cells>,
}

impl Drop for Frame {
    fn drop(self) {
        let Frame {
            remaining: _remaining,
            cells: _cells,
        } = self;
    }
}

/// An activated default: the number of the activation, the altstep, and its arguments (ES 201 873-1, 20.5).
#[derive(PartialEq, Eq)]
pub struct ActiveDefault {
    pub number: u32,
    pub altstep: usize,
    pub arguments: Seq<Value>,
}

impl Drop for ActiveDefault {
    fn drop(self) {
        let ActiveDefault {
            number: _number,
            altstep: _altstep,
            arguments: _arguments,
        } = self;
    }
}

/// What the statements of a component read and change of its own, beside its state, its verdict and the messages that wait.
#[derive(PartialEq, Eq)]
pub struct Data {
    /// Frame 0: the variables, constants and timers of its type.
    pub members: Cells,
    /// The frames above, the last one first.
    pub calls: Seq<Frame>,
    /// The component's defaults, the one that was activated last first, and how many were activated so far.
    pub defaults: Seq<ActiveDefault>,
    pub activations: u32,
    /// How many components the component created so far.
    pub children: u32,
}

impl Drop for Data {
    fn drop(self) {
        let Data {
            members: _members,
            calls: _calls,
            defaults: _defaults,
            activations: _activations,
            children: _children,
        } = self;
    }
}
