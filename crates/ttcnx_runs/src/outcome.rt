//! What a component does in a step, as it is remembered.
use crate::keys::BranchPlace;
use crate::step_place::StepPlace;
use step_labels::Label;
use ttcn_config::{MessageBytes, OwnBytes, Packed};
use value_types::Slot;

/// A message that comes to a port of the component at a place.
#[derive(Drop)]
pub struct Sending {
    pub to: usize,
    pub port: Slot,
    pub message: MessageBytes,
}

/// What a step changes.
#[derive(Drop)]
pub enum Effect {
    /// The component alone: it has this of its own behind the step, and the first message of a port is gone, where a port is
    /// named.
    Alone(OwnBytes, Option<Slot>),
    /// The component, which has this of its own behind the step, and the queue of another one.
    Sends(OwnBytes, Sending),
    /// The component, which ends, and what all components see: they are those of this configuration.
    Ends(Packed),
    /// Maybe more: the step of this label has to be worked out.
    Other(Label),
}

/// A step: the branch that it takes, if it takes one, where it is, if it is that of a statement, and what it changes.
#[derive(Drop)]
pub struct Outcome {
    pub branch: Option<BranchPlace>,
    pub event: Option<StepPlace>,
    pub effect: Effect,
}
