//! What is known of names where statements stand: what is stored in them, and types (ES 201 873-1, 5.2, 19.1 and 22.2).
use check_scope::types::DataType;
use graph_items::Target;
use ttcn_syntax::Seq;

/// Where a value goes: what it is stored in, and the type that is wanted there.
#[derive(Drop)]
pub struct Goal<'a> {
    pub target: Target<'a>,
    pub wanted: Option<DataType>,
}

/// What is known of an event.
#[derive(Drop)]
pub struct EventFacts<'a> {
    /// The type of the message that is received, where a template determines it.
    pub received: Option<DataType>,
    /// Where the value of the message and its sender go.
    pub value: Option<Goal<'a>>,
    pub sender: Option<Goal<'a>>,
    /// Whether its timer is the frame's own.
    pub own: bool,
}

/// What is known where a part of a statement stands.
#[derive(Drop)]
pub enum Facts<'a> {
    Nothing,
    /// Where an assignment stores a value.
    Stores(Goal<'a>),
    /// The type of what is declared.
    Declares(Option<DataType>),
    /// The type of the message that is sent.
    Sends(Option<DataType>),
    /// Whether a timer is the frame's own.
    Sets(bool),
    /// The events of the branches, in their order.
    Waits(Seq<EventFacts<'a>>),
}
