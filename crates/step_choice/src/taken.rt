//! Branches that are taken (ES 201 873-1, 20.2).
use config_parts::Frame;
use ttcn_graph::Target;
use ttcn_syntax::{Name, Seq, Span};
use value_types::{Slot, Value};

/// A value that goes to a target.
#[derive(Drop)]
pub struct Stored<'t, 'a> {
    pub target: &'a Target<'t>,
    pub value: Value,
}

/// What taking a branch does beside what it leaves to be done.
#[derive(Drop)]
pub enum Deed<'t, 'a> {
    /// Nothing more.
    Nothing,
    /// The first message of a port is removed, and values are stored.
    Receives(Slot, Vec<Stored<'t, 'a>>),
    /// A timer becomes inactive: whether it is the frame's own.
    Elapses(&'a Name, bool),
}

/// A branch that is taken.
#[derive(Drop)]
pub struct Taken<'t, 'a> {
    /// Where its `[` stands, or where the statement does that stands for an `alt`.
    pub place: Span,
    /// Which of the ways that lead on from the `alt` is its own.
    pub way: usize,
    /// The frames of the altsteps that lead to it, the innermost first.
    pub frames: Seq<Frame>,
    pub deed: Deed<'t, 'a>,
}
