//! What remains to be done, as graphs keep it.
use crate::at::At;
use crate::referred::Referred;
use check_scope::types::DataType;
use std::hash::{Hash, Hasher};
use syntax_equality::Exact;
use ttcn_syntax::Statement;

/// What of a statement is to be done.
#[derive(Clone, Copy, Debug, PartialEq, Eq, Hash)]
pub enum Part {
    Whole,
    /// The declaration of one of the names that it declares.
    Name(usize),
    /// The conditions of an `if` from one on.
    From(usize),
    /// The assignment that a `for` begins with.
    Start,
    /// The `while` that a `do` or a `for` becomes.
    Loop,
    /// The assignment behind the block of a `for`.
    Last,
}

/// Where a statement stands: the position of the behaviour among the definitions, and the position of the list of the
/// names declared before, the last one first.
#[derive(Clone, Copy, Debug, PartialEq, Eq)]
pub struct Site {
    pub behaviour: usize,
    pub declared: usize,
}

/// A name that waits for a result: whether it is the frame's own, and with fields behind it the name's type.
#[derive(Drop, PartialEq, Eq)]
pub struct Target<'a> {
    pub own: bool,
    pub reference: Referred<'a>,
    pub data_type: Option<DataType>,
}

/// What remains to be done.
#[derive(Drop, PartialEq, Eq)]
pub enum Item<'a> {
    /// A part of a statement.
    Doing(Site, At<'a, Statement>, Part),
    /// An `alt`, or what stands for one, in a branch of which the items before are.
    Mark(Site, At<'a, Statement>),
    /// A call's result goes there.
    Waiting(Target<'a>),
}

impl<'a> Exact for Item<'a> {
    ghost use Rattle.graph_items.specs.ItemEquality.{item_one};

    ghost exact = { item_one };
}

/// Hashes by the place of the statement and its part, or by the name that waits.
impl<'a> Hash for Item<'a> {
    ghost use Rattle.graph_items.specs.ItemFeeding.{item_fed};
    ghost use Rattle.graph_items.specs.ItemHash.{writes_of};

    ghost hash_input = { writes_of };

    ghost respects_eq = { item_fed };

    fn hash<H: Hasher>(&self, state: &mut H) {
        match self {
            Item::Doing(_site, statement, part) => {
                statement.get().place.hash(state);
                part.hash(state);
            }
            Item::Mark(_site, statement) => statement.get().place.hash(state),
            Item::Waiting(target) => target.reference.name().hash(state),
        }
    }
}
