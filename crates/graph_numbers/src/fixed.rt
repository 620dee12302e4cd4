//! Lists by positions to which none is added any more.
ghost use Rattle.std.specs.Prelude.{◌≡◌, ◌<◌, ◌+◌, ◌∷◌, [], length, IfOk, IfSome, IfNone, get_or};
ghost use Rattle.graph_numbers.specs.Lists.{AreDifferent, HaveRests, lists_of};

use crate::lists::{Cell, Lists};
use indexmap::IndexSet;
use std::alloc::{AllocError, Global};
use std::hash::Hash;
use syntax_equality::Exact;

/// Lists of items by positions, as `Lists` has them. They have no table of hashes.
#[derive(Drop)]
pub struct Fixed<I> {
    cells: Vec<Cell<I>>,
    ghost rests: { HaveRests cells.items },
    ghost differ: { AreDifferent (lists_of cells.items) },
}

/// The keys of a set, in their order.
fn in_order<I: Exact + Hash + Drop>(
    alloc: Global,
    set: IndexSet<Cell<I>>,
) -> Result<Vec<Cell<I>>, AllocError>
    ensures { IfOk result (λ cells. cells.items ≡ set.keys) }
{
    set.into_iter().collect(alloc)
}

impl<I: Exact + Hash + Drop> Lists<I> {
    /// The lists as they are.
    pub fn fix(self, alloc: Global) -> Result<Fixed<I>, AllocError>
        ensures { IfOk result (λ fixed. lists_of fixed.cells.items ≡ lists_of self.cells.keys) }
    {
        self.lists_differ();
        let Lists { cells } = self;
        let cells = in_order(alloc, cells)?;
        Ok(Fixed { cells })
    }
}

impl<I> Fixed<I> {
    /// How many lists there are.
    pub fn len(&self) -> usize
        ensures { result ≡ length (lists_of self.now.cells.items) }
    {
        self.cells.len() + 1
    }

    /// The position of the empty list.
    pub fn empty(&self) -> usize
        ensures within { result < length (lists_of self.now.cells.items) }
        ensures empty { get_or (lists_of self.now.cells.items) result [] ≡ [] }
    {
        let _ = self.cells.len();
        0
    }

    /// The first item of a list, and the position of the list behind it.
    pub fn first(&self, at: usize) -> Option<(&I, usize)>
        requires { at < length (lists_of self.now.cells.items) }
        ensures empty { IfNone result (get_or (lists_of self.now.cells.items) at [] ≡ []) }
        ensures item { IfSome result (λ found. get_or (lists_of self.now.cells.items) at []
            ≡ found.0.now ∷ get_or (lists_of self.now.cells.items) found.1 []) }
        ensures before { IfSome result (λ found. found.1 < at) }
    {
        if at == 0 {
            return None;
        }
        let cell = &self.cells[at - 1];
        Some((&cell.item, cell.rest))
    }

    /// No list has two positions.
    pub fn lists_differ(&self)
        ensures { AreDifferent (lists_of self.now.cells.items) }
    {
        let _ = self.cells.len();
    }
}
