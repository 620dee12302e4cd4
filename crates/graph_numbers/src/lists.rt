//! Lists that share their ends, by positions.
ghost use Rattle.std.specs.Prelude.{◌≡◌, ◌<◌, ◌+◌, ◌∷◌, [], length, IfOk, IfSome, IfNone, OnErr, get_or};
ghost use Rattle.graph_numbers.specs.Lists.{AreDifferent, HaveRests, IsPut, lists_of};

use indexmap::IndexSet;
use std::alloc::{AllocFailed, Global};
use std::hash::Hash;
use syntax_equality::Exact;

/// The first item of a list, and the position of the list behind it.
#[derive(Debug, Drop, PartialEq, Eq, Hash)]
pub struct Cell<I> {
    pub item: I,
    pub rest: usize,
}

/// Lists of items. Each has one position, and position 0 is that of the empty list.
#[derive(Drop)]
pub struct Lists<I: Exact + Hash> {
    pub(crate) cells: IndexSet<Cell<I>>,
    ghost rests: { HaveRests cells.keys },
}

impl<I: Exact + Hash + Drop> Lists<I> {
    /// The empty list alone.
    pub fn new(alloc: Global) -> Lists<I>
        ensures { lists_of result.cells.keys ≡ [] ∷ [] }
    {
        Lists {
            cells: IndexSet::new(alloc),
        }
    }

    /// How many lists there are.
    pub fn len(&self) -> usize
        ensures { result ≡ length (lists_of self.now.cells.keys) }
    {
        self.cells.len() + 1
    }

    /// The position of the empty list.
    pub fn empty(&self) -> usize
        ensures within { result < length (lists_of self.now.cells.keys) }
        ensures empty { get_or (lists_of self.now.cells.keys) result [] ≡ [] }
    {
        let _ = self.cells.len();
        0
    }

    /// The position of the list with an item before those of another.
    pub fn put(&mut self, item: I, rest: usize) -> Result<usize, AllocFailed<Cell<I>>>
        requires { rest < length (lists_of self.old.cells.keys) }
        ensures put { IfOk result (λ at. IsPut (lists_of self.old.cells.keys) (lists_of self.new.cells.keys) at item rest) }
        ensures refused { OnErr result (lists_of self.new.cells.keys ≡ lists_of self.old.cells.keys) }
    {
        // A set has less than 2^63 keys.
        let _ = self.cells.len();
        let (index, _) = self.cells.insert_full(Cell { item, rest })?;
        Ok(index + 1)
    }

    /// The first item of a list, and the position of the list behind it.
    pub fn first(&self, at: usize) -> Option<(&I, usize)>
        requires { at < length (lists_of self.now.cells.keys) }
        ensures empty { IfNone result (get_or (lists_of self.now.cells.keys) at [] ≡ []) }
        ensures item { IfSome result (λ found. get_or (lists_of self.now.cells.keys) at []
            ≡ found.0.now ∷ get_or (lists_of self.now.cells.keys) found.1 []) }
        ensures before { IfSome result (λ found. found.1 < at) }
    {
        if at == 0 {
            return None;
        }
        match self.cells.get_index(at - 1) {
            Some(cell) => Some((&cell.item, cell.rest)),
            None => None,
        }
    }

    /// No list has two positions.
    pub fn lists_differ(&self)
        ensures { AreDifferent (lists_of self.now.cells.keys) }
    {
        let _ = self.cells.len();
    }
}
