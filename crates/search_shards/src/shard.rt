//! One of the sets that keep the values.
ghost use Rattle.std.specs.Prelude.{◌≡◌, ◌<◌, ◌≤◌, [], ◌∷◌, ◌++◌, drop, length, slice_get, Some, IfOk, OnOk, OnErr};
ghost use Rattle.std.specs.List.{list_any};

use crate::cells::{Cell, finds, free_cells, hash_of, put};
use std::alloc::{AllocError, Global};
use std::hash::Hash;
use std::marker::Model;

/// Values, the first of which are found by their hashes. Those behind them wait to be.
#[derive(Drop)]
pub(crate) struct Shard<T: Eq + Hash> {
    values: Vec<T>,
    /// How many are found by their hashes.
    found: usize,
    /// Where they stand: for each the first cell from that of its hash on that was free.
    cells: Vec<Cell>,
}

impl<T: Eq + Hash> Model for Shard<T> {
    ghost use Rattle.std.specs.Prelude.{List};
    ghost use Rattle.std.specs.Coded.{coded_list};
    ghost use Rattle.search_shards.specs.internal.Cells.{AreFound};

    ghost Value = { List T };

    ghost coded = { coded_list T.code };

    ghost view = { λ shard. shard.values.items };

    ghost invariant = { λ shard. AreFound T.hash_input shard.values.items shard.cells.items shard.found };
}

/// The values behind so many.
fn behind<T>(values: &[T], count: usize) -> &[T]
    requires { count ≤ length values.now }
    ensures { result.now ≡ drop count values.now }
{
    &values[count..]
}

impl<T: Eq + Hash> Shard<T> {
    /// No values.
    pub(crate) fn new(alloc: Global) -> Shard<T>
        ensures { result ≡ [] }
    {
        Shard {
            values: Vec::new(alloc),
            found: 0,
            cells: Vec::new(alloc),
        }
    }

    /// How many values there are.
    pub(crate) fn len(&self) -> usize
        ensures { result ≡ length self.now }
    {
        self.values.len()
    }

    /// How many values wait.
    pub(crate) fn waiting_len(&self) -> usize {
        self.values.len() - self.found
    }

    /// The value at an index.
    pub(crate) fn at(&self, index: usize) -> &T
        requires { index < length self.now }
        ensures { slice_get self.now index ≡ Some result.now }
    {
        &self.values[index]
    }

    /// Whether an equal value is among them. Those that wait are compared one by one.
    pub(crate) fn contains(&self, value: &T) -> bool
        ensures { result ≡ list_any (T.eq value.now) self.now }
    {
        finds(&self.values, &self.cells, value) || behind(&self.values, self.found).contains(value)
    }
}

impl<T: Eq + Hash + Drop> Shard<T> {
    /// Adds a value, which waits.
    pub(crate) fn push(&mut self, value: T) -> Result<(), AllocError>
        ensures pushed { OnOk result (self.new ≡ self.old ++ value ∷ []) }
        ensures refused { OnErr result (self.new ≡ self.old) }
    {
        self.values.push(value)?;
        Ok(())
    }

    /// Lets the values that wait be found by their hashes. Of the cells a quarter stays free, so that a free one is soon met.
    pub(crate) fn settle(self) -> Result<Shard<T>, AllocError>
        ensures { IfOk result (λ shard. shard ≡ self) }
    {
        let Shard {
            values,
            mut found,
            mut cells,
        } = self;
        let count = values.len();
        if cells.len() / 4 * 3 < count {
            cells = free_cells(*values.allocator(), count * 2)?;
            found = 0;
        }
        for index in found..count {
            put(&mut cells, hash_of(&values[index]), index)?;
        }
        Ok(Shard {
            values,
            found: count,
            cells,
        })
    }
}
