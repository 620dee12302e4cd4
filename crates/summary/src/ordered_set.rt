ghost use Rattle.std.specs.Prelude.{◌≡◌, List, [], ◌∷◌, IfOk, OnOk};
ghost use Rattle.summary.specs.Ascent.{Ascends};
ghost use Rattle.summary.specs.KeyCode.{code};
ghost use Rattle.summary.specs.KeySet as set;

use crate::Key;
use std::alloc::{AllocError, Global};
use std::marker::Model;

/// A set of keys, kept in ascending order. An empty one takes no memory.
#[derive(Debug, Drop)]
pub struct OrderedSet<T: Key> {
    keys: Vec<T>,
}

impl<T: Key> Model for OrderedSet<T> {
    ghost Value = { set.KeySet T };

    ghost coded = { code T.code };

    ghost view = { λ a. set.from_list a.keys.items };

    ghost invariant = { λ a. Ascends T.cmp a.keys.items };
}

impl<T: Key> OrderedSet<T> {
    /// The empty set. Takes no memory.
    pub fn new(alloc: Global) -> OrderedSet<T>
        ensures { result ≡ set.empty }
    {
        OrderedSet {
            keys: Vec::new(alloc),
        }
    }

    /// The set of one key.
    pub fn of(alloc: Global, key: T) -> Result<OrderedSet<T>, AllocError>
        ensures { IfOk result (λ s. s ≡ set.from_list (key ∷ [])) }
    {
        let mut keys = Vec::new(alloc);
        keys.push(key)?;
        Ok(OrderedSet { keys })
    }

    /// The set of the keys of a list. Takes no memory.
    pub fn from_list(mut keys: Vec<T>) -> OrderedSet<T>
        ensures { result ≡ set.from_list keys.items }
    {
        keys.sort_unstable();
        keys.dedup();
        OrderedSet { keys }
    }

    /// The keys of both. Takes memory only for keys that the larger set lacks.
    pub fn union(self, other: OrderedSet<T>) -> Result<OrderedSet<T>, AllocError>
        ensures { IfOk result (λ s. s ≡ set.union self other) }
    {
        if self.keys.len() < other.keys.len() {
            extended(other.keys, self.keys)
        } else {
            extended(self.keys, other.keys)
        }
    }

    /// The keys, in ascending order.
    pub fn as_slice(&self) -> &[T]
        ensures keys { set.from_list result.now ≡ self.now }
        ensures ascend { Ascends T.cmp result.now }
        ensures only { (other : List T) → set.from_list other ≡ self.now → Ascends T.cmp other → other ≡ result.now }
    {
        self.keys.as_slice()
    }
}

/// Adds a key that is not there yet.
fn add<T: Key>(keys: &mut Vec<T>, key: T) -> Result<(), AllocError>
    requires { Ascends T.cmp keys.old.items }
    ensures ascend { OnOk result (Ascends T.cmp keys.new.items) }
    ensures union { OnOk result (set.from_list keys.new.items ≡ set.union (set.from_list keys.old.items) (set.from_list (key ∷ []))) }
{
    if let Err(place) = keys.binary_search(&key) {
        keys.insert(place, key)?;
    }
    Ok(())
}

/// The set of the keys of two lists, of which the first ascends.
fn extended<T: Key>(mut keys: Vec<T>, more: Vec<T>) -> Result<OrderedSet<T>, AllocError>
    requires { Ascends T.cmp keys.items }
    ensures { IfOk result (λ s. s ≡ set.union (set.from_list keys.items) (set.from_list more.items)) }
{
    for key in more {
        add(&mut keys, key)?;
    }
    Ok(OrderedSet { keys })
}
