//! A set whose values are kept in several sets, by their hashes.
ghost use Rattle.std.specs.Prelude.{◌≡◌, ◌^◌, ◌<◌, [], ◌∷◌, ◌++◌, false, length, map, All, slice_get, Some, Ok, IfOk, OnOk, OnErr};
ghost use Rattle.std.specs.List.{list_any};
ghost use Rattle.search_shards.specs.Sharded.{shard_of};

use crate::cells::hash_of;
use crate::place::Place;
use crate::shard::Shard;
use std::alloc::{AllocError, Global};
use std::hash::Hash;
use std::marker::Model;
use std::ops::Index;
use std::thread;
use std::thread::Threads;

/// Where fewer values wait, threads would cost more than they save.
const FEWEST: usize = 1024;

/// Values in the order in which they were added, each once.
#[derive(Drop)]
pub struct ShardedSet<T: Eq + Hash> {
    shards: Vec<Shard<T>>,
    places: Vec<Place>,
}

impl<T: Eq + Hash> Model for ShardedSet<T> {
    ghost use Rattle.std.specs.Prelude.{length};
    ghost use Rattle.search_shards.specs.Sharded.{Sharded, sharded_code};
    ghost use Rattle.search_shards.specs.internal.Places.{values_in, IsSharded};

    ghost Value = { Sharded T };

    ghost coded = { sharded_code T.code };

    ghost view = { λ fields. record { keys = values_in fields.shards.items fields.places.items; shards = length fields.shards.items } };

    ghost invariant = { λ fields. IsSharded T.eq T.hash_input fields.shards.items fields.places.items };
}

impl<T: Eq + Hash> ShardedSet<T> {
    /// An empty set of so many shards.
    pub fn new(alloc: Global, shards: usize) -> Result<ShardedSet<T>, AllocError>
        requires { 0 < shards }
        ensures { IfOk result (λ set. (set.keys ≡ []) × (set.shards ≡ shards)) }
    {
        let mut made = Vec::with_capacity(alloc, shards)?;
        for _ in 0..shards {
            made.push_reserved(Shard::new(alloc));
        }
        Ok(ShardedSet {
            shards: made,
            places: Vec::new(alloc),
        })
    }

    /// How many values there are.
    pub fn len(&self) -> usize
        ensures len { result ≡ length self.now.keys }
        ensures small { result < 2 ^ 63 }
    {
        self.places.len()
    }

    /// Whether an equal value is in the set.
    pub fn contains(&self, value: &T) -> bool
        ensures { result ≡ list_any (T.eq value.now) self.now.keys }
    {
        self.contains_in(self.shard_of(value), value)
    }

    /// Whether an equal value is in the set, by the shard that the value belongs to.
    pub fn contains_in(&self, shard: usize, value: &T) -> bool
        requires { shard ≡ shard_of T.hash_input self.now.shards value.now }
        ensures { result ≡ list_any (T.eq value.now) self.now.keys }
    {
        self.shards[shard].contains(value)
    }

    /// The number of the shard that a value belongs to.
    pub fn shard_of(&self, value: &T) -> usize
        ensures { result ≡ shard_of T.hash_input self.now.shards value.now }
    {
        // Where there is one shard, no hash is needed.
        if self.shards.len() == 1 {
            return 0;
        }
        ((hash_of(value) >> 32) % self.shards.len() as u64) as usize
    }
}

impl<T: Eq + Hash + Drop> ShardedSet<T> {
    /// Adds a value that is not in the set, behind the others, to the shard that it belongs to.
    pub fn push(&mut self, shard: usize, value: T) -> Result<(), AllocError>
        requires shard { shard ≡ shard_of T.hash_input self.old.shards value }
        requires new { list_any (T.eq value) self.old.keys ≡ false }
        ensures pushed { OnOk result (self.new.keys ≡ self.old.keys ++ value ∷ []) }
        ensures refused { OnErr result (self.new.keys ≡ self.old.keys) }
        ensures shards { self.new.shards ≡ self.old.shards }
    {
        let place = Place::new(shard, self.shards[shard].len())?;
        // With room for the place, nothing is refused after the value is in.
        self.places.reserve(1)?;
        self.shards[shard].push(value)?;
        self.places.push_reserved(place);
        Ok(())
    }
}

/// The shards, where each of the answers is one, or the first refusal.
fn shards_of<T: Eq + Hash + Drop>(
    answers: Vec<Result<Shard<T>, AllocError>>,
) -> Result<Vec<Shard<T>>, AllocError>
    ensures { IfOk result (λ shards. answers.items ≡ map Ok shards.items) }
{
    let mut shards = Vec::with_capacity(*answers.allocator(), answers.len())?;
    for answer in answers {
        shards.push(answer?)?;
    }
    Ok(shards)
}

/// The shards with no value that waits, by this thread alone.
fn settle_here<T: Eq + Hash + Drop>(shards: Vec<Shard<T>>) -> Result<Vec<Shard<T>>, AllocError>
    ensures { IfOk result (λ settled. settled.items ≡ shards.items) }
{
    let mut settled = Vec::with_capacity(*shards.allocator(), shards.len())?;
    for shard in shards {
        settled.push(shard.settle()?)?;
    }
    Ok(settled)
}

/// The shards with no value that waits, by a thread for each shard.
fn settle_apart<T: Eq + Hash + Send + Drop, R: Threads + Sync>(
    rt: &R,
    shards: Vec<Shard<T>>,
) -> Result<Vec<Shard<T>>, AllocError>
    ensures { IfOk result (λ settled. settled.items ≡ shards.items) }
{
    let answers = thread::map_vec(
        rt,
        shards,
        &|shard: Shard<T>| -> Result<Shard<T>, AllocError>
            ensures { IfOk result (λ settled. settled ≡ shard) }
        { shard.settle() },
    )?;
    shards_of(answers)
}

/// How many values wait.
fn waiting_len<T: Eq + Hash>(shards: &[Shard<T>]) -> usize {
    let mut count: usize = 0;
    for shard in shards {
        count = count.saturating_add(shard.waiting_len());
    }
    count
}

impl<T: Eq + Hash + Send + Drop> ShardedSet<T> {
    /// Lets values that were pushed be found as fast as the others, by a thread for each shard.
    pub fn settle<R: Threads + Sync>(self, rt: &R) -> Result<ShardedSet<T>, AllocError>
        ensures { IfOk result (λ set. set ≡ self) }
    {
        let ShardedSet { shards, places } = self;
        let shards = if waiting_len(&shards) < FEWEST {
            settle_here(shards)?
        } else {
            settle_apart(rt, shards)?
        };
        Ok(ShardedSet { shards, places })
    }

    /// Drops the values, by a thread for each shard.
    pub fn drop_all<R: Threads + Sync>(self, rt: &R) {
        let ShardedSet { shards, places: _ } = self;
        let _ = thread::map_vec(rt, shards, &|shard: Shard<T>| drop(shard));
    }
}

impl<T: Eq + Hash> Index<usize> for ShardedSet<T> {
    type Output = T;

    ghost can_index = { λ set i. i < length set.keys };

    ghost index_gives = { λ set i value. slice_get set.keys i ≡ Some value };

    fn index(&self, index: usize) -> &T {
        let place = &self.places[index];
        self.shards[place.shard()].at(place.index())
    }
}
