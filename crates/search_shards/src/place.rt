//! Where a value is kept.
ghost use Rattle.std.specs.Prelude.{◌≡◌, IfOk};

use std::alloc::AllocError;
use std::marker::Model;

/// How many shards there are at most.
const SHARDS: u32 = 64;

/// How many values a shard has at most.
const INDICES: u32 = 67_108_864;

/// The number of a shard, and the index of a value in it, in four bytes. Contracts see both.
#[derive(Drop)]
pub(crate) struct Place {
    code: u32,
}

impl Model for Place {
    ghost use Rattle.std.specs.Prelude.{◌/◌, ◌%◌, ◌^◌};
    ghost use Rattle.search_shards.specs.internal.Places.{Position};

    ghost Value = { Position };

    ghost view = { λ place. (place.code / 2 ^ 26, place.code % 2 ^ 26) };
}

impl Place {
    /// The place of an index in a shard. More shards or values than have numbers are want of memory.
    pub(crate) fn new(shard: usize, index: usize) -> Result<Place, AllocError>
        ensures { IfOk result (λ place. place ≡ (shard, index)) }
    {
        let shard = number_of(shard)?;
        let index = number_of(index)?;
        if shard >= SHARDS || index >= INDICES {
            return Err(AllocError);
        }
        Ok(Place {
            code: shard * INDICES + index,
        })
    }

    pub(crate) fn shard(&self) -> usize
        ensures { result ≡ self.now.0 }
    {
        (self.code / INDICES) as usize
    }

    pub(crate) fn index(&self) -> usize
        ensures { result ≡ self.now.1 }
    {
        (self.code % INDICES) as usize
    }
}

/// The number of a place in four bytes. More than 2^32 places are want of memory.
pub fn number_of(number: usize) -> Result<u32, AllocError>
    ensures { IfOk result (λ n. n ≡ number) }
{
    match u32::try_from(number) {
        Ok(number) => Ok(number),
        Err(_) => Err(AllocError),
    }
}
