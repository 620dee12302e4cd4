//! Items by their numbers.
ghost use Rattle.std.specs.Prelude.{◌<◌, ◌≡◌, length, IfOk};
ghost use Rattle.search_ordinals.specs.Told.{IsNth};
ghost use Rattle.search_ordinals.specs.internal.Numbered.{numbered};

use crate::ordinal::Ordinal;
use std::alloc::{AllocError, Global};

/// The item before which so many come.
pub fn nth_of<T: Drop>(mut items: Vec<T>, nth: u32) -> T
    requires { nth < length items.items }
    ensures { IsNth items.items nth result }
{
    items.swap_remove(nth as usize)
}

/// The number of an item at an index.
pub fn number_of(index: usize) -> Result<u32, AllocError>
    ensures { IfOk result (λ nth. nth ≡ index) }
{
    match u32::try_from(index) {
        Ok(nth) => Ok(nth),
        Err(_) => Err(AllocError),
    }
}

/// The items, with an ordinal in place of each branch: their numbers begin with 0.
pub fn numbered<B: Drop, T: Drop>(
    alloc: Global,
    items: Vec<(Option<B>, T)>,
) -> Result<Vec<(Ordinal<B>, T)>, AllocError>
    ensures { IfOk result (λ pairs. pairs.items ≡ numbered 0 items.items) }
{
    let mut pairs = Vec::with_capacity(alloc, items.len())?;
    for (branch, item) in items {
        let nth = number_of(pairs.len())?;
        pairs.push((Ordinal { nth, branch }, item))?;
    }
    Ok(pairs)
}
