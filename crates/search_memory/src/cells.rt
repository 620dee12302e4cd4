//! Places for what is written once.
ghost use Rattle.std.specs.Prelude.{◌≡◌};
ghost use Rattle.search_memory.specs.Hashes.{hash_of};

use once_cell::race::OnceBox;
use std::alloc::{AllocError, Global};
use std::hash::{FoldHasher, Hasher};

/// What bytes are hashed to.
pub fn hash_of(bytes: &[u8]) -> u64
    ensures { result ≡ hash_of bytes.now }
{
    let mut hasher = FoldHasher::default();
    hasher.write(bytes);
    hasher.finish()
}

/// The cell of a hash, where so many others come before it.
pub fn cell_at<T>(cells: &[OnceBox<T>], hash: u64, before: usize) -> Option<&OnceBox<T>> {
    // the upper half of the hash, as a part of the places
    let first = (hash >> 32).wrapping_mul(cells.len() as u64) >> 32;
    let place = (first as usize).wrapping_add(before);
    if place < cells.len() {
        cells.get(place)
    } else {
        cells.get(place.wrapping_sub(cells.len()))
    }
}

/// So many cells with nothing in them.
pub fn empty_cells<T: Drop>(
    alloc: Global,
    places: usize,
) -> Result<Box<Vec<OnceBox<T>>>, AllocError> {
    let mut cells = Vec::with_capacity(alloc, places)?;
    for _ in 0..places {
        cells.push(OnceBox::new(alloc))?;
    }
    Ok(Box::new(alloc, cells)?)
}
