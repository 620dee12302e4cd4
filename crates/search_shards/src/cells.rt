//! Cells, which say at which index of a list a value stands.
ghost use Rattle.std.specs.Prelude.{◌≡◌, ℕ, ◌<◌, true, false, IsTrue, length, get_or, slice_get, None, Some, IfOk, IfSome, OnOk};
ghost use Rattle.std.specs.List.{list_any};
ghost use Rattle.search_shards.specs.Sharded.{hash_of};
ghost use Rattle.search_shards.specs.internal.Cells.{IsFirstFree, IsFound, cell_by, tag_by};

use crate::place::number_of;
use std::alloc::{AllocError, Global};
use std::hash::{FoldHasher, Hash, Hasher};
use std::marker::Model;

/// How many tags there are.
const TAGS: u64 = 64;

/// How many indices a cell tells apart.
const INDICES: usize = 67_108_864;

/// What a free cell has.
const FREE: u32 = u32::MAX;

/// What a value is hashed to.
pub(crate) fn hash_of<T: Hash>(value: &T) -> u64
    ensures { result ≡ hash_of T.hash_input value.now }
{
    let mut hasher = FoldHasher::default();
    value.hash(&mut hasher);
    hasher.finish()
}

/// The part of a hash that cells keep.
pub(crate) fn tag_of(hash: u64) -> usize
    ensures tag { result ≡ tag_by hash }
    ensures small { result < 64 }
{
    ((hash >> 48) % TAGS) as usize
}

/// Nothing, or an index and the tag of the value's hash, in four bytes. Contracts see both.
#[derive(Drop)]
pub(crate) struct Cell {
    code: u32,
}

impl Model for Cell {
    ghost use Rattle.std.specs.Prelude.{◌/◌, ◌%◌, ◌^◌, ◌-◌, Option, None, Some, nat_eq, if◌then◌else◌};
    ghost use Rattle.search_shards.specs.internal.Places.{Position};

    ghost Value = { Option Position };

    ghost view = { λ cell. if nat_eq cell.code (2 ^ 32 - 1) then None else Some (cell.code / 2 ^ 26, cell.code % 2 ^ 26) };
}

impl Cell {
    /// A free cell.
    fn free() -> Cell
        ensures { result ≡ None }
    {
        Cell { code: FREE }
    }

    /// The cell of an index. An index that has no number is want of memory.
    fn new(tag: usize, index: usize) -> Result<Cell, AllocError>
        requires { tag < 64 }
        ensures { IfOk result (λ cell. cell ≡ Some (tag, index)) }
    {
        // the last index, with the last tag, is the code of a free cell
        if index >= INDICES - 1 {
            return Err(AllocError);
        }
        Ok(Cell {
            code: number_of(tag * INDICES + index)?,
        })
    }

    /// The tag and the index, unless the cell is free.
    fn get(&self) -> Option<(usize, usize)>
        ensures { result ≡ self.now }
    {
        if self.code == FREE {
            return None;
        }
        let code = self.code as usize;
        Some((code / INDICES, code % INDICES))
    }
}

/// So many free cells.
pub(crate) fn free_cells(alloc: Global, count: usize) -> Result<Vec<Cell>, AllocError> {
    let mut cells = Vec::with_capacity(alloc, count)?;
    for _ in 0..count {
        cells.push_reserved(Cell::free());
    }
    Ok(cells)
}

/// The place of the cell that comes so many behind the first one of a hash.
fn place_of(cells: &[Cell], hash: u64, before: usize) -> usize
    requires { before < length cells.now }
    ensures place { result ≡ cell_by (length cells.now) hash before }
    ensures within { result < length cells.now }
{
    let place = (hash % cells.len() as u64) as usize + before;
    if place < cells.len() {
        place
    } else {
        place - cells.len()
    }
}

/// Whether an equal value stands at an index that is found by the hash of this one.
pub(crate) fn finds<T: Eq + Hash>(values: &[T], cells: &[Cell], value: &T) -> bool
    ensures is { IsTrue result → list_any (T.eq value.now) values.now ≡ true }
    ensures is_not { result ≡ false → (index : ℕ) (other : T) → IsFound cells.now (hash_of T.hash_input value.now) index → slice_get values.now index ≡ Some other
        → T.eq value.now other ≡ false }
{
    let hash = hash_of(value);
    let tag = tag_of(hash);
    for before in 0..cells.len() {
        let Some((found, index)) = cells[place_of(cells, hash, before)].get() else {
            return false;
        };
        if found == tag && is_at(values, index, value) {
            return true;
        }
    }
    false
}

/// Whether an equal value stands at an index.
fn is_at<T: Eq>(values: &[T], index: usize, value: &T) -> bool
    ensures is { IsTrue result → list_any (T.eq value.now) values.now ≡ true }
    ensures same { (other : T) → slice_get values.now index ≡ Some other → T.eq value.now other ≡ result }
{
    match values.get(index) {
        Some(other) => value == other,
        None => false,
    }
}

/// The place of the first free cell from that of a hash on.
fn free_place(cells: &[Cell], hash: u64) -> Option<usize>
    ensures { IfSome result (λ place. IsFirstFree cells.now hash place) }
{
    for before in 0..cells.len() {
        let place = place_of(cells, hash, before);
        if cells[place].get().is_none() {
            return Some(place);
        }
    }
    None
}

/// Lets an index be found by a hash. Where no cell is free, there is want of memory.
pub(crate) fn put(cells: &mut Vec<Cell>, hash: u64, index: usize) -> Result<(), AllocError>
    ensures found { OnOk result (IsFound cells.new.items hash index) }
    ensures others { OnOk result ((other at : ℕ) → IsFound cells.old.items other at → IsFound cells.new.items other at) }
{
    let cell = Cell::new(tag_of(hash), index)?;
    let Some(place) = free_place(cells, hash) else {
        return Err(AllocError);
    };
    cells[place] = cell;
    Ok(())
}
