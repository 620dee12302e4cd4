//! What the words of a closed table hold, in ascending order.
ghost use Rattle.std.specs.Prelude.{◌≡◌, ℕ, ◌+◌, ◌<◌, ◌≤◌, ◌↔◌, true, false, length, slice_index, slice_index_or, IfOk};
ghost use Rattle.std.specs.List.Sorted.{IsStrictlyIncreasing};
ghost use Rattle.std.specs.Mem.Slots.{slots_items, slots_len, IsFull};
ghost use Rattle.shared.specs.Totals.{Stands};

use atomic_table::Closed;
use std::alloc::{AllocError, Global};

// For each position whether a word has it.
pub(super) fn marks(
    alloc: Global,
    closed: &Closed<(), Global>,
    words: usize,
    count: usize,
) -> Result<Vec<bool>, AllocError>
    requires words { (words ≡ slots_len closed.now.words) × (words ≡ length (slots_items closed.now.words)) × IsFull closed.now.words }
    requires positions { (a : ℕ) → slice_index (slots_items closed.now.words) a ≤ count }
    ensures size { IfOk result (λ marks. length marks.items ≡ count) }
    ensures marked { IfOk result (λ marks. (j : ℕ) → (slice_index_or marks.items j false ≡ true) ↔ ((a : ℕ) × (slice_index (slots_items closed.now.words) a ≡ j + 1))) }
{
    let mut marks = Vec::from_elem(alloc, false, count)?;
    for word in 0..words {
        let held = closed.word(word) as usize;
        if held > 0 {
            marks[held - 1] = true;
        }
    }
    Ok(marks)
}

// The positions that are marked.
pub(super) fn marked(alloc: Global, marks: &[bool]) -> Result<Vec<u64>, AllocError>
    ensures ascending { IfOk result (λ firsts. IsStrictlyIncreasing firsts.items) }
    ensures members { IfOk result (λ firsts. (j : ℕ) → Stands j firsts.items ↔ (slice_index_or marks.now j false ≡ true)) }
{
    let mut firsts = Vec::new(alloc);
    for position in 0..marks.len() {
        if marks[position] {
            firsts.push(position as u64)?;
        }
    }
    Ok(firsts)
}
