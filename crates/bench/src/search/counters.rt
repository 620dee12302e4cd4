//! A system of many states, each with a list of bytes of its own.
ghost use Rattle.std.specs.Prelude.{◌≡◌, ◌==◌, ℕ, ◌≤◌, ◌+◌, ◌%◌, length, slice_index, IfOk};
ghost use Rattle.std.specs.Cmp.Lexicographic.{bytes_decides};
ghost use Rattle.std.proofs.Common.{◌∙◌};
ghost use Rattle.std.proofs.lemmas.List.{length-replicate, length-set};
ghost use Rattle.bench.specs.Counters.{counters, labels_ascend};

use super::row::Row;
use explore::Sparing;
use std::alloc::{AllocError, Global};
use summary::System;

/// Rows of 96 bytes. A label is the place of one of the first five, which it counts up.
#[derive(Drop)]
pub struct Counters {
    values: u8,
    ghost some: { 1 ≤ values },
}

impl Counters {
    /// Counters that go round through so many values.
    pub fn new(values: u8) -> Counters
        requires { 1 ≤ values }
    {
        Counters { values }
    }

    /// A label, with the row that it leads to.
    fn successor(&self, alloc: Global, row: &Row, label: u8) -> Result<(u8, Row), AllocError>
        requires { length row.now ≡ 96 }
        ensures { IfOk result (λ pair. pair ≡ (label, (counters self.now.values).after row.now label)) }
    {
        let after = row.counted(alloc, usize::from(label % 5), self.values)?;
        Ok((label, after))
    }
}

impl System for Counters {
    type State = Row;

    type Label = u8;

    ghost graph = { λ it. counters it.values };

    ghost fits = { λ it row. length row ≡ 96 };

    ghost same = { λ it s t f h e. (bytes_decides s t).0 e };

    ghost ascending = { λ it s f. labels_ascend };

    ghost first_fits = { λ it. length-replicate {A = ℕ} 96 0 };

    ghost after_fits = { λ it s l f c. length-set s (l % 5) _ ∙ f };

    ghost marks_below_8 = { λ it s f. tt };

    fn start(&self, alloc: Global) -> Result<Row, AllocError> {
        Row::zeros(alloc)
    }

    fn labels(&self, alloc: Global, _row: &Row) -> Result<Vec<u8>, AllocError> {
        Vec::from_slice(alloc, &[0, 1, 2, 3, 4])
    }

    fn next(&self, alloc: Global, row: &Row, label: &u8) -> Result<Row, AllocError> {
        row.counted(alloc, usize::from(*label % 5), self.values)
    }

    fn successors(&self, alloc: Global, row: &Row) -> Result<Vec<(u8, Row)>, AllocError> {
        let all = [
            self.successor(alloc, row, 0)?,
            self.successor(alloc, row, 1)?,
            self.successor(alloc, row, 2)?,
            self.successor(alloc, row, 3)?,
            self.successor(alloc, row, 4)?,
        ];
        Ok(Vec::from_array(alloc, all)?)
    }

    fn copy(&self, _alloc: Global, label: &u8) -> Result<u8, AllocError> {
        Ok(*label)
    }

    fn mark(&self, _row: &Row) -> Option<u8> {
        None
    }
}

impl Sparing for Counters {}
