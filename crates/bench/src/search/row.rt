//! Rows of bytes.
ghost use Rattle.std.specs.Prelude.{◌≡◌, ◌+◌, ◌%◌, ◌<◌, ◌≤◌, length, replicate, slice_index, slice_set, IfOk};

use std::alloc::{AllocError, Global};
use std::hash::{Hash, Hasher};
use std::marker::Model;

pub const LENGTH: usize = 96;

/// Bytes, hashed in one write.
#[derive(Drop)]
pub struct Row {
    bytes: Vec<u8>,
}

impl Model for Row {
    ghost use Rattle.std.specs.Prelude.{ℕ, List};
    ghost use Rattle.std.specs.Coded.{coded_list, coded_ℕ};

    ghost Value = { List ℕ };

    ghost coded = { coded_list coded_ℕ };

    ghost view = { λ fields. fields.bytes.items };
}

impl Row {
    /// 96 zeros.
    pub fn zeros(alloc: Global) -> Result<Row, AllocError>
        ensures { IfOk result (λ row. row ≡ replicate 96 0) }
    {
        Ok(Row {
            bytes: Vec::from_elem(alloc, 0, LENGTH)?,
        })
    }

    /// The row in which the byte at a place counts up, through so many values.
    pub fn counted(&self, alloc: Global, place: usize, values: u8) -> Result<Row, AllocError>
        requires place { place < length self.now }
        requires values { 1 ≤ values }
        ensures { IfOk result (λ row. row ≡ slice_set self.now place ((slice_index self.now place + 1) % values)) }
    {
        let mut bytes = Vec::from_slice(alloc, self.bytes.as_slice())?;
        bytes[place] = ((u16::from(bytes[place]) + 1) % u16::from(values)) as u8;
        Ok(Row { bytes })
    }
}

impl PartialEq for Row {
    ghost use Rattle.std.specs.Cmp.Lexicographic.{pointwise};
    ghost use Rattle.std.specs.Prelude.{nat_eq};
    ghost use Rattle.std.proofs.Common.{rules};
    ghost use Rattle.std.specs.Cmp.Rules.{comparing};

    ghost eq = { pointwise nat_eq };

    ghost laws = { Prim.search (comparing, rules) };

    fn eq(&self, other: &Row) -> bool {
        self.bytes == other.bytes
    }
}

impl Eq for Row {
    ghost use Rattle.std.proofs.Common.{rules};
    ghost use Rattle.std.specs.Cmp.Rules.{comparing};

    ghost laws = { Prim.search (comparing, rules) };
}

impl Hash for Row {
    ghost use Rattle.std.specs.Prelude.{◌∷◌, []};
    ghost use Rattle.std.proofs.Common.{ap};
    ghost use lib.Pointwise.{bytes_decides};

    ghost hash_input = { λ row. row ∷ [] };

    ghost respects_eq = { λ x y e. ap (λ bytes. bytes ∷ []) ((bytes_decides x y).0 e) };

    fn hash<H: Hasher>(&self, state: &mut H) {
        state.write(self.bytes.as_slice());
    }
}
