//! The items that are placed.
ghost use Rattle.std.specs.Prelude.{◌∷◌, []};
ghost use Rattle.std.proofs.Common.{ap};
ghost use lib.Pointwise.{bytes_decides};

use std::hash::{Hash, Hasher};

/// 64 bytes, hashed in one write.
#[derive(Clone, Copy, PartialEq, Eq)]
pub struct Item([u8; 64]);

impl Item {
    pub fn of(number: u64) -> Item {
        let mut bytes = [0u8; 64];
        let low = number.to_le_bytes();
        for i in 0..8 {
            bytes[i] = low[i];
        }
        Item(bytes)
    }
}

impl Hash for Item {
    ghost hash_input = { λ item. item.0 ∷ [] };

    ghost respects_eq = { λ x y e. ap (λ bytes. bytes ∷ []) ((bytes_decides x.0 y.0).0 e) };

    fn hash<H: Hasher>(&self, state: &mut H) {
        state.write(&self.0);
    }
}
