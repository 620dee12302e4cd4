//! What a component has of its own, kept as bytes.
ghost use Rattle.std.specs.Prelude.{◌≡◌, IfOk};
ghost use Rattle.config_packed.specs.Spelling.{spell_own};
ghost use Rattle.config_parts.specs.declared.frame.Data.{Data};
ghost use Rattle.ttcn_syntax.specs.declared.tree.statement.Verdict.{Verdict};

use std::alloc::{AllocError, Global};
use std::marker::Model;

/// What a component has of its own as bytes. Contracts see its verdict and its data.
pub struct OwnBytes {
    bytes: Vec<u8>,
}

impl Model for OwnBytes {
    ghost use Rattle.std.specs.Coded.{codes};
    ghost use Rattle.std.specs.Prelude.{◌≡◌};
    ghost use Rattle.config_packed.specs.Own.{own_in};
    ghost use Rattle.config_packed.specs.Spelling.{spell_own};
    ghost use Rattle.config_parts.specs.declared.frame.Data.{Data};
    ghost use Rattle.ttcn_syntax.specs.declared.tree.statement.Verdict.{Verdict};
    ghost use Rattle.value_types.specs.contracts.value.Value as value;

    ghost Value = { Verdict × Data };

    ghost coded = { Prim.hlevel (codes, value.the_row.coded) };

    ghost view = { λ own. own_in own.bytes.items };

    ghost invariant = { λ own. own.bytes.items ≡ spell_own (own_in own.bytes.items).0 (own_in own.bytes.items).1 };
}

impl Drop for OwnBytes {
    fn drop(self) {
        let OwnBytes { bytes: _bytes } = self;
    }
}

impl OwnBytes {
    /// A copy of bytes that spell it.
    #[tactic(auto, using(crate::proofs::OwnBack::own_in_back))]
    pub fn copy(alloc: Global, bytes: &[u8]) -> Result<OwnBytes, AllocError>
        requires { (v : Verdict) × (own : Data) × (bytes.now ≡ spell_own v own) }
        ensures { (v : Verdict) (own : Data) → bytes.now ≡ spell_own v own → IfOk result (λ copy. copy ≡ (v, own)) }
    {
        Ok(OwnBytes {
            bytes: Vec::from_slice(alloc, bytes)?,
        })
    }

    pub fn as_bytes(&self) -> &[u8]
        ensures { result.now ≡ spell_own self.now.0 self.now.1 }
    {
        self.bytes.as_slice()
    }
}
