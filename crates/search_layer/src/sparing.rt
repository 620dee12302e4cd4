//! Systems that leave out states which a search finds without them.
ghost use Rattle.std.specs.Prelude.{◌≡◌, Contains, IfOk, map};
ghost use Rattle.std.specs.List.{All};
ghost use Rattle.search_layer.specs.Late.{IsSpared};

use std::alloc::{AllocError, Global};
use summary::System;

/// A system that needs not make every state to which a step leads.
pub trait Sparing: System {
    /// The enabled labels of a state, from the least to the greatest, each with the state that it leads to. The state is the
    /// one behind a step, which is given by the state before it and its label. Where two steps lead there from that state, of
    /// which the first one's label is less than this label, a state may be left out.
    fn sparing_successors(
        &self,
        alloc: Global,
        state: &Self::State,
        before: &Self::State,
        last: &Self::Label,
    ) -> Result<Vec<(Self::Label, Option<Self::State>)>, AllocError>
        requires fits { Self.fits self.now state.now × Self.fits self.now before.now }
        requires enabled { Contains ((Self.graph self.now).enabled before.now) last.now }
        requires behind { state.now ≡ (Self.graph self.now).after before.now last.now }
        ensures labels { IfOk result (λ found. map (λ p. p.0) found.items ≡ (Self.graph self.now).enabled state.now) }
        ensures states { IfOk result (λ found. All (IsSpared (Self.graph self.now) Self.Label.cmp before.now last.now state.now) found.items) }
    {
        let mut found = Vec::new(alloc);
        for (label, after) in self.successors(alloc, state)? {
            found.push((label, Some(after)))?;
        }
        Ok(found)
    }
}
