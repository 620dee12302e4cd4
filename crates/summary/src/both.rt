ghost use Rattle.std.specs.Prelude.{◌≡◌, IfOk};

use crate::{Summary, System};
use std::alloc::{AllocError, Global};

/// Two summaries, each made by itself.
#[derive(Debug, Drop, PartialEq, Eq)]
pub struct Both<A, B> {
    pub first: A,
    pub second: B,
}

impl<Y: System, A: Summary<Y>, B: Summary<Y>> Summary<Y> for Both<A, B> {
    ghost joins = { record {
      none = record { first = A.joins.none; second = B.joins.none };
      join = λ x y. record { first = A.joins.join x.first y.first; second = B.joins.join x.second y.second };
    } };

    ghost observation = { λ system. record {
      at = λ state. record { first = (A.observation system).at state; second = (B.observation system).at state };
      by = λ state label. record { first = (A.observation system).by state label; second = (B.observation system).by state label };
    } };

    ghost semilattice = { record {
      associates = λ x y z. λ i. record { first = A.semilattice.associates x.first y.first z.first i; second = B.semilattice.associates x.second y.second z.second i };
      commutes = λ x y. λ i. record { first = A.semilattice.commutes x.first y.first i; second = B.semilattice.commutes x.second y.second i };
      repeats = λ x. λ i. record { first = A.semilattice.repeats x.first i; second = B.semilattice.repeats x.second i };
      unit = λ x. λ i. record { first = A.semilattice.unit x.first i; second = B.semilattice.unit x.second i };
    } };

    fn empty(alloc: Global) -> Result<Both<A, B>, AllocError> {
        Ok(Both {
            first: A::empty(alloc)?,
            second: B::empty(alloc)?,
        })
    }

    fn join(self, alloc: Global, other: Both<A, B>) -> Result<Both<A, B>, AllocError> {
        Ok(Both {
            first: self.first.join(alloc, other.first)?,
            second: self.second.join(alloc, other.second)?,
        })
    }

    fn at(alloc: Global, system: &Y, state: &Y::State) -> Result<Both<A, B>, AllocError> {
        Ok(Both {
            first: A::at(alloc, system, state)?,
            second: B::at(alloc, system, state)?,
        })
    }

    fn by(
        alloc: Global,
        system: &Y,
        state: &Y::State,
        label: &Y::Label,
    ) -> Result<Both<A, B>, AllocError> {
        Ok(Both {
            first: A::by(alloc, system, state, label)?,
            second: B::by(alloc, system, state, label)?,
        })
    }
}
