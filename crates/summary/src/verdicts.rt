ghost use Rattle.std.specs.FinSet as set;
ghost use Rattle.summary.specs.NumberSet.{numbers_of, union_semilattice};

use crate::{SmallSet, Summary, System};
use std::alloc::{AllocError, Global};

/// The set of the marks of the states that runs end in.
#[derive(Debug, Drop)]
pub struct Verdicts {
    pub marks: SmallSet,
}

impl<Y: System> Summary<Y> for Verdicts {
    ghost joins = { record {
      none = record { marks = set.empty };
      join = λ v w. record { marks = set.union v.marks w.marks };
    } };

    ghost observation = { λ system. record {
      at = λ state. record { marks = numbers_of ((Y.graph system).mark state) };
      by = λ state label. record { marks = set.empty };
    } };

    ghost semilattice = { record {
      associates = λ x y z. λ i. record { marks = union_semilattice.associates x.marks y.marks z.marks i };
      commutes = λ x y. λ i. record { marks = union_semilattice.commutes x.marks y.marks i };
      repeats = λ x. λ i. record { marks = union_semilattice.repeats x.marks i };
      unit = λ x. λ i. record { marks = union_semilattice.unit x.marks i };
    } };

    fn empty(alloc: Global) -> Result<Verdicts, AllocError> {
        Ok(Verdicts {
            marks: SmallSet::new(alloc),
        })
    }

    fn join(self, _alloc: Global, other: Verdicts) -> Result<Verdicts, AllocError> {
        Ok(Verdicts {
            marks: self.marks.union(other.marks)?,
        })
    }

    fn at(alloc: Global, system: &Y, state: &Y::State) -> Result<Verdicts, AllocError> {
        let marks = match system.mark(state) {
            Some(mark) => SmallSet::of(alloc, mark)?,
            None => SmallSet::new(alloc),
        };
        Ok(Verdicts { marks })
    }

    fn by(
        alloc: Global,
        _system: &Y,
        _state: &Y::State,
        _label: &Y::Label,
    ) -> Result<Verdicts, AllocError> {
        Ok(Verdicts {
            marks: SmallSet::new(alloc),
        })
    }
}
