ghost use Rattle.std.specs.Prelude.{◌≡◌, ◌<◌, ◌≤◌};
ghost use Rattle.std.specs.FinSet as set;
ghost use Rattle.explore.specs.Ring.{ring, ring_same, ring_ascends, ring_after, ring_mark};
ghost use Rattle.summary.specs.NumberSet.{union_semilattice};

use crate::watched::Watched;
use search_layer::Sparing;
use std::alloc::{AllocError, Global};
use summary::{SmallSet, Summary, System};

/// A ring of numbered states, which shows the search on a system that is small and not a chain.
///
/// Label 0 leads from a state to the next, label 1 to the one of twice its number, both round the ring. The last state
/// has mark 0.
#[derive(Clone, Copy, Debug, PartialEq, Eq)]
pub struct Ring {
    size: u32,
    ghost at_least_one: { 1 ≤ size },
    ghost at_most_a_million: { size ≤ 1000000 },
}

impl Ring {
    /// A ring of 1 to 1,000,000 states.
    pub fn new(size: u32) -> Ring
        requires at_least_one { 1 ≤ size }
        requires at_most_a_million { size ≤ 1000000 }
        ensures { result.size ≡ size }
    {
        Ring { size }
    }
}

impl System for Ring {
    type State = u32;

    type Label = u8;

    ghost graph = { λ it. ring it.size };

    ghost fits = { λ it state. state < it.size };

    ghost same = { λ it s t f h e. ring_same s t e };

    ghost ascending = { λ it s f. ring_ascends };

    ghost first_fits = { λ it. it.at_least_one };

    ghost after_fits = { λ it s l f c. ring_after it.size s l it.at_least_one };

    ghost marks_below_8 = { λ it s f. ring_mark it.size s };

    fn start(&self, _alloc: Global) -> Result<u32, AllocError> {
        Ok(0)
    }

    fn labels(&self, alloc: Global, _state: &u32) -> Result<Vec<u8>, AllocError> {
        Vec::from_slice(alloc, &[0, 1])
    }

    fn next(&self, _alloc: Global, state: &u32, label: &u8) -> Result<u32, AllocError> {
        Ok(if *label == 0 {
            (*state + 1) % self.size
        } else {
            2 * *state % self.size
        })
    }

    fn copy(&self, _alloc: Global, label: &u8) -> Result<u8, AllocError> {
        Ok(*label)
    }

    fn mark(&self, state: &u32) -> Option<u8> {
        if *state + 1 == self.size {
            Some(0)
        } else {
            None
        }
    }
}

/// No state is left out.
impl Sparing for Ring {}

/// Steps show their labels, and states their remainders by 4.
impl Watched for Ring {
    ghost use Rattle.std.specs.Prelude.{◌%◌, Some};
    ghost use Rattle.std.proofs.Common.{refl};
    ghost use Rattle.std.proofs.lemmas.Bool.{eq-eqb, eqb-true};

    type Event = u8;

    type Stand = u32;

    ghost event = { λ it state label. Some label };

    ghost stand = { λ it state. Some (state % 4) };

    ghost one_event = { λ e f same. eqb-true e f same };

    ghost one_stand = { λ s t same. eqb-true s t same };

    ghost same_event = { λ e. eq-eqb e e refl };

    ghost same_stand = { λ s. eq-eqb s s refl };

    fn events(&self, alloc: Global, state: &u32) -> Result<Vec<(u8, Option<u8>)>, AllocError> {
        let mut found = Vec::new(alloc);
        for label in self.labels(alloc, state)? {
            found.push((label, Some(label)))?;
        }
        Ok(found)
    }

    fn stand(&self, _alloc: Global, state: &u32) -> Result<Option<u32>, AllocError> {
        Ok(Some(*state % 4))
    }
}

/// The remainders by 4 of the states that runs end in.
#[derive(Debug, Drop)]
pub struct Residues {
    pub residues: SmallSet,
}

impl Summary<Ring> for Residues {
    ghost use Rattle.std.specs.Prelude.{◌%◌};

    ghost joins = { record {
      none = record { residues = set.empty };
      join = λ v w. record { residues = set.union v.residues w.residues };
    } };

    ghost observation = { λ it. record {
      at = λ state. record { residues = set.insert set.empty (state % 4) };
      by = λ state label. record { residues = set.empty };
    } };

    ghost semilattice = { record {
      associates = λ x y z. λ i. record { residues = union_semilattice.associates x.residues y.residues z.residues i };
      commutes = λ x y. λ i. record { residues = union_semilattice.commutes x.residues y.residues i };
      repeats = λ x. λ i. record { residues = union_semilattice.repeats x.residues i };
      unit = λ x. λ i. record { residues = union_semilattice.unit x.residues i };
    } };

    fn empty(alloc: Global) -> Result<Residues, AllocError> {
        Ok(Residues {
            residues: SmallSet::new(alloc),
        })
    }

    fn join(self, _alloc: Global, other: Residues) -> Result<Residues, AllocError> {
        Ok(Residues {
            residues: self.residues.union(other.residues)?,
        })
    }

    fn at(alloc: Global, _system: &Ring, state: &u32) -> Result<Residues, AllocError> {
        Ok(Residues {
            residues: SmallSet::of(alloc, (*state % 4) as u8)?,
        })
    }

    fn by(
        alloc: Global,
        _system: &Ring,
        _state: &u32,
        _label: &u8,
    ) -> Result<Residues, AllocError> {
        Ok(Residues {
            residues: SmallSet::new(alloc),
        })
    }
}

/// The labels that were taken.
#[derive(Debug, Drop)]
pub struct Turns {
    pub taken: SmallSet,
}

impl Summary<Ring> for Turns {
    ghost joins = { record {
      none = record { taken = set.empty };
      join = λ v w. record { taken = set.union v.taken w.taken };
    } };

    ghost observation = { λ it. record {
      at = λ state. record { taken = set.empty };
      by = λ state label. record { taken = set.insert set.empty label };
    } };

    ghost semilattice = { record {
      associates = λ x y z. λ i. record { taken = union_semilattice.associates x.taken y.taken z.taken i };
      commutes = λ x y. λ i. record { taken = union_semilattice.commutes x.taken y.taken i };
      repeats = λ x. λ i. record { taken = union_semilattice.repeats x.taken i };
      unit = λ x. λ i. record { taken = union_semilattice.unit x.taken i };
    } };

    fn empty(alloc: Global) -> Result<Turns, AllocError> {
        Ok(Turns {
            taken: SmallSet::new(alloc),
        })
    }

    fn join(self, _alloc: Global, other: Turns) -> Result<Turns, AllocError> {
        Ok(Turns {
            taken: self.taken.union(other.taken)?,
        })
    }

    fn at(alloc: Global, _system: &Ring, _state: &u32) -> Result<Turns, AllocError> {
        Ok(Turns {
            taken: SmallSet::new(alloc),
        })
    }

    fn by(alloc: Global, _system: &Ring, _state: &u32, label: &u8) -> Result<Turns, AllocError> {
        Ok(Turns {
            taken: SmallSet::of(alloc, *label)?,
        })
    }
}
