ghost use Rattle.summary.specs.KeySet as set;
ghost use Rattle.summary.specs.KeySet.{union_semilattice};

use crate::{Key, Located, OrderedSet, Summary};
use std::alloc::{AllocError, Global};

/// The places of the branches that steps take.
#[derive(Debug, Drop)]
pub struct Branches<B: Key> {
    pub places: OrderedSet<B>,
}

impl<Y: Located> Summary<Y> for Branches<Y::Branch> {
    ghost joins = { record {
      none = record { places = set.empty };
      join = λ x y. record { places = set.union x.places y.places };
    } };

    ghost observation = { λ system. record {
      at = λ state. record { places = set.empty };
      by = λ state label. record { places = set.from_option (Y.branch system state label) };
    } };

    ghost semilattice = { record {
      associates = λ x y z. λ i. record { places = union_semilattice.associates x.places y.places z.places i };
      commutes = λ x y. λ i. record { places = union_semilattice.commutes x.places y.places i };
      repeats = λ x. λ i. record { places = union_semilattice.repeats x.places i };
      unit = λ x. λ i. record { places = union_semilattice.unit x.places i };
    } };

    fn empty(alloc: Global) -> Result<Branches<Y::Branch>, AllocError> {
        Ok(Branches {
            places: OrderedSet::new(alloc),
        })
    }

    fn join(
        self,
        _alloc: Global,
        other: Branches<Y::Branch>,
    ) -> Result<Branches<Y::Branch>, AllocError> {
        Ok(Branches {
            places: self.places.union(other.places)?,
        })
    }

    fn at(
        alloc: Global,
        _system: &Y,
        _state: &Y::State,
    ) -> Result<Branches<Y::Branch>, AllocError> {
        Ok(Branches {
            places: OrderedSet::new(alloc),
        })
    }

    fn by(
        alloc: Global,
        system: &Y,
        state: &Y::State,
        label: &Y::Label,
    ) -> Result<Branches<Y::Branch>, AllocError> {
        let places = match system.branch(alloc, state, label)? {
            Some(place) => OrderedSet::of(alloc, place)?,
            None => OrderedSet::new(alloc),
        };
        Ok(Branches { places })
    }
}
