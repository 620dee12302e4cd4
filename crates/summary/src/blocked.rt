ghost use Rattle.summary.specs.KeySet as set;
ghost use Rattle.summary.specs.KeySet.{union_semilattice};

use crate::{Key, Located, OrderedSet, Summary};
use std::alloc::{AllocError, Global};

/// The components that are blocked in some state, each with the place where it stands.
#[derive(Debug, Drop)]
pub struct Blocked<C: Key> {
    pub components: OrderedSet<C>,
}

impl<Y: Located> Summary<Y> for Blocked<Y::Standing> {
    ghost joins = { record {
      none = record { components = set.empty };
      join = λ x y. record { components = set.union x.components y.components };
    } };

    ghost observation = { λ system. record {
      at = λ state. record { components = set.from_list (Y.blocked system state) };
      by = λ state label. record { components = set.empty };
    } };

    ghost semilattice = { record {
      associates = λ x y z. λ i. record { components = union_semilattice.associates x.components y.components z.components i };
      commutes = λ x y. λ i. record { components = union_semilattice.commutes x.components y.components i };
      repeats = λ x. λ i. record { components = union_semilattice.repeats x.components i };
      unit = λ x. λ i. record { components = union_semilattice.unit x.components i };
    } };

    fn empty(alloc: Global) -> Result<Blocked<Y::Standing>, AllocError> {
        Ok(Blocked {
            components: OrderedSet::new(alloc),
        })
    }

    fn join(
        self,
        _alloc: Global,
        other: Blocked<Y::Standing>,
    ) -> Result<Blocked<Y::Standing>, AllocError> {
        Ok(Blocked {
            components: self.components.union(other.components)?,
        })
    }

    fn at(alloc: Global, system: &Y, state: &Y::State) -> Result<Blocked<Y::Standing>, AllocError> {
        Ok(Blocked {
            components: OrderedSet::from_list(system.blocked(alloc, state)?),
        })
    }

    fn by(
        alloc: Global,
        _system: &Y,
        _state: &Y::State,
        _label: &Y::Label,
    ) -> Result<Blocked<Y::Standing>, AllocError> {
        Ok(Blocked {
            components: OrderedSet::new(alloc),
        })
    }
}
