//! The branches and blocked components of a bounded system are those of the system: a component that waits for an expiry which
//! the bound forbids isn't blocked.
use crate::{Bounded, BoundedSystem, Timed};
use std::alloc::{AllocError, Global};
use summary::Located;

impl<'a, Y: Timed + Located> Located for BoundedSystem<'a, Y> {
    type Branch = Y::Branch;

    type Standing = Y::Standing;

    ghost branch = { λ it b label. Y.branch it.system.now b.state label };

    ghost blocked = { λ it b. Y.blocked it.system.now b.state };

    fn branch(
        &self,
        alloc: Global,
        b: &Bounded<Y::State>,
        label: &Y::Label,
    ) -> Result<Option<Y::Branch>, AllocError> {
        self.system.branch(alloc, &b.state, label)
    }

    fn blocked(
        &self,
        alloc: Global,
        b: &Bounded<Y::State>,
    ) -> Result<Vec<Y::Standing>, AllocError> {
        self.system.blocked(alloc, &b.state)
    }
}
