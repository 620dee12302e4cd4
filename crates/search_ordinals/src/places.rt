//! A step's ordinal has its branch, and blocked components are those of the system.
use crate::branched::Branched;
use crate::ordinal::Ordinal;
use crate::system::OrdinalSystem;
use std::alloc::{AllocError, Global};
use summary::Located;

impl<'a, Y: Branched> Located for OrdinalSystem<'a, Y> {
    type Branch = Y::Branch;

    type Standing = Y::Standing;

    ghost branch = { λ _ _ ordinal. ordinal.branch };

    ghost blocked = { λ it state. Y.blocked it.system.now state };

    fn branch(
        &self,
        _alloc: Global,
        _state: &Y::State,
        ordinal: &Ordinal<Y::Branch>,
    ) -> Result<Option<Y::Branch>, AllocError> {
        match &ordinal.branch {
            Some(branch) => Ok(Some(Y::copy_branch(branch))),
            None => Ok(None),
        }
    }

    fn blocked(&self, alloc: Global, state: &Y::State) -> Result<Vec<Y::Standing>, AllocError> {
        self.system.blocked(alloc, state)
    }
}
