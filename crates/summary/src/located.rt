ghost use Rattle.std.specs.Prelude.{◌≡◌, List, Option, Contains, IfOk};

use crate::{Key, System};
use std::alloc::{AllocError, Global};

/// A system that tells where: the place of the branch that a step takes, and the components that are blocked.
pub trait Located: System {
    /// The place of a branch.
    type Branch: Key + Send + Sync;

    /// A component and the place where it stands.
    type Standing: Key + Send + Sync;

    /// The branch that the step by an enabled label takes, if it takes one.
    ghost branch: { Self → Self.State → Self.Label → Option Self.Branch };

    /// The components that are blocked in a state.
    ghost blocked: { Self → Self.State → List Self.Standing };

    /// The branch that the step by an enabled label takes, if it takes one.
    fn branch(
        &self,
        alloc: Global,
        state: &Self::State,
        label: &Self::Label,
    ) -> Result<Option<Self::Branch>, AllocError>
        requires fits { Self.fits self.now state.now }
        requires enabled { Contains ((Self.graph self.now).enabled state.now) label.now }
        ensures { IfOk result (λ taken. taken ≡ branch self.now state.now label.now) };

    /// The components that are blocked in a state.
    fn blocked(&self, alloc: Global, state: &Self::State) -> Result<Vec<Self::Standing>, AllocError>
        requires { Self.fits self.now state.now }
        ensures { IfOk result (λ standings. standings.items ≡ blocked self.now state.now) };
}
