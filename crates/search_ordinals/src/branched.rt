ghost use Rattle.std.specs.Prelude.{◌≡◌, IfOk};
ghost use Rattle.std.specs.List.{AllZip};
ghost use Rattle.search_ordinals.specs.Ordinals.{with_branch};
ghost use Rattle.search_ordinals.specs.Sparing.{IsSparedAt};
ghost use Rattle.search_ordinals.specs.Told.{IsNth};

use search_bounds::{BoundedSystem, Timed};
use std::alloc::{AllocError, Global};
use summary::Located;

/// A system that tells the branches of all steps from a state at once.
pub trait Branched: Located {
    /// For each enabled label, from the least to the greatest, the branch that its step takes, if it takes one, and the
    /// state that it leads to.
    fn branched_successors(
        &self,
        alloc: Global,
        state: &Self::State,
    ) -> Result<Vec<(Option<Self::Branch>, Self::State)>, AllocError>
        requires { Self.fits self.now state.now }
        ensures { IfOk result (λ pairs. pairs.items ≡ with_branch (Self.branch self.now) (Self.graph self.now) state.now ((Self.graph self.now).enabled state.now)) }
    {
        let mut pairs = Vec::new(alloc);
        for (label, after) in self.successors(alloc, state)? {
            let branch = self.branch(alloc, state, &label)?;
            pairs.push((branch, after))?;
        }
        Ok(pairs)
    }

    /// The same for a state behind a step, which is given by the state before it and by how many enabled labels come before
    /// its own. A state may be left out where two steps lead there from the state before, of which the first one comes before
    /// that step.
    fn sparing_branches(
        &self,
        alloc: Global,
        state: &Self::State,
        before: &Self::State,
        nth: u32,
    ) -> Result<Vec<(Option<Self::Branch>, Option<Self::State>)>, AllocError>
        requires fits { Self.fits self.now state.now × Self.fits self.now before.now }
        requires behind { (label : Self.Label) × IsNth ((Self.graph self.now).enabled before.now) nth label × (state.now ≡ (Self.graph self.now).after before.now label) }
        ensures { IfOk result (λ found. AllZip (IsSparedAt (Self.branch self.now) (Self.graph self.now) before.now nth state.now) ((Self.graph self.now).enabled state.now) found.items) }
    {
        let mut found = Vec::new(alloc);
        for (branch, after) in self.branched_successors(alloc, state)? {
            found.push((branch, Some(after)))?;
        }
        Ok(found)
    }

    /// The state to which the step of an enabled label leads, before which so many enabled labels come.
    fn next_of(
        &self,
        alloc: Global,
        state: &Self::State,
        nth: u32,
        label: &Self::Label,
    ) -> Result<Self::State, AllocError>
        requires fits { Self.fits self.now state.now }
        requires nth { IsNth ((Self.graph self.now).enabled state.now) nth label.now }
        ensures { IfOk result (λ after. after ≡ (Self.graph self.now).after state.now label.now) }
    {
        self.next(alloc, state, label)
    }

    /// An equal place of a branch. Takes no memory.
    fn copy_branch(branch: &Self::Branch) -> Self::Branch
        ensures { result ≡ branch.now };
}

impl<'a, Y: Timed + Branched> Branched for BoundedSystem<'a, Y> {
    fn copy_branch(branch: &Y::Branch) -> Y::Branch {
        Y::copy_branch(branch)
    }
}
