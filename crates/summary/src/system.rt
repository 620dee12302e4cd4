ghost use Rattle.std.specs.Prelude.{◌≡◌, ℕ, ◌<◌, true, None, Some, IfOk, IfSome, Contains, AllPairs};
ghost use Rattle.std.specs.declared.cmp.Ordering.TheVariants.{Less};
ghost use Rattle.summary.specs.Graph.{Graph, with_after};

use std::alloc::{AllocError, Global};
use std::hash::Hash;

/// A system that moves from state to state by labels.
///
/// What it means is its `graph`: contracts and theorems speak of that alone.
pub trait System: Sync {
    type State: Eq + Hash + Send + Sync + Drop;

    type Label: Ord + Send + Sync + Drop;

    /// Where runs start, which labels are enabled, where they lead, and which states are marked.
    ghost graph: { Self → Graph Self.State Self.Label };

    /// The states that may be handed in: those that `start` and `next` give, and maybe more.
    ghost fits: { Self → Self.State → Type 0 };

    /// The state in which each run starts.
    fn start(&self, alloc: Global) -> Result<Self::State, AllocError>
        ensures { IfOk result (λ state. state ≡ (graph self.now).first) };

    /// The enabled labels, from the least to the greatest.
    fn labels(&self, alloc: Global, state: &Self::State) -> Result<Vec<Self::Label>, AllocError>
        requires { fits self.now state.now }
        ensures { IfOk result (λ labels. labels.items ≡ (graph self.now).enabled state.now) };

    /// The state that an enabled label leads to.
    fn next(
        &self,
        alloc: Global,
        state: &Self::State,
        label: &Self::Label,
    ) -> Result<Self::State, AllocError>
        requires fits { fits self.now state.now }
        requires enabled { Contains ((graph self.now).enabled state.now) label.now }
        ensures { IfOk result (λ after. after ≡ (graph self.now).after state.now label.now) };

    /// The enabled labels, from the least to the greatest, each with the state that it leads to.
    fn successors(
        &self,
        alloc: Global,
        state: &Self::State,
    ) -> Result<Vec<(Self::Label, Self::State)>, AllocError>
        requires { fits self.now state.now }
        ensures { IfOk result (λ pairs. pairs.items ≡ with_after (graph self.now) state.now ((graph self.now).enabled state.now)) }
    {
        let mut pairs = Vec::new(alloc);
        for label in self.labels(alloc, state)? {
            let after = self.next(alloc, state, &label)?;
            pairs.push((label, after))?;
        }
        Ok(pairs)
    }

    /// An equal label.
    fn copy(&self, alloc: Global, label: &Self::Label) -> Result<Self::Label, AllocError>
        ensures { IfOk result (λ copy. copy ≡ label.now) };

    /// The mark of a state, a number below 8. Takes no memory.
    fn mark(&self, state: &Self::State) -> Option<u8>
        requires { fits self.now state.now }
        ensures { result ≡ (graph self.now).mark state.now };

    /// States that are equal by `==` are the same state.
    ghost same: { (y : Self) (s t : Self.State) → fits y s → fits y t → Self.State.eq s t ≡ true → s ≡ t };

    /// Enabled labels ascend, and none comes twice.
    ghost ascending: { (y : Self) (s : Self.State) → fits y s → AllPairs (λ l m. Self.Label.cmp l m ≡ Less) ((graph y).enabled s) };

    ghost first_fits: { (y : Self) → fits y (graph y).first };

    ghost after_fits: { (y : Self) (s : Self.State) (l : Self.Label) → fits y s → Contains ((graph y).enabled s) l → fits y ((graph y).after s l) };

    ghost marks_below_8: { (y : Self) (s : Self.State) → fits y s → IfSome ((graph y).mark s) (λ mark. mark < 8) };
}
