//! All runs of a system that keep a bound, with the branches that they take and the components that are blocked.
ghost use Rattle.std.specs.Prelude.{◌≡◌, ◌↔◌, ℕ, ◌≤◌, false, IfOk, IsErrOf, IsTrue, OnOk};
ghost use Rattle.explore.specs.Best.{AreBest};
ghost use Rattle.explore.specs.Endings.{AreTooMany, HasEnded};
ghost use Rattle.search_bounds.specs.Bounded.{bounded};
ghost use Rattle.search_layer.specs.Limits.{IsWithinLimits};
ghost use Rattle.summary.specs.Exploration.{Counts, IsComplete};
ghost use Rattle.ttcnx_runs.specs.Sums.{blocked_of, branches_of};

use explore::{ExploreError, Gate, Plan, Reached, Stops};
use search_bounds::{Bound, BoundedSystem, Timed};
use search_ordinals::Branched;
use std::alloc::Global;
use std::thread::Threads;
use summary::{Blocked, Both, Branches, Verdicts};
use ttcnx_runs::search::search;

/// Explores all runs of a system that keep a bound, of at most the plan's steps, or of fewer where a stop comes first.
pub(crate) fn search_within<Y: Timed + Branched, G: Gate, R: Threads + Sync>(
    rt: &R,
    alloc: Global,
    system: &Y,
    bound: Bound,
    plan: &Plan,
    stops: &Stops,
    gate: &G,
) -> Result<
    Reached<Both<Verdicts, Both<Branches<Y::Branch>, Blocked<Y::Standing>>>, Y::Label>,
    ExploreError,
>
    ensures bad_plan { IsErrOf result ExploreError.BadPlan ↔ ¬ IsWithinLimits plan.now }
    ensures planned { OnOk result (IsWithinLimits plan.now) }
    ensures too_many { IsErrOf result ExploreError.TooMany → AreTooMany (bounded bound Y.kind (Y.graph system.now)) plan.now stops.now }
    ensures limited { IsErrOf result ExploreError.TooMany → stops.now.at_limit ≡ false }
    ensures steps { IfOk result (λ reached. reached.steps ≤ plan.now.steps) }
    ensures ended { IfOk result (λ reached. HasEnded (bounded bound Y.kind (Y.graph system.now)) plan.now stops.now reached.steps reached.ending) }
    ensures count { IfOk result (λ reached. Counts (bounded bound Y.kind (Y.graph system.now)) reached.steps reached.answer.count × (reached.answer.count ≤ plan.now.limit)) }
    ensures branches { IfOk result (λ reached. reached.answer.summary.second.first.places ≡ branches_of (bounded bound Y.kind (Y.graph system.now)) (λ b label. Y.branch system.now b.state label) reached.steps) }
    ensures blocked { IfOk result (λ reached. reached.answer.summary.second.second.components ≡ blocked_of (bounded bound Y.kind (Y.graph system.now)) (λ b. Y.blocked system.now b.state) reached.steps) }
    ensures complete { IfOk result (λ reached. IsTrue reached.answer.complete ↔ IsComplete (bounded bound Y.kind (Y.graph system.now)) reached.steps) }
    ensures best { IfOk result (λ reached. AreBest (bounded bound Y.kind (Y.graph system.now)) Y.Label.cmp reached.steps reached.answer.best.items) }

    // Where no longer run within the bound ends in another state, the same is true of every greater number of steps.
    ensures every_bound { IfOk result (λ reached. IsTrue reached.answer.complete → (steps : ℕ) → reached.steps ≤ steps
        → Counts (bounded bound Y.kind (Y.graph system.now)) steps reached.answer.count
        × (reached.answer.summary.second.first.places ≡ branches_of (bounded bound Y.kind (Y.graph system.now)) (λ b label. Y.branch system.now b.state label) steps)
        × (reached.answer.summary.second.second.components ≡ blocked_of (bounded bound Y.kind (Y.graph system.now)) (λ b. Y.blocked system.now b.state) steps)) }
{
    let system = BoundedSystem { system, bound };
    search::<BoundedSystem<'_, Y>, G, R>(rt, alloc, &system, plan, stops, gate)
}
