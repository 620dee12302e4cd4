//! All runs of a system, with the branches that they take and the components that are blocked.
ghost use Rattle.std.specs.Prelude.{◌↔◌, ◌≡◌, ℕ, ◌≤◌, false, IfOk, IsErrOf, IsTrue, OnOk};
ghost use Rattle.ttcnx_runs.specs.Sums.{blocked_of, branches_of};
ghost use Rattle.explore.specs.Best.{AreBest};
ghost use Rattle.explore.specs.Endings.{AreTooMany, HasEnded};
ghost use Rattle.explore.specs.Sightings.{AreSighted, shown_at_end, shown_by_step};
ghost use Rattle.search_layer.specs.Limits.{IsWithinLimits};
ghost use Rattle.summary.specs.Exploration.{Counts, IsComplete};

use explore::{ExploreError, Gate, Plan, Reached, Sighted, Stops};
use search_ordinals::{
    Branched, BranchedWatched, explore_by_ordinals, explore_watched_by_ordinals,
};
use std::alloc::Global;
use std::thread::Threads;
use summary::{Blocked, Both, Branches, Verdicts};

/// Explores all runs of a system of at most the plan's steps, or of fewer where a stop comes first.
pub fn search<Y: Branched, G: Gate, R: Threads + Sync>(
    rt: &R,
    alloc: Global,
    system: &Y,
    plan: &Plan,
    stops: &Stops,
    gate: &G,
) -> Result<
    Reached<Both<Verdicts, Both<Branches<Y::Branch>, Blocked<Y::Standing>>>, Y::Label>,
    ExploreError,
>
    ensures bad_plan { IsErrOf result ExploreError.BadPlan ↔ ¬ IsWithinLimits plan.now }
    ensures planned { OnOk result (IsWithinLimits plan.now) }
    ensures too_many { IsErrOf result ExploreError.TooMany → AreTooMany (Y.graph system.now) plan.now stops.now }
    ensures limited { IsErrOf result ExploreError.TooMany → stops.now.at_limit ≡ false }
    ensures steps { IfOk result (λ reached. reached.steps ≤ plan.now.steps) }
    ensures ended { IfOk result (λ reached. HasEnded (Y.graph system.now) plan.now stops.now reached.steps reached.ending) }
    ensures count { IfOk result (λ reached. Counts (Y.graph system.now) reached.steps reached.answer.count × (reached.answer.count ≤ plan.now.limit)) }
    ensures branches { IfOk result (λ reached. reached.answer.summary.second.first.places ≡ branches_of (Y.graph system.now) (Y.branch system.now) reached.steps) }
    ensures blocked { IfOk result (λ reached. reached.answer.summary.second.second.components ≡ blocked_of (Y.graph system.now) (Y.blocked system.now) reached.steps) }
    ensures complete { IfOk result (λ reached. IsTrue reached.answer.complete ↔ IsComplete (Y.graph system.now) reached.steps) }
    ensures best { IfOk result (λ reached. AreBest (Y.graph system.now) Y.Label.cmp reached.steps reached.answer.best.items) }

    // Where no longer run ends in another state, the same is true of every greater bound.
    ensures every_bound { IfOk result (λ reached. IsTrue reached.answer.complete → (bound : ℕ) → reached.steps ≤ bound
        → Counts (Y.graph system.now) bound reached.answer.count
        × (reached.answer.summary.second.first.places ≡ branches_of (Y.graph system.now) (Y.branch system.now) bound)
        × (reached.answer.summary.second.second.components ≡ blocked_of (Y.graph system.now) (Y.blocked system.now) bound)) }
{
    explore_by_ordinals::<Y, G, R>(rt, alloc, system, plan, stops, gate)
}

/// Explores all runs of a system as `search` does, and finds for all that steps and states show the least of the shortest runs
/// that show it.
pub fn search_watched<Y: BranchedWatched, G: Gate, R: Threads + Sync>(
    rt: &R,
    alloc: Global,
    system: &Y,
    plan: &Plan,
    stops: &Stops,
    gate: &G,
) -> Result<
    Sighted<
        Both<Verdicts, Both<Branches<Y::Branch>, Blocked<Y::Standing>>>,
        Y::Label,
        Y::Event,
        Y::Stand,
    >,
    ExploreError,
>
    ensures bad_plan { IsErrOf result ExploreError.BadPlan ↔ ¬ IsWithinLimits plan.now }
    ensures planned { OnOk result (IsWithinLimits plan.now) }
    ensures too_many { IsErrOf result ExploreError.TooMany → AreTooMany (Y.graph system.now) plan.now stops.now }
    ensures limited { IsErrOf result ExploreError.TooMany → stops.now.at_limit ≡ false }
    ensures steps { IfOk result (λ s. s.reached.steps ≤ plan.now.steps) }
    ensures ended { IfOk result (λ s. HasEnded (Y.graph system.now) plan.now stops.now s.reached.steps s.reached.ending) }
    ensures count { IfOk result (λ s. Counts (Y.graph system.now) s.reached.steps s.reached.answer.count × (s.reached.answer.count ≤ plan.now.limit)) }
    ensures branches { IfOk result (λ s. s.reached.answer.summary.second.first.places ≡ branches_of (Y.graph system.now) (Y.branch system.now) s.reached.steps) }
    ensures blocked { IfOk result (λ s. s.reached.answer.summary.second.second.components ≡ blocked_of (Y.graph system.now) (Y.blocked system.now) s.reached.steps) }
    ensures complete { IfOk result (λ s. IsTrue s.reached.answer.complete ↔ IsComplete (Y.graph system.now) s.reached.steps) }
    ensures best { IfOk result (λ s. AreBest (Y.graph system.now) Y.Label.cmp s.reached.steps s.reached.answer.best.items) }

    // Where no longer run ends in another state, the same is true of every greater bound.
    ensures every_bound { IfOk result (λ s. IsTrue s.reached.answer.complete → (bound : ℕ) → s.reached.steps ≤ bound
        → Counts (Y.graph system.now) bound s.reached.answer.count
        × (s.reached.answer.summary.second.first.places ≡ branches_of (Y.graph system.now) (Y.branch system.now) bound)
        × (s.reached.answer.summary.second.second.components ≡ blocked_of (Y.graph system.now) (Y.blocked system.now) bound)) }
    ensures events { IfOk result (λ s. AreSighted (Y.graph system.now) Y.Label.cmp s.reached.steps (shown_by_step (Y.graph system.now) (Y.event system.now)) s.events.items) }
    ensures stands { IfOk result (λ s. AreSighted (Y.graph system.now) Y.Label.cmp s.reached.steps (shown_at_end (Y.graph system.now) (Y.stand system.now)) s.stands.items) }
{
    explore_watched_by_ordinals::<Y, G, R>(rt, alloc, system, plan, stops, gate)
}
