//! All runs of a test case that keep a bound on expiries of timers, up to a number of steps (ES 201 873-4).
ghost use Rattle.std.specs.Prelude.{◌≡◌, ◌↔◌, ℕ, ◌<◌, ◌≤◌, false, IfOk, IsErrOf, IsTrue, OnOk};
ghost use Rattle.laws_bounds.specs.BoundedParts.{CountsBounded, IsCompleteBounded};
ghost use Rattle.search_layer.specs.Limits.{IsWithinLimits};
ghost use Rattle.ttcnx_bounds.specs.BoundedEndings.{AreTooManyBounded, HaveEndedBounded};
ghost use Rattle.ttcnx_bounds.specs.BoundedFound.{AreFoundBounded};
ghost use Rattle.ttcnx_bounds.specs.internal.BoundedExplored.{IsExploredBounded};

use crate::search::search_within;
use explore::{ExploreError, Gate, Plan, Stops};
use search_bounds::Bound;
use search_memory::Interner;
use std::alloc::{AllocError, Global};
use std::marker::Brand;
use std::thread::Threads;
use ttcn_step::Machine;
use ttcnx_runs::{Exploration, Extent, Runs, Scheme, extent_of};

/// Explores all runs of a machine's test case of at most the plan's steps that keep a bound.
pub fn explore_bounded<G: Gate, R: Threads + Sync>(
    rt: &R,
    alloc: Global,
    machine: &Machine<'_>,
    bound: Bound,
    plan: &Plan,
    gate: &G,
) -> Result<Exploration, ExploreError>
    ensures bad_plan { IsErrOf result ExploreError.BadPlan ↔ ¬ IsWithinLimits plan.now }
    ensures planned { OnOk result (IsWithinLimits plan.now) }
    ensures too_many { IsErrOf result ExploreError.TooMany → (count : ℕ) × CountsBounded machine.now.test bound plan.now.steps count × (plan.now.limit < count) }
    ensures found { IfOk result (AreFoundBounded machine.now.test bound plan.now.steps) }
    ensures within { IfOk result (λ found. found.configurations ≤ plan.now.limit) }
    ensures complete { IfOk result (λ found. IsTrue found.complete ↔ IsCompleteBounded machine.now.test bound plan.now.steps) }

    // Where no longer run within the bound reaches another pair, the same is true of the runs of more steps.
    ensures every_bound { IfOk result (λ found. IsTrue found.complete → (steps : ℕ) → plan.now.steps ≤ steps → AreFoundBounded machine.now.test bound steps found) }
{
    let extent = explore_bounded_until(rt, alloc, machine, bound, plan, &Stops::NOWHERE, gate)?;
    Ok(extent.found)
}

/// Explores all runs of a machine's test case of at most the plan's steps that keep a bound, or of fewer steps where one of the
/// stops comes first.
pub fn explore_bounded_until<G: Gate, R: Threads + Sync>(
    rt: &R,
    alloc: Global,
    machine: &Machine<'_>,
    bound: Bound,
    plan: &Plan,
    stops: &Stops,
    gate: &G,
) -> Result<Extent, ExploreError>
    ensures bad_plan { IsErrOf result ExploreError.BadPlan ↔ ¬ IsWithinLimits plan.now }
    ensures planned { OnOk result (IsWithinLimits plan.now) }

    // These runs reach more pairs than the limit, with each number of steps with which the exploration may end.
    ensures too_many { IsErrOf result ExploreError.TooMany → AreTooManyBounded machine.now.test bound plan.now stops.now }
    ensures limited { IsErrOf result ExploreError.TooMany → stops.now.at_limit ≡ false }

    // What is found is of a number of steps within the plan's, the fewest with which the exploration may end.
    ensures steps { IfOk result (λ extent. extent.steps ≤ plan.now.steps) }
    ensures ended { IfOk result (λ extent. HaveEndedBounded machine.now.test bound plan.now stops.now extent.steps extent.ending) }

    ensures found { IfOk result (λ extent. AreFoundBounded machine.now.test bound extent.steps extent.found) }
    ensures within { IfOk result (λ extent. extent.found.configurations ≤ plan.now.limit) }
    ensures complete { IfOk result (λ extent. IsTrue extent.found.complete ↔ IsCompleteBounded machine.now.test bound extent.steps) }

    // Where no longer run within the bound reaches another pair, the same is true of the runs of more steps.
    ensures every_bound { IfOk result (λ extent. IsTrue extent.found.complete → (steps : ℕ) → extent.steps ≤ steps → AreFoundBounded machine.now.test bound steps extent.found) }
{
    explore_kept::<Brand, G, R>(rt, alloc, machine, bound, plan, stops, gate)
}

/// Explores all these runs, where a type names the machine.
fn explore_kept<K: Scheme + Send + Sync, G: Gate, R: Threads + Sync>(
    rt: &R,
    alloc: Global,
    machine: &Machine<'_>,
    bound: Bound,
    plan: &Plan,
    stops: &Stops,
    gate: &G,
) -> Result<Extent, ExploreError>
    requires { machine.now ≡ K.machine }
    ensures { IsExploredBounded K.machine.test bound plan.now stops.now result }
{
    let interner = Interner::new(alloc);
    let runs = Runs::<K>::new(alloc, machine, &interner);
    match search_within::<Runs<'_, '_, '_, K>, G, R>(rt, alloc, &runs, bound, plan, stops, gate) {
        Ok(reached) => match extent_of(alloc, reached) {
            Ok(extent) => Ok(extent),
            Err(AllocError) => Err(ExploreError::Memory),
        },
        Err(refused) => Err(refused),
    }
}
