//! Explorations that keep of each step its ordinal and its branch.
ghost use Rattle.std.specs.Prelude.{◌≡◌, ◌↔◌, ℕ, ◌≤◌, false, IfOk, OnOk, IsTrue, IsErrOf};
ghost use Rattle.summary.specs.Exploration.{Counts, IsComplete};
ghost use Rattle.summary.specs.Sums.{sum_of};
ghost use Rattle.explore.specs.Best.{AreBest};
ghost use Rattle.explore.specs.Endings.{AreTooMany, HasEnded};
ghost use Rattle.explore.specs.Sightings.{AreSighted, shown_at_end, shown_by_step};
ghost use Rattle.search_layer.specs.Limits.{IsWithinLimits};
ghost use Rattle.search_ordinals.specs.OrdinalOrder.{ordinal_cmp};
ghost use Rattle.search_ordinals.specs.Ordinals.{ordinal_graph};

use crate::branched::Branched;
use crate::following::{labels_of_runs, labels_of_sightings};
use crate::ordinal::Ordinal;
use crate::system::OrdinalSystem;
use crate::watched::BranchedWatched;
use explore::{
    Answer, ExploreError, Gate, Plan, Reached, Sighted, Stops, explore_until, explore_watched,
};
use std::alloc::{AllocError, Global};
use std::thread::Threads;
use summary::{Blocked, Both, Branches, Summary, Verdicts};

/// Explores as `explore_until` does, and keeps of each step its ordinal and its branch, in place of a label.
pub fn explore_by_ordinals<Y: Branched, G: Gate, R: Threads + Sync>(
    rt: &R,
    alloc: Global,
    system: &Y,
    plan: &Plan,
    stops: &Stops,
    gate: &G,
) -> Result<
    Reached<Both<Verdicts, Both<Branches<Y::Branch>, Blocked<Y::Standing>>>, Y::Label>,
    ExploreError,
>
    ensures bad_plan { IsErrOf result ExploreError.BadPlan ↔ ¬ IsWithinLimits plan.now }
    ensures planned { OnOk result (IsWithinLimits plan.now) }

    // More states than the limit are reached, with each number of steps with which it may end.
    ensures too_many { IsErrOf result ExploreError.TooMany → AreTooMany (Y.graph system.now) plan.now stops.now }
    ensures limited { IsErrOf result ExploreError.TooMany → stops.now.at_limit ≡ false }

    // The answer is of a bound within the plan's, the least with which it may end.
    ensures steps { IfOk result (λ reached. reached.steps ≤ plan.now.steps) }
    ensures ended { IfOk result (λ reached. HasEnded (Y.graph system.now) plan.now stops.now reached.steps reached.ending) }

    ensures count { IfOk result (λ reached. Counts (Y.graph system.now) reached.steps reached.answer.count × (reached.answer.count ≤ plan.now.limit)) }
    ensures summary { IfOk result (λ reached. reached.answer.summary ≡ sum_of (Y.graph system.now) ⟦<Both<Verdicts, Both<Branches<Y::Branch>, Blocked<Y::Standing>>> as Summary<Y>>⟧.joins (⟦<Both<Verdicts, Both<Branches<Y::Branch>, Blocked<Y::Standing>>> as Summary<Y>>⟧.observation system.now) reached.steps) }
    ensures complete { IfOk result (λ reached. IsTrue reached.answer.complete ↔ IsComplete (Y.graph system.now) reached.steps) }
    ensures best { IfOk result (λ reached. AreBest (Y.graph system.now) Y.Label.cmp reached.steps reached.answer.best.items) }

    // Where it is complete, summary and count are those of every greater bound.
    ensures every_bound { IfOk result (λ reached. IsTrue reached.answer.complete → (bound : ℕ) → reached.steps ≤ bound
        → (reached.answer.summary ≡ sum_of (Y.graph system.now) ⟦<Both<Verdicts, Both<Branches<Y::Branch>, Blocked<Y::Standing>>> as Summary<Y>>⟧.joins (⟦<Both<Verdicts, Both<Branches<Y::Branch>, Blocked<Y::Standing>>> as Summary<Y>>⟧.observation system.now) bound)
        × Counts (Y.graph system.now) bound reached.answer.count) }
{
    let ordinals = OrdinalSystem { system };
    let reached = explore_until::<
        OrdinalSystem<'_, Y>,
        Both<Verdicts, Both<Branches<Y::Branch>, Blocked<Y::Standing>>>,
        G,
        R,
    >(rt, alloc, &ordinals, plan, stops, gate)?;
    let Reached {
        steps,
        answer: told,
        ending,
    } = reached;
    let answer = answer_with_labels(alloc, system, told)?;
    Ok(Reached {
        steps,
        answer,
        ending,
    })
}

/// The same answer, with the labels of the runs that ordinals tell.
fn answer_with_labels<Y: Branched, U: Drop>(
    alloc: Global,
    system: &Y,
    told: Answer<U, Ordinal<Y::Branch>>,
) -> Result<Answer<U, Y::Label>, AllocError>
    requires best { (n : ℕ) × AreBest (ordinal_graph (Y.branch system.now) (Y.graph system.now)) ordinal_cmp n told.best.items }
    ensures summary { IfOk result (λ answer. answer.summary ≡ told.summary) }
    ensures count { IfOk result (λ answer. answer.count ≡ told.count) }
    ensures complete { IfOk result (λ answer. answer.complete ≡ told.complete) }
    ensures best { IfOk result (λ answer. (n : ℕ) → AreBest (ordinal_graph (Y.branch system.now) (Y.graph system.now)) ordinal_cmp n told.best.items → AreBest (Y.graph system.now) Y.Label.cmp n answer.best.items) }
{
    let Answer {
        summary,
        count,
        complete,
        best: ordinals,
    } = told;
    let best = labels_of_runs(alloc, system, ordinals.as_slice())?;
    Ok(Answer {
        summary,
        count,
        complete,
        best,
    })
}

/// Explores as `explore_watched` does, and keeps of each step its ordinal and its branch, in place of a label.
pub fn explore_watched_by_ordinals<Y: BranchedWatched, G: Gate, R: Threads + Sync>(
    rt: &R,
    alloc: Global,
    system: &Y,
    plan: &Plan,
    stops: &Stops,
    gate: &G,
) -> Result<
    Sighted<
        Both<Verdicts, Both<Branches<Y::Branch>, Blocked<Y::Standing>>>,
        Y::Label,
        Y::Event,
        Y::Stand,
    >,
    ExploreError,
>
    ensures bad_plan { IsErrOf result ExploreError.BadPlan ↔ ¬ IsWithinLimits plan.now }
    ensures planned { OnOk result (IsWithinLimits plan.now) }

    // More states than the limit are reached, with each number of steps with which it may end.
    ensures too_many { IsErrOf result ExploreError.TooMany → AreTooMany (Y.graph system.now) plan.now stops.now }
    ensures limited { IsErrOf result ExploreError.TooMany → stops.now.at_limit ≡ false }

    // The answer is of a bound within the plan's, the least with which it may end.
    ensures steps { IfOk result (λ s. s.reached.steps ≤ plan.now.steps) }
    ensures ended { IfOk result (λ s. HasEnded (Y.graph system.now) plan.now stops.now s.reached.steps s.reached.ending) }

    ensures count { IfOk result (λ s. Counts (Y.graph system.now) s.reached.steps s.reached.answer.count × (s.reached.answer.count ≤ plan.now.limit)) }
    ensures summary { IfOk result (λ s. s.reached.answer.summary ≡ sum_of (Y.graph system.now) ⟦<Both<Verdicts, Both<Branches<Y::Branch>, Blocked<Y::Standing>>> as Summary<Y>>⟧.joins (⟦<Both<Verdicts, Both<Branches<Y::Branch>, Blocked<Y::Standing>>> as Summary<Y>>⟧.observation system.now) s.reached.steps) }
    ensures complete { IfOk result (λ s. IsTrue s.reached.answer.complete ↔ IsComplete (Y.graph system.now) s.reached.steps) }
    ensures best { IfOk result (λ s. AreBest (Y.graph system.now) Y.Label.cmp s.reached.steps s.reached.answer.best.items) }

    // Where it is complete, summary and count are those of every greater bound.
    ensures every_bound { IfOk result (λ s. IsTrue s.reached.answer.complete → (bound : ℕ) → s.reached.steps ≤ bound
        → (s.reached.answer.summary ≡ sum_of (Y.graph system.now) ⟦<Both<Verdicts, Both<Branches<Y::Branch>, Blocked<Y::Standing>>> as Summary<Y>>⟧.joins (⟦<Both<Verdicts, Both<Branches<Y::Branch>, Blocked<Y::Standing>>> as Summary<Y>>⟧.observation system.now) bound)
        × Counts (Y.graph system.now) bound s.reached.answer.count) }

    // What steps and states show, with the least of the shortest runs that show it.
    ensures events { IfOk result (λ s. AreSighted (Y.graph system.now) Y.Label.cmp s.reached.steps (shown_by_step (Y.graph system.now) (Y.event system.now)) s.events.items) }
    ensures stands { IfOk result (λ s. AreSighted (Y.graph system.now) Y.Label.cmp s.reached.steps (shown_at_end (Y.graph system.now) (Y.stand system.now)) s.stands.items) }
{
    let ordinals = OrdinalSystem { system };
    let sighted = explore_watched::<
        OrdinalSystem<'_, Y>,
        Both<Verdicts, Both<Branches<Y::Branch>, Blocked<Y::Standing>>>,
        G,
        R,
    >(rt, alloc, &ordinals, plan, stops, gate)?;
    let Sighted {
        reached,
        events: told_events,
        stands: told_stands,
    } = sighted;
    let Reached {
        steps,
        answer: told,
        ending,
    } = reached;
    let answer = answer_with_labels(alloc, system, told)?;
    let events = labels_of_sightings(alloc, system, told_events)?;
    let stands = labels_of_sightings(alloc, system, told_stands)?;
    let reached = Reached {
        steps,
        answer,
        ending,
    };
    Ok(Sighted {
        reached,
        events,
        stands,
    })
}
