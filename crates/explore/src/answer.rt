ghost use Rattle.std.specs.Prelude.{◌≡◌, ◌↔◌, ℕ, ◌<◌, ◌≤◌, length, None, false, All, IfOk, IfSome, OnOk, IsTrue, IsErrOf, slice_index_or};
ghost use Rattle.summary.specs.Exploration.{Counts, IsComplete};
ghost use Rattle.summary.specs.Sums.{sum_of};
ghost use Rattle.explore.specs.Best.{AreBest};
ghost use Rattle.explore.specs.Endings.{AreTooMany, HasEnded};
ghost use Rattle.search_layer.specs.Limits.{IsWithinLimits};
ghost use Rattle.explore.specs.Sightings.{AreSighted, shown_at_end, shown_by_step};
ghost use Rattle.explore.specs.internal.Stopped.{IsEnd, IsReason, IsSearched};
ghost use Rattle.explore.specs.internal.Tied.{GoBack, IsKept, IsRunKept};

use crate::ending::{Ending, Stops};
use crate::layers::{Explored, is_marked, search};
use crate::runs::{first_marked, is_quiet, run_to};
use crate::sightings::{Sighting, noted_states, noted_steps, runs_by, runs_to};
use crate::watched::Watched;
use search_layer::{ExploreError, Gate, Lasts, Plan, Sparing, Visited};
use std::alloc::{AllocError, Global};
use std::thread::Threads;
use summary::{Summary, System};

/// What an exploration found.
#[derive(Debug, Drop)]
pub struct Answer<U, L> {
    /// The join of what all runs of at most the plan's steps show.
    pub summary: U,
    /// How many different states these runs end in.
    pub count: u64,
    /// Whether no state that is first reached by the last step has an enabled label. Then no longer run ends in another
    /// state.
    pub complete: bool,
    /// For each of the eight marks the labels of the least of the shortest runs that end with it, if one does.
    pub best: Vec<Option<Vec<L>>>,
}

/// An answer, and the bound that it is of.
#[derive(Debug, Drop)]
pub struct Reached<U, L> {
    /// The answer is of all runs of at most so many steps.
    pub steps: u64,
    pub answer: Answer<U, L>,
    /// Why it is of no longer runs.
    pub ending: Ending,
}

/// Explores every run of at most the plan's steps.
///
/// `BadPlan` is answered before any memory is asked for, `TooMany` where more states than the plan's limit are
/// reached, and `Memory` only where a request for memory was refused or the system or a summary answers it.
pub fn explore<Y: Sparing, U: Summary<Y>, G: Gate, R: Threads + Sync>(
    rt: &R,
    alloc: Global,
    system: &Y,
    plan: &Plan,
    gate: &G,
) -> Result<Answer<U, Y::Label>, ExploreError>
    ensures bad_plan { IsErrOf result ExploreError.BadPlan ↔ ¬ IsWithinLimits plan.now }
    ensures planned { OnOk result (IsWithinLimits plan.now) }

    // More states than the limit are reached.
    ensures too_many { IsErrOf result ExploreError.TooMany
        → (count : ℕ) × Counts (Y.graph system.now) plan.now.steps count × (plan.now.limit < count) }

    ensures count { IfOk result (λ answer. Counts (Y.graph system.now) plan.now.steps answer.count × (answer.count ≤ plan.now.limit)) }
    ensures summary { IfOk result (λ answer. answer.summary ≡ sum_of (Y.graph system.now) U.joins (U.observation system.now) plan.now.steps) }
    ensures complete { IfOk result (λ answer. IsTrue answer.complete ↔ IsComplete (Y.graph system.now) plan.now.steps) }
    ensures best { IfOk result (λ answer. AreBest (Y.graph system.now) Y.Label.cmp plan.now.steps answer.best.items) }

    // Where it is complete, summary and count are those of every greater bound.
    ensures every_bound { IfOk result (λ answer. IsTrue answer.complete → (bound : ℕ) → plan.now.steps ≤ bound
        → (answer.summary ≡ sum_of (Y.graph system.now) U.joins (U.observation system.now) bound) × Counts (Y.graph system.now) bound answer.count) }
{
    let reached = explore_until::<Y, U, G, R>(rt, alloc, system, plan, &Stops::NOWHERE, gate)?;
    Ok(reached.answer)
}

/// Explores every run of at most the plan's steps, or of fewer steps where one of the stops comes first.
///
/// Refusals are those of `explore`, but for `TooMany`: it comes only where the exploration isn't to end at the limit, and
/// where no other stop comes before more states than the limit are reached.
pub fn explore_until<Y: Sparing, U: Summary<Y>, G: Gate, R: Threads + Sync>(
    rt: &R,
    alloc: Global,
    system: &Y,
    plan: &Plan,
    stops: &Stops,
    gate: &G,
) -> Result<Reached<U, Y::Label>, ExploreError>
    ensures bad_plan { IsErrOf result ExploreError.BadPlan ↔ ¬ IsWithinLimits plan.now }
    ensures planned { OnOk result (IsWithinLimits plan.now) }

    // More states than the limit are reached, with each number of steps with which it may end.
    ensures too_many { IsErrOf result ExploreError.TooMany → AreTooMany (Y.graph system.now) plan.now stops.now }
    ensures limited { IsErrOf result ExploreError.TooMany → stops.now.at_limit ≡ false }

    // The answer is of a bound within the plan's, the least with which it may end.
    ensures steps { IfOk result (λ reached. reached.steps ≤ plan.now.steps) }
    ensures ended { IfOk result (λ reached. HasEnded (Y.graph system.now) plan.now stops.now reached.steps reached.ending) }

    ensures count { IfOk result (λ reached. Counts (Y.graph system.now) reached.steps reached.answer.count × (reached.answer.count ≤ plan.now.limit)) }
    ensures summary { IfOk result (λ reached. reached.answer.summary ≡ sum_of (Y.graph system.now) U.joins (U.observation system.now) reached.steps) }
    ensures complete { IfOk result (λ reached. IsTrue reached.answer.complete ↔ IsComplete (Y.graph system.now) reached.steps) }
    ensures best { IfOk result (λ reached. AreBest (Y.graph system.now) Y.Label.cmp reached.steps reached.answer.best.items) }

    // Where it is complete, summary and count are those of every greater bound.
    ensures every_bound { IfOk result (λ reached. IsTrue reached.answer.complete → (bound : ℕ) → reached.steps ≤ bound
        → (reached.answer.summary ≡ sum_of (Y.graph system.now) U.joins (U.observation system.now) bound) × Counts (Y.graph system.now) bound reached.answer.count) }
{
    if !plan.is_within_limits() {
        return Err(ExploreError::BadPlan);
    }
    let explored = search::<Y, U, G, R>(rt, alloc, system, plan, stops, gate)?;
    Ok(answer_of(rt, alloc, system, plan, stops, explored)?)
}

/// An answer, and what runs show, with the least runs that show it.
#[derive(Debug, Drop)]
pub struct Sighted<U, L, E, S> {
    pub reached: Reached<U, L>,
    /// What steps show.
    pub events: Vec<Sighting<E, L>>,
    /// What the states show in which runs end.
    pub stands: Vec<Sighting<S, L>>,
}

/// Explores as `explore_until` does, and finds for all that steps and states show the least of the shortest runs that
/// show it.
pub fn explore_watched<Y: Watched + Sparing, U: Summary<Y>, G: Gate, R: Threads + Sync>(
    rt: &R,
    alloc: Global,
    system: &Y,
    plan: &Plan,
    stops: &Stops,
    gate: &G,
) -> Result<Sighted<U, Y::Label, Y::Event, Y::Stand>, ExploreError>
    ensures bad_plan { IsErrOf result ExploreError.BadPlan ↔ ¬ IsWithinLimits plan.now }
    ensures planned { OnOk result (IsWithinLimits plan.now) }

    // More states than the limit are reached, with each number of steps with which it may end.
    ensures too_many { IsErrOf result ExploreError.TooMany → AreTooMany (Y.graph system.now) plan.now stops.now }
    ensures limited { IsErrOf result ExploreError.TooMany → stops.now.at_limit ≡ false }

    // The answer is of a bound within the plan's, the least with which it may end.
    ensures steps { IfOk result (λ s. s.reached.steps ≤ plan.now.steps) }
    ensures ended { IfOk result (λ s. HasEnded (Y.graph system.now) plan.now stops.now s.reached.steps s.reached.ending) }

    ensures count { IfOk result (λ s. Counts (Y.graph system.now) s.reached.steps s.reached.answer.count × (s.reached.answer.count ≤ plan.now.limit)) }
    ensures summary { IfOk result (λ s. s.reached.answer.summary ≡ sum_of (Y.graph system.now) U.joins (U.observation system.now) s.reached.steps) }
    ensures complete { IfOk result (λ s. IsTrue s.reached.answer.complete ↔ IsComplete (Y.graph system.now) s.reached.steps) }
    ensures best { IfOk result (λ s. AreBest (Y.graph system.now) Y.Label.cmp s.reached.steps s.reached.answer.best.items) }
    ensures every_bound { IfOk result (λ s. IsTrue s.reached.answer.complete → (bound : ℕ) → s.reached.steps ≤ bound
        → (s.reached.answer.summary ≡ sum_of (Y.graph system.now) U.joins (U.observation system.now) bound) × Counts (Y.graph system.now) bound s.reached.answer.count) }

    ensures events { IfOk result (λ s. AreSighted (Y.graph system.now) Y.Label.cmp s.reached.steps (shown_by_step (Y.graph system.now) (Y.event system.now)) s.events.items) }
    ensures stands { IfOk result (λ s. AreSighted (Y.graph system.now) Y.Label.cmp s.reached.steps (shown_at_end (Y.graph system.now) (Y.stand system.now)) s.stands.items) }
{
    if !plan.is_within_limits() {
        return Err(ExploreError::BadPlan);
    }
    let explored = search::<Y, U, G, R>(rt, alloc, system, plan, stops, gate)?;
    let events = sighted_events(alloc, system, &explored)?;
    let stands = sighted_stands(alloc, system, &explored)?;
    let reached = answer_of(rt, alloc, system, plan, stops, explored)?;
    Ok(Sighted {
        reached,
        events,
        stands,
    })
}

/// What the steps show that a search found, with the least runs that show it.
fn sighted_events<Y: Watched, U: Summary<Y>>(
    alloc: Global,
    system: &Y,
    explored: &Explored<Y::State, Y::Label, U>,
) -> Result<Vec<Sighting<Y::Event, Y::Label>>, AllocError>
    requires { IsSearched (Y.graph system.now) U.joins (U.observation system.now) Y.State.eq (Y.fits system.now) explored.now }
    ensures { IfOk result (λ sightings. AreSighted (Y.graph system.now) Y.Label.cmp explored.now.steps (shown_by_step (Y.graph system.now) (Y.event system.now)) sightings.items) }
{
    let visited = &explored.visited;
    let noted = noted_steps(alloc, system, &visited.states, explored.from)?;
    runs_by(alloc, system, &visited.steps, noted)
}

/// What the states show that a search found, with the least runs that end in them.
fn sighted_stands<Y: Watched, U: Summary<Y>>(
    alloc: Global,
    system: &Y,
    explored: &Explored<Y::State, Y::Label, U>,
) -> Result<Vec<Sighting<Y::Stand, Y::Label>>, AllocError>
    requires { IsSearched (Y.graph system.now) U.joins (U.observation system.now) Y.State.eq (Y.fits system.now) explored.now }
    ensures { IfOk result (λ sightings. AreSighted (Y.graph system.now) Y.Label.cmp explored.now.steps (shown_at_end (Y.graph system.now) (Y.stand system.now)) sightings.items) }
{
    let visited = &explored.visited;
    let noted = noted_states(alloc, system, &visited.states)?;
    runs_to(alloc, system, &visited.steps, noted)
}

/// What a search answers.
fn answer_of<Y: System, U: Summary<Y>, R: Threads + Sync>(
    rt: &R,
    alloc: Global,
    system: &Y,
    plan: &Plan,
    stops: &Stops,
    explored: Explored<Y::State, Y::Label, U>,
) -> Result<Reached<U, Y::Label>, AllocError>
    requires { IsEnd (Y.graph system.now) U.joins (U.observation system.now) Y.State.eq (Y.fits system.now) plan.now stops.now explored }
    ensures steps { IfOk result (λ reached. reached.steps ≡ explored.steps) }
    ensures within { IfOk result (λ reached. reached.steps ≤ plan.now.steps) }
    ensures ended { IfOk result (λ reached. HasEnded (Y.graph system.now) plan.now stops.now reached.steps reached.ending) }
    ensures count { IfOk result (λ reached. Counts (Y.graph system.now) reached.steps reached.answer.count × (reached.answer.count ≤ plan.now.limit)) }
    ensures summary { IfOk result (λ reached. reached.answer.summary ≡ sum_of (Y.graph system.now) U.joins (U.observation system.now) reached.steps) }
    ensures complete { IfOk result (λ reached. IsTrue reached.answer.complete ↔ IsComplete (Y.graph system.now) reached.steps) }
    ensures best { IfOk result (λ reached. AreBest (Y.graph system.now) Y.Label.cmp reached.steps reached.answer.best.items) }
    ensures every_bound { IfOk result (λ reached. IsTrue reached.answer.complete → (bound : ℕ) → reached.steps ≤ bound
        → (reached.answer.summary ≡ sum_of (Y.graph system.now) U.joins (U.observation system.now) bound) × Counts (Y.graph system.now) bound reached.answer.count) }
{
    let states = &explored.visited.states;
    let complete = is_quiet(alloc, system, states, explored.from)?;
    let ending = reason(system, stops, &explored, complete);
    let best = best_runs(alloc, system, &explored.visited)?;
    let count = states.len() as u64;
    explored.visited.drop_all(rt);
    Ok(Reached {
        steps: explored.steps,
        answer: Answer {
            summary: explored.summary,
            count,
            complete,
            best,
        },
        ending,
    })
}

/// Why a search went no further: of several reasons the one that is told. Whether its last layer is quiet is given.
fn reason<Y: System, U>(
    system: &Y,
    stops: &Stops,
    explored: &Explored<Y::State, Y::Label, U>,
    quiet: bool,
) -> Ending
    requires { All (Y.fits system.now) explored.now.visited.states.keys }
    ensures { IsReason (Y.graph system.now) stops.now explored.now quiet result }
{
    let states = &explored.visited.states;
    if is_marked(system, states, explored.from, stops.at_mark) {
        return Ending::Mark;
    }
    if stops.when_complete && quiet {
        return Ending::Complete;
    }
    explored.ending
}

/// What is answered for each of the eight marks.
fn best_runs<Y: System>(
    alloc: Global,
    system: &Y,
    visited: &Visited<Y::State, Y::Label>,
) -> Result<Vec<Option<Vec<Y::Label>>>, AllocError>
    requires fits { All (Y.fits system.now) visited.now.states.keys }
    requires as_many { length visited.now.steps ≡ length visited.now.states.keys }
    requires back { GoBack visited.now.steps }
    ensures eight { IfOk result (λ best. length best.items ≡ 8) }
    ensures each { IfOk result (λ best. (mark : ℕ) → mark < 8
        → IsKept (Y.graph system.now) visited.now.states.keys visited.now.steps mark (slice_index_or best.items mark None)) }
{
    let places = first_marked(system, &visited.states);
    let mut best = Vec::new(alloc);
    for place in &places {
        best.push(run_kept(alloc, system, &visited.steps, *place)?)?;
    }
    Ok(best)
}

/// The labels of the run that is kept at a place, where there is one.
fn run_kept<Y: System>(
    alloc: Global,
    system: &Y,
    steps: &Lasts<Y::Label>,
    place: Option<usize>,
) -> Result<Option<Vec<Y::Label>>, AllocError>
    requires place { IfSome place (λ place. place < length steps.now) }
    requires back { GoBack steps.now }
    ensures { IfOk result (IsRunKept steps.now place) }
{
    match place {
        None => Ok(None),
        Some(place) => Ok(Some(run_to(alloc, system, steps, place)?)),
    }
}
