ghost use Rattle.std.specs.Prelude.{◌≡◌, ◌≢◌, ◌↔◌, ◌+◌, ◌^◌, ◌<◌, ◌≤◌, ℕ, List, [], ◌∷◌, ◌++◌, suc, length, drop, None, Some, false, All, IfOk, OnOk, IsErrOf, IsTrue};
ghost use Rattle.search_layer.specs.Limits.{IsWithinLimits};
ghost use Rattle.search_layer.specs.internal.Search.{with_steps, place_all, as_found};
ghost use Rattle.explore.specs.internal.Expansion.{AreAll};
ghost use Rattle.explore.specs.internal.Stopped.{HasNoRoom, IsEnd, IsMarked, IsUnmarked, finished_by};

use crate::ending::{Ending, Stops};
use crate::expand::expand_layer;
use search_layer::{
    Candidate, ExploreError, Firsts, Gate, Lasts, Plan, Sparing, Visited, enter_layer, find_first,
    show_states,
};
use search_shards::ShardedSet;
use std::alloc::{AllocError, Global};
use std::hash::Hash;
use std::thread::Threads;
use summary::{Summary, System};

/// What a search found: the states, the place where the last layer begins, the summary, how many layers there were, and why
/// there were no more.
#[derive(Drop)]
pub struct Explored<S: Eq + Hash, L, U> {
    pub visited: Visited<S, L>,
    pub from: usize,
    pub summary: U,
    pub steps: u64,
    pub ending: Ending,
}

/// Keeps a layer's new states in order, and joins what all steps and the new states show. Of all its candidates some have no
/// state, where it is known without them.
fn place_layer<Y: System, U: Summary<Y>, R: Threads + Sync>(
    rt: &R,
    alloc: Global,
    system: &Y,
    plan: &Plan,
    explored: Explored<Y::State, Y::Label, U>,
    candidates: Vec<Candidate<Option<Y::State>, Y::Label>>,
    firsts: Firsts<U>,
) -> Result<Explored<Y::State, Y::Label, U>, ExploreError>
    requires plan { IsWithinLimits plan.now }
    requires steps { explored.steps < plan.now.steps }
    requires room { length explored.visited.states.keys + length firsts.positions.items ≤ plan.now.limit }
    requires states { All (Y.fits system.now) explored.visited.states.keys }
    requires candidates { (all : List (Candidate Y.State Y.Label)) × AreAll (Y.graph system.now) U.joins (U.observation system.now) Y.State.eq (Y.fits system.now)
        explored.visited.states.keys candidates.items firsts.positions.items firsts.shown all }
    ensures placed { IfOk result (λ e. (all : List (Candidate Y.State Y.Label)) → AreAll (Y.graph system.now) U.joins (U.observation system.now) Y.State.eq (Y.fits system.now)
        explored.visited.states.keys candidates.items firsts.positions.items firsts.shown all → (from : ℕ) → as_found e.visited.states.keys e.visited.steps from e.summary
        ≡ place_all U.joins (U.observation system.now) Y.State.eq (as_found explored.visited.states.keys explored.visited.steps from
        (with_steps U.joins (U.observation system.now) (Y.graph system.now) explored.visited.states.keys explored.summary all)) all) }
    ensures from { IfOk result (λ e. e.from ≡ length explored.visited.states.keys) }
    ensures steps { IfOk result (λ e. e.steps ≡ explored.steps + 1) }
    ensures ending { IfOk result (λ e. e.ending ≡ explored.ending) }
    ensures within { IfOk result (λ e. length e.visited.states.keys ≤ plan.now.limit) }
    ensures room { result ≢ Err ExploreError.TooMany }
    ensures planned { result ≢ Err ExploreError.BadPlan }
{
    let Explored {
        visited,
        from: _from,
        summary,
        steps,
        ending,
    } = explored;
    let Firsts { positions, shown } = firsts;
    let summary = summary.join(alloc, shown)?;
    let from = visited.states.len();
    let visited = enter_layer(rt, alloc, plan, visited, candidates, positions.as_slice())?;
    let shown = show_states::<Y, U, R>(rt, alloc, system, plan.workers, &visited.states, from)?;
    let summary = summary.join(alloc, shown)?;
    Ok(Explored {
        visited,
        from,
        summary,
        steps: steps + 1,
        ending,
    })
}

/// Whether there are no candidates.
fn are_none<S, L>(candidates: &Vec<Candidate<S, L>>) -> bool
    ensures { IsTrue result ↔ (candidates.now.items ≡ []) }
{
    candidates.is_empty()
}

/// Whether so many new states are more than the plan's limit has room for.
fn are_too_many(plan: &Plan, states: usize, new: usize) -> bool
    requires { states ≤ plan.now.limit }
    ensures { IsTrue result ↔ (plan.now.limit < states + new) }
{
    plan.limit - (states as u64) < new as u64
}

/// Whether a state has a mark.
fn has_mark<Y: System>(system: &Y, state: &Y::State, mark: u8) -> bool
    requires { Y.fits system.now state.now }
    ensures { IsTrue result ↔ ((Y.graph system.now).mark state.now ≡ Some mark) }
{
    system.mark(state) == Some(mark)
}

/// Whether one of the states from a place on has the mark.
pub fn is_marked<Y: System>(
    system: &Y,
    states: &ShardedSet<Y::State>,
    from: usize,
    mark: Option<u8>,
) -> bool
    requires { All (Y.fits system.now) states.now.keys }
    ensures some { IsTrue result → IsMarked (Y.graph system.now) states.now.keys mark }
    ensures none { result ≡ false → IsUnmarked (Y.graph system.now) (drop from states.now.keys) mark }
{
    let Some(mark) = mark else {
        return false;
    };
    for place in from..states.len() {
        if has_mark(system, &states[place], mark) {
            return true;
        }
    }
    false
}

/// What a search found that ended here.
fn ended<S: Eq + Hash, L, U>(explored: Explored<S, L, U>, why: Ending) -> Explored<S, L, U>
    ensures { result ≡ record explored { ending = why } }
{
    let Explored {
        visited,
        from,
        summary,
        steps,
        ending: _ending,
    } = explored;
    Explored {
        visited,
        from,
        summary,
        steps,
        ending: why,
    }
}

/// What a search found whose last states have no labels: further layers are empty.
fn finished<S: Eq + Hash + Drop, L: Drop, U: Drop>(
    explored: Explored<S, L, U>,
    plan: &Plan,
    stops: &Stops,
) -> Explored<S, L, U>
    ensures { result ≡ finished_by plan.now stops.now explored }
{
    if stops.when_complete {
        return ended(explored, Ending::Complete);
    }
    let Explored {
        visited,
        from: _from,
        summary,
        steps: _steps,
        ending,
    } = explored;
    let behind = visited.states.len();
    Explored {
        visited,
        from: behind,
        summary,
        steps: plan.steps,
        ending,
    }
}

/// Searches layer by layer, up to the plan's steps or to a stop.
pub fn search<Y: Sparing, U: Summary<Y>, G: Gate, R: Threads + Sync>(
    rt: &R,
    alloc: Global,
    system: &Y,
    plan: &Plan,
    stops: &Stops,
    gate: &G,
) -> Result<Explored<Y::State, Y::Label, U>, ExploreError>
    requires plan { IsWithinLimits plan.now }
    ensures end { IfOk result (IsEnd (Y.graph system.now) U.joins (U.observation system.now) Y.State.eq (Y.fits system.now) plan.now stops.now) }
    ensures too_many { IsErrOf result ExploreError.TooMany → HasNoRoom (Y.graph system.now) U.joins (U.observation system.now) Y.State.eq plan.now stops.now }
    ensures limited { IsErrOf result ExploreError.TooMany → stops.now.at_limit ≡ false }
    ensures planned { result ≢ Err ExploreError.BadPlan }
{
    let mut explored = begin_search::<Y, U>(alloc, system, plan.workers)?;
    for layer in 0..plan.steps {
        if is_marked(
            system,
            &explored.visited.states,
            explored.from,
            stops.at_mark,
        ) {
            return Ok(ended(explored, Ending::Mark));
        }
        let states = &explored.visited.states;
        let steps = &explored.visited.steps;
        let candidates = expand_layer(rt, alloc, system, states, steps, explored.from)?;
        if are_none(&candidates) {
            return Ok(finished(explored, plan, stops));
        }
        let states = &explored.visited.states;
        let firsts = find_first::<Y, U, G, R>(
            rt,
            alloc,
            system,
            plan,
            gate,
            layer,
            states,
            candidates.as_slice(),
        )?;
        if are_too_many(plan, states.len(), firsts.positions.len()) {
            return if stops.at_limit {
                Ok(ended(explored, Ending::Limit))
            } else {
                Err(ExploreError::TooMany)
            };
        }
        explored = place_layer::<Y, U, R>(rt, alloc, system, plan, explored, candidates, firsts)?;
    }
    Ok(explored)
}

/// The first state alone, in as many shards as there are workers, and what it shows.
fn begin_search<Y: System, U: Summary<Y>>(
    alloc: Global,
    system: &Y,
    workers: u64,
) -> Result<Explored<Y::State, Y::Label, U>, AllocError>
    requires { 0 < workers }
    ensures states { IfOk result (λ s. s.visited.states.keys ≡ (Y.graph system.now).first ∷ []) }
    ensures lasts { IfOk result (λ s. s.visited.steps ≡ None ∷ []) }
    ensures from { IfOk result (λ s. s.from ≡ 0) }
    ensures summary { IfOk result (λ s. s.summary ≡ (U.observation system.now).at (Y.graph system.now).first) }
    ensures steps { IfOk result (λ s. s.steps ≡ 0) }
    ensures ending { IfOk result (λ s. s.ending ≡ Ending.Steps) }
{
    let first = system.start(alloc)?;
    let summary = U::at(alloc, system, &first)?;
    let mut states = ShardedSet::new(alloc, workers as usize)?;
    let shard = states.shard_of(&first);
    states.push(shard, first)?;
    Ok(Explored {
        visited: Visited {
            states,
            steps: Lasts::new(alloc),
        },
        from: 0,
        summary,
        steps: 0,
        ending: Ending::Steps,
    })
}
