//! The first new candidates enter the visited states.
ghost use Rattle.std.specs.Prelude.{◌≡◌, ◌≢◌, ◌<◌, ◌≤◌, ◌++◌, List, length, map, All, IfOk, OnOk, IsErrOf};
ghost use Rattle.search_layer.specs.Limits.{IsWithinLimits};
ghost use Rattle.search_layer.specs.internal.Shards.{AreShards, IsShardAt};
ghost use Rattle.search_layer.specs.internal.Search.{newly, state_of, step_of};
ghost use Rattle.search_layer.specs.internal.Thinned.{AreThinned};
ghost use Rattle.search_layer.specs.internal.Work.{AreFirst};

use crate::plan::{ExploreError, Plan};
use crate::visited::{Candidate, Visited};
use rayon::prelude::*;
use search_shards::ShardedSet;
use std::alloc::{AllocError, Global};
use std::hash::Hash;
use std::thread::Threads;

/// The shards that the states of the candidates at these positions belong to.
pub fn shards_of<S: Eq + Hash + Send + Sync, L: Send + Sync, R: Threads + Sync>(
    rt: &R,
    alloc: Global,
    states: &ShardedSet<S>,
    candidates: &[Candidate<Option<S>, L>],
    firsts: &[u64],
) -> Result<Vec<usize>, AllocError>
    requires { All (λ at. at < length candidates.now) firsts.now }
    ensures { IfOk result (λ shards. AreShards S.hash_input states.now.shards candidates.now firsts.now shards.items) }
{
    firsts
        .par_iter()
        .map(
            |at: &u64| -> usize
                requires { at.now < length candidates.now }
                ensures { IsShardAt S.hash_input states.entry.now.shards candidates.entry.now at.now result }
            { candidates[*at as usize].shard_in(states) },
        )
        .collect(rt, alloc)
}

/// Adds the states of the candidates at these positions, in order, and their last steps. The other candidates are
/// dropped.
pub fn enter_first<S: Eq + Hash + Send + Drop, L: Send + Drop>(
    visited: &mut Visited<S, L>,
    candidates: Vec<Candidate<Option<S>, L>>,
    firsts: &[u64],
    shards: &[usize],
) -> Result<(), AllocError>
    requires first { (all : List (Candidate S L)) × AreThinned S.eq visited.old.states.keys all candidates.items × AreFirst S.eq visited.old.states.keys all firsts.now }
    requires shards { AreShards S.hash_input visited.old.states.shards candidates.items firsts.now shards.now }
    ensures states { OnOk result ((all : List (Candidate S L)) → AreThinned S.eq visited.old.states.keys all candidates.items → AreFirst S.eq visited.old.states.keys all firsts.now
        → visited.new.states.keys ≡ visited.old.states.keys ++ map state_of (newly S.eq visited.old.states.keys all)) }
    ensures steps { OnOk result ((all : List (Candidate S L)) → AreThinned S.eq visited.old.states.keys all candidates.items → AreFirst S.eq visited.old.states.keys all firsts.now
        → visited.new.steps ≡ visited.old.steps ++ map step_of (newly S.eq visited.old.states.keys all)) }
{
    let mut next = 0;
    let mut at: u64 = 0;
    for candidate in candidates {
        if next < firsts.len() && firsts[next] == at {
            visited.add(shards[next], candidate.with_state())?;
            next += 1;
        } else {
            drop(candidate);
        }
        at = at.wrapping_add(1);
    }
    Ok(())
}

/// The visited states with those of the candidates at these positions, in order, and their last steps. The other candidates
/// are dropped.
pub fn enter_layer<S: Eq + Hash + Send + Sync + Drop, L: Send + Sync + Drop, R: Threads + Sync>(
    rt: &R,
    alloc: Global,
    plan: &Plan,
    visited: Visited<S, L>,
    candidates: Vec<Candidate<Option<S>, L>>,
    firsts: &[u64],
) -> Result<Visited<S, L>, ExploreError>
    requires plan { IsWithinLimits plan.now }
    requires first { (all : List (Candidate S L)) × AreThinned S.eq visited.states.keys all candidates.items × AreFirst S.eq visited.states.keys all firsts.now }
    ensures states { IfOk result (λ entered. (all : List (Candidate S L)) → AreThinned S.eq visited.states.keys all candidates.items → AreFirst S.eq visited.states.keys all firsts.now
        → entered.states.keys ≡ visited.states.keys ++ map state_of (newly S.eq visited.states.keys all)) }
    ensures steps { IfOk result (λ entered. (all : List (Candidate S L)) → AreThinned S.eq visited.states.keys all candidates.items → AreFirst S.eq visited.states.keys all firsts.now
        → entered.steps ≡ visited.steps ++ map step_of (newly S.eq visited.states.keys all)) }
    ensures within { IfOk result (λ entered. length entered.states.keys ≤ plan.now.limit) }
    ensures too_many { IsErrOf result ExploreError.TooMany → (all : List (Candidate S L)) → AreThinned S.eq visited.states.keys all candidates.items → AreFirst S.eq visited.states.keys all firsts.now
        → plan.now.limit < length (visited.states.keys ++ map state_of (newly S.eq visited.states.keys all)) }
    ensures planned { result ≢ Err ExploreError.BadPlan }
{
    let shards = shards_of(rt, alloc, &visited.states, candidates.as_slice(), firsts)?;
    let mut visited = visited;
    enter_first(&mut visited, candidates, firsts, shards.as_slice())?;
    let Visited { states, steps } = visited;
    if states.len() as u64 > plan.limit {
        return Err(ExploreError::TooMany);
    }
    let states = states.settle(rt)?;
    Ok(Visited { states, steps })
}
