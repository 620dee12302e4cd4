ghost use Rattle.std.specs.Prelude.{◌≡◌, ◌∷◌, [], ◌++◌, None, Some, false, IfOk, IsSome, OnOk};
ghost use Rattle.std.specs.List.{list_any};
ghost use Rattle.search_shards.specs.Sharded.{shard_of};

use crate::lasts::Lasts;
use search_shards::ShardedSet;
use std::alloc::AllocError;
use std::hash::{Hash, Hasher};
use std::thread::Threads;

/// The last step of a run: the place of the state before it, and its label.
#[derive(Debug, Drop)]
pub struct Step<L> {
    pub before: u32,
    pub label: L,
}

/// A state that a step leads to, which may have been found before. Where the type of its state is an `Option`, the state may be
/// left out: it is found without this candidate.
#[derive(Debug, Drop)]
pub struct Candidate<S, L> {
    pub before: u32,
    pub label: L,
    pub state: S,
}

// Candidates are equal where their states are.

impl<S: PartialEq, L> PartialEq for Candidate<S, L> {
    ghost eq = { λ a b. S.eq a.state b.state };

    ghost laws = { record { symm = λ a b. S.PartialEq.laws.symm a.state b.state; trans = λ a b c. S.PartialEq.laws.trans a.state b.state c.state } };

    fn eq(&self, other: &Candidate<S, L>) -> bool {
        self.state == other.state
    }
}

impl<S: Eq, L> Eq for Candidate<S, L> {
    ghost laws = { record { refl = λ a. S.Eq.laws.refl a.state; symm = λ a b. S.Eq.laws.symm a.state b.state; congr = λ a b c. S.Eq.laws.congr a.state b.state c.state } };
}

impl<S: Eq + Hash, L> Hash for Candidate<S, L> {
    ghost hash_input = { λ c. S.hash_input c.state };

    ghost respects_eq = { λ a b. S.respects_eq a.state b.state };

    fn hash<H: Hasher>(&self, state: &mut H) {
        self.state.hash(state);
    }
}

impl<S: Eq + Hash, L> Candidate<Option<S>, L> {
    /// The shard that its state belongs to, if it has one.
    pub(crate) fn shard_in(&self, states: &ShardedSet<S>) -> usize
        ensures { (s : S) → self.now.state ≡ Some s → result ≡ shard_of S.hash_input states.now.shards s }
    {
        match &self.state {
            Some(state) => states.shard_of(state),
            None => 0,
        }
    }
}

impl<S, L> Candidate<Option<S>, L> {
    /// The candidate, whose state is there.
    pub(crate) fn with_state(self) -> Candidate<S, L>
        requires { IsSome self.state }
        ensures { self ≡ record { before = result.before; label = result.label; state = Some result.state } }
    {
        let Candidate {
            before,
            label,
            state,
        } = self;
        let Some(state) = state else { unreachable!() };
        Candidate {
            before,
            label,
            state,
        }
    }
}

/// The states that were found, in the order of their least runs, and the last step of each of these runs.
#[derive(Drop)]
pub struct Visited<S: Eq + Hash, L> {
    pub states: ShardedSet<S>,
    pub steps: Lasts<L>,
}

impl<S: Eq + Hash + Send + Drop, L: Send + Drop> Visited<S, L> {
    /// Adds the state of a candidate, which belongs to this shard and was not found before, and its last step.
    pub fn add(&mut self, shard: usize, candidate: Candidate<S, L>) -> Result<(), AllocError>
        requires shard { shard ≡ shard_of S.hash_input self.old.states.shards candidate.state }
        requires new { list_any (S.eq candidate.state) self.old.states.keys ≡ false }
        ensures states { OnOk result (self.new.states.keys ≡ self.old.states.keys ++ candidate.state ∷ []) }
        ensures steps { OnOk result (self.new.steps ≡ self.old.steps ++ Some (record { before = candidate.before; label = candidate.label }) ∷ []) }
        ensures shards { self.new.states.shards ≡ self.old.states.shards }
    {
        let Candidate {
            before,
            label,
            state,
        } = candidate;
        self.states.push(shard, state)?;
        self.steps.push(Step { before, label })?;
        Ok(())
    }

    /// Drops the steps, and the states on a thread for each shard.
    pub fn drop_all<R: Threads + Sync>(self, rt: &R) {
        let Visited {
            states,
            steps: _steps,
        } = self;
        states.drop_all(rt);
    }
}
