//! The candidates of a layer, by as many threads as rayon starts. States that are late may be left out.
ghost use Rattle.std.specs.Prelude.{◌≡◌, ◌+◌, ◌-◌, ◌<◌, ◌≤◌, ◌++◌, ◌∷◌, [], length, drop, All, IfOk, OnOk, flat_map};
ghost use Rattle.search_layer.specs.internal.Search.{layer_candidates};
ghost use Rattle.explore.specs.internal.Expansion.{all_given, candidates_with, candidates_in, AreKept, AreThinOf, IsExpanded};

use rayon::prelude::*;
use search_layer::{Candidate, Lasts, Sparing};
use search_shards::{ShardedSet, number_of};
use std::alloc::{AllocError, Global};
use std::thread::Threads;

/// The fewest states that a thread of their own expands: a step of a test case takes longer than most items of a list do.
const FEWEST: usize = 32;

/// The state at a place, by the labels that lead on from it and what is given of the states that they lead to.
#[derive(Drop)]
pub struct Expanded<S, L> {
    pub place: u32,
    pub successors: Vec<(L, S)>,
}

/// The candidates of states that follow one another, in the order of the states.
#[derive(Drop)]
pub struct Candidates<S, L> {
    pub list: Vec<Candidate<S, L>>,
}

impl<S: Send + Drop, L: Send + Drop> FromParallelIterator<Expanded<S, L>> for Candidates<S, L> {
    type Alloc = Global;

    ghost from_par_iter_gives = { λ states made. made.list.items ≡ candidates_in states };

    fn empty_in(alloc: &Global) -> Result<Candidates<S, L>, AllocError> {
        Ok(Candidates {
            list: Vec::new(*alloc),
        })
    }

    fn with_item(mut self, state: Expanded<S, L>) -> Result<Candidates<S, L>, AllocError> {
        add_candidates(&mut self.list, state.place, state.successors)?;
        Ok(self)
    }

    fn joined_with(mut self, mut other: Candidates<S, L>) -> Result<Candidates<S, L>, AllocError> {
        self.list.append(&mut other.list)?;
        Ok(self)
    }
}

/// Adds a candidate for each successor of the state at a place.
fn add_candidates<S: Drop, L: Drop>(
    candidates: &mut Vec<Candidate<S, L>>,
    place: u32,
    successors: Vec<(L, S)>,
) -> Result<(), AllocError>
    ensures { OnOk result (candidates.new.items ≡ candidates.old.items ++ candidates_with place successors.items) }
{
    for (label, state) in successors {
        candidates.push(Candidate {
            before: place,
            label,
            state,
        })?;
    }
    Ok(())
}

/// Successors, each with its state.
fn all_given<S: Drop, L: Drop>(
    alloc: Global,
    successors: Vec<(L, S)>,
) -> Result<Vec<(L, Option<S>)>, AllocError>
    ensures { IfOk result (λ given. given.items ≡ all_given successors.items) }
{
    let mut given = Vec::with_capacity(alloc, successors.len())?;
    for (label, state) in successors {
        given.push((label, Some(state)))?;
    }
    Ok(given)
}

/// The candidates of the layer that begins at place `from`, in the order that one thread makes. A state may be left out where it
/// is late behind the last step before it.
pub fn expand_layer<Y: Sparing, R: Threads + Sync>(
    rt: &R,
    alloc: Global,
    system: &Y,
    states: &ShardedSet<Y::State>,
    steps: &Lasts<Y::Label>,
    from: usize,
) -> Result<Vec<Candidate<Option<Y::State>, Y::Label>>, AllocError>
    requires fits { All (Y.fits system.now) states.now.keys }
    requires kept { AreKept (Y.graph system.now) states.now.keys steps.now }
    requires from { from ≤ length states.now.keys }
    ensures { IfOk result (λ candidates. AreThinOf (Y.graph system.now) states.now.keys steps.now Y.Label.cmp (layer_candidates (Y.graph system.now) from (drop from states.now.keys)) candidates.items) }
{
    let candidates = (from..states.len())
        .into_par_iter()
        .with_min_len(FEWEST)
        .map(
            |place: usize| -> Result<Expanded<Option<Y::State>, Y::Label>, AllocError>
                requires { (place < length states.now.keys) × All (Y.fits system.now) states.now.keys × AreKept (Y.graph system.now) states.now.keys steps.now }
                ensures { IfOk result (λ e. IsExpanded (Y.graph system.entry.now) states.entry.now.keys steps.entry.now Y.Label.cmp place e.place e.successors.items) }
            {
                let number = number_of(place)?;
                let state = &states[place];
                let successors = match steps.at(place) {
                    Some(step) => {
                        let before = &states[step.before as usize];
                        system.sparing_successors(alloc, state, before, &step.label)?
                    }
                    None => all_given(alloc, system.successors(alloc, state)?)?,
                };
                Ok(Expanded {
                    place: number,
                    successors,
                })
            },
        )
        .collect::<Result<Candidates<Option<Y::State>, Y::Label>, AllocError>>(rt, alloc)??;
    let Candidates { list } = candidates;
    Ok(list)
}
