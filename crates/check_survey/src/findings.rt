//! What is found among things: a circle, or the first that begins too long a chain and the first that is too heavy.
ghost use Rattle.std.specs.Prelude.{ℕ, ◌<◌, ◌≤◌, All, IfOk, MatchOption};
ghost use Rattle.check_survey.specs.Graphs.{AllChainsWithin, AllWeigh, AllWeighWithin, AreComplete, BeginsLongerChain, IfCircle, IfSizes, IsFirst, IsOnCircle, WeighsMore};
ghost use Rattle.check_survey.specs.internal.Search.{size_of, state_of};

use crate::search::{Search, State};
use crate::thing::Thing;
use std::alloc::{AllocError, Global};

/// What a survey finds.
#[derive(Clone, Copy, Debug, PartialEq, Eq)]
pub enum Findings {
    /// A thing that leads back to itself.
    Circle(usize),
    /// No thing does. The first that begins too long a chain, and the first that is too heavy.
    Sizes {
        too_long: Option<usize>,
        too_heavy: Option<usize>,
    },
}

/// Looks for a circle among the things, for chains of more than `longest` things, and for things that are written out
/// with more than `heaviest` parts. The time that it takes is linear in the number of things and references.
pub fn survey(
    alloc: Global,
    things: &[Thing],
    longest: u32,
    heaviest: u32,
) -> Result<Findings, AllocError>
    requires { AreComplete things.now }
    ensures circle { IfOk result (λ found. IfCircle found (IsOnCircle things.now)) }
    ensures no_circle { IfOk result (λ found. IfSizes found (λ _ _. (i : ℕ) → IsOnCircle things.now i → ⊥)) }
    ensures too_long { IfOk result (λ found. IfSizes found (λ too_long _. MatchOption too_long
        (AllChainsWithin things.now longest) (IsFirst (BeginsLongerChain things.now longest)))) }
    ensures weigh { IfOk result (λ found. IfSizes found (λ _ _. AllWeigh things.now)) }
    ensures too_heavy { IfOk result (λ found. IfSizes found (λ _ too_heavy. MatchOption too_heavy
        (AllWeighWithin things.now heaviest) (IsFirst (WeighsMore things.now heaviest)))) }
{
    let mut search = Search::new(alloc, things.len())?;
    for start in 0..things.len() {
        if let Some(thing) = search.visit(things, start)? {
            return Ok(Findings::Circle(thing));
        }
    }
    Ok(Findings::Sizes {
        too_long: first_longer(&search.states, longest),
        too_heavy: first_heavier(&search.states, heaviest),
    })
}

/// The first thing that begins a chain with more members.
fn first_longer(states: &[State], longest: u32) -> Option<usize>
    ensures { MatchOption result (All (λ state. (size_of state).chain ≤ longest) states.now)
        (IsFirst (λ i. longest < (size_of (state_of states.now i)).chain)) }
{
    for (thing, state) in states.iter().enumerate() {
        if state.size().chain > u64::from(longest) {
            return Some(thing);
        }
    }
    None
}

/// The first thing that weighs more.
fn first_heavier(states: &[State], heaviest: u32) -> Option<usize>
    ensures { MatchOption result (All (λ state. (size_of state).weight ≤ heaviest) states.now)
        (IsFirst (λ i. heaviest < (size_of (state_of states.now i)).weight)) }
{
    for (thing, state) in states.iter().enumerate() {
        if state.size().weight > u64::from(heaviest) {
            return Some(thing);
        }
    }
    None
}
