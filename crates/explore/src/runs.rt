ghost use Rattle.std.specs.Prelude.{◌≡◌, ◌↔◌, ◌<◌, ◌≤◌, [], List, length, drop, All, IfOk, IfSome, IsTrue};
ghost use Rattle.summary.specs.Run.{Run, labels_of};
ghost use Rattle.explore.specs.internal.Tied.{GoBack, AreLastSteps, run_at, AreFirstMarked};

use search_layer::Lasts;
use search_shards::ShardedSet;
use std::alloc::{AllocError, Global};
use summary::System;

/// Whether a state has no enabled label.
fn is_stuck<Y: System>(alloc: Global, system: &Y, state: &Y::State) -> Result<bool, AllocError>
    requires { Y.fits system.now state.now }
    ensures { IfOk result (λ stuck. IsTrue stuck ↔ ((Y.graph system.now).enabled state.now ≡ [])) }
{
    Ok(system.labels(alloc, state)?.is_empty())
}

/// Whether no state from a place on has an enabled label.
pub fn is_quiet<Y: System>(
    alloc: Global,
    system: &Y,
    states: &ShardedSet<Y::State>,
    from: usize,
) -> Result<bool, AllocError>
    requires fits { All (Y.fits system.now) states.now.keys }
    requires from { from ≤ length states.now.keys }
    ensures { IfOk result (λ quiet. IsTrue quiet ↔ All (λ state. (Y.graph system.now).enabled state ≡ []) (drop from states.now.keys)) }
{
    for place in from..states.len() {
        if !is_stuck(alloc, system, &states[place])? {
            return Ok(false);
        }
    }
    Ok(true)
}

/// The mark of a state, a number below 8.
fn mark_of<Y: System>(system: &Y, state: &Y::State) -> Option<u8>
    requires { Y.fits system.now state.now }
    ensures is { result ≡ (Y.graph system.now).mark state.now }
    ensures below { IfSome result (λ mark. mark < 8) }
{
    system.mark(state)
}

/// For each of the eight marks the place of the first state with it, if a state has it.
pub fn first_marked<Y: System>(system: &Y, states: &ShardedSet<Y::State>) -> [Option<usize>; 8]
    requires { All (Y.fits system.now) states.now.keys }
    ensures { AreFirstMarked (Y.graph system.now) states.now.keys result }
{
    let mut places = [None; 8];
    for place in 0..states.len() {
        if let Some(mark) = mark_of(system, &states[place]) {
            let mark = usize::from(mark);
            if places[mark].is_none() {
                places[mark] = Some(place);
            }
        }
    }
    places
}

/// The labels of the run that is kept at a place, the first step's first.
pub fn run_to<Y: System>(
    alloc: Global,
    system: &Y,
    steps: &Lasts<Y::Label>,
    place: usize,
) -> Result<Vec<Y::Label>, AllocError>
    requires place { place < length steps.now }
    requires back { GoBack steps.now }
    ensures { IfOk result (λ labels. (runs : List (Run Y.Label)) → AreLastSteps runs steps.now → labels.items ≡ labels_of (run_at runs place)) }
{
    let mut labels = Vec::new(alloc);
    let mut at = place;
    while let Some(step) = steps.at(at) {
        labels.push(system.copy(alloc, &step.label)?)?;
        at = step.before as usize;
    }
    labels.reverse();
    Ok(labels)
}
