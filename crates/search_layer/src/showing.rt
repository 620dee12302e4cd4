//! What new states show.
ghost use Rattle.std.specs.Prelude.{◌≡◌, ℕ, ◌+◌, ◌*◌, ◌/◌, ◌%◌, ◌-◌, ◌<◌, ◌≤◌, min, List, length, map, take, drop, slice_index_or, All, Ok, Result, IfOk};
ghost use Rattle.std.specs.declared.alloc.AllocError.{AllocError};
ghost use Rattle.std.specs.Fork.{slice_chunk};
ghost use Rattle.summary.specs.Sums.{join_all};

use search_shards::ShardedSet;
use std::alloc::{AllocError, Global};
use std::thread;
use std::thread::Threads;
use summary::{Summary, System};

/// The fewest states that a thread of their own looks at.
const FEWEST: usize = 1024;

/// What the states from one place up to another show.
fn show_between<Y: System, U: Summary<Y>>(
    alloc: Global,
    system: &Y,
    states: &ShardedSet<Y::State>,
    from: usize,
    to: usize,
) -> Result<U, AllocError>
    requires fits { All (Y.fits system.now) states.now.keys }
    requires places { (from ≤ to) × (to ≤ length states.now.keys) }
    ensures { IfOk result (λ s. s ≡ join_all U.joins (map (U.observation system.now).at (take (to - from) (drop from states.now.keys)))) }
{
    let mut summary = U::empty(alloc)?;
    for place in from..to {
        let shown = U::at(alloc, system, &states[place])?;
        summary = summary.join(alloc, shown)?;
    }
    Ok(summary)
}

/// What a part shows of the states from a place on, of which each part has so many.
fn show_part<Y: System, U: Summary<Y>>(
    alloc: Global,
    system: &Y,
    states: &ShardedSet<Y::State>,
    from: usize,
    size: usize,
    part: usize,
) -> Result<U, AllocError>
    requires fits { All (Y.fits system.now) states.now.keys }
    requires part { from + part * size < length states.now.keys }
    ensures { IfOk result (λ s. s ≡ join_all U.joins (map (U.observation system.now).at (slice_chunk (drop from states.now.keys) size part))) }
{
    let count = states.len();
    let start = from + part * size;
    let end = start + size.min(count - start);
    show_between(alloc, system, states, start, end)
}

/// What the parts show together.
fn join_parts<Y: System, U: Summary<Y>>(
    alloc: Global,
    parts: Vec<Result<U, AllocError>>,
) -> Result<U, AllocError>
    ensures { IfOk result (λ s. (shown : List U) × (parts.items ≡ map Ok shown) × (s ≡ join_all U.joins shown)) }
{
    let mut summary = U::empty(alloc)?;
    for part in parts {
        summary = summary.join(alloc, part?)?;
    }
    Ok(summary)
}

/// What each part shows of the states from a place on, each on a thread of its own where one can be made.
fn show_parts<Y: System, U: Summary<Y>, R: Threads + Sync>(
    rt: &R,
    alloc: Global,
    system: &Y,
    states: &ShardedSet<Y::State>,
    from: usize,
    size: usize,
) -> Result<Vec<Result<U, AllocError>>, AllocError>
    requires fits { All (Y.fits system.now) states.now.keys }
    requires places { (from ≤ length states.now.keys) × (0 < size) }
    ensures count { IfOk result (λ parts. length parts.items ≡ (length states.now.keys - from) / size + min 1 ((length states.now.keys - from) % size)) }
    ensures each { IfOk result (λ parts. (part : ℕ) (d : Result U AllocError) → part < length parts.items → IfOk (slice_index_or parts.items part d)
        (λ s. s ≡ join_all U.joins (map (U.observation system.now).at (slice_chunk (drop from states.now.keys) size part)))) }
{
    let count = (states.len() - from).div_ceil(size);
    thread::map_indices(
        rt,
        alloc,
        count,
        &|part: usize| -> Result<U, AllocError>
            requires { All (Y.fits system.now) states.now.keys × (from + part * size < length states.now.keys) }
            ensures { IfOk result (λ s. s ≡ join_all U.joins (map (U.observation system.entry.now).at (slice_chunk (drop from states.entry.now.keys) size part))) }
        { show_part(alloc, system, states, from, size, part) },
    )
}

/// What the states from a place on show, by as many threads as there are workers.
pub fn show_states<Y: System, U: Summary<Y>, R: Threads + Sync>(
    rt: &R,
    alloc: Global,
    system: &Y,
    workers: u64,
    states: &ShardedSet<Y::State>,
    from: usize,
) -> Result<U, AllocError>
    requires workers { 0 < workers }
    requires fits { All (Y.fits system.now) states.now.keys }
    requires from { from ≤ length states.now.keys }
    ensures { IfOk result (λ s. s ≡ join_all U.joins (map (U.observation system.now).at (drop from states.now.keys))) }
{
    let count = states.len() - from;
    let size = count.div_ceil(workers as usize).max(FEWEST);
    let parts = show_parts::<Y, U, R>(rt, alloc, system, states, from, size)?;
    join_parts::<Y, U>(alloc, parts)
}
