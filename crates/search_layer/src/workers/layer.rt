//! All workers of a layer.
ghost use Rattle.std.specs.Prelude.{◌≡◌, ◌+◌, ◌^◌, ◌<◌, ◌≤◌, false, List, length, All, IfOk, OnOk};
ghost use Rattle.std.specs.Option.{option_eq};
ghost use Rattle.shared.specs.BoardSeats.{view as board_view};
ghost use Rattle.shared.specs.SeenSeats.{view};
ghost use Rattle.search_layer.specs.internal.Search.{IsStep, with_steps};
ghost use Rattle.search_layer.specs.Limits.{IsWithinLimits};
ghost use Rattle.search_layer.specs.internal.Thinned.{AreThinned};
ghost use Rattle.search_layer.specs.internal.Work.{in_pieces, or_none, AreFirst, AreFirstSeats, AreSeatsOf, HasPlaced, IsDone, IsFresh, IsReady};

use super::{Work, Worked, Worker};
use crate::plan::{Gate, Plan};
use crate::visited::Candidate;
use search_shards::ShardedSet;
use shared::{Board, BoardSeat, Seen, SeenSeat};
use std::alloc::{AllocError, Global};
use std::thread;
use std::thread::Threads;
use summary::{Summary, System};

impl<'l, 's, Y: System, G: Gate> Work<'l, 's, Y, G> {
    /// Workers, for each of whom the first seats make a seat.
    fn make_workers(
        &self,
        alloc: Global,
        seat: &mut SeenSeat,
        draws: &mut BoardSeat,
        count: u64,
    ) -> Result<Vec<Worker>, AllocError>
        requires own { AreSeatsOf Y.State.eq self.now.seen.now self.now.board.now seat.old draws.old }
        requires first { AreFirstSeats count 1 (view seat.old) (board_view draws.old) }
        requires fresh { IsFresh (view seat.old) (board_view draws.old) }
        ensures own { AreSeatsOf Y.State.eq self.now.seen.now self.now.board.now seat.new draws.new }
        ensures first { OnOk result (AreFirstSeats 0 1 (view seat.new) (board_view draws.new)) }
        ensures fresh { IsFresh (view seat.new) (board_view draws.new) }
        ensures count { IfOk result (λ workers. length workers.items ≡ count) }
        ensures ready { IfOk result (λ workers. All (IsReady Y.State.eq self.now.seen.now self.now.board.now) workers.items) }
    {
        let mut workers = Vec::new(alloc);
        for number in 0..count {
            let Ok(seen) = self.seen.split(seat) else {
                unreachable!()
            };
            let Ok(board) = self.board.split(draws) else {
                unreachable!()
            };
            workers.push(Worker {
                number,
                seen,
                board,
            })?;
        }
        Ok(workers)
    }

    /// Takes the workers' seats back, and joins what their candidates' steps show.
    fn join_workers<U: Summary<Y>>(
        &self,
        alloc: Global,
        seat: &mut SeenSeat,
        draws: &mut BoardSeat,
        done: Vec<Worked<U>>,
    ) -> Result<U, AllocError>
        requires own { AreSeatsOf Y.State.eq self.now.seen.now self.now.board.now seat.old draws.old }
        requires first { AreFirstSeats 0 1 (view seat.old) (board_view draws.old) }
        requires fresh { IsFresh (view seat.old) (board_view draws.old) }
        requires done { All (IsDone Y.State.eq self.now.seen.now self.now.board.now U.joins (U.observation self.now.system.now) (Y.graph self.now.system.now)
            self.now.visited.now.keys self.now.candidates.now self.now.size) done.items }
        ensures own { AreSeatsOf Y.State.eq self.now.seen.now self.now.board.now seat.new draws.new }
        ensures first { OnOk result (AreFirstSeats 0 (1 + length done.items) (view seat.new) (board_view draws.new)) }
        ensures ends { OnOk result ((board_view draws.new).saw ≡ false → 0 < length done.items → 0 < (board_view draws.new).ends) }
        ensures placed { OnOk result ((board_view draws.new).saw ≡ false
            → HasPlaced (option_eq Y.State.eq) (or_none self.now.visited.now.keys) self.now.candidates.now self.now.size (board_view draws.new).drawn (view seat.new).placed) }
        ensures summary { IfOk result (λ s. s ≡ with_steps U.joins (U.observation self.now.system.now) (Y.graph self.now.system.now) self.now.visited.now.keys U.joins.none
            (in_pieces self.now.size self.now.candidates.now (board_view draws.new).drawn)) }
    {
        let mut summary = U::empty(alloc)?;
        for worked in done {
            let Worked {
                worker,
                summary: shown,
            } = worked;
            let Worker {
                number: _,
                seen,
                board,
            } = worker;
            self.seen.join(seat, seen);
            self.board.join(draws, board);
            summary = summary.join(alloc, shown?)?;
        }
        Ok(summary)
    }
}

/// What the workers did, each on a thread of its own where one can be made.
fn run_workers<Y: System, U: Summary<Y>, G: Gate, R: Threads + Sync>(
    rt: &R,
    alloc: Global,
    work: &Work<'_, '_, Y, G>,
    workers: Vec<Worker>,
) -> Result<Vec<Worked<U>>, AllocError>
    requires fits { All (Y.fits work.now.system.now) work.now.visited.now.keys }
    requires steps { All (IsStep (Y.graph work.now.system.now) work.now.visited.now.keys) work.now.candidates.now }
    requires ready { All (IsReady Y.State.eq work.now.seen.now work.now.board.now) workers.items }
    ensures count { IfOk result (λ done. length done.items ≡ length workers.items) }
    ensures done { IfOk result (λ done. All (IsDone Y.State.eq work.now.seen.now work.now.board.now U.joins (U.observation work.now.system.now) (Y.graph work.now.system.now)
        work.now.visited.now.keys work.now.candidates.now work.now.size) done.items) }
{
    thread::map_vec(
        rt,
        workers,
        &|worker: Worker| -> Worked<U>
            requires { All (Y.fits work.now.system.now) work.now.visited.now.keys × All (IsStep (Y.graph work.now.system.now) work.now.visited.now.keys) work.now.candidates.now × IsReady Y.State.eq work.now.seen.now work.now.board.now worker }
            ensures { IsDone Y.State.eq work.entry.now.seen.now work.entry.now.board.now U.joins (U.observation work.entry.now.system.now) (Y.graph work.entry.now.system.now)
                work.entry.now.visited.now.keys work.entry.now.candidates.now work.entry.now.size result }
        { work.work(alloc, worker) },
    )
}

/// What all workers did: the first seats stand for them, and what the steps of their candidates show.
fn share_work<Y: System, U: Summary<Y>, G: Gate, R: Threads + Sync>(
    rt: &R,
    alloc: Global,
    work: &Work<'_, '_, Y, G>,
    seat: &mut SeenSeat,
    draws: &mut BoardSeat,
    count: u64,
) -> Result<U, AllocError>
    requires fits { All (Y.fits work.now.system.now) work.now.visited.now.keys }
    requires steps { All (IsStep (Y.graph work.now.system.now) work.now.visited.now.keys) work.now.candidates.now }
    requires own { AreSeatsOf Y.State.eq work.now.seen.now work.now.board.now seat.old draws.old }
    requires first { AreFirstSeats count 1 (view seat.old) (board_view draws.old) }
    requires fresh { IsFresh (view seat.old) (board_view draws.old) }
    requires count { 0 < count }
    ensures own { AreSeatsOf Y.State.eq work.now.seen.now work.now.board.now seat.new draws.new }
    ensures first { OnOk result (AreFirstSeats 0 (1 + count) (view seat.new) (board_view draws.new)) }
    ensures placed { OnOk result ((board_view draws.new).saw ≡ false → (0 < (board_view draws.new).ends)
        × HasPlaced (option_eq Y.State.eq) (or_none work.now.visited.now.keys) work.now.candidates.now work.now.size (board_view draws.new).drawn (view seat.new).placed) }
    ensures summary { IfOk result (λ s. s ≡ with_steps U.joins (U.observation work.now.system.now) (Y.graph work.now.system.now) work.now.visited.now.keys U.joins.none
        (in_pieces work.now.size work.now.candidates.now (board_view draws.new).drawn)) }
{
    let workers = work.make_workers(alloc, seat, draws, count)?;
    let done = run_workers::<Y, U, G, R>(rt, alloc, work, workers)?;
    work.join_workers(alloc, seat, draws, done)
}

/// The first candidates of a layer, whichever of them have a state.
#[derive(Drop)]
pub struct Firsts<U> {
    /// The positions of the candidates whose states are new and no earlier candidate's, ascending.
    pub positions: Vec<u64>,
    /// What the steps of all candidates show.
    pub shown: U,
}

/// Finds the candidates whose states are new and no earlier candidate's, and what the steps of all candidates show. A candidate
/// without a state is one whose state was found before, or is an earlier candidate's.
pub fn find_first<'l, Y: System, U: Summary<Y>, G: Gate, R: Threads + Sync>(
    rt: &R,
    alloc: Global,
    system: &'l Y,
    plan: &Plan,
    gate: &'l G,
    layer: u64,
    visited: &'l ShardedSet<Y::State>,
    candidates: &'l [Candidate<Option<Y::State>, Y::Label>],
) -> Result<Firsts<U>, AllocError>
    requires plan { IsWithinLimits plan.now }
    requires fits { All (Y.fits system.now) visited.now.keys }
    requires steps { All (IsStep (Y.graph system.now) visited.now.keys) candidates.now }
    requires room { length candidates.now < 2 ^ 63 }
    ensures first { IfOk result (λ r. (all : List (Candidate Y.State Y.Label)) → AreThinned Y.State.eq visited.now.keys all candidates.now
        → AreFirst Y.State.eq visited.now.keys all r.positions.items) }
    ensures summary { IfOk result (λ r. (all : List (Candidate Y.State Y.Label)) → AreThinned Y.State.eq visited.now.keys all candidates.now
        → r.shown ≡ with_steps U.joins (U.observation system.now) (Y.graph system.now) visited.now.keys U.joins.none all) }
{
    let size = plan.piece as usize;
    let pieces = candidates.len().div_ceil(size) as u64;
    let count = plan.workers.min(pieces).max(1);
    let (seen, mut seat) = Seen::new(alloc, candidates, count + 1)?;
    let (board, mut draws) = Board::new(alloc, pieces, count + 1)?;
    let shown = share_work::<Y, U, G, R>(
        rt,
        alloc,
        &Work {
            system,
            gate,
            layer,
            visited,
            candidates,
            size,
            pieces,
            seen: &seen,
            board: &board,
        },
        &mut seat,
        &mut draws,
        count,
    )?;
    let has_stopped = board.finish(draws);
    // A worker stops the others where it got no memory.
    if has_stopped {
        return Err(AllocError);
    }
    let positions = seen.finish(alloc, seat)?;
    Ok(Firsts { positions, shown })
}
