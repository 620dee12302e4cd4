//! What one worker does.
ghost use Rattle.std.specs.Prelude.{◌≡◌, ℕ, ◌+◌, ◌*◌, ◌-◌, ◌<◌, ◌≤◌, [], true, false, ◌∷◌, length, slice_get, Some, All, IfOk, OnOk};
ghost use Rattle.std.specs.Fork.{slice_chunk};
ghost use Rattle.std.specs.Option.{option_eq};
ghost use Rattle.shared.specs.BoardSeats.{view as board_view, IsSeatOf as IsBoardSeatOf};
ghost use Rattle.shared.specs.SeenRule.{IsSameSeat};
ghost use Rattle.shared.specs.SeenSeats.{view, IsSeatOf};
ghost use Rattle.search_layer.specs.internal.Search.{IsStep, with_steps};
ghost use Rattle.search_layer.specs.internal.Shards.{AreShardsFrom, IsShardAt};
ghost use Rattle.search_layer.specs.internal.Work.{have_same_state, in_pieces, or_none, AddsNew, HasPlaced, IsIdle, IsSameBoardSeat, IsReady, IsDone};

use super::{Work, Worked, Worker};
use crate::plan::Gate;
use shared::{BoardSeat, SeenSeat};
use std::alloc::{AllocError, Global};
use summary::{Summary, System};

impl<'l, 's, Y: System, G: Gate> Work<'l, 's, Y, G> {
    /// The shards that the states of the candidates from one position up to another belong to. No candidate waits for
    /// the one before, so their bytes come from memory together.
    fn shards_between(
        &self,
        alloc: Global,
        from: usize,
        to: usize,
    ) -> Result<Vec<usize>, AllocError>
        requires { (from ≤ to) × (to ≤ length self.now.candidates.now) }
        ensures count { IfOk result (λ shards. length shards.items ≡ to - from) }
        ensures each { IfOk result (λ shards. AreShardsFrom Y.State.hash_input self.now.visited.now.shards self.now.candidates.now from shards.items) }
    {
        let mut shards = Vec::with_capacity(alloc, to - from)?;
        for at in from..to {
            shards.push(self.candidates[at].shard_in(self.visited))?;
        }
        Ok(shards)
    }

    /// Places a candidate's position if its state, which belongs to this shard, was not found before.
    fn place(&self, seat: &mut SeenSeat, at: usize, shard: usize)
        requires own { IsSeatOf (have_same_state (option_eq Y.State.eq)) self.now.seen.now seat.old }
        requires at { at < length self.now.candidates.now }
        requires shard { IsShardAt Y.State.hash_input self.now.visited.now.shards self.now.candidates.now at shard }
        ensures own { IsSeatOf (have_same_state (option_eq Y.State.eq)) self.now.seen.now seat.new }
        ensures kept { IsSameSeat (view seat.old) (view seat.new) }
        ensures placed { AddsNew (option_eq Y.State.eq) (or_none self.now.visited.now.keys) self.now.candidates.now at (at + 1) (view seat.old).placed (view seat.new).placed }
    {
        let Some(state) = &self.candidates[at].state else {
            return;
        };
        if !self.visited.contains_in(shard, state) {
            self.seen.place(seat, at);
        }
    }

    /// Joins what a candidate's step shows.
    fn join_step<U: Summary<Y>>(
        &self,
        alloc: Global,
        at: usize,
        summary: U,
    ) -> Result<U, AllocError>
        requires fits { All (Y.fits self.now.system.now) self.now.visited.now.keys }
        requires steps { All (IsStep (Y.graph self.now.system.now) self.now.visited.now.keys) self.now.candidates.now }
        requires at { at < length self.now.candidates.now }
        ensures { IfOk result (λ s. (c : _) → slice_get self.now.candidates.now at ≡ Some c
            → s ≡ with_steps U.joins (U.observation self.now.system.now) (Y.graph self.now.system.now) self.now.visited.now.keys summary (c ∷ [])) }
    {
        let candidate = &self.candidates[at];
        let before = &self.visited[candidate.before as usize];
        summary.join(alloc, U::by(alloc, self.system, before, &candidate.label)?)
    }

    /// Places the new candidates of a piece, and joins what the steps of all its candidates show.
    fn take_piece<U: Summary<Y>>(
        &self,
        alloc: Global,
        seat: &mut SeenSeat,
        piece: u64,
        summary: U,
    ) -> Result<U, AllocError>
        requires fits { All (Y.fits self.now.system.now) self.now.visited.now.keys }
        requires steps { All (IsStep (Y.graph self.now.system.now) self.now.visited.now.keys) self.now.candidates.now }
        requires own { IsSeatOf (have_same_state (option_eq Y.State.eq)) self.now.seen.now seat.old }
        requires piece { piece < self.now.pieces }
        ensures own { IsSeatOf (have_same_state (option_eq Y.State.eq)) self.now.seen.now seat.new }
        ensures kept { IsSameSeat (view seat.old) (view seat.new) }
        ensures placed { OnOk result (AddsNew (option_eq Y.State.eq) (or_none self.now.visited.now.keys) self.now.candidates.now (piece * self.now.size) (piece * self.now.size + self.now.size) (view seat.old).placed (view seat.new).placed) }
        ensures summary { IfOk result (λ s. s ≡ with_steps U.joins (U.observation self.now.system.now) (Y.graph self.now.system.now) self.now.visited.now.keys summary (slice_chunk self.now.candidates.now self.now.size piece)) }
    {
        let from = piece as usize * self.size;
        let to = from + self.size.min(self.candidates.len() - from);
        let shards = self.shards_between(alloc, from, to)?;
        let mut summary = summary;
        for at in from..to {
            self.place(seat, at, shards[at - from]);
            summary = self.join_step(alloc, at, summary)?;
        }
        Ok(summary)
    }

    /// Draws pieces until none is left or another worker has given up.
    fn take_pieces<U: Summary<Y>>(
        &self,
        alloc: Global,
        number: u64,
        seat: &mut SeenSeat,
        draws: &mut BoardSeat,
    ) -> Result<U, AllocError>
        requires fits { All (Y.fits self.now.system.now) self.now.visited.now.keys }
        requires steps { All (IsStep (Y.graph self.now.system.now) self.now.visited.now.keys) self.now.candidates.now }
        requires own { IsSeatOf (have_same_state (option_eq Y.State.eq)) self.now.seen.now seat.old × IsBoardSeatOf self.now.board.now draws.old }
        requires idle { IsIdle (view seat.old) (board_view draws.old) }
        ensures own { IsSeatOf (have_same_state (option_eq Y.State.eq)) self.now.seen.now seat.new × IsBoardSeatOf self.now.board.now draws.new }
        ensures kept { IsSameSeat (view seat.old) (view seat.new) × IsSameBoardSeat (board_view draws.old) (board_view draws.new) }
        ensures placed { OnOk result ((board_view draws.new).saw ≡ false
            → (0 < (board_view draws.new).ends) × HasPlaced (option_eq Y.State.eq) (or_none self.now.visited.now.keys) self.now.candidates.now self.now.size (board_view draws.new).drawn (view seat.new).placed) }
        ensures summary { IfOk result (λ s. s ≡ with_steps U.joins (U.observation self.now.system.now) (Y.graph self.now.system.now) self.now.visited.now.keys U.joins.none
            (in_pieces self.now.size self.now.candidates.now (board_view draws.new).drawn)) }
    {
        let mut summary = U::empty(alloc)?;
        while !self.board.raised(draws) {
            match self.board.draw(draws) {
                None => return Ok(summary),
                Some(piece) => {
                    self.gate.enter(number, self.layer, piece, self.pieces);
                    summary = self.take_piece(alloc, seat, piece, summary)?;
                }
            }
        }
        Ok(summary)
    }

    /// Takes pieces as long as there are some. A worker that is refused memory stops the others.
    pub(super) fn work<U: Summary<Y>>(&self, alloc: Global, worker: Worker) -> Worked<U>
        requires fits { All (Y.fits self.now.system.now) self.now.visited.now.keys }
        requires steps { All (IsStep (Y.graph self.now.system.now) self.now.visited.now.keys) self.now.candidates.now }
        requires ready { IsReady Y.State.eq self.now.seen.now self.now.board.now worker }
        ensures { IsDone Y.State.eq self.now.seen.now self.now.board.now U.joins (U.observation self.now.system.now) (Y.graph self.now.system.now)
            self.now.visited.now.keys self.now.candidates.now self.now.size result }
    {
        let Worker {
            number,
            mut seen,
            mut board,
        } = worker;
        match self.take_pieces(alloc, number, &mut seen, &mut board) {
            Ok(summary) => Worked {
                worker: Worker {
                    number,
                    seen,
                    board,
                },
                summary: Ok(summary),
            },
            Err(refused) => {
                self.board.raise(&mut board);
                Worked {
                    worker: Worker {
                        number,
                        seen,
                        board,
                    },
                    summary: Err(refused),
                }
            }
        }
    }
}
