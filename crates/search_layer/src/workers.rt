//! Workers, who find the new states among a layer's candidates.
ghost use Rattle.std.specs.Prelude.{◌≡◌, ℕ, ◌*◌, ◌^◌, ◌<◌, length};
ghost use Rattle.shared.specs.BoardSeats.{pieces_of};
ghost use Rattle.shared.specs.SeenSeats.{items_of};

mod layer;
mod turns;

use crate::plan::Gate;
use crate::visited::Candidate;
pub use layer::{Firsts, find_first};
use search_shards::ShardedSet;
use shared::{Board, BoardSeat, Seen, SeenSeat};
use std::alloc::AllocError;
use summary::System;

/// What the workers of a layer share: the layer's candidates, cut into pieces, and the states that were found before.
#[derive(Drop)]
pub struct Work<'l, 's, Y: System, G: Gate> {
    pub system: &'l Y,
    pub gate: &'l G,
    pub layer: u64,
    pub visited: &'l ShardedSet<Y::State>,
    pub candidates: &'l [Candidate<Option<Y::State>, Y::Label>],
    /// How many candidates a piece has. The last piece may have fewer.
    pub size: usize,
    pub pieces: u64,
    pub seen: &'s Seen<'l, Candidate<Option<Y::State>, Y::Label>>,
    pub board: &'s Board,
    ghost cut: { (piece : ℕ) → piece < pieces → piece * size < length candidates.now },
    ghost some: { 0 < size },
    ghost room: { length candidates.now < 2 ^ 63 },
    ghost items: { items_of seen.now ≡ candidates.now },
    ghost numbers: { pieces_of board.now ≡ pieces },
}

/// A worker's number, and its right to take part.
#[derive(Drop)]
pub struct Worker {
    pub number: u64,
    pub seen: SeenSeat,
    pub board: BoardSeat,
}

/// A worker that is done, and what the steps of its candidates show unless a request for memory was refused.
#[derive(Drop)]
pub struct Worked<U> {
    pub worker: Worker,
    pub summary: Result<U, AllocError>,
}
