//! What contracts say of a board: plain data that exists in proofs alone.

use std::collections::LinkedList;

/// What is fixed when a board is made.
#[derive(Clone, Copy, Drop)]
pub struct BoardKey {
    pub pieces: u64,
    pub seats: u64,
}

/// What a seat of a board knows and did, with what the seats joined to it did. No value of it is made.
pub struct BoardView {
    /// The numbers below it are drawn.
    pub pieces: u64,
    /// How many seats there may ever be, the first one with them.
    pub seats: u64,
    /// The seat is the one that `new` gave.
    pub first: bool,
    /// How many seats it can still make.
    pub left: u64,
    /// The seats that it stands for: itself and those joined to it. 0 in the view of a seat that was joined to another.
    pub parts: u64,
    /// The numbers drawn, in their order.
    pub drawn: LinkedList<u64>,
    /// How many of its seats found no number left.
    pub ends: u64,
    /// This very seat found no number left.
    pub ended: bool,
    /// How often its seats raised the flag.
    pub raises: u64,
    /// This seat raised the flag or saw it raised.
    pub saw: bool,
}
