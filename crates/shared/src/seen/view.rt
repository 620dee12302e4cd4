//! What contracts say of a table of first positions: plain data that exists in proofs alone.
use std::collections::LinkedList;

/// What is fixed when a table is made.
pub struct SeenKey<'a, S> {
    pub items: &'a [S],
    pub words: u64,
    pub seats: u64,
}

impl<'a, S> Drop for SeenKey<'a, S> {
    fn drop(self) {
        let SeenKey {
            items: _,
            words: _,
            seats: _,
        } = self;
    }
}

/// What a seat of a table knows and did, with what the seats joined to it did. No value of it is made.
pub struct SeenView {
    /// The class of each position: the first position that holds an equal item. Nothing computes it.
    pub classes: LinkedList<u64>,
    /// How many words the table has.
    pub words: u64,
    /// How many seats there may ever be, the first one with them.
    pub seats: u64,
    /// The seat is the one that `new` gave.
    pub first: bool,
    /// How many seats it can still make.
    pub left: u64,
    /// The seats that it stands for: itself and those joined to it. 0 in the view of a seat that was joined to another.
    pub parts: u64,
    /// How many atomic steps `place` took.
    pub steps: u64,
    /// For each word 0, or one more than a position whose class the word is known to hold.
    pub known: LinkedList<u64>,
    /// The positions placed, in their order.
    pub placed: LinkedList<u64>,
    /// What each `place` answered.
    pub answered: LinkedList<u64>,
}
