//! The calls of a table of first positions.
ghost use Rattle.std.specs.Prelude.{◌≡◌, ℕ, ◌+◌, ◌*◌, ◌<◌, ◌≤◌, ◌↔◌, ◌++◌, ◌∷◌, [], true, false, length, IsErr, IfOk, IfErr};
ghost use Rattle.shared.specs.Totals.{Stands};
ghost use Rattle.shared.specs.Classes.{HoldEqual, IsFirsts};
ghost use Rattle.shared.specs.SeenRule.{fresh, joined, with_one_less, KnowsClass, OneWordEach, Met, IsSameSeat};
ghost use Rattle.shared.specs.SeenSeats.{view, first_view_of, items_of, words_of, seats_of, IsSeatOf, AllJoined};

use super::collect::{marked, marks};
use super::plays::{Cut, Glue};
use super::view::SeenKey;
use super::{Seen, SeenSeat};
use crate::NoSeat;
use atomic_table::Table;
use std::alloc::{AllocError, Global};
use std::hash::Hash;

impl<'a, S: Eq + Hash> Seen<'a, S> {
    /// A table over the items with nothing placed, and its first seat.
    pub fn new(
        alloc: Global,
        items: &'a [S],
        seats: u64,
    ) -> Result<(Seen<'a, S>, SeenSeat), AllocError>
        requires { 0 < seats }
        ensures items { IfOk result (λ made. items_of made.0 ≡ items.now) }
        ensures words { IfOk result (λ made. (length items.now < words_of made.0) × (words_of made.0 ≤ 2 * length items.now + 1)) }
        ensures seats { IfOk result (λ made. seats_of made.0 ≡ seats) }
        ensures own { IfOk result (λ made. IsSeatOf S.eq made.0 made.1) }
        ensures first { IfOk result (λ made. view made.1 ≡ first_view_of S.eq made.0) }
    {
        // More words than a `usize` counts are more than any allocator has.
        let words = items.len().checked_mul(2).ok_or(AllocError)?;
        let words = words.checked_add(1).ok_or(AllocError)?;
        let free = Vec::from_elem(alloc, 0u64, words)?;
        let key = SeenKey {
            items,
            words: words as u64,
            seats,
        };
        let (table, seat) = Table::of_words(alloc, free.as_slice(), &key)?;
        let seat = SeenSeat {
            seat,
            left: seats - 1,
        };
        Ok((
            Seen {
                table,
                items,
                words,
            },
            seat,
        ))
    }

    /// Makes a seat for another thread.
    pub fn split(&self, seat: &mut SeenSeat) -> Result<SeenSeat, NoSeat>
        requires own { IsSeatOf S.eq self.now seat.old }
        requires first { (view seat.old).first ≡ true }
        ensures own { IsSeatOf S.eq self.now seat.new × IfOk result (λ other. IsSeatOf S.eq self.now other) }
        ensures refused { IsErr result ↔ (view seat.old).left ≡ 0 }
        ensures fresh { IfOk result (λ other. view other ≡ fresh (view seat.old)) }
        ensures made { IfOk result (λ _. view seat.new ≡ with_one_less (view seat.old)) }
        ensures kept { IfErr result (λ _. view seat.new ≡ view seat.old) }
    {
        if seat.left == 0 {
            return Err(NoSeat);
        }
        let other = self.table.shared.split_seat::<Cut>(&mut seat.seat);
        seat.left -= 1;
        Ok(SeenSeat {
            seat: other,
            left: 0,
        })
    }

    /// Takes a seat back: what it placed counts to the first seat from then on.
    pub fn join(&self, seat: &mut SeenSeat, other: SeenSeat)
        requires own { IsSeatOf S.eq self.now seat.old × IsSeatOf S.eq self.now other }
        requires first { (view seat.old).first ≡ true }
        requires other { (view other).first ≡ false }
        ensures own { IsSeatOf S.eq self.now seat.new }
        ensures joined { view seat.new ≡ joined (view seat.old) (view other) }
    {
        let SeenSeat {
            seat: other,
            left: _,
        } = other;
        self.table.shared.join_seat::<Glue>(&mut seat.seat, other);
    }

    /// Places a position, and gives the least position of an equal item placed so far, `index` with it.
    pub fn place(&self, seat: &mut SeenSeat, index: usize) -> u64
        requires own { IsSeatOf S.eq self.now seat.old }
        requires index { index < length (items_of self.now) }
        ensures own { IsSeatOf S.eq self.now seat.new }
        ensures kept { IsSameSeat (view seat.old) (view seat.new) }
        ensures placed { (view seat.new).placed ≡ (view seat.old).placed ++ index ∷ [] }
        ensures answered { (view seat.new).answered ≡ (view seat.old).answered ++ result ∷ [] }
        ensures equal { HoldEqual S.eq (items_of self.now) result index }
        ensures within { result ≤ index }
        ensures least { (k : ℕ) → Met (view seat.old) k → HoldEqual S.eq (items_of self.now) k index → result ≤ k }
        ensures steps { (view seat.new).steps ≤ (view seat.old).steps + words_of self.now + 1 }
        ensures known { KnowsClass (view seat.new) index }
        ensures one_word { OneWordEach (view seat.new).classes (view seat.new).known }
    {
        match self.search(seat, index) {
            None => index as u64,
            Some(word) => self.lower(seat, word, index),
        }
    }

    /// Ends the table, and gives the first position of each kind of item that was placed.
    pub fn finish(self, alloc: Global, seat: SeenSeat) -> Result<Vec<u64>, AllocError>
        requires own { IsSeatOf S.eq self seat }
        requires joined { AllJoined (view seat) }
        ensures firsts { IfOk result (λ firsts. IsFirsts S.eq (items_of self.entry) (view seat).placed firsts.items) }
        ensures answers { (answer : ℕ) → Stands answer (view seat).answered → Stands answer (view seat).placed }
        ensures one_word { OneWordEach (view seat).classes (view seat).known }
    {
        let Seen {
            table,
            items,
            words,
        } = self;
        let SeenSeat { seat, left: _ } = seat;
        let closed = table.close_with(seat);
        let marks = marks(alloc, &closed, words, items.len());
        closed.free();
        marked(alloc, marks?.as_slice())
    }
}
