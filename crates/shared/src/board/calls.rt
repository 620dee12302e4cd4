//! The calls of a board.
ghost use Rattle.std.specs.Prelude.{◌≡◌, ℕ, ◌+◌, ◌<◌, ◌≤◌, ◌↔◌, ◌++◌, ◌∷◌, [], true, false, IsTrue, IsErr, IfOk, IfSome, IfNone, IfErr, Contains};
ghost use Rattle.shared.specs.Totals.{times};
ghost use Rattle.shared.specs.BoardRule.{first_view, fresh, joined, with_one_less, with_drawn, with_end, with_look, with_raise};
ghost use Rattle.shared.specs.BoardSeats.{view, pieces_of, seats_of, IsSeatOf, AllJoined};

use super::plays::{Cut, DrawOne, Glue, Raise, See};
use super::view::BoardKey;
use super::{Board, BoardSeat};
use crate::NoSeat;
use atomic_table::Table;
use std::alloc::{AllocError, Global};

const DRAWS: usize = 0;

const FLAG: usize = 1;

impl Board {
    /// A board with nothing drawn and its flag down, and its first seat.
    pub fn new(alloc: Global, pieces: u64, seats: u64) -> Result<(Board, BoardSeat), AllocError>
        requires a_seat { 0 < seats }
        requires room { pieces + seats ≤ 18446744073709551615 }
        ensures sizes { IfOk result (λ made. (pieces_of made.0 ≡ pieces) × (seats_of made.0 ≡ seats)) }
        ensures own { IfOk result (λ made. IsSeatOf made.0 made.1) }
        ensures first { IfOk result (λ made. view made.1 ≡ first_view (record { pieces = pieces; seats = seats })) }
    {
        let key = BoardKey { pieces, seats };
        let (table, seat) = Table::of_words(alloc, &[0, 0], &key)?;
        let seat = BoardSeat {
            seat,
            left: seats - 1,
            ended: false,
        };
        Ok((Board { table, pieces }, seat))
    }

    /// Makes a seat for another thread.
    pub fn split(&self, seat: &mut BoardSeat) -> Result<BoardSeat, NoSeat>
        requires own { IsSeatOf self.now seat.old }
        requires first { (view seat.old).first ≡ true }
        ensures own { IsSeatOf self.now seat.new × IfOk result (λ other. IsSeatOf self.now other) }
        ensures refused { IsErr result ↔ (view seat.old).left ≡ 0 }
        ensures fresh { IfOk result (λ other. view other ≡ fresh (view seat.old)) }
        ensures made { IfOk result (λ _. view seat.new ≡ with_one_less (view seat.old)) }
        ensures kept { IfErr result (λ _. view seat.new ≡ view seat.old) }
    {
        if seat.left == 0 {
            return Err(NoSeat);
        }
        let other = self.table.shared.split_seat::<Cut>(&mut seat.seat);
        seat.left -= 1;
        Ok(BoardSeat {
            seat: other,
            left: 0,
            ended: false,
        })
    }

    /// Takes a seat back: what it did counts to the first seat from then on.
    pub fn join(&self, seat: &mut BoardSeat, other: BoardSeat)
        requires own { IsSeatOf self.now seat.old × IsSeatOf self.now other }
        requires first { (view seat.old).first ≡ true }
        requires other { (view other).first ≡ false }
        ensures own { IsSeatOf self.now seat.new }
        ensures joined { view seat.new ≡ joined (view seat.old) (view other) }
    {
        let BoardSeat {
            seat: other,
            left: _,
            ended: _,
        } = other;
        self.table.shared.join_seat::<Glue>(&mut seat.seat, other);
    }

    /// The next number that no seat has drawn yet, unless all are drawn.
    pub fn draw(&self, seat: &mut BoardSeat) -> Option<u64>
        requires own { IsSeatOf self.now seat.old }
        requires open { (view seat.old).ended ≡ false }
        ensures own { IsSeatOf self.now seat.new }
        ensures below { IfSome result (λ piece. piece < pieces_of self.now) }
        ensures drawn { IfSome result (λ piece. view seat.new ≡ with_drawn (view seat.old) piece) }
        ensures ended { IfNone result (view seat.new ≡ with_end (view seat.old)) }
        ensures once { (piece : ℕ) → times piece (view seat.new).drawn ≤ 1 }
    {
        let found = self
            .table
            .shared
            .fetch_add::<DrawOne>(&mut seat.seat, DRAWS, 1);
        if found < self.pieces {
            Some(found)
        } else {
            seat.ended = true;
            None
        }
    }

    /// Raises the flag.
    pub fn raise(&self, seat: &mut BoardSeat)
        requires own { IsSeatOf self.now seat.old }
        ensures own { IsSeatOf self.now seat.new }
        ensures raised { view seat.new ≡ with_raise (view seat.old) }
    {
        self.table.shared.fetch_or::<Raise>(&mut seat.seat, FLAG, 1);
    }

    /// Whether the flag is raised.
    pub fn raised(&self, seat: &mut BoardSeat) -> bool
        requires own { IsSeatOf self.now seat.old }
        ensures own { IsSeatOf self.now seat.new }
        ensures seen { view seat.new ≡ with_look (view seat.old) result }
        ensures again { (view seat.old).saw ≡ true → result ≡ true }
    {
        self.table.shared.load::<See>(&mut seat.seat, FLAG) != 0
    }

    /// Ends the board, and says whether its flag was raised.
    pub fn finish(self, seat: BoardSeat) -> bool
        requires own { IsSeatOf self seat }
        ensures once { (piece : ℕ) → times piece (view seat).drawn ≤ 1 }
        ensures below { (piece : ℕ) → 0 < times piece (view seat).drawn → piece < pieces_of self }
        ensures each { AllJoined (view seat) → 0 < (view seat).ends → (piece : ℕ) → piece < pieces_of self → times piece (view seat).drawn ≡ 1 }
        ensures saw { (view seat).saw ≡ true → result ≡ true }
        ensures raised { AllJoined (view seat) → (result ≡ true) ↔ (0 < (view seat).raises) }
    {
        let Board { table, pieces: _ } = self;
        let BoardSeat {
            seat,
            left: _,
            ended: _,
        } = seat;
        let closed = table.close_with(seat);
        let raised = closed.word(FLAG) != 0;
        closed.free();
        raised
    }

    /// Whether the seat that is asked found no number left. Then it may draw no more.
    pub fn ended(asked: &BoardSeat) -> bool
        ensures { result ≡ (view asked.now).ended }
    {
        asked.ended
    }
}
