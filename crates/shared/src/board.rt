//! Numbers that threads draw, each once, and a flag that any of them can raise.
//! Word 0 of the table counts the draws. Word 1 is 1 once the flag is raised, and before that 0.
ghost use Rattle.std.specs.Prelude.{◌≡◌, ◌+◌, ◌^◌, ◌<◌, []};

mod calls;
mod plays;
pub(crate) mod view;

use atomic_table::{Seat, Table};
use plays::Draws;
use std::alloc::Global;
use view::{BoardKey, BoardView};

/// The numbers from 0 on, below a count of pieces, and a flag. Any number of threads draw and raise through a `&`.
#[derive(Drop)]
pub struct Board {
    table: Table<(), BoardView, BoardKey, Draws, Global>,
    pieces: u64,
    ghost words: { table.shared.table_id.words ≡ 2 },
    ghost slots: { table.shared.table_id.slots ≡ 0 },
    ghost numbered: { pieces ≡ table.shared.key.pieces },
    ghost room: { table.shared.key.pieces + table.shared.key.seats < 2 ^ 64 },
}

/// The right of one thread to draw from a board and to raise its flag.
#[derive(Drop)]
pub struct BoardSeat {
    seat: Seat<(), BoardView>,
    left: u64,
    ended: bool,
    ghost holds_no_slot: { seat.me.1 ≡ [] },
    ghost left_is: { left ≡ seat.me.0.left },
    ghost ended_is: { ended ≡ seat.me.0.ended },
    ghost lives: { 0 < seat.me.0.parts },
}
