//! The first position of each kind of item, found by any number of threads without a lock.
//! Each word of the table is 0, or one more than the least position placed so far of one class of equal items. A class
//! has the first free word on its probe path: from the word that the hash of its items gives, word by word, round at
//! the end.
ghost use Rattle.std.specs.Prelude.{◌≡◌, ◌<◌, [], length};

mod calls;
mod collect;
mod plays;
mod steps;
pub(crate) mod view;

use atomic_table::{Seat, Table};
use plays::Firsts;
use std::alloc::Global;
use std::hash::Hash;
use view::{SeenKey, SeenView};

/// A table over lent items. Any number of threads place positions of items through a `&`.
pub struct Seen<'a, S: Eq + Hash> {
    table: Table<(), SeenView, SeenKey<'a, S>, Firsts, Global>,
    items: &'a [S],
    words: usize,
    ghost items_are: { items.now ≡ table.shared.key.items.now },
    ghost words_are: { (words ≡ table.shared.key.words) × (words ≡ table.shared.table_id.words) },
    ghost slots: { table.shared.table_id.slots ≡ 0 },
    ghost room: { length items.now < words },
}

/// The right of one thread to place positions in a table.
#[derive(Drop)]
pub struct SeenSeat {
    seat: Seat<(), SeenView>,
    left: u64,
    ghost holds_no_slot: { seat.me.1 ≡ [] },
    ghost left_is: { left ≡ seat.me.0.left },
    ghost lives: { 0 < seat.me.0.parts },
}

impl<'a, S: Eq + Hash> Drop for Seen<'a, S> {
    fn drop(self) {
        let Seen {
            table,
            items: _,
            words: _,
        } = self;
        drop(table);
    }
}
