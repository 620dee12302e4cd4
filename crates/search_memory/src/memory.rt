ghost use Rattle.std.specs.Prelude.{◌≡◌, IfSome};

use crate::cells::{cell_at, empty_cells, hash_of};
use crate::keyed::Keyed;
use once_cell::race::OnceBox;
use std::alloc::{AllocError, Global};
use std::marker::Model;

/// In how many places, one behind the other, an item may stand.
const TRIES: usize = 8;

/// Puts an item in, where one of its places is free. Answers whether one was.
fn put<T: Keyed>(alloc: Global, cells: &[OnceBox<T>], item: T) -> Result<bool, AllocError> {
    let hash = hash_of(item.key());
    let mut item = Box::new(alloc, item)?;
    for before in 0..TRIES {
        let Some(cell) = cell_at(cells, hash, before) else {
            return Ok(false);
        };
        match cell.set(item) {
            Ok(()) => return Ok(true),
            Err(back) => item = back,
        }
    }
    Ok(false)
}

/// A mark that is set once.
fn mark(alloc: Global, mark: &OnceBox<bool>) -> Result<(), AllocError> {
    if mark.get().is_none() {
        let _set_before = mark.set(Box::new(alloc, true)?);
    }
    Ok(())
}

/// Items that are found again by their keys. What was put in stays, and where there is no place for an item it is dropped.
/// Several threads may put items in and find them: each cell is written once.
///
/// A memory is on trial until it was of use: it has few places, and where they don't suffice it gives up.
/// Contracts see nothing of what is in it.
#[derive(Drop)]
pub struct Memory<T> {
    trial: usize,
    places: usize,
    /// The cells of the trial, from the first item on.
    few: OnceBox<Vec<OnceBox<T>>>,
    /// The cells from the first item on behind the trial.
    many: OnceBox<Vec<OnceBox<T>>>,
    was_of_use: OnceBox<bool>,
    gave_up: OnceBox<bool>,
}

impl<T> Model for Memory<T> {
    ghost Value = { Unit {0} };

    ghost view = { λ _. tt };
}

impl<T: Keyed> Memory<T> {
    /// A memory with so many places on trial, and so many behind it. Takes no memory until an item is put in.
    pub fn new(alloc: Global, trial: usize, places: usize) -> Memory<T> {
        Memory {
            trial,
            places,
            few: OnceBox::new(alloc),
            many: OnceBox::new(alloc),
            was_of_use: OnceBox::new(alloc),
            gave_up: OnceBox::new(alloc),
        }
    }

    /// Whether the trial has ended without use. Then nothing is put in any more.
    pub fn has_given_up(&self) -> bool {
        self.gave_up.get().is_some()
    }

    /// Ends the trial, since what was found was of use.
    pub fn note_use(&self, alloc: Global) -> Result<(), AllocError> {
        mark(alloc, &self.was_of_use)
    }

    /// An item that was put in with this key. One that another thread puts in meanwhile may be missed.
    pub fn find(&self, key: &[u8]) -> Option<&T>
        ensures { IfSome result (λ item. T.key item.now ≡ key.now) }
    {
        let cells = match self.many.get() {
            Some(cells) => cells,
            None => self.few.get()?,
        };
        let hash = hash_of(key);
        for before in 0..TRIES {
            let item = cell_at(cells, hash, before)?.get()?;
            if item.key() == key {
                return Some(item);
            }
        }
        None
    }

    /// Puts an item in, where one of its places is free.
    pub fn keep(&self, alloc: Global, item: T) -> Result<(), AllocError> {
        if self.was_of_use.get().is_some() {
            let places = self.places;
            let cells = self
                .many
                .get_or_try_init(move || empty_cells(alloc, places))?;
            put(alloc, cells, item)?;
            return Ok(());
        }
        if self.has_given_up() {
            return Ok(());
        }
        let trial = self.trial;
        let cells = self.few.get_or_try_init(move || empty_cells(alloc, trial))?;
        if !put(alloc, cells, item)? {
            mark(alloc, &self.gave_up)?;
        }
        Ok(())
    }
}
