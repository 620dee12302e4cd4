//! How many items a second `Seen` places, by 1, 2 and 4 seats, beside a plain loop over an `IndexSet`.
mod item;
mod runs;

use crate::Numbers;
use crate::rates::rate;
use item::Item;
use runs::{Found, by_four, by_one, by_set, by_two};
use std::alloc::{AllocError, Global};
use std::io;
use std::rt::Clock;
use std::thread::Threads;

/// How many items there are, if no number is given.
const SMALL: u64 = 1000;

/// Items of which the second half is the first half again.
fn items(alloc: Global, count: u64) -> Result<Vec<Item>, AllocError> {
    let mut items = Vec::new(alloc);
    for number in 0..count / 2 {
        items.push(Item::of(number))?;
    }
    for number in 0..count / 2 {
        items.push(Item::of(number))?;
    }
    Ok(items)
}

/// A count to standard output, and a rate to standard error.
fn tell<R: Print + Eprint>(rt: &R, name: &str, count: u64, found: Found) -> io::Result<()> {
    println!(rt; "{name} {}", found.firsts)?;
    eprintln!(rt; "{name} {}", rate(count, found.took))
}

/// The first number says how many items of 64 bytes there are, of which each stands twice.
pub fn measure<R>(rt: &R, numbers: Numbers) -> io::Result<()>
where
    R: AllocGlobal + Clock + Eprint + Print + Threads + Sync,
{
    let items = items(rt.alloc(), numbers.first.unwrap_or(SMALL))?;
    let items = items.as_slice();
    let count = items.len() as u64;
    tell(rt, "set", count, by_set(rt, rt.alloc(), items)?)?;
    tell(rt, "1 seat", count, by_one(rt, rt.alloc(), items)?)?;
    tell(rt, "2 seats", count, by_two(rt, rt.alloc(), items)?)?;
    tell(rt, "4 seats", count, by_four(rt, rt.alloc(), items)?)
}
