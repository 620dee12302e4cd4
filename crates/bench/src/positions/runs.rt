//! The runs that are timed.
ghost use Rattle.std.specs.Prelude.{◌≡◌, ◌≤◌, length, true, false};
ghost use Rattle.std.specs.Thread.{IsSync};
ghost use Rattle.shared.specs.SeenRule.{IsSameSeat};
ghost use Rattle.shared.specs.SeenSeats.{view, items_of, IsSeatOf};

use indexmap::IndexSet;
use shared::{Seen, SeenSeat};
use std::alloc::Global;
use std::hash::Hash;
use std::io;
use std::thread::{Threads, join_mut};
use std::time::{Clock, Duration, Instant};

/// How many different items were found, and how long that took.
#[derive(Drop)]
pub struct Found {
    pub firsts: usize,
    pub took: Duration,
}

/// What a plain loop finds.
pub fn by_set<S: Eq + Hash + Copy + Drop, R: Clock>(
    rt: &R,
    alloc: Global,
    items: &[S],
) -> io::Result<Found> {
    let mut set = IndexSet::new(alloc);
    let start = Instant::now(rt)?;
    for item in items {
        set.insert_full(*item)?;
    }
    let took = start.elapsed(rt)?;
    Ok(Found {
        firsts: set.len(),
        took,
    })
}

fn place<S: Eq + Hash>(seen: &Seen<'_, S>, seat: &mut SeenSeat, from: usize, to: usize)
    requires own { IsSeatOf S.eq seen.now seat.old }
    requires to { to ≤ length (items_of seen.now) }
    ensures own { IsSeatOf S.eq seen.now seat.new }
    ensures kept { IsSameSeat (view seat.old) (view seat.new) }
{
    for index in from..to {
        seen.place(seat, index);
    }
}

// Places from `from` on with two seats, each on a thread of its own, as far as `to`.
fn place_halves<S: Eq + Hash + Sync, R: Threads + Sync>(
    rt: &R,
    seen: &Seen<'_, S>,
    one: &mut SeenSeat,
    other: &mut SeenSeat,
    from: usize,
    to: usize,
)
    requires own { IsSeatOf S.eq seen.now one.old × IsSeatOf S.eq seen.now other.old }
    requires from { from ≤ to }
    requires to { to ≤ length (items_of seen.now) }
    ensures own { IsSeatOf S.eq seen.now one.new × IsSeatOf S.eq seen.now other.new }
    ensures kept { IsSameSeat (view one.old) (view one.new) × IsSameSeat (view other.old) (view other.new) }
{
    let middle = from + (to - from) / 2;
    join_mut(
        rt,
        &mut || place(seen, one, from, middle),
        &mut || place(seen, other, middle, to),
    );
}

/// What one seat finds. The table is made before the clock starts.
pub fn by_one<S: Eq + Hash, R: Clock>(rt: &R, alloc: Global, items: &[S]) -> io::Result<Found> {
    let (seen, mut seat) = Seen::new(alloc, items, 1)?;
    let start = Instant::now(rt)?;
    place(&seen, &mut seat, 0, items.len());
    let took = start.elapsed(rt)?;
    let firsts = seen.finish(alloc, seat)?.len();
    Ok(Found { firsts, took })
}

/// What two seats find.
pub fn by_two<S: Eq + Hash + Sync, R: Threads + Clock + Sync>(
    rt: &R,
    alloc: Global,
    items: &[S],
) -> io::Result<Found> {
    let (seen, mut first) = Seen::new(alloc, items, 2)?;
    let Ok(mut second) = seen.split(&mut first) else {
        unreachable!()
    };
    let start = Instant::now(rt)?;
    place_halves(rt, &seen, &mut first, &mut second, 0, items.len());
    let took = start.elapsed(rt)?;
    seen.join(&mut first, second);
    let firsts = seen.finish(alloc, first)?.len();
    Ok(Found { firsts, took })
}

// Places with four seats, each on a thread of its own.
fn place_quarters<S: Eq + Hash + Sync, R: Threads + Sync>(
    rt: &R,
    seen: &Seen<'_, S>,
    count: usize,
    a: &mut SeenSeat,
    b: &mut SeenSeat,
    c: &mut SeenSeat,
    d: &mut SeenSeat,
)
    requires own { IsSeatOf S.eq seen.now a.old × IsSeatOf S.eq seen.now b.old × IsSeatOf S.eq seen.now c.old × IsSeatOf S.eq seen.now d.old }
    requires count { count ≡ length (items_of seen.now) }
    ensures own { IsSeatOf S.eq seen.now a.new × IsSeatOf S.eq seen.now b.new × IsSeatOf S.eq seen.now c.new × IsSeatOf S.eq seen.now d.new }
    ensures kept { IsSameSeat (view a.old) (view a.new) × IsSameSeat (view b.old) (view b.new) × IsSameSeat (view c.old) (view c.new) × IsSameSeat (view d.old) (view d.new) }
{
    let middle = count / 2;
    join_mut(
        rt,
        &mut ||
            requires { IsSync R.row × IsSync S.row × IsSeatOf S.eq seen.now a.now × IsSeatOf S.eq seen.now b.now × (middle ≤ length (items_of seen.now)) }
            ensures { IsSeatOf S.eq seen.entry.now a.exit.now × IsSeatOf S.eq seen.entry.now b.exit.now × IsSameSeat (view a.entry.now) (view a.exit.now) × IsSameSeat (view b.entry.now) (view b.exit.now) }
        { place_halves(rt, seen, a, b, 0, middle) },
        &mut ||
            requires { IsSync R.row × IsSync S.row × IsSeatOf S.eq seen.now c.now × IsSeatOf S.eq seen.now d.now × (middle ≤ count) × (count ≤ length (items_of seen.now)) }
            ensures { IsSeatOf S.eq seen.entry.now c.exit.now × IsSeatOf S.eq seen.entry.now d.exit.now × IsSameSeat (view c.entry.now) (view c.exit.now) × IsSameSeat (view d.entry.now) (view d.exit.now) }
        { place_halves(rt, seen, c, d, middle, count) },
    );
}

/// What four seats find.
pub fn by_four<S: Eq + Hash + Sync, R: Threads + Clock + Sync>(
    rt: &R,
    alloc: Global,
    items: &[S],
) -> io::Result<Found> {
    let (seen, mut first) = Seen::new(alloc, items, 4)?;
    let Ok(mut second) = seen.split(&mut first) else {
        unreachable!()
    };
    let Ok(mut third) = seen.split(&mut first) else {
        unreachable!()
    };
    let Ok(mut fourth) = seen.split(&mut first) else {
        unreachable!()
    };
    let start = Instant::now(rt)?;
    place_quarters(
        rt,
        &seen,
        items.len(),
        &mut first,
        &mut second,
        &mut third,
        &mut fourth,
    );
    let took = start.elapsed(rt)?;
    seen.join(&mut first, second);
    seen.join(&mut first, third);
    seen.join(&mut first, fourth);
    let firsts = seen.finish(alloc, first)?.len();
    Ok(Found { firsts, took })
}
