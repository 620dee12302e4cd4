//! Tables of first positions.
ghost use Rattle.std.specs.Prelude.{◌≡◌, ◌+◌, ◌<◌, length, true, false, IfOk};
ghost use Rattle.std.specs.Thread.{IsSync};
ghost use Rattle.shared.specs.SeenRule.{IsSameSeat};
ghost use Rattle.shared.specs.SeenSeats.{view, items_of, IsSeatOf};

use shared::{Seen, SeenSeat};
use std::alloc::{AllocError, Global};
use std::hash::Hash;
use std::test::Fail;
use std::thread::{Threads, join_mut};

// Places those of the positions that there are.
pub(super) fn place_all<S: Eq + Hash>(
    seen: &Seen<'_, S>,
    seat: &mut SeenSeat,
    count: usize,
    positions: &[usize],
)
    requires own { IsSeatOf S.eq seen.now seat.old }
    requires count { count ≡ length (items_of seen.now) }
    ensures own { IsSeatOf S.eq seen.now seat.new }
    ensures kept { IsSameSeat (view seat.old) (view seat.new) }
{
    for position in positions {
        if *position < count {
            seen.place(seat, *position);
        }
    }
}

// Places with two seats, each on a thread of its own.
fn place_by_two<S: Eq + Hash + Sync, R: Threads + Sync>(
    rt: &R,
    seen: &Seen<'_, S>,
    count: usize,
    one: &mut SeenSeat,
    a: &[usize],
    other: &mut SeenSeat,
    b: &[usize],
)
    requires own { IsSeatOf S.eq seen.now one.old × IsSeatOf S.eq seen.now other.old }
    requires count { count ≡ length (items_of seen.now) }
    ensures own { IsSeatOf S.eq seen.now one.new × IsSeatOf S.eq seen.now other.new }
    ensures kept { IsSameSeat (view one.old) (view one.new) × IsSameSeat (view other.old) (view other.new) }
{
    join_mut(
        rt,
        &mut || place_all(seen, one, count, a),
        &mut || place_all(seen, other, count, b),
    );
}

// Places with three seats, each on a thread of its own.
fn place_by_three<S: Eq + Hash + Sync, R: Threads + Sync>(
    rt: &R,
    seen: &Seen<'_, S>,
    count: usize,
    first: &mut SeenSeat,
    second: &mut SeenSeat,
    third: &mut SeenSeat,
    placed: &[&[usize]; 3],
)
    requires own { IsSeatOf S.eq seen.now first.old × IsSeatOf S.eq seen.now second.old × IsSeatOf S.eq seen.now third.old }
    requires count { count ≡ length (items_of seen.now) }
    ensures own { IsSeatOf S.eq seen.now first.new × IsSeatOf S.eq seen.now second.new × IsSeatOf S.eq seen.now third.new }
    ensures kept { IsSameSeat (view first.old) (view first.new) × IsSameSeat (view second.old) (view second.new) × IsSameSeat (view third.old) (view third.new) }
{
    let [a, b, c] = *placed;
    join_mut(
        rt,
        &mut || place_all(seen, first, count, a),
        &mut ||
            requires { IsSync R.row × IsSync S.row × IsSeatOf S.eq seen.now second.now × IsSeatOf S.eq seen.now third.now × (count ≡ length (items_of seen.now)) }
            ensures { IsSeatOf S.eq seen.entry.now second.exit.now × IsSeatOf S.eq seen.entry.now third.exit.now × IsSameSeat (view second.entry.now) (view second.exit.now) × IsSameSeat (view third.entry.now) (view third.exit.now) }
        { place_by_two(rt, seen, count, second, b, third, c) },
    );
}

// What three threads find that place these positions.
fn found_by_three<S: Eq + Hash + Sync, R: Threads + Sync>(
    rt: &R,
    alloc: Global,
    items: &[S],
    placed: &[&[usize]; 3],
) -> Result<Vec<u64>, AllocError> {
    let (seen, mut first) = Seen::new(alloc, items, 3)?;
    let Ok(mut second) = seen.split(&mut first) else {
        unreachable!()
    };
    let Ok(mut third) = seen.split(&mut first) else {
        unreachable!()
    };
    let count = items.len();
    place_by_three(
        rt,
        &seen,
        count,
        &mut first,
        &mut second,
        &mut third,
        placed,
    );
    seen.join(&mut first, second);
    seen.join(&mut first, third);
    seen.finish(alloc, first)
}

struct Row {
    items: &'static [u8],
    placed: [&'static [usize]; 3],
    firsts: &'static [u64],
}

const ROWS: [Row; 5] = [
    Row {
        items: b"ababa",
        placed: [&[4, 3], &[2, 1], &[0]],
        firsts: &[0, 1],
    },
    Row {
        items: b"ababa",
        placed: [&[], &[], &[]],
        firsts: &[],
    },
    Row {
        items: b"aaaaaa",
        placed: [&[5, 4], &[3, 2], &[1, 0]],
        firsts: &[0],
    },
    Row {
        items: b"aaaaaa",
        placed: [&[5], &[4], &[3]],
        firsts: &[3],
    },
    Row {
        items: b"abc",
        placed: [&[2], &[0], &[]],
        firsts: &[0, 2],
    },
];

#[test]
fn three_threads_find_the_first_positions(rt: HostRuntime) -> Result<(), Fail> {
    for row in &ROWS {
        let found = found_by_three(&rt, rt.alloc(), row.items, &row.placed)?;
        assert!(rt; found.as_slice() == row.firsts, "{:?}", row.placed);
    }
    Ok(())
}

#[test]
fn refuses_a_seat_where_all_are_made(rt: HostRuntime) -> Result<(), Fail> {
    let (seen, mut first) = Seen::new(rt.alloc(), b"ab", 3)?;
    assert!(rt; seen.split(&mut first).is_ok(), "the second of three");
    assert!(rt; seen.split(&mut first).is_ok(), "the third of three");
    assert!(rt; seen.split(&mut first).is_err(), "a fourth");
    let (seen, mut only) = Seen::new(rt.alloc(), b"ab", 1)?;
    assert!(rt; seen.split(&mut only).is_err(), "a second");
    Ok(())
}

#[test]
fn answers_the_least_position_so_far(rt: HostRuntime) -> Result<(), Fail> {
    let (seen, mut a) = Seen::new(rt.alloc(), b"xxx", 2)?;
    let Ok(mut b) = seen.split(&mut a) else {
        unreachable!()
    };
    let answers = [
        seen.place(&mut a, 1),
        seen.place(&mut b, 2),
        seen.place(&mut a, 0),
        seen.place(&mut b, 2),
    ];
    assert!(rt; answers == [1, 1, 0, 0]);
    seen.join(&mut a, b);
    let firsts = seen.finish(rt.alloc(), a)?;
    assert!(rt; firsts.as_slice() == [0].as_slice());
    Ok(())
}
