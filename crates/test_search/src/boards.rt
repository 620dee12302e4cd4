//! Boards.
ghost use Rattle.std.specs.Prelude.{◌≡◌, true, false, IfOk};
ghost use Rattle.std.specs.Thread.{IsSync};
ghost use Rattle.shared.specs.BoardSeats.{view, IsSeatOf};

use shared::{Board, BoardSeat};
use std::alloc::{AllocError, Global};
use std::test::Fail;
use std::thread::{Threads, join_mut};

// The numbers that a seat draws until it finds none left.
fn draw_all(alloc: Global, board: &Board, seat: &mut BoardSeat) -> Result<Vec<u64>, AllocError>
    requires own { IsSeatOf board.now seat.old }
    requires going { (view seat.old).ended ≡ false }
    ensures own { IsSeatOf board.now seat.new }
    ensures kept { (view seat.new).first ≡ (view seat.old).first }
{
    let mut drawn = Vec::new(alloc);
    for _turn in 0..u64::MAX {
        let Some(piece) = board.draw(seat) else {
            break;
        };
        drawn.push(piece)?;
    }
    Ok(drawn)
}

// What each of two seats draws, on a thread of its own.
fn drawn_by_two<R: Threads + Sync>(
    rt: &R,
    alloc: Global,
    board: &Board,
    one: &mut BoardSeat,
    other: &mut BoardSeat,
) -> (Result<Vec<u64>, AllocError>, Result<Vec<u64>, AllocError>)
    requires own { IsSeatOf board.now one.old × IsSeatOf board.now other.old }
    requires going { ((view one.old).ended ≡ false) × ((view other.old).ended ≡ false) }
{
    join_mut(
        rt,
        &mut || draw_all(alloc, board, one),
        &mut || draw_all(alloc, board, other),
    )
}

// What each of four seats draws, on a thread of its own.
fn drawn_by_all<R: Threads + Sync>(
    rt: &R,
    alloc: Global,
    board: &Board,
    a: &mut BoardSeat,
    b: &mut BoardSeat,
    c: &mut BoardSeat,
    d: &mut BoardSeat,
) -> Result<[Vec<u64>; 4], AllocError>
    requires own { IsSeatOf board.now a.old × IsSeatOf board.now b.old × IsSeatOf board.now c.old × IsSeatOf board.now d.old }
    requires going { ((view a.old).ended ≡ false) × ((view b.old).ended ≡ false) × ((view c.old).ended ≡ false) × ((view d.old).ended ≡ false) }
{
    let ((a, b), (c, d)) = join_mut(
        rt,
        &mut || -> (Result<Vec<u64>, AllocError>, Result<Vec<u64>, AllocError>)
            requires { IsSync R.row × IsSeatOf board.now a.now × IsSeatOf board.now b.now × ((view a.now).ended ≡ false) × ((view b.now).ended ≡ false) }
        { drawn_by_two(rt, alloc, board, a, b) },
        &mut || -> (Result<Vec<u64>, AllocError>, Result<Vec<u64>, AllocError>)
            requires { IsSync R.row × IsSeatOf board.now c.now × IsSeatOf board.now d.now × ((view c.now).ended ≡ false) × ((view d.now).ended ≡ false) }
        { drawn_by_two(rt, alloc, board, c, d) },
    );
    Ok([a?, b?, c?, d?])
}

fn drawn_by_four<R: Threads + Sync>(
    rt: &R,
    alloc: Global,
    pieces: u32,
) -> Result<[Vec<u64>; 4], AllocError> {
    let (board, mut first) = Board::new(alloc, pieces as u64, 4)?;
    let Ok(mut second) = board.split(&mut first) else {
        unreachable!()
    };
    let Ok(mut third) = board.split(&mut first) else {
        unreachable!()
    };
    let Ok(mut fourth) = board.split(&mut first) else {
        unreachable!()
    };
    drawn_by_all(
        rt,
        alloc,
        &board,
        &mut first,
        &mut second,
        &mut third,
        &mut fourth,
    )
}

#[test]
fn four_threads_draw_each_piece_once(rt: HostRuntime) -> Result<(), Fail> {
    let mut times = [0u8; 1000];
    let drawn = drawn_by_four(&rt, rt.alloc(), 1000)?;
    for pieces in &drawn {
        for piece in pieces {
            let at = *piece as usize;
            assert!(rt; at < 1000 && times[at] == 0, "{piece}");
            times[at] = 1;
        }
    }
    assert!(rt; times == [1; 1000], "each was drawn");
    Ok(())
}

#[test]
fn one_of_two_seats_draws_alone(rt: HostRuntime) -> Result<(), Fail> {
    let (board, mut first) = Board::new(rt.alloc(), 5, 2)?;
    let Ok(mut second) = board.split(&mut first) else {
        unreachable!()
    };
    assert!(rt; !Board::ended(&second), "before");
    let drawn = draw_all(rt.alloc(), &board, &mut second)?;
    assert!(rt;
        drawn.as_slice() == [0, 1, 2, 3, 4].as_slice(),
        "and then none"
    );
    assert!(rt; Board::ended(&second) && !Board::ended(&first), "after");
    board.join(&mut first, second);
    assert!(rt; !board.finish(first), "nobody raised");
    Ok(())
}

#[test]
fn no_pieces_are_drawn_at_once(rt: HostRuntime) -> Result<(), Fail> {
    let (board, mut only) = Board::new(rt.alloc(), 0, 1)?;
    assert!(rt; board.draw(&mut only).is_none());
    Ok(())
}

#[test]
fn a_seat_sees_what_another_raised(rt: HostRuntime) -> Result<(), Fail> {
    let (board, mut first) = Board::new(rt.alloc(), 5, 2)?;
    let Ok(mut second) = board.split(&mut first) else {
        unreachable!()
    };
    assert!(rt; !board.raised(&mut second), "before");
    assert!(rt; board.draw(&mut first) == Some(0), "the first piece");
    board.raise(&mut first);
    assert!(rt; board.raised(&mut second), "after");
    board.join(&mut first, second);
    assert!(rt; board.finish(first), "it was raised");
    Ok(())
}

#[test]
fn refuses_a_seat_where_all_are_made(rt: HostRuntime) -> Result<(), Fail> {
    let (board, mut first) = Board::new(rt.alloc(), 5, 2)?;
    assert!(rt; board.split(&mut first).is_ok(), "the second of two");
    assert!(rt; board.split(&mut first).is_err(), "a third");
    Ok(())
}
