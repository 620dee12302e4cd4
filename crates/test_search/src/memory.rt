//! Want of memory. Under `rt try --test --fail-alloc N` the Nth request for memory of each test is refused, and these
//! tests pass at each N.
use shared::{Board, NoSeat, Seen};
use std::alloc::{AllocError, Global};
use std::test::Fail;

// The first positions of a table made anew.
fn firsts(alloc: Global) -> Result<Vec<u64>, AllocError> {
    let (seen, mut seat) = Seen::new(alloc, b"abab", 1)?;
    seen.place(&mut seat, 3);
    seen.place(&mut seat, 2);
    seen.finish(alloc, seat)
}

#[test]
fn a_refused_table_is_made_anew(rt: HostRuntime) -> Result<(), Fail> {
    let found = match firsts(rt.alloc()) {
        Ok(found) => found,
        Err(_) => firsts(rt.alloc())?,
    };
    assert!(rt; found.as_slice() == [2, 3].as_slice());
    Ok(())
}

#[test]
fn a_refused_board_is_made_anew(rt: HostRuntime) -> Result<(), Fail> {
    let (board, mut seat) = match Board::new(rt.alloc(), 1, 1) {
        Ok(made) => made,
        Err(_) => Board::new(rt.alloc(), 1, 1)?,
    };
    assert!(rt; board.draw(&mut seat) == Some(0));
    Ok(())
}

// Splits, places, joins, draws, raises, looks and ends, and asks for no memory after the two objects are made.
fn calls(alloc: Global) -> Result<Result<[u64; 5], NoSeat>, AllocError> {
    let (seen, mut first) = Seen::new(alloc, b"aa", 2)?;
    let (board, mut seat) = Board::new(alloc, 1, 1)?;
    let mut second = match seen.split(&mut first) {
        Ok(second) => second,
        Err(refused) => return Ok(Err(refused)),
    };
    let one = seen.place(&mut first, 1);
    let zero = seen.place(&mut second, 0);
    seen.join(&mut first, second);
    let drawn = board.draw(&mut seat).unwrap_or(7);
    board.raise(&mut seat);
    let seen_raised = board.raised(&mut seat);
    let raised = board.finish(seat);
    Ok(Ok([one, zero, drawn, seen_raised as u64, raised as u64]))
}

#[test]
fn calls_without_memory_are_not_refused(rt: HostRuntime) {
    if let Ok(answers) = calls(rt.alloc()) {
        assert!(rt; answers.is_ok_and(|answers| answers == [1, 0, 0, 1, 1]));
    }
}
