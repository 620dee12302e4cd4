//! The calls of tables and boards: those that ask for memory, and those that ask for none.
use crate::refusals::{Answer, Ending, Order, Refused, end};
use shared::{Board, Seen};
use std::alloc::{AllocError, Global};
use std::rt::Files;

const ITEMS: &[u8; 6] = b"abcabc";

/// A table is made.
pub fn new_table<R: Files>(rt: &R, alloc: Global, order: &Order) -> Ending {
    order.begin(rt);
    let made = Seen::new(alloc, ITEMS, 2);
    let was_refused = end(rt);
    Ending {
        was_refused,
        answer: answer_of(made.is_ok()),
    }
}

/// A board is made.
pub fn new_board<R: Files>(rt: &R, alloc: Global, order: &Order) -> Ending {
    order.begin(rt);
    let made = Board::new(alloc, 3, 2);
    let was_refused = end(rt);
    Ending {
        was_refused,
        answer: answer_of(made.is_ok()),
    }
}

/// The answer of a call that gives something, or that says that it got no memory.
fn answer_of(is_made: bool) -> Answer {
    if is_made {
        Answer::Right
    } else {
        Answer::NoMemory
    }
}

/// The first positions of a table made anew are asked for.
pub fn finish_table<R: Files>(rt: &R, alloc: Global, order: &Order) -> Result<Ending, AllocError> {
    let (seen, mut seat) = Seen::new(alloc, ITEMS, 1)?;
    seen.place(&mut seat, 5);
    seen.place(&mut seat, 4);
    seen.place(&mut seat, 1);
    order.begin(rt);
    let firsts = seen.finish(alloc, seat);
    let was_refused = end(rt);
    let answer = match firsts {
        Ok(firsts) if firsts.as_slice() == [1, 5].as_slice() => Answer::Right,
        Ok(_) => Answer::Other,
        Err(_) => Answer::NoMemory,
    };
    Ok(Ending {
        was_refused,
        answer,
    })
}

/// Whether requests for memory are refused, as they should be where any can be.
fn are_refused(alloc: Global, can_refuse: bool) -> bool {
    Vec::<u8>::with_capacity(alloc, 1).is_err() == can_refuse
}

/// A table is made with ample memory. Then each request is refused, and the calls that ask for none are made: whether they say
/// what they should, and a request behind them was refused if any can be.
pub fn places_without_memory<R: Files>(
    rt: &R,
    alloc: Global,
    can_refuse: bool,
) -> Result<bool, AllocError> {
    let (seen, mut first) = Seen::new(alloc, ITEMS, 2)?;
    let order = Order::new(alloc, Refused::All)?;
    order.begin(rt);
    let Ok(mut second) = seen.split(&mut first) else {
        return Ok(false);
    };
    let placed = [seen.place(&mut first, 3), seen.place(&mut second, 0)];
    seen.join(&mut first, second);
    let are_refused = are_refused(alloc, can_refuse);
    end(rt);
    let firsts = seen.finish(alloc, first)?;
    Ok(placed == [3, 0] && are_refused && firsts.as_slice() == [0].as_slice())
}

/// The same with a board.
pub fn draws_without_memory<R: Files>(
    rt: &R,
    alloc: Global,
    can_refuse: bool,
) -> Result<bool, AllocError> {
    let (board, mut seat) = Board::new(alloc, 1, 2)?;
    let order = Order::new(alloc, Refused::All)?;
    order.begin(rt);
    let Ok(mut other) = board.split(&mut seat) else {
        return Ok(false);
    };
    let drawn = [board.draw(&mut other), board.draw(&mut seat)];
    board.raise(&mut other);
    let raised = board.raised(&mut seat);
    let ended = Board::ended(&seat);
    board.join(&mut seat, other);
    let was_raised = board.finish(seat);
    let are_refused = are_refused(alloc, can_refuse);
    end(rt);
    Ok(drawn == [Some(0), None] && raised && ended && was_raised && are_refused)
}
