//! Lists by positions.
use crate::letter::Letter;
use graph_numbers::{Fixed, Lists};
use std::process::Abort;
use std::test::Fail;

/// The numbers of a list, each read as a digit.
fn digits(rt: &impl Abort, lists: &Fixed<Letter>, at: usize) -> u64 {
    let mut read = 0_u64;
    let mut left = at;
    for _ in 0..lists.len() {
        assert!(rt; left < lists.len());
        if let Some((letter, rest)) = lists.first(left) {
            read = read.wrapping_mul(10).wrapping_add(u64::from(letter.number));
            left = rest;
        }
    }
    read
}

/// Puts a letter before a list.
fn put(
    rt: &impl Abort,
    lists: &mut Lists<Letter>,
    number: u32,
    rest: usize,
) -> Result<usize, Fail> {
    assert!(rt; rest < lists.len());
    Ok(lists.put(Letter { number }, rest)?)
}

/// The positions of 3, 23, 123 and 13.
fn positions(rt: &impl Abort, lists: &mut Lists<Letter>) -> Result<[usize; 4], Fail> {
    let three = put(rt, lists, 3, 0)?;
    let two = put(rt, lists, 2, three)?;
    let one = put(rt, lists, 1, two)?;
    Ok([three, two, one, put(rt, lists, 1, three)?])
}

#[test]
fn equal_lists_have_one_position(rt: HostRuntime) -> Result<(), Fail> {
    let mut lists = Lists::new(rt.alloc());
    let first = positions(&rt, &mut lists)?;
    assert_eq!(rt; first, positions(&rt, &mut lists)?);
    assert_eq!(rt; lists.len(), 5);
    let fixed = lists.fix(rt.alloc())?;
    assert_eq!(rt; fixed.len(), 5);
    let read = first.map(|at| digits(&rt, &fixed, at));
    assert_eq!(rt; read, [3, 23, 123, 13]);
    assert!(rt; fixed.first(0).is_none());
    Ok(())
}

#[test]
fn many_lists(rt: HostRuntime) -> Result<(), Fail> {
    let mut lists = Lists::new(rt.alloc());
    for _ in 0..2 {
        let mut last = 0;
        for number in 0..100_000 {
            last = put(&rt, &mut lists, number, last)?;
        }
        assert_eq!(rt; last, 100_000);
        assert_eq!(rt; lists.len(), 100_001);
    }
    Ok(())
}
