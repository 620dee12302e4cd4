//! Sets of numbers.
ghost use Rattle.std.specs.Prelude.{◌<◌};

use search_shards::ShardedSet;
use std::alloc::{AllocError, Global};
use std::test::Fail;
use std::thread::Threads;

/// Adds three times each number from one up to another, where it is not in the set.
fn add_between(set: &mut ShardedSet<u64>, from: u64, to: u64) -> Result<(), AllocError> {
    for number in from..to {
        let value = number.wrapping_mul(3);
        if !set.contains(&value) {
            let shard = set.shard_of(&value);
            set.push(shard, value)?;
        }
    }
    Ok(())
}

/// How many of the numbers below a bound are in the set.
fn count_below(set: &ShardedSet<u64>, bound: u64) -> u64 {
    let mut count: u64 = 0;
    for value in 0..bound {
        count = count.wrapping_add(u64::from(set.contains(&value)));
    }
    count
}

/// Whether value number `n` is three times `n`, for each `n`.
fn are_in_order(set: &ShardedSet<u64>) -> bool {
    for index in 0..set.len() {
        if set[index] != (index as u64).wrapping_mul(3) {
            return false;
        }
    }
    true
}

/// A set of so many shards, to which numbers are added before and after it settles.
fn filled<R: Threads + Sync>(
    rt: &R,
    alloc: Global,
    shards: usize,
) -> Result<ShardedSet<u64>, AllocError>
    requires { 0 < shards }
{
    let mut set = ShardedSet::new(alloc, shards)?;
    add_between(&mut set, 0, 300)?;
    let mut set = set.settle(rt)?;
    add_between(&mut set, 100, 3_000)?;
    let mut set = set.settle(rt)?;
    add_between(&mut set, 2_990, 3_100)?;
    Ok(set)
}

#[test]
fn values_are_found_by_one_shard(rt: HostRuntime) -> Result<(), Fail> {
    let set = filled(&rt, rt.alloc(), 1)?;
    assert_eq!(rt; set.len(), 3_100);
    assert_eq!(rt; count_below(&set, 10_000), 3_100);
    assert!(rt; are_in_order(&set));
    set.drop_all(&rt);
    Ok(())
}

#[test]
fn values_are_found_by_many_shards(rt: HostRuntime) -> Result<(), Fail> {
    let set = filled(&rt, rt.alloc(), 7)?;
    assert_eq!(rt; set.len(), 3_100);
    assert_eq!(rt; count_below(&set, 10_000), 3_100);
    assert!(rt; are_in_order(&set));
    set.drop_all(&rt);
    Ok(())
}
