//! `place` alone compares and hashes.
ghost use Rattle.std.specs.Prelude.{◌≡◌, ◌==◌};
ghost use Rattle.std.specs.Hash as fed;
ghost use Rattle.std.proofs.Common.{rules};
ghost use Rattle.shared.specs.SeenRule.{IsSameSeat};
ghost use Rattle.shared.specs.SeenSeats.{view, items_of, IsSeatOf};

use super::items::place_all;
use shared::{Seen, SeenSeat};
use std::alloc::{AllocError, Global};
use std::hash::{Hash, Hasher};
use std::sync::atomic::AtomicU64;
use std::sync::atomic::Ordering::SeqCst;
use std::test::Fail;
use std::thread::join_mut;

// A number that counts in a shared word how often it is compared or hashed.
#[derive(Drop)]
struct Counted<'a> {
    number: u64,
    uses: &'a AtomicU64,
}

impl<'a> PartialEq for Counted<'a> {
    ghost eq = { λ a b. a.number == b.number };

    ghost laws = { Prim.search rules };

    fn eq(&self, other: &Self) -> bool {
        self.uses.fetch_add(1, SeqCst);
        self.number == other.number
    }
}

impl<'a> Eq for Counted<'a> {
    ghost laws = { Prim.search rules };
}

impl<'a> Hash for Counted<'a> {
    ghost hash_input = { λ item. fed.u64 item.number };

    ghost respects_eq = { Prim.search rules };

    fn hash<H: Hasher>(&self, state: &mut H) {
        self.uses.fetch_add(1, SeqCst);
        state.write_u64(self.number);
    }
}

const PAIRS: usize = 500;

/// Numbers that stand twice each.
fn pairs<'a>(alloc: Global, uses: &'a AtomicU64) -> Result<Vec<Counted<'a>>, AllocError> {
    let mut items = Vec::new(alloc);
    for position in 0..2 * PAIRS {
        let number = (position % PAIRS) as u64;
        items.push(Counted { number, uses })?;
    }
    Ok(items)
}

/// The positions from one on, before another.
fn positions(alloc: Global, from: usize, to: usize) -> Result<Vec<usize>, AllocError> {
    let mut positions = Vec::new(alloc);
    for position in from..to {
        positions.push(position)?;
    }
    Ok(positions)
}

#[test]
fn only_place_compares_and_hashes(rt: HostRuntime) -> Result<(), Fail> {
    let uses = AtomicU64::new(0);
    let items = pairs(rt.alloc(), &uses)?;
    let low = positions(rt.alloc(), 0, PAIRS)?;
    let high = positions(rt.alloc(), PAIRS, 2 * PAIRS)?;
    let count = items.len();
    let (seen, mut a) = Seen::new(rt.alloc(), items.as_slice(), 2)?;
    let Ok(mut b) = seen.split(&mut a) else {
        unreachable!()
    };
    assert!(rt; uses.load(SeqCst) == 0, "`new` and `split`");
    join_mut(
        &rt,
        &mut || place_all(&seen, &mut a, count, low.as_slice()),
        &mut || place_all(&seen, &mut b, count, high.as_slice()),
    );
    let placed = uses.load(SeqCst);
    assert!(rt; placed >= 2 * PAIRS as u64, "`place` hashes each item");
    seen.join(&mut a, b);
    let firsts = seen.finish(rt.alloc(), a)?;
    assert!(rt; uses.load(SeqCst) == placed, "`join` and `finish`");
    assert!(rt; firsts.len() == PAIRS, "the first of each pair");
    Ok(())
}
