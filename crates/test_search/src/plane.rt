//! A system that leaves out the states which its search finds without them.
ghost use Rattle.std.specs.Prelude.{◌≡◌, ◌<◌};
ghost use Rattle.test_search.specs.Plane.{plane, plane_same, plane_ascends, plane_after, plane_first, plane_mark};

use explore::{NoGate, Plan, Sparing, explore};
use std::alloc::{AllocError, Global};
use std::sync::atomic::AtomicU64;
use std::sync::atomic::Ordering::SeqCst;
use std::test::Fail;
use summary::{System, Verdicts};

/// The nine points of a plane. Label 0 leads down, label 1 to the right. Each state that is made is counted.
#[derive(Drop)]
struct Plane<'a> {
    made: &'a AtomicU64,
}

impl<'a> System for Plane<'a> {
    type State = u8;

    type Label = u8;

    ghost graph = { λ it. plane };

    ghost fits = { λ it state. state < 9 };

    ghost same = { λ it s t f h e. plane_same s t e };

    ghost ascending = { λ it s f. plane_ascends s };

    ghost first_fits = { λ it. plane_first };

    ghost after_fits = { λ it s l f c. plane_after s l f c };

    ghost marks_below_8 = { λ it s f. plane_mark s };

    fn start(&self, _alloc: Global) -> Result<u8, AllocError> {
        Ok(0)
    }

    fn labels(&self, alloc: Global, state: &u8) -> Result<Vec<u8>, AllocError> {
        match (*state < 6, *state % 3 < 2) {
            (true, true) => Vec::from_slice(alloc, &[0, 1]),
            (true, false) => Vec::from_slice(alloc, &[0]),
            (false, true) => Vec::from_slice(alloc, &[1]),
            (false, false) => Ok(Vec::new(alloc)),
        }
    }

    fn next(&self, _alloc: Global, state: &u8, label: &u8) -> Result<u8, AllocError> {
        self.made.fetch_add(1, SeqCst);
        Ok(if *label == 0 { *state + 3 } else { *state + 1 })
    }

    fn copy(&self, _alloc: Global, label: &u8) -> Result<u8, AllocError> {
        Ok(*label)
    }

    fn mark(&self, state: &u8) -> Option<u8> {
        if *state == 8 { Some(0) } else { None }
    }
}

/// What lies down from a point that was reached by going to the right is reached by going down first.
impl<'a> Sparing for Plane<'a> {
    fn sparing_successors(
        &self,
        alloc: Global,
        state: &u8,
        _before: &u8,
        last: &u8,
    ) -> Result<Vec<(u8, Option<u8>)>, AllocError> {
        let mut found = Vec::new(alloc);
        for label in self.labels(alloc, state)? {
            if label < *last {
                found.push((label, None))?;
            } else {
                let after = self.next(alloc, state, &label)?;
                found.push((label, Some(after)))?;
            }
        }
        Ok(found)
    }
}

/// Of the twelve steps between the points, eight make a state: one for each point but the first.
#[test]
fn states_that_are_left_out_are_found(rt: HostRuntime) -> Result<(), Fail> {
    for (workers, piece) in [(1, 256), (2, 1), (4, 2)] {
        let plan = Plan {
            steps: 10,
            limit: 9,
            workers,
            piece,
        };
        let made = AtomicU64::new(0);
        let answer = explore::<Plane<'_>, Verdicts, NoGate, HostRuntime>(
            &rt,
            rt.alloc(),
            &Plane { made: &made },
            &plan,
            &NoGate,
        )?;
        assert!(rt; answer.count == 9 && answer.complete, "{workers} workers");
        let Some(labels) = &answer.best[0] else {
            panic!(rt; "no run ends in the last point");
        };
        assert!(rt; labels.as_slice() == [0, 0, 1, 1].as_slice());
        assert!(rt; made.load(SeqCst) == 8, "{workers} workers");
    }
    Ok(())
}
