//! A light of three states, whose branches and blocked components are given by hand.
ghost use Rattle.std.specs.Prelude.{◌≡◌, ◌==◌, ◌+◌, [], ◌∷◌, None, Some, if◌then◌else◌};
ghost use Rattle.std.proofs.Common.{arith};
ghost use Rattle.std.proofs.lemmas.Bool.{eqb-true as nat_is};
ghost use Rattle.summary.specs.Ties.{both_tie};
ghost use Rattle.std.specs.FinSet.{nat_cmp-IsAntisymmetric as number_one};

use std::alloc::{AllocError, Global};
use std::process::Abort;
use std::test::Fail;
use summary::{Blocked, Branches, Key, Located, OrderedSet, Summary, System};

/// Label 0 leads from state 0 to 1, from there to 2, and from there to 0.
#[derive(Drop)]
pub(super) struct Light;

impl System for Light {
    type State = u8;

    type Label = u8;

    ghost graph = { λ light. record {
      first = 0;
      enabled = λ s. 0 ∷ [];
      after = λ s l. if s == 0 then 1 else if s == 1 then 2 else 0;
      mark = λ s. None;
    } };

    ghost fits = { λ light state. Unit {0} };

    ghost same = { λ light s t f h e. nat_is s t e };

    ghost ascending = { λ light s f. λ i j d h k. absurd (Prim.omega arith) };

    ghost first_fits = { λ light. tt };

    ghost after_fits = { λ light s l f c. tt };

    ghost marks_below_8 = { λ light s f. tt };

    fn start(&self, _alloc: Global) -> Result<u8, AllocError> {
        Ok(0)
    }

    fn labels(&self, alloc: Global, _state: &u8) -> Result<Vec<u8>, AllocError> {
        Vec::from_slice(alloc, &[0])
    }

    fn next(&self, _alloc: Global, state: &u8, _label: &u8) -> Result<u8, AllocError> {
        Ok(match *state {
            0 => 1,
            1 => 2,
            _ => 0,
        })
    }

    fn copy(&self, _alloc: Global, label: &u8) -> Result<u8, AllocError> {
        Ok(*label)
    }

    fn mark(&self, _state: &u8) -> Option<u8> {
        None
    }
}

/// The step from state 1 takes branch 7, that from 2 takes branch 5. In state 2 the components 10 and 30 are blocked.
impl Located for Light {
    type Branch = u16;

    type Standing = u32;

    ghost branch = { λ light state label. if state == 1 then Some 7 else if state == 2 then Some 5 else None };

    ghost blocked = { λ light state. if state == 2 then 30 ∷ 10 ∷ 30 ∷ [] else [] };

    fn branch(&self, _alloc: Global, state: &u8, _label: &u8) -> Result<Option<u16>, AllocError> {
        Ok(match *state {
            1 => Some(7),
            2 => Some(5),
            _ => None,
        })
    }

    fn blocked(&self, alloc: Global, state: &u8) -> Result<Vec<u32>, AllocError> {
        if *state == 2 {
            Vec::from_slice(alloc, &[30, 10, 30])
        } else {
            Ok(Vec::new(alloc))
        }
    }
}

/// What a walk of so many steps tells.
fn walk<S: Summary<Light>>(alloc: Global, steps: u8) -> Result<S, AllocError> {
    let mut state = Light.start(alloc)?;
    let mut told = S::at(alloc, &Light, &state)?.join(alloc, S::empty(alloc)?)?;
    for _step in 0..steps {
        let by = S::by(alloc, &Light, &state, &0)?;
        state = Light.next(alloc, &state, &0)?;
        told = told
            .join(alloc, by)?
            .join(alloc, S::at(alloc, &Light, &state)?)?;
    }
    Ok(told)
}

#[test]
fn branches_of_a_walk(rt: HostRuntime) -> Result<(), Fail> {
    for (steps, places) in [
        (0, [].as_slice()),
        (1, &[]),
        (2, &[7]),
        (3, &[5, 7]),
        (9, &[5, 7]),
    ] {
        let told: Branches<u16> = walk(rt.alloc(), steps)?;
        assert!(rt; told.places.as_slice() == places, "{steps} steps: {told:?}");
    }
    Ok(())
}

#[test]
fn components_blocked_in_a_walk(rt: HostRuntime) -> Result<(), Fail> {
    for (steps, components) in [(0, [].as_slice()), (1, &[]), (2, &[10, 30]), (9, &[10, 30])] {
        let told: Blocked<u32> = walk(rt.alloc(), steps)?;
        assert!(rt;
            told.components.as_slice() == components,
            "{steps} steps: {told:?}"
        );
    }
    Ok(())
}

/// A place in a text.
#[derive(Clone, Copy, Debug, PartialEq, Eq, PartialOrd, Ord)]
struct Place {
    line: u32,
    column: u32,
}

impl Key for Place {
    ghost one = { λ a b h. let ties = both_tie _ _ h in λ i. record { line = number_one a.line b.line ties.0 i; column = number_one a.column b.column ties.1 i } };
}

/// The set of a list's keys, through the bound.
fn set_of<T: Key + Copy>(alloc: Global, keys: &[T]) -> Result<OrderedSet<T>, AllocError> {
    Ok(OrderedSet::from_list(Vec::from_slice(alloc, keys)?))
}

fn check_union(
    rt: &impl Abort,
    alloc: Global,
    first: &[u64],
    second: &[u64],
    both: &[u64],
) -> Result<(), Fail> {
    let union = set_of(alloc, first)?.union(set_of(alloc, second)?)?;
    assert!(rt;
        union.as_slice() == both,
        "{first:?}, {second:?}: {union:?}"
    );
    Ok(())
}

#[test]
fn sets_of_keys(rt: HostRuntime) -> Result<(), Fail> {
    let alloc = rt.alloc();
    let none: OrderedSet<u64> = OrderedSet::new(alloc);
    assert!(rt; none.as_slice().is_empty());
    assert!(rt; OrderedSet::of(alloc, 4_u8)?.as_slice() == [4].as_slice());
    check_union(&rt, alloc, &[], &[], &[])?;
    check_union(&rt, alloc, &[2, 1, 2], &[], &[1, 2])?;
    check_union(&rt, alloc, &[], &[2, 1, 2], &[1, 2])?;
    check_union(&rt, alloc, &[3, 5, 9], &[5], &[3, 5, 9])?;
    check_union(&rt, alloc, &[3, 9], &[10, 5, 1, 9], &[1, 3, 5, 9, 10])?;
    check_union(&rt, alloc, &[10, 5, 1, 9], &[3, 9], &[1, 3, 5, 9, 10])
}

#[test]
fn sets_of_places(rt: HostRuntime) -> Result<(), Fail> {
    let early = Place { line: 3, column: 8 };
    let late = Place { line: 4, column: 1 };
    let places = set_of(rt.alloc(), &[late, early, late])?;
    assert!(rt; places.as_slice() == [early, late].as_slice());
    let pairs = set_of(rt.alloc(), &[(1_usize, 5_u16), (0, 9), (1, 5)])?;
    assert!(rt; pairs.as_slice() == [(0, 9), (1, 5)].as_slice());
    Ok(())
}
