//! Rings: what is found of them, and which plans are refused.
use explore::example::{Residues, Ring, Turns};
use explore::{
    Answer, Ending, ExploreError, NoGate, Plan, Reached, Sighting, Stops, explore, explore_until,
    explore_watched,
};
use std::alloc::Global;
use std::process::Abort;
use std::test::Fail;
use std::thread::Threads;
use summary::{Both, SmallSet, Verdicts};

type Shown = Both<Residues, Both<Turns, Verdicts>>;

/// What an exploration of a ring answers, its sets as texts.
struct Row {
    size: u32,
    steps: u64,
    count: u64,
    complete: bool,
    residues: [bool; 4],
    turns: [bool; 2],
    best: Option<&'static [u8]>,
}

const N: bool = false;

const Y: bool = true;

#[rattlefmt::skip]
const ROWS: [Row; 8] = [
    Row { size: 10, steps: 0, count: 1, complete: false, residues: [Y, N, N, N], turns: [N, N], best: None },
    Row { size: 10, steps: 1, count: 2, complete: false, residues: [Y, Y, N, N], turns: [Y, Y], best: None },
    Row { size: 10, steps: 2, count: 3, complete: false, residues: [Y, Y, Y, N], turns: [Y, Y], best: None },
    Row { size: 10, steps: 4, count: 8, complete: false, residues: [Y, Y, Y, Y], turns: [Y, Y], best: None },
    Row { size: 10, steps: 5, count: 10, complete: false, residues: [Y, Y, Y, Y], turns: [Y, Y], best: Some(&[0, 0, 1, 1, 0]) },
    Row { size: 10, steps: 6, count: 10, complete: true, residues: [Y, Y, Y, Y], turns: [Y, Y], best: Some(&[0, 0, 1, 1, 0]) },
    Row { size: 1, steps: 0, count: 1, complete: false, residues: [Y, N, N, N], turns: [N, N], best: Some(&[]) },
    Row { size: 1, steps: 1, count: 1, complete: true, residues: [Y, N, N, N], turns: [Y, Y], best: Some(&[]) },
];

/// Workers, and how many candidates a piece has.
const CUTS: [(u64, u64); 5] = [(1, 256), (2, 1), (5, 2), (64, 1), (64, 65_536)];

/// Whether the set holds just those numbers whose place says so.
fn is_set(set: &SmallSet, wanted: &[bool]) -> bool {
    let mut number = 0u8;
    for is_in in wanted {
        if set.contains(number) != *is_in {
            return false;
        }
        number = number.saturating_add(1);
    }
    true
}

/// Whether the run for mark 0 is the wanted one, and no other mark has one.
fn is_best(best: &[Option<Vec<u8>>], wanted: Option<&[u8]>) -> bool {
    match best.split_first() {
        Some((Some(labels), others)) => {
            wanted == Some(labels.as_slice()) && others.iter().all(|run| run.is_none())
        }
        Some((None, others)) => wanted.is_none() && others.iter().all(|run| run.is_none()),
        None => false,
    }
}

fn is_row(answer: &Answer<Shown, u8>, row: &Row) -> bool {
    answer.count == row.count
        && answer.complete == row.complete
        && is_set(&answer.summary.first.residues, &row.residues)
        && is_set(&answer.summary.second.first.taken, &row.turns)
        && is_set(&answer.summary.second.second.marks, &[row.best.is_some()])
        && is_best(answer.best.as_slice(), row.best)
}

pub(super) fn ring(rt: &impl Abort, size: u32) -> Ring {
    assert!(rt; 1 <= size && size <= 1_000_000);
    Ring::new(size)
}

fn check_row<R: Threads + Sync + Abort>(
    rt: &R,
    alloc: Global,
    row: &Row,
    workers: u64,
    piece: u64,
) -> Result<(), Fail> {
    let plan = Plan {
        steps: row.steps,
        limit: 1_000_000,
        workers,
        piece,
    };
    let answer = explore::<Ring, Shown, NoGate, R>(rt, alloc, &ring(rt, row.size), &plan, &NoGate)?;
    let (size, steps) = (row.size, row.steps);
    assert!(rt; is_row(&answer, row), "ring {size} at {steps} steps");
    Ok(())
}

#[test]
fn rings_are_explored(rt: HostRuntime) -> Result<(), Fail> {
    for row in &ROWS {
        for (workers, piece) in CUTS {
            check_row(&rt, rt.alloc(), row, workers, piece)?;
        }
    }
    Ok(())
}

/// How many states are counted, or why there is no answer.
fn count<R: Threads + Sync + Abort>(
    rt: &R,
    alloc: Global,
    size: u32,
    plan: &Plan,
) -> Result<u64, ExploreError> {
    let answer = explore::<Ring, Verdicts, NoGate, R>(rt, alloc, &ring(rt, size), plan, &NoGate)?;
    Ok(answer.count)
}

pub(super) const PLAN: Plan = Plan {
    steps: 5,
    limit: 1_000_000,
    workers: 1,
    piece: 256,
};

#[test]
fn the_limit_is_exact(rt: HostRuntime) {
    let within = Plan { limit: 10, ..PLAN };
    assert_eq!(rt; count(&rt, rt.alloc(), 10, &within), Ok(10));
    let beyond = Plan { limit: 9, ..PLAN };
    assert_eq!(rt;
        count(&rt, rt.alloc(), 10, &beyond),
        Err(ExploreError::TooMany)
    );
}

/// How far a ring of ten is explored, how many states are counted, and why no further.
fn extent<R: Threads + Sync + Abort>(
    rt: &R,
    alloc: Global,
    plan: &Plan,
    stops: &Stops,
) -> Result<(u64, u64, Ending), ExploreError> {
    let system = ring(rt, 10);
    let reached: Reached<Verdicts, u8> = explore_until::<Ring, Verdicts, NoGate, R>(
        rt, alloc, &system, plan, stops, &NoGate,
    )?;
    Ok((reached.steps, reached.answer.count, reached.ending))
}

#[test]
fn an_exploration_ends_where_it_is_to(rt: HostRuntime) {
    let far = Plan { steps: 100, ..PLAN };
    let few = Plan { limit: 7, ..far };
    let last = Plan { steps: 6, ..PLAN };
    let limit = Stops {
        at_limit: true,
        ..Stops::NOWHERE
    };
    let complete = Stops {
        when_complete: true,
        ..Stops::NOWHERE
    };
    let mark = Stops {
        at_mark: Some(0),
        ..Stops::NOWHERE
    };
    let unseen = Stops {
        at_mark: Some(1),
        ..Stops::NOWHERE
    };
    for (plan, stops, wanted) in [
        (few, Stops::NOWHERE, Err(ExploreError::TooMany)),
        (few, limit, Ok((3, 5, Ending::Limit))),
        (far, limit, Ok((100, 10, Ending::Steps))),
        (far, complete, Ok((6, 10, Ending::Complete))),
        (far, mark, Ok((5, 10, Ending::Mark))),
        (far, unseen, Ok((100, 10, Ending::Steps))),
        (last, complete, Ok((6, 10, Ending::Complete))),
        (PLAN, complete, Ok((5, 10, Ending::Steps))),
        (PLAN, mark, Ok((5, 10, Ending::Mark))),
        (PLAN, limit, Ok((5, 10, Ending::Steps))),
    ] {
        assert_eq!(rt; extent(&rt, rt.alloc(), &plan, &stops), wanted);
    }
}

/// Whether a sighting has this number and these labels.
fn is_sighting<E: Copy + Into<u32>>(
    sighting: Option<&Sighting<E, u8>>,
    number: u32,
    run: &[u8],
) -> bool {
    match sighting {
        Some(sighting) => sighting.event.into() == number && sighting.run.as_slice() == run,
        None => false,
    }
}

/// Whether these are the two labels, each by the run of itself.
pub(crate) fn are_labels<E: Copy + Into<u32>>(events: &[Sighting<E, u8>]) -> bool {
    events.len() == 2 && is_sighting(events.get(0), 0, &[0]) && is_sighting(events.get(1), 1, &[1])
}

/// Whether these are the four remainders, each by the least of the shortest runs to a state with it.
pub(crate) fn are_remainders<E: Copy + Into<u32>>(stands: &[Sighting<E, u8>]) -> bool {
    stands.len() == 4
        && is_sighting(stands.get(0), 0, &[])
        && is_sighting(stands.get(1), 1, &[0])
        && is_sighting(stands.get(2), 2, &[0, 0])
        && is_sighting(stands.get(3), 3, &[0, 0, 0])
}

#[test]
fn the_least_run_to_each_sight_is_found(rt: HostRuntime) -> Result<(), Fail> {
    let system = ring(&rt, 10);
    let sighted = explore_watched::<Ring, Verdicts, NoGate, HostRuntime>(
        &rt,
        rt.alloc(),
        &system,
        &PLAN,
        &Stops::NOWHERE,
        &NoGate,
    )?;
    assert!(rt; are_labels(sighted.events.as_slice()));
    assert!(rt; are_remainders(sighted.stands.as_slice()));
    Ok(())
}

#[test]
fn a_large_ring_is_explored(rt: HostRuntime) -> Result<(), Fail> {
    for (workers, piece) in [(1, 256), (2, 1), (4, 1), (5, 2), (64, 65_536)] {
        let plan = Plan {
            steps: 20,
            limit: 1_000_000,
            workers,
            piece,
        };
        let answer = explore::<Ring, Verdicts, NoGate, HostRuntime>(
            &rt,
            rt.alloc(),
            &ring(&rt, 1_000_000),
            &plan,
            &NoGate,
        )?;
        assert!(rt; answer.count == 17_711 && !answer.complete, "{plan:?}");
        assert!(rt;
            is_best(answer.best.as_slice(), None),
            "no run of 20 steps ends in the last state"
        );
    }
    Ok(())
}

#[test]
fn more_than_65_536_states_are_found(rt: HostRuntime) {
    // Without the ring, n steps reach the numbers t whose binary form has at most n + 1 digits and ones together: a step
    // for each digit behind the first, and one for each 1. At 24 steps these have 120,651 remainders by 1,000,000.
    let within = Plan {
        steps: 24,
        limit: 120_651,
        ..PLAN
    };
    assert_eq!(rt; count(&rt, rt.alloc(), 1_000_000, &within), Ok(120_651));
    let beyond = Plan {
        limit: 120_650,
        ..within
    };
    assert_eq!(rt;
        count(&rt, rt.alloc(), 1_000_000, &beyond),
        Err(ExploreError::TooMany)
    );
}

#[rattlefmt::skip]
const OUTSIDE: [Plan; 7] = [
    Plan { steps: 100_001, limit: 1_000_000, workers: 1, piece: 256 },
    Plan { steps: 5, limit: 0, workers: 1, piece: 256 },
    Plan { steps: 5, limit: 10_000_001, workers: 1, piece: 256 },
    Plan { steps: 5, limit: 1_000_000, workers: 0, piece: 256 },
    Plan { steps: 5, limit: 1_000_000, workers: 65, piece: 256 },
    Plan { steps: 5, limit: 1_000_000, workers: 1, piece: 0 },
    Plan { steps: 5, limit: 1_000_000, workers: 1, piece: 65_537 },
];

#[rattlefmt::skip]
const WITHIN: [Plan; 2] = [
    Plan { steps: 0, limit: 1, workers: 1, piece: 1 },
    Plan { steps: 100_000, limit: 10_000_000, workers: 64, piece: 65_536 },
];

#[test]
fn plans_outside_the_limits_are_refused(rt: HostRuntime) {
    for plan in &OUTSIDE {
        assert_eq!(rt;
            count(&rt, rt.alloc(), 10, plan),
            Err(ExploreError::BadPlan),
            "{plan:?}"
        );
    }
    for plan in &WITHIN {
        assert_eq!(rt; count(&rt, rt.alloc(), 1, plan), Ok(1), "{plan:?}");
    }
}
