use check_survey::{Findings, Thing, is_complete, survey};
use std::alloc::{AllocError, Global};
use std::process::Abort;
use std::test::Fail;
use ttcn_syntax::Seq;

const NONE: Findings = Findings::Sizes {
    too_long: None,
    too_heavy: None,
};

const LONG: Findings = Findings::Sizes {
    too_long: Some(0),
    too_heavy: None,
};

const HEAVY: Findings = Findings::Sizes {
    too_long: None,
    too_heavy: Some(0),
};

/// What is found among things that are complete.
fn found(
    rt: &impl Abort,
    alloc: Global,
    things: &[Thing],
    longest: u32,
    heaviest: u32,
) -> Result<Findings, AllocError> {
    assert!(rt; is_complete(things));
    survey(alloc, things, longest, heaviest)
}

/// Things of one part each that refer to these.
fn things_of(alloc: Global, all: &[&[usize]]) -> Result<Vec<Thing>, AllocError> {
    let mut things = Vec::new(alloc);
    for references in all {
        things.push(Thing {
            own: 1,
            references: Seq::from_vec(references.to_vec(alloc)?),
        })?;
    }
    Ok(things)
}

/// Things of one part each, of which each refers that many times to the next.
fn path_of(alloc: Global, count: usize, times: usize) -> Result<Vec<Thing>, AllocError> {
    let mut things = Vec::new(alloc);
    for next in 1..count {
        things.push(Thing {
            own: 1,
            references: Seq::from_vec(vec![in alloc; next; times]?),
        })?;
    }
    Ok(things)
}

/// The last of the things refers to these.
fn end(things: &mut Vec<Thing>, references: Seq<usize>) -> Result<(), AllocError> {
    things.push(Thing { own: 1, references })?;
    Ok(())
}

#[test]
fn small_graphs(rt: HostRuntime) -> Result<(), Fail> {
    let alloc = rt.alloc();
    let rows: [(&str, &[&[usize]], u32, u32, Findings); 17] = [
        ("no things", &[], 0, 0, NONE),
        ("one thing", &[&[]], 1, 1, NONE),
        ("a chain of one", &[&[]], 0, 1, LONG),
        ("a part of one", &[&[]], 1, 0, HEAVY),
        ("itself", &[&[0]], 9, 9, Findings::Circle(0)),
        (
            "itself, behind another",
            &[&[1], &[1]],
            9,
            9,
            Findings::Circle(1),
        ),
        ("each other", &[&[1], &[0]], 9, 9, Findings::Circle(0)),
        (
            "a circle of three",
            &[&[], &[0, 2], &[3, 0], &[0, 1]],
            9,
            9,
            Findings::Circle(1),
        ),
        ("a chain of three", &[&[1], &[2], &[]], 3, 3, NONE),
        (
            "a chain of three, one too long",
            &[&[1], &[2], &[]],
            2,
            3,
            LONG,
        ),
        (
            "a chain of three, one too heavy",
            &[&[1], &[2], &[]],
            3,
            2,
            HEAVY,
        ),
        (
            "to the front",
            &[&[], &[0], &[1]],
            2,
            3,
            Findings::Sizes {
                too_long: Some(2),
                too_heavy: None,
            },
        ),
        ("the same twice", &[&[1, 1], &[]], 2, 3, NONE),
        (
            "the same twice, one too heavy",
            &[&[1, 1], &[]],
            2,
            2,
            HEAVY,
        ),
        ("two ways", &[&[1, 2], &[3], &[3], &[]], 3, 5, NONE),
        (
            "two ways, one too heavy",
            &[&[1, 2], &[3], &[3], &[]],
            3,
            4,
            HEAVY,
        ),
        ("the longer way", &[&[2, 1], &[2], &[]], 2, 4, LONG),
    ];
    for (row, all, longest, heaviest, expected) in &rows {
        let things = things_of(alloc, all)?;
        let is = found(&rt, alloc, &things, *longest, *heaviest)?;
        assert_eq!(rt; is, *expected, "{row}");
    }
    Ok(())
}

#[test]
fn long_paths(rt: HostRuntime) -> Result<(), Fail> {
    let alloc = rt.alloc();
    let mut things = path_of(alloc, 50_000, 1)?;
    end(&mut things, Seq::new(alloc))?;
    for (longest, heaviest, expected) in [
        (50_000, 50_000, NONE),
        (49_999, 50_000, LONG),
        (50_000, 49_999, HEAVY),
    ] {
        assert_eq!(rt; found(&rt, alloc, &things, longest, heaviest)?, expected);
    }
    Ok(())
}

#[test]
fn circle_behind_a_path(rt: HostRuntime) -> Result<(), Fail> {
    let alloc = rt.alloc();
    let mut things = path_of(alloc, 50_000, 1)?;
    end(&mut things, Seq::from_vec(vec![in alloc; 49_998]?))?;
    assert_eq!(rt; found(&rt, alloc, &things, 9, 9)?, Findings::Circle(49_998));
    Ok(())
}

#[test]
fn many_references(rt: HostRuntime) -> Result<(), Fail> {
    let alloc = rt.alloc();
    let mut things = path_of(alloc, 30_000, 20)?;
    end(&mut things, Seq::new(alloc))?;
    let expected = Findings::Sizes {
        too_long: Some(0),
        too_heavy: Some(0),
    };
    assert_eq!(rt; found(&rt, alloc, &things, 200, 1_000_000)?, expected);
    Ok(())
}

#[test]
fn doubling(rt: HostRuntime) -> Result<(), Fail> {
    let alloc = rt.alloc();
    for (count, heaviest, expected) in [
        (31, 0x7fff_ffff, NONE),
        (31, 0x7fff_fffe, HEAVY),
        (200, u32::MAX, HEAVY),
    ] {
        let mut things = path_of(alloc, count, 2)?;
        end(&mut things, Seq::new(alloc))?;
        assert_eq!(rt; found(&rt, alloc, &things, 200, heaviest)?, expected);
    }
    Ok(())
}

#[test]
fn own_parts(rt: HostRuntime) -> Result<(), Fail> {
    let alloc = rt.alloc();
    let mut things = Vec::new(alloc);
    for own in [3, 0, u64::from(u32::MAX)] {
        things.push(Thing {
            own,
            references: Seq::new(alloc),
        })?;
    }
    assert_eq!(rt; found(&rt, alloc, &things, 1, u32::MAX)?, NONE);
    let expected = Findings::Sizes {
        too_long: None,
        too_heavy: Some(2),
    };
    assert_eq!(rt; found(&rt, alloc, &things, 1, u32::MAX - 1)?, expected);
    Ok(())
}

/// A count of parts stops at its largest number.
#[test]
fn most_parts(rt: HostRuntime) -> Result<(), Fail> {
    let alloc = rt.alloc();
    let mut thing = Thing {
        own: u64::MAX - 1,
        references: Seq::new(alloc),
    };
    thing.add_leaf();
    assert_eq!(rt; thing.own, u64::MAX);
    thing.add_leaf();
    assert_eq!(rt; thing.own, u64::MAX);
    thing.add_reference(1)?;
    let mut things = Vec::new(alloc);
    things.push(thing)?;
    things.push(Thing::empty(alloc))?;
    assert_eq!(rt; found(&rt, alloc, &things, 2, u32::MAX)?, HEAVY);
    Ok(())
}
