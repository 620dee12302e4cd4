//! The branches of a module that no run takes (ES 201 873-1, 16.2 and 20.2).
use crate::passage::Passage;
use crate::source::Source;
use chart_causes::{Names, branches_of};
use std::alloc::{AllocError, Global};
use ttcn_syntax::{Definition, Span};

/// The branches of functions, of altsteps and of a test case that are not among those that are taken, in the order of the
/// text.
pub fn untaken_branches(
    alloc: Global,
    text: &[u8],
    definitions: &[Definition],
    testcase: &str,
    taken: &[Span],
) -> Result<Vec<Passage>, AllocError> {
    let source = Source::new(alloc, text)?;
    let names = Names {
        definitions,
        slots: &[],
    };
    let branches = branches_of(alloc, definitions, testcase.as_bytes())?;
    let mut left = Vec::new(alloc);
    for branch in &branches {
        let (behaviour, place) = (branch.behaviour, branch.place);
        if !taken.contains(&place) {
            left.push(Passage::new(alloc, &source, names, behaviour, place)?)?;
        }
    }
    Ok(left)
}
