//! The labels that fine labels stand for: each choice that takes a branch or meets a fault moves to the place of its snapshot.
ghost use Rattle.std.specs.Prelude.{◌≡◌, IfOk, map};
ghost use Rattle.laws_fine.specs.Gathering.{first_told, gathered};
ghost use Rattle.step_coarse.specs.Fates.{fate_by, told_by};
ghost use Rattle.step_coarse.specs.internal.First.{FirstIs};

use crate::{Fate, Told};
use std::alloc::{AllocError, Global};
use step_labels::{FineLabel, Label};
use value_types::Path;

/// What a label tells of the snapshot of a component: what came of its choice, or that it takes another snapshot.
fn told_by_label(path: &Path, told: &Told<'_>) -> Option<Fate>
    ensures { FirstIs path.now (told_by told.now) result }
{
    match told.label {
        FineLabel::Snap(other) if other.numbers == path.numbers => Some(Fate::Lapses),
        FineLabel::Choose(other) if other.numbers == path.numbers => Some(told.fate),
        _ => None,
    }
}

/// What came of the first choice of a component, if it makes one before its next snapshot.
fn first_told(path: &Path, told: &[Told<'_>]) -> Fate
    ensures { fate_by result ≡ first_told path.now (map told_by told.now) }
{
    for label in told {
        if let Some(fate) = told_by_label(path, label) {
            return fate;
        }
    }
    Fate::Lapses
}

/// The labels that fine labels stand for. A choice moves to the place of its snapshot.
pub fn gather(alloc: Global, told: &[Told<'_>]) -> Result<Vec<Label>, AllocError>
    ensures { IfOk result (λ run. run.items ≡ gathered (map told_by told.now)) }
{
    let mut run = Vec::new(alloc);
    for place in 0..told.len() {
        let label = told[place].label;
        match label {
            FineLabel::Plain(label) => run.push(label.try_clone(alloc)?)?,
            FineLabel::Choose(_) => {}
            FineLabel::Snap(path) => match first_told(path, &told[place + 1..]) {
                Fate::Lapses => {}
                Fate::Takes => run.push(Label::Statement(path.try_clone(alloc)?))?,
                Fate::Faults => {
                    run.push(Label::Statement(path.try_clone(alloc)?))?;
                    return Ok(run);
                }
            },
        }
    }
    Ok(run)
}
