//! The runs that fine runs stand for (ES 201 873-1, 20.2).
ghost use Rattle.ttcn_step.specs.FineAnswers.{Coarsens};
ghost use Rattle.ttcn_step.specs.Machines.{machine_of};
ghost use Rattle.ttcn_step.specs.internal.Following.{Follows};

use crate::error::CoarsenError;
use crate::fine::{Fine, fine_step};
use crate::start::start;
use config_parts::Config;
use std::alloc::Global;
use step_coarse::{Told, gather};
use step_labels::{FineLabel, Label};
use step_snapshot::TestCase;

/// Where fine labels lead, and what came of each.
#[derive(Drop)]
pub(crate) struct Followed<'a> {
    pub fine: Fine,
    pub told: Vec<Told<'a>>,
}

/// Where fine labels lead from the start.
fn follow<'a>(
    alloc: Global,
    test: &TestCase<'_>,
    labels: &'a [FineLabel],
) -> Result<Followed<'a>, CoarsenError>
    ensures { Follows (machine_of test.now) labels.now result }
{
    let now = start(alloc, test)?;
    let mut fine = Fine {
        now,
        stored: Vec::new(alloc),
    };
    let mut told = Vec::new(alloc);
    for place in 0..labels.len() {
        let label = &labels[place];
        let Some(step) = fine_step(alloc, test, fine, label)? else {
            return Err(CoarsenError::NotFine(place + 1));
        };
        fine = step.fine;
        told.push(Told {
            label,
            fate: step.fate,
        })?;
    }
    Ok(Followed { fine, told })
}

/// The run that a fine run stands for, where it ends the test case.
pub(crate) fn coarsen(
    alloc: Global,
    test: &TestCase<'_>,
    labels: &[FineLabel],
) -> Result<Vec<Label>, CoarsenError>
    ensures { Coarsens (machine_of test.now) labels.now result }
{
    test.breaks_no_rule();
    let Followed { fine, told } = follow(alloc, test, labels)?;
    match fine.now {
        Config::Ended(_) => Ok(gather(alloc, told.as_slice())?),
        Config::Going(_) => Err(CoarsenError::NotEnded),
    }
}
