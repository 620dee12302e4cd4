//! Where steps are.
ghost use Rattle.std.specs.Prelude.{◌≡◌, IfOk};
ghost use Rattle.std.specs.Option.{option_map};
ghost use Rattle.config_parts.specs.Legend.{Legend};
ghost use Rattle.semantics.specs.Places.{branch_of};
ghost use Rattle.ttcn_step.specs.Machines.{Fits, said};
ghost use Rattle.ttcn_step.specs.Telling.{sent_by};
ghost use Rattle.ttcnx_runs.specs.Sights.{is_lost, step_place};

use crate::keys::BranchPlace;
use config_parts::Way;
use std::alloc::{AllocError, Global};
use step_labels::Label;
use ttcn_config::Config;
use ttcn_step::{Machine, Sent};

/// Where a step is, and whether the message that it sends is lost, since the component that it is meant for has ended.
#[derive(Drop, PartialEq, Eq)]
pub struct StepPlace {
    /// The place of the branch that the step takes, else of the statement that it begins with.
    pub place: BranchPlace,
    pub lost: bool,
}

/// Whether there is a message, and it is lost.
fn is_lost(sent: &Option<Sent>) -> bool
    ensures { (legend : Legend) → result ≡ is_lost (option_map (sent_by legend) sent.now) }
{
    match sent {
        None => false,
        Some(sent) => match sent.way {
            Way::Lost(_) => true,
            Way::Reaches(_) | Way::Leaves(_) => false,
        },
    }
}

/// Where the step of a label is, and whether its message is lost, by the branch that the step takes.
pub(crate) fn place_of_step(
    alloc: Global,
    machine: &Machine<'_>,
    config: &Config,
    label: &Label,
    branch: &Option<BranchPlace>,
) -> Result<Option<StepPlace>, AllocError>
    requires fits { Fits machine.now config.now }
    requires branch { branch.now ≡ branch_of machine.now.test (said machine.now config.now) label.now }
    ensures { IfOk result (λ event. event ≡ step_place machine.now.test (said machine.now config.now) label.now) }
{
    let place = match branch {
        Some(branch) => Some(branch.place()),
        None => machine.place(config, label),
    };
    let Some(place) = place else {
        return Ok(None);
    };
    let lost = is_lost(&machine.sent(alloc, config, label)?);
    let place = BranchPlace::new(place);
    Ok(Some(StepPlace { place, lost }))
}

/// The branch that the step of a label takes, if it takes one, and where the step is, and whether its message is lost.
pub(crate) fn step_shown(
    alloc: Global,
    machine: &Machine<'_>,
    config: &Config,
    label: &Label,
) -> Result<(Option<BranchPlace>, Option<StepPlace>), AllocError>
    requires { Fits machine.now config.now }
    ensures branch { IfOk result (λ shown. shown.0 ≡ branch_of machine.now.test (said machine.now config.now) label.now) }
    ensures event { IfOk result (λ shown. shown.1 ≡ step_place machine.now.test (said machine.now config.now) label.now) }
{
    let branch = machine.branch(alloc, config, label)?.map(BranchPlace::new);
    let event = place_of_step(alloc, machine, config, label, &branch)?;
    Ok((branch, event))
}

/// The same place, if there is one.
pub(crate) fn copied_place(event: &Option<StepPlace>) -> Option<StepPlace>
    ensures { result ≡ event.now }
{
    match event {
        Some(event) => Some(StepPlace {
            place: BranchPlace::new(event.place.place()),
            lost: event.lost,
        }),
        None => None,
    }
}
