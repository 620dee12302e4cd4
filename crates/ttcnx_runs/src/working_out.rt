//! Steps that are worked out and remembered.
ghost use Rattle.std.specs.Prelude.{◌≡◌, IfOk, map};
ghost use Rattle.std.specs.List.{All};
ghost use Rattle.config_packed.specs.Pieces.{AreParts};
ghost use Rattle.ttcn_step.specs.Answers.{IsSuccessor};
ghost use Rattle.ttcn_step.specs.Machines.{Fits};
ghost use Rattle.ttcnx_runs.specs.Runs.{FitsRuns};
ghost use Rattle.ttcnx_runs.specs.internal.Recalls.{FitsState};
ghost use Rattle.ttcnx_runs.specs.internal.WorkedOut.{AreSteps, IsStep};

use crate::keys::BranchPlace;
use crate::remembering::remember;
use crate::runs::{Runs, state_of};
use crate::scheme::Scheme;
use crate::shortening::shortened;
use crate::state::State;
use crate::step::Step;
use search_memory::Interner;
use std::alloc::{AllocError, Global};
use ttcn_config::{Config, ConfigBytes, unpack};
use ttcn_step::{Machine, Successor};

/// The steps from a configuration to its successors.
fn steps_to<'p, K: Scheme>(
    alloc: Global,
    machine: &Machine<'_>,
    interner: &'p Interner,
    config: &Config,
    found: Vec<Successor>,
) -> Result<Vec<Step<State<'p, K>>>, AllocError>
    requires is { machine.now ≡ K.machine }
    requires fits { Fits K.machine config.now }
    requires leads { All (IsSuccessor K.machine config.now) found.items }
    requires found { All (λ s. Fits machine.now s.config) found.items }
    ensures labels { IfOk result (λ steps. map (λ step. step.label) steps.items ≡ map (λ s. s.label) found.items) }
    ensures each { IfOk result (λ steps. All (IsStep K.machine config.now) steps.items) }
{
    let mut steps = Vec::with_capacity(alloc, found.len())?;
    for Successor {
        label,
        config: next,
    } in found {
        let place = machine.branch(alloc, config, &label)?;
        let after = state_of(alloc, machine, interner, next)?;
        steps.push(Step {
            label,
            branch: place.map(BranchPlace::new),
            after,
        })?;
    }
    Ok(steps)
}

/// The steps from a configuration to its successors, worked out and remembered. Its bytes are given in parts.
pub(crate) fn steps_worked_out<'p, K: Scheme>(
    runs: &Runs<'_, '_, 'p, K>,
    alloc: Global,
    config: &Config,
    parts: &Option<ConfigBytes<'_>>,
) -> Result<Vec<Step<State<'p, K>>>, AllocError>
    requires fits { FitsState K.machine config.now }
    requires parts { AreParts config.now parts.now }
    ensures { IfOk result (λ steps. AreSteps K.machine config.now steps.items) }
{
    let found = runs.machine.successors(alloc, config)?;
    let steps = steps_to(alloc, runs.machine, runs.interner, config, found)?;
    remember(
        alloc,
        runs.machine,
        &runs.memory,
        parts,
        config,
        steps.as_slice(),
    )?;
    Ok(steps)
}

/// Remembers what the components of a state do, where many messages wait, and tells whether it did. It is worked out with only the
/// messages in front of the others, so that it takes no longer with more of them.
pub(crate) fn remembers_by_fronts<'p, K: Scheme>(
    runs: &Runs<'_, '_, 'p, K>,
    alloc: Global,
    state: &State<'p, K>,
) -> Result<bool, AllocError>
    requires { FitsRuns state.now }
{
    if runs.memory.has_given_up() {
        return Ok(false);
    }
    let Some(short) = shortened(alloc, &state.packed)? else {
        return Ok(false);
    };
    let config = unpack(alloc, &short)?;
    let parts = short.parts(alloc)?;
    let _steps = steps_worked_out(runs, alloc, &config, &parts)?;
    Ok(true)
}
