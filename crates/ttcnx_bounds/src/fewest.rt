//! The runs with the fewest expiries of timers that end with a verdict (ES 201 873-4).
ghost use Rattle.std.specs.Prelude.{◌≡◌, ◌↔◌, None, IfErr, IfOk, IsErrOf, IsTrue, OnOk};
ghost use Rattle.std.specs.Option.{option_map};
ghost use Rattle.search_layer.specs.Limits.{IsWithinLimits};
ghost use Rattle.ttcnx_bounds.specs.BoundedFound.{IsBestRunBounded};
ghost use Rattle.ttcnx_bounds.specs.Fewest.{IsFewest, IsUndecided, any_number};
ghost use Rattle.ttcnx_runs.specs.Found.{run_kept};

use crate::exploration::explore_bounded;
use explore::{ExploreError, Gate, Plan};
use search_bounds::Bound;
use std::alloc::Global;
use std::thread::Threads;
use step_labels::Label;
use ttcn_step::Machine;
use ttcn_syntax::Verdict;
use ttcnx_runs::{Exploration, mark_of};

/// One more than the greatest number of steps of a plan.
const MOST_EXPIRIES: u32 = 100_001;

/// A run with as few expiries of timers as there can be.
#[derive(Debug, Drop)]
pub struct Fewest {
    /// No run in which fewer timers expire ends so.
    pub expiries: u32,
    /// Its labels.
    pub run: Vec<Label>,
}

/// Finds the least of the shortest runs, of at most the plan's steps, that end with a verdict and have the fewest expiries of
/// timers, of all runs or of those with patient timers. It explores the runs without an expiry, then those with at most one,
/// and so on; before the second turn those with any number, since where none ends with the verdict no more expiries help.
pub fn fewest_expiries<G: Gate, R: Threads + Sync>(
    rt: &R,
    alloc: Global,
    machine: &Machine<'_>,
    patient: bool,
    verdict: Verdict,
    plan: &Plan,
    gate: &G,
) -> Result<Option<Fewest>, ExploreError>
    ensures bad_plan { IsErrOf result ExploreError.BadPlan ↔ ¬ IsWithinLimits plan.now }
    ensures planned { OnOk result (IsWithinLimits plan.now) }
    ensures too_many { IsErrOf result ExploreError.TooMany → IsUndecided machine.now.test patient plan.now.steps plan.now.limit verdict }
    ensures fewest { IfOk result (IsFewest machine.now.test patient plan.now.steps verdict) }
{
    if !plan.is_within_limits() {
        return Err(ExploreError::BadPlan);
    }
    for expiries in 0..MOST_EXPIRIES {
        if u64::from(expiries) > plan.steps {
            return Ok(None);
        }
        if expiries == 1 && ends_nowhere(rt, alloc, machine, patient, verdict, plan, gate)? {
            return Ok(None);
        }
        let bound = Bound {
            expiries: Some(expiries),
            patient,
        };
        let found = explore_bounded(rt, alloc, machine, bound, plan, gate)?;
        if let Some(run) = run_to(found, verdict) {
            return Ok(Some(Fewest { expiries, run }));
        }
    }
    Ok(None)
}

/// Whether it is known that no run of at most the plan's steps ends with a verdict: more configurations than the limit tell
/// nothing.
fn ends_nowhere<G: Gate, R: Threads + Sync>(
    rt: &R,
    alloc: Global,
    machine: &Machine<'_>,
    patient: bool,
    verdict: Verdict,
    plan: &Plan,
    gate: &G,
) -> Result<bool, ExploreError>
    requires { IsWithinLimits plan.now }
    ensures refused { IfErr result (λ refused. refused ≡ ExploreError.Memory) }
    ensures nowhere { IfOk result (λ nowhere. IsTrue nowhere → IsBestRunBounded machine.now.test (any_number patient) plan.now.steps verdict None) }
{
    let bound = Bound {
        expiries: None,
        patient,
    };
    match explore_bounded(rt, alloc, machine, bound, plan, gate) {
        Ok(found) => Ok(run_to(found, verdict).is_none()),
        Err(ExploreError::TooMany) => Ok(false),
        Err(_) => Err(ExploreError::Memory),
    }
}

/// The run that was found to a verdict.
fn run_to(found: Exploration, verdict: Verdict) -> Option<Vec<Label>>
    ensures { option_map (λ run. run.items) result ≡ run_kept found verdict }
{
    let mut best = found.best;
    let number = usize::from(mark_of(verdict));
    if number < best.len() {
        best.swap_remove(number)
    } else {
        None
    }
}
