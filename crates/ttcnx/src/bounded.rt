//! From the text of a module to the report on the runs that keep a bound on expiries of timers.
ghost use Rattle.std.specs.Prelude.{◌≡◌, ◌≤◌, ◌<◌, ◌⊎◌, ◌↔◌, ℕ, length, Err, IfOk, IsErrOf, IsTrue};
ghost use Rattle.search_layer.specs.Limits.{IsWithinLimits};
ghost use Rattle.semantics.specs.Snapshots.{Test};
ghost use Rattle.ttcn_syntax.specs.Limits.{longest_text};
ghost use Rattle.ttcnx.specs.Bounded.{HasOneAnswerBounded, IsAnswerBounded, TellsOfBoundedRuns, bound_of};
ghost use Rattle.ttcnx.specs.Fault.{lexical_fault};
ghost use Rattle.ttcnx.specs.Named.{IsTestOf, source};

use crate::fault::Fault;
use crate::run::report_of;
use crate::testcase::test_of;
use crate::until::Until;
use explore::{Gate, Plan, Stops};
use search_bounds::Bound;
use std::alloc::Global;
use std::thread::Threads;
use ttcn_step::Machine;
use ttcn_syntax::LexError;
use ttcnx_bounds::explore_bounded_until;
use ttcnx_command_line::Wishes;
use ttcnx_runs::Extent;

/// The bound on expiries of timers that the runs of the report are to keep, where there is one.
pub fn bound_of(wishes: &Wishes) -> Option<Bound>
    ensures { result ≡ bound_of wishes.now }
{
    if wishes.expiries.is_some() || wishes.patient_timers {
        Some(Bound {
            expiries: wishes.expiries,
            patient: wishes.patient_timers,
        })
    } else {
        None
    }
}

/// Explores the runs of the test case of this name that keep a bound on expiries of timers, as `run_until` does with all runs.
#[tactic(auto, using(crate::proofs::OneBounded::one_bounded))]
pub fn run_bounded<G: Gate, R: Threads + Sync>(
    rt: &R,
    alloc: Global,
    text: &[u8],
    script: &[u8],
    name: &str,
    bound: Bound,
    plan: &Plan,
    stops: &Stops,
    gate: &G,
) -> Result<Until, Fault>
    ensures answer { (result ≡ Err Fault.Memory) ⊎ IsAnswerBounded (source text.now script.now) name.now bound plan.now stops.now result }

    // What is given, a name, a bound, a plan and stops have one answer: so each answer is given exactly where it is said to be.
    ensures one { HasOneAnswerBounded (source text.now script.now) name.now bound plan.now stops.now }

    // Where it is complete, the report is true of the runs of more steps that keep the bound.
    ensures every_bound { IfOk result (λ until. IsTrue until.report.complete → (test : Test) → IsTestOf (source text.now script.now) name.now test
        → (steps : ℕ) → until.report.steps ≤ steps → TellsOfBoundedRuns test bound steps until.report) }

    // These two are decided before memory is asked for.
    ensures bad_plan { IsErrOf result Fault.BadPlan ↔ (IsWithinLimits plan.now → ⊥) }
    ensures too_long { IsWithinLimits plan.now → longest_text < length text.now
        → result ≡ Err (lexical_fault LexError.TextTooLong) }
{
    if !plan.is_within_limits() {
        return Err(Fault::BadPlan);
    }
    let (program, testcase, script) = test_of(alloc, text, name, script)?;
    let machine = Machine::with_script(alloc, &program, testcase, &script)?;
    let extent = explore_bounded_until(rt, alloc, &machine, bound, plan, stops, gate)?;
    let Extent {
        steps,
        found,
        ending,
    } = extent;
    let report = report_of(alloc, name, steps, found)?;
    Ok(Until { report, ending })
}
