//! A report with runs in which few timers expire.
ghost use Rattle.std.specs.Prelude.{◌≡◌, ◌≢◌, ◌↔◌, ◌⊎◌, Contains, Err, IfOk, IsErrOf};
ghost use Rattle.std.specs.List.{AllZip};
ghost use Rattle.report.specs.declared.report.Outcome.{Outcome};
ghost use Rattle.search_layer.specs.Limits.{IsWithinLimits};
ghost use Rattle.ttcnx.specs.Few.{HasOneAnswerFew, IsAnswerFew, IsFewestOutcome};
ghost use Rattle.ttcnx.specs.Named.{source};
ghost use Rattle.ttcnx_bounds.specs.Fewest.{IsUndecided};

use crate::fault::Fault;
use crate::testcase::test_of;
use explore::{ExploreError, Gate, Plan};
use report::{Outcome, Report};
use std::alloc::Global;
use std::thread::Threads;
use ttcn_step::Machine;
use ttcnx_bounds::fewest_expiries;

/// The report with other runs to its verdicts: of the runs of at most the plan's steps that end with a verdict, all or those
/// with patient timers, the least of the shortest of those in which the fewest timers expire.
#[tactic(auto, using(crate::proofs::OneFew::one_few))]
pub fn with_few_expiries<G: Gate, R: Threads + Sync>(
    rt: &R,
    alloc: Global,
    text: &[u8],
    script: &[u8],
    name: &str,
    report: Report,
    patient: bool,
    plan: &Plan,
    gate: &G,
) -> Result<Report, Fault>
    ensures answer { (result ≡ Err Fault.Memory) ⊎ IsAnswerFew (source text.now script.now) name.now patient plan.now report result }

    // What is given, a name, a plan and a report have one answer, but for `TooMany`.
    ensures one { HasOneAnswerFew (source text.now script.now) name.now patient plan.now report }

    // This is decided before memory is asked for.
    ensures bad_plan { IsErrOf result Fault.BadPlan ↔ (IsWithinLimits plan.now → ⊥) }
{
    if !plan.is_within_limits() {
        return Err(Fault::BadPlan);
    }
    let (program, case, script) = test_of(alloc, text, name, script)?;
    let machine = Machine::with_script(alloc, &program, case, &script)?;
    let Report {
        testcase,
        steps,
        configurations,
        complete,
        outcomes,
        branches,
        blocked,
    } = report;
    let outcomes = fewest_outcomes(rt, alloc, &machine, outcomes, patient, plan, gate)?;
    Ok(Report {
        testcase,
        steps,
        configurations,
        complete,
        outcomes,
        branches,
        blocked,
    })
}

/// These verdicts with the runs to them in which the fewest timers expire.
fn fewest_outcomes<G: Gate, R: Threads + Sync>(
    rt: &R,
    alloc: Global,
    machine: &Machine<'_>,
    outcomes: Vec<Outcome>,
    patient: bool,
    plan: &Plan,
    gate: &G,
) -> Result<Vec<Outcome>, ExploreError>
    ensures fewest { IfOk result (λ fewest. AllZip (IsFewestOutcome machine.now.test patient plan.now.steps) outcomes.items fewest.items) }
    ensures too_many { IsErrOf result ExploreError.TooMany → (outcome : Outcome) × Contains outcomes.items outcome × IsUndecided machine.now.test patient plan.now.steps plan.now.limit outcome.verdict }
    ensures planned { IsWithinLimits plan.now → result ≢ Err ExploreError.BadPlan }
{
    let mut fewest = Vec::new(alloc);
    for outcome in outcomes {
        fewest.push(fewest_outcome(rt, alloc, machine, outcome, patient, plan, gate)?)?;
    }
    Ok(fewest)
}

/// A verdict with the run to it in which the fewest timers expire, where some run ends with it.
fn fewest_outcome<G: Gate, R: Threads + Sync>(
    rt: &R,
    alloc: Global,
    machine: &Machine<'_>,
    outcome: Outcome,
    patient: bool,
    plan: &Plan,
    gate: &G,
) -> Result<Outcome, ExploreError>
    ensures fewest { IfOk result (IsFewestOutcome machine.now.test patient plan.now.steps outcome) }
    ensures too_many { IsErrOf result ExploreError.TooMany → IsUndecided machine.now.test patient plan.now.steps plan.now.limit outcome.verdict }
    ensures planned { IsWithinLimits plan.now → result ≢ Err ExploreError.BadPlan }
{
    let Outcome { verdict, run } = outcome;
    match fewest_expiries(rt, alloc, machine, patient, verdict, plan, gate)? {
        Some(fewest) => Ok(Outcome {
            verdict,
            run: fewest.run,
        }),
        None => Ok(Outcome { verdict, run }),
    }
}
