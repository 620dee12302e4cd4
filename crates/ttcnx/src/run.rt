//! From the text of a module, and of a script, to the report on a test case.
ghost use Rattle.std.specs.Prelude.{◌≡◌, ℕ, ◌<◌, ◌≤◌, ◌⊎◌, ◌↔◌, codes, length, Err, IfOk, IsErrOf, IsTrue, string_bytes};
ghost use Rattle.std.specs.List.{filter_map, zip};
ghost use Rattle.laws_fine.specs.Verdicts.{EndsFinelyWith, EndsWith};
ghost use Rattle.search_layer.specs.Limits.{IsWithinLimits};
ghost use Rattle.semantics.specs.Snapshots.{Test};
ghost use Rattle.ttcn_syntax.specs.Limits.{longest_text};
ghost use Rattle.ttcn_syntax.specs.declared.tree.statement.Verdict as tree;
ghost use Rattle.ttcnx.specs.Answer.{HasOneAnswer, IsAnswer};
ghost use Rattle.ttcnx.specs.Fault.{lexical_fault};
ghost use Rattle.ttcnx.specs.Named.{IsTestOf, source};
ghost use Rattle.ttcnx.specs.Tells.{Lists, TellsOfRuns, all_verdicts, outcome_of};
ghost use Rattle.laws_types.specs.Runs.{StaysWellTyped};

use crate::fault::Fault;
use crate::testcase::test_of;
use explore::{Gate, Plan};
use report::{Outcome, Report};
use std::alloc::{AllocError, Global};
use std::thread::Threads;
use step_labels::Label;
use ttcn_step::Machine;
use ttcn_syntax::{LexError, Verdict};
use ttcnx_runs::{Exploration, explore_runs};

/// The verdicts, from the best on.
const VERDICTS: [Verdict; 5] = [
    Verdict::None,
    Verdict::Pass,
    Verdict::Inconc,
    Verdict::Fail,
    Verdict::Error,
];

/// Explores the runs of the test case of this name, at whose system ports nothing comes in: what `run_script` answers for the
/// script `{}`.
pub fn run_text<G: Gate, R: Threads + Sync>(
    rt: &R,
    alloc: Global,
    text: &[u8],
    name: &str,
    plan: &Plan,
    gate: &G,
) -> Result<Report, Fault>
    ensures answer { (result ≡ Err Fault.Memory) ⊎ IsAnswer (source text.now (codes "{}")) name.now plan.now result }

    // What is given, a name and a plan have one answer: so each answer is given exactly where it is said to be.
    ensures one { HasOneAnswer (source text.now (codes "{}")) name.now plan.now }

    // Where it is complete, the report is true of the runs of every greater bound.
    ensures every_bound { IfOk result (λ report. IsTrue report.complete → (test : Test) → IsTestOf (source text.now (codes "{}")) name.now test
        → (bound : ℕ) → plan.now.steps ≤ bound → TellsOfRuns test bound report) }

    // It then lists the verdicts of all runs, which are those of all fine runs: there snapshot and choice are two steps.
    ensures every_verdict { IfOk result (λ report. IsTrue report.complete → (test : Test) → IsTestOf (source text.now (codes "{}")) name.now test
        → (v : tree.Verdict) → (Lists report v ↔ EndsWith test v) × (Lists report v ↔ EndsFinelyWith test v)) }

    // In every run, however long, each value is of the type of its name, nothing is met that no checked module has, and only a
    // dynamic error ends with verdict `error`.
    ensures stays_well_typed { (test : Test) → IsTestOf (source text.now (codes "{}")) name.now test → StaysWellTyped test }

    // These two are decided before memory is asked for.
    ensures bad_plan { IsErrOf result Fault.BadPlan ↔ (IsWithinLimits plan.now → ⊥) }
    ensures too_long { IsWithinLimits plan.now → longest_text < length text.now
        → result ≡ Err (lexical_fault LexError.TextTooLong) }
{
    run_script(rt, alloc, text, b"{}", name, plan, gate)
}

/// Explores the runs of the test case of this name, at whose system ports the messages of a script come in. Refusals come in
/// the order of the work: the plan, the text, its tokens, its module, the name, the script, the number of configurations.
#[tactic(auto, using(crate::proofs::OneAnswer::one_answer))]
pub fn run_script<G: Gate, R: Threads + Sync>(
    rt: &R,
    alloc: Global,
    text: &[u8],
    script: &[u8],
    name: &str,
    plan: &Plan,
    gate: &G,
) -> Result<Report, Fault>
    ensures answer { (result ≡ Err Fault.Memory) ⊎ IsAnswer (source text.now script.now) name.now plan.now result }

    // What is given, a name and a plan have one answer: so each answer is given exactly where it is said to be.
    ensures one { HasOneAnswer (source text.now script.now) name.now plan.now }

    // Where it is complete, the report is true of the runs of every greater bound.
    ensures every_bound { IfOk result (λ report. IsTrue report.complete → (test : Test) → IsTestOf (source text.now script.now) name.now test
        → (bound : ℕ) → plan.now.steps ≤ bound → TellsOfRuns test bound report) }

    // It then lists the verdicts of all runs, which are those of all fine runs: there snapshot and choice are two steps.
    ensures every_verdict { IfOk result (λ report. IsTrue report.complete → (test : Test) → IsTestOf (source text.now script.now) name.now test
        → (v : tree.Verdict) → (Lists report v ↔ EndsWith test v) × (Lists report v ↔ EndsFinelyWith test v)) }

    // In every run, however long, each value is of the type of its name, nothing is met that no checked module has, and only a
    // dynamic error ends with verdict `error`.
    ensures stays_well_typed { (test : Test) → IsTestOf (source text.now script.now) name.now test → StaysWellTyped test }

    // These two are decided before memory is asked for.
    ensures bad_plan { IsErrOf result Fault.BadPlan ↔ (IsWithinLimits plan.now → ⊥) }
    ensures too_long { IsWithinLimits plan.now → longest_text < length text.now
        → result ≡ Err (lexical_fault LexError.TextTooLong) }
{
    if !plan.is_within_limits() {
        return Err(Fault::BadPlan);
    }
    let (program, testcase, script) = test_of(alloc, text, name, script)?;
    let machine = Machine::with_script(alloc, &program, testcase, &script)?;
    let found = explore_runs(rt, alloc, &machine, plan, gate)?;
    Ok(report_of(alloc, name, plan.steps, found)?)
}

/// The report on what was found.
pub(crate) fn report_of(
    alloc: Global,
    name: &str,
    steps: u64,
    found: Exploration,
) -> Result<Report, AllocError>
    ensures testcase { IfOk result (λ report. string_bytes report.testcase ≡ name.now) }
    ensures steps { IfOk result (λ report. report.steps ≡ steps) }
    ensures configurations { IfOk result (λ report. report.configurations ≡ found.configurations) }
    ensures complete { IfOk result (λ report. report.complete ≡ found.complete) }
    ensures outcomes { IfOk result (λ report. report.outcomes.items
        ≡ filter_map (λ pair. outcome_of pair.0 pair.1) (zip all_verdicts found.best.items)) }
    ensures branches { IfOk result (λ report. report.branches.items ≡ found.branches.items) }
    ensures blocked { IfOk result (λ report. report.blocked.items ≡ found.blocked.items) }
{
    let Exploration {
        configurations,
        complete,
        best,
        branches,
        blocked,
    } = found;
    Ok(Report {
        testcase: String::from_str(alloc, name)?,
        steps,
        configurations,
        complete,
        outcomes: outcomes_of(alloc, best)?,
        branches,
        blocked,
    })
}

/// The verdicts that a run ends with, from the best on.
fn outcomes_of(alloc: Global, best: Vec<Option<Vec<Label>>>) -> Result<Vec<Outcome>, AllocError>
    ensures { IfOk result (λ outcomes. outcomes.items
        ≡ filter_map (λ pair. outcome_of pair.0 pair.1) (zip all_verdicts best.items)) }
{
    VERDICTS
        .iter()
        .zip(best)
        .filter_map(|(verdict, run)| outcome_of(*verdict, run))
        .collect(alloc)
}

fn outcome_of(verdict: Verdict, run: Option<Vec<Label>>) -> Option<Outcome>
    ensures { result ≡ outcome_of verdict run }
{
    Some(Outcome { verdict, run: run? })
}
