//! From the text of a module to the report on as many steps as are wanted, or can be had.
ghost use Rattle.std.specs.Prelude.{◌≡◌, ◌↔◌, ◌<◌, ◌⊎◌, length, Err, IsErrOf};
ghost use Rattle.search_layer.specs.Limits.{IsWithinLimits};
ghost use Rattle.ttcn_syntax.specs.Limits.{longest_text};
ghost use Rattle.ttcnx.specs.Fault.{lexical_fault};
ghost use Rattle.ttcnx.specs.Named.{source};
ghost use Rattle.ttcnx.specs.Sighted.{HasOneAnswerSighted, IsAnswerSighted};
ghost use Rattle.ttcnx.specs.Until.{HasOneAnswerUntil, IsAnswerUntil, stops_of};

use crate::fault::Fault;
use crate::run::report_of;
use crate::testcase::test_of;
use explore::{Ending, Gate, Plan, Sighting, Stops};
use report::Report;
use std::alloc::Global;
use std::thread::Threads;
use step_labels::{Label, Standing};
use ttcn_step::Machine;
use ttcn_syntax::{LexError, Seq};
use ttcnx_command_line::Wishes;
use ttcnx_runs::{Extent, Sights, StepPlace, explore_runs_until, mark_of, sight_runs};

/// Where an exploration ends by what is wished.
pub fn stops_of(wishes: &Wishes) -> Stops
    ensures { result ≡ stops_of wishes.now }
{
    let at_mark = match wishes.first {
        Some(verdict) => Some(mark_of(verdict)),
        None => None,
    };
    Stops {
        at_limit: wishes.partial,
        when_complete: wishes.until_complete,
        at_mark,
    }
}

/// A report, which is of all runs of at most its steps, and why it is of no longer ones.
#[derive(Debug, Drop)]
pub struct Until {
    pub report: Report,
    pub ending: Ending,
}

/// Explores the runs of the test case of this name, as `run_script` does, up to the plan's steps or to a stop: the first layer
/// with which more configurations than the limit are reached, a complete report, a verdict by its number.
#[tactic(auto, using(crate::proofs::OneUntil::one_until))]
pub fn run_until<G: Gate, R: Threads + Sync>(
    rt: &R,
    alloc: Global,
    text: &[u8],
    script: &[u8],
    name: &str,
    plan: &Plan,
    stops: &Stops,
    gate: &G,
) -> Result<Until, Fault>
    ensures answer { (result ≡ Err Fault.Memory) ⊎ IsAnswerUntil (source text.now script.now) name.now plan.now stops.now result }

    // What is given, a name, a plan and stops have one answer: so each answer is given exactly where it is said to be.
    ensures one { HasOneAnswerUntil (source text.now script.now) name.now plan.now stops.now }

    // These two are decided before memory is asked for.
    ensures bad_plan { IsErrOf result Fault.BadPlan ↔ (IsWithinLimits plan.now → ⊥) }
    ensures too_long { IsWithinLimits plan.now → longest_text < length text.now
        → result ≡ Err (lexical_fault LexError.TextTooLong) }
{
    if !plan.is_within_limits() {
        return Err(Fault::BadPlan);
    }
    let (program, testcase, script) = test_of(alloc, text, name, script)?;
    let machine = Machine::with_script(alloc, &program, testcase, &script)?;
    let extent = explore_runs_until(rt, alloc, &machine, plan, stops, gate)?;
    let Extent {
        steps,
        found,
        ending,
    } = extent;
    let report = report_of(alloc, name, steps, found)?;
    Ok(Until { report, ending })
}

/// A report, and the least runs to what its runs show, in the order of the runs.
#[derive(Drop)]
pub struct Sighted {
    pub until: Until,
    /// The places of steps, those where a message is lost apart.
    pub places: Vec<Sighting<StepPlace, Label>>,
    /// The components that are blocked where a run ends, each with the place where it stands.
    pub blocks: Vec<Sighting<Seq<Standing>, Label>>,
}

/// Explores the runs of the test case of this name as `run_until` does, and finds the least of the shortest runs to each place
/// in the text and to each block.
#[tactic(auto, using(crate::proofs::OneSighted::one_sighted))]
pub fn run_sighted<G: Gate, R: Threads + Sync>(
    rt: &R,
    alloc: Global,
    text: &[u8],
    script: &[u8],
    name: &str,
    plan: &Plan,
    stops: &Stops,
    gate: &G,
) -> Result<Sighted, Fault>
    ensures answer { (result ≡ Err Fault.Memory) ⊎ IsAnswerSighted (source text.now script.now) name.now plan.now stops.now result }

    // What is given, a name, a plan and stops have one answer: so each answer is given exactly where it is said to be.
    ensures one { HasOneAnswerSighted (source text.now script.now) name.now plan.now stops.now }

    // These two are decided before memory is asked for.
    ensures bad_plan { IsErrOf result Fault.BadPlan ↔ (IsWithinLimits plan.now → ⊥) }
    ensures too_long { IsWithinLimits plan.now → longest_text < length text.now
        → result ≡ Err (lexical_fault LexError.TextTooLong) }
{
    if !plan.is_within_limits() {
        return Err(Fault::BadPlan);
    }
    let (program, testcase, script) = test_of(alloc, text, name, script)?;
    let machine = Machine::with_script(alloc, &program, testcase, &script)?;
    let sights = sight_runs(rt, alloc, &machine, plan, stops, gate)?;
    let Sights {
        extent,
        places,
        blocks,
    } = sights;
    let Extent {
        steps,
        found,
        ending,
    } = extent;
    let report = report_of(alloc, name, steps, found)?;
    let until = Until { report, ending };
    Ok(Sighted {
        until,
        places,
        blocks,
    })
}
