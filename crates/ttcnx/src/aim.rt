//! From the text of a module to the least run to a place in it.
ghost use Rattle.std.specs.Prelude.{◌≡◌, ◌↔◌, ◌<◌, ◌⊎◌, length, Err, IsErrOf};
ghost use Rattle.std.specs.Option.{option_map};
ghost use Rattle.search_layer.specs.Limits.{IsWithinLimits};
ghost use Rattle.ttcn_syntax.specs.Limits.{longest_text};
ghost use Rattle.ttcnx.specs.Aims.{HasOneAnswerTo, IsAnswerTo};
ghost use Rattle.ttcnx.specs.Fault.{lexical_fault};
ghost use Rattle.ttcnx.specs.Named.{source};
ghost use Rattle.ttcnx.specs.internal.Reaches.{reach_by};

use crate::fault::Fault;
use crate::testcase::test_of;
use explore::{Ending, Gate, Plan, Stops};
use std::alloc::Global;
use std::thread::Threads;
use step_labels::Label;
use ttcn_step::Machine;
use ttcn_syntax::{LexError, Span};
use ttcnx_runs::{Sights, sight_runs};

/// Where a run is to get.
#[derive(Clone, Copy, Debug, PartialEq, Eq)]
pub enum Aim {
    /// To a step that takes the branch at this place, or that takes none and begins with the statement there.
    Step(Span),
    /// To where some component is blocked at this place.
    Block(Span),
}

/// A run to an aim, if there is one.
#[derive(Debug, Drop)]
pub struct Reaching {
    /// Runs of at most so many steps were explored.
    pub steps: u64,
    /// Why no longer ones were.
    pub ending: Ending,
    /// The labels of the least of the shortest runs to the aim.
    pub run: Option<Vec<Label>>,
}

/// Explores the runs of the test case of this name, as `run_until` does, for the least of the shortest runs to an aim.
#[tactic(auto, using(crate::proofs::OneUntil::one_to))]
pub fn run_to<G: Gate, R: Threads + Sync>(
    rt: &R,
    alloc: Global,
    text: &[u8],
    script: &[u8],
    name: &str,
    plan: &Plan,
    stops: &Stops,
    aim: Aim,
    gate: &G,
) -> Result<Reaching, Fault>
    ensures answer { (result ≡ Err Fault.Memory) ⊎ IsAnswerTo (source text.now script.now) name.now plan.now stops.now aim result }

    // What is given, a name, a plan, stops and an aim have one answer: so each answer is given exactly where it is said to be.
    ensures one { HasOneAnswerTo (source text.now script.now) name.now plan.now stops.now aim }

    // These two are decided before memory is asked for.
    ensures bad_plan { IsErrOf result Fault.BadPlan ↔ (IsWithinLimits plan.now → ⊥) }
    ensures too_long { IsWithinLimits plan.now → longest_text < length text.now
        → result ≡ Err (lexical_fault LexError.TextTooLong) }
{
    if !plan.is_within_limits() {
        return Err(Fault::BadPlan);
    }
    let (program, testcase, script) = test_of(alloc, text, name, script)?;
    let machine = Machine::with_script(alloc, &program, testcase, &script)?;
    let sights = sight_runs(rt, alloc, &machine, plan, stops, gate)?;
    let (steps, ending) = (sights.extent.steps, sights.extent.ending);
    let run = reach(sights, aim);
    Ok(Reaching { steps, ending, run })
}

/// The least of the runs that were found to an aim.
fn reach(sights: Sights, aim: Aim) -> Option<Vec<Label>>
    ensures { option_map (λ run. run.items) result ≡ reach_by sights aim }
{
    match aim {
        Aim::Step(place) => sights.to_place(place),
        Aim::Block(place) => sights.to_block(place),
    }
}
