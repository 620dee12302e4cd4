//! From the text of a module to the report on a test case with its runs explained.
ghost use Rattle.std.specs.Prelude.{◌≡◌, ◌++◌, ◌⊎◌, ℕ, List, Err, IfOk};
ghost use Rattle.ttcnx.specs.Explained.{IsExplainedAnswer};
ghost use Rattle.ttcnx.specs.Named.{source};
ghost use Rattle.ttcnx.specs.Streamed.{told_as};

use crate::explain::drawn;
use crate::explain_words::in_words;
use crate::explained::{Case, Explanation, verdict_runs};
use crate::fault::Fault;
use crate::sights::{Block, Visit, blocks_of, losses_of, settings_of};
use crate::stream::told_as;
use crate::testcase::test_of;
use crate::until::{Sighted, run_sighted};
use chart_words::{Passage, untaken_branches};
use explore::{Gate, Plan, Stops};
use report::{LabelText, PathText, PlaceText};
use serde_json::{Value, json};
use std::alloc::{AllocError, Global};
use std::thread::Threads;
use step_labels::{Label, Standing};
use ttcn_step::Machine;
use ttcnx_command_line::Format;

/// What the command `run --explain` prints: the report that `run_script` gives, as text or as JSON, and behind it the chart of
/// each of its runs, the branches that no run takes, the statements that set a verdict, and the runs to these and to blocks. As
/// text it says of each two runs to verdicts at which step they part.
pub fn run_explained<G: Gate, R: Threads + Sync>(
    rt: &R,
    alloc: Global,
    text: &[u8],
    script: &[u8],
    name: &str,
    plan: &Plan,
    gate: &G,
    json: bool,
) -> Result<Vec<u8>, Fault>
    ensures { (result ≡ Err Fault.Memory) ⊎ IsExplainedAnswer (source text.now script.now) name.now plan.now json result }
{
    let sighted = run_sighted(rt, alloc, text, script, name, plan, &Stops::NOWHERE, gate)?;
    Ok(explain_report(alloc, text, script, name, &sighted, json)?)
}

/// A report on a test case, as text or as JSON, and behind it what `run_explained` prints of its runs.
pub fn explain_report(
    alloc: Global,
    text: &[u8],
    script: &[u8],
    name: &str,
    sighted: &Sighted,
    json: bool,
) -> Result<Vec<u8>, AllocError>
    ensures { IfOk result (λ told. (more : List ℕ) × (told.items ≡ told_as json sighted.now.until.report ++ more)) }
{
    let told = told_as(alloc, &sighted.until.report, json)?;
    let more = explanations(alloc, text, script, name, sighted, json)?;
    let mut bytes = told.into_bytes();
    bytes.extend_from_slice(more.as_bytes())?;
    Ok(bytes)
}

/// What is told behind a report, as text or as JSON.
fn explanations(
    alloc: Global,
    text: &[u8],
    script: &[u8],
    name: &str,
    sighted: &Sighted,
    json: bool,
) -> Result<String, AllocError> {
    let (program, testcase, script) = match test_of(alloc, text, name, script) {
        Ok(found) => found,
        Err(Fault::Memory) => return Err(AllocError),
        Err(_) => return Ok(String::new(alloc)),
    };
    let machine = Machine::with_script(alloc, &program, testcase, &script)?;
    let case = Case {
        machine: &machine,
        program: &program,
        text,
        name,
    };
    let explanation = explanation_of(alloc, case, sighted)?;
    if json {
        in_lines(alloc, &explanation)
    } else {
        in_words(alloc, case, &explanation)
    }
}

/// What is told of a test case behind a report.
fn explanation_of<'a>(
    alloc: Global,
    case: Case<'_, '_>,
    sighted: &'a Sighted,
) -> Result<Explanation<'a>, AllocError> {
    let report = &sighted.until.report;
    let definitions = case.program.module().definitions.as_slice();
    let taken = report.branches.as_slice();
    Ok(Explanation {
        report,
        runs: verdict_runs(alloc, case, report)?,
        untaken: untaken_branches(alloc, case.text, definitions, case.name, taken)?,
        settings: settings_of(alloc, case.text, definitions, case.name, sighted)?,
        losses: losses_of(alloc, case.text, definitions, sighted)?,
        blocks: blocks_of(alloc, sighted)?,
    })
}

// ---- as JSON

/// Charts as JSON, a line each, and a line each for the branches that no run takes, for the statements that set a verdict, for
/// those whose message is lost, and for the blocks.
fn in_lines(alloc: Global, explanation: &Explanation<'_>) -> Result<String, AllocError> {
    let mut out = String::new(alloc);
    for run in &explanation.runs {
        out.push_str(drawn(alloc, &run.chart, Format::Json)?.as_str())?;
    }
    let untaken = untaken_value(alloc, explanation.untaken.as_slice())?;
    push_line(alloc, &mut out, &untaken)?;
    let settings = visits_value(alloc, explanation.settings.as_slice())?;
    push_line(alloc, &mut out, &json!(in alloc; {"settings": settings})?)?;
    let losses = visits_value(alloc, explanation.losses.as_slice())?;
    push_line(alloc, &mut out, &json!(in alloc; {"lost": losses})?)?;
    let blocks = blocks_value(alloc, explanation.blocks.as_slice())?;
    push_line(alloc, &mut out, &blocks)?;
    Ok(out)
}

/// Writes a value on a line.
fn push_line(alloc: Global, out: &mut String, value: &Value) -> Result<(), AllocError> {
    out.push_str(value.to_string(alloc)?.as_str())?;
    out.push('\n')?;
    Ok(())
}

/// The branches that no run takes.
fn untaken_value(alloc: Global, branches: &[Passage]) -> Result<Value, AllocError> {
    let mut values = Vec::new(alloc);
    for branch in branches {
        let place = PlaceText(branch.place).to_string(alloc)?;
        let (behaviour, text) = (&branch.behaviour, &branch.text);
        values.push(json!(in alloc; {"behaviour": behaviour, "place": place, "text": text})?)?;
    }
    let values = Value::Array(values);
    json!(in alloc; {"untaken": values})
}

/// The labels of a run, as in a report.
fn run_value(alloc: Global, run: &[Label]) -> Result<Value, AllocError> {
    let mut labels = Vec::new(alloc);
    for label in run {
        labels.push(Value::String(LabelText(label).to_string(alloc)?))?;
    }
    Ok(Value::Array(labels))
}

/// Statements, each with the least run to it.
fn visits_value(alloc: Global, visits: &[Visit<'_>]) -> Result<Value, AllocError> {
    let mut values = Vec::new(alloc);
    for visit in visits {
        let place = PlaceText(visit.passage.place).to_string(alloc)?;
        let (behaviour, text) = (&visit.passage.behaviour, &visit.passage.text);
        let run = run_value(alloc, visit.run)?;
        values.push(
            json!(in alloc; {"behaviour": behaviour, "place": place, "run": run, "text": text})?,
        )?;
    }
    Ok(Value::Array(values))
}

/// Components that are blocked, each with its place, as in a report.
fn standings_value(alloc: Global, standings: &[&Standing]) -> Result<Value, AllocError> {
    let mut values = Vec::new(alloc);
    for standing in standings {
        let component = PathText(standing.component.numbers.as_slice()).to_string(alloc)?;
        let place = PlaceText(standing.place).to_string(alloc)?;
        values.push(json!(in alloc; {"component": component, "place": place})?)?;
    }
    Ok(Value::Array(values))
}

/// The components that are blocked, with the least runs to there.
fn blocks_value(alloc: Global, blocks: &[Block<'_>]) -> Result<Value, AllocError> {
    let mut values = Vec::new(alloc);
    for block in blocks {
        let blocked = standings_value(alloc, block.standings.as_slice())?;
        let run = run_value(alloc, block.run)?;
        values.push(json!(in alloc; {"blocked": blocked, "run": run})?)?;
    }
    let values = Value::Array(values);
    json!(in alloc; {"blocks": values})
}
