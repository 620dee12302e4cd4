//! Reports as JSON.
ghost use Rattle.report.specs.Json.{json_text, label_json, list_of, outcome_json, place_json, report_json, standing_json};
ghost use Rattle.serde_json.specs.View.{view};
ghost use Rattle.std.specs.Prelude.{◌≡◌, IfOk, string_bytes};

use crate::report::{Outcome, Report};
use crate::text::{LabelText, PathText, PlaceText, word_of};
use serde_json::{Value, json};
use std::alloc::{AllocError, Global};
use step_labels::{Label, Standing};
use ttcn_syntax::Span;

/// The texts of a run's labels.
fn run_value(alloc: Global, run: &[Label]) -> Result<Value, AllocError>
    ensures { IfOk result (λ value. view value ≡ list_of label_json run.now) }
{
    let mut labels = Vec::new(alloc);
    for label in run {
        labels.push(Value::String(LabelText(label).to_string(alloc)?))?;
    }
    Ok(Value::Array(labels))
}

fn outcome_value(alloc: Global, outcome: &Outcome) -> Result<Value, AllocError>
    ensures { IfOk result (λ value. view value ≡ outcome_json outcome.now) }
{
    let run = run_value(alloc, outcome.run.as_slice())?;
    let verdict = word_of(outcome.verdict);
    json!(in alloc; {"run": run, "verdict": verdict})
}

fn outcomes_value(alloc: Global, outcomes: &[Outcome]) -> Result<Value, AllocError>
    ensures { IfOk result (λ value. view value ≡ list_of outcome_json outcomes.now) }
{
    let mut values = Vec::new(alloc);
    for outcome in outcomes {
        values.push(outcome_value(alloc, outcome)?)?;
    }
    Ok(Value::Array(values))
}

/// The places of branches.
fn branches_value(alloc: Global, branches: &[Span]) -> Result<Value, AllocError>
    ensures { IfOk result (λ value. view value ≡ list_of place_json branches.now) }
{
    let mut places = Vec::new(alloc);
    for place in branches {
        places.push(Value::String(PlaceText(*place).to_string(alloc)?))?;
    }
    Ok(Value::Array(places))
}

fn standing_value(alloc: Global, standing: &Standing) -> Result<Value, AllocError>
    ensures { IfOk result (λ value. view value ≡ standing_json standing.now) }
{
    let component = PathText(standing.component.numbers.as_slice()).to_string(alloc)?;
    let place = PlaceText(standing.place).to_string(alloc)?;
    json!(in alloc; {"component": component, "place": place})
}

fn blocked_value(alloc: Global, blocked: &[Standing]) -> Result<Value, AllocError>
    ensures { IfOk result (λ value. view value ≡ list_of standing_json blocked.now) }
{
    let mut values = Vec::new(alloc);
    for standing in blocked {
        values.push(standing_value(alloc, standing)?)?;
    }
    Ok(Value::Array(values))
}

fn report_value(alloc: Global, report: &Report) -> Result<Value, AllocError>
    ensures { IfOk result (λ value. view value ≡ report_json report.now) }
{
    let blocked = blocked_value(alloc, report.blocked.as_slice())?;
    let branches = branches_value(alloc, report.branches.as_slice())?;
    let verdicts = outcomes_value(alloc, report.outcomes.as_slice())?;
    json!(in alloc; {
        "blocked": blocked,
        "branches": branches,
        "complete": report.complete,
        "configurations": report.configurations,
        "steps": report.steps,
        "testcase": &report.testcase,
        "verdicts": verdicts
    })
}

/// The report as one JSON object without blanks, and byte 10.
pub fn to_json(alloc: Global, report: &Report) -> Result<String, AllocError>
    ensures { IfOk result (λ text. string_bytes text ≡ json_text report.now) }
{
    let mut text = report_value(alloc, report)?.to_string(alloc)?;
    text.push_str("\n")?;
    Ok(text)
}
