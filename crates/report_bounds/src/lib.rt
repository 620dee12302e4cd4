//! Reports on the runs of a test case that keep a bound on expiries of timers: as other reports, and they say which bound it is.
#![tactic(auto)]

ghost use Rattle.report_bounds.specs.BoundedTexts.{bound_json, bound_lines, bounded_json_text, bounded_text};
ghost use Rattle.serde_json.specs.View.{view};
ghost use Rattle.std.specs.Prelude.{◌≡◌, IfOk, string_bytes};

use report::{Report, to_json, to_text};
use search_bounds::Bound;
use serde_json::{Value, json};
use std::alloc::{AllocError, Global};

/// The lines that tell of a bound.
fn bound_lines(alloc: Global, bound: Bound) -> Result<String, AllocError>
    ensures { IfOk result (λ lines. string_bytes lines ≡ bound_lines bound) }
{
    let mut lines = match bound.expiries {
        Some(number) => format!(in alloc; "expiries {number}\n")?,
        None => String::new(alloc),
    };
    if bound.patient {
        lines.push_str("patient-timers\n")?;
    }
    Ok(lines)
}

/// The text of a report on the runs that keep a bound: the report's, with the lines that tell of the bound behind that of the
/// steps.
pub fn bounded_text(alloc: Global, report: &Report, bound: Bound) -> Result<Vec<u8>, AllocError>
    ensures { IfOk result (λ text. text.items ≡ bounded_text bound report.now) }
{
    let head = format!(in alloc; "testcase {}\nsteps {}\n", report.testcase, report.steps)?;
    let lines = bound_lines(alloc, bound)?;
    let whole = to_text(alloc, report)?;
    let mut text = head.into_bytes();
    let rest = &whole.as_bytes()[text.len()..];
    text.extend_from_slice(lines.as_bytes())?;
    text.extend_from_slice(rest)?;
    Ok(text)
}

/// What tells of a bound.
fn bound_value(alloc: Global, bound: Bound) -> Result<Value, AllocError>
    ensures { IfOk result (λ value. view value ≡ bound_json bound) }
{
    match (bound.expiries, bound.patient) {
        (Some(number), true) => json!(in alloc; {"expiries": number, "patient_timers": true}),
        (Some(number), false) => json!(in alloc; {"expiries": number}),
        (None, true) => json!(in alloc; {"patient_timers": true}),
        (None, false) => json!(in alloc; {}),
    }
}

/// A report on the runs that keep a bound as one JSON object without blanks, and byte 10: the report's, with what tells of the
/// bound behind its other members.
pub fn bounded_json(alloc: Global, report: &Report, bound: Bound) -> Result<Vec<u8>, AllocError>
    ensures { IfOk result (λ text. text.items ≡ bounded_json_text bound report.now) }
{
    let within = bound_value(alloc, bound)?.to_string(alloc)?;
    let mut text = to_json(alloc, report)?.into_bytes();
    text.truncate(text.len() - 2);
    text.extend_from_slice(b",\"within\":")?;
    text.extend_from_slice(within.as_bytes())?;
    text.extend_from_slice(b"}\n")?;
    Ok(text)
}
