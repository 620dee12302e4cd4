//! Findings as JSON.
use lint_findings::{Findings, Remark};
use serde_json::{Map, Value, json, put};
use std::alloc::{AllocError, Global};

/// Adds a finding: one object without blanks, and a line's end.
fn push_remark(
    out: &mut String,
    alloc: Global,
    file: &str,
    (severity, rule): (&str, &str),
    remark: &Remark,
) -> Result<(), AllocError> {
    let (place, message) = (remark.place, &remark.message);
    let mut members: Map<String, Value> = Map::new(alloc);
    put(&mut members, alloc, "column", Value::from(place.column))?;
    put(&mut members, alloc, "file", json!(in alloc; file)?)?;
    if let Some(help) = &remark.help {
        put(&mut members, alloc, "help", json!(in alloc; help)?)?;
    }
    put(&mut members, alloc, "line", Value::from(place.line))?;
    put(&mut members, alloc, "message", json!(in alloc; message)?)?;
    put(&mut members, alloc, "rule", json!(in alloc; rule)?)?;
    put(&mut members, alloc, "severity", json!(in alloc; severity)?)?;
    let value = Value::Object(members);
    out.push_str(value.to_string(alloc)?.as_str())?;
    out.push('\n')
}

/// The findings of a file as JSON: one object a line for each. Its keys are `column`, `file`, `help` where there is
/// some, `line`, `message`, `rule` and `severity`, in this order.
pub fn to_json(alloc: Global, file: &str, findings: &Findings) -> Result<String, AllocError> {
    let mut out = String::new(alloc);
    for finding in &findings.errors {
        let rule = finding.reason.to_string(alloc)?;
        push_remark(
            &mut out,
            alloc,
            file,
            ("error", rule.as_str()),
            &finding.remark,
        )?;
    }
    for warning in &findings.warnings {
        let rule = warning.oddity.to_string(alloc)?;
        push_remark(
            &mut out,
            alloc,
            file,
            ("warning", rule.as_str()),
            &warning.remark,
        )?;
    }
    Ok(out)
}
