//! What the commands print, and their faults.
mod bounds;
mod doubling;
mod folding;
mod plans;
mod run_file;

use bounds::{bound_of, printed_within, report_within};
use doubling::lost_run;
use explore::{NoGate, Plan};
use folding::folded;
use plans::plans_of;
use run_file::run_file_of;
use std::alloc::{AllocError, Global};
use std::thread::Threads;
use test_corpus::Settings;
use ttcnx::{
    Fault, Report, check_answer, coarsen_text, double_text, fault_line, replay_text, run_script,
    status, to_json, to_text,
};

/// What the program prints for a text, where the settings stand for its words; or its fault.
pub fn answer_of<R: Threads + Sync>(
    rt: &R,
    alloc: Global,
    text: &[u8],
    settings: &Settings<'_>,
) -> Result<String, AllocError> {
    let text = beginning(text, settings);
    match settings.get("command").unwrap_or("run") {
        "run" => answer_of_run(rt, alloc, text, settings),
        "check" => answer_of_check(alloc, text),
        "coarsen" | "double" | "replay" => answer_by_run_file(alloc, text, settings),
        _ => String::from_str(alloc, "no such command"),
    }
}

/// As many bytes of a text as the row asks for.
fn beginning<'a>(text: &'a [u8], settings: &Settings<'_>) -> &'a [u8] {
    let bytes = settings.get("bytes").unwrap_or("");
    match bytes.parse::<usize>() {
        Ok(bytes) => text.get(..bytes).unwrap_or(text),
        Err(_) => text,
    }
}

/// The answer of `check`.
fn answer_of_check(alloc: Global, text: &[u8]) -> Result<String, AllocError> {
    match check_answer(alloc, text) {
        Ok(printed) => without_last_end(alloc, printed.as_str()),
        Err(fault) => text_of_fault(alloc, &fault),
    }
}

/// The answer of a command that reads a run file.
fn answer_by_run_file(
    alloc: Global,
    text: &[u8],
    settings: &Settings<'_>,
) -> Result<String, AllocError> {
    let run = run_file_of(alloc, settings)?;
    let (run, name, script) = (run.as_bytes(), testcase(settings), script(settings));
    let answer = match settings.get("command") {
        Some("coarsen") => coarsen_text(alloc, text, name, run, script),
        Some("double") => double_text(alloc, text, name, run, script),
        _ => replay_text(alloc, text, name, run, script),
    };
    match answer {
        Ok(printed) => match str::from_utf8(printed.as_slice()) {
            Ok(printed) => shown_lines(alloc, printed, settings),
            Err(_) => String::from_str(alloc, "not UTF-8"),
        },
        Err(fault) => text_of_fault(alloc, &fault),
    }
}

/// Printed lines in the row's format; there may be none.
fn shown_lines(
    alloc: Global,
    printed: &str,
    settings: &Settings<'_>,
) -> Result<String, AllocError> {
    if printed.is_empty() {
        return String::from_str(alloc, "no lines");
    }
    match settings.get("format") {
        Some("folded") => without_last_end(alloc, folded(alloc, printed)?.as_str()),
        _ => without_last_end(alloc, printed),
    }
}

/// The answer of `run`, if it is the same under each of the row's plans.
fn answer_of_run<R: Threads + Sync>(
    rt: &R,
    alloc: Global,
    text: &[u8],
    settings: &Settings<'_>,
) -> Result<String, AllocError> {
    let Some(plans) = plans_of(alloc, settings)? else {
        return String::from_str(alloc, "no plan");
    };
    let mut answers = Vec::new(alloc);
    for plan in &plans {
        answers.push(answer_under(rt, alloc, text, settings, plan)?)?;
    }
    let Some(first) = answers.first() else {
        return String::from_str(alloc, "no plan");
    };
    match answers
        .iter()
        .position(|answer| answer.as_str() != first.as_str())
    {
        Some(number) => format!(in alloc; "differs under plan {}", number.saturating_add(1)),
        None => String::from_str(alloc, first.as_str()),
    }
}

/// The answer of `run` under a plan, if each of its runs comes back from its doubling.
fn answer_under<R: Threads + Sync>(
    rt: &R,
    alloc: Global,
    text: &[u8],
    settings: &Settings<'_>,
    plan: &Plan,
) -> Result<String, AllocError> {
    let (name, script) = (testcase(settings), script(settings));
    let answer = match bound_of(settings) {
        Some(bound) => report_within(rt, alloc, text, script, name, bound, plan),
        None => run_script(rt, alloc, text, script, name, plan, &NoGate),
    };
    match answer {
        Ok(report) => match lost_run(alloc, text, name, script, &report)? {
            None => shown(alloc, &report, settings),
            Some(verdict) => format!(in alloc; "the run to {verdict} is lost by its doubling"),
        },
        Err(fault) => text_of_fault(alloc, &fault),
    }
}

/// A report in the row's format.
fn shown(alloc: Global, report: &Report, settings: &Settings<'_>) -> Result<String, AllocError> {
    let json = settings.get("format") == Some("json");
    let printed = match bound_of(settings) {
        Some(bound) => printed_within(alloc, report, bound, json)?,
        None if json => to_json(alloc, report)?,
        None => to_text(alloc, report)?,
    };
    shown_lines(alloc, printed.as_str(), settings)
}

/// The name of the test case.
fn testcase<'a>(settings: &Settings<'a>) -> &'a str {
    settings.get("testcase").unwrap_or("T")
}

/// The script: one by which nothing comes in, where the row has none.
fn script<'a>(settings: &Settings<'a>) -> &'a [u8] {
    settings.get("script").unwrap_or("{}").as_bytes()
}

/// What is printed, without the end of its last line: the answer of a row has none.
fn without_last_end(alloc: Global, printed: &str) -> Result<String, AllocError> {
    match printed.strip_suffix('\n') {
        Some(lines) => String::from_str(alloc, lines),
        None => format!(in alloc; "a last line without its end: {printed}"),
    }
}

/// The status and the line of a fault.
fn text_of_fault(alloc: Global, fault: &Fault) -> Result<String, AllocError> {
    let (status, line) = (status(fault), fault_line(alloc, fault)?);
    format!(in alloc; "status {status}\n{line}")
}
