//! What the layers of the machine say of a module: whether the calls of a machine say the same behind every short run of a
//! test case, or a picture of a behaviour's graph.
mod agreement;
mod behind;
mod graph;
mod picture;
mod runs;
mod spelled;
mod words;

use behind::{compared_forms, seen_behind};
use graph::picture_of;
use report::read_script;
use runs::compared;
use spelled::LabelNames;
use std::alloc::{AllocError, Global};
use test_corpus::Settings;
use test_refusals::program;
use ttcn_step::Machine;
use ttcn_syntax::Name;

/// What is said of the test case or the behaviour that the settings name.
pub fn answer_of_machine(
    alloc: Global,
    text: &str,
    settings: &Settings<'_>,
) -> Result<String, AllocError> {
    let program = match program(alloc, text) {
        Ok(program) => program,
        Err(refusal) => return refusal.to_string(alloc),
    };
    if let Some(name) = settings.get("graph") {
        return picture_of(alloc, &program, name, settings);
    }
    let Some(testcase) = program.testcase(settings.get("testcase").unwrap_or("T")) else {
        return String::from_str(alloc, "no test case");
    };
    let script = settings.get("script").unwrap_or("{}");
    let Ok(script) = read_script(alloc, script.as_bytes(), &program, testcase) else {
        return String::from_str(alloc, "no script");
    };
    let machine = Machine::with_script(alloc, &program, testcase, &script)?;
    answer_behind(alloc, &machine, settings)
}

/// What a machine says behind the runs that the settings name.
fn answer_behind(
    alloc: Global,
    machine: &Machine<'_>,
    settings: &Settings<'_>,
) -> Result<String, AllocError> {
    if let Some(run) = settings.get("behind") {
        return seen_behind(alloc, machine, run);
    }
    if let Some(runs) = settings.get("forms") {
        return compared_forms(alloc, machine, runs);
    }
    let Some(steps) = steps(settings) else {
        return String::from_str(alloc, "no steps");
    };
    let names = LabelNames {
        timers: names(alloc, settings.get("timers").unwrap_or(""))?,
        ports: names(alloc, settings.get("ports").unwrap_or(""))?,
    };
    compared(alloc, machine, steps, &names)
}

/// How long runs may be, unless that isn't set or is no number.
fn steps(settings: &Settings<'_>) -> Option<u64> {
    settings.get("steps")?.parse::<u64>().ok()
}

/// The names that stand between blanks.
fn names(alloc: Global, words: &str) -> Result<Vec<Name>, AllocError> {
    let mut names = Vec::new(alloc);
    for word in words.split_whitespace() {
        names.push(Name::new(alloc, word.as_bytes())?)?;
    }
    Ok(names)
}
