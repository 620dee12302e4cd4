//! Doublings of runs, and back.
use report::{LabelText, word_of};
use std::alloc::{AllocError, Global};
use ttcnx::{Outcome, Report, coarsen_text, double_text};

/// The verdict of the first run of a report whose doubling doesn't stand for it.
pub fn lost_run(
    alloc: Global,
    text: &[u8],
    name: &str,
    script: &[u8],
    report: &Report,
) -> Result<Option<&'static str>, AllocError> {
    for outcome in &report.outcomes {
        let run = run_file(alloc, outcome)?;
        if !comes_back(alloc, text, name, script, run.as_bytes()) {
            return Ok(Some(word_of(outcome.verdict)));
        }
    }
    Ok(None)
}

/// A run of a report as a run file.
fn run_file(alloc: Global, outcome: &Outcome) -> Result<String, AllocError> {
    let mut file = String::new(alloc);
    for label in &outcome.run {
        let line = format!(in alloc; "{}\n", LabelText(label))?;
        file.push_str(line.as_str())?;
    }
    Ok(file)
}

/// Whether the doubling of a run stands for this run.
fn comes_back(alloc: Global, text: &[u8], name: &str, script: &[u8], run: &[u8]) -> bool {
    let Ok(doubled) = double_text(alloc, text, name, run, script) else {
        return false;
    };
    match coarsen_text(alloc, text, name, doubled.as_slice(), script) {
        Ok(coarse) => coarse.as_slice() == run,
        Err(_) => false,
    }
}
