//! What a machine says behind one run: the enabled labels, where components stand, and canonical forms.
use report::{LabelText, PathText, PlaceText, read_run};
use std::alloc::{AllocError, Global};
use step_labels::{Label, Standing};
use ttcn_config::{Config, canon, pack, unpack};
use ttcn_step::Machine;

/// The labels between blanks, unless one of the words is no label.
fn labels_of(alloc: Global, words: &str) -> Result<Option<Vec<Label>>, AllocError> {
    let mut lines = String::new(alloc);
    for word in words.split_whitespace() {
        lines.push_str(word)?;
        lines.push_str("\n")?;
    }
    Ok(read_run(alloc, lines.as_bytes()).ok())
}

/// The canonical form of the configuration behind the run that words spell, if they do.
fn form_behind(
    alloc: Global,
    machine: &Machine<'_>,
    words: &str,
) -> Result<Option<Config>, AllocError> {
    let Some(run) = labels_of(alloc, words)? else {
        return Ok(None);
    };
    match machine.replay(alloc, run.as_slice()) {
        Ok(config) => Ok(Some(canon(alloc, &config)?)),
        Err(_) => Ok(None),
    }
}

/// Whether the configurations behind two runs, with a bar between them, have one canonical form.
pub fn compared_forms(
    alloc: Global,
    machine: &Machine<'_>,
    runs: &str,
) -> Result<String, AllocError> {
    let Some((one, other)) = runs.split_once('|') else {
        return String::from_str(alloc, "no two runs");
    };
    let one = form_behind(alloc, machine, one)?;
    let other = form_behind(alloc, machine, other)?;
    let (Some(one), Some(other)) = (one, other) else {
        return String::from_str(alloc, "no run");
    };
    let answer = answer_of_forms(alloc, &one, &other)?;
    String::from_str(alloc, answer)
}

/// Whether two canonical forms are equal, if their bytes say the same and give them back.
fn answer_of_forms(
    alloc: Global,
    one: &Config,
    other: &Config,
) -> Result<&'static str, AllocError> {
    let bytes_of_one = pack(alloc, one)?;
    let bytes_of_other = pack(alloc, other)?;
    let is_equal = one == other;
    if (bytes_of_one == bytes_of_other) != is_equal {
        return Ok("their bytes differ from them");
    }
    if unpack(alloc, &bytes_of_one)? != *one || unpack(alloc, &bytes_of_other)? != *other {
        return Ok("their bytes give others back");
    }
    Ok(if is_equal { "equal" } else { "different" })
}

/// The labels that are enabled behind a run, and the components that run, each with the place where it stands: a line each.
pub fn seen_behind(
    alloc: Global,
    machine: &Machine<'_>,
    words: &str,
) -> Result<String, AllocError> {
    let Some(run) = labels_of(alloc, words)? else {
        return String::from_str(alloc, "no run");
    };
    let Ok(config) = machine.replay(alloc, run.as_slice()) else {
        return String::from_str(alloc, "no run");
    };
    let mut seen = String::new(alloc);
    push_labels(alloc, &mut seen, machine.labels(alloc, &config)?.as_slice())?;
    push_standings(
        alloc,
        &mut seen,
        machine.standings(alloc, &config)?.as_slice(),
    )?;
    Ok(seen)
}

/// A line for each label.
fn push_labels(alloc: Global, lines: &mut String, labels: &[Label]) -> Result<(), AllocError> {
    for label in labels {
        push_line(alloc, lines, LabelText(label).to_string(alloc)?)?;
    }
    Ok(())
}

/// A line for each component that runs, with the place where it stands.
fn push_standings(
    alloc: Global,
    lines: &mut String,
    standings: &[Standing],
) -> Result<(), AllocError> {
    for standing in standings {
        let component = PathText(standing.component.numbers.as_slice());
        let place = PlaceText(standing.place);
        let line = format!(in alloc; "{component} at {place}")?;
        push_line(alloc, lines, line)?;
    }
    Ok(())
}

/// A line comes behind those that stand there.
fn push_line(alloc: Global, lines: &mut String, line: String) -> Result<(), AllocError> {
    let between = if lines.is_empty() { "" } else { "\n" };
    let line = format!(in alloc; "{between}{line}")?;
    lines.push_str(line.as_str())
}
