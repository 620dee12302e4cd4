//! What is told behind a report, in words.
use crate::explain::drawn;
use crate::explained::{
    Case, Explained, Explanation, Sought, block_runs, common, loss_runs, nearest, seen_in,
    setting_runs,
};
use chart_formats::Chart;
use chart_words::{Course, Names, Passage, order_of};
use report::{LabelText, PlaceText};
use std::alloc::{AllocError, Global};
use std::fmt;
use std::fmt::Write;
use step_labels::Label;
use ttcn_syntax::Span;
use ttcnx_command_line::Format;

/// Words on one line: a point stands for each character that doesn't print.
#[derive(Clone, Copy)]
struct OneLine<'a>(&'a str);

impl fmt::Display for OneLine<'_> {
    fn fmt<W: fmt::Write>(&self, f: &mut fmt::Formatter<W>) -> fmt::Result {
        for character in self.0.chars() {
            let is_control = character.is_control();
            f.write_char(if is_control { '.' } else { character })?;
        }
        Ok(())
    }
}

/// What is told behind a report as text, a section behind the other.
pub(crate) fn in_words(
    alloc: Global,
    case: Case<'_, '_>,
    explanation: &Explanation<'_>,
) -> Result<String, AllocError> {
    let names = Names {
        definitions: case.program.module().definitions.as_slice(),
        slots: case.machine.names(),
    };
    let runs = explanation.runs.as_slice();
    let blocks = block_runs(alloc, case, explanation)?;
    let settings = setting_runs(alloc, case, explanation, blocks.as_slice())?;
    let losses = loss_runs(
        alloc,
        case,
        explanation,
        settings.as_slice(),
        blocks.as_slice(),
    )?;
    let mut out = String::new(alloc);
    write_runs(alloc, &mut out, runs)?;
    write_partings(alloc, &mut out, names, runs)?;
    write_untaken(&mut out, explanation)?;
    write_settings(
        &mut out,
        explanation,
        settings.as_slice(),
        losses.as_slice(),
        blocks.as_slice(),
    )?;
    write_losses(
        &mut out,
        explanation,
        settings.as_slice(),
        losses.as_slice(),
        blocks.as_slice(),
    )?;
    write_beside(alloc, &mut out, names, runs, settings.as_slice())?;
    write_beside(alloc, &mut out, names, runs, losses.as_slice())?;
    write_beside(alloc, &mut out, names, runs, blocks.as_slice())?;
    Ok(out)
}

/// Writes the chart of a run.
fn write_run(alloc: Global, out: &mut String, run: &Explained<'_>) -> Result<(), AllocError> {
    write!(out, "\n{}:\n\n", run.naming.heading)?;
    if let Some(words) = &run.left_out {
        write!(out, "{words}\n\n")?;
    }
    out.push_str(drawn(alloc, &run.chart, Format::Text)?.as_str())?;
    Ok(())
}

/// Writes the chart of each run.
fn write_runs(alloc: Global, out: &mut String, runs: &[Explained<'_>]) -> Result<(), AllocError> {
    for run in runs {
        write_run(alloc, out, run)?;
    }
    Ok(())
}

/// Writes the chart of each run, and where it parts from that run to a verdict with which it goes the longest.
fn write_beside(
    alloc: Global,
    out: &mut String,
    names: Names<'_>,
    runs: &[Explained<'_>],
    others: &[Explained<'_>],
) -> Result<(), AllocError> {
    for other in others {
        write_run(alloc, out, other)?;
        if let Some((_, run)) = nearest(runs, other.run) {
            write_parting(alloc, out, names, run, other)?;
        }
    }
    Ok(())
}

/// Writes of each two runs where they part.
fn write_partings(
    alloc: Global,
    out: &mut String,
    names: Names<'_>,
    runs: &[Explained<'_>],
) -> Result<(), AllocError> {
    for one in 0..runs.len() {
        for other in one + 1..runs.len() {
            write_parting(alloc, out, names, &runs[one], &runs[other])?;
        }
    }
    Ok(())
}

/// Writes the branches that no run takes.
fn write_untaken(out: &mut String, explanation: &Explanation<'_>) -> Result<(), AllocError> {
    if explanation.untaken.is_empty() {
        return Ok(());
    }
    if explanation.report.complete {
        out.push_str("\nbranches that no run takes:\n")?;
    } else {
        let steps = explanation.report.steps;
        writeln!(out, "\nbranches that no run within {steps} steps takes:")?;
    }
    for branch in &explanation.untaken {
        write_passage(out, branch)?;
        out.push('\n')?;
    }
    Ok(())
}

/// Writes what stands at a place.
fn write_passage(out: &mut String, passage: &Passage) -> Result<(), AllocError> {
    let (place, behaviour) = (PlaceText(passage.place), &passage.behaviour);
    let text = OneLine(passage.text.as_str());
    write!(out, "  {place} in {behaviour}: {text}")
}

/// Writes the statements that set a verdict in some run, each with the step of a run that is shown.
fn write_settings(
    out: &mut String,
    explanation: &Explanation<'_>,
    settings: &[Explained<'_>],
    losses: &[Explained<'_>],
    blocks: &[Explained<'_>],
) -> Result<(), AllocError> {
    if explanation.settings.is_empty() {
        return Ok(());
    }
    if explanation.report.complete {
        out.push_str("\nstatements that set a verdict:\n")?;
    } else {
        let steps = explanation.report.steps;
        writeln!(out, "\nstatements that set a verdict within {steps} steps:")?;
    }
    let runs = explanation.runs.as_slice();
    for setting in &explanation.settings {
        let place = setting.passage.place;
        write_passage(out, &setting.passage)?;
        if !write_step_of(out, runs, settings, losses, blocks, place, Sought::Change)? {
            write_step_of(out, runs, settings, losses, blocks, place, Sought::Step)?;
        }
        out.push('\n')?;
    }
    Ok(())
}

/// Writes the statements whose message is lost in some run, each with the step of a run that is shown.
fn write_losses(
    out: &mut String,
    explanation: &Explanation<'_>,
    settings: &[Explained<'_>],
    losses: &[Explained<'_>],
    blocks: &[Explained<'_>],
) -> Result<(), AllocError> {
    if explanation.losses.is_empty() {
        return Ok(());
    }
    out.push_str(
        "\nmessages that are lost, since the component that they are meant for has ended:\n",
    )?;
    let runs = explanation.runs.as_slice();
    for loss in &explanation.losses {
        let place = loss.passage.place;
        write_passage(out, &loss.passage)?;
        write_step_of(out, runs, settings, losses, blocks, place, Sought::Loss)?;
        out.push('\n')?;
    }
    Ok(())
}

/// Writes which step of one of these runs is that of the statement at a place. Gives whether one is.
fn write_step_in(
    out: &mut String,
    runs: &[Explained<'_>],
    place: Span,
    sought: Sought,
) -> Result<bool, AllocError> {
    match seen_in(runs, place, sought) {
        Some((number, run)) => {
            write!(out, ": step {number} of {}", run.naming.title)?;
            Ok(true)
        }
        None => Ok(false),
    }
}

/// Writes which step of a run that is shown is that of the statement at a place. Gives whether one is.
fn write_step_of(
    out: &mut String,
    runs: &[Explained<'_>],
    settings: &[Explained<'_>],
    losses: &[Explained<'_>],
    blocks: &[Explained<'_>],
    place: Span,
    sought: Sought,
) -> Result<bool, AllocError> {
    Ok(
        write_step_in(out, runs, place, sought)?
            || write_step_in(out, settings, place, sought)?
            || write_step_in(out, losses, place, sought)?
            || write_step_in(out, blocks, place, sought)?,
    )
}

/// What happens in the step of a number, in words.
fn words_of(chart: &Chart, number: usize) -> Option<&str> {
    let row = chart
        .rows
        .iter()
        .find(|row| row.first <= number && number <= row.last)?;
    let words = row.steps.get(number.saturating_sub(row.first))?;
    Some(words.as_str())
}

/// A run as what comes to components is told of it.
fn course<'a>(run: &'a Explained<'_>) -> Course<'a> {
    Course {
        name: run.naming.name.as_str(),
        labels: run.run,
        story: &run.story,
    }
}

/// Writes what a run does in a step.
fn write_step(out: &mut String, one: &Explained<'_>, place: usize) -> Result<(), AllocError> {
    let number = place.saturating_add(1);
    if let (Some(label), Some(words)) = (one.run.get(place), words_of(&one.chart, number)) {
        let (name, label, words) = (&one.naming.name, LabelText(label), OneLine(words));
        writeln!(out, "  {name}: {label}: {words}")?;
    }
    Ok(())
}

/// Writes where two runs part, what each does there, and what first comes otherwise to a component behind it.
fn write_parting(
    alloc: Global,
    out: &mut String,
    names: Names<'_>,
    one: &Explained<'_>,
    other: &Explained<'_>,
) -> Result<(), AllocError> {
    let place = common(one.run, other.run);
    let (first, second) = (&one.naming.name, &other.naming.name);
    let number = place.saturating_add(1);
    writeln!(out, "\n{first} and {second} part at step {number}:")?;
    write_step(out, one, place)?;
    write_step(out, other, place)?;
    match order_of(alloc, names, course(one), course(other), place)? {
        Some(order) => writeln!(out, "  {order}"),
        None => Ok(()),
    }
}
