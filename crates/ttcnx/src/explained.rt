//! The runs that are shown behind a report: what their steps do, and their charts.
use crate::explain::chart;
use crate::sights::{Block, Visit};
use chart_formats::{Chart, Row};
use chart_steps::{Story, Told, tell, verdict_at};
use chart_words::Passage;
use check_rules::Program;
use config_parts::{Config, Way};
use report::{PathText, PlaceText, Report, word_of};
use std::alloc::{AllocError, Global};
use std::fmt::Write;
use step_labels::{Label, Standing};
use ttcn_step::{Machine, ReplayError};
use ttcn_syntax::{Span, Verdict};

/// The test case whose runs are explained.
#[derive(Clone, Copy)]
pub(crate) struct Case<'a, 't> {
    pub machine: &'a Machine<'t>,
    pub program: &'a Program,
    pub text: &'a [u8],
    pub name: &'a str,
}

/// How a run is called.
#[derive(Drop)]
pub(crate) struct Naming {
    /// Above its chart: `How it ends with fail`.
    pub heading: String,
    /// Where it is referred to: `the run that ends with fail`.
    pub title: String,
    /// Beside another run: `fail`.
    pub name: String,
}

/// A run that is shown: what its steps do, and its chart.
#[derive(Drop)]
pub(crate) struct Explained<'a> {
    pub naming: Naming,
    pub run: &'a [Label],
    pub story: Story,
    pub chart: Chart,
    /// Which steps its chart leaves out, where it does: those of another run that is shown.
    pub left_out: Option<String>,
}

/// What is told behind a report.
#[derive(Drop)]
pub(crate) struct Explanation<'a> {
    pub report: &'a Report,
    /// The runs to verdicts.
    pub runs: Vec<Explained<'a>>,
    /// The branches that no run takes.
    pub untaken: Vec<Passage>,
    /// The statements that set a verdict in some run.
    pub settings: Vec<Visit<'a>>,
    /// The statements whose message is lost in some run.
    pub losses: Vec<Visit<'a>>,
    pub blocks: Vec<Block<'a>>,
}

/// Explains a run.
fn explain<'a>(
    alloc: Global,
    case: Case<'_, '_>,
    naming: Naming,
    run: &'a [Label],
) -> Result<Option<Explained<'a>>, AllocError> {
    match tell(alloc, case.machine, run) {
        Ok(story) => {
            let chart = chart(
                alloc,
                case.machine,
                case.program,
                case.text,
                case.name,
                run,
                &story,
            )?;
            Ok(Some(Explained {
                naming,
                run,
                story,
                chart,
                left_out: None,
            }))
        }
        Err(ReplayError::NotEnabled(_)) => Ok(None),
        Err(ReplayError::Memory) => Err(AllocError),
    }
}

/// The run among these that begins with the most steps of another one, and how many these are.
pub(crate) fn nearest<'e, 'a>(
    runs: &'e [Explained<'a>],
    other: &[Label],
) -> Option<(usize, &'e Explained<'a>)> {
    let mut found: Option<(usize, &'e Explained<'a>)> = None;
    for run in runs {
        let count = common(run.run, other);
        let is_nearer = match found {
            Some((most, _)) => count > most,
            None => true,
        };
        if is_nearer {
            found = Some((count, run));
        }
    }
    found
}

/// The rows with a step behind the one of this number.
fn rows_behind(alloc: Global, rows: Vec<Row>, step: usize) -> Result<Vec<Row>, AllocError> {
    let mut left = Vec::new(alloc);
    for row in rows {
        if row.last > step {
            left.push(row)?;
        }
    }
    Ok(left)
}

/// How many steps of a run are those of one of these, and what says so where there are some.
fn steps_left_out(
    alloc: Global,
    runs: &[Explained<'_>],
    run: &[Label],
) -> Result<(usize, Option<String>), AllocError> {
    match nearest(runs, run) {
        Some((count, other)) if count > 0 => {
            let title = &other.naming.title;
            let words = format!(in alloc; "The first {count} steps are those of {title}.")?;
            Ok((count, Some(words)))
        }
        _ => Ok((0, None)),
    }
}

/// A chart without so many steps, and without what it says at the end unless that is wanted.
fn part_of(alloc: Global, chart: Chart, steps: usize, with_end: bool) -> Result<Chart, AllocError> {
    let Chart {
        testcase,
        columns,
        rows,
        ending,
    } = chart;
    let rows = rows_behind(alloc, rows, steps)?;
    let ending = if with_end { ending } else { Vec::new(alloc) };
    Ok(Chart {
        testcase,
        columns,
        rows,
        ending,
    })
}

/// Explains a run beside others: its chart begins behind the steps that are those of one of them.
fn explain_beside<'a>(
    alloc: Global,
    case: Case<'_, '_>,
    naming: Naming,
    run: &'a [Label],
    others: &[Explained<'_>],
    with_end: bool,
) -> Result<Option<Explained<'a>>, AllocError> {
    let Some(explained) = explain(alloc, case, naming, run)? else {
        return Ok(None);
    };
    let Explained {
        naming,
        run,
        story,
        chart,
        left_out: _left_out,
    } = explained;
    let (steps, left_out) = steps_left_out(alloc, others, run)?;
    let chart = part_of(alloc, chart, steps, with_end)?;
    Ok(Some(Explained {
        naming,
        run,
        story,
        chart,
        left_out,
    }))
}

/// How the run to a verdict is called.
fn verdict_naming(alloc: Global, verdict: Verdict) -> Result<Naming, AllocError> {
    let word = word_of(verdict);
    Ok(Naming {
        heading: format!(in alloc; "How it ends with {word}")?,
        title: format!(in alloc; "the run that ends with {word}")?,
        name: String::from_str(alloc, word)?,
    })
}

/// The runs to verdicts.
pub(crate) fn verdict_runs<'a>(
    alloc: Global,
    case: Case<'_, '_>,
    report: &'a Report,
) -> Result<Vec<Explained<'a>>, AllocError> {
    let mut runs = Vec::new(alloc);
    for outcome in &report.outcomes {
        let naming = verdict_naming(alloc, outcome.verdict)?;
        if let Some(run) = explain(alloc, case, naming, outcome.run.as_slice())? {
            runs.push(run)?;
        }
    }
    Ok(runs)
}

/// Writes a component that is blocked, and where.
fn write_standing(out: &mut String, standing: &Standing) -> Result<(), AllocError> {
    let component = PathText(standing.component.numbers.as_slice());
    write!(out, "{component} at {}", PlaceText(standing.place))
}

/// How the run to a block is called.
fn block_naming(alloc: Global, block: &Block<'_>) -> Result<Naming, AllocError> {
    let mut heading = String::from_str(alloc, "How it comes to block ")?;
    let mut title = String::from_str(alloc, "the run that blocks ")?;
    for (number, standing) in block.standings.iter().enumerate() {
        if number == 0 {
            write_standing(&mut title, standing)?;
        } else {
            heading.push_str(", ")?;
        }
        write_standing(&mut heading, standing)?;
    }
    Ok(Naming {
        heading,
        title,
        name: String::from_str(alloc, "block")?,
    })
}

/// The runs to blocks.
pub(crate) fn block_runs<'a>(
    alloc: Global,
    case: Case<'_, '_>,
    explanation: &Explanation<'a>,
) -> Result<Vec<Explained<'a>>, AllocError> {
    let mut runs = Vec::new(alloc);
    for block in &explanation.blocks {
        let naming = block_naming(alloc, block)?;
        let beside = explanation.runs.as_slice();
        if let Some(run) = explain_beside(alloc, case, naming, block.run, beside, true)? {
            runs.push(run)?;
        }
    }
    Ok(runs)
}

/// How the run to a statement is called.
fn setting_naming(alloc: Global, place: Span) -> Result<Naming, AllocError> {
    let place = PlaceText(place);
    Ok(Naming {
        heading: format!(in alloc; "How it comes to {place}")?,
        title: format!(in alloc; "the run to {place}")?,
        name: place.to_string(alloc)?,
    })
}

/// Whether a step of a run changes the verdict of its component.
fn changes_verdict(label: &Label, before: &Config, behind: &Config) -> bool {
    match label {
        Label::Statement(path) => verdict_at(before, path) != verdict_at(behind, path),
        _ => false,
    }
}

/// Whether the message that a step sends is lost.
fn is_lost(told: &Told) -> bool {
    match &told.sent {
        Some(sent) => match sent.way {
            Way::Lost(_) => true,
            Way::Reaches(_) | Way::Leaves(_) => false,
        },
        None => false,
    }
}

/// What is looked for in runs: any step of a statement, one that changes the verdict, or one whose message is lost.
#[derive(Clone, Copy, PartialEq, Eq)]
pub(crate) enum Sought {
    Step,
    Change,
    Loss,
}

impl Sought {
    fn is_found(self, label: &Label, before: &Config, told: &Told) -> bool {
        match self {
            Sought::Step => true,
            Sought::Change => changes_verdict(label, before, &told.behind),
            Sought::Loss => is_lost(told),
        }
    }
}

/// The number of the first step of a run that is that of the statement at a place, and is sought.
fn step_at(run: &[Label], story: &Story, place: Span, sought: Sought) -> Option<usize> {
    let mut before = &story.start;
    for (at, (label, told)) in run.iter().zip(&story.steps).enumerate() {
        if told.place == Some(place) && sought.is_found(label, before, told) {
            return Some(at.saturating_add(1));
        }
        before = &told.behind;
    }
    None
}

/// A step of one of these runs that is that of the statement at a place.
pub(crate) fn seen_in<'e, 'a>(
    runs: &'e [Explained<'a>],
    place: Span,
    sought: Sought,
) -> Option<(usize, &'e Explained<'a>)> {
    for run in runs {
        if let Some(number) = step_at(run.run, &run.story, place, sought) {
            return Some((number, run));
        }
    }
    None
}

/// Whether the statement at a place changes the verdict in a run.
fn is_change(
    alloc: Global,
    case: Case<'_, '_>,
    place: Span,
    run: &[Label],
) -> Result<bool, AllocError> {
    match tell(alloc, case.machine, run) {
        Ok(story) => Ok(step_at(run, &story, place, Sought::Change).is_some()),
        Err(ReplayError::NotEnabled(_)) => Ok(false),
        Err(ReplayError::Memory) => Err(AllocError),
    }
}

/// A statement to which a run is to be shown, and the least one.
#[derive(Drop)]
struct Unseen<'a> {
    place: Span,
    run: &'a [Label],
}

/// Whether a step of one of these runs is that of the statement at a place.
fn is_seen(runs: &[Explained<'_>], blocks: &[Explained<'_>], place: Span, sought: Sought) -> bool {
    seen_in(runs, place, sought).is_some() || seen_in(blocks, place, sought).is_some()
}

/// The statements that change the verdict in none of these runs, though the least run to them does, and those that are in none
/// of them.
fn not_shown<'a>(
    alloc: Global,
    case: Case<'_, '_>,
    settings: &[Visit<'a>],
    runs: &[Explained<'_>],
    blocks: &[Explained<'_>],
) -> Result<Vec<Unseen<'a>>, AllocError> {
    let mut found = Vec::new(alloc);
    for setting in settings {
        let (place, run) = (setting.passage.place, setting.run);
        if !is_seen(runs, blocks, place, Sought::Change) {
            let is_there = is_seen(runs, blocks, place, Sought::Step);
            if !is_there || is_change(alloc, case, place, run)? {
                found.push(Unseen { place, run })?;
            }
        }
    }
    Ok(found)
}

/// Whether a run is the beginning of a longer one among these.
fn is_beginning(others: &[Unseen<'_>], run: &[Label]) -> bool {
    for other in others {
        if other.run.len() > run.len() && common(other.run, run) == run.len() {
            return true;
        }
    }
    false
}

/// The least runs to statements, where no other run shows how it comes to them. Their charts say nothing of where they end.
pub(crate) fn setting_runs<'a>(
    alloc: Global,
    case: Case<'_, '_>,
    explanation: &Explanation<'a>,
    blocks: &[Explained<'_>],
) -> Result<Vec<Explained<'a>>, AllocError> {
    let others = explanation.runs.as_slice();
    let wanted = not_shown(alloc, case, explanation.settings.as_slice(), others, blocks)?;
    let mut runs = Vec::new(alloc);
    for one in &wanted {
        if !is_beginning(wanted.as_slice(), one.run) {
            let naming = setting_naming(alloc, one.place)?;
            if let Some(run) = explain_beside(alloc, case, naming, one.run, others, false)? {
                runs.push(run)?;
            }
        }
    }
    Ok(runs)
}

/// How the run to a lost message is called.
fn loss_naming(alloc: Global, place: Span) -> Result<Naming, AllocError> {
    let place = PlaceText(place);
    Ok(Naming {
        heading: format!(in alloc; "How the message of {place} is lost")?,
        title: format!(in alloc; "the run that loses the message of {place}")?,
        name: place.to_string(alloc)?,
    })
}

/// The least runs to lost messages, where no other run shows that they are lost. Their charts say nothing of where they end.
pub(crate) fn loss_runs<'a>(
    alloc: Global,
    case: Case<'_, '_>,
    explanation: &Explanation<'a>,
    settings: &[Explained<'_>],
    blocks: &[Explained<'_>],
) -> Result<Vec<Explained<'a>>, AllocError> {
    let others = explanation.runs.as_slice();
    let mut runs = Vec::new(alloc);
    for loss in &explanation.losses {
        let place = loss.passage.place;
        let is_there = is_seen(others, blocks, place, Sought::Loss);
        if !is_there && seen_in(settings, place, Sought::Loss).is_none() {
            let naming = loss_naming(alloc, place)?;
            if let Some(run) = explain_beside(alloc, case, naming, loss.run, others, false)? {
                runs.push(run)?;
            }
        }
    }
    Ok(runs)
}

/// The number of labels with which both runs begin.
pub(crate) fn common(one: &[Label], other: &[Label]) -> usize {
    let mut count: usize = 0;
    for (label, its) in one.iter().zip(other) {
        if *label != *its {
            return count;
        }
        count = count.saturating_add(1);
    }
    count
}
