//! The steps of a run as rows of a chart.
use crate::columns::column_of;
use crate::step::{Speaker, Step, Words, path_of};
use chart_formats::Row;
use chart_steps::Story;
use std::alloc::{AllocError, Global};
use step_labels::Label;

/// Texts of several steps get no longer than this.
const LONGEST: usize = 72;

/// The rows so far, and whether the last one is of a component that only computes.
#[derive(Drop)]
struct Rows {
    rows: Vec<Row>,
    computes: bool,
}

/// Whether a step belongs into the last row: of the same component, which only computes in both, where the text has room.
fn belongs(rows: &Rows, column: Option<usize>, words: &Words) -> bool {
    match rows.rows.last() {
        Some(row) => {
            rows.computes
                && words.computes
                && row.column == column
                && row.text.len().saturating_add(words.text.len()) < LONGEST
        }
        None => false,
    }
}

/// One step more in the last row.
fn add_to_last(rows: &mut Rows, words: Words, number: usize) -> Result<(), AllocError> {
    if let Some(row) = rows.rows.last_mut() {
        row.last = number;
        row.text.push_str("; ")?;
        row.text.push_str(words.text.as_str())?;
        row.steps.push(words.text)?;
    }
    Ok(())
}

/// One step more.
fn push_step(
    alloc: Global,
    speaker: Speaker<'_>,
    step: Step<'_>,
    number: usize,
    rows: &mut Rows,
) -> Result<(), AllocError> {
    let words = speaker.words(alloc, step)?;
    let column = match path_of(step.label) {
        Some(path) => column_of(speaker.components, path),
        None => None,
    };
    if belongs(rows, column, &words) {
        return add_to_last(rows, words, number);
    }
    let Words {
        text,
        computes,
        line,
    } = words;
    let mut steps = Vec::new(alloc);
    steps.push(String::from_str(alloc, text.as_str())?)?;
    rows.rows.push(Row {
        first: number,
        last: number,
        line,
        column,
        text,
        steps,
        arrow: speaker.arrow(step),
    })?;
    rows.computes = computes;
    Ok(())
}

/// The steps of a run as rows.
pub(crate) fn rows_of(
    alloc: Global,
    speaker: Speaker<'_>,
    run: &[Label],
    story: &Story,
) -> Result<Vec<Row>, AllocError> {
    let mut rows = Rows {
        rows: Vec::new(alloc),
        computes: false,
    };
    let mut before = &story.start;
    let mut number: usize = 0;
    for (label, told) in run.iter().zip(story.steps.iter()) {
        number = number.saturating_add(1);
        let step = Step {
            label,
            told,
            before,
        };
        push_step(alloc, speaker, step, number, &mut rows)?;
        before = &told.behind;
    }
    let Rows {
        rows,
        computes: _computes,
    } = rows;
    Ok(rows)
}
