//! Charts for Mermaid, which draws sequence diagrams from lines of text.
use crate::chart::{Arrow, Chart, Column, Row};
use crate::words::{Escape, Steps, push_escaped};
use std::alloc::{AllocError, Global};
use std::fmt;

/// The name of a participant: of a column, or of what is outside the test system.
#[derive(Clone, Copy)]
struct Participant(Option<usize>);

impl fmt::Display for Participant {
    fn fmt<W: fmt::Write>(&self, f: &mut fmt::Formatter<W>) -> fmt::Result {
        match self.0 {
            Some(column) => write!(f, "C{column}"),
            None => write!(f, "S"),
        }
    }
}

/// What Mermaid reads in place of the characters that mean something to it.
const ESCAPES: [Escape; 6] = [
    (';', "#59;"),
    ('#', "#35;"),
    ('"', "#quot;"),
    ('<', "#lt;"),
    ('>', "#gt;"),
    ('\n', "<br/>"),
];

/// Words, to the end of the line.
fn push_label(text: &mut String, words: &str) -> Result<(), AllocError> {
    push_escaped(text, words, &ESCAPES)?;
    text.push('\n')
}

fn push_column(text: &mut String, place: usize, column: &Column) -> Result<(), AllocError> {
    let participant = Participant(Some(place));
    write!(text, "    participant {participant} as ")?;
    push_escaped(text, column.name.as_str(), &ESCAPES)?;
    text.push_str(": ")?;
    push_escaped(text, column.component_type.as_str(), &ESCAPES)?;
    if let Some(variable) = &column.variable {
        text.push(' ')?;
        push_escaped(text, variable.as_str(), &ESCAPES)?;
    }
    text.push('\n')
}

fn push_participants(text: &mut String, chart: &Chart) -> Result<(), AllocError> {
    if chart.shows_outside() {
        text.push_str("    participant S as system\n")?;
    }
    for (place, column) in chart.columns.iter().enumerate() {
        push_column(text, place, column)?;
    }
    Ok(())
}

fn push_message(text: &mut String, chart: &Chart, arrow: Arrow) -> Result<(), AllocError> {
    let from = Participant(chart.place_of(arrow.from));
    let to = Participant(chart.place_of(arrow.to));
    let line = if arrow.lost { "-x" } else { "->>" };
    write!(text, "    {from}{line}{to}: ")
}

fn push_row(text: &mut String, chart: &Chart, row: &Row) -> Result<(), AllocError> {
    match row.arrow {
        Some(arrow) => push_message(text, chart, arrow)?,
        None => {
            let participant = Participant(chart.place_of(row.column));
            write!(text, "    Note over {participant}: ")?;
        }
    }
    let (steps, words) = (Steps(row), row.text.as_str().trim_end());
    let blank = if words.is_empty() { "" } else { " " };
    write!(text, "{steps}{blank}")?;
    push_label(text, words)
}

/// A note over all columns.
fn push_note(text: &mut String, chart: &Chart, words: &str) -> Result<(), AllocError> {
    match chart.columns.len() {
        0 => write!(text, "    Note over S: ")?,
        1 => write!(text, "    Note over C0: ")?,
        count => {
            let last = Participant(Some(count - 1));
            write!(text, "    Note over C0,{last}: ")?;
        }
    }
    push_label(text, words)
}

/// The chart as a sequence diagram of Mermaid.
pub fn to_mermaid(alloc: Global, chart: &Chart) -> Result<String, AllocError> {
    let mut text = String::from_str(alloc, "sequenceDiagram\n")?;
    push_participants(&mut text, chart)?;
    for row in &chart.rows {
        push_row(&mut text, chart, row)?;
    }
    for line in &chart.ending {
        push_note(&mut text, chart, line.as_str())?;
    }
    Ok(text)
}
