//! Numbers and words, as the drawings write them.
use crate::chart::{Chart, Row};
use std::alloc::AllocError;
use std::fmt;

/// The numbers of a row's steps: `7`, or `11-14`.
#[derive(Clone, Copy)]
pub(crate) struct Steps<'a>(pub(crate) &'a Row);

impl<'a> fmt::Display for Steps<'a> {
    fn fmt<W: fmt::Write>(&self, f: &mut fmt::Formatter<W>) -> fmt::Result {
        let (first, last) = (self.0.first, self.0.last);
        if first == last {
            write!(f, "{first}")
        } else {
            write!(f, "{first}-{last}")
        }
    }
}

/// The number of digits of a number.
fn digits(number: usize) -> usize {
    match number.checked_ilog10() {
        Some(power) => (power as usize).saturating_add(1),
        None => 1,
    }
}

/// What stands at the left of the rows: the numbers of the steps, and the lines in the module's text.
pub(crate) const TITLES: [&str; 2] = ["step", "line"];

/// The number of characters of the longest numbers of steps, or of the title above them.
pub(crate) fn steps_width(chart: &Chart) -> usize {
    let widths = chart.rows.iter().map(|row| {
        if row.first == row.last {
            digits(row.first)
        } else {
            digits(row.first)
                .saturating_add(digits(row.last))
                .saturating_add(1)
        }
    });
    widths.max().unwrap_or(0).max(4)
}

/// The number of characters of the longest number of a line, or of the title above them.
pub(crate) fn lines_width(chart: &Chart) -> usize {
    let widths = chart
        .rows
        .iter()
        .map(|row| digits(row.line.unwrap_or(0) as usize));
    widths.max().unwrap_or(0).max(4)
}

/// A character, and what stands for it in words that are written for a reader to whom the character means something.
pub(crate) type Escape = (char, &'static str);

/// What stands for a character, where the list has it, and a blank for one that doesn't print.
fn escape_of(escapes: &[Escape], character: char) -> Option<&'static str> {
    for escape in escapes {
        if escape.0 == character {
            return Some(escape.1);
        }
    }
    if character.is_control() {
        Some(" ")
    } else {
        None
    }
}

/// Adds words, with their characters escaped.
pub(crate) fn push_escaped(
    text: &mut String,
    words: &str,
    escapes: &[Escape],
) -> Result<(), AllocError> {
    for character in words.chars() {
        match escape_of(escapes, character) {
            Some(other) => text.push_str(other)?,
            None => text.push(character)?,
        }
    }
    Ok(())
}
