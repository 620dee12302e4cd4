//! Rows, and the files that they stand in.
use crate::{Frame, RowsError, Settings, expand_repeats};
use std::alloc::{AllocError, Global};

/// The rows of a file.
#[derive(Drop)]
pub struct Rows<'a> {
    /// What each row's text is put into; without a frame a row's text is the whole one.
    pub frame: Option<Frame>,
    pub rows: Vec<Row<'a>>,
}

/// A text, and the answer that it wants.
#[derive(Clone, Copy)]
pub struct Row<'a> {
    /// The number of the title's line.
    pub line: u64,
    pub title: &'a str,
    pub settings: Settings<'a>,
    /// The lines of the text.
    pub text: &'a [&'a str],
    /// The lines of the answer, each behind `>> `.
    pub answer: &'a [&'a str],
}

impl<'a> Rows<'a> {
    /// The text of a row in the frame, with repeats written out.
    pub fn text(&self, alloc: Global, row: &Row<'a>) -> Result<String, RowsError> {
        let lines = joined(alloc, row.text)?;
        let text = expand_repeats(alloc, row.line, lines.as_str())?;
        match &self.frame {
            Some(frame) => Ok(frame.around(text.as_str())?),
            None => Ok(text),
        }
    }
}

impl<'a> Row<'a> {
    /// The answer that is wanted.
    pub fn wanted(&self, alloc: Global) -> Result<String, AllocError> {
        let mut lines = Vec::with_capacity(alloc, self.answer.len())?;
        for line in self.answer {
            let answer = line.strip_prefix(">>").unwrap_or(line);
            lines.push(answer.strip_prefix(' ').unwrap_or(answer))?;
        }
        joined(alloc, lines.as_slice())
    }
}

/// Lines with a line's end between each two.
pub(crate) fn joined(alloc: Global, lines: &[&str]) -> Result<String, AllocError> {
    let mut text = String::new(alloc);
    for (at, line) in lines.iter().enumerate() {
        if at > 0 {
            text.push('\n')?;
        }
        text.push_str(line)?;
    }
    Ok(text)
}
