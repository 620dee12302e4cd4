//! Repeats: `<<N times PATTERN>>` in a text stands for the pattern, N times. In the pattern `#` stands for the number of
//! the turn, from 1 on, and `@` for the number before that. `\n` is a line's end, and behind a backslash any other
//! character stands for itself.
ghost use Rattle.std.specs.Prelude.{◌≡◌, ◌⊎◌, IfOk, string_bytes};
ghost use Rattle.test_corpus.specs.Rows.{HasRepeat};

use crate::RowsError;
use std::alloc::{AllocError, Global};

/// A pattern, and how often it is repeated.
#[derive(Clone, Copy)]
struct Repeat<'a> {
    times: u64,
    pattern: &'a str,
}

impl<'a> Repeat<'a> {
    /// The repeat that stands between the brackets.
    fn of(inside: &'a str) -> Option<Repeat<'a>> {
        let (times, pattern) = inside.split_once(" times ")?;
        let times = times.parse::<u64>().ok()?;
        Some(Repeat { times, pattern })
    }

    /// Writes all turns of the pattern to the end of a text.
    fn push_to(&self, alloc: Global, text: &mut String) -> Result<(), AllocError> {
        for before in 0..self.times {
            self.push_turn(alloc, before, text)?;
        }
        Ok(())
    }

    /// Writes the turn that has so many before it.
    fn push_turn(&self, alloc: Global, before: u64, text: &mut String) -> Result<(), AllocError> {
        let mut escaped = false;
        for character in self.pattern.chars() {
            let escapes = character == '\\' && !escaped;
            match character {
                '\\' if escapes => {}
                'n' if escaped => text.push('\n')?,
                '#' if !escaped => push_number(alloc, before.saturating_add(1), text)?,
                '@' if !escaped => push_number(alloc, before, text)?,
                other => text.push(other)?,
            }
            escaped = escapes;
        }
        Ok(())
    }
}

fn push_number(alloc: Global, number: u64, text: &mut String) -> Result<(), AllocError> {
    text.push_str(format!(in alloc; "{number}")?.as_str())
}

/// A text with its repeats written out. The error has the line where one is malformed.
pub fn expand_repeats(alloc: Global, line: u64, text: &str) -> Result<String, RowsError>
    ensures plain { IfOk result (λ whole. ¬ HasRepeat text.now → string_bytes whole ≡ text.now) }
{
    let mut whole = String::new(alloc);
    let mut rest = text;
    while let Some((before, behind)) = rest.split_once("<<") {
        let Some((inside, after)) = behind.split_once(">>") else {
            return Err(RowsError::BadRepeat(line));
        };
        let Some(repeat) = Repeat::of(inside) else {
            return Err(RowsError::BadRepeat(line));
        };
        whole.push_str(before)?;
        repeat.push_to(alloc, &mut whole)?;
        rest = after;
    }
    whole.push_str(rest)?;
    Ok(whole)
}
