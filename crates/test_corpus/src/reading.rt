//! From the lines of a file to its rows.
ghost use Rattle.std.specs.Prelude.{◌≡◌, IfOk, map, vec_len};
ghost use Rattle.test_corpus.specs.Rows.{title_count};

use crate::frame::GAP;
use crate::kind::{Kind, is_title};
use crate::row::joined;
use crate::settings::setting;
use crate::{Frame, Row, Rows, RowsError, Settings, expand_repeats};
use std::alloc::Global;

/// Lines of a file that stand one behind the other.
#[derive(Clone, Copy)]
struct Lines<'a> {
    lines: &'a [&'a str],
    /// The number of the first of them in the file.
    number: u64,
}

/// What stands before the first row of a file.
#[derive(Drop)]
struct Head<'a> {
    settings: &'a [&'a str],
    frame: Option<Frame>,
}

impl<'a> Lines<'a> {
    /// Cuts behind so many lines, or behind the last one.
    fn cut(self, count: usize) -> (Lines<'a>, Lines<'a>) {
        let count = count.min(self.lines.len());
        let (first, others) = self.lines.split_at(count);
        let rest = Lines {
            lines: others,
            number: self.number.saturating_add(count as u64),
        };
        (
            Lines {
                lines: first,
                number: self.number,
            },
            rest,
        )
    }

    /// Cuts behind the lines of these kinds that come first.
    fn behind(self, kinds: &[Kind]) -> (Lines<'a>, Lines<'a>) {
        let mut lines = self.lines.iter();
        let other = lines.position(|line| !kinds.contains(&Kind::of(line)));
        self.cut(other.unwrap_or(self.lines.len()))
    }

    /// Cuts before the first line of a kind.
    fn before(self, kind: Kind) -> (Lines<'a>, Lines<'a>) {
        let mut lines = self.lines.iter();
        let first = lines.position(|line| Kind::of(line) == kind);
        self.cut(first.unwrap_or(self.lines.len()))
    }

    /// What stands behind the blank lines and comments that come first.
    fn skip(self) -> Lines<'a> {
        self.behind(&[Kind::Blank, Kind::Comment]).1
    }

    /// The settings that come first, and what stands behind them. No others than these keys are known.
    fn settings(self, keys: &[&str]) -> Result<(&'a [&'a str], Lines<'a>), RowsError> {
        let (settings, rest) = self.behind(&[Kind::Setting]);
        for (number, line) in (settings.number..u64::MAX).zip(settings.lines) {
            let (key, _) = setting(line);
            if !keys.iter().any(|known| *known == key) {
                return Err(RowsError::UnknownKey(number));
            }
        }
        Ok((settings.lines, rest))
    }

    /// The frame, if one comes first, and what stands behind it.
    fn frame(self, alloc: Global) -> Result<(Option<Frame>, Lines<'a>), RowsError> {
        let (line, rest) = self.behind(&[Kind::Frame]);
        if line.lines.is_empty() {
            return Ok((None, rest));
        }
        let (text, rest) = rest.before(Kind::Comment);
        let text = joined(alloc, text.lines)?;
        let Some((before, behind)) = text.as_str().split_once(GAP) else {
            return Err(RowsError::NoGap(self.number));
        };
        let frame = Frame {
            before: expand_repeats(alloc, self.number, before)?,
            behind: expand_repeats(alloc, self.number, behind)?,
        };
        Ok((Some(frame), rest))
    }

    /// Refuses anything but blank lines and comments.
    fn end(self) -> Result<(), RowsError> {
        let rest = self.skip();
        if rest.lines.is_empty() {
            Ok(())
        } else {
            Err(RowsError::Stray(rest.number))
        }
    }

    /// What stands before the first row.
    fn head(self, alloc: Global, keys: &[&str]) -> Result<Head<'a>, RowsError> {
        let (head, _rows) = self.before(Kind::Title);
        let (settings, rest) = head.skip().settings(keys)?;
        let (frame, rest) = rest.skip().frame(alloc)?;
        rest.end()?;
        Ok(Head { settings, frame })
    }

    /// The row of a title, which these lines stand behind.
    fn row(self, title: &'a str, file: &'a [&'a str], keys: &[&str]) -> Result<Row<'a>, RowsError> {
        let line = self.number.saturating_sub(1);
        let (row, _others) = self.before(Kind::Title);
        let (settings, rest) = row.settings(keys)?;
        let (text, rest) = rest.before(Kind::Answer);
        let (answer, rest) = rest.behind(&[Kind::Answer]);
        if answer.lines.is_empty() {
            return Err(RowsError::NoAnswer(line));
        }
        rest.end()?;
        Ok(Row {
            line,
            title: title.strip_prefix("== ").unwrap_or(title),
            settings: Settings {
                file,
                row: settings,
            },
            text: text.lines,
            answer: answer.lines,
        })
    }
}

/// The rows that the lines of a file tell, where no others than these keys are set. Each title begins a row.
pub fn read_rows<'a>(
    alloc: Global,
    lines: &'a [&'a str],
    keys: &[&str],
) -> Result<Rows<'a>, RowsError>
    ensures { IfOk result (λ read. vec_len read.rows ≡ title_count (map (λ line. line.now) lines.now)) }
{
    let all = Lines { lines, number: 1 };
    let head = all.head(alloc, keys)?;
    let mut rows = Vec::new(alloc);
    for (at, title) in lines.iter().enumerate() {
        if is_title(title) {
            let (_before, behind) = all.cut(at.saturating_add(1));
            rows.push(behind.row(title, head.settings, keys)?)?;
        }
    }
    Ok(Rows {
        frame: head.frame,
        rows,
    })
}
