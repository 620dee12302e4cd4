//! Files of rows, and the subject that answers them.
ghost use Rattle.std.specs.Thread.{IsSync};

use crate::{CorpusError, Row, Rows, RowsError, Settings, is_wanted, read_rows};
use std::alloc::AllocError;
use std::process::ExitCode;
use std::rt::{Env, Files};
use std::{env, fs};

/// What the rows are about. It may use what the program is given, on several threads.
pub trait Subject<R> {
    /// The keys that a row may set.
    fn keys(&self) -> &'static [&'static str];

    /// The answer for a text, which may have several lines.
    fn answer(&self, rt: &R, text: &str, settings: &Settings<'_>) -> Result<String, AllocError>
        requires sync { IsSync R.row };
}

/// How many rows there are, and how many of these are answered otherwise than they want.
#[derive(Clone, Copy)]
struct Count {
    rows: usize,
    otherwise: usize,
}

impl Count {
    fn add(&mut self, other: Count) {
        self.rows = self.rows.saturating_add(other.rows);
        self.otherwise = self.otherwise.saturating_add(other.otherwise);
    }
}

/// Asks the subject about the rows of each file that an argument names. Prints how many rows a file has, and each row that
/// is answered otherwise; and last the sum. The status is 1 where there is such a row.
pub fn answer_files<R, S>(rt: &R, subject: &S) -> Result<ExitCode, CorpusError>
where
    R: Env + Files + Print + AllocGlobal + Sync,
    S: Subject<R>,
{
    let mut sum = Count {
        rows: 0,
        otherwise: 0,
    };
    for file in env::args(rt)?.skip(1) {
        sum.add(answer_file(rt, subject, file)?);
    }
    println!(rt; "{} rows, {} answered otherwise", sum.rows, sum.otherwise)?;
    Ok(if sum.otherwise == 0 {
        ExitCode::SUCCESS
    } else {
        ExitCode::FAILURE
    })
}

/// Asks about the rows of one file.
fn answer_file<R, S>(rt: &R, subject: &S, file: String) -> Result<Count, CorpusError>
where
    R: Files + Print + AllocGlobal + Sync,
    S: Subject<R>,
{
    let alloc = rt.alloc();
    let text = match fs::read_to_string(rt, file.as_str()) {
        Ok(text) => text,
        Err(error) => return Err(CorpusError::File { file, error }),
    };
    let lines: Vec<&str> = text.as_str().lines().collect(alloc)?;
    let rows = match read_rows(alloc, lines.as_slice(), subject.keys()) {
        Ok(rows) => rows,
        Err(error) => return Err(CorpusError::Rows { file, error }),
    };
    println!(rt; "{file}: {} rows", rows.rows.len())?;
    answer_rows(rt, subject, file, &rows)
}

/// Asks about each row, and prints those that are answered otherwise.
fn answer_rows<R, S>(
    rt: &R,
    subject: &S,
    file: String,
    rows: &Rows<'_>,
) -> Result<Count, CorpusError>
where
    R: Print + AllocGlobal + Sync,
    S: Subject<R>,
{
    let mut otherwise = 0usize;
    for row in &rows.rows {
        let answer = match answer_of(rt, subject, rows, row) {
            Ok(answer) => answer,
            Err(error) => return Err(CorpusError::Rows { file, error }),
        };
        let wanted = row.wanted(rt.alloc())?;
        if !is_wanted(answer.as_str(), wanted.as_str()) {
            otherwise = otherwise.saturating_add(1);
            println!(rt; "{file}:{}: {}", row.line, row.title)?;
            println!(rt; "  wanted   {wanted}\n  answered {answer}")?;
        }
    }
    Ok(Count {
        rows: rows.rows.len(),
        otherwise,
    })
}

/// The subject's answer for a row.
fn answer_of<R: AllocGlobal + Sync, S: Subject<R>>(
    rt: &R,
    subject: &S,
    rows: &Rows<'_>,
    row: &Row<'_>,
) -> Result<String, RowsError> {
    let text = rows.text(rt.alloc(), row)?;
    Ok(subject.answer(rt, text.as_str(), &row.settings)?)
}
