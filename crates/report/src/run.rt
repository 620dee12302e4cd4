//! Run files: a label a line.
ghost use Rattle.report.specs.Runs.{ReadsAll, ReadsBy, ReadsFineRun, ReadsRun, TellsError, TellsFineError, TellsUnread, lines_of};
ghost use Rattle.report.specs.internal.Reader.{Tells, without_blanks_behind, without_blanks_before};
ghost use Rattle.std.specs.Prelude.{◌≡◌, IfErr, IfOk, map};
ghost use Rattle.ttcn_syntax.specs.Characters.{is_blank};

use crate::reader::Written;
use std::alloc::{AllocError, AllocFailed, Global};
use step_labels::{FineLabel, Label};
use thiserror::Error;

/// Why a run file can't be read.
#[derive(Clone, Copy, Debug, PartialEq, Eq, Error)]
pub enum RunError {
    /// The line of this number, counted from 1, is no label.
    #[error("line {0} is no label")]
    BadLabel(usize),
    #[error("no memory")]
    Memory,
}

impl From<AllocError> for RunError {
    ghost use Rattle.report.specs.declared.run.RunError.TheVariants.{Memory};

    ghost from_gives = { λ _ error. error ≡ Memory };

    fn from(_refused: AllocError) -> RunError {
        RunError::Memory
    }
}

impl<T: Drop> From<AllocFailed<T>> for RunError {
    ghost use Rattle.report.specs.declared.run.RunError.TheVariants.{Memory};

    ghost from_gives = { λ _ error. error ≡ Memory };

    fn from(_refused: AllocFailed<T>) -> RunError {
        RunError::Memory
    }
}

fn is_blank(byte: u8) -> bool
    ensures { result ≡ is_blank byte }
{
    matches!(byte, 9..=13 | 32)
}

fn without_blanks_before(line: &[u8]) -> &[u8]
    ensures { result.now ≡ without_blanks_before line.now }
{
    let mut rest = line;
    while let Some((first, others)) = rest.split_first() {
        if !is_blank(*first) {
            break;
        }
        rest = others;
    }
    rest
}

fn without_blanks_behind(line: &[u8]) -> &[u8]
    ensures { result.now ≡ without_blanks_behind line.now }
{
    let mut rest = line;
    while let Some((last, others)) = rest.split_last() {
        if !is_blank(*last) {
            break;
        }
        rest = others;
    }
    rest
}

/// What a line holds.
#[derive(Drop)]
enum Content<T> {
    Blanks,
    Label(T),
    NoLabel,
}

fn content_of<T: Written>(alloc: Global, line: &[u8]) -> Result<Content<T>, AllocError>
    ensures { IfOk result (Tells (ReadsBy T.text_of T.is_held) line.now) }
{
    let text = without_blanks_behind(without_blanks_before(line));
    if text.is_empty() {
        return Ok(Content::Blanks);
    }
    match T::read(alloc, text)? {
        Some(label) => Ok(Content::Label(label)),
        None => Ok(Content::NoLabel),
    }
}

/// The lines of a file.
fn lines_of(alloc: Global, bytes: &[u8]) -> Result<Vec<&[u8]>, AllocError>
    ensures { IfOk result (λ lines. map (λ line. line.now) lines.items ≡ lines_of bytes.now) }
{
    bytes.split(|byte| *byte == b'\n').collect(alloc)
}

/// The labels of a file, which has one a line.
fn read_lines<T: Written>(alloc: Global, bytes: &[u8]) -> Result<Vec<T>, RunError>
    ensures ok { IfOk result (λ labels. ReadsAll (ReadsBy T.text_of T.is_held) (lines_of bytes.now) labels.items) }
    ensures err { IfErr result (TellsUnread (ReadsBy T.text_of T.is_held) (lines_of bytes.now)) }
{
    let lines = lines_of(alloc, bytes)?;
    let mut labels = Vec::new(alloc);
    let mut number = 0;
    for line in &lines {
        number += 1;
        match content_of::<T>(alloc, line)? {
            Content::Blanks => {}
            Content::Label(label) => labels.push(label)?,
            Content::NoLabel => return Err(RunError::BadLabel(number)),
        }
    }
    Ok(labels)
}

/// The labels of a run file, which has one a line. Blanks at both ends of a line, and lines without anything else, are
/// ignored. The last line may lack its end.
pub fn read_run(alloc: Global, bytes: &[u8]) -> Result<Vec<Label>, RunError>
    ensures ok { IfOk result (λ labels. ReadsRun (lines_of bytes.now) labels.items) }
    ensures err { IfErr result (TellsError (lines_of bytes.now)) }
{
    read_lines(alloc, bytes)
}

/// The labels of the file of a fine run: a line is `snap PATH`, `choose PATH` or a label, with the blanks and the empty lines of
/// any run file.
pub fn read_fine(alloc: Global, bytes: &[u8]) -> Result<Vec<FineLabel>, RunError>
    ensures ok { IfOk result (λ labels. ReadsFineRun (lines_of bytes.now) labels.items) }
    ensures err { IfErr result (TellsFineError (lines_of bytes.now)) }
{
    read_lines(alloc, bytes)
}
