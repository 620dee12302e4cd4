//! Labels as run files write them.
ghost use Rattle.report.specs.Labels.{fine_text, label_text, number_text};
ghost use Rattle.report.specs.Runs.{IsNumber, IsProper, IsProperFine, IsSmall, is_identifier};
ghost use Rattle.report.specs.internal.Reader.{HasBareEnds, IsCut, IsName, IsNoExpiry, IsNoName, IsNoNumber, IsNoPath, IsPath, IsReadAs, TellsExpiry, TellsName, lacks};
ghost use Rattle.ttcn_syntax.specs.Characters.{is_letter, is_word_byte};
ghost use Rattle.std.specs.Prelude.{◌≡◌, IfOk, MatchOption, None, Some};

use std::alloc::{AllocError, Global};
use std::str;
use step_labels::{FineLabel, Label};
use ttcn_syntax::{Name, Seq};
use value_types::Path;

fn is_letter(byte: u8) -> bool
    ensures { result ≡ is_letter byte }
{
    matches!(byte, b'A'..=b'Z' | b'a'..=b'z')
}

fn is_word_byte(byte: u8) -> bool
    ensures { result ≡ is_word_byte byte }
{
    is_letter(byte) || matches!(byte, b'0'..=b'9' | b'_')
}

/// Whether these bytes are a name of a timer or of a system port: a letter, and letters, digits and underscores behind it.
fn is_identifier(name: &[u8]) -> bool
    ensures { result ≡ is_identifier name.now }
{
    match name.split_first() {
        None => false,
        Some((first, others)) => {
            is_letter(*first) && others.iter().all(|byte| is_word_byte(*byte))
        }
    }
}

/// What stands before and behind the first byte that is the mark, if there is one.
fn cut_at(bytes: &[u8], mark: u8) -> Option<(&[u8], &[u8])>
    ensures { MatchOption result (lacks mark bytes.now) (λ parts. IsCut mark bytes.now parts.0.now parts.1.now) }
{
    let Some(at) = bytes.iter().position(|byte| *byte == mark) else {
        return None;
    };
    Some((&bytes[..at], &bytes[at + 1..]))
}

/// The number that these digits write without a leading zero.
fn number_of(digits: &[u8]) -> Option<u32>
    ensures { MatchOption result (IsNoNumber digits.now) (IsNumber digits.now) }
{
    let Some((first, others)) = digits.split_first() else {
        return None;
    };
    if *first == b'0' {
        return if others.is_empty() { Some(0) } else { None };
    }
    if *first == b'+' {
        return None;
    }
    match str::from_utf8(digits) {
        Ok(text) => text.parse().ok(),
        Err(_) => None,
    }
}

/// The numbers of a path, each behind a point.
fn numbers_of(alloc: Global, text: &[u8]) -> Result<Option<Vec<u32>>, AllocError>
    ensures { IfOk result (λ numbers. MatchOption numbers (IsNoPath text.now) (λ all. IsPath text.now all.items)) }
{
    let mut numbers = Vec::new(alloc);
    let Some((first, others)) = text.split_first() else {
        return Ok(Some(numbers));
    };
    if *first != b'.' {
        return Ok(None);
    }
    for digits in others.split(|byte| *byte == b'.') {
        let Some(number) = number_of(digits) else {
            return Ok(None);
        };
        numbers.push(number)?;
    }
    Ok(Some(numbers))
}

/// The path that has these numbers.
fn path_with(alloc: Global, text: &[u8]) -> Result<Option<Path>, AllocError>
    ensures { IfOk result (λ path. MatchOption path (IsNoPath text.now) (λ made. IsPath text.now made.numbers)) }
{
    let Some(numbers) = numbers_of(alloc, text)? else {
        return Ok(None);
    };
    Ok(Some(Path {
        numbers: Seq::from_vec(numbers),
    }))
}

/// The name that these bytes are.
fn name_of(alloc: Global, text: &[u8]) -> Result<Option<Name>, AllocError>
    ensures { IfOk result (TellsName text.now) }
{
    if !is_identifier(text) {
        return Ok(None);
    }
    Ok(Some(Name::new(alloc, text)?))
}

/// The frame and the timer of an expiry: the frame's number, a point and the timer's name.
fn expiry_of(alloc: Global, text: &[u8]) -> Result<Option<(u32, Name)>, AllocError>
    ensures { IfOk result (λ expiry. MatchOption expiry (IsNoExpiry text.now) (λ e. TellsExpiry text.now e.0 e.1)) }
{
    let Some((frame, timer)) = cut_at(text, b'.') else {
        return Ok(None);
    };
    let Some(frame) = number_of(frame) else {
        return Ok(None);
    };
    let Some(timer) = name_of(alloc, timer)? else {
        return Ok(None);
    };
    Ok(Some((frame, timer)))
}

/// The label that is written so.
fn label_of(alloc: Global, text: &[u8]) -> Result<Option<Label>, AllocError>
    ensures { IfOk result (IsReadAs label_text IsProper text.now) }
{
    if let Some(system_port) = text.strip_prefix(b"system.") {
        return Ok(name_of(alloc, system_port)?.map(Label::Delivery));
    }
    let Some(names) = text.strip_prefix(b"mtc") else {
        return Ok(None);
    };
    let Some((path, timer)) = cut_at(names, b'/') else {
        return Ok(path_with(alloc, names)?.map(Label::Statement));
    };
    let Some((frame, timer)) = expiry_of(alloc, timer)? else {
        return Ok(None);
    };
    let Some(component) = path_with(alloc, path)? else {
        return Ok(None);
    };
    Ok(Some(Label::Expiry {
        component,
        frame,
        timer,
    }))
}

/// The path of the component with this name.
fn path_of(alloc: Global, name: &[u8]) -> Result<Option<Path>, AllocError>
    ensures { IfOk result (λ path. MatchOption path (IsNoName name.now) (λ made. IsName name.now made.numbers)) }
{
    let Some(numbers) = name.strip_prefix(b"mtc") else {
        return Ok(None);
    };
    path_with(alloc, numbers)
}

/// The label of a fine run that is written so.
fn fine_label_of(alloc: Global, text: &[u8]) -> Result<Option<FineLabel>, AllocError>
    ensures { IfOk result (IsReadAs fine_text IsProperFine text.now) }
{
    if let Some(name) = text.strip_prefix(b"snap ") {
        return Ok(path_of(alloc, name)?.map(FineLabel::Snap));
    }
    if let Some(name) = text.strip_prefix(b"choose ") {
        return Ok(path_of(alloc, name)?.map(FineLabel::Choose));
    }
    Ok(label_of(alloc, text)?.map(FineLabel::Plain))
}

/// A label that lines of files hold.
pub(crate) trait Written: Drop {
    ghost use Rattle.std.specs.Prelude.{List, ℕ};

    ghost text_of: { Self → List ℕ };

    /// Whether a file can hold it.
    ghost is_held: { Self → Type 0 };

    /// The label that is written so.
    fn read(alloc: Global, text: &[u8]) -> Result<Option<Self>, AllocError>
        ensures label { IfOk result (IsReadAs text_of is_held text.now) }

        // So a label is found between blanks.
        ensures bare { (label : Self) → is_held label → HasBareEnds (text_of label) };
}

impl Written for Label {
    ghost text_of = { label_text };

    ghost is_held = { IsProper };

    fn read(alloc: Global, text: &[u8]) -> Result<Option<Label>, AllocError> {
        label_of(alloc, text)
    }
}

impl Written for FineLabel {
    ghost text_of = { fine_text };

    ghost is_held = { IsProperFine };

    fn read(alloc: Global, text: &[u8]) -> Result<Option<FineLabel>, AllocError> {
        fine_label_of(alloc, text)
    }
}
