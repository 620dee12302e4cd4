//! Findings as text.
use crate::source::{length_at, line_of};
use lint_findings::{Findings, Remark};
use std::alloc::{AllocError, Global};
use std::fmt::Write;
use ttcn_syntax::Span;

/// A file that findings are about.
#[derive(Clone, Copy)]
struct Source<'a> {
    alloc: Global,
    file: &'a str,
    text: &'a [u8],
}

/// Adds a character some times.
fn push_times(out: &mut String, letter: char, count: usize) -> Result<(), AllocError> {
    for _time in 0..count {
        out.push(letter)?;
    }
    Ok(())
}

/// Adds a line of the text. What doesn't print is shown as a point, a tab as one blank.
fn push_line(out: &mut String, line: &[u8]) -> Result<(), AllocError> {
    for byte in line {
        match *byte {
            b' '..=b'~' => out.push(char::from(*byte))?,
            b'\t' => out.push(' ')?,
            b'\r' => {}
            _ => out.push('.')?,
        }
    }
    Ok(())
}

impl Source<'_> {
    /// Adds the line of a place, with a caret below each letter of the word.
    fn push_place(self, out: &mut String, number: &str, place: Span) -> Result<(), AllocError> {
        let line = line_of(self.text, place.line);
        push_times(out, ' ', number.len())?;
        write!(out, " |\n{number} | ")?;
        push_line(out, line)?;
        out.push('\n')?;
        push_times(out, ' ', number.len())?;
        out.push_str(" | ")?;
        let before = (place.column as usize).saturating_sub(1);
        push_times(out, ' ', before.min(line.len()))?;
        push_times(out, '^', length_at(line, place))
    }

    /// Adds what is said of a place.
    fn push_remark(
        self,
        out: &mut String,
        (severity, rule): (&str, &str),
        remark: &Remark,
    ) -> Result<(), AllocError> {
        let (file, place) = (self.file, remark.place);
        let number = format!(in self.alloc; "{}", place.line)?;
        writeln!(out, "{severity}[{rule}]: {}", remark.message)?;
        push_times(out, ' ', number.len())?;
        writeln!(out, "--> {file}:{number}:{}", place.column)?;
        self.push_place(out, number.as_str(), place)?;
        if let Some(help) = &remark.help {
            write!(out, " {help}")?;
        }
        out.push_str("\n\n")
    }
}

/// Adds how many there are of something.
fn push_count(out: &mut String, count: usize, what: &str) -> Result<(), AllocError> {
    let ending = if count == 1 { "" } else { "s" };
    write!(out, "{count} {what}{ending}")
}

/// The findings of a file, each with the line of its text and a caret below each letter of the word, and at the end how
/// many there are. Of a file without findings nothing is said.
pub fn to_text(
    alloc: Global,
    file: &str,
    text: &[u8],
    findings: &Findings,
) -> Result<String, AllocError> {
    let mut out = String::new(alloc);
    let source = Source { alloc, file, text };
    for finding in &findings.errors {
        let rule = finding.reason.to_string(alloc)?;
        source.push_remark(&mut out, ("error", rule.as_str()), &finding.remark)?;
    }
    for warning in &findings.warnings {
        let rule = warning.oddity.to_string(alloc)?;
        source.push_remark(&mut out, ("warning", rule.as_str()), &warning.remark)?;
    }
    let (errors, warnings) = (findings.errors.len(), findings.warnings.len());
    if errors > 0 || warnings > 0 {
        write!(out, "{file}: ")?;
        push_count(&mut out, errors, "error")?;
        out.push_str(", ")?;
        push_count(&mut out, warnings, "warning")?;
        out.push('\n')?;
    }
    Ok(out)
}
