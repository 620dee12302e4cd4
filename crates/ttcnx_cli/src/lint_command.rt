//! The command `lint`: what is wrong with modules, and what looks wrong.
use crate::program::{ENOUGH, Stop, bytes_of, print, unread};
use lint_words::{Format, Linted, lint};
use std::rt::Files;
use ttcnx::LintFormat;

/// Writes what is found in the modules of the files, file by file. The status is 1 where one of them is not accepted.
pub(crate) fn run<R>(rt: &R, files: Vec<String>, format: LintFormat) -> Result<(), Stop>
where
    R: Files + Print + AllocGlobal,
{
    let alloc = rt.alloc();
    let format = match format {
        LintFormat::Text => Format::Text,
        LintFormat::Json => Format::Json,
    };
    let mut written = String::new(alloc);
    let mut are_accepted = true;
    for file in files {
        let text = match bytes_of(rt, file.as_str(), ENOUGH) {
            Ok(text) => text,
            Err(error) => return Err(Stop::Fault(unread(file, &error))),
        };
        let Linted {
            output,
            is_accepted,
        } = lint(alloc, file.as_str(), &text, format)?;
        written.push_str(output.as_str())?;
        are_accepted = are_accepted && is_accepted;
    }
    print(rt, written.as_bytes())?;
    if are_accepted {
        Ok(())
    } else {
        Err(Stop::Written(1))
    }
}
