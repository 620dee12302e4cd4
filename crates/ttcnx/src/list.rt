//! From the text of a module to the names of its test cases.
ghost use Rattle.std.specs.Prelude.{◌≡◌, ◌++◌, ◌<◌, ◌⊎◌, length, Err, IfErr, IfOk, OnOk};
ghost use Rattle.ttcn_syntax.specs.Limits.{longest_text};
ghost use Rattle.ttcnx.specs.Checked.{IsRefusedWith};
ghost use Rattle.ttcnx.specs.Fault.{lexical_fault};
ghost use Rattle.ttcnx.specs.Listing.{IsListOf, testcase_line, testcase_lines};

use crate::check::program_of;
use crate::fault::Fault;
use std::alloc::{AllocError, Global};
use ttcn_syntax::{Definition, DefinitionKind, LexError};

/// What the command `list` prints for a text: the names of the module's test cases in the order of the text, a line each.
/// Refusals are those of `check_answer`.
pub fn list_answer(alloc: Global, text: &[u8]) -> Result<Vec<u8>, Fault>
    ensures listed { IfOk result (λ lines. IsListOf text.now lines.items) }
    ensures refused { IfErr result (λ why. (why ≡ Fault.Memory) ⊎ IsRefusedWith text.now why) }

    // This is decided before memory is asked for.
    ensures too_long { longest_text < length text.now → result ≡ Err (lexical_fault LexError.TextTooLong) }
{
    let program = program_of(alloc, text)?;
    Ok(lines_of(alloc, program.module().definitions.as_slice())?)
}

/// The lines of the test cases among definitions.
fn lines_of(alloc: Global, definitions: &[Definition]) -> Result<Vec<u8>, AllocError>
    ensures { IfOk result (λ lines. lines.items ≡ testcase_lines definitions.now) }
{
    let mut lines = Vec::new(alloc);
    for definition in definitions {
        push_testcase(&mut lines, definition)?;
    }
    Ok(lines)
}

/// Adds the name of a test case and a line's end; of any other definition nothing.
fn push_testcase(lines: &mut Vec<u8>, definition: &Definition) -> Result<(), AllocError>
    ensures { OnOk result (lines.new.items ≡ lines.old.items ++ testcase_line definition.now.kind) }
{
    if let DefinitionKind::Testcase(testcase) = &definition.kind {
        lines.extend_from_slice(testcase.name.as_bytes())?;
        lines.push(b'\n')?;
    }
    Ok(())
}
