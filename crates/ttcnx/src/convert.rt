//! Between runs and fine runs, in which a component's snapshot and its choice by that snapshot are two steps.
ghost use Rattle.std.specs.Prelude.{◌≡◌, ◌<◌, ◌⊎◌, length, Err, IfOk, Some, map, string_bytes};
ghost use Rattle.std.specs.List.{flat_map};
ghost use Rattle.report.specs.Labels.{fine_text, label_text};
ghost use Rattle.report.specs.Texts.{line};
ghost use Rattle.ttcn_syntax.specs.Limits.{longest_text};
ghost use Rattle.ttcnx.specs.Converted.{HasOneConversion, IsCoarsened, IsDoubled, label_lines};
ghost use Rattle.ttcnx.specs.Fault.{lexical_fault};
ghost use Rattle.ttcnx.specs.Named.{source};

use crate::fault::Fault;
use crate::testcase::test_of;
use report::{FineText, LabelText, read_fine, read_run};
use std::alloc::{AllocError, Global};
use std::fmt;
use step_labels::{FineLabel, Label};
use ttcn_step::Machine;
use ttcn_syntax::LexError;

/// What the command `coarsen` prints for a module, the name of a test case, the file of a fine run and a script: the labels of
/// the run that it stands for, a line each. Refusals come in the order of the work: the text, its tokens, its module, the name,
/// the script, the run file, the first label that can't follow, a test case that has not ended.
#[tactic(auto, using(crate::proofs::OneConversion::one_coarsened))]
pub fn coarsen_text(
    alloc: Global,
    text: &[u8],
    name: &str,
    run: &[u8],
    script: &[u8],
) -> Result<Vec<u8>, Fault>
    ensures answer { (result ≡ Err Fault.Memory) ⊎ IsCoarsened (source text.now script.now) name.now run.now result }

    // What is given, a name and a run file have one answer: so each answer is given exactly where it is said to be.
    ensures one { HasOneConversion (IsCoarsened (source text.now script.now) name.now run.now) }

    // This is decided before memory is asked for.
    ensures too_long { longest_text < length text.now → result ≡ Err (lexical_fault LexError.TextTooLong) }
{
    let (program, testcase, script) = test_of(alloc, text, name, script)?;
    let labels = read_fine(alloc, run)?;
    let machine = Machine::with_script(alloc, &program, testcase, &script)?;
    let run = machine.coarsen(alloc, labels.as_slice())?;
    Ok(run_file(alloc, run.as_slice())?.into_bytes())
}

/// What the command `double` prints for a module, the name of a test case, a run file and a script: the labels of the run's
/// doubling, a line each. Refusals come in the order of the work: the text, its tokens, its module, the name, the script, the
/// run file, the first label that is not enabled.
#[tactic(auto, using(crate::proofs::OneConversion::one_doubled))]
pub fn double_text(
    alloc: Global,
    text: &[u8],
    name: &str,
    run: &[u8],
    script: &[u8],
) -> Result<Vec<u8>, Fault>
    ensures answer { (result ≡ Err Fault.Memory) ⊎ IsDoubled (source text.now script.now) name.now run.now result }

    // What is given, a name and a run file have one answer: so each answer is given exactly where it is said to be.
    ensures one { HasOneConversion (IsDoubled (source text.now script.now) name.now run.now) }

    // This is decided before memory is asked for.
    ensures too_long { longest_text < length text.now → result ≡ Err (lexical_fault LexError.TextTooLong) }
{
    let (program, testcase, script) = test_of(alloc, text, name, script)?;
    let labels = read_run(alloc, run)?;
    let machine = Machine::with_script(alloc, &program, testcase, &script)?;
    let fine = machine.double(alloc, labels.as_slice())?;
    Ok(FineLines(fine.as_slice()).to_string(alloc)?.into_bytes())
}

/// The file of a run: its labels, a line each.
pub fn run_file(alloc: Global, run: &[Label]) -> Result<String, AllocError>
    ensures { IfOk result (λ file. string_bytes file ≡ label_lines run.now) }
{
    LabelLines(run).to_string(alloc)
}

/// Labels, a line each.
#[derive(Clone, Copy)]
struct LabelLines<'a>(&'a [Label]);

impl<'a> fmt::Display for LabelLines<'a> {
    ghost output = { λ shown. Some (flat_map (λ label. line (label_text label)) shown.0.now) };

    fn fmt<W: fmt::Write>(&self, f: &mut fmt::Formatter<W>) -> fmt::Result {
        for label in self.0 {
            let label = LabelText(label);
            writeln!(f, "{label}")?;
        }
        Ok(())
    }
}

/// Labels of a fine run, a line each.
#[derive(Clone, Copy)]
struct FineLines<'a>(&'a [FineLabel]);

impl<'a> fmt::Display for FineLines<'a> {
    ghost output = { λ shown. Some (flat_map (λ label. line (fine_text label)) shown.0.now) };

    fn fmt<W: fmt::Write>(&self, f: &mut fmt::Formatter<W>) -> fmt::Result {
        for label in self.0 {
            let label = FineText(label);
            writeln!(f, "{label}")?;
        }
        Ok(())
    }
}
