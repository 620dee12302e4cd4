//! From the text of a module and a run file to where the run ends.
ghost use Rattle.std.specs.Prelude.{◌≡◌, ◌<◌, ◌⊎◌, ◌++◌, codes, length, Err, IfOk, Some, map, string_bytes};
ghost use Rattle.std.specs.Fmt.{decimal};
ghost use Rattle.ttcn_step.specs.Machines.{Fits, said};
ghost use Rattle.report.specs.Texts.{line};
ghost use Rattle.semantics.specs.Snapshots.{Test};
ghost use Rattle.ttcn_syntax.specs.Limits.{longest_text};
ghost use Rattle.ttcnx.specs.Fault.{lexical_fault};
ghost use Rattle.ttcnx.specs.Named.{IsTestOf, source};
ghost use Rattle.ttcnx.specs.Replayed.{HasOneReplay, IsReplay, ending_text, open_or_blocked};
ghost use Rattle.laws_types.specs.Runs.{StaysWellTyped};

use crate::fault::Fault;
use crate::testcase::test_of;
use report::{read_run, word_of};
use std::alloc::{AllocError, Global};
use std::fmt;
use step_labels::Label;
use ttcn_config::Config;
use ttcn_step::Machine;
use ttcn_syntax::LexError;

/// What the command `replay` prints for a module, the name of a test case, a run file and a script. Refusals come in the order
/// of the work: the text, its tokens, its module, the name, the script, the run file, the first label that is not enabled.
#[tactic(auto, using(crate::proofs::OneReplay::one_replay))]
pub fn replay_text(
    alloc: Global,
    text: &[u8],
    name: &str,
    run: &[u8],
    script: &[u8],
) -> Result<Vec<u8>, Fault>
    ensures answer { (result ≡ Err Fault.Memory) ⊎ IsReplay (source text.now script.now) name.now run.now result }

    // What is given, a name and a run file have one answer: so each answer is given exactly where it is said to be.
    ensures one { HasOneReplay (source text.now script.now) name.now run.now }

    // In every run, however long, each value is of the type of its name, nothing is met that no checked module has, and only a
    // dynamic error ends with verdict `error`.
    ensures stays_well_typed { (test : Test) → IsTestOf (source text.now script.now) name.now test → StaysWellTyped test }

    // This is decided before memory is asked for.
    ensures too_long { longest_text < length text.now → result ≡ Err (lexical_fault LexError.TextTooLong) }
{
    let (program, testcase, script) = test_of(alloc, text, name, script)?;
    let labels = read_run(alloc, run)?;
    let machine = Machine::with_script(alloc, &program, testcase, &script)?;
    let config = machine.replay(alloc, labels.as_slice())?;
    let count = labels.len();
    let ending = ending_of(alloc, &machine, &config)?;
    Ok(replayed(alloc, count, ending.as_str())?.into_bytes())
}

/// How many labels were followed, and where they lead.
#[derive(Clone, Copy)]
struct Followed<'a> {
    count: usize,
    ending: &'a str,
}

impl<'a> fmt::Display for Followed<'a> {
    ghost output = { λ shown. Some (line (codes "replayed " ++ decimal shown.count) ++ line shown.ending.now) };

    fn fmt<W: fmt::Write>(&self, f: &mut fmt::Formatter<W>) -> fmt::Result {
        writeln!(f, "replayed {}", self.count)?;
        writeln!(f, "{}", self.ending)
    }
}

/// The text that tells of a replay.
fn replayed(alloc: Global, count: usize, ending: &str) -> Result<String, AllocError>
    ensures { IfOk result (λ text. string_bytes text ≡ line (codes "replayed " ++ decimal count) ++ line ending.now) }
{
    Followed { count, ending }.to_string(alloc)
}

/// Where a run ends.
fn ending_of(alloc: Global, machine: &Machine<'_>, config: &Config) -> Result<String, AllocError>
    requires { Fits machine.now config.now }
    ensures { IfOk result (λ text. string_bytes text ≡ ending_text machine.now.test (said machine.now config.now)) }
{
    match config {
        Config::Ended(verdict) => {
            let word = word_of(*verdict);
            format!(in alloc; "ended {word}")
        }
        Config::Going(_) => {
            let labels = machine.labels(alloc, config)?;
            String::from_str(alloc, open_or_blocked(labels.as_slice()))
        }
    }
}

/// Whether some label is enabled.
fn open_or_blocked(labels: &[Label]) -> &'static str
    ensures { result.now ≡ open_or_blocked labels.now }
{
    match labels {
        [] => "blocked",
        [_, ..] => "open",
    }
}
