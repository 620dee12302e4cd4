//! From the text of a module, a name and a script to a test case.
ghost use Rattle.std.specs.Prelude.{◌≡◌, ◌<◌, ◌⊎◌, length, Err, IfErr, IfOk, IsErrOf};
ghost use Rattle.ttcn_syntax.specs.Limits.{longest_text};
ghost use Rattle.ttcnx.specs.Fault.{lexical_fault};
ghost use Rattle.ttcnx.specs.Named.{HasNoCase, HasNoTest, IsCaseOf, IsTestOf, source};

use crate::check::program_of;
use crate::fault::Fault;
use check_rules::{Program, TestId};
use report::read_script;
use std::alloc::Global;
use step_script::Script;
use ttcn_syntax::LexError;

/// The test case of this name, with the module that has it. Refusals come in the order of the work: the text, its tokens, its
/// module, the name.
fn testcase_of(alloc: Global, text: &[u8], name: &str) -> Result<(Program, TestId), Fault>
    ensures named { IfOk result (λ found. IsCaseOf text.now name.now found.0.definitions found.1) }
    ensures lacking { IfErr result (λ why. (why ≡ Fault.Memory) ⊎ HasNoCase text.now name.now why) }
    ensures planned { IsErrOf result Fault.BadPlan → ⊥ }
    ensures too_long { longest_text < length text.now → result ≡ Err (lexical_fault LexError.TextTooLong) }
{
    let program = program_of(alloc, text)?;
    match program.testcase(name) {
        Some(testcase) => Ok((program, testcase)),
        None => Err(Fault::NoSuchTestCase),
    }
}

/// The test case of this name, with the module that has it, and the script. Refusals come in the order of the work: the text,
/// its tokens, its module, the name, the script.
pub(crate) fn test_of(
    alloc: Global,
    text: &[u8],
    name: &str,
    script: &[u8],
) -> Result<(Program, TestId, Script), Fault>
    ensures named { IfOk result (λ found. IsTestOf (source text.now script.now) name.now (record { definitions = found.0.definitions; testcase = found.1; script = found.2.ports })) }
    ensures lacking { IfErr result (λ why. (why ≡ Fault.Memory) ⊎ HasNoTest (source text.now script.now) name.now why) }
    ensures planned { IsErrOf result Fault.BadPlan → ⊥ }
    ensures too_long { longest_text < length text.now → result ≡ Err (lexical_fault LexError.TextTooLong) }
{
    let (program, testcase) = testcase_of(alloc, text, name)?;
    let script = read_script(alloc, script, &program, testcase)?;
    Ok((program, testcase, script))
}
