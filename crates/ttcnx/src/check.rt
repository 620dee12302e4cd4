//! From the text of a module to whether it is well typed.
ghost use Rattle.std.specs.Prelude.{◌≡◌, ◌<◌, ◌⊎◌, length, codes, string_bytes, Err, IfErr, IfOk, IsErrOf, OnOk};
ghost use Rattle.ttcn_syntax.specs.Limits.{longest_text};
ghost use Rattle.ttcnx.specs.Checked.{HasOneJudgement, IsAccepted, IsRefusedWith, IsTextOf};
ghost use Rattle.ttcnx.specs.Fault.{lexical_fault};

use crate::fault::Fault;
use check_rules::Program;
use std::alloc::Global;
use ttcn_parse::parse;
use ttcn_syntax::{LexError, lex};
use ttcn_types::check;

/// The well-typed module that a text is of. Refusals come in the order of the work: the text and its tokens, the tree, the
/// rules; of these the least that is broken.
pub(crate) fn program_of(alloc: Global, text: &[u8]) -> Result<Program, Fault>
    ensures read { IfOk result (IsTextOf text.now) }
    ensures refused { IfErr result (λ why. (why ≡ Fault.Memory) ⊎ IsRefusedWith text.now why) }
    ensures planned { IsErrOf result Fault.BadPlan → ⊥ }
    ensures too_long { longest_text < length text.now → result ≡ Err (lexical_fault LexError.TextTooLong) }
{
    let tokens = lex(alloc, text)?;
    let module = parse(alloc, tokens.as_slice())?;
    Ok(check(alloc, module)?)
}

/// Tests whether a text is that of a well-typed module (ES 201 873-1, cut to this subset). Refusals come in the order
/// of the work: the text and its tokens, the tree, the rules; of these the least that is broken.
#[tactic(auto, using(crate::proofs::Checks::one_judgement))]
pub fn check_text(alloc: Global, text: &[u8]) -> Result<(), Fault>
    ensures accepted { OnOk result (IsAccepted text.now) }
    ensures refused { IfErr result (λ why. (why ≡ Fault.Memory) ⊎ IsRefusedWith text.now why) }

    // A text has one answer: so each answer is given exactly where it is said to be.
    ensures one { HasOneJudgement text.now }

    // This is decided before memory is asked for.
    ensures too_long { longest_text < length text.now → result ≡ Err (lexical_fault LexError.TextTooLong) }
{
    program_of(alloc, text)?;
    Ok(())
}

/// What the command `check` prints for a text.
#[tactic(auto, using(crate::proofs::Checks::one_judgement))]
pub fn check_answer(alloc: Global, text: &[u8]) -> Result<String, Fault>
    ensures accepted { IfOk result (λ line. IsAccepted text.now × (string_bytes line ≡ codes "ok\n")) }
    ensures refused { IfErr result (λ why. (why ≡ Fault.Memory) ⊎ IsRefusedWith text.now why) }

    // A text has one answer: so each answer is given exactly where it is said to be.
    ensures one { HasOneJudgement text.now }

    // This is decided before memory is asked for.
    ensures too_long { longest_text < length text.now → result ≡ Err (lexical_fault LexError.TextTooLong) }
{
    check_text(alloc, text)?;
    Ok(String::from_str(alloc, "ok\n")?)
}
