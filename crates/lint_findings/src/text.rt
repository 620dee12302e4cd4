//! From a text to what is found in it.
ghost use Rattle.std.specs.Prelude.{◌≡◌, ◌↔◌, [], IfOk, None, Some, option_map};
ghost use Rattle.lint_findings.specs.Errors as spec;

use crate::finding::{Finding, Findings, Reason};
use crate::search::broken_rules;
use check_scope::rule::Rule;
use lint_names::{Defined, Remark, definitions};
use lint_remarks::warnings;
use lint_unread::{unlexed, unparsed};
use std::alloc::{AllocError, Global};
use ttcn_parse::{ParseError, parse};
use ttcn_syntax::{LexError, Span, Spanned, lex};
use ttcn_types::{CheckError, check};

/// The reason for which a text is refused that can't be cut into tokens; want of memory is none.
fn lexical_reason(fault: LexError) -> Option<Reason>
    ensures { result ≡ spec.lexical_reason fault }
{
    match fault {
        LexError::TextTooLong => Some(Reason::TextTooLong),
        LexError::BadByte(_) => Some(Reason::BadByte),
        LexError::OpenComment(_) => Some(Reason::OpenComment),
        LexError::OpenText(_) => Some(Reason::OpenText),
        LexError::IntegerTooLarge(_) => Some(Reason::IntegerTooLarge),
        LexError::Memory => None,
    }
}

/// The reason for which tokens are refused that are no module; want of memory is none.
fn grammar_reason(fault: ParseError) -> Option<Reason>
    ensures { result ≡ spec.grammar_reason fault }
{
    match fault {
        ParseError::TooDeep(_) => Some(Reason::TooDeep),
        ParseError::LeftOut(_) => Some(Reason::LeftOut),
        ParseError::Unexpected(_) => Some(Reason::Unexpected),
        ParseError::Memory => None,
    }
}

/// One error alone.
fn alone(alloc: Global, reason: Reason, remark: Remark) -> Result<Findings, AllocError>
    ensures { IfOk result (λ found. spec.first_reason found.errors.items ≡ Some reason) }
{
    let mut errors = Vec::new(alloc);
    errors.push(Finding { reason, remark })?;
    let warnings = Vec::new(alloc);
    Ok(Findings { errors, warnings })
}

/// The errors of a module that breaks a rule, or none.
fn errors_of(
    alloc: Global,
    tokens: &[Spanned],
    defined: &[Defined<'_>],
    fault: Option<(Rule, Span)>,
) -> Result<Vec<Finding>, AllocError>
    ensures { IfOk result (λ errors.
        spec.first_reason errors.items ≡ option_map (λ f. Reason.Broken f.0) fault) }
{
    match fault {
        Some((rule, place)) => broken_rules(alloc, tokens, defined, rule, place),
        None => Ok(Vec::new(alloc)),
    }
}

/// What is found in a module that breaks a rule, or none.
fn of_module(
    alloc: Global,
    tokens: &[Spanned],
    fault: Option<(Rule, Span)>,
) -> Result<Findings, AllocError>
    ensures { IfOk result (λ found.
        spec.first_reason found.errors.items ≡ option_map (λ f. Reason.Broken f.0) fault) }
{
    let defined = definitions(alloc, tokens)?;
    let errors = errors_of(alloc, tokens, defined.as_slice(), fault)?;
    let warnings = warnings(alloc, tokens, defined.as_slice())?;
    Ok(Findings { errors, warnings })
}

/// What is found in the tokens of a text.
fn of_tokens(alloc: Global, text: &[u8], tokens: &[Spanned]) -> Result<Findings, AllocError>
    ensures { IfOk result (λ found. spec.AreJudged tokens.now (spec.first_reason found.errors.items)) }
{
    match parse(alloc, tokens) {
        Ok(module) => match check(alloc, module) {
            Ok(_program) => of_module(alloc, tokens, None),
            Err(CheckError::Broken(rule, place)) => of_module(alloc, tokens, Some((rule, place))),
            Err(CheckError::Memory(refused)) => Err(refused),
        },
        Err(fault) => {
            let Some(reason) = grammar_reason(fault) else {
                return Err(AllocError);
            };
            alone(alloc, reason, unparsed(alloc, text, tokens, fault)?)
        }
    }
}

/// All that is found in the text of a module: why it is refused, the reason first that the checker gives, and what
/// looks wrong.
#[tactic(auto, using(crate::proofs::Stages::one_judgement))]
pub fn findings(alloc: Global, text: &[u8]) -> Result<Findings, AllocError>
    // There is no error exactly where the text is accepted.
    ensures accepted { IfOk result (λ found. (found.errors.items ≡ []) ↔ spec.IsJudged text.now None) }

    // Else the first one has the reason for which the text is refused; there is one reason alone.
    ensures first { IfOk result (λ found. spec.IsJudged text.now (spec.first_reason found.errors.items)) }
    ensures one { spec.HasOneJudgement text.now }
{
    match lex(alloc, text) {
        Ok(tokens) => of_tokens(alloc, text, tokens.as_slice()),
        Err(fault) => {
            let Some(reason) = lexical_reason(fault) else {
                return Err(AllocError);
            };
            alone(alloc, reason, unlexed(alloc, text, fault)?)
        }
    }
}
