//! Answers of the checker, of the parser, of evaluation, and of the reader of scripts.
mod evaluation;
mod notation;
mod parsing;
mod question;
mod scripts;

use evaluation::answer_of_module;
pub use parsing::parsed;
use question::answered;
pub use scripts::scripted;
use std::alloc::{AllocError, Global};
use test_refusals::{Refusal, program};
use ttcn_parse::parse;
use ttcn_syntax::{Module, lex};

/// `ok` for the text of a well-typed module, or why it is refused.
pub fn checked(alloc: Global, text: &str) -> Result<String, AllocError> {
    match program(alloc, text) {
        Ok(_) => String::from_str(alloc, "ok"),
        Err(refusal) => refusal.to_string(alloc),
    }
}

/// What the constant `A` of a module gives, or whether its template `T` matches that. Where definitions are given, the text
/// asks about these.
pub fn evaluated(
    alloc: Global,
    text: &str,
    definitions: Option<&str>,
) -> Result<String, AllocError> {
    let program = match program(alloc, definitions.unwrap_or(text)) {
        Ok(program) => program,
        Err(refusal) => return refusal.to_string(alloc),
    };
    let defined = program.definitions(alloc)?;
    if definitions.is_none() {
        return answer_of_module(alloc, &defined);
    }
    match module(alloc, text) {
        Ok(module) => answered(alloc, &defined, &module),
        Err(refusal) => refusal.to_string(alloc),
    }
}

/// The module of a text, which may be ill-typed.
fn module(alloc: Global, text: &str) -> Result<Module, Refusal> {
    let tokens = lex(alloc, text.as_bytes())?;
    Ok(parse(alloc, tokens.as_slice())?)
}
