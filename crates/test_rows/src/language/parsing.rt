//! What the lexer and the parser answer.
use std::alloc::{AllocError, Global};
use test_corpus::Settings;
use test_refusals::Refusal;
use ttcn_parse::{first_left_out, first_too_deep, parse};
use ttcn_syntax::{Span, Spanned, lex};

/// `ok` for the text of a module, or why it is refused. With `-- find left out` or `-- find too deep`, what is found in the
/// tokens before they are read as a module.
pub fn parsed(alloc: Global, text: &str, settings: &Settings<'_>) -> Result<String, AllocError> {
    let tokens = match lex(alloc, text.as_bytes()) {
        Ok(tokens) => tokens,
        Err(error) => return Refusal::from(error).to_string(alloc),
    };
    match settings.get("find") {
        None => parsed_twice(alloc, tokens.as_slice()),
        Some("left out") => {
            let place = first_left_out(alloc, tokens.as_slice())?;
            found(alloc, "left out", place)
        }
        Some("too deep") => found(alloc, "too deep", first_too_deep(tokens.as_slice())),
        Some(what) => format!(in alloc; "no search for what is {what}"),
    }
}

/// `ok` for a module. The tokens are read twice, and trees of one text are equal however long they are.
fn parsed_twice(alloc: Global, tokens: &[Spanned]) -> Result<String, AllocError> {
    let answer = parse(alloc, tokens);
    if answer != parse(alloc, tokens) {
        return String::from_str(alloc, "two answers");
    }
    match answer {
        Ok(_) => String::from_str(alloc, "ok"),
        Err(error) => Refusal::from(error).to_string(alloc),
    }
}

/// The text on the first place where tokens are left out or too deep.
fn found(alloc: Global, what: &str, place: Option<Span>) -> Result<String, AllocError> {
    match place {
        Some(Span { line, column }) => format!(in alloc; "{what} at {line}:{column}"),
        None => String::from_str(alloc, "nothing"),
    }
}
