//! Why a text is refused, in the words of rows, and the way from a text to its program.
#![tactic(auto)]

use std::alloc::Global;
use std::fmt;
use ttcn_parse::{ParseError, parse};
use ttcn_syntax::{LexError, Span, lex};
use ttcn_types::{CheckError, Program, check};

/// Why a text is refused. It is shown by its number, name and place, as `C8 ValueType at 24:31`.
#[derive(Debug, Drop)]
pub enum Refusal {
    Text(LexError),
    Grammar(ParseError),
    Types(CheckError),
}

/// The program of a text, unless the text is refused.
pub fn program(alloc: Global, text: &str) -> Result<Program, Refusal> {
    let tokens = lex(alloc, text.as_bytes())?;
    let module = parse(alloc, tokens.as_slice())?;
    Ok(check(alloc, module)?)
}

impl From<LexError> for Refusal {
    fn from(error: LexError) -> Refusal {
        Refusal::Text(error)
    }
}

impl From<ParseError> for Refusal {
    fn from(error: ParseError) -> Refusal {
        Refusal::Grammar(error)
    }
}

impl From<CheckError> for Refusal {
    fn from(error: CheckError) -> Refusal {
        Refusal::Types(error)
    }
}

impl fmt::Display for Refusal {
    fn fmt<W: fmt::Write>(&self, f: &mut fmt::Formatter<W>) -> fmt::Result {
        let (name, place) = match self {
            Refusal::Text(error) => of_text(error),
            Refusal::Grammar(error) => of_grammar(error),
            Refusal::Types(CheckError::Broken(rule, Span { line, column })) => {
                let (number, name) = (rule.number(), rule.name());
                return write!(f, "C{number} {name} at {line}:{column}");
            }
            Refusal::Types(CheckError::Memory(_)) => (NO_MEMORY, None),
        };
        match place {
            Some(Span { line, column }) => write!(f, "{name} at {line}:{column}"),
            None => f.write_str(name),
        }
    }
}

impl std::error::Error for Refusal {}

const NO_MEMORY: &str = "no memory";

/// The number and name of a text's refusal, and its place.
fn of_text(error: &LexError) -> (&'static str, Option<Span>) {
    match error {
        LexError::BadByte(place) => ("L1 BadByte", Some(*place)),
        LexError::OpenComment(place) => ("L2 OpenComment", Some(*place)),
        LexError::OpenText(place) => ("L3 OpenText", Some(*place)),
        LexError::IntegerTooLarge(place) => ("L4 IntegerTooLarge", Some(*place)),
        LexError::TextTooLong => ("L5 TextTooLong", Some(Span { line: 1, column: 1 })),
        LexError::Memory => (NO_MEMORY, None),
    }
}

/// The number and name of the refusal of tokens that spell no module, and its place.
fn of_grammar(error: &ParseError) -> (&'static str, Option<Span>) {
    match error {
        ParseError::Unexpected(place) => ("P1 Unexpected", Some(*place)),
        ParseError::TooDeep(place) => ("P2 TooDeep", Some(*place)),
        ParseError::LeftOut(place) => ("P3 LeftOut", Some(*place)),
        ParseError::Memory => (NO_MEMORY, None),
    }
}
