//! The parser: from the tokens of a text to the tree of its module.
#![tactic(auto)]

ghost use Rattle.std.specs.Prelude.{IfErr, IfOk};
ghost use Rattle.ttcn_parse.specs.Refused.{HasOneTree, IsRead, IsRefused};

mod definition;
mod module;

use crate::module::whole;
pub use parse_limits::{DEPTH, first_left_out, first_too_deep};
pub use parse_reader::ParseError;
use parse_reader::Parser;
use std::alloc::Global;
use ttcn_syntax::{Module, Spanned};

/// The module that the tokens spell (ES 201 873-1, annex A, cut to this subset).
///
/// Brackets that nest deeper than [`DEPTH`] are refused before what this subset leaves out, and that before what no
/// module has. What stands behind `control` and `with` is ignored.
#[tactic(auto, using(crate::proofs::Complete::one_tree, crate::proofs::Parses::parses, crate::proofs::Parses::refuses))]
pub fn parse(alloc: Global, tokens: &[Spanned]) -> Result<Module, ParseError>
    ensures read { IfOk result (λ tree. IsRead tokens.now tree) }
    ensures refused { IfErr result (λ error. IsRefused tokens.now error) }
    ensures one { HasOneTree tokens.now }
{
    if let Some(place) = first_too_deep(tokens) {
        return Err(ParseError::TooDeep(place));
    }
    if let Some(place) = first_left_out(alloc, tokens)? {
        return Err(ParseError::LeftOut(place));
    }
    let mut parser = Parser::new(alloc, tokens);
    whole(&mut parser)
}
