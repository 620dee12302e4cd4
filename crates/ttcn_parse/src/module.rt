//! Modules, and what leaves no trace in their tree.
ghost use Rattle.std.specs.Prelude.{◌≡◌, ◌∷◌, [], reverse};
ghost use Rattle.parse_reader.specs.internal.Reading as reading;
ghost use Rattle.parse_reader.specs.Modules as spec;
ghost use Rattle.parse_reader.specs.internal.Reading.{Reads};
ghost use Rattle.ttcn_syntax.specs.declared.token.Symbol.TheVariants as mark;

use crate::definition::definition;
use parse_limits::{closes, partner};
use parse_reader::{Listed, ParseError, Parser};
use ttcn_syntax::{Definition, Module, Name, Seq, Symbol, Token, Word};

#[tactic(auto, using(crate::proofs::Readers::whole_split))]
pub(crate) fn whole(parser: &mut Parser<'_>) -> Result<Module, ParseError>
    ensures { Reads (spec.whole parser.old) result parser.new }
{
    let name = module_head(parser)?;
    let definitions = definitions(parser)?;
    module_end(parser)?;
    Ok(Module { name, definitions })
}

/// A module up to its definitions.
#[tactic(auto, unfolding(parse_reader::specs::Modules::module_head))]
fn module_head(parser: &mut Parser<'_>) -> Result<Name, ParseError>
    ensures { Reads (spec.module_head parser.old) result parser.new }
{
    parser.word(Word::Module)?;
    let name = parser.name()?;
    language(parser)?;
    parser.symbol(Symbol::LeftBrace)?;
    parser.skip_semicolons();
    Ok(name)
}

/// A module behind its definitions: no token is left.
#[tactic(auto, unfolding(parse_reader::specs::Modules::module_end, parse_reader::specs::Modules::at_end))]
fn module_end(parser: &mut Parser<'_>) -> Result<(), ParseError>
    ensures { Reads (spec.module_end parser.old) result parser.new }
{
    control(parser)?;
    parser.symbol(Symbol::RightBrace)?;
    with(parser)?;
    parser.skip_semicolons();
    if parser.left() > 0 {
        return Err(parser.unexpected());
    }
    Ok(())
}

/// The definitions, up to `control` or the closing brace.
fn definitions(parser: &mut Parser<'_>) -> Result<Seq<Definition>, ParseError>
    ensures { Reads (reading.items spec.at_last spec.definition_with parser.old) result parser.new }
{
    let mut definitions = Seq::new(parser.alloc);
    for _turn in 0..parser.left() {
        if parser.is_at(Symbol::RightBrace) || parser.is_at_word(Word::Control) {
            return Ok(definitions);
        }
        definitions.push(definition_with(parser)?)?;
        parser.skip_semicolons();
    }
    Ok(definitions)
}

#[tactic(auto, unfolding(parse_reader::specs::Modules::definition_with))]
fn definition_with(parser: &mut Parser<'_>) -> Result<Definition, ParseError>
    ensures { Reads (spec.definition_with parser.old) result parser.new }
{
    let definition = definition(parser)?;
    with(parser)?;
    Ok(definition)
}

#[tactic(auto, unfolding(parse_reader::specs::Modules::language))]
fn language(parser: &mut Parser<'_>) -> Result<(), ParseError>
    ensures { Reads (spec.language parser.old) result parser.new }
{
    if parser.take_word(Word::Language) {
        parser.separated::<AText>()?;
    }
    Ok(())
}

#[tactic(auto, unfolding(parse_reader::specs::Modules::control))]
fn control(parser: &mut Parser<'_>) -> Result<(), ParseError>
    ensures { Reads (spec.control parser.old) result parser.new }
{
    if parser.take_word(Word::Control) {
        group(parser)?;
        with(parser)?;
        parser.skip_semicolons();
    }
    Ok(())
}

#[tactic(auto, unfolding(parse_reader::specs::Modules::with_))]
fn with(parser: &mut Parser<'_>) -> Result<(), ParseError>
    ensures { Reads (spec.with_ parser.old) result parser.new }
{
    if parser.take_word(Word::With) {
        group(parser)?;
    }
    Ok(())
}

/// Braces with balanced brackets inside.
#[tactic(auto, unfolding(parse_reader::specs::Modules::group))]
fn group(parser: &mut Parser<'_>) -> Result<(), ParseError>
    ensures { Reads (spec.group parser.old) result parser.new }
{
    parser.symbol(Symbol::LeftBrace)?;
    balanced(parser)
}

/// What stands behind an opening brace, to its closing one.
#[tactic(auto, using(crate::proofs::Readers::nothing_balanced))]
fn balanced(parser: &mut Parser<'_>) -> Result<(), ParseError>
    ensures { Reads (spec.balanced_from (mark.RightBrace ∷ []) parser.old) result parser.new }
{
    let mut expected = Vec::new(parser.alloc);
    expected.push(Symbol::RightBrace)?;
    while let Some(token) = parser.token() {
        over(parser, token, &mut expected)?;
        parser.advance();
        if expected.is_empty() {
            return Ok(());
        }
    }
    Err(parser.unexpected())
}

/// What a token opens or closes of the brackets that are still to be closed, the innermost last.
fn over(parser: &Parser<'_>, token: &Token, expected: &mut Vec<Symbol>) -> Result<(), ParseError>
    ensures { spec.Goes (spec.over_token (reverse expected.old.items) token.now) result (reverse expected.new.items) }
{
    let Token::Symbol(symbol) = token else {
        return Ok(());
    };
    if let Some(closing) = partner(*symbol) {
        expected.push(closing)?;
    } else if closes(*symbol) && !close(expected, *symbol) {
        return Err(parser.unexpected());
    }
    Ok(())
}

/// Takes the innermost of the brackets that are to be closed, if it is this one.
#[tactic(auto, using(crate::proofs::Readers::top_first, crate::proofs::Readers::nothing_first), unfolding(parse_reader::specs::internal::Reading::same_symbol))]
fn close(expected: &mut Vec<Symbol>, symbol: Symbol) -> bool
    ensures { spec.closes_one (reverse expected.old.items) symbol ≡ spec.left_if result (reverse expected.new.items) }
{
    match expected.pop() {
        Some(innermost) => symbol == innermost,
        None => false,
    }
}

/// Texts in lists, whose content has no effect.
pub struct AText;

impl Listed for AText {
    type Item = ();

    ghost reader = { spec.text };

    /// A text, whose content has no effect.
    #[tactic(auto, unfolding(parse_reader::specs::Modules::text))]
    fn read(parser: &mut Parser<'_>) -> Result<(), ParseError> {
        let Some(Token::Text) = parser.token() else {
            return Err(parser.unexpected());
        };
        parser.advance();
        Ok(())
    }
}
