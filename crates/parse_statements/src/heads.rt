//! Statements and branches up to their first block.
ghost use Rattle.std.specs.Prelude.{Some};
ghost use Rattle.parse_reader.specs.internal.Statements as spec;
ghost use Rattle.parse_reader.specs.internal.Reading.{Reads};
ghost use Rattle.ttcn_syntax.specs.declared.token.Token.TheVariants as token;
ghost use Rattle.ttcn_syntax.specs.declared.token.Word.TheVariants as word_of;

use crate::actions::{
    assignment, connect, deactivate, log, mapping, named_action, return_value, setverdict,
};
use crate::declarations::{constants, timers, variables};
use crate::events::{all_done, any_port, event};
use parse_expressions::{activation, call, expression, is_at_call};
use parse_reader::{ForHeader, Head, ParseError, Parser, Wait};
use ttcn_syntax::{
    Action, Alternative, Assignment, Expr, ForStart, MapOperation, Seq, Statement, Symbol, Token,
    Word,
};

/// What a branch waits for, with the block behind it. An `[else]` has one.
pub(crate) fn alternative(
    parser: &Parser<'_>,
    wait: Wait,
    block: Option<Seq<Statement>>,
) -> Result<Alternative, ParseError>
    ensures { Reads (spec.alternative_of wait block parser.now) result parser.now }
{
    match (wait, block) {
        (Wait::Event(guard, event), block) => Ok(Alternative::Event(guard, event, block)),
        (Wait::Call(guard, call), block) => Ok(Alternative::Call(guard, call, block)),
        (Wait::Else, Some(block)) => Ok(Alternative::Else(block)),
        (Wait::Else, None) => Err(parser.unexpected()),
    }
}

#[tactic(auto, unfolding(parse_reader::specs::internal::Statements::statement_head))]
pub(crate) fn statement_head(parser: &mut Parser<'_>) -> Result<Head, ParseError>
    ensures { Reads (spec.statement_head parser.old) result parser.new }
{
    match parser.token() {
        Some(Token::Word(word)) => word_head(parser, *word),
        _ => Ok(Head::Whole(named_action(parser)?)),
    }
}

/// A statement that begins with this word.
fn word_head(parser: &mut Parser<'_>, word: Word) -> Result<Head, ParseError>
    ensures { Reads (spec.head_by (Some (token.Word word)) parser.old) result parser.new }
{
    match word {
        Word::Alt => {
            parser.word(Word::Alt)?;
            Ok(Head::Alt)
        }
        Word::If => {
            parser.word(Word::If)?;
            Ok(Head::If)
        }
        Word::Do => {
            parser.word(Word::Do)?;
            Ok(Head::Do)
        }
        Word::While => {
            parser.word(Word::While)?;
            Ok(Head::While(in_brackets(parser)?))
        }
        Word::For => for_header(parser),
        word => Ok(Head::Whole(simple_action(parser, word)?)),
    }
}

/// A statement without blocks that begins with this word.
fn simple_action(parser: &mut Parser<'_>, word: Word) -> Result<Action, ParseError>
    ensures { Reads (spec.simple_by (Some (token.Word word)) parser.old) result parser.new }
{
    match word {
        Word::Var => Ok(Action::Variables(variables(parser)?)),
        Word::Const => Ok(Action::Constants(constants(parser)?)),
        Word::Timer => Ok(Action::Timers(timers(parser)?)),
        Word::Any => Ok(Action::Event(any_port(parser)?)),
        Word::All => Ok(Action::Event(all_done(parser)?)),
        Word::Return => return_value(parser),
        Word::Log => log(parser),
        Word::Setverdict => setverdict(parser),
        Word::Connect => connect(parser),
        Word::Map => mapping(parser, Word::Map, MapOperation::Map),
        Word::Unmap => mapping(parser, Word::Unmap, MapOperation::Unmap),
        Word::Activate => Ok(Action::Activate(activation(parser)?)),
        Word::Deactivate => deactivate(parser),
        Word::Repeat => {
            parser.advance();
            Ok(Action::Repeat)
        }
        Word::Stop => {
            parser.advance();
            Ok(Action::Stop)
        }
        _ => named_action(parser),
    }
}

/// A `for` up to its block.
fn for_header(parser: &mut Parser<'_>) -> Result<Head, ParseError>
    ensures { Reads (spec.head_by (Some (token.Word word_of.For)) parser.old) result parser.new }
{
    let start = for_head(parser)?;
    let condition = expression(parser)?;
    let step = for_step(parser)?;
    Ok(Head::For(ForHeader {
        start,
        condition,
        step,
    }))
}

#[tactic(auto, unfolding(parse_reader::specs::internal::Statements::for_head))]
fn for_head(parser: &mut Parser<'_>) -> Result<ForStart, ParseError>
    ensures { Reads (spec.for_head parser.old) result parser.new }
{
    parser.word(Word::For)?;
    parser.symbol(Symbol::LeftParen)?;
    let start = for_start(parser)?;
    parser.symbol(Symbol::Semicolon)?;
    Ok(start)
}

#[tactic(auto, unfolding(parse_reader::specs::internal::Statements::for_step))]
fn for_step(parser: &mut Parser<'_>) -> Result<Assignment, ParseError>
    ensures { Reads (spec.for_step parser.old) result parser.new }
{
    parser.symbol(Symbol::Semicolon)?;
    let step = assignment(parser)?;
    parser.symbol(Symbol::RightParen)?;
    Ok(step)
}

#[tactic(auto, unfolding(parse_reader::specs::internal::Statements::for_start_))]
fn for_start(parser: &mut Parser<'_>) -> Result<ForStart, ParseError>
    ensures { Reads (spec.for_start_ parser.old) result parser.new }
{
    if parser.is_at_word(Word::Var) {
        return Ok(ForStart::Variables(variables(parser)?));
    }
    Ok(ForStart::Assign(assignment(parser)?))
}

/// A branch up to its block.
#[tactic(auto, unfolding(parse_reader::specs::internal::Statements::branch_head))]
pub(crate) fn branch_head(parser: &mut Parser<'_>) -> Result<Wait, ParseError>
    ensures { Reads (spec.branch_head parser.old) result parser.new }
{
    parser.symbol(Symbol::LeftBracket)?;
    if parser.take_word(Word::Else) {
        parser.symbol(Symbol::RightBracket)?;
        return Ok(Wait::Else);
    }
    let guard = guard(parser)?;
    waits_for(parser, guard)
}

/// What a branch waits for behind its guard.
#[tactic(auto, unfolding(parse_reader::specs::internal::Statements::waits_for))]
fn waits_for(parser: &mut Parser<'_>, guard: Option<Expr>) -> Result<Wait, ParseError>
    ensures { Reads (spec.waits_for guard parser.old) result parser.new }
{
    if is_at_call(parser) {
        return Ok(Wait::Call(guard, call(parser)?));
    }
    Ok(Wait::Event(guard, event(parser)?))
}

#[tactic(auto, unfolding(parse_reader::specs::internal::Statements::guard))]
fn guard(parser: &mut Parser<'_>) -> Result<Option<Expr>, ParseError>
    ensures { Reads (spec.guard parser.old) result parser.new }
{
    if parser.take_symbol(Symbol::RightBracket) {
        return Ok(None);
    }
    let guard = expression(parser)?;
    parser.symbol(Symbol::RightBracket)?;
    Ok(Some(guard))
}

/// An expression in brackets.
#[tactic(auto, unfolding(parse_reader::specs::internal::Statements::in_brackets))]
pub(crate) fn in_brackets(parser: &mut Parser<'_>) -> Result<Expr, ParseError>
    ensures { Reads (spec.in_brackets parser.old) result parser.new }
{
    parser.symbol(Symbol::LeftParen)?;
    let expr = expression(parser)?;
    parser.symbol(Symbol::RightParen)?;
    Ok(expr)
}
