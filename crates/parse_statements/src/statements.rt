//! Statements and the blocks that hold them.
ghost use Rattle.std.specs.Prelude.{◌≡◌};
ghost use Rattle.parse_reader.specs.internal.Reading as reading;
ghost use Rattle.parse_reader.specs.internal.Statements as spec;
ghost use Rattle.parse_reader.specs.internal.Reading.{Reads};
ghost use Rattle.parse_reader.specs.declared.heads.Head.TheVariants as head_of;

use crate::heads::{alternative, branch_head, in_brackets, statement_head};
use parse_reader::{Head, ParseError, Parser, is_word};
use ttcn_syntax::{Action, Boxed, Branch, Conditional, Seq, Spanned, Statement, Symbol, Word};

#[tactic(auto, unfolding(parse_reader::specs::internal::Statements::a_block))]
pub fn block(parser: &mut Parser<'_>) -> Result<Seq<Statement>, ParseError>
    ensures { Reads (spec.a_block parser.old) result parser.new }
{
    let depth = parser.left();
    block_in(parser, depth)
}

/// The branches of an altstep.
#[tactic(auto, unfolding(parse_reader::specs::internal::Statements::the_branches))]
pub fn branches(parser: &mut Parser<'_>) -> Result<Seq<Branch>, ParseError>
    ensures { Reads (spec.the_branches parser.old) result parser.new }
{
    let depth = parser.left();
    branches_in(parser, depth)
}

/// A block, where so many may still nest.
#[cycle(statement)]
fn block_in(parser: &mut Parser<'_>, depth: usize) -> Result<Seq<Statement>, ParseError>
    ensures { Reads (spec.block_in depth parser.old) result parser.new }
{
    if depth == 0 {
        return Err(parser.unexpected());
    }
    parser.symbol(Symbol::LeftBrace)?;
    parser.skip_semicolons();
    let statements = statements(parser, depth - 1)?;
    parser.symbol(Symbol::RightBrace)?;
    Ok(statements)
}

/// Statements before the closing brace, with semicolons between those that don't end with a brace.
#[cycle(statement)]
fn statements(parser: &mut Parser<'_>, depth: usize) -> Result<Seq<Statement>, ParseError>
    ensures { Reads (reading.items reading.at_brace (reading.ended (spec.statement_by (spec.block_in depth))) parser.old) result parser.new }
{
    let mut statements = Seq::new(parser.alloc);
    for _turn in 0..parser.left() {
        if parser.is_at(Symbol::RightBrace) {
            return Ok(statements);
        }
        let before = parser.rest();
        statements.push(statement(parser, depth)?)?;
        end_item(parser, before)?;
    }
    Ok(statements)
}

/// The end of what was taken from these tokens, with the semicolons behind it.
#[tactic(auto, unfolding(parse_reader::specs::internal::Reading::end_item))]
fn end_item(parser: &mut Parser<'_>, before: &[Spanned]) -> Result<(), ParseError>
    ensures { Reads (reading.end_item before.now parser.old) result parser.new }
{
    if !parser.may_end(before) {
        return Err(parser.unexpected());
    }
    parser.skip_semicolons();
    Ok(())
}

#[cycle(statement)]
fn statement(parser: &mut Parser<'_>, depth: usize) -> Result<Statement, ParseError>
    ensures { Reads (spec.statement_by (spec.block_in depth) parser.old) result parser.new }
{
    let place = parser.here()?;
    let head = statement_head(parser)?;
    let action = action_behind(parser, head, depth)?;
    Ok(Statement {
        place,
        action: Boxed::new(parser.alloc, action)?,
    })
}

/// What a statement does, behind its head.
#[cycle(statement)]
fn action_behind(parser: &mut Parser<'_>, head: Head, depth: usize) -> Result<Action, ParseError>
    ensures { Reads (spec.action_behind (spec.block_in depth) head parser.old) result parser.new }
{
    match head {
        Head::Whole(action) => Ok(action),
        Head::Alt => Ok(Action::Alt(branches_in(parser, depth)?)),
        Head::If => if_chain(parser, depth),
        Head::Do => {
            let block = block_in(parser, depth)?;
            do_condition(parser, block)
        }
        Head::While(condition) => Ok(Action::While(condition, block_in(parser, depth)?)),
        Head::For(header) => Ok(header.into_action(block_in(parser, depth)?)),
    }
}

/// The condition behind the block of a `do`.
#[tactic(auto, unfolding(parse_reader::specs::internal::Statements::do_condition))]
fn do_condition(parser: &mut Parser<'_>, block: Seq<Statement>) -> Result<Action, ParseError>
    ensures { Reads (spec.do_condition block parser.old) result parser.new }
{
    parser.word(Word::While)?;
    Ok(Action::DoWhile(block, in_brackets(parser)?))
}

/// An `if` with all its `else if` and its `else`, behind its first word.
#[cycle(statement)]
#[tactic(auto, unfolding(parse_reader::specs::internal::Statements::else_block))]
fn if_chain(parser: &mut Parser<'_>, depth: usize) -> Result<Action, ParseError>
    ensures { Reads (spec.action_behind (spec.block_in depth) head_of.If parser.old) result parser.new }
{
    let mut conditionals = Seq::new(parser.alloc);
    conditionals.push(conditional(parser, depth)?)?;
    let conditionals = else_ifs(parser, conditionals, depth)?;
    if !parser.take_word(Word::Else) {
        return Ok(Action::If(conditionals, None));
    }
    Ok(Action::If(conditionals, Some(block_in(parser, depth)?)))
}

/// The `else if` behind those that were found.
#[cycle(statement)]
fn else_ifs(
    parser: &mut Parser<'_>,
    found: Seq<Conditional>,
    depth: usize,
) -> Result<Seq<Conditional>, ParseError>
    ensures { Reads (spec.else_ifs_onto (spec.conditional_by (spec.block_in depth)) found parser.old) result parser.new }
{
    let mut conditionals = found;
    for _turn in 0..parser.left() {
        if !goes_on(parser) {
            return Ok(conditionals);
        }
        parser.advance();
        parser.advance();
        conditionals.push(conditional(parser, depth)?)?;
    }
    Ok(conditionals)
}

/// `else if` comes next.
fn goes_on(parser: &Parser<'_>) -> bool
    ensures { result ≡ spec.goes_on parser.now }
{
    parser.is_at_word(Word::Else) && is_word(parser.second(), Word::If)
}

#[cycle(statement)]
#[tactic(auto, unfolding(parse_reader::specs::internal::Statements::conditional_by))]
fn conditional(parser: &mut Parser<'_>, depth: usize) -> Result<Conditional, ParseError>
    ensures { Reads (spec.conditional_by (spec.block_in depth) parser.old) result parser.new }
{
    let condition = in_brackets(parser)?;
    let block = block_in(parser, depth)?;
    Ok(Conditional { condition, block })
}

#[cycle(statement)]
#[tactic(auto, unfolding(parse_reader::specs::internal::Statements::branches_by))]
fn branches_in(parser: &mut Parser<'_>, depth: usize) -> Result<Seq<Branch>, ParseError>
    ensures { Reads (spec.branches_by (spec.block_in depth) parser.old) result parser.new }
{
    parser.symbol(Symbol::LeftBrace)?;
    let branches = branch_items(parser, depth)?;
    parser.symbol(Symbol::RightBrace)?;
    Ok(branches)
}

#[cycle(statement)]
fn branch_items(parser: &mut Parser<'_>, depth: usize) -> Result<Seq<Branch>, ParseError>
    ensures { Reads (reading.items reading.at_brace (reading.ended (spec.branch_by (spec.block_in depth))) parser.old) result parser.new }
{
    let mut branches = Seq::new(parser.alloc);
    for _turn in 0..parser.left() {
        if parser.is_at(Symbol::RightBrace) {
            return Ok(branches);
        }
        let before = parser.rest();
        branches.push(branch(parser, depth)?)?;
        end_item(parser, before)?;
    }
    Ok(branches)
}

#[cycle(statement)]
fn branch(parser: &mut Parser<'_>, depth: usize) -> Result<Branch, ParseError>
    ensures { Reads (spec.branch_by (spec.block_in depth) parser.old) result parser.new }
{
    let place = parser.here()?;
    let wait = branch_head(parser)?;
    let mut block = None;
    if parser.is_at(Symbol::LeftBrace) {
        block = Some(block_in(parser, depth)?);
    }
    let alternative = alternative(parser, wait, block)?;
    Ok(Branch {
        place,
        alternative: Boxed::new(parser.alloc, alternative)?,
    })
}
