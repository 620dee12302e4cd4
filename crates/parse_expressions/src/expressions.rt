//! Expressions, by the levels at which their operators bind.
ghost use Rattle.std.specs.Prelude.{◌≡◌, ◌≤◌, ◌+◌, [], Some, None};
ghost use Rattle.parse_expressions.specs.internal.Level.{rank_of};
ghost use Rattle.parse_reader.specs.internal.Expressions as spec;
ghost use Rattle.parse_reader.specs.internal.Reading.{Reads};

use parse_reader::{ParseError, Parser, is_word};
use ttcn_syntax::{
    Boxed, ComponentRef, Expr, Level, Link, Name, Operator, Reference, Seq, Sign, Symbol, Token,
    Word,
};

/// A name, and the fields behind it.
#[tactic(auto, unfolding(parse_reader::specs::internal::Expressions::reference))]
pub fn reference(parser: &mut Parser<'_>) -> Result<Reference, ParseError>
    ensures { Reads (spec.reference parser.old) result parser.new }
{
    let name = parser.name()?;
    let fields = fields(parser)?;
    Ok(Reference { name, fields })
}

fn fields(parser: &mut Parser<'_>) -> Result<Seq<Name>, ParseError>
    ensures { Reads (spec.fields parser.old) result parser.new }
{
    let mut fields = Seq::new(parser.alloc);
    for _turn in 0..parser.left() {
        let Some(field) = take_field(parser)? else {
            return Ok(fields);
        };
        fields.push(field)?;
    }
    Ok(fields)
}

/// Takes the field and its dot, if one comes next.
#[tactic(auto, unfolding(parse_reader::specs::internal::Expressions::eat_field))]
fn take_field(parser: &mut Parser<'_>) -> Result<Option<Name>, ParseError>
    ensures { Reads (spec.eat_field parser.old) result parser.new }
{
    if !parser.is_at(Symbol::Dot) {
        return Ok(None);
    }
    let Some(Token::Id(field)) = parser.second() else {
        return Ok(None);
    };
    let field = field.try_clone(parser.alloc)?;
    parser.advance();
    parser.advance();
    Ok(Some(field))
}

#[tactic(auto, unfolding(parse_reader::specs::internal::Expressions::component, parse_reader::specs::internal::Expressions::named_reference))]
pub fn component(parser: &mut Parser<'_>) -> Result<ComponentRef, ParseError>
    ensures { Reads (spec.component parser.old) result parser.new }
{
    match parser.token() {
        Some(Token::Word(Word::SelfWord)) => {
            parser.advance();
            Ok(ComponentRef::Itself)
        }
        Some(Token::Word(Word::Mtc)) => {
            parser.advance();
            Ok(ComponentRef::Mtc)
        }
        _ => Ok(ComponentRef::Named(reference(parser)?)),
    }
}

#[tactic(auto, unfolding(parse_reader::specs::internal::Expressions::expression))]
pub fn expression(parser: &mut Parser<'_>) -> Result<Expr, ParseError>
    ensures { Reads (spec.expression parser.old) result parser.new }
{
    let depth = parser.left();
    operand(parser, Level::Or, depth, None)
}

/// The expression whose first primary was read.
#[tactic(auto, unfolding(parse_reader::specs::internal::Expressions::expression_from))]
pub(crate) fn expression_from(parser: &mut Parser<'_>, begun: Expr) -> Result<Expr, ParseError>
    ensures { Reads (spec.expression_from begun parser.old) result parser.new }
{
    let depth = parser.left();
    operand(parser, Level::Or, depth, Some(begun))
}

/// An operand of a level, within which so many brackets may still nest, and whose first primary may have been read.
#[cycle(expression)]
fn operand(
    parser: &mut Parser<'_>,
    level: Level,
    depth: usize,
    begun: Option<Expr>,
) -> Result<Expr, ParseError>
    ensures { Reads (spec.operand_of (spec.inner depth) level begun parser.old) result parser.new }
{
    match level {
        Level::Or => chain(parser, level, Level::Xor, depth, begun),
        Level::Xor => chain(parser, level, Level::And, depth, begun),
        Level::And => chain(parser, level, Level::Not, depth, begun),
        Level::Not => negation(parser, depth, begun),
        Level::Equality => chain(parser, level, Level::Order, depth, begun),
        Level::Order => chain(parser, level, Level::Sum, depth, begun),
        Level::Sum => chain(parser, level, Level::Product, depth, begun),
        Level::Product => chain(parser, level, Level::Sign, depth, begun),
        Level::Sign => signed(parser, depth, begun),
    }
}

/// Operands with operators of one level between them.
#[cycle(expression)]
#[tactic(auto, unfolding(parse_reader::specs::internal::Expressions::chain))]
fn chain(
    parser: &mut Parser<'_>,
    level: Level,
    tighter: Level,
    depth: usize,
    begun: Option<Expr>,
) -> Result<Expr, ParseError>
    requires { rank_of tighter + 2 ≤ rank_of level }
    ensures { Reads (spec.chain level (spec.operand_of (spec.inner depth) tighter) begun parser.old) result parser.new }
{
    let first = operand(parser, tighter, depth, begun)?;
    let links = links(parser, level, tighter, depth)?;
    if links.len() == 0 {
        return Ok(first);
    }
    Ok(Expr::Chain(Boxed::new(parser.alloc, first)?, links))
}

/// Operators of a level, each with the operand behind it.
#[cycle(expression)]
fn links(
    parser: &mut Parser<'_>,
    level: Level,
    tighter: Level,
    depth: usize,
) -> Result<Seq<Link>, ParseError>
    requires { rank_of tighter + 2 ≤ rank_of level }
    ensures { Reads (spec.links_from (spec.operand_of (spec.inner depth) tighter None) level (spec.most_links level parser.old) [] parser.old) result parser.new }
{
    let mut links = Seq::new(parser.alloc);
    for _turn in 0..parser.most_links(level) {
        let Some(operator) = take_operator(parser, level) else {
            return Ok(links);
        };
        let operand = operand(parser, tighter, depth, None)?;
        links.push(Link { operator, operand })?;
    }
    Ok(links)
}

/// Takes the operator, if one of the level comes next.
#[tactic(auto, unfolding(parse_reader::specs::internal::Expressions::eat_operator, parse_reader::specs::internal::Reading::same_level))]
fn take_operator(parser: &mut Parser<'_>, level: Level) -> Option<Operator>
    ensures { spec.eat_operator level parser.old ≡ Some (result, parser.new) }
{
    let operator = parser.token()?.operator()?;
    if operator.level() != level {
        return None;
    }
    parser.advance();
    Some(operator)
}

#[cycle(expression)]
#[tactic(auto, unfolding(parse_reader::specs::internal::Expressions::negation))]
fn negation(parser: &mut Parser<'_>, depth: usize, begun: Option<Expr>) -> Result<Expr, ParseError>
    ensures { Reads (spec.at_not (spec.inner depth) begun parser.old) result parser.new }
{
    if begun.is_none() && parser.take_word(Word::Not) {
        let operand = operand(parser, Level::Equality, depth, None)?;
        return Ok(Expr::Not(Boxed::new(parser.alloc, operand)?));
    }
    operand(parser, Level::Equality, depth, begun)
}

#[cycle(expression)]
#[tactic(auto, unfolding(parse_reader::specs::internal::Expressions::signed))]
fn signed(parser: &mut Parser<'_>, depth: usize, begun: Option<Expr>) -> Result<Expr, ParseError>
    ensures { Reads (spec.signed (spec.inner depth) begun parser.old) result parser.new }
{
    if let Some(expr) = begun {
        return Ok(expr);
    }
    let sign = if parser.take_symbol(Symbol::Plus) {
        Sign::Plus
    } else if parser.take_symbol(Symbol::Minus) {
        Sign::Minus
    } else {
        return primary(parser, depth);
    };
    let operand = primary(parser, depth)?;
    Ok(Expr::Signed(sign, Boxed::new(parser.alloc, operand)?))
}

#[cycle(expression)]
#[tactic(auto, unfolding(parse_reader::specs::internal::Expressions::primary))]
fn primary(parser: &mut Parser<'_>, depth: usize) -> Result<Expr, ParseError>
    ensures { Reads (spec.primary (spec.inner depth) parser.old) result parser.new }
{
    let expr = match parser.token() {
        Some(Token::Int(number)) => Expr::Int(*number),
        Some(Token::Word(Word::True)) => Expr::Bool(true),
        Some(Token::Word(Word::False)) => Expr::Bool(false),
        Some(Token::Word(Word::Null)) => Expr::Null,
        Some(Token::Word(Word::Ispresent)) => return ispresent(parser),
        Some(Token::Symbol(Symbol::LeftParen)) => return bracketed(parser, depth),
        _ => return referred(parser),
    };
    parser.advance();
    Ok(expr)
}

/// An expression in brackets, which leave no trace in the tree.
#[cycle(expression)]
#[tactic(auto, unfolding(parse_reader::specs::internal::Expressions::bracketed))]
fn bracketed(parser: &mut Parser<'_>, depth: usize) -> Result<Expr, ParseError>
    ensures { Reads (spec.bracketed (spec.inner depth) parser.old) result parser.new }
{
    parser.symbol(Symbol::LeftParen)?;
    if depth == 0 {
        return Err(parser.unexpected());
    }
    let expr = operand(parser, Level::Or, depth - 1, None)?;
    parser.symbol(Symbol::RightParen)?;
    Ok(expr)
}

#[tactic(auto, unfolding(parse_reader::specs::internal::Expressions::is_present))]
fn ispresent(parser: &mut Parser<'_>) -> Result<Expr, ParseError>
    ensures { Reads (spec.is_present parser.old) result parser.new }
{
    parser.word(Word::Ispresent)?;
    parser.symbol(Symbol::LeftParen)?;
    let reference = reference(parser)?;
    parser.symbol(Symbol::RightParen)?;
    Ok(Expr::Ispresent(reference))
}

/// What a name, `parser` or `mtc` stands for, or whether that is running.
#[tactic(auto, unfolding(parse_reader::specs::internal::Expressions::referred))]
fn referred(parser: &mut Parser<'_>) -> Result<Expr, ParseError>
    ensures { Reads (spec.referred parser.old) result parser.new }
{
    let component = component(parser)?;
    if parser.is_at(Symbol::Dot) && is_word(parser.second(), Word::Running) {
        parser.advance();
        parser.advance();
        return Ok(Expr::Running(component));
    }
    Ok(Expr::Reference(component))
}
