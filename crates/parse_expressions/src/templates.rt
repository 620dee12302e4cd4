//! Templates.
ghost use Rattle.std.specs.Prelude.{◌≡◌};
ghost use Rattle.parse_reader.specs.internal.Reading as reading;
ghost use Rattle.parse_reader.specs.internal.Templates as spec;
ghost use Rattle.parse_reader.specs.internal.Reading.{Reads};

use crate::expressions::{expression, expression_from};
use crate::values::{call, is_at_call, is_at_field, type_name};
use parse_reader::{ParseError, Parser, Shape, is_symbol, is_word};
use ttcn_syntax::{
    Bound, Boxed, Expr, FieldTemplate, MessageTemplate, Seq, Symbol, Template, TemplateBody, Token,
    Word,
};

#[tactic(auto, using(crate::proofs::Readers::shape_in_step), unfolding(parse_reader::specs::internal::Templates::a_template, parse_reader::specs::internal::Templates::template_by))]
pub fn template(parser: &mut Parser<'_>) -> Result<Template, ParseError>
    ensures { Reads (spec.a_template parser.old) result parser.new }
{
    let depth = parser.left();
    let shape = shape_in(parser, depth)?;
    let ifpresent = parser.take_word(Word::Ifpresent);
    Ok(shape.into_template(ifpresent))
}

/// The template of a message, with its type or without.
#[tactic(auto, unfolding(parse_reader::specs::internal::Templates::message))]
pub fn message(parser: &mut Parser<'_>) -> Result<MessageTemplate, ParseError>
    ensures { Reads (spec.message parser.old) result parser.new }
{
    let mut written = None;
    if is_symbol(parser.second(), Symbol::Colon) {
        written = Some(type_name(parser)?);
        parser.symbol(Symbol::Colon)?;
    }
    let template = template(parser)?;
    Ok(MessageTemplate {
        type_name: written,
        template: Boxed::new(parser.alloc, template)?,
    })
}

/// The body of a template, within which so many brackets may still nest.
#[cycle(template)]
fn shape_in(parser: &mut Parser<'_>, depth: usize) -> Result<Shape, ParseError>
    ensures { Reads (spec.shape_by (spec.shape_below depth) (reading.head_token parser.old) parser.old) result parser.new }
{
    let body = match parser.token() {
        Some(Token::Symbol(Symbol::Question)) => TemplateBody::Any,
        Some(Token::Symbol(Symbol::Star)) => TemplateBody::AnyOrOmit,
        Some(Token::Word(Word::Omit)) => TemplateBody::Omit,
        Some(Token::Word(Word::Complement)) => return complement(parser, depth),
        Some(Token::Symbol(Symbol::LeftBrace)) => return braced_template(parser, depth),
        Some(Token::Symbol(Symbol::LeftParen)) => return in_parens(parser, depth),
        _ => return shape_expression(parser),
    };
    parser.advance();
    Ok(Shape::Pattern(body))
}

/// An expression, or a named template with arguments.
#[tactic(auto, unfolding(parse_reader::specs::internal::Templates::shape_expression))]
fn shape_expression(parser: &mut Parser<'_>) -> Result<Shape, ParseError>
    ensures { Reads (spec.shape_expression parser.old) result parser.new }
{
    if is_at_call(parser) {
        return Ok(Shape::Pattern(TemplateBody::Call(call(parser)?)));
    }
    Ok(Shape::Expr(expression(parser)?))
}

#[cycle(template)]
#[tactic(auto, unfolding(parse_reader::specs::internal::Templates::complement))]
fn complement(parser: &mut Parser<'_>, depth: usize) -> Result<Shape, ParseError>
    ensures { Reads (spec.complement (spec.shape_below depth) parser.old) result parser.new }
{
    parser.word(Word::Complement)?;
    parser.symbol(Symbol::LeftParen)?;
    let found = Seq::new(parser.alloc);
    let templates = templates(parser, found, depth)?;
    parser.symbol(Symbol::RightParen)?;
    Ok(Shape::Pattern(TemplateBody::Complement(templates)))
}

/// A record template.
#[cycle(template)]
#[tactic(auto, unfolding(parse_reader::specs::internal::Templates::braced_template, parse_reader::specs::internal::Reading::separated_until))]
fn braced_template(parser: &mut Parser<'_>, depth: usize) -> Result<Shape, ParseError>
    ensures { Reads (spec.braced_template (spec.shape_below depth) parser.old) result parser.new }
{
    parser.symbol(Symbol::LeftBrace)?;
    if is_at_field(parser) {
        let fields = field_templates(parser, depth)?;
        parser.symbol(Symbol::RightBrace)?;
        return Ok(Shape::Pattern(TemplateBody::Assigned(fields)));
    }
    if parser.take_symbol(Symbol::RightBrace) {
        return Ok(Shape::Pattern(TemplateBody::Listed(Seq::new(parser.alloc))));
    }
    let found = Seq::new(parser.alloc);
    let templates = templates(parser, found, depth)?;
    parser.symbol(Symbol::RightBrace)?;
    Ok(Shape::Pattern(TemplateBody::Listed(templates)))
}

/// A list, a range, or an expression that begins with a bracket.
#[cycle(template)]
#[tactic(auto, unfolding(parse_reader::specs::internal::Templates::in_parens))]
fn in_parens(parser: &mut Parser<'_>, depth: usize) -> Result<Shape, ParseError>
    ensures { Reads (spec.in_parens (spec.shape_below depth) parser.old) result parser.new }
{
    parser.symbol(Symbol::LeftParen)?;
    if is_at_infinity(parser) {
        let low = bound(parser)?;
        return range_from(parser, low);
    }
    let shape = shape_below(parser, depth)?;
    let ifpresent = parser.take_word(Word::Ifpresent);
    match shape {
        Shape::Expr(expr) if !ifpresent => opened_by(parser, expr, depth),
        shape => list_from(parser, shape.into_template(ifpresent), depth),
    }
}

/// What an expression behind the opening bracket begins.
#[cycle(template)]
#[tactic(auto, unfolding(parse_reader::specs::internal::Templates::opened_by))]
fn opened_by(parser: &mut Parser<'_>, expr: Expr, depth: usize) -> Result<Shape, ParseError>
    ensures { Reads (spec.opened_by (spec.shape_below depth) expr parser.old) result parser.new }
{
    if parser.is_at(Symbol::DotDot) {
        return range_from(parser, Bound::Expr(expr));
    }
    if parser.is_at(Symbol::RightParen) {
        return closed_expression(parser, expr);
    }
    let first = Shape::Expr(expr).into_template(false);
    list_from(parser, first, depth)
}

/// An expression that begins with this one in brackets.
#[tactic(auto, unfolding(parse_reader::specs::internal::Templates::closed_expression))]
fn closed_expression(parser: &mut Parser<'_>, expr: Expr) -> Result<Shape, ParseError>
    ensures { Reads (spec.closed_expression expr parser.old) result parser.new }
{
    parser.symbol(Symbol::RightParen)?;
    Ok(Shape::Expr(expression_from(parser, expr)?))
}

/// The list that begins with this template.
#[cycle(template)]
#[tactic(auto, unfolding(parse_reader::specs::internal::Templates::list_from))]
fn list_from(parser: &mut Parser<'_>, first: Template, depth: usize) -> Result<Shape, ParseError>
    ensures { Reads (spec.list_from (spec.shape_below depth) first parser.old) result parser.new }
{
    let mut all = Seq::new(parser.alloc);
    all.push(first)?;
    if parser.take_symbol(Symbol::Comma) {
        all = templates(parser, all, depth)?;
    }
    parser.symbol(Symbol::RightParen)?;
    Ok(Shape::Pattern(TemplateBody::List(all)))
}

/// Templates with commas between them, behind those that were found.
#[cycle(template)]
fn templates(
    parser: &mut Parser<'_>,
    found: Seq<Template>,
    depth: usize,
) -> Result<Seq<Template>, ParseError>
    ensures { Reads (reading.separated_onto (spec.template_by (spec.shape_below depth)) found parser.old) result parser.new }
{
    let mut templates = found;
    for _turn in 0..parser.left() {
        templates.push(template_below(parser, depth)?)?;
        if !parser.take_symbol(Symbol::Comma) {
            return Ok(templates);
        }
    }
    Err(parser.unexpected())
}

#[cycle(template)]
fn field_templates(parser: &mut Parser<'_>, depth: usize) -> Result<Seq<FieldTemplate>, ParseError>
    ensures { Reads (reading.separated (spec.field_template_by (spec.template_by (spec.shape_below depth))) parser.old) result parser.new }
{
    let mut fields = Seq::new(parser.alloc);
    for _turn in 0..parser.left() {
        fields.push(field_template(parser, depth)?)?;
        if !parser.take_symbol(Symbol::Comma) {
            return Ok(fields);
        }
    }
    Err(parser.unexpected())
}

#[cycle(template)]
#[tactic(auto, unfolding(parse_reader::specs::internal::Templates::field_template_by))]
fn field_template(parser: &mut Parser<'_>, depth: usize) -> Result<FieldTemplate, ParseError>
    ensures { Reads (spec.field_template_by (spec.template_by (spec.shape_below depth)) parser.old) result parser.new }
{
    let name = parser.name()?;
    parser.symbol(Symbol::Assign)?;
    let template = template_below(parser, depth)?;
    Ok(FieldTemplate { name, template })
}

/// A template within brackets.
#[cycle(template)]
#[tactic(auto, unfolding(parse_reader::specs::internal::Templates::template_by))]
fn template_below(parser: &mut Parser<'_>, depth: usize) -> Result<Template, ParseError>
    ensures { Reads (spec.template_by (spec.shape_below depth) parser.old) result parser.new }
{
    let shape = shape_below(parser, depth)?;
    let ifpresent = parser.take_word(Word::Ifpresent);
    Ok(shape.into_template(ifpresent))
}

/// A template's body within brackets.
#[cycle(template)]
fn shape_below(parser: &mut Parser<'_>, depth: usize) -> Result<Shape, ParseError>
    ensures { Reads (spec.shape_below depth parser.old) result parser.new }
{
    if depth == 0 {
        return Err(parser.unexpected());
    }
    shape_in(parser, depth - 1)
}

/// `infinity` comes next, with a sign or without.
#[tactic(auto, unfolding(parse_reader::specs::internal::Templates::infinite))]
fn is_at_infinity(parser: &Parser<'_>) -> bool
    ensures { result ≡ spec.infinite parser.now }
{
    parser.is_at_word(Word::Infinity)
        || parser.is_at(Symbol::Minus) && is_word(parser.second(), Word::Infinity)
}

#[tactic(auto, unfolding(parse_reader::specs::internal::Templates::a_bound))]
fn bound(parser: &mut Parser<'_>) -> Result<Bound, ParseError>
    ensures { Reads (spec.a_bound parser.old) result parser.new }
{
    if is_at_infinity(parser) {
        parser.take_symbol(Symbol::Minus);
        parser.word(Word::Infinity)?;
        return Ok(Bound::Infinity);
    }
    Ok(Bound::Expr(expression(parser)?))
}

/// A range behind its lower bound.
#[tactic(auto, unfolding(parse_reader::specs::internal::Templates::range_from))]
fn range_from(parser: &mut Parser<'_>, low: Bound) -> Result<Shape, ParseError>
    ensures { Reads (spec.range_from low parser.old) result parser.new }
{
    parser.symbol(Symbol::DotDot)?;
    let high = bound(parser)?;
    parser.symbol(Symbol::RightParen)?;
    Ok(Shape::Pattern(TemplateBody::Range(low, high)))
}
