//! Values, calls, and what may stand on the right of `:=`.
ghost use Rattle.std.specs.Prelude.{◌≡◌};
ghost use Rattle.parse_reader.specs.internal.Reading as reading;
ghost use Rattle.parse_reader.specs.internal.Values as spec;
ghost use Rattle.parse_reader.specs.internal.Reading.{Reads};

use crate::expressions::expression;
use parse_reader::{Listed, ParseError, Parser, is_name, is_symbol, is_word};
use ttcn_syntax::{Call, FieldValue, Rhs, Seq, Symbol, Token, TypeName, Value, Word};

#[tactic(auto, unfolding(parse_reader::specs::internal::Values::a_type))]
pub fn type_name(parser: &mut Parser<'_>) -> Result<TypeName, ParseError>
    ensures { Reads (spec.a_type parser.old) result parser.new }
{
    let type_name = match parser.token() {
        Some(Token::Word(Word::Integer)) => TypeName::Integer,
        Some(Token::Word(Word::Boolean)) => TypeName::Boolean,
        Some(Token::Word(Word::Default)) => TypeName::Default,
        Some(Token::Id(name)) => TypeName::Named(name.try_clone(parser.alloc)?),
        _ => return Err(parser.unexpected()),
    };
    parser.advance();
    Ok(type_name)
}

#[tactic(auto, using(crate::proofs::Readers::value_in_step), unfolding(parse_reader::specs::internal::Values::a_value))]
pub fn value(parser: &mut Parser<'_>) -> Result<Value, ParseError>
    ensures { Reads (spec.a_value parser.old) result parser.new }
{
    let depth = parser.left();
    value_in(parser, depth)
}

/// A value, within which so many braces may still nest.
#[cycle(value)]
#[tactic(auto, unfolding(parse_reader::specs::internal::Values::value_expression))]
fn value_in(parser: &mut Parser<'_>, depth: usize) -> Result<Value, ParseError>
    ensures { Reads (spec.value_by (spec.value_below depth) (reading.head_token parser.old) parser.old) result parser.new }
{
    match parser.token() {
        Some(Token::Word(Word::Omit)) => {
            parser.advance();
            Ok(Value::Omit)
        }
        Some(Token::Symbol(Symbol::LeftBrace)) => braced_value(parser, depth),
        _ => Ok(Value::Expr(expression(parser)?)),
    }
}

/// A record literal.
#[cycle(value)]
#[tactic(auto, unfolding(parse_reader::specs::internal::Values::braced_value, parse_reader::specs::internal::Reading::separated_until))]
fn braced_value(parser: &mut Parser<'_>, depth: usize) -> Result<Value, ParseError>
    ensures { Reads (spec.braced_value (spec.value_below depth) parser.old) result parser.new }
{
    parser.symbol(Symbol::LeftBrace)?;
    if is_at_field(parser) {
        let fields = field_values(parser, depth)?;
        parser.symbol(Symbol::RightBrace)?;
        return Ok(Value::Assigned(fields));
    }
    if parser.take_symbol(Symbol::RightBrace) {
        return Ok(Value::Listed(Seq::new(parser.alloc)));
    }
    let values = values(parser, depth)?;
    parser.symbol(Symbol::RightBrace)?;
    Ok(Value::Listed(values))
}

#[cycle(value)]
fn values(parser: &mut Parser<'_>, depth: usize) -> Result<Seq<Value>, ParseError>
    ensures { Reads (reading.separated (spec.value_below depth) parser.old) result parser.new }
{
    let mut values = Seq::new(parser.alloc);
    for _turn in 0..parser.left() {
        values.push(value_below(parser, depth)?)?;
        if !parser.take_symbol(Symbol::Comma) {
            return Ok(values);
        }
    }
    Err(parser.unexpected())
}

#[cycle(value)]
fn field_values(parser: &mut Parser<'_>, depth: usize) -> Result<Seq<FieldValue>, ParseError>
    ensures { Reads (reading.separated (spec.field_value_by (spec.value_below depth)) parser.old) result parser.new }
{
    let mut fields = Seq::new(parser.alloc);
    for _turn in 0..parser.left() {
        fields.push(field_value(parser, depth)?)?;
        if !parser.take_symbol(Symbol::Comma) {
            return Ok(fields);
        }
    }
    Err(parser.unexpected())
}

#[cycle(value)]
#[tactic(auto, unfolding(parse_reader::specs::internal::Values::field_value_by))]
fn field_value(parser: &mut Parser<'_>, depth: usize) -> Result<FieldValue, ParseError>
    ensures { Reads (spec.field_value_by (spec.value_below depth) parser.old) result parser.new }
{
    let name = parser.name()?;
    parser.symbol(Symbol::Assign)?;
    let value = value_below(parser, depth)?;
    Ok(FieldValue { name, value })
}

/// A value within braces.
#[cycle(value)]
fn value_below(parser: &mut Parser<'_>, depth: usize) -> Result<Value, ParseError>
    ensures { Reads (spec.value_below depth parser.old) result parser.new }
{
    if depth == 0 {
        return Err(parser.unexpected());
    }
    value_in(parser, depth - 1)
}

/// A name and `:=` come next.
#[tactic(auto, unfolding(parse_reader::specs::internal::Values::assigns))]
pub(crate) fn is_at_field(parser: &Parser<'_>) -> bool
    ensures { result ≡ spec.assigns parser.now }
{
    is_name(parser.token()) && is_symbol(parser.second(), Symbol::Assign)
}

/// A name and `(` come next.
#[tactic(auto, unfolding(parse_reader::specs::internal::Values::calls))]
pub fn is_at_call(parser: &Parser<'_>) -> bool
    ensures { result ≡ spec.calls parser.now }
{
    is_name(parser.token()) && is_symbol(parser.second(), Symbol::LeftParen)
}

/// A name with its arguments.
#[tactic(auto, unfolding(parse_reader::specs::internal::Values::call))]
pub fn call(parser: &mut Parser<'_>) -> Result<Call, ParseError>
    ensures { Reads (spec.call parser.old) result parser.new }
{
    let name = parser.name()?;
    parser.symbol(Symbol::LeftParen)?;
    let arguments = parser.separated_until::<AValue>(Symbol::RightParen)?;
    Ok(Call { name, arguments })
}

#[tactic(auto, unfolding(parse_reader::specs::internal::Values::a_rhs))]
pub fn rhs(parser: &mut Parser<'_>) -> Result<Rhs, ParseError>
    ensures { Reads (spec.a_rhs parser.old) result parser.new }
{
    if is_at_call(parser) {
        return Ok(Rhs::Call(call(parser)?));
    }
    if is_at_create(parser) {
        let component = parser.name()?;
        parser.symbol(Symbol::Dot)?;
        parser.word(Word::Create)?;
        return Ok(Rhs::Create(component));
    }
    if parser.is_at_word(Word::Activate) {
        return Ok(Rhs::Activate(activation(parser)?));
    }
    Ok(Rhs::Value(value(parser)?))
}

/// A name, a dot and `create` come next.
#[tactic(auto, unfolding(parse_reader::specs::internal::Values::creates))]
fn is_at_create(parser: &Parser<'_>) -> bool
    ensures { result ≡ spec.creates parser.now }
{
    is_name(parser.token())
        && is_symbol(parser.second(), Symbol::Dot)
        && is_word(parser.third(), Word::Create)
}

#[tactic(auto, unfolding(parse_reader::specs::internal::Values::activation))]
pub fn activation(parser: &mut Parser<'_>) -> Result<Call, ParseError>
    ensures { Reads (spec.activation parser.old) result parser.new }
{
    parser.word(Word::Activate)?;
    parser.symbol(Symbol::LeftParen)?;
    let call = call(parser)?;
    parser.symbol(Symbol::RightParen)?;
    Ok(call)
}

/// Values in lists.
pub struct AValue;

impl Listed for AValue {
    type Item = Value;

    ghost reader = { spec.a_value };

    fn read(parser: &mut Parser<'_>) -> Result<Value, ParseError> {
        value(parser)
    }
}

/// Types in lists.
pub struct AType;

impl Listed for AType {
    type Item = TypeName;

    ghost reader = { spec.a_type };

    fn read(parser: &mut Parser<'_>) -> Result<TypeName, ParseError> {
        type_name(parser)
    }
}
