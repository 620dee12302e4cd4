//! Declarations of variables, constants and timers.
ghost use Rattle.parse_reader.specs.internal.Values as read_values;
ghost use Rattle.parse_reader.specs.internal.Declarations as spec;
ghost use Rattle.parse_reader.specs.internal.Reading.{Reads};

use parse_expressions::{rhs, type_name, value};
use parse_reader::{Listed, ParseError, Parser};
use ttcn_syntax::{
    Constant, Constants, Rhs, Seq, Symbol, Timer, Token, Value, Variable, Variables, Word,
};

#[tactic(auto, unfolding(parse_reader::specs::internal::Declarations::variables))]
pub(crate) fn variables(parser: &mut Parser<'_>) -> Result<Variables, ParseError>
    ensures { Reads (spec.variables parser.old) result parser.new }
{
    parser.word(Word::Var)?;
    let type_name = type_name(parser)?;
    let variables = parser.separated::<AVariable>()?;
    Ok(Variables {
        type_name,
        variables,
    })
}

#[tactic(auto, unfolding(parse_reader::specs::internal::Declarations::constants))]
pub fn constants(parser: &mut Parser<'_>) -> Result<Constants, ParseError>
    ensures { Reads (spec.constants parser.old) result parser.new }
{
    parser.word(Word::Const)?;
    let type_name = type_name(parser)?;
    let constants = parser.separated::<AConstant>()?;
    Ok(Constants {
        type_name,
        constants,
    })
}

#[tactic(auto, unfolding(parse_reader::specs::internal::Declarations::timers))]
pub fn timers(parser: &mut Parser<'_>) -> Result<Seq<Timer>, ParseError>
    ensures { Reads (spec.timers parser.old) result parser.new }
{
    parser.word(Word::Timer)?;
    parser.separated::<ATimer>()
}

#[tactic(auto, unfolding(parse_reader::specs::internal::Declarations::initial))]
fn initial_rhs(parser: &mut Parser<'_>) -> Result<Option<Rhs>, ParseError>
    ensures { Reads (spec.initial read_values.a_rhs parser.old) result parser.new }
{
    if !parser.take_symbol(Symbol::Assign) {
        return Ok(None);
    }
    Ok(Some(rhs(parser)?))
}

#[tactic(auto, unfolding(parse_reader::specs::internal::Declarations::initial))]
pub fn initial_value(parser: &mut Parser<'_>) -> Result<Option<Value>, ParseError>
    ensures { Reads (spec.initial read_values.a_value parser.old) result parser.new }
{
    if !parser.take_symbol(Symbol::Assign) {
        return Ok(None);
    }
    Ok(Some(value(parser)?))
}

/// A duration, which has no value.
#[tactic(auto, unfolding(parse_reader::specs::internal::Declarations::float))]
pub(crate) fn float(parser: &mut Parser<'_>) -> Result<(), ParseError>
    ensures { Reads (spec.float parser.old) result parser.new }
{
    let Some(Token::Float) = parser.token() else {
        return Err(parser.unexpected());
    };
    parser.advance();
    Ok(())
}

/// Variables in lists.
pub struct AVariable;

impl Listed for AVariable {
    type Item = Variable;

    ghost reader = { spec.variable };

    #[tactic(auto, unfolding(parse_reader::specs::internal::Declarations::variable))]
    fn read(parser: &mut Parser<'_>) -> Result<Variable, ParseError> {
        let name = parser.name()?;
        let value = initial_rhs(parser)?;
        Ok(Variable { name, value })
    }
}

/// Constants in lists.
pub struct AConstant;

impl Listed for AConstant {
    type Item = Constant;

    ghost reader = { spec.constant };

    #[tactic(auto, unfolding(parse_reader::specs::internal::Declarations::constant))]
    fn read(parser: &mut Parser<'_>) -> Result<Constant, ParseError> {
        let name = parser.name()?;
        parser.symbol(Symbol::Assign)?;
        let value = value(parser)?;
        Ok(Constant { name, value })
    }
}

/// Timers in lists.
pub struct ATimer;

impl Listed for ATimer {
    type Item = Timer;

    ghost reader = { spec.timer };

    #[tactic(auto, unfolding(parse_reader::specs::internal::Declarations::timer, parse_reader::specs::internal::Declarations::initial))]
    fn read(parser: &mut Parser<'_>) -> Result<Timer, ParseError> {
        let name = parser.name()?;
        if parser.take_symbol(Symbol::Assign) {
            float(parser)?;
        }
        Ok(Timer { name })
    }
}
