//! Definitions.
ghost use Rattle.parse_reader.specs.internal.Definitions as spec;
ghost use Rattle.parse_reader.specs.internal.Reading.{Reads};

use parse_expressions::{AType, template, type_name};
use parse_reader::{AName, Listed, ParseError, Parser};
use parse_statements::{block, branches, constants, initial_value, timers};
use ttcn_syntax::{
    Altstep, Boxed, ComponentType, Definition, DefinitionKind, Direction, EnumNumber,
    EnumeratedType, Enumerator, Field, Function, Member, MemberVariable, Name, Parameter,
    PortMessages, PortType, RecordType, Seq, Symbol, TemplateDefinition, Testcase, Token, TypeName,
    Word,
};

#[tactic(auto, unfolding(parse_reader::specs::internal::Definitions::definition, parse_reader::specs::internal::Definitions::a_kind))]
pub(crate) fn definition(parser: &mut Parser<'_>) -> Result<Definition, ParseError>
    ensures { Reads (spec.definition parser.old) result parser.new }
{
    let place = parser.here()?;
    let kind = match parser.token() {
        Some(Token::Word(Word::Type)) => type_definition(parser)?,
        Some(Token::Word(Word::Const)) => DefinitionKind::Constants(constants(parser)?),
        Some(Token::Word(Word::Template)) => template_definition(parser)?,
        Some(Token::Word(Word::Function)) => function(parser)?,
        Some(Token::Word(Word::Altstep)) => altstep(parser)?,
        Some(Token::Word(Word::Testcase)) => testcase(parser)?,
        _ => return Err(parser.unexpected()),
    };
    Ok(Definition { place, kind })
}

#[tactic(auto, unfolding(parse_reader::specs::internal::Definitions::type_kind))]
fn type_definition(parser: &mut Parser<'_>) -> Result<DefinitionKind, ParseError>
    ensures { Reads (spec.type_kind parser.old) result parser.new }
{
    parser.word(Word::Type)?;
    match parser.token() {
        Some(Token::Word(Word::Record)) => record_type(parser),
        Some(Token::Word(Word::Enumerated)) => enumerated_type(parser),
        Some(Token::Word(Word::Port)) => port_type(parser),
        Some(Token::Word(Word::Component)) => component_type(parser),
        _ => Err(parser.unexpected()),
    }
}

#[tactic(auto, unfolding(parse_reader::specs::internal::Definitions::record_type))]
fn record_type(parser: &mut Parser<'_>) -> Result<DefinitionKind, ParseError>
    ensures { Reads (spec.record_type parser.old) result parser.new }
{
    parser.word(Word::Record)?;
    let name = parser.name()?;
    parser.symbol(Symbol::LeftBrace)?;
    let fields = parser.separated_until::<AField>(Symbol::RightBrace)?;
    Ok(DefinitionKind::Record(RecordType { name, fields }))
}

#[tactic(auto, unfolding(parse_reader::specs::internal::Definitions::enumerated_type))]
fn enumerated_type(parser: &mut Parser<'_>) -> Result<DefinitionKind, ParseError>
    ensures { Reads (spec.enumerated_type parser.old) result parser.new }
{
    parser.word(Word::Enumerated)?;
    let name = parser.name()?;
    parser.symbol(Symbol::LeftBrace)?;
    let enumerators = parser.separated::<AnEnumerator>()?;
    parser.symbol(Symbol::RightBrace)?;
    Ok(DefinitionKind::Enumerated(EnumeratedType { name, enumerators }))
}

#[tactic(auto, unfolding(parse_reader::specs::internal::Definitions::port_type))]
fn port_type(parser: &mut Parser<'_>) -> Result<DefinitionKind, ParseError>
    ensures { Reads (spec.port_type parser.old) result parser.new }
{
    parser.word(Word::Port)?;
    let name = parser.name()?;
    parser.word(Word::Message)?;
    parser.symbol(Symbol::LeftBrace)?;
    let messages = parser.items::<SomeMessages>()?;
    parser.symbol(Symbol::RightBrace)?;
    Ok(DefinitionKind::Port(PortType { name, messages }))
}

#[tactic(auto, unfolding(parse_reader::specs::internal::Definitions::component_type))]
fn component_type(parser: &mut Parser<'_>) -> Result<DefinitionKind, ParseError>
    ensures { Reads (spec.component_type parser.old) result parser.new }
{
    parser.word(Word::Component)?;
    let name = parser.name()?;
    parser.symbol(Symbol::LeftBrace)?;
    let members = parser.items::<AMember>()?;
    parser.symbol(Symbol::RightBrace)?;
    Ok(DefinitionKind::Component(ComponentType { name, members }))
}

#[tactic(auto, unfolding(parse_reader::specs::internal::Definitions::def_template))]
fn template_definition(parser: &mut Parser<'_>) -> Result<DefinitionKind, ParseError>
    ensures { Reads (spec.def_template parser.old) result parser.new }
{
    parser.word(Word::Template)?;
    let type_name = type_name(parser)?;
    let name = parser.name()?;
    let parameters = parameters_if_any(parser)?;
    parser.symbol(Symbol::Assign)?;
    let template = template(parser)?;
    Ok(DefinitionKind::Template(TemplateDefinition {
        type_name,
        name,
        parameters,
        template: Boxed::new(parser.alloc, template)?,
    }))
}

#[tactic(auto, unfolding(parse_reader::specs::internal::Definitions::parameters_if_any))]
fn parameters_if_any(parser: &mut Parser<'_>) -> Result<Seq<Parameter>, ParseError>
    ensures { Reads (spec.parameters_if_any parser.old) result parser.new }
{
    if !parser.is_at(Symbol::LeftParen) {
        return Ok(Seq::new(parser.alloc));
    }
    parameters(parser)
}

#[tactic(auto, unfolding(parse_reader::specs::internal::Definitions::parameters))]
fn parameters(parser: &mut Parser<'_>) -> Result<Seq<Parameter>, ParseError>
    ensures { Reads (spec.parameters parser.old) result parser.new }
{
    parser.symbol(Symbol::LeftParen)?;
    parser.separated_until::<AParameter>(Symbol::RightParen)
}

#[tactic(auto, using(crate::proofs::Readers::function_split))]
fn function(parser: &mut Parser<'_>) -> Result<DefinitionKind, ParseError>
    ensures { Reads (spec.def_function parser.old) result parser.new }
{
    let (name, parameters) = signature(parser, Word::Function)?;
    let runs_on = runs_on_if_any(parser)?;
    let returns = result_type(parser)?;
    let body = block(parser)?;
    Ok(DefinitionKind::Function(Function {
        name,
        parameters,
        runs_on,
        returns,
        body,
    }))
}

#[tactic(auto, using(crate::proofs::Readers::altstep_split))]
fn altstep(parser: &mut Parser<'_>) -> Result<DefinitionKind, ParseError>
    ensures { Reads (spec.def_altstep parser.old) result parser.new }
{
    let (name, parameters) = signature(parser, Word::Altstep)?;
    let runs_on = runs_on_if_any(parser)?;
    let branches = branches(parser)?;
    Ok(DefinitionKind::Altstep(Altstep {
        name,
        parameters,
        runs_on,
        branches,
    }))
}

#[tactic(auto, using(crate::proofs::Readers::testcase_split))]
fn testcase(parser: &mut Parser<'_>) -> Result<DefinitionKind, ParseError>
    ensures { Reads (spec.def_testcase parser.old) result parser.new }
{
    let name = testcase_name(parser)?;
    let runs_on = runs_on(parser)?;
    let system = system_type(parser)?;
    let body = block(parser)?;
    Ok(DefinitionKind::Testcase(Testcase {
        name,
        runs_on,
        system,
        body,
    }))
}

/// A name and parameters behind their word.
#[tactic(auto, unfolding(parse_reader::specs::internal::Definitions::signature))]
fn signature(parser: &mut Parser<'_>, word: Word) -> Result<(Name, Seq<Parameter>), ParseError>
    ensures { Reads (spec.signature word parser.old) result parser.new }
{
    parser.word(word)?;
    let name = parser.name()?;
    let parameters = parameters(parser)?;
    Ok((name, parameters))
}

#[tactic(auto, unfolding(parse_reader::specs::internal::Definitions::testcase_name))]
fn testcase_name(parser: &mut Parser<'_>) -> Result<Name, ParseError>
    ensures { Reads (spec.testcase_name parser.old) result parser.new }
{
    parser.word(Word::Testcase)?;
    let name = parser.name()?;
    parser.symbol(Symbol::LeftParen)?;
    parser.symbol(Symbol::RightParen)?;
    Ok(name)
}

#[tactic(auto, unfolding(parse_reader::specs::internal::Definitions::runs_on))]
fn runs_on(parser: &mut Parser<'_>) -> Result<Name, ParseError>
    ensures { Reads (spec.runs_on parser.old) result parser.new }
{
    parser.word(Word::Runs)?;
    parser.word(Word::On)?;
    parser.name()
}

#[tactic(auto, unfolding(parse_reader::specs::internal::Definitions::runs_on_if_any))]
fn runs_on_if_any(parser: &mut Parser<'_>) -> Result<Option<Name>, ParseError>
    ensures { Reads (spec.runs_on_if_any parser.old) result parser.new }
{
    if !parser.is_at_word(Word::Runs) {
        return Ok(None);
    }
    Ok(Some(runs_on(parser)?))
}

#[tactic(auto, unfolding(parse_reader::specs::internal::Definitions::system_type))]
fn system_type(parser: &mut Parser<'_>) -> Result<Option<Name>, ParseError>
    ensures { Reads (spec.system_type parser.old) result parser.new }
{
    if !parser.take_word(Word::System) {
        return Ok(None);
    }
    Ok(Some(parser.name()?))
}

#[tactic(auto, unfolding(parse_reader::specs::internal::Definitions::result_type))]
fn result_type(parser: &mut Parser<'_>) -> Result<Option<TypeName>, ParseError>
    ensures { Reads (spec.result_type parser.old) result parser.new }
{
    if !parser.take_word(Word::Return) {
        return Ok(None);
    }
    Ok(Some(type_name(parser)?))
}

#[tactic(auto, unfolding(parse_reader::specs::internal::Definitions::a_number))]
fn enum_number(parser: &mut Parser<'_>) -> Result<EnumNumber, ParseError>
    ensures { Reads (spec.a_number parser.old) result parser.new }
{
    let minus = parser.take_symbol(Symbol::Minus);
    let magnitude = int(parser)?;
    Ok(EnumNumber { minus, magnitude })
}

#[tactic(auto, unfolding(parse_reader::specs::internal::Definitions::int))]
fn int(parser: &mut Parser<'_>) -> Result<u64, ParseError>
    ensures { Reads (spec.int parser.old) result parser.new }
{
    let Some(Token::Int(number)) = parser.token() else {
        return Err(parser.unexpected());
    };
    parser.advance();
    Ok(*number)
}

#[tactic(auto, unfolding(parse_reader::specs::internal::Definitions::a_direction))]
fn direction(parser: &mut Parser<'_>) -> Result<Direction, ParseError>
    ensures { Reads (spec.a_direction parser.old) result parser.new }
{
    let direction = match parser.token() {
        Some(Token::Word(Word::In)) => Direction::In,
        Some(Token::Word(Word::Out)) => Direction::Out,
        Some(Token::Word(Word::Inout)) => Direction::Inout,
        _ => return Err(parser.unexpected()),
    };
    parser.advance();
    Ok(direction)
}

#[tactic(auto, unfolding(parse_reader::specs::internal::Definitions::member_ports))]
fn member_ports(parser: &mut Parser<'_>) -> Result<Member, ParseError>
    ensures { Reads (spec.member_ports parser.old) result parser.new }
{
    parser.word(Word::Port)?;
    let port_type = parser.name()?;
    Ok(Member::Ports(port_type, parser.separated::<AName>()?))
}

#[tactic(auto, unfolding(parse_reader::specs::internal::Definitions::member_variables))]
fn member_variables(parser: &mut Parser<'_>) -> Result<Member, ParseError>
    ensures { Reads (spec.member_variables parser.old) result parser.new }
{
    parser.word(Word::Var)?;
    let type_name = type_name(parser)?;
    Ok(Member::Variables(type_name, parser.separated::<AMemberVariable>()?))
}

/// Fields in lists.
pub struct AField;

impl Listed for AField {
    type Item = Field;

    ghost reader = { spec.field };

    #[tactic(auto, unfolding(parse_reader::specs::internal::Definitions::field))]
    fn read(parser: &mut Parser<'_>) -> Result<Field, ParseError> {
        let type_name = type_name(parser)?;
        let name = parser.name()?;
        let optional = parser.take_word(Word::Optional);
        Ok(Field {
            type_name,
            name,
            optional,
        })
    }
}

/// Enumerators in lists.
pub struct AnEnumerator;

impl Listed for AnEnumerator {
    type Item = Enumerator;

    ghost reader = { spec.enumerator };

    #[tactic(auto, unfolding(parse_reader::specs::internal::Definitions::enumerator))]
    fn read(parser: &mut Parser<'_>) -> Result<Enumerator, ParseError> {
        let name = parser.name()?;
        if !parser.take_symbol(Symbol::LeftParen) {
            return Ok(Enumerator { name, number: None });
        }
        let number = Some(enum_number(parser)?);
        parser.symbol(Symbol::RightParen)?;
        Ok(Enumerator { name, number })
    }
}

/// The messages of a direction, in lists.
pub struct SomeMessages;

impl Listed for SomeMessages {
    type Item = PortMessages;

    ghost reader = { spec.messages };

    #[tactic(auto, unfolding(parse_reader::specs::internal::Definitions::messages))]
    fn read(parser: &mut Parser<'_>) -> Result<PortMessages, ParseError> {
        let direction = direction(parser)?;
        let types = parser.separated::<AType>()?;
        Ok(PortMessages { direction, types })
    }
}

/// Variables of components in lists.
pub struct AMemberVariable;

impl Listed for AMemberVariable {
    type Item = MemberVariable;

    ghost reader = { spec.member_variable };

    #[tactic(auto, unfolding(parse_reader::specs::internal::Definitions::member_variable))]
    fn read(parser: &mut Parser<'_>) -> Result<MemberVariable, ParseError> {
        let name = parser.name()?;
        let value = initial_value(parser)?;
        Ok(MemberVariable { name, value })
    }
}

/// Members of components in lists.
pub struct AMember;

impl Listed for AMember {
    type Item = Member;

    ghost reader = { spec.a_member };

    #[tactic(auto, unfolding(parse_reader::specs::internal::Definitions::a_member))]
    fn read(parser: &mut Parser<'_>) -> Result<Member, ParseError> {
        match parser.token() {
            Some(Token::Word(Word::Port)) => member_ports(parser),
            Some(Token::Word(Word::Const)) => Ok(Member::Constants(constants(parser)?)),
            Some(Token::Word(Word::Var)) => member_variables(parser),
            Some(Token::Word(Word::Timer)) => Ok(Member::Timers(timers(parser)?)),
            _ => Err(parser.unexpected()),
        }
    }
}

/// Parameters in lists.
pub struct AParameter;

impl Listed for AParameter {
    type Item = Parameter;

    ghost reader = { spec.parameter };

    #[tactic(auto, unfolding(parse_reader::specs::internal::Definitions::parameter))]
    fn read(parser: &mut Parser<'_>) -> Result<Parameter, ParseError> {
        parser.take_word(Word::In);
        let type_name = type_name(parser)?;
        let name = parser.name()?;
        Ok(Parameter { type_name, name })
    }
}
