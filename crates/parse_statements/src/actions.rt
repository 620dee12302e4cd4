//! Statements that hold no block.
ghost use Rattle.parse_reader.specs.internal.Actions as spec;
ghost use Rattle.parse_reader.specs.internal.Reading.{Reads};

use crate::declarations::float;
use crate::events::{bare, component_behind, event_behind};
use parse_expressions::{call, component, expression, is_at_call, message, reference, rhs, value};
use parse_reader::{Listed, ParseError, Parser, is_name, is_symbol};
use ttcn_syntax::{
    Action, Assignment, Boxed, ComponentRef, LogItem, MapOperation, Mapping, Name, PortRef,
    Reference, Send, Seq, Symbol, Token, Verdict, Word,
};

/// A statement that begins with a name, `parser` or `mtc`.
#[tactic(auto, unfolding(parse_reader::specs::internal::Actions::named_action))]
pub(crate) fn named_action(parser: &mut Parser<'_>) -> Result<Action, ParseError>
    ensures { Reads (spec.named_action parser.old) result parser.new }
{
    if is_at_call(parser) {
        return Ok(Action::Call(call(parser)?));
    }
    let component = component(parser)?;
    if parser.is_at(Symbol::Assign) {
        assigned_to(parser, component)
    } else {
        member_action(parser, component)
    }
}

fn assigned_to(parser: &mut Parser<'_>, component: ComponentRef) -> Result<Action, ParseError>
    ensures { Reads (spec.assigned_to component parser.old) result parser.new }
{
    match component {
        ComponentRef::Named(target) => Ok(Action::Assign(assignment_to(parser, target)?)),
        _ => Err(parser.unexpected()),
    }
}

#[tactic(auto, unfolding(parse_reader::specs::internal::Actions::assignment))]
pub(crate) fn assignment(parser: &mut Parser<'_>) -> Result<Assignment, ParseError>
    ensures { Reads (spec.assignment parser.old) result parser.new }
{
    let target = reference(parser)?;
    assignment_to(parser, target)
}

#[tactic(auto, unfolding(parse_reader::specs::internal::Actions::assignment_to))]
fn assignment_to(parser: &mut Parser<'_>, target: Reference) -> Result<Assignment, ParseError>
    ensures { Reads (spec.assignment_to target parser.old) result parser.new }
{
    parser.symbol(Symbol::Assign)?;
    let value = rhs(parser)?;
    let value = Boxed::new(parser.alloc, value)?;
    Ok(Assignment { target, value })
}

/// What follows a component, port or timer.
#[tactic(auto, unfolding(parse_reader::specs::internal::Actions::member_action, parse_reader::specs::internal::Actions::act_event))]
fn member_action(parser: &mut Parser<'_>, component: ComponentRef) -> Result<Action, ParseError>
    ensures { Reads (spec.member_action component parser.old) result parser.new }
{
    parser.symbol(Symbol::Dot)?;
    match parser.token() {
        Some(Token::Word(Word::Send)) => {
            let port = bare(parser, component)?;
            send(parser, port)
        }
        Some(Token::Word(Word::Start)) => start(parser, component),
        Some(Token::Word(Word::Stop)) => {
            parser.advance();
            Ok(Action::StopOf(component))
        }
        _ => Ok(Action::Event(event_behind(parser, component)?)),
    }
}

#[tactic(auto, unfolding(parse_reader::specs::internal::Actions::send))]
fn send(parser: &mut Parser<'_>, port: Name) -> Result<Action, ParseError>
    ensures { Reads (spec.send port parser.old) result parser.new }
{
    parser.word(Word::Send)?;
    parser.symbol(Symbol::LeftParen)?;
    let message = message(parser)?;
    parser.symbol(Symbol::RightParen)?;
    let to = component_behind(parser, Word::To)?;
    Ok(Action::Send(Send { port, message, to }))
}

/// The start of a component, with a call, or of a timer.
#[tactic(auto, unfolding(parse_reader::specs::internal::Actions::start, parse_reader::specs::internal::Values::calls))]
fn start(parser: &mut Parser<'_>, component: ComponentRef) -> Result<Action, ParseError>
    ensures { Reads (spec.start component parser.old) result parser.new }
{
    parser.word(Word::Start)?;
    if parser.is_at(Symbol::LeftParen)
        && is_name(parser.second())
        && is_symbol(parser.third(), Symbol::LeftParen)
    {
        parser.symbol(Symbol::LeftParen)?;
        let call = call(parser)?;
        parser.symbol(Symbol::RightParen)?;
        return Ok(Action::StartComponent(component, call));
    }
    let timer = bare(parser, component)?;
    if parser.take_symbol(Symbol::LeftParen) {
        float(parser)?;
        parser.symbol(Symbol::RightParen)?;
    }
    Ok(Action::StartTimer(timer))
}

#[tactic(auto, unfolding(parse_reader::specs::internal::Actions::log))]
pub(crate) fn log(parser: &mut Parser<'_>) -> Result<Action, ParseError>
    ensures { Reads (spec.log parser.old) result parser.new }
{
    parser.word(Word::Log)?;
    parser.symbol(Symbol::LeftParen)?;
    Ok(Action::Log(parser.separated_until::<ALogItem>(Symbol::RightParen)?))
}

#[tactic(auto, unfolding(parse_reader::specs::internal::Actions::setverdict))]
pub(crate) fn setverdict(parser: &mut Parser<'_>) -> Result<Action, ParseError>
    ensures { Reads (spec.setverdict parser.old) result parser.new }
{
    parser.word(Word::Setverdict)?;
    parser.symbol(Symbol::LeftParen)?;
    let verdict = verdict(parser)?;
    let reasons = if parser.take_symbol(Symbol::Comma) {
        parser.separated::<ALogItem>()?
    } else {
        Seq::new(parser.alloc)
    };
    parser.symbol(Symbol::RightParen)?;
    Ok(Action::Setverdict(verdict, reasons))
}

#[tactic(auto, unfolding(parse_reader::specs::internal::Actions::a_verdict))]
fn verdict(parser: &mut Parser<'_>) -> Result<Verdict, ParseError>
    ensures { Reads (spec.a_verdict parser.old) result parser.new }
{
    let verdict = match parser.token() {
        Some(Token::Word(Word::None)) => Verdict::None,
        Some(Token::Word(Word::Pass)) => Verdict::Pass,
        Some(Token::Word(Word::Inconc)) => Verdict::Inconc,
        Some(Token::Word(Word::Fail)) => Verdict::Fail,
        Some(Token::Word(Word::Error)) => Verdict::Error,
        _ => return Err(parser.unexpected()),
    };
    parser.advance();
    Ok(verdict)
}

#[tactic(auto, unfolding(parse_reader::specs::internal::Actions::connect))]
pub(crate) fn connect(parser: &mut Parser<'_>) -> Result<Action, ParseError>
    ensures { Reads (spec.connect parser.old) result parser.new }
{
    parser.word(Word::Connect)?;
    parser.symbol(Symbol::LeftParen)?;
    let one = port_ref(parser)?;
    parser.symbol(Symbol::Comma)?;
    let other = port_ref(parser)?;
    parser.symbol(Symbol::RightParen)?;
    Ok(Action::Connect(one, other))
}

#[tactic(auto, unfolding(parse_reader::specs::internal::Actions::port_ref))]
fn port_ref(parser: &mut Parser<'_>) -> Result<PortRef, ParseError>
    ensures { Reads (spec.port_ref parser.old) result parser.new }
{
    let component = component(parser)?;
    parser.symbol(Symbol::Colon)?;
    let port = parser.name()?;
    Ok(PortRef { component, port })
}

/// A statement with this word, which does this to a mapping. Its two ports stand in either order.
#[tactic(auto, unfolding(parse_reader::specs::internal::Actions::mapping))]
pub(crate) fn mapping(
    parser: &mut Parser<'_>,
    word: Word,
    operation: MapOperation,
) -> Result<Action, ParseError>
    ensures { Reads (spec.mapping word operation parser.old) result parser.new }
{
    parser.word(word)?;
    parser.symbol(Symbol::LeftParen)?;
    let mapping = if parser.is_at_word(Word::System) {
        let system_port = system_port(parser)?;
        parser.symbol(Symbol::Comma)?;
        let port = port_ref(parser)?;
        Mapping {
            operation,
            port,
            system_port,
        }
    } else {
        let port = port_ref(parser)?;
        parser.symbol(Symbol::Comma)?;
        let system_port = system_port(parser)?;
        Mapping {
            operation,
            port,
            system_port,
        }
    };
    parser.symbol(Symbol::RightParen)?;
    Ok(Action::Map(mapping))
}

/// A port of the system.
#[tactic(auto, unfolding(parse_reader::specs::internal::Actions::system_port))]
fn system_port(parser: &mut Parser<'_>) -> Result<Name, ParseError>
    ensures { Reads (spec.system_port parser.old) result parser.new }
{
    parser.word(Word::System)?;
    parser.symbol(Symbol::Colon)?;
    parser.name()
}

#[tactic(auto, unfolding(parse_reader::specs::internal::Actions::deactivate))]
pub(crate) fn deactivate(parser: &mut Parser<'_>) -> Result<Action, ParseError>
    ensures { Reads (spec.deactivate parser.old) result parser.new }
{
    parser.word(Word::Deactivate)?;
    if !parser.take_symbol(Symbol::LeftParen) {
        return Ok(Action::Deactivate(None));
    }
    let default = reference(parser)?;
    parser.symbol(Symbol::RightParen)?;
    Ok(Action::Deactivate(Some(default)))
}

/// A return, without a value where its statement ends.
#[tactic(auto, unfolding(parse_reader::specs::internal::Actions::return_))]
pub(crate) fn return_value(parser: &mut Parser<'_>) -> Result<Action, ParseError>
    ensures { Reads (spec.return_ parser.old) result parser.new }
{
    parser.word(Word::Return)?;
    if parser.is_at(Symbol::Semicolon) || parser.is_at(Symbol::RightBrace) {
        return Ok(Action::Return(None));
    }
    Ok(Action::Return(Some(value(parser)?)))
}

/// What is logged, in lists.
pub struct ALogItem;

impl Listed for ALogItem {
    type Item = LogItem;

    ghost reader = { spec.a_log_item };

    #[tactic(auto, unfolding(parse_reader::specs::internal::Actions::a_log_item))]
    fn read(parser: &mut Parser<'_>) -> Result<LogItem, ParseError> {
        if let Some(Token::Text) = parser.token() {
            parser.advance();
            return Ok(LogItem::Text);
        }
        Ok(LogItem::Expr(expression(parser)?))
    }
}
