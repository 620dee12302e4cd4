//! What a component can wait for.
ghost use Rattle.parse_reader.specs.internal.Reading as reading;
ghost use Rattle.parse_reader.specs.internal.Events as spec;
ghost use Rattle.parse_reader.specs.internal.Reading.{Reads};

use parse_expressions::{component, message, reference};
use parse_reader::{ParseError, Parser};
use ttcn_syntax::{
    ComponentRef, Event, MessageTemplate, Name, PortSelector, Receive, Reference, Symbol, Token,
    Word,
};

#[tactic(auto, unfolding(parse_reader::specs::internal::Events::an_event, parse_reader::specs::internal::Events::event_of_one))]
pub(crate) fn event(parser: &mut Parser<'_>) -> Result<Event, ParseError>
    ensures { Reads (spec.an_event parser.old) result parser.new }
{
    match parser.token() {
        Some(Token::Word(Word::Any)) => any_port(parser),
        Some(Token::Word(Word::All)) => all_done(parser),
        _ => {
            let component = component(parser)?;
            parser.symbol(Symbol::Dot)?;
            event_behind(parser, component)
        }
    }
}

#[tactic(auto, unfolding(parse_reader::specs::internal::Events::any_port))]
pub(crate) fn any_port(parser: &mut Parser<'_>) -> Result<Event, ParseError>
    ensures { Reads (spec.any_port parser.old) result parser.new }
{
    parser.word(Word::Any)?;
    parser.word(Word::Port)?;
    parser.symbol(Symbol::Dot)?;
    receive(parser, PortSelector::Any)
}

#[tactic(auto, unfolding(parse_reader::specs::internal::Events::all_done))]
pub(crate) fn all_done(parser: &mut Parser<'_>) -> Result<Event, ParseError>
    ensures { Reads (spec.all_done parser.old) result parser.new }
{
    parser.word(Word::All)?;
    parser.word(Word::Component)?;
    parser.symbol(Symbol::Dot)?;
    parser.word(Word::Done)?;
    Ok(Event::AllDone)
}

/// What is waited for, behind its component, port or timer and the dot.
#[tactic(auto, unfolding(parse_reader::specs::internal::Events::event_behind))]
pub(crate) fn event_behind(
    parser: &mut Parser<'_>,
    component: ComponentRef,
) -> Result<Event, ParseError>
    ensures { Reads (spec.event_behind component parser.old) result parser.new }
{
    match parser.token() {
        Some(Token::Word(Word::Receive)) => {
            let port = bare(parser, component)?;
            receive(parser, PortSelector::Named(port))
        }
        Some(Token::Word(Word::Timeout)) => {
            let timer = bare(parser, component)?;
            parser.advance();
            Ok(Event::Timeout(timer))
        }
        Some(Token::Word(Word::Done)) => {
            parser.advance();
            Ok(Event::Done(component))
        }
        _ => Err(parser.unexpected()),
    }
}

/// The name, where the reference is no more than that.
pub(crate) fn bare(parser: &Parser<'_>, component: ComponentRef) -> Result<Name, ParseError>
    ensures { Reads (spec.with_name reading.pure (spec.bare component) parser.now) result parser.now }
{
    match component {
        ComponentRef::Named(reference) if reference.fields.len() == 0 => Ok(reference.name),
        _ => Err(parser.unexpected()),
    }
}

/// A receive behind its port and the dot.
#[tactic(auto, unfolding(parse_reader::specs::internal::Events::receive))]
fn receive(parser: &mut Parser<'_>, port: PortSelector) -> Result<Event, ParseError>
    ensures { Reads (spec.receive port parser.old) result parser.new }
{
    parser.word(Word::Receive)?;
    let message = received(parser)?;
    let from = component_behind(parser, Word::From)?;
    let (value, sender) = redirect(parser)?;
    Ok(Event::Receive(Receive {
        port,
        message,
        from,
        value,
        sender,
    }))
}

#[tactic(auto, unfolding(parse_reader::specs::internal::Events::received))]
fn received(parser: &mut Parser<'_>) -> Result<Option<MessageTemplate>, ParseError>
    ensures { Reads (spec.received parser.old) result parser.new }
{
    if !parser.take_symbol(Symbol::LeftParen) {
        return Ok(None);
    }
    let message = message(parser)?;
    parser.symbol(Symbol::RightParen)?;
    Ok(Some(message))
}

/// A component behind its word, if that comes next.
#[tactic(auto, unfolding(parse_reader::specs::internal::Events::component_behind))]
pub(crate) fn component_behind(
    parser: &mut Parser<'_>,
    word: Word,
) -> Result<Option<ComponentRef>, ParseError>
    ensures { Reads (spec.component_behind word parser.old) result parser.new }
{
    if !parser.take_word(word) {
        return Ok(None);
    }
    Ok(Some(component(parser)?))
}

/// Where message and sender go.
#[tactic(auto, unfolding(parse_reader::specs::internal::Events::redirect))]
fn redirect(parser: &mut Parser<'_>) -> Result<(Option<Reference>, Option<Reference>), ParseError>
    ensures { Reads (spec.redirect parser.old) result parser.new }
{
    if !parser.take_symbol(Symbol::Arrow) {
        return Ok((None, None));
    }
    if parser.take_word(Word::Value) {
        let value = reference(parser)?;
        return Ok((Some(value), sender(parser)?));
    }
    parser.word(Word::Sender)?;
    Ok((None, Some(reference(parser)?)))
}

#[tactic(auto, unfolding(parse_reader::specs::internal::Events::sender))]
fn sender(parser: &mut Parser<'_>) -> Result<Option<Reference>, ParseError>
    ensures { Reads (spec.sender parser.old) result parser.new }
{
    if !parser.take_word(Word::Sender) {
        return Ok(None);
    }
    Ok(Some(reference(parser)?))
}
