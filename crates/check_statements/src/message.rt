//! The rules that receives and sends break (ES 201 873-1, 22.2).
ghost use Rattle.std.specs.Prelude.{◌≡◌, is_some, IfOk};
ghost use Rattle.std.specs.List.{list_any};
ghost use Rattle.std.specs.Option.{option_map};
ghost use Rattle.check_scope.specs.internal.Checking.{least, view};
ghost use Rattle.check_rules.specs.internal.Findings.{finding};
ghost use Rattle.check_rules.specs.Messages as spec;
ghost use Rattle.check_statements.specs.internal.Ports.{known, otherwise, passing};
ghost use Rattle.check_scope.specs.declared.types.Typing.TheVariants as typing;

use check_expressions::expression::check_wanted_component;
use check_expressions::target::{check_target, check_type};
use check_expressions::template::{template, typing_of_template};
use check_rules::{Finding, port_meant};
use check_scope::broken::Broken;
use check_scope::names::Meaning;
use check_scope::rule::Rule;
use check_scope::scope::Scope;
use check_scope::type_listing::Listing;
use check_scope::types::{DataType, Target, Typing};
use std::alloc::{AllocError, Global};
use ttcn_syntax::{
    ComponentRef, Event, MessageTemplate, Name, PortSelector, Receive, Reference, Send, TypeName,
};

/// What is known of the messages that pass where one is sent or received.
#[derive(Clone, Copy)]
pub(crate) enum Passing<'s> {
    /// The types of the messages that pass at a port.
    Types(&'s Listing),
    /// No message passes.
    Nothing,
    /// Messages pass at a port of which nothing is known.
    Unknown,
    /// Messages pass at any port.
    Anywhere,
}

// ---- what a port lets pass

impl<'s> Passing<'s> {
    /// What is known of the messages that pass at a port whose type stands at a position, if that is known.
    fn at(scope: &'s Scope<'_>, incoming: bool, at: Option<usize>) -> Passing<'s>
        ensures { known result ≡ spec.passage_at (view scope.now).definitions incoming at }
    {
        let Some(at) = at else {
            return Passing::Unknown;
        };
        match scope.traffic(at) {
            Some(traffic) => Passing::Types(traffic.towards(incoming)),
            None => Passing::Nothing,
        }
    }

    fn is_known(&self) -> bool
        ensures { result ≡ is_some (passing self.now) }
    {
        matches!(self, Passing::Types(_) | Passing::Nothing)
    }

    /// Whether messages of the type pass. It isn't judged where nothing is known.
    fn lists(&self, data_type: DataType) -> bool
        ensures { result ≡ spec.lists (passing self.now) data_type }
    {
        match self {
            Passing::Types(listing) => listing.lists(data_type),
            Passing::Nothing => false,
            Passing::Unknown | Passing::Anywhere => true,
        }
    }

    /// What is known of a message that says nothing of its type by itself.
    fn otherwise(&self) -> Finding
        ensures { result ≡ finding (otherwise self.now) }
    {
        match self {
            Passing::Types(listing) => of_only(listing.only_type()),
            Passing::Nothing => of_only(None),
            Passing::Unknown => of_unknown_type(Broken::nothing()),
            Passing::Anywhere => of_unknown_type(Broken::of(Rule::PortType)),
        }
    }
}

// ---- the type of a message

fn of_unknown_type(broken: Broken) -> Finding
    ensures typing { result.typing ≡ typing.Unknown }
    ensures broken { result.broken ≡ broken }
{
    Finding {
        typing: Typing::Unknown,
        broken,
    }
}

/// A message that is of the only type that passes.
fn of_only(data_type: Option<DataType>) -> Finding
    ensures { result ≡ finding (spec.of_only data_type) }
{
    match data_type {
        Some(data_type) => Finding {
            typing: Typing::Known(data_type),
            broken: Broken::nothing(),
        },
        None => of_unknown_type(Broken::of(Rule::PortType)),
    }
}

/// A message whose type is known by itself is of one of those that pass.
fn type_by_itself(ports: &Passing<'_>, typing: Typing) -> Finding
    ensures { result ≡ finding (spec.type_by_itself (passing ports.now) typing) }
{
    match typing {
        Typing::Known(data_type) => Finding {
            typing,
            broken: Broken::unless(ports.lists(data_type), Rule::PortType),
        },
        Typing::Null => of_unknown_type(Broken::of(Rule::ValueType)),
        Typing::AnyComponent => {
            of_unknown_type(Broken::unless(!ports.is_known(), Rule::PortType))
        }
        Typing::NoValue => of_unknown_type(Broken::of(Rule::PortType)),
        Typing::Unknown => of_unknown_type(Broken::nothing()),
    }
}

/// The type of a message: that written before it, else the message's own, else the port's.
fn type_of_message(scope: &Scope<'_>, ports: &Passing<'_>, message: &MessageTemplate) -> Finding
    ensures { result ≡ finding (spec.type_of_message (view scope.now) (passing ports.now) (otherwise ports.now) message.now) }
{
    if let Some(type_name) = &message.type_name {
        return type_by_itself(ports, Typing::of(scope.resolved(type_name)));
    }
    match typing_of_template(scope, message.template.get()) {
        Some(typing) => type_by_itself(ports, typing),
        None => ports.otherwise(),
    }
}

fn check_type_name(scope: &Scope<'_>, type_name: Option<&TypeName>) -> Broken
    ensures { result ≡ least (spec.check_type_name (view scope.now) (option_map (λ name. name.now) type_name.entry)) }
{
    match type_name {
        Some(type_name) => check_type(scope, false, type_name),
        None => Broken::nothing(),
    }
}

/// A message where messages of some types pass.
#[tactic(auto, using(crate::proofs::Leasts::least_append))]
fn check_message(
    alloc: Global,
    scope: &Scope<'_>,
    ports: &Passing<'_>,
    message: &MessageTemplate,
) -> Result<Broken, AllocError>
    ensures { IfOk result (λ broken. broken ≡ least (spec.check_message (view scope.now) (passing ports.now) (otherwise ports.now) message.now)) }
{
    let named = check_type_name(scope, message.type_name.as_ref());
    let found = type_of_message(scope, ports, message);
    let target = Target::of(found.typing.known());
    let matched = template(alloc, scope, message.template.get(), target)?;
    Ok(named.and(found.broken).and(matched))
}

// ---- sends

/// The receiver of a message, or its sender.
fn check_recipient(scope: &Scope<'_>, component: Option<&ComponentRef>) -> Broken
    ensures { result ≡ least (spec.check_to (view scope.now) (option_map (λ component. component.now) component.entry)) }
{
    match component {
        Some(component) => check_wanted_component(scope, component).broken,
        None => Broken::nothing(),
    }
}

#[tactic(auto, using(crate::proofs::Leasts::least_append))]
fn check_sent(
    alloc: Global,
    scope: &Scope<'_>,
    port: Option<Option<usize>>,
    message: &MessageTemplate,
) -> Result<Broken, AllocError>
    ensures { IfOk result (λ broken. broken ≡ least (spec.check_sent (view scope.now) port message.now)) }
{
    match port {
        Some(port) => {
            let ports = Passing::at(scope, false, port);
            check_message(alloc, scope, &ports, message)
        }
        None => {
            let broken = check_message(alloc, scope, &Passing::Unknown, message)?;
            Ok(Broken::of(Rule::UnknownName).and(broken))
        }
    }
}

#[tactic(auto, using(crate::proofs::Leasts::least_append))]
pub(crate) fn check_send(
    alloc: Global,
    scope: &Scope<'_>,
    send: &Send,
) -> Result<Broken, AllocError>
    ensures { IfOk result (λ broken. broken ≡ least (spec.check_send (view scope.now) send.now)) }
{
    let port = port_meant(scope.get(send.port.as_bytes()));
    let sent = check_sent(alloc, scope, port, &send.message)?;
    Ok(sent.and(check_recipient(scope, send.to.as_ref())))
}

// ---- receives

impl<'s> Passing<'s> {
    /// What is known where a message comes in.
    fn incoming(scope: &'s Scope<'_>, selector: &PortSelector) -> Passing<'s>
        ensures { known result ≡ spec.incoming (view scope.now) selector.now }
    {
        let PortSelector::Named(name) = selector else {
            return Passing::Anywhere;
        };
        match port_meant(scope.get(name.as_bytes())) {
            Some(port) => Passing::at(scope, true, port),
            None => Passing::Unknown,
        }
    }
}

fn check_selector(scope: &Scope<'_>, selector: &PortSelector) -> Broken
    ensures { result ≡ least (spec.check_selector (view scope.now) selector.now) }
{
    match selector {
        PortSelector::Named(name) => {
            let port = port_meant(scope.get(name.as_bytes()));
            Broken::unless(port.is_some(), Rule::UnknownName)
        }
        PortSelector::Any => Broken::nothing(),
    }
}

/// The least rule that the message of a receive breaks: none where any message is received.
fn check_received(
    alloc: Global,
    scope: &Scope<'_>,
    ports: &Passing<'_>,
    message: Option<&MessageTemplate>,
) -> Result<Broken, AllocError>
    ensures { IfOk result (λ broken. broken ≡ least (spec.check_received (view scope.now) (known ports.now) (option_map (λ message. message.now) message.entry))) }
{
    match message {
        Some(message) => check_message(alloc, scope, ports, message),
        None => Ok(Broken::nothing()),
    }
}

/// What is known of the type of what is received, where a template determines it.
fn received_type(
    scope: &Scope<'_>,
    ports: &Passing<'_>,
    message: Option<&MessageTemplate>,
) -> Option<DataType>
    ensures { result ≡ spec.received_type (view scope.now) (known ports.now) (option_map (λ message. message.now) message.entry) }
{
    match message {
        Some(message) => type_of_message(scope, ports, message).typing.known(),
        None => None,
    }
}

// ---- redirects

/// Whether a message may go to a target. It isn't judged where the type of one is unknown.
fn stores(data_type: Option<DataType>, found: Typing) -> bool
    ensures { result ≡ spec.stores data_type found }
{
    let Some(data_type) = data_type else {
        return true;
    };
    match found {
        Typing::Known(other) => data_type.is_same(other),
        Typing::Null | Typing::AnyComponent | Typing::NoValue | Typing::Unknown => true,
    }
}

/// Whether a sender may go to a target.
fn stores_sender(found: Typing) -> bool
    ensures { result ≡ spec.stores_sender found }
{
    match found {
        Typing::Known(data_type) => data_type.is_component(),
        Typing::Null | Typing::AnyComponent | Typing::NoValue | Typing::Unknown => true,
    }
}

#[tactic(auto, using(crate::proofs::Leasts::least_append))]
fn check_value_redirect(
    scope: &Scope<'_>,
    is_told: bool,
    data_type: Option<DataType>,
    target: Option<&Reference>,
) -> Broken
    ensures { result ≡ least (spec.check_value_redirect (view scope.now) is_told data_type (option_map (λ target. target.now) target.entry)) }
{
    let Some(target) = target else {
        return Broken::nothing();
    };
    let found = check_target(scope, target);
    let stored = Broken::unless(stores(data_type, found.typing), Rule::Redirect);
    found
        .broken
        .and(Broken::unless(is_told, Rule::Redirect))
        .and(stored)
}

#[tactic(auto, using(crate::proofs::Leasts::least_append))]
fn check_sender_redirect(scope: &Scope<'_>, target: Option<&Reference>) -> Broken
    ensures { result ≡ least (spec.check_sender_redirect (view scope.now) (option_map (λ target. target.now) target.entry)) }
{
    let Some(target) = target else {
        return Broken::nothing();
    };
    let found = check_target(scope, target);
    let stored = stores_sender(found.typing);
    found.broken.and(Broken::unless(stored, Rule::Redirect))
}

// ---- events

#[tactic(auto, using(crate::proofs::Leasts::least_append))]
fn check_receive(alloc: Global, scope: &Scope<'_>, receive: &Receive) -> Result<Broken, AllocError>
    ensures { IfOk result (λ broken. broken ≡ least (spec.check_receive (view scope.now) receive.now)) }
{
    let ports = Passing::incoming(scope, &receive.port);
    let message = receive.message.as_ref();
    let received = check_received(alloc, scope, &ports, message)?;
    let data_type = received_type(scope, &ports, message);
    let value = check_value_redirect(scope, message.is_some(), data_type, receive.value.as_ref());
    let sender = check_sender_redirect(scope, receive.sender.as_ref());
    Ok(
        check_selector(scope, &receive.port)
            .and(received)
            .and(check_recipient(scope, receive.from.as_ref()))
            .and(value)
            .and(sender),
    )
}

pub(crate) fn check_timer(scope: &Scope<'_>, name: &Name) -> Broken
    ensures { result ≡ least (spec.check_timer (view scope.now) name.now) }
{
    let is_timer = matches!(scope.get(name.as_bytes()), Some(Meaning::Timer));
    Broken::unless(is_timer, Rule::UnknownName)
}

pub(crate) fn check_event(
    alloc: Global,
    scope: &Scope<'_>,
    event: &Event,
) -> Result<Broken, AllocError>
    ensures { IfOk result (λ broken. broken ≡ least (spec.check_event (view scope.now) event.now)) }
{
    match event {
        Event::Receive(receive) => check_receive(alloc, scope, receive),
        Event::Timeout(timer) => Ok(check_timer(scope, timer)),
        Event::Done(component) => Ok(check_wanted_component(scope, component).broken),
        Event::AllDone => Ok(Broken::nothing()),
    }
}
