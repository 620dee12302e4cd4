//! The types of what stands at a site: of expressions, messages and targets (ES 201 873-1, 7, 15, 19.1 and 22.2).
ghost use Rattle.std.specs.Prelude.{◌≡◌, Bool};
ghost use Rattle.check_rules.specs.Expressions as expressions;
ghost use Rattle.check_rules.specs.Expressions.{Judgement};
ghost use Rattle.check_rules.specs.Targets.{as_target, target_at};
ghost use Rattle.check_rules.specs.Templates as templates;
ghost use Rattle.check_scope.specs.Typings.{type_known};
ghost use Rattle.check_rules.specs.Messages as messages;
ghost use Rattle.semantics.specs.Sites.{scope_at};
ghost use Rattle.semantics.specs.Statements as statements;

use crate::here::Here;
use check_rules::{port_meant, template_meant};
use check_scope::names::Meaning;
use check_scope::types::{DataType, Typing};
use check_scope::typing::result_of;
use ttcn_syntax::{
    ComponentRef, Expr, MessageTemplate, Name, PortSelector, Receive, Reference, Send, Template,
    TemplateBody,
};

// ---- references

/// What is known of what a name stands for as a value.
fn typing_of_meaning(here: &Here<'_>, meaning: Option<Meaning>) -> Typing
    ensures { result ≡ (expressions.check_meaning here.now.0 meaning).typing }
{
    match meaning {
        Some(Meaning::Variable(of) | Meaning::Constant(of)) => Typing::of(of),
        Some(Meaning::ModuleConstant(at, _)) => Typing::of(here.type_of_constants(at)),
        Some(Meaning::Enumerator(at)) => Typing::Known(DataType::Enumerated(at)),
        Some(Meaning::Port(_) | Meaning::Timer) => Typing::NoValue,
        _ => Typing::Unknown,
    }
}

/// What is known of fields of fields.
fn typing_along(here: &Here<'_>, typing: Typing, names: &[Name]) -> Typing
    ensures { result ≡ (expressions.along here.now.0 typing names.now).typing }
{
    let mut found = typing;
    for name in names {
        found = here.typing_within(found, name);
    }
    found
}

fn typing_of_reference(here: &Here<'_>, reference: &Reference) -> Typing
    ensures { result ≡ (expressions.check_reference (scope_at here.now.0 here.now.1) reference.now).typing }
{
    let named = typing_of_meaning(here, here.get(reference.name.as_bytes()));
    typing_along(here, named, reference.fields.as_slice())
}

fn typing_of_component(here: &Here<'_>, component: &ComponentRef) -> Typing
    ensures { (free : Bool) → result ≡ (expressions.check_component (scope_at here.now.0 here.now.1) component.now free).typing }
{
    match component {
        ComponentRef::Itself => match here.itself() {
            Some(at) => Typing::Known(DataType::Component(at)),
            None => Typing::AnyComponent,
        },
        ComponentRef::Mtc => Typing::AnyComponent,
        ComponentRef::Named(reference) => typing_of_reference(here, reference),
    }
}

// ---- expressions

/// What is known of the type of an expression: an operator gives its own type.
fn typing_of_expr(here: &Here<'_>, expr: &Expr) -> Typing
    ensures { (free : Bool) → result ≡ (expressions.expression expr.now (scope_at here.now.0 here.now.1) free).typing }
{
    match expr {
        Expr::Int(_) => Typing::Known(DataType::Integer),
        Expr::Bool(_) => Typing::Known(DataType::Boolean),
        Expr::Null => Typing::Null,
        Expr::Reference(component) => typing_of_component(here, component),
        Expr::Running(_) => Typing::Known(DataType::Boolean),
        Expr::Ispresent(_) => Typing::Known(DataType::Boolean),
        Expr::Not(_) => Typing::Known(DataType::Boolean),
        Expr::Signed(_, _) => Typing::Known(DataType::Integer),
        Expr::Chain(first, links) => match links.as_slice() {
            [.., last] => Typing::Known(result_of(last.operator)),
            [] => typing_of_expr(here, first.get()),
        },
    }
}

// ---- templates

/// The position of the template that an expression names without arguments.
fn template_named(here: &Here<'_>, expr: &Expr) -> Option<usize>
    ensures { result ≡ templates.template_named (scope_at here.now.0 here.now.1) expr.now }
{
    match expr {
        Expr::Reference(ComponentRef::Named(reference)) => {
            if reference.fields.as_slice().is_empty() {
                template_meant(here.get(reference.name.as_bytes()))
            } else {
                None
            }
        }
        _ => None,
    }
}

fn typing_at_name(here: &Here<'_>, expr: &Expr, at: Option<usize>) -> Typing
    ensures { result ≡ templates.typing_at_name (scope_at here.now.0 here.now.1) expr.now at }
{
    match at {
        Some(at) => Typing::of(here.type_of_template(at)),
        None => typing_of_expr(here, expr),
    }
}

fn typing_by_position(here: &Here<'_>, at: Option<usize>) -> Typing
    ensures { result ≡ templates.typing_by_position (scope_at here.now.0 here.now.1) at }
{
    match at {
        Some(at) => Typing::of(here.type_of_template(at)),
        None => Typing::Unknown,
    }
}

/// What is known of the type of a template by itself, where it says something.
fn typing_of_template(here: &Here<'_>, template: &Template) -> Option<Typing>
    ensures { result ≡ templates.typing_of_template (scope_at here.now.0 here.now.1) template.now }
{
    match &template.body {
        TemplateBody::Expr(expr) => Some(typing_at_name(here, expr, template_named(here, expr))),
        TemplateBody::Call(call) => {
            let meant = template_meant(here.get(call.name.as_bytes()));
            Some(typing_by_position(here, meant))
        }
        _ => None,
    }
}

// ---- messages

/// The type of a message, where `otherwise` is that of one that says nothing of its type by itself.
fn type_of_message(
    here: &Here<'_>,
    message: &MessageTemplate,
    otherwise: Option<DataType>,
) -> Option<DataType>
    ensures { (passing : messages.Passing) (other : Judgement) → otherwise ≡ type_known other.typing
        → result ≡ type_known (messages.type_of_message (scope_at here.now.0 here.now.1) passing other message.now).typing }
{
    if let Some(type_name) = &message.type_name {
        return here.resolved(type_name);
    }
    match typing_of_template(here, message.template.get()) {
        Some(typing) => typing.known(),
        None => otherwise,
    }
}

/// The type of a message that says nothing of it, at a port whose type stands at a position, if that is known.
fn type_by_port(here: &Here<'_>, incoming: bool, port: Option<usize>) -> Option<DataType>
    ensures { result ≡ type_known (messages.type_by_port (messages.passing_at here.now.0 incoming port)).typing }
{
    match port {
        Some(at) => here.type_passing(incoming, at),
        None => None,
    }
}

/// The type of a message that is received and says nothing of it.
fn type_by_selector(here: &Here<'_>, selector: &PortSelector) -> Option<DataType>
    ensures { result ≡ type_known (messages.incoming (scope_at here.now.0 here.now.1) selector.now).1.typing }
{
    match selector {
        PortSelector::Named(name) => match port_meant(here.get(name.as_bytes())) {
            Some(port) => type_by_port(here, true, port),
            None => None,
        },
        PortSelector::Any => None,
    }
}

/// The type of the message that is sent.
pub(crate) fn sent_type(here: &Here<'_>, send: &Send) -> Option<DataType>
    ensures { result ≡ statements.sent_type (scope_at here.now.0 here.now.1) send.now }
{
    match port_meant(here.get(send.port.as_bytes())) {
        Some(port) => type_of_message(here, &send.message, type_by_port(here, false, port)),
        None => None,
    }
}

/// The type of the message that is received, where a template determines it.
pub(crate) fn received_type(here: &Here<'_>, receive: &Receive) -> Option<DataType>
    ensures { result ≡ messages.received_type (scope_at here.now.0 here.now.1) (messages.incoming (scope_at here.now.0 here.now.1) receive.now.port) receive.now.message }
{
    match &receive.message {
        Some(message) => type_of_message(here, message, type_by_selector(here, &receive.port)),
        None => None,
    }
}

// ---- targets

/// What is known of what a name is as a target.
fn typing_as_target(here: &Here<'_>, meaning: Option<Meaning>) -> Typing
    ensures { result ≡ (as_target here.now.0 meaning).typing }
{
    match meaning {
        Some(Meaning::Variable(of) | Meaning::Constant(of)) => Typing::of(of),
        Some(Meaning::ModuleConstant(at, _)) => Typing::of(here.type_of_constants(at)),
        _ => Typing::Unknown,
    }
}

/// The type that is wanted of what goes to a reference.
pub(crate) fn type_wanted(here: &Here<'_>, reference: &Reference) -> Option<DataType>
    ensures { result ≡ (target_at (scope_at here.now.0 here.now.1) reference.now).data_type }
{
    let named = typing_as_target(here, here.get(reference.name.as_bytes()));
    typing_along(here, named, reference.fields.as_slice()).known()
}
