//! The rules that statements without blocks break (ES 201 873-1, 19 to 22 and 24).
ghost use Rattle.std.specs.Prelude.{◌≡◌, IfOk, OnOk};
ghost use Rattle.std.specs.Option.{option_map};
ghost use Rattle.ttcn_syntax.specs.declared.tree.statement.Action.{out-Action};
ghost use Rattle.check_scope.specs.internal.Checking.{around, least, view};
ghost use Rattle.check_statements.specs.internal.Places.{place_with};
ghost use Rattle.check_rules.specs.Statements as spec;

use crate::declaration::{constants, timers, variables};
use crate::message::{check_event, check_send, check_timer};
use crate::place::Place;
use check_expressions::call::{check_activation, check_arguments, check_call, lone_arguments};
use check_expressions::expression::{
    check_component, check_reference, check_wanted_component, expression, names_timer,
};
use check_expressions::target::check_assignment;
use check_expressions::value::value;
use check_rules::{
    CallPlace, Returns, behaviour_meant, component_named, parameters_of, runs_on_of,
};
use check_scope::broken::Broken;
use check_scope::rule::Rule;
use check_scope::scope::Scope;
use check_scope::types::{DataType, Target, Typing};
use std::alloc::{AllocError, Global};
use ttcn_syntax::{
    Action, Call, ComponentRef, DefinitionKind, Expr, LogItem, Mapping, Reference, Value, Verdict,
};

// ---- conditions

/// Something of this typing as a condition.
fn check_boolean(typing: Typing) -> Broken
    ensures { result ≡ least (spec.check_boolean typing) }
{
    match typing {
        Typing::Known(data_type) => {
            Broken::unless(DataType::Boolean.is_same(data_type), Rule::Condition)
        }
        Typing::Null => Broken::of(Rule::ValueType),
        Typing::AnyComponent | Typing::NoValue => Broken::of(Rule::Condition),
        Typing::Unknown => Broken::nothing(),
    }
}

#[tactic(auto, using(crate::proofs::Leasts::least_append))]
pub(crate) fn check_condition(scope: &Scope<'_>, condition: &Expr) -> Broken
    ensures { result ≡ least (spec.check_condition (view scope.now) condition.now) }
{
    let found = expression(scope, condition, false);
    found.broken.and(check_boolean(found.typing))
}

/// The guard of a branch, if it has one.
pub(crate) fn check_guard(scope: &Scope<'_>, guard: Option<&Expr>) -> Broken
    ensures { result ≡ least (spec.check_guard (view scope.now) (option_map (λ guard. guard.now) guard.entry)) }
{
    match guard {
        Some(guard) => check_condition(scope, guard),
        None => Broken::nothing(),
    }
}

// ---- what is logged

fn check_log_item(scope: &Scope<'_>, item: &LogItem) -> Broken
    ensures { result ≡ least (spec.check_log_item (view scope.now) item.now) }
{
    match item {
        LogItem::Text => Broken::nothing(),
        LogItem::Expr(expr) => expression(scope, expr, true).broken,
    }
}

/// What is logged, or the reasons of a verdict.
fn check_log(scope: &Scope<'_>, items: &[LogItem]) -> Broken
    ensures { result ≡ least (spec.check_log (view scope.now) items.now) }
{
    let mut broken = Broken::nothing();
    for item in items {
        broken = broken.and(check_log_item(scope, item));
    }
    broken
}

#[tactic(auto, using(crate::proofs::Leasts::least_append))]
fn check_setverdict(scope: &Scope<'_>, verdict: Verdict, reasons: &[LogItem]) -> Broken
    ensures { result ≡ least (spec.check_setverdict (view scope.now) verdict reasons.now) }
{
    let may_be_set = !matches!(verdict, Verdict::Error);
    Broken::unless(may_be_set, Rule::VerdictError).and(check_log(scope, reasons))
}

// ---- returns

/// A `return`, with a value or without.
#[tactic(auto, using(crate::proofs::Leasts::least_append))]
fn check_return(
    alloc: Global,
    scope: &Scope<'_>,
    returns: Returns,
    given: Option<&Value>,
) -> Result<Broken, AllocError>
    ensures { IfOk result (λ broken. broken ≡ least (spec.check_return (view scope.now) returns (option_map (λ value. value.now) given.entry))) }
{
    let misplaced = Broken::of(Rule::ReturnPlace);
    let Some(given) = given else {
        return Ok(match returns {
            Returns::WithoutValue => Broken::nothing(),
            Returns::Nowhere | Returns::WithValue(_) => misplaced,
        });
    };
    match returns {
        Returns::WithValue(data_type) => value(alloc, scope, given, Target::of(data_type)),
        Returns::Nowhere | Returns::WithoutValue => {
            let broken = value(alloc, scope, given, Target::of(None))?;
            Ok(misplaced.and(broken))
        }
    }
}

// ---- defaults, timers and components

/// Whether something of this typing refers to an activated default. It isn't judged where the typing is unknown.
fn refers_to_default(typing: Typing) -> bool
    ensures { result ≡ spec.refers_to_default typing }
{
    matches!(typing, Typing::Known(DataType::Default) | Typing::Unknown)
}

#[tactic(auto, using(crate::proofs::Leasts::least_append))]
fn check_deactivate(scope: &Scope<'_>, reference: Option<&Reference>) -> Broken
    ensures { result ≡ least (spec.check_deactivate (view scope.now) (option_map (λ reference. reference.now) reference.entry)) }
{
    let Some(reference) = reference else {
        return Broken::nothing();
    };
    let found = check_reference(scope, reference);
    let is_default = refers_to_default(found.typing);
    found
        .broken
        .and(Broken::unless(is_default, Rule::UnknownName))
}

/// `.stop`, of a timer or a component.
fn check_stop(scope: &Scope<'_>, component: &ComponentRef) -> Broken
    ensures { result ≡ least (spec.check_stop (view scope.now) component.now) }
{
    if names_timer(scope, component) {
        Broken::nothing()
    } else {
        check_wanted_component(scope, component).broken
    }
}

/// Whether a behaviour runs on the type of the component that is started. It isn't judged where one of them is unknown.
fn runs_there(started: Typing, behaviour: Option<usize>) -> bool
    ensures { result ≡ spec.runs_there started behaviour }
{
    match (started, behaviour) {
        (Typing::Known(DataType::Component(at)), Some(behaviour)) => at == behaviour,
        _ => true,
    }
}

/// Whether a function says on what it runs.
fn says_component(kind: Option<&DefinitionKind>) -> bool
    ensures { result ≡ spec.says_component (option_map (λ kind. kind.now) kind.entry) }
{
    match kind {
        Some(DefinitionKind::Function(function)) => function.runs_on.is_some(),
        _ => true,
    }
}

fn is_function(kind: Option<&DefinitionKind>) -> bool
    ensures { result ≡ spec.is_function (option_map (λ kind. kind.now) kind.entry) }
{
    matches!(kind, Some(DefinitionKind::Function(_)))
}

/// A behaviour that a component is started with.
#[tactic(auto, using(crate::proofs::Leasts::least_append))]
fn check_started(
    alloc: Global,
    scope: &Scope<'_>,
    started: Typing,
    call: &Call,
    behaviour: Option<usize>,
) -> Result<Broken, AllocError>
    ensures { IfOk result (λ broken. broken ≡ least (spec.check_started (view scope.now) started call.now behaviour)) }
{
    let given = call.arguments.as_slice();
    let Some(at) = behaviour else {
        let arguments = lone_arguments(alloc, scope, given)?;
        return Ok(Broken::of(Rule::UnknownName).and(arguments));
    };
    let kind = scope.kind(at);
    let arguments = check_arguments(alloc, scope, parameters_of(kind), given)?;
    let fits = runs_there(started, component_named(scope, runs_on_of(kind)));
    Ok(
        arguments
            .and(Broken::unless(says_component(kind), Rule::RunsOn))
            .and(Broken::unless(fits, Rule::RunsOn))
            .and(Broken::unless(is_function(kind), Rule::CallKind)),
    )
}

/// The start of a component.
#[tactic(auto, using(crate::proofs::Leasts::least_append))]
fn check_start(
    alloc: Global,
    scope: &Scope<'_>,
    component: &ComponentRef,
    call: &Call,
) -> Result<Broken, AllocError>
    ensures { IfOk result (λ broken. broken ≡ least (spec.check_start (view scope.now) component.now call.now)) }
{
    let found = check_component(scope, component, false);
    let is_component = found.typing.refers_to_component();
    let behaviour = behaviour_meant(scope.get(call.name.as_bytes()));
    let started = check_started(alloc, scope, found.typing, call, behaviour)?;
    Ok(
        found
            .broken
            .and(Broken::unless(is_component, Rule::UnknownName))
            .and(started),
    )
}

/// The least rule that the two ends of a connection break.
#[tactic(auto, using(crate::proofs::Leasts::least_append))]
fn check_ends(scope: &Scope<'_>, one: &ComponentRef, other: &ComponentRef) -> Broken
    ensures { result ≡ least (spec.check_ends (view scope.now) one.now other.now) }
{
    let one = check_wanted_component(scope, one);
    let other = check_wanted_component(scope, other);
    one.broken.and(other.broken)
}

/// The least rule that a `map` or an `unmap` breaks.
fn check_mapping(scope: &Scope<'_>, mapping: &Mapping) -> Broken
    ensures { result ≡ least (spec.check_mapping (view scope.now) mapping.now) }
{
    check_wanted_component(scope, &mapping.port.component).broken
}

// ---- statements without blocks

/// A statement that holds no block and declares nothing.
#[tactic(auto, using(crate::proofs::Leasts::least_append))]
fn check_action(
    alloc: Global,
    scope: &Scope<'_>,
    place: Place,
    action: &Action,
) -> Result<Broken, AllocError>
    ensures { IfOk result (λ broken. broken ≡ least (spec.leaf_rules (out-Action action.now) (place_with (view scope.now) place))) }
{
    match action {
        Action::Assign(assignment) => check_assignment(alloc, scope, assignment),
        Action::Call(call) => check_call(alloc, scope, CallPlace::Alone, call),
        Action::Event(event) => check_event(alloc, scope, event),
        Action::Repeat => Ok(Broken::unless(place.in_branch, Rule::RepeatPlace)),
        Action::Return(given) => check_return(alloc, scope, place.returns, given.as_ref()),
        Action::Stop => Ok(Broken::nothing()),
        Action::Log(items) => Ok(check_log(scope, items.as_slice())),
        Action::Setverdict(verdict, reasons) => {
            Ok(check_setverdict(scope, *verdict, reasons.as_slice()))
        }
        Action::Connect(one, other) => Ok(check_ends(scope, &one.component, &other.component)),
        Action::Map(mapping) => Ok(check_mapping(scope, mapping)),
        Action::Send(send) => check_send(alloc, scope, send),
        Action::StartComponent(component, call) => check_start(alloc, scope, component, call),
        Action::StartTimer(timer) => Ok(check_timer(scope, timer)),
        Action::StopOf(component) => Ok(check_stop(scope, component)),
        Action::Activate(call) => check_activation(alloc, scope, call),
        Action::Deactivate(reference) => Ok(check_deactivate(scope, reference.as_ref())),
        // Declarations and statements with blocks are judged by the callers.
        Action::Variables(_)
        | Action::Constants(_)
        | Action::Timers(_)
        | Action::Alt(_)
        | Action::If(_, _)
        | Action::While(_, _)
        | Action::DoWhile(_, _)
        | Action::For(_, _, _, _) => Ok(Broken::nothing()),
    }
}

/// A statement that holds no block.
pub(crate) fn check_leaf<'a>(
    alloc: Global,
    scope: &mut Scope<'a>,
    place: Place,
    action: &'a Action,
) -> Result<Broken, AllocError>
    ensures broken { IfOk result (λ broken. broken ≡ least ((spec.leaf (out-Action action.now)).broken (place_with (view scope.old) place))) }
    ensures view { OnOk result (view scope.new ≡ (spec.leaf (out-Action action.now)).scope_behind (view scope.old)) }
    ensures around { OnOk result (around scope.new ≡ around scope.old) }
{
    match action {
        Action::Variables(declared) => variables(alloc, scope, declared),
        Action::Constants(declared) => constants(alloc, scope, declared),
        Action::Timers(declared) => timers(scope, declared.as_slice()),
        action => check_action(alloc, scope, place, action),
    }
}
