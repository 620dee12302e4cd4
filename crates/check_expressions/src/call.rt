//! The rules that calls and their arguments break (ES 201 873-1, 16 and 20).
ghost use Rattle.std.specs.Prelude.{◌≡◌, IfOk};
ghost use Rattle.std.specs.Option.{option_map};
ghost use Rattle.check_rules.specs.Calls as spec;
ghost use Rattle.check_scope.specs.internal.Checking.{least, view};

use crate::value::value;
use check_rules::{CallPlace, behaviour_meant, component_named, parameters_of, runs_on_of};
use check_scope::broken::Broken;
use check_scope::names::Meaning;
use check_scope::rule::Rule;
use check_scope::scope::Scope;
use check_scope::types::{DataType, Target, Typing};
use std::alloc::{AllocError, Global};
use ttcn_syntax::{Call, DefinitionKind, Parameter, TypeName, Value};

/// The type of a function's result, where it has one.
pub(crate) fn result_type_of<'a>(kind: Option<&'a DefinitionKind>) -> Option<&'a TypeName>
    ensures { option_map (λ name. name.now) result ≡ spec.result_type_of (option_map (λ kind. kind.now) kind.entry) }
{
    match kind {
        Some(DefinitionKind::Function(function)) => function.returns.as_ref(),
        _ => None,
    }
}

/// The type of a template.
pub(crate) fn template_type(scope: &Scope<'_>, kind: Option<&DefinitionKind>) -> Option<DataType>
    ensures { result ≡ spec.template_type (view scope.now).definitions (option_map (λ kind. kind.now) kind.entry) }
{
    match kind {
        Some(DefinitionKind::Template(template)) => {
            scope.resolved_in_module(&template.type_name)
        }
        _ => None,
    }
}

/// What the first argument goes to.
fn parameter_target(scope: &Scope<'_>, parameters: &[Parameter]) -> Target
    ensures { result ≡ spec.parameter_target (view scope.now) parameters.now }
{
    match parameters {
        [parameter, ..] => Target::of(scope.resolved_in_module(&parameter.type_name)),
        [] => Target::any(),
    }
}

/// What is behind the first parameter.
fn next_parameters(parameters: &[Parameter]) -> &[Parameter]
    ensures { result.now ≡ spec.next_parameters parameters.now }
{
    match parameters {
        [_, parameters @ ..] => parameters,
        [] => &[],
    }
}

/// Arguments by the order of the parameters.
fn arguments(
    alloc: Global,
    scope: &Scope<'_>,
    parameters: &[Parameter],
    given: &[Value],
) -> Result<Broken, AllocError>
    ensures { IfOk result (λ broken. broken ≡ least (spec.arguments (view scope.now) parameters.now given.now)) }
{
    let mut broken = Broken::nothing();
    let mut left = parameters;
    for argument in given {
        let part = value(alloc, scope, argument, parameter_target(scope, left))?;
        broken = broken.and(part);
        left = next_parameters(left);
    }
    Ok(broken)
}

/// The least rule that the arguments of a call break: they are as many as the parameters, each of its parameter's type.
#[tactic(auto, using(check_rules::proofs::Findings::least_append))]
pub fn check_arguments(
    alloc: Global,
    scope: &Scope<'_>,
    parameters: &[Parameter],
    given: &[Value],
) -> Result<Broken, AllocError>
    ensures { IfOk result (λ broken. broken ≡ least (spec.check_arguments (view scope.now) parameters.now given.now)) }
{
    let number = Broken::unless(given.len() == parameters.len(), Rule::Arguments);
    let each = arguments(alloc, scope, parameters, given)?;
    Ok(number.and(each))
}

/// The arguments of something that can't be called.
pub fn lone_arguments(
    alloc: Global,
    scope: &Scope<'_>,
    given: &[Value],
) -> Result<Broken, AllocError>
    ensures { IfOk result (λ broken. broken ≡ least (spec.lone_arguments (view scope.now) given.now)) }
{
    arguments(alloc, scope, &[], given)
}

/// Whether a behaviour runs on what its caller runs on. One that says nothing may be called everywhere.
fn runs_here(at: Option<usize>, caller: Option<usize>) -> bool
    ensures { result ≡ spec.runs_here at caller }
{
    match (at, caller) {
        (Some(at), Some(caller)) => at == caller,
        (Some(_), None) => false,
        (None, _) => true,
    }
}

/// The call of a behaviour: with arguments for its parameters, running on what its caller runs on, and of a kind that may
/// be called here.
#[tactic(auto, using(check_rules::proofs::Findings::least_append))]
fn check_behaviour(
    alloc: Global,
    scope: &Scope<'_>,
    place: CallPlace,
    call: &Call,
    at: Option<usize>,
) -> Result<Broken, AllocError>
    ensures { IfOk result (λ broken. broken ≡ least (spec.check_behaviour (view scope.now) (spec.callable place) call.now at)) }
{
    let given = call.arguments.as_slice();
    let Some(at) = at else {
        let given = lone_arguments(alloc, scope, given)?;
        return Ok(Broken::of(Rule::UnknownName).and(given));
    };
    let kind = scope.kind(at);
    let given = check_arguments(alloc, scope, parameters_of(kind), given)?;
    let runs = runs_here(component_named(scope, runs_on_of(kind)), scope.itself());
    let called = Broken::unless(place.may_call(kind), Rule::CallKind);
    Ok(given.and(Broken::unless(runs, Rule::RunsOn)).and(called))
}

pub fn check_call(
    alloc: Global,
    scope: &Scope<'_>,
    place: CallPlace,
    call: &Call,
) -> Result<Broken, AllocError>
    ensures { IfOk result (λ broken. broken ≡ least (spec.check_call (view scope.now) (spec.callable place) call.now)) }
{
    let meant = behaviour_meant(scope.get(call.name.as_bytes()));
    check_behaviour(alloc, scope, place, call, meant)
}

/// What is known of the result of a call.
pub(crate) fn result_typing(scope: &Scope<'_>, type_name: Option<&TypeName>) -> Typing
    ensures { result ≡ spec.result_typing (view scope.now) (option_map (λ name. name.now) type_name.entry) }
{
    match type_name {
        Some(type_name) => Typing::of(scope.resolved_in_module(type_name)),
        None => Typing::Unknown,
    }
}

/// The position of the altstep that a name stands for.
fn altstep_meant(meaning: Option<Meaning>) -> Option<usize>
    ensures { result ≡ spec.altstep_meant meaning }
{
    match meaning {
        Some(Meaning::Altstep(at)) => Some(at),
        _ => None,
    }
}

/// An altstep that is activated, and runs on what its activator runs on.
pub fn check_activation(alloc: Global, scope: &Scope<'_>, call: &Call) -> Result<Broken, AllocError>
    ensures { IfOk result (λ broken. broken ≡ least (spec.check_activation (view scope.now) call.now)) }
{
    let meant = altstep_meant(scope.get(call.name.as_bytes()));
    check_behaviour(alloc, scope, CallPlace::Branch, call, meant)
}
