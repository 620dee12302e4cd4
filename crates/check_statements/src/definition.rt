//! The rules that definitions break inside (ES 201 873-1, 6, 15 and 16).
ghost use Rattle.std.specs.Prelude.{◌≡◌, ◌++◌, IfOk, OnOk};
ghost use Rattle.std.specs.Option.{option_map};
ghost use Rattle.ttcn_syntax.specs.declared.tree.definition.DefinitionKind.TheVariants as kind;
ghost use Rattle.check_rules.specs.Calls.{component_named};
ghost use Rattle.check_scope.specs.internal.Checking.{around, both, least, least_in, view};
ghost use Rattle.check_scope.specs.Scopes.{scope_on};
ghost use Rattle.check_rules.specs.Definitions as spec;

use crate::kinds::{
    check_component_name, check_constants, check_fields, check_numbers, check_port, check_result,
    returns_of,
};
use crate::member::check_members;
use crate::parameter::check_parameters;
use crate::place::Place;
use crate::statement::{block, branches};
use check_expressions::target::check_type;
use check_expressions::template::template;
use check_rules::{Returns, component_named};
use check_scope::broken::Broken;
use check_scope::least::Least;
use check_scope::scope::Scope;
use check_scope::types::Target;
use std::alloc::{AllocError, Global};
use ttcn_syntax::{
    Altstep, Definition, DefinitionKind, Function, Name, Parameter, Span, TemplateDefinition,
    Testcase,
};

// ---- templates

/// A named template. Its type is not that of a parameter's name.
#[tactic(auto, using(crate::proofs::Leasts::least_append))]
fn check_template<'a>(
    alloc: Global,
    scope: &mut Scope<'a>,
    definition: &'a TemplateDefinition,
) -> Result<Broken, AllocError>
    ensures broken { IfOk result (λ broken. broken ≡ least (spec.check_template (view scope.old) definition.now)) }
    ensures around { OnOk result (around scope.new ≡ around scope.old) }
{
    let typed = check_type(scope, false, &definition.type_name);
    let target = Target::of(scope.resolved(&definition.type_name));
    let parameters = check_parameters(scope, definition.parameters.as_slice())?;
    let body = template(alloc, scope, definition.template.get(), target)?;
    Ok(typed.and(parameters).and(body))
}

// ---- behaviours

/// Goes into a behaviour, with what its head breaks but for its result.
#[tactic(auto, using(crate::proofs::Leasts::least_append))]
fn go_into_behaviour<'a>(
    alloc: Global,
    scope: &mut Scope<'a>,
    runs_on: Option<&Name>,
    parameters: &'a [Parameter],
) -> Result<Broken, AllocError>
    ensures broken { let runs_on = option_map (λ name. name.now) runs_on.entry in
        let definitions = (view scope.old).definitions in
        IfOk result (λ broken. broken ≡ least (spec.check_component_name definitions runs_on ++ spec.check_parameters (scope_on definitions (component_named definitions runs_on)) parameters.now)) }
    ensures view { let runs_on = option_map (λ name. name.now) runs_on.entry in
        let definitions = (view scope.old).definitions in
        OnOk result (view scope.new ≡ spec.with_parameters (scope_on definitions (component_named definitions runs_on)) parameters.now) }
    ensures definitions { OnOk result ((view scope.new).definitions ≡ (view scope.old).definitions) }
{
    let named = check_component_name(scope, runs_on);
    let at = component_named(scope, runs_on);
    scope.go_to_behaviour(alloc, at);
    let parameters = check_parameters(scope, parameters)?;
    Ok(named.and(parameters))
}

/// A function.
fn check_function<'a>(
    alloc: Global,
    scope: &mut Scope<'a>,
    place: Span,
    function: &'a Function,
    found: &mut Least,
) -> Result<(), AllocError>
    ensures found { OnOk result (least_in found.new ≡ both (least_in found.old) (least (spec.check_definition (view scope.old).definitions 0 (kind.Function function.now)))) }
    ensures definitions { OnOk result ((view scope.new).definitions ≡ (view scope.old).definitions) }
{
    let result = check_result(scope, function.returns.as_ref());
    let returns = returns_of(scope, function.returns.as_ref());
    let runs_on = function.runs_on.as_ref();
    let head = go_into_behaviour(alloc, scope, runs_on, function.parameters.as_slice())?;
    found.note(head.and(result), place);
    let inside = Place::in_body(returns);
    block(alloc, scope, inside, function.body.as_slice(), found)
}

/// An altstep.
fn check_altstep<'a>(
    alloc: Global,
    scope: &mut Scope<'a>,
    place: Span,
    altstep: &'a Altstep,
    found: &mut Least,
) -> Result<(), AllocError>
    ensures found { OnOk result (least_in found.new ≡ both (least_in found.old) (least (spec.check_definition (view scope.old).definitions 0 (kind.Altstep altstep.now)))) }
    ensures definitions { OnOk result ((view scope.new).definitions ≡ (view scope.old).definitions) }
{
    let runs_on = altstep.runs_on.as_ref();
    let head = go_into_behaviour(alloc, scope, runs_on, altstep.parameters.as_slice())?;
    found.note(head, place);
    let inside = Place::in_body(Returns::Nowhere);
    branches(alloc, scope, inside, altstep.branches.as_slice(), found)
}

/// A test case.
fn check_testcase<'a>(
    alloc: Global,
    scope: &mut Scope<'a>,
    place: Span,
    testcase: &'a Testcase,
    found: &mut Least,
) -> Result<(), AllocError>
    ensures found { OnOk result (least_in found.new ≡ both (least_in found.old) (least (spec.check_definition (view scope.old).definitions 0 (kind.Testcase testcase.now)))) }
    ensures definitions { OnOk result ((view scope.new).definitions ≡ (view scope.old).definitions) }
{
    let system = check_component_name(scope, testcase.system.as_ref());
    let head = go_into_behaviour(alloc, scope, Some(&testcase.runs_on), &[])?;
    found.note(head.and(system), place);
    let inside = Place::in_body(Returns::Nowhere);
    block(alloc, scope, inside, testcase.body.as_slice(), found)
}

// ---- all definitions

/// The definition at a position. Statements have places of their own.
fn check_definition<'a>(
    alloc: Global,
    scope: &mut Scope<'a>,
    at: usize,
    definition: &'a Definition,
    found: &mut Least,
) -> Result<(), AllocError>
    ensures found { OnOk result (least_in found.new ≡ both (least_in found.old) (least (spec.check_definition (view scope.old).definitions at definition.now.kind))) }
    ensures definitions { OnOk result ((view scope.new).definitions ≡ (view scope.old).definitions) }
{
    let place = definition.place;
    let broken = match &definition.kind {
        DefinitionKind::Record(record) => check_fields(alloc, scope, record.fields.as_slice())?,
        DefinitionKind::Enumerated(enumerated) => {
            check_numbers(alloc, enumerated.enumerators.as_slice())?
        }
        DefinitionKind::Port(port) => check_port(scope, port.messages.as_slice()),
        DefinitionKind::Component(component) => {
            scope.go_to_component(alloc, at);
            check_members(alloc, scope, component.members.as_slice())?
        }
        DefinitionKind::Constants(constants) => {
            scope.go_to_module(alloc);
            check_constants(alloc, scope, constants)?
        }
        DefinitionKind::Template(template) => {
            scope.go_to_module(alloc);
            check_template(alloc, scope, template)?
        }
        DefinitionKind::Function(function) => {
            return check_function(alloc, scope, place, function, found);
        }
        DefinitionKind::Altstep(altstep) => {
            return check_altstep(alloc, scope, place, altstep, found);
        }
        DefinitionKind::Testcase(testcase) => {
            return check_testcase(alloc, scope, place, testcase, found);
        }
    };
    found.note(broken, place);
    Ok(())
}

/// The definitions of a module.
pub fn check_definitions<'a>(
    alloc: Global,
    scope: &mut Scope<'a>,
    definitions: &'a [Definition],
    found: &mut Least,
) -> Result<(), AllocError>
    ensures { OnOk result (least_in found.new ≡ both (least_in found.old) (least (spec.check_definitions (view scope.old).definitions 0 definitions.now))) }
{
    for (at, definition) in definitions.iter().enumerate() {
        check_definition(alloc, scope, at, definition, found)?;
    }
    Ok(())
}
