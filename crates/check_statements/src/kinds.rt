//! The rules that definitions break inside, where no further names come into view (ES 201 873-1, 6 and 16).
ghost use Rattle.std.specs.Prelude.{◌≡◌, ◌++◌, List, [], IfOk, OnOk, false};
ghost use Rattle.std.specs.List.{flat_map};
ghost use Rattle.std.specs.Option.{option_map};
ghost use Rattle.ttcn_syntax.specs.declared.tree.definition.EnumNumber.{EnumNumber};
ghost use Rattle.check_scope.specs.internal.Checking.{least, view};
ghost use Rattle.check_rules.specs.Definitions as spec;
ghost use Rattle.check_scope.specs.Names.{module_names, resolved};
ghost use Rattle.check_statements.specs.internal.Places.{AreGiven};
ghost use Rattle.check_rules.specs.Targets.{check_type};

use crate::number_set::NumberSet;
use check_expressions::target::check_type;
use check_expressions::value::value;
use check_rules::{Returns, component_named};
use check_scope::broken::Broken;
use check_scope::name_set::NameSet;
use check_scope::names::Meaning;
use check_scope::rule::Rule;
use check_scope::scope::Scope;
use check_scope::types::{DataType, Target};
use std::alloc::{AllocError, Global};
use ttcn_syntax::{
    Constant, Constants, EnumNumber, Enumerator, Field, Name, PortMessages, TypeName,
};

// ---- records

/// A name as that of a type that records and messages hold.
fn as_part(meaning: Option<Meaning>) -> Broken
    ensures { result ≡ least (spec.as_part meaning) }
{
    match meaning {
        Some(Meaning::Record(_) | Meaning::Enumerated(_)) => Broken::nothing(),
        Some(Meaning::Component(_) | Meaning::PortType(_)) => Broken::of(Rule::BadType),
        _ => Broken::of(Rule::UnknownName),
    }
}

/// A type that records and messages hold.
fn check_part(scope: &Scope<'_>, type_name: &TypeName) -> Broken
    ensures { result ≡ least (spec.check_part (module_names (view scope.now).definitions) type_name.now) }
{
    match type_name {
        TypeName::Integer | TypeName::Boolean => Broken::nothing(),
        TypeName::Default => Broken::of(Rule::BadType),
        TypeName::Named(name) => as_part(scope.in_module(name.as_bytes())),
    }
}

/// The fields of a record. Each has a name of its own.
pub(crate) fn check_fields(
    alloc: Global,
    scope: &Scope<'_>,
    fields: &[Field],
) -> Result<Broken, AllocError>
    ensures { IfOk result (λ broken. broken ≡ least (spec.check_fields (module_names (view scope.now).definitions) [] fields.now)) }
{
    let mut broken = Broken::nothing();
    let mut names = NameSet::new(alloc);
    for field in fields {
        let is_new = names.insert(field.name.as_bytes())?;
        let named = Broken::unless(is_new, Rule::DuplicateName);
        let part = check_part(scope, &field.type_name);
        broken = broken.and(named).and(part);
    }
    Ok(broken)
}

// ---- enumerations

/// A number, if one is given, which is none of those so far.
fn add_number(numbers: &mut NumberSet, number: Option<EnumNumber>) -> Result<Broken, AllocError>
    ensures broken { IfOk result (λ broken. (before : List EnumNumber) → AreGiven numbers.old before → broken ≡ least (spec.check_number before number)) }
    ensures given { OnOk result ((before : List EnumNumber) → AreGiven numbers.old before → AreGiven numbers.new (spec.and_number before number)) }
{
    match number {
        Some(number) => {
            let is_new = numbers.insert(number)?;
            Ok(Broken::unless(is_new, Rule::EnumNumbers))
        }
        None => Ok(Broken::nothing()),
    }
}

/// The names of an enumeration. Each number that is given is another one.
pub(crate) fn check_numbers(alloc: Global, enumerators: &[Enumerator]) -> Result<Broken, AllocError>
    ensures { IfOk result (λ broken. broken ≡ least (spec.check_numbers [] enumerators.now)) }
{
    let mut broken = Broken::nothing();
    let mut numbers = NumberSet::new(alloc);
    for enumerator in enumerators {
        let more = add_number(&mut numbers, enumerator.number)?;
        broken = broken.and(more);
    }
    Ok(broken)
}

// ---- ports

/// The types of messages that a port lets pass in a direction.
fn check_messages(scope: &Scope<'_>, messages: &PortMessages) -> Broken
    ensures { result ≡ least (spec.check_messages (module_names (view scope.now).definitions) messages.now) }
{
    let mut broken = Broken::nothing();
    for type_name in messages.types.as_slice() {
        broken = broken.and(check_part(scope, type_name));
    }
    broken
}

/// The types of messages that a port lets pass.
pub(crate) fn check_port(scope: &Scope<'_>, messages: &[PortMessages]) -> Broken
    ensures { result ≡ least (flat_map (spec.check_messages (module_names (view scope.now).definitions)) messages.now) }
{
    let mut broken = Broken::nothing();
    for direction in messages {
        broken = broken.and(check_messages(scope, direction));
    }
    broken
}

// ---- constants

/// The values of constants of the module.
fn check_module_constants(
    alloc: Global,
    scope: &Scope<'_>,
    data_type: Option<DataType>,
    constants: &[Constant],
) -> Result<Broken, AllocError>
    ensures { IfOk result (λ broken. broken ≡ least (spec.check_module_constants (view scope.now) data_type constants.now)) }
{
    let mut broken = Broken::nothing();
    for constant in constants {
        let part = value(alloc, scope, &constant.value, Target::of(data_type))?;
        broken = broken.and(part);
    }
    Ok(broken)
}

/// A declaration of constants of the module.
#[tactic(auto, using(crate::proofs::Leasts::least_append))]
pub(crate) fn check_constants(
    alloc: Global,
    scope: &Scope<'_>,
    constants: &Constants,
) -> Result<Broken, AllocError>
    ensures { IfOk result (λ broken. broken ≡ least (check_type (view scope.now).names false constants.now.type_name ++ spec.check_module_constants (view scope.now) (resolved (view scope.now).names constants.now.type_name) constants.now.constants)) }
{
    let typed = check_type(scope, false, &constants.type_name);
    let data_type = scope.resolved(&constants.type_name);
    let values = check_module_constants(alloc, scope, data_type, constants.constants.as_slice())?;
    Ok(typed.and(values))
}

// ---- behaviours

/// The name of a component type, if there is one.
pub(crate) fn check_component_name(scope: &Scope<'_>, name: Option<&Name>) -> Broken
    ensures { result ≡ least (spec.check_component_name (view scope.now).definitions (option_map (λ name. name.now) name.entry)) }
{
    let is_component = name.is_none() || component_named(scope, name).is_some();
    Broken::unless(is_component, Rule::UnknownName)
}

/// The type of the result of a function, if it has one.
pub(crate) fn check_result(scope: &Scope<'_>, type_name: Option<&TypeName>) -> Broken
    ensures { result ≡ least (spec.check_result (view scope.now).definitions (option_map (λ name. name.now) type_name.entry)) }
{
    match type_name {
        None => Broken::nothing(),
        Some(TypeName::Default) => Broken::of(Rule::BadType),
        Some(type_name) => {
            let data_type = scope.resolved_in_module(type_name);
            Broken::unless(data_type.is_some(), Rule::UnknownName)
        }
    }
}

/// What a function may return.
pub(crate) fn returns_of(scope: &Scope<'_>, type_name: Option<&TypeName>) -> Returns
    ensures { result ≡ spec.returns_of (view scope.now).definitions (option_map (λ name. name.now) type_name.entry) }
{
    match type_name {
        Some(type_name) => Returns::WithValue(scope.resolved_in_module(type_name)),
        None => Returns::WithoutValue,
    }
}
