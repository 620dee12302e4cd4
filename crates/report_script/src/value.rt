//! Values of a module's types, by what JSON gives (ES 201 873-1, 6).
ghost use Rattle.std.specs.Prelude.{◌≡◌, IfOk, bytes_eq};
ghost use Rattle.std.specs.List.{position};
ghost use Rattle.std.specs.Option.{option_and_then, option_map};
ghost use Rattle.check_scope.specs.Names.{fields_at};
ghost use Rattle.check_scope.specs.internal.Checking.{view};
ghost use Rattle.check_rules.specs.Values.{field_target};
ghost use Rattle.report_script.specs.Values as spec;
ghost use Rattle.serde_json.specs.Find.{as_str, get_member};
ghost use Rattle.serde_json.specs.View.{members_view, view as data_of};
ghost use Rattle.value_types.specs.Readings.{enumerators_of};

use check_scope::scope::Scope;
use check_scope::types::{DataType, Target};
use serde_json::{Map, Value as Json};
use std::alloc::{AllocError, Global};
use std::str;
use ttcn_syntax::{DefinitionKind, Enumerator, Field, Name, Seq};
use value_types::Value;

/// The names of an enumeration. Nothing else has any.
fn enumerators_of<'a>(kind: Option<&'a DefinitionKind>) -> &'a [Enumerator]
    ensures { result.now ≡ enumerators_of (option_map (λ kind. kind.now) kind.entry) }
{
    match kind {
        Some(DefinitionKind::Enumerated(enumeration)) => enumeration.enumerators.as_slice(),
        _ => &[],
    }
}

/// The place of the first name that is this one.
fn place_of(enumerators: &[Enumerator], name: &[u8]) -> Option<usize>
    ensures { result ≡ position (λ enumerator. bytes_eq enumerator.name name.now) enumerators.now }
{
    enumerators
        .iter()
        .position(|enumerator| enumerator.name.as_bytes() == name)
}

/// The value that a name has in the enumeration at a position.
fn enumerator(scope: &Scope<'_>, at: usize, name: &[u8]) -> Option<Value>
    ensures { result ≡ spec.enumerator_given (view scope.now).definitions at name.now }
{
    let place = place_of(enumerators_of(scope.kind(at)), name)?;
    Some(Value::Enumerated(at, place))
}

/// The value that a text has in the enumeration at a position.
fn read_enumerator(scope: &Scope<'_>, json: &Json, at: usize) -> Option<Value>
    ensures { result ≡ option_and_then (spec.enumerator_given (view scope.now).definitions at) (as_str (data_of json.now)) }
{
    enumerator(scope, at, json.as_str()?.as_bytes())
}

/// What stands where nothing is given.
fn omitted(optional: bool) -> Option<Value>
    ensures { result ≡ spec.omitted optional }
{
    if optional { Some(Value::Omit) } else { None }
}

/// What a field goes to.
fn target_of_field(scope: &Scope<'_>, field: &Field) -> Target
    ensures { result ≡ field_target (view scope.now).definitions field.now }
{
    Target {
        data_type: scope.resolved_in_module(&field.type_name),
        optional: field.optional,
    }
}

/// The member of a name.
fn member<'a>(members: &'a Map<String, Json>, name: &Name) -> Option<&'a Json>
    ensures { option_map (λ json. data_of json.now) result ≡ get_member name.now (members_view members.now.entries) }
{
    match str::from_utf8(name.as_bytes()) {
        Ok(name) => members.get(name),
        Err(_) => None,
    }
}

/// Whether each member has the name of a field of the record at a position.
fn are_fields(
    alloc: Global,
    scope: &Scope<'_>,
    at: usize,
    members: &Map<String, Json>,
) -> Result<bool, AllocError>
    ensures { IfOk result (λ are. are ≡ spec.are_fields (spec.parts_given (members_view members.now.entries)) (fields_at (view scope.now).definitions at)) }
{
    for (name, _) in members.iter() {
        let name = Name::new(alloc, name.as_bytes())?;
        if scope.field(at, &name).is_none() {
            return Ok(false);
        }
    }
    Ok(true)
}

/// The value of a field, by the member of its name.
#[cycle(values)]
fn read_field(
    alloc: Global,
    scope: &Scope<'_>,
    members: &Map<String, Json>,
    field: &Field,
) -> Result<Option<Value>, AllocError>
    ensures { IfOk result (λ value. value ≡ spec.field_given (view scope.now).definitions field.now (spec.part_named field.now.name (spec.parts_given (members_view members.now.entries)))) }
{
    match member(members, &field.name) {
        Some(json) => read_value(alloc, scope, json, target_of_field(scope, field)),
        None => Ok(omitted(field.optional)),
    }
}

/// The values of fields in their order, by members.
#[cycle(values)]
fn read_fields(
    alloc: Global,
    scope: &Scope<'_>,
    members: &Map<String, Json>,
    fields: &[Field],
) -> Result<Option<Vec<Option<Value>>>, AllocError>
    ensures { IfOk result (λ values. option_map (λ values. values.items) values ≡ spec.fields_given (view scope.now).definitions (spec.parts_given (members_view members.now.entries)) fields.now) }
{
    let mut values = Vec::with_capacity(alloc, fields.len())?;
    for field in fields {
        let Some(value) = read_field(alloc, scope, members, field)? else {
            return Ok(None);
        };
        values.push(Some(value))?;
    }
    Ok(Some(values))
}

/// The record of the type at a position, by members.
#[cycle(values)]
fn read_record(
    alloc: Global,
    scope: &Scope<'_>,
    members: &Map<String, Json>,
    at: usize,
) -> Result<Option<Value>, AllocError>
    ensures { IfOk result (λ value. value ≡ spec.record_at (view scope.now).definitions (spec.parts_given (members_view members.now.entries)) at) }
{
    if !are_fields(alloc, scope, at, members)? {
        return Ok(None);
    }
    let Some(values) = read_fields(alloc, scope, members, scope.fields(at))? else {
        return Ok(None);
    };
    Ok(Some(Value::Record(at, Seq::from_vec(values))))
}

/// The value that JSON gives where a value goes to a target.
#[cycle(values)]
pub(crate) fn read_value(
    alloc: Global,
    scope: &Scope<'_>,
    json: &Json,
    target: Target,
) -> Result<Option<Value>, AllocError>
    ensures { IfOk result (λ value. value ≡ spec.value_given (data_of json.now) (view scope.now).definitions target) }
{
    if json.is_null() {
        return Ok(omitted(target.optional));
    }
    match target.data_type {
        Some(DataType::Integer) => Ok(json.as_i64().map(Value::Integer)),
        Some(DataType::Boolean) => Ok(json.as_bool().map(Value::Boolean)),
        Some(DataType::Enumerated(at)) => Ok(read_enumerator(scope, json, at)),
        Some(DataType::Record(at)) => match json.as_object() {
            Some(members) => read_record(alloc, scope, members, at),
            None => Ok(None),
        },
        Some(DataType::Default | DataType::Component(_)) | None => Ok(None),
    }
}
