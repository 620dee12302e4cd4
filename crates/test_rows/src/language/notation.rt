//! Values in the notation of TTCN-3.
use std::alloc::{AllocError, Global};
use ttcn_syntax::{DefinitionKind, Field};
use ttcn_types::Definitions;
use ttcn_values::{ComponentId, Value};

/// A value as a module writes it, and `-` where a field has none.
#[cycle(notation)]
pub fn notation(
    alloc: Global,
    definitions: &Definitions<'_>,
    value: &Value,
) -> Result<String, AllocError> {
    match value {
        Value::Integer(number) => format!(in alloc; "{number}"),
        Value::Boolean(truth) => format!(in alloc; "{truth}"),
        Value::Enumerated(at, name) => enumerator(alloc, definitions, *at, *name),
        Value::Record(at, fields) => {
            let names = definitions.fields(*at);
            record(alloc, definitions, names, fields.as_slice())
        }
        Value::Component(component) => path(alloc, component),
        Value::Default(activation) => format!(in alloc; "default {activation}"),
        Value::Null => String::from_str(alloc, "null"),
        Value::Omit => String::from_str(alloc, "omit"),
    }
}

/// The name at a place of the enumeration at a position.
fn enumerator(
    alloc: Global,
    definitions: &Definitions<'_>,
    at: usize,
    place: usize,
) -> Result<String, AllocError> {
    if let Some(DefinitionKind::Enumerated(enumeration)) = definitions.kind(at) {
        if let Some(enumerator) = enumeration.enumerators.as_slice().get(place) {
            let name = &enumerator.name;
            return format!(in alloc; "{name:?}");
        }
    }
    format!(in alloc; "no name {place} at {at}")
}

/// `{ a := 1, b := omit, c := - }`
#[cycle(notation)]
fn record(
    alloc: Global,
    definitions: &Definitions<'_>,
    fields: &[Field],
    values: &[Option<Value>],
) -> Result<String, AllocError> {
    if fields.len() != values.len() {
        return format!(in alloc; "{} values of {} fields", values.len(), fields.len());
    }
    let mut text = String::from_str(alloc, "{ ")?;
    for (at, (field, value)) in fields.iter().zip(values).enumerate() {
        let comma = if at == 0 { "" } else { ", " };
        let name = &field.name;
        let value = match value {
            Some(value) => notation(alloc, definitions, value)?,
            None => String::from_str(alloc, "-")?,
        };
        text.push_str(format!(in alloc; "{comma}{name:?} := {value}")?.as_str())?;
    }
    text.push_str(if fields.is_empty() { "}" } else { " }" })?;
    Ok(text)
}

/// `component 1.2`
fn path(alloc: Global, component: &ComponentId) -> Result<String, AllocError> {
    let mut text = String::from_str(alloc, "component")?;
    for (at, number) in component.path.numbers.as_slice().iter().enumerate() {
        let dot = if at == 0 { " " } else { "." };
        text.push_str(format!(in alloc; "{dot}{number}")?.as_str())?;
    }
    Ok(text)
}
