//! Values as they are written in a module (ES 201 873-1, 6).
use crate::names::write_name;
use report::PathText;
use std::alloc::AllocError;
use std::fmt::Write;
use ttcn_syntax::{Definition, DefinitionKind};
use value_types::Value;

/// Writes the name of an enumeration's value.
fn write_enumerator(
    out: &mut String,
    definitions: &[Definition],
    at: usize,
    place: usize,
) -> Result<(), AllocError> {
    if let Some(definition) = definitions.get(at) {
        if let DefinitionKind::Enumerated(enumeration) = &definition.kind {
            if let Some(enumerator) = enumeration.enumerators.as_slice().get(place) {
                return write_name(out, &enumerator.name);
            }
        }
    }
    write!(out, "{place}")
}

/// Writes a value: a record as the list of its fields, `-` for one without a value.
pub(crate) fn write_value(
    out: &mut String,
    definitions: &[Definition],
    value: &Value,
) -> Result<(), AllocError> {
    match value {
        Value::Integer(integer) => write!(out, "{integer}"),
        Value::Boolean(truth) => write!(out, "{truth}"),
        Value::Enumerated(at, place) => write_enumerator(out, definitions, *at, *place),
        Value::Record(_, fields) => {
            out.push_str("{")?;
            let mut is_first = true;
            for field in fields.as_slice() {
                if !is_first {
                    out.push_str(", ")?;
                }
                is_first = false;
                match field {
                    Some(value) => write_value(out, definitions, value)?,
                    None => out.push_str("-")?,
                }
            }
            out.push_str("}")
        }
        Value::Component(component) => {
            write!(out, "{}", PathText(component.path.numbers.as_slice()))
        }
        Value::Default(number) => write!(out, "default {number}"),
        Value::Null => out.push_str("null"),
        Value::Omit => out.push_str("omit"),
    }
}
