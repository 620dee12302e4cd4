//! Fields of records (ES 201 873-1, section 6.2.1).
ghost use Rattle.std.specs.Prelude.{◌≡◌, bytes_eq};
ghost use Rattle.std.specs.List.{find, position, slice_get};
ghost use Rattle.std.specs.Option.{option_and_then, option_map};
ghost use Rattle.ttcn_syntax.specs.declared.tree.value.FieldValue.{out-FieldValue};
ghost use Rattle.ttcn_values.specs.internal.Readers.{taken_for};
ghost use Rattle.value_types.specs.Readings.{along, enumerated, field, last_presence, presence, read, state_of_field};
ghost use Rattle.value_types.specs.Outcomes.{Answers, Gives, Yields, or_error, or_unmet, value_in};

use super::Use;
use crate::named::position_of;
use crate::{Fault, Value};
use check_rules::Definitions;
use std::alloc::Global;
use ttcn_syntax::{DefinitionKind, Field, FieldValue, Name, Value as Written};

/// A name of the enumeration at a position.
#[tactic(auto, using(value_types::proofs::Outcomes::outcome_forms))]
pub(super) fn enumerated(definitions: &Definitions<'_>, at: usize, name: &Name) -> Option<Value>
    ensures { result ≡ value_in (enumerated definitions.now at name.now) }
{
    let Some(DefinitionKind::Enumerated(enumeration)) = definitions.kind(at) else {
        return None;
    };
    let place = position_of(enumeration.enumerators.as_slice(), name)?;
    Some(Value::Enumerated(at, place))
}

/// What stands in the field of a name, where these are the fields' types.
fn state_in<'v>(
    types: &[Field],
    fields: &'v [Option<Value>],
    name: &Name,
) -> Option<&'v Option<Value>>
    ensures { option_map (λ state. state.now) result ≡ option_and_then (slice_get fields.now) (position (λ field. bytes_eq field.name name.now) types.now) }
{
    fields.get(position_of(types, name)?)
}

/// What stands in the field of a name, if there is such a field.
#[tactic(auto, using(value_types::proofs::Outcomes::outcome_forms))]
fn state_of_field<'v>(
    definitions: &Definitions<'_>,
    value: &'v Value,
    name: &Name,
) -> Option<&'v Option<Value>>
    ensures { option_map (λ state. state.now) result ≡ value_in (state_of_field definitions.now name.now value.now) }
{
    match value {
        Value::Record(at, fields) => state_in(definitions.fields(*at), fields.as_slice(), name),
        _ => None,
    }
}

/// The value of a field, where it has one and is not omitted.
fn read(state: &Option<Value>) -> Option<&Value>
    ensures { option_map (λ value. value.now) result ≡ value_in (read state.now) }
{
    match state {
        Some(value) if !value.is_omit() => Some(value),
        _ => None,
    }
}

/// The value of a field of a name, where there is such a field, it has a value and is not omitted.
#[tactic(auto, using(value_types::proofs::Outcomes::outcome_forms))]
fn field<'v>(definitions: &Definitions<'_>, value: &'v Value, name: &Name) -> Option<&'v Value>
    ensures { option_map (λ value. value.now) result ≡ value_in (field definitions.now name.now value.now) }
{
    read(state_of_field(definitions, value, name)?)
}

/// The value of fields of fields, where each is there.
fn along<'v>(definitions: &Definitions<'_>, value: &'v Value, names: &[Name]) -> Option<&'v Value>
    ensures { option_map (λ value. value.now) result ≡ value_in (along definitions.now names.now (Yields value.now)) }
{
    let mut value = value;
    for name in names {
        value = field(definitions, value, name)?;
    }
    Some(value)
}

/// Whether the last of fields of fields is there, where each on the way is.
fn is_present(definitions: &Definitions<'_>, value: &Value, names: &[Name]) -> Result<Value, Fault>
    ensures gives { Gives (presence definitions.now names.now value.now) result }
    ensures answers { Answers result }
{
    match names {
        [first, others @ ..] => is_there(definitions, value, first, others),
        [] => Err(Fault::Dynamic),
    }
}

/// Whether the last of a field, and fields behind it, is there.
fn is_there(
    definitions: &Definitions<'_>,
    value: &Value,
    first: &Name,
    others: &[Name],
) -> Result<Value, Fault>
    ensures gives { Gives (last_presence definitions.now first.now others.now value.now) result }
    ensures answers { Answers result }
{
    let mut value = value;
    let mut last = first;
    for name in others {
        value = match field(definitions, value, last) {
            Some(value) => value,
            None => return Err(Fault::Dynamic),
        };
        last = name;
    }
    match state_of_field(definitions, value, last) {
        Some(state) => Ok(Value::Boolean(read(state).is_some())),
        None => Err(Fault::Dynamic),
    }
}

/// What a value that is kept elsewhere gives for a use, with fields behind it.
fn value_for(
    alloc: Global,
    definitions: &Definitions<'_>,
    wanted: Use,
    value: &Value,
    fields: &[Name],
) -> Result<Value, Fault>
    ensures { Gives (taken_for wanted definitions.now fields.now (Yields value.now)) result }
{
    match wanted {
        Use::Value => match along(definitions, value, fields) {
            Some(value) => Ok(value.try_clone(alloc)?),
            None => Err(Fault::Dynamic),
        },
        Use::Presence => is_present(definitions, value, fields),
    }
}

/// What a value that is kept elsewhere gives for a use, with fields behind it, if there is a value.
#[tactic(auto, using(crate::proofs::Uses::taken_of_failure))]
pub(super) fn value_of_stored(
    alloc: Global,
    definitions: &Definitions<'_>,
    wanted: Use,
    value: Option<&Value>,
    fields: &[Name],
) -> Result<Value, Fault>
    ensures { Gives (taken_for wanted definitions.now fields.now (or_error (option_map (λ value. value.now) value.entry))) result }
{
    match value {
        Some(value) => value_for(alloc, definitions, wanted, value, fields),
        None => Err(Fault::Dynamic),
    }
}

/// What a value that was made for a use gives for it, with fields behind it.
#[tactic(auto, using(crate::proofs::Uses::taken_of_failure))]
pub(super) fn value_of_new(
    alloc: Global,
    definitions: &Definitions<'_>,
    wanted: Use,
    value: Option<Value>,
    fields: &[Name],
) -> Result<Value, Fault>
    ensures { Gives (taken_for wanted definitions.now fields.now (or_unmet value)) result }
{
    match value {
        Some(value) => value_for(alloc, definitions, wanted, &value, fields),
        None => Err(Fault::Dynamic),
    }
}

/// The value of the element of a name in a literal, if there is one.
pub(super) fn element_of<'e>(elements: &'e [FieldValue], name: &Name) -> Option<&'e Written>
    ensures { option_map (λ value. value.now) result ≡ option_map (λ element. (out-FieldValue element).value) (find (λ element. bytes_eq (out-FieldValue element).name name.now) elements.now) }
{
    let element = elements.iter().find(|element| element.name == *name)?;
    Some(&element.value)
}
