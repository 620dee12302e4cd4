//! Records in which a field is assigned.
ghost use Rattle.std.specs.Prelude.{◌≡◌, ◌<◌, None, Some, IfSome, bytes_eq, length, slice_get, slice_set};
ghost use Rattle.std.specs.List.{position};
ghost use Rattle.value_assignment.specs.Assignment as spec;
ghost use Rattle.value_types.specs.Outcomes.{Gives};

use check_rules::{DataType, Definitions};
use std::alloc::Global;
use ttcn_syntax::{Field, Name, Seq};
use value_types::{Fault, Value};

/// The position of a record's type, and its fields in order. A field may have no value.
type Record = (usize, Seq<Option<Value>>);

/// A record, one field of which is taken out of it.
#[derive(Debug, Drop)]
pub(crate) struct Gap {
    at: usize,
    fields: Seq<Option<Value>>,
    place: usize,
    /// The field's type, and what it held.
    pub(crate) data_type: Option<DataType>,
    pub(crate) held: Option<Value>,
}

/// A record of which no field has a value.
fn blank(
    alloc: Global,
    definitions: &Definitions<'_>,
    data_type: Option<DataType>,
) -> Result<Record, Fault>
    ensures { Gives (spec.blank definitions.now data_type) result }
{
    let Some(DataType::Record(at)) = data_type else {
        return Err(Fault::Dynamic);
    };
    let mut fields = Seq::new(alloc);
    for _ in definitions.fields(at) {
        fields.push(None)?;
    }
    Ok((at, fields))
}

/// The record in which a field is assigned: the one that is there, or else one without values.
fn record_for(
    alloc: Global,
    definitions: &Definitions<'_>,
    data_type: Option<DataType>,
    held: Option<Value>,
) -> Result<Record, Fault>
    ensures { Gives (spec.record_for definitions.now data_type held) result }
{
    match held {
        Some(value) if !value.is_omit() => value.into_record(),
        _ => blank(alloc, definitions, data_type),
    }
}

/// The place of the field of a name.
fn place_of(fields: &[Field], name: &Name) -> Option<usize>
    ensures { result ≡ position (λ field. bytes_eq field.name name.now) fields.now }
{
    for (place, field) in fields.iter().enumerate() {
        if field.name == *name {
            return Some(place);
        }
    }
    None
}

/// What the field at a place holds, which is taken out of it.
fn take(fields: &mut Vec<Option<Value>>, place: usize) -> Option<Option<Value>>
    ensures held { result ≡ slice_get fields.old.items place }
    ensures taken { IfSome result (λ _. fields.new.items ≡ slice_set fields.old.items place None) }
{
    if place < fields.len() {
        Some(fields[place].take())
    } else {
        None
    }
}

/// A record whose field at a place is taken out of it, where a field stands there.
fn gap_at_place(definitions: &Definitions<'_>, whole: Record, place: usize) -> Result<Gap, Fault>
    ensures { Gives (spec.gap_at_place definitions.now whole place) result }
{
    let (at, fields) = whole;
    let Some(field) = definitions.fields(at).get(place) else {
        return Err(Fault::Dynamic);
    };
    let data_type = definitions.resolved(&field.type_name);
    let mut fields = fields.into_vec();
    let Some(held) = take(&mut fields, place) else {
        return Err(Fault::Dynamic);
    };
    Ok(Gap {
        at,
        fields: Seq::from_vec(fields),
        place,
        data_type,
        held,
    })
}

/// A record whose field of a name is taken out of it.
fn gap_at_field(definitions: &Definitions<'_>, whole: Record, name: &Name) -> Result<Gap, Fault>
    ensures { Gives (spec.gap_at_field definitions.now name.now whole) result }
{
    match place_of(definitions.fields(whole.0), name) {
        Some(place) => gap_at_place(definitions, whole, place),
        None => Err(Fault::Dynamic),
    }
}

/// The record that a name of a type holds, or else one without values, with the field of a name taken out.
pub(crate) fn gap_for(
    alloc: Global,
    definitions: &Definitions<'_>,
    data_type: Option<DataType>,
    held: Option<Value>,
    name: &Name,
) -> Result<Gap, Fault>
    ensures { Gives (spec.gap_for definitions.now data_type held name.now) result }
{
    let whole = record_for(alloc, definitions, data_type, held)?;
    gap_at_field(definitions, whole, name)
}

impl Gap {
    /// The record with a value in the field that was taken out.
    pub(crate) fn filled(self, value: Value) -> Value
        ensures { result ≡ spec.filled self value }
    {
        let Gap {
            at,
            fields,
            place,
            data_type: _,
            held: _held,
        } = self;
        let mut fields = fields.into_vec();
        if place < fields.len() {
            fields[place] = Some(value);
        }
        Value::Record(at, Seq::from_vec(fields))
    }
}
