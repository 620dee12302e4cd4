//! Values are stored in names, and in fields of records that names hold (ES 201 873-1, 19.1).
ghost use Rattle.std.specs.Prelude.{◌≡◌, ◌<◌, IfOk};
ghost use Rattle.std.specs.Option.{option_map};
ghost use Rattle.semantics.specs.Snapshots.{Test};
ghost use Rattle.semantics.specs.Storing as rules;
ghost use Rattle.step_data.specs.internal.Held.{held_in, value_at};
ghost use Rattle.config_parts.specs.Legend.{IsLegend, Legend, data_by};
ghost use Rattle.config_parts.specs.Views.{Extent, IsWithin};
ghost use Rattle.value_types.specs.Outcomes.{GivesBy};

use check_rules::{DataType, Definitions};
use config_parts::Data;
use std::alloc::{AllocError, Global};
use ttcn_syntax::Name;
use value_assignment::assign;
use value_types::{Fault, Slot, Value};

/// What the entries say of a slot.
fn value_of(entries: &[(Slot, Value)], slot: Slot) -> Option<&Value>
    ensures { option_map (λ value. value.now) result ≡ value_at slot entries.now }
{
    let found = entries.iter().find(|entry| entry.0 == slot)?;
    Some(&found.1)
}

/// What a name of the last frame, or of frame 0, holds.
fn held(own: &Data, last: bool, slot: Slot) -> Option<&Value>
    ensures { option_map (λ value. value.now) result ≡ held_in last slot own.now }
{
    if !last {
        return value_of(own.members.values.as_slice(), slot);
    }
    match own.calls.as_slice().first() {
        Some(frame) => value_of(frame.cells.values.as_slice(), slot),
        None => None,
    }
}

/// A copy of it.
fn held_copy(alloc: Global, own: &Data, last: bool, slot: Slot) -> Result<Option<Value>, AllocError>
    ensures { IfOk result (λ copy. copy ≡ held_in last slot own.now) }
{
    match held(own, last, slot) {
        Some(value) => Ok(Some(value.try_clone(alloc)?)),
        None => Ok(None),
    }
}

/// A value goes to a name of the last frame, or of frame 0, or to fields of what the name holds.
pub fn store(
    alloc: Global,
    definitions: &Definitions<'_>,
    own: Data,
    last: bool,
    slot: Slot,
    data_type: Option<DataType>,
    fields: &[Name],
    value: Value,
) -> Result<Data, Fault>
    ensures stored { (legend : Legend) (test : Test) → IsLegend legend → test.definitions ≡ definitions.now
        → GivesBy (data_by legend) (rules.store test (record { own = last; reference = record { name = legend.names slot; fields = fields.now }; data_type = data_type }) value (data_by legend own)) result }
    ensures within { (size : Extent) → slot < size.names → IsWithin size own → IfOk result (IsWithin size) }
{
    let before = held_copy(alloc, &own, last, slot)?;
    let value = assign(alloc, definitions, data_type, before, fields, value)?;
    let mut own = own;
    own.set_value(alloc, last, slot, value)?;
    Ok(own)
}
