//! Assignment to a name, or to a field of the record that it stands for (ES 201 873-1, sections 6.2.1 and 19.1).
#![tactic(auto)]

mod record;

ghost use Rattle.value_assignment.specs.Assignment.{assigned};
ghost use Rattle.value_types.specs.Outcomes.{Gives};

use check_rules::{DataType, Definitions};
use record::gap_for;
use std::alloc::Global;
use ttcn_syntax::Name;
use value_types::{Fault, Value};

/// What a name holds after an assignment to it, or to the field of fields that stands behind it. The name is of the type
/// that is given, and had the value that is given, or none. A record on the way that has no value or is omitted becomes
/// one without values.
pub fn assign(
    alloc: Global,
    definitions: &Definitions<'_>,
    data_type: Option<DataType>,
    held: Option<Value>,
    fields: &[Name],
    value: Value,
) -> Result<Value, Fault>
    ensures { Gives (assigned definitions.now data_type held fields.now value) result }
{
    match fields {
        [] => Ok(value),
        [name, others @ ..] => {
            let mut whole = gap_for(alloc, definitions, data_type, held, name)?;
            let held = whole.held.take();
            let inner = assign(alloc, definitions, whole.data_type, held, others, value)?;
            Ok(whole.filled(inner))
        }
    }
}
