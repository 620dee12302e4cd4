//! The fields of records by their names.
ghost use Rattle.std.specs.Prelude.{◌≡◌, ℕ, IfOk, Some};
ghost use Rattle.std.specs.List.{slice_get};
ghost use Rattle.std.specs.Option.{option_map};
ghost use Rattle.check_scope.specs.Names.{field_named, fields_at, fields_of};
ghost use Rattle.check_scope.specs.internal.Tables.{field_by};

use crate::field_table::FieldTable;
use std::alloc::{AllocError, Global};
use ttcn_syntax::{Definition, DefinitionKind, Field, Name};

/// The fields of a record. Nothing else has any.
pub fn fields_of(kind: &DefinitionKind) -> &[Field]
    ensures { result.now ≡ fields_of (Some kind.now) }
{
    match kind {
        DefinitionKind::Record(record) => record.fields.as_slice(),
        _ => &[],
    }
}

/// For each definition the fields by their names, if it is a record.
pub(super) fn fields_by_name<'a>(
    alloc: Global,
    definitions: &'a [Definition],
) -> Result<Vec<FieldTable<'a>>, AllocError>
    ensures { IfOk result (λ tables. (at : ℕ) → field_by (slice_get tables.items at) ≡ (λ name. field_named name (fields_at definitions.now at))) }
{
    let mut tables = Vec::new(alloc);
    for definition in definitions {
        let table = FieldTable::of(alloc, fields_of(&definition.kind))?;
        tables.push(table)?;
    }
    Ok(tables)
}

/// The field of a name of the record at a position.
pub(super) fn field_at<'a>(tables: &[FieldTable<'a>], at: usize, name: &Name) -> Option<&'a Field>
    ensures { option_map (λ field. field.now) result ≡ field_by (slice_get tables.now at) name.now }
{
    tables.get(at)?.get(name)
}
