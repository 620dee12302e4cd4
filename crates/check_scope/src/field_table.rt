//! The fields of a record by their names.
ghost use Rattle.std.specs.Prelude.{◌≡◌, IfOk, OnOk, Some, None, bytes_eq, if◌then◌else◌};
ghost use Rattle.std.specs.Option.{option_map, option_or};
ghost use Rattle.check_scope.specs.Names.{field_named};
ghost use Rattle.check_scope.specs.internal.Tables.{field_in};

use std::alloc::{AllocError, Global};
use std::collections::HashMap;
use ttcn_syntax::{Field, Name};

/// The fields of a record by their names: of several with one name the first counts.
#[derive(Drop)]
pub(crate) struct FieldTable<'a> {
    fields: HashMap<&'a [u8], &'a Field>,
}

impl<'a> FieldTable<'a> {
    fn new(alloc: Global) -> FieldTable<'a>
        ensures { field_in result ≡ (λ name. None) }
    {
        FieldTable {
            fields: HashMap::new(alloc),
        }
    }

    pub fn of(alloc: Global, fields: &'a [Field]) -> Result<FieldTable<'a>, AllocError>
        ensures { IfOk result (λ table. field_in table ≡ (λ name. field_named name fields.now)) }
    {
        let mut table = FieldTable::new(alloc);
        for field in fields {
            table.add(field)?;
        }
        Ok(table)
    }

    /// The field of a name.
    pub fn get(&self, name: &Name) -> Option<&'a Field>
        ensures { option_map (λ field. field.now) result ≡ field_in self.now name.now }
    {
        self.fields.get(name.as_bytes()).copied()
    }

    /// Adds a field, if none of its name is there.
    fn add(&mut self, field: &'a Field) -> Result<(), AllocError>
        ensures { OnOk result (field_in self.new ≡ (λ name. option_or (field_in self.old name) (if bytes_eq field.now.name name then Some field.now else None))) }
    {
        if self.get(&field.name).is_some() {
            return Ok(());
        }
        self.fields.insert(field.name.as_bytes(), field)?;
        Ok(())
    }
}
