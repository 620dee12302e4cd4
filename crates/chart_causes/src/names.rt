//! The names that a module's definitions and the slots of a machine give.
use crate::value::write_value;
use report::PathText;
use std::alloc::{AllocError, Global};
use std::fmt::Write;
use ttcn_syntax::{Definition, DefinitionKind, Field, Name, Span};
use value_types::{Path, Slot, Value};

/// What gives names: the definitions of the module, and the names of slots.
#[derive(Clone, Copy)]
pub struct Names<'a> {
    pub definitions: &'a [Definition],
    pub slots: &'a [Name],
}

/// Writes a name.
pub fn write_name(out: &mut String, name: &Name) -> Result<(), AllocError> {
    for byte in name.as_bytes() {
        out.push(char::from(*byte))?;
    }
    Ok(())
}

/// The name of a definition, where it has one.
fn name_of(kind: &DefinitionKind) -> Option<&Name> {
    match kind {
        DefinitionKind::Record(definition) => Some(&definition.name),
        DefinitionKind::Enumerated(definition) => Some(&definition.name),
        DefinitionKind::Port(definition) => Some(&definition.name),
        DefinitionKind::Component(definition) => Some(&definition.name),
        DefinitionKind::Constants(_) => None,
        DefinitionKind::Template(definition) => Some(&definition.name),
        DefinitionKind::Function(definition) => Some(&definition.name),
        DefinitionKind::Altstep(definition) => Some(&definition.name),
        DefinitionKind::Testcase(definition) => Some(&definition.name),
    }
}

impl<'a> Names<'a> {
    /// Writes the name of a slot.
    pub fn write_slot(&self, out: &mut String, slot: Slot) -> Result<(), AllocError> {
        match self.slots.get(slot as usize) {
            Some(name) => write_name(out, name),
            None => Ok(()),
        }
    }

    /// Writes the name of the definition at a position.
    pub fn write_definition(&self, out: &mut String, at: usize) -> Result<(), AllocError> {
        let Some(definition) = self.definitions.get(at) else {
            return Ok(());
        };
        match name_of(&definition.kind) {
            Some(name) => write_name(out, name),
            None => Ok(()),
        }
    }

    /// The name of the definition at a position.
    pub fn definition(&self, alloc: Global, at: usize) -> Result<String, AllocError> {
        let mut name = String::new(alloc);
        self.write_definition(&mut name, at)?;
        Ok(name)
    }

    /// The name of a slot.
    pub fn slot(&self, alloc: Global, slot: Slot) -> Result<String, AllocError> {
        let mut name = String::new(alloc);
        self.write_slot(&mut name, slot)?;
        Ok(name)
    }

    /// Writes a value as it is written in a module.
    pub fn write_value(&self, out: &mut String, value: &Value) -> Result<(), AllocError> {
        write_value(out, self.definitions, value)
    }

    /// The position of the definition in which a place lies: a definition reaches to the next one.
    pub fn definition_at(&self, place: Span) -> Option<usize> {
        self.definitions
            .iter()
            .rposition(|definition| definition.place <= place)
    }

    /// The position of the altstep in which a place lies, where it lies in one.
    pub fn altstep_at(&self, place: Span) -> Option<usize> {
        let at = self.definition_at(place)?;
        match &self.definitions.get(at)?.kind {
            DefinitionKind::Altstep(_) => Some(at),
            _ => None,
        }
    }

    /// The fields of the record at a position.
    pub fn fields(&self, at: usize) -> &'a [Field] {
        match self.definitions.get(at) {
            Some(definition) => match &definition.kind {
                DefinitionKind::Record(record) => record.fields.as_slice(),
                _ => &[],
            },
            None => &[],
        }
    }

    /// What stands in the field of a name, where a value is a record that has it.
    pub fn field<'v>(&self, value: &'v Value, name: &Name) -> Option<&'v Option<Value>> {
        let (at, fields) = match value {
            Value::Record(at, fields) => (*at, fields),
            _ => return None,
        };
        let place = self
            .fields(at)
            .iter()
            .position(|field| field.name == *name)?;
        fields.as_slice().get(place)
    }

    /// Writes the name of the field at a place of the record at a position.
    fn write_field(&self, out: &mut String, at: usize, place: usize) -> Result<(), AllocError> {
        match self.fields(at).get(place) {
            Some(field) => write_name(out, &field.name),
            None => Ok(()),
        }
    }

    /// Writes the way to the first field of a record that has no value: `content`, `head.length`.
    pub fn write_gap(&self, out: &mut String, value: &Value) -> Result<(), AllocError> {
        if let Value::Record(at, fields) = value {
            for (place, field) in fields.as_slice().iter().enumerate() {
                match field {
                    None => return self.write_field(out, *at, place),
                    Some(inner) => {
                        if !inner.is_complete() {
                            self.write_field(out, *at, place)?;
                            out.push_str(".")?;
                            return self.write_gap(out, inner);
                        }
                    }
                }
            }
        }
        Ok(())
    }

    /// The slot of a name, where it has one.
    pub fn slot_of(&self, name: &Name) -> Option<Slot> {
        let place = self.slots.iter().position(|slot| *slot == *name)?;
        Slot::try_from(place).ok()
    }
}

/// Writes the name of a component.
pub fn write_path(out: &mut String, path: &Path) -> Result<(), AllocError> {
    write!(out, "{}", PathText(path.numbers.as_slice()))
}
