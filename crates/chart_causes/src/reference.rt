//! Why a name has no value, or a field behind it (ES 201 873-1, 5.2, 6.2.1 and 10).
use crate::names::write_name;
use crate::outcome::given;
use crate::sight::{Sight, not_found};
use check_rules::Meaning;
use std::alloc::{AllocError, Global};
use std::fmt::Write;
use ttcn_syntax::{ComponentRef, Name, Reference};
use ttcn_values::{eval_component_reference, eval_reference, eval_value};
use value_types::{Frame, Value, seen_entry};

/// Writes a reference as it is written in a module: `request.content`.
pub(crate) fn write_reference(out: &mut String, reference: &Reference) -> Result<(), AllocError> {
    write_name(out, &reference.name)?;
    for field in reference.fields.as_slice() {
        out.push_str(".")?;
        write_name(out, field)?;
    }
    Ok(())
}

/// A name with words behind it.
fn said_of(alloc: Global, name: &str, words: &str) -> Result<Option<String>, AllocError> {
    Ok(Some(format!(in alloc; "{name} {words}")?))
}

impl<'a> Sight<'a> {
    /// What constants of the module read: no names of a component.
    fn bare(&self) -> Frame<'a> {
        Frame {
            definitions: self.frame.definitions,
            names: self.frame.names,
            locals: &[],
            members: &[],
            local_timers: &[],
            member_timers: &[],
            running: self.frame.running,
            itself: self.frame.itself,
            mtc: self.frame.mtc,
        }
    }

    /// The value of a constant of the module, where it has one.
    fn constant(&self, alloc: Global, at: usize, item: usize) -> Result<Option<Value>, AllocError> {
        let definitions = self.frame.definitions;
        match definitions.constant(at, item) {
            Some(constant) => {
                let wanted = definitions.constants_type(at);
                given(eval_value(alloc, &constant.value, wanted, &self.bare()))
            }
            None => Ok(None),
        }
    }

    /// The first field behind a value that is omitted or has no value.
    fn along(
        &self,
        alloc: Global,
        name: &Name,
        value: &Value,
        fields: &[Name],
    ) -> Result<Option<String>, AllocError> {
        let mut text = String::new(alloc);
        write_name(&mut text, name)?;
        let mut value = value;
        for field in fields {
            text.push_str(".")?;
            write_name(&mut text, field)?;
            match self.names.field(value, field) {
                Some(Some(Value::Omit)) => return said_of(alloc, text.as_str(), "is omitted"),
                Some(Some(found)) => value = found,
                Some(None) => return said_of(alloc, text.as_str(), "has no value"),
                None => return not_found(alloc),
            }
        }
        not_found(alloc)
    }

    /// Why a reference is a dynamic error that is one.
    fn read(&self, alloc: Global, reference: &Reference) -> Result<Option<String>, AllocError> {
        let mut name = String::new(alloc);
        write_name(&mut name, &reference.name)?;
        let fields = reference.fields.as_slice();
        match self.frame.definitions.meaning(reference.name.as_bytes()) {
            Some(Meaning::ModuleConstant(at, item)) => match self.constant(alloc, at, item)? {
                Some(value) => self.along(alloc, &reference.name, &value, fields),
                None => said_of(alloc, name.as_str(), "is declared by a dynamic error"),
            },
            Some(Meaning::Enumerator(_)) => not_found(alloc),
            _ => match self.local(&reference.name) {
                Some(value) => self.along(alloc, &reference.name, value, fields),
                None => said_of(alloc, name.as_str(), "has no value"),
            },
        }
    }

    /// The value of a name that the module doesn't define.
    fn local(&self, name: &Name) -> Option<&'a Value> {
        seen_entry(
            self.frame.names,
            self.frame.locals,
            self.frame.members,
            name,
        )
    }

    /// Why it is a dynamic error to read a component, or what a name stands for; `null` is no component, which isn't an error
    /// by itself.
    pub(crate) fn component(
        &self,
        alloc: Global,
        component: &ComponentRef,
    ) -> Result<Option<String>, AllocError> {
        let found = given(eval_component_reference(alloc, component, &self.frame))?;
        match (component, &found) {
            (ComponentRef::Named(reference), None) => self.read(alloc, reference),
            (ComponentRef::Named(reference), Some(Value::Null)) => {
                let mut text = String::new(alloc);
                write_reference(&mut text, reference)?;
                text.push_str(" is null")?;
                Ok(Some(text))
            }
            (_, Some(Value::Component(_))) => Ok(None),
            _ => not_found(alloc),
        }
    }

    /// Why it is a dynamic error to ask whether a field is there.
    pub(crate) fn presence(
        &self,
        alloc: Global,
        reference: &Reference,
    ) -> Result<Option<String>, AllocError> {
        self.read(alloc, reference)
    }

    /// A name that the module doesn't define, with its value: `owner is mtc.2`.
    pub(crate) fn reading(
        &self,
        alloc: Global,
        component: &ComponentRef,
    ) -> Result<Option<String>, AllocError> {
        let reference = match component {
            ComponentRef::Named(reference) => reference,
            _ => return Ok(None),
        };
        if self.local(&reference.name).is_none() {
            return Ok(None);
        }
        match given(eval_reference(alloc, reference, &self.frame))? {
            Some(value) => {
                let mut text = String::new(alloc);
                write_reference(&mut text, reference)?;
                text.push_str(" is ")?;
                self.names.write_value(&mut text, &value)?;
                Ok(Some(text))
            }
            None => Ok(None),
        }
    }
}
