//! Values (ES 201 873-1, section 6).
ghost use Rattle.std.specs.Prelude.{◌≡◌, IfOk};
ghost use Rattle.value_types.specs.Outcomes.{Gives, or_unmet};
ghost use Rattle.value_types.specs.Values.{component, is_complete, is_omit, record_of};

use crate::{Fault, Path};
use std::alloc::{AllocError, Global};
use ttcn_syntax::Seq;

/// A component that a reference names, and the position of its type among the definitions.
#[derive(Debug, Drop, PartialEq, Eq)]
pub struct ComponentId {
    pub path: Path,
    pub component_type: usize,
}

/// A value, or what stands in its place at an optional field. Types are positions among the module's definitions, and
/// fields and names of enumerations are positions in their types.
#[derive(Debug, PartialEq, Eq)]
pub enum Value {
    /// An integer of 64 bits.
    Integer(i64),
    Boolean(bool),
    /// The enumeration, and the name in it.
    Enumerated(usize, usize),
    /// The record, and its fields in order. A field may have no value.
    Record(usize, Seq<Option<Value>>),
    Component(ComponentId),
    /// An activated default, by the number of the activation.
    Default(u32),
    /// `null`, of a component type or of `default`.
    Null,
    /// `omit`: an optional field that is absent.
    Omit,
}

impl Drop for Value {
    fn drop(self) {
        match self {
            Value::Integer(_integer) => {}
            Value::Boolean(_truth) => {}
            Value::Enumerated(_at, _name) => {}
            Value::Record(_at, _fields) => {}
            Value::Component(_component) => {}
            Value::Default(_activation) => {}
            Value::Null => {}
            Value::Omit => {}
        }
    }
}

impl Value {
    /// Whether a field with this is omitted.
    pub fn is_omit(&self) -> bool
        ensures { result ≡ is_omit self.now }
    {
        matches!(self, Value::Omit)
    }

    /// Whether no field has no value, however deep.
    pub fn is_complete(&self) -> bool
        ensures { result ≡ is_complete self.now }
    {
        match self {
            Value::Record(_, fields) => {
                for field in fields.as_slice() {
                    match field {
                        Some(value) if value.is_complete() => {}
                        _ => return false,
                    }
                }
                true
            }
            _ => true,
        }
    }

    /// The component that the value refers to: `null` refers to none, which is a dynamic error.
    pub fn into_component(self) -> Result<ComponentId, Fault>
        ensures { Gives (component self) result }
    {
        match self {
            Value::Component(id) => Ok(id),
            _ => Err(Fault::Dynamic),
        }
    }

    /// The position of the type of the record that the value is, and its fields in order.
    pub fn into_record(self) -> Result<(usize, Seq<Option<Value>>), Fault>
        ensures { Gives (or_unmet (record_of self)) result }
    {
        match self {
            Value::Record(at, fields) => Ok((at, fields)),
            _ => Err(Fault::Dynamic),
        }
    }

    /// A copy in memory of its own.
    pub fn try_clone(&self, alloc: Global) -> Result<Value, AllocError>
        ensures { IfOk result (λ copy. copy ≡ self.now) }
    {
        Ok(match self {
            Value::Integer(integer) => Value::Integer(*integer),
            Value::Boolean(truth) => Value::Boolean(*truth),
            Value::Enumerated(at, name) => Value::Enumerated(*at, *name),
            Value::Record(at, fields) => {
                let mut copies = Vec::with_capacity(alloc, fields.len())?;
                for field in fields.as_slice() {
                    let copy = match field {
                        Some(value) => Some(value.try_clone(alloc)?),
                        None => None,
                    };
                    copies.push(copy)?;
                }
                Value::Record(*at, Seq::from_vec(copies))
            }
            Value::Component(component) => Value::Component(component.try_clone(alloc)?),
            Value::Default(activation) => Value::Default(*activation),
            Value::Null => Value::Null,
            Value::Omit => Value::Omit,
        })
    }
}

impl ComponentId {
    /// A copy in memory of its own.
    pub fn try_clone(&self, alloc: Global) -> Result<ComponentId, AllocError>
        ensures { IfOk result (λ copy. copy ≡ self.now) }
    {
        Ok(ComponentId {
            path: self.path.try_clone(alloc)?,
            component_type: self.component_type,
        })
    }
}
