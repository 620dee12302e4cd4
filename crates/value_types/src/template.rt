//! Templates whose expressions have been evaluated (ES 201 873-1, section 15).
ghost use Rattle.std.specs.Prelude.{◌≡◌, IfOk, map};
ghost use Rattle.value_types.specs.Matching.{all_fields, specific_value, specific_value_of_pattern};
ghost use Rattle.value_types.specs.Outcomes.{Gives};

use crate::{Fault, Value};
use std::alloc::{AllocError, Global};
use ttcn_syntax::Seq;

/// A template: its pattern, and whether it matches an omitted field too.
#[cycle(template)]
#[derive(Debug, Drop, PartialEq, Eq)]
pub struct Template {
    pub pattern: Pattern,
    pub ifpresent: bool,
}

/// What a template matches.
#[cycle(template)]
#[derive(Debug, PartialEq, Eq)]
pub enum Pattern {
    Value(Value),
    /// `?`
    Any,
    /// `*`
    AnyOrOmit,
    Omit,
    Complement(Seq<Template>),
    List(Seq<Template>),
    /// The least and the greatest number, where there is one.
    Range(Option<i64>, Option<i64>),
    /// The record, and the templates of its fields in order.
    Record(usize, Seq<Template>),
}

impl Drop for Pattern {
    #[cycle(drop_pattern)]
    fn drop(self) {
        match self {
            Pattern::Value(_value) => {}
            Pattern::Any => {}
            Pattern::AnyOrOmit => {}
            Pattern::Omit => {}
            Pattern::Complement(_parts) => {}
            Pattern::List(_parts) => {}
            Pattern::Range(_low, _high) => {}
            Pattern::Record(_at, _parts) => {}
        }
    }
}

impl Template {
    /// A copy in memory of its own.
    #[cycle(copies)]
    pub fn try_clone(&self, alloc: Global) -> Result<Template, AllocError>
        ensures { IfOk result (λ copy. copy ≡ self.now) }
    {
        Ok(Template {
            pattern: self.pattern.try_clone(alloc)?,
            ifpresent: self.ifpresent,
        })
    }

    /// The value that is sent. What matches more than one value stands for none: sending it is a dynamic error.
    #[cycle(sending)]
    pub fn specific_value(&self, alloc: Global) -> Result<Value, Fault>
        ensures { Gives (specific_value self.now) result }
    {
        if self.ifpresent {
            Err(Fault::Dynamic)
        } else {
            self.pattern.specific_value(alloc)
        }
    }
}

impl Pattern {
    /// A copy in memory of its own.
    #[cycle(copies)]
    pub fn try_clone(&self, alloc: Global) -> Result<Pattern, AllocError>
        ensures { IfOk result (λ copy. copy ≡ self.now) }
    {
        Ok(match self {
            Pattern::Value(value) => Pattern::Value(value.try_clone(alloc)?),
            Pattern::Any => Pattern::Any,
            Pattern::AnyOrOmit => Pattern::AnyOrOmit,
            Pattern::Omit => Pattern::Omit,
            Pattern::Complement(parts) => Pattern::Complement(copies(alloc, parts.as_slice())?),
            Pattern::List(parts) => Pattern::List(copies(alloc, parts.as_slice())?),
            Pattern::Range(low, high) => Pattern::Range(*low, *high),
            Pattern::Record(at, parts) => Pattern::Record(*at, copies(alloc, parts.as_slice())?),
        })
    }

    /// The value that is sent, as of a template that is not `ifpresent`.
    #[cycle(sending)]
    fn specific_value(&self, alloc: Global) -> Result<Value, Fault>
        ensures { Gives (specific_value_of_pattern self.now) result }
    {
        match self {
            Pattern::Value(value) => Ok(value.try_clone(alloc)?),
            Pattern::Omit => Ok(Value::Omit),
            Pattern::Record(at, parts) => {
                Ok(Value::Record(*at, specific_fields(alloc, parts.as_slice())?))
            }
            _ => Err(Fault::Dynamic),
        }
    }
}

#[cycle(copies)]
fn copies(alloc: Global, parts: &[Template]) -> Result<Seq<Template>, AllocError>
    ensures { IfOk result (λ copies. copies ≡ parts.now) }
{
    let mut copies = Vec::with_capacity(alloc, parts.len())?;
    for part in parts {
        copies.push(part.try_clone(alloc)?)?;
    }
    Ok(Seq::from_vec(copies))
}

/// The fields of the record that is sent, where each of its templates stands for a value.
#[cycle(sending)]
fn specific_fields(alloc: Global, parts: &[Template]) -> Result<Seq<Option<Value>>, Fault>
    ensures { Gives (all_fields (map specific_value parts.now)) result }
{
    let mut fields = Vec::with_capacity(alloc, parts.len())?;
    for part in parts {
        fields.push(Some(part.specific_value(alloc)?))?;
    }
    Ok(Seq::from_vec(fields))
}
