//! What stands where a value of a type is wanted (ES 201 873-1, sections 5.4 and 6.2).
ghost use Rattle.std.specs.Prelude.{◌≡◌, map};
ghost use Rattle.ttcn_values.specs.internal.Readers.{KnowsConstants, read_by};
ghost use Rattle.value_types.specs.Literals as spec;
ghost use Rattle.value_types.specs.Outcomes.{Answers, Gives};

use super::Reader;
use super::record::element_of;
use crate::{Fault, Value};
use check_rules::DataType;
use std::alloc::Global;
use ttcn_syntax::{Field, FieldValue, Seq, Value as Written};

/// The position of the record that is wanted.
pub(super) fn wanted_record(wanted: Option<DataType>) -> Result<usize, Fault>
    ensures gives { Gives (spec.wanted_record wanted) result }
    ensures answers { Answers result }
{
    match wanted {
        Some(DataType::Record(at)) => Ok(at),
        _ => Err(Fault::Dynamic),
    }
}

impl Reader<'_> {
    /// The value of what stands where a value of a type is wanted.
    #[cycle(reader)]
    #[tactic(auto, using(crate::proofs::LiteralForms::literal_forms, value_types::proofs::Outcomes::outcome_forms))]
    pub(crate) fn value(
        &self,
        alloc: Global,
        value: &Written,
        wanted: Option<DataType>,
    ) -> Result<Value, Fault>
        requires { KnowsConstants self.now }
        ensures { Gives (spec.value_wanted value.now (read_by self.now) wanted) result }
    {
        match value {
            Written::Expr(expr) => self.evaluate(alloc, expr),
            Written::Omit => Ok(Value::Omit),
            Written::Listed(elements) => {
                let at = wanted_record(wanted)?;
                let fields = self.frame.definitions.fields(at);
                let fields = self.in_order(alloc, fields, elements.as_slice())?;
                Ok(Value::Record(at, fields))
            }
            Written::Assigned(elements) => {
                let at = wanted_record(wanted)?;
                let fields = self.frame.definitions.fields(at);
                let fields = self.by_name(alloc, fields, elements.as_slice())?;
                Ok(Value::Record(at, fields))
            }
        }
    }

    /// The elements of a literal by the order of the fields.
    #[cycle(reader)]
    fn in_order(
        &self,
        alloc: Global,
        fields: &[Field],
        elements: &[Written],
    ) -> Result<Seq<Option<Value>>, Fault>
        requires { KnowsConstants self.now }
        ensures { Gives (spec.in_order (read_by self.now) fields.now (map spec.value_wanted elements.now)) result }
    {
        if elements.len() != fields.len() {
            return Err(Fault::Dynamic);
        }
        let mut values = Vec::with_capacity(alloc, fields.len())?;
        for (at, field) in fields.iter().enumerate() {
            let wanted = self.frame.definitions.resolved(&field.type_name);
            values.push(Some(self.value(alloc, &elements[at], wanted)?))?;
        }
        Ok(Seq::from_vec(values))
    }

    /// The elements of a literal by the names of the fields. A field without an element has no value.
    #[cycle(reader)]
    fn by_name(
        &self,
        alloc: Global,
        fields: &[Field],
        elements: &[FieldValue],
    ) -> Result<Seq<Option<Value>>, Fault>
        requires { KnowsConstants self.now }
        ensures { Gives (spec.by_name (read_by self.now) fields.now (map spec.field_value elements.now)) result }
    {
        let mut values = Vec::with_capacity(alloc, fields.len())?;
        for field in fields {
            values.push(self.element_named(alloc, field, elements)?)?;
        }
        Ok(Seq::from_vec(values))
    }

    /// What the element of a field's name gives for it, if there is one.
    #[cycle(reader)]
    fn element_named(
        &self,
        alloc: Global,
        field: &Field,
        elements: &[FieldValue],
    ) -> Result<Option<Value>, Fault>
        requires { KnowsConstants self.now }
        ensures { Gives (spec.given_by_name (read_by self.now) (map spec.field_value elements.now) field.now) result }
    {
        let Some(element) = element_of(elements, &field.name) else {
            return Ok(None);
        };
        let wanted = self.frame.definitions.resolved(&field.type_name);
        Ok(Some(self.value(alloc, element, wanted)?))
    }
}
