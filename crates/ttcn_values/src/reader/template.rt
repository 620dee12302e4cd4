//! What stands where a template of a type is wanted (ES 201 873-1, section 15): the steps in which it is built. Its
//! expressions are evaluated where the steps are written down, and the templates that it names are built later.
ghost use Rattle.std.specs.Prelude.{◌≡◌, None, Some, map};
ghost use Rattle.std.specs.Option.{option_map};
ghost use Rattle.ttcn_syntax.specs.declared.tree.expression.Expr.{out-Expr};
ghost use Rattle.check_rules.specs.Templates.{bare_name};
ghost use Rattle.check_scope.specs.Names.{fields_at};
ghost use Rattle.ttcn_values.specs.internal.Building.{Plans, alone};
ghost use Rattle.ttcn_values.specs.internal.Readers.{KnowsConstants, read_by};
ghost use Rattle.value_types.specs.Literals.{wanted_record};
ghost use Rattle.value_types.specs.Outcomes.{Gives, GivesBy, Yields, outcome_map};
ghost use Rattle.value_types.specs.Readings.{Reading};
ghost use Rattle.value_types.specs.Templates as spec;
ghost use Rattle.value_types.specs.declared.template.Pattern.TheVariants as pattern;

use super::value::wanted_record;
use super::{Reader, Step};
use crate::named::first_of;
use crate::{Fault, Pattern, Value};
use check_rules::{DataType, Meaning};
use std::alloc::Global;
use ttcn_syntax::{
    Bound, ComponentRef, Expr, Field, FieldTemplate, Name, Parameter, Seq, Template as Written,
    TemplateBody, Value as WrittenValue,
};

/// The name that an expression is and nothing more.
fn bare_name(expr: &Expr) -> Option<&Name>
    ensures { option_map (λ name. name.now) result ≡ bare_name (out-Expr expr.now) }
{
    match expr {
        Expr::Reference(ComponentRef::Named(reference)) if reference.fields.len() == 0 => {
            Some(&reference.name)
        }
        _ => None,
    }
}

impl Reader<'_> {
    /// The template that a name stands for.
    fn template_of_name(&self, name: &Name) -> Option<usize>
        ensures { result ≡ spec.template_of_name (read_by self.now) (Some name.now) }
    {
        match self.frame.definitions.meaning(name.as_bytes()) {
            Some(Meaning::Template(at)) => Some(at),
            _ => None,
        }
    }

    /// The template that an expression names without arguments.
    fn template_named(&self, expr: &Expr) -> Option<usize>
        ensures { result ≡ spec.template_named (read_by self.now) expr.now }
    {
        self.template_of_name(bare_name(expr)?)
    }

    /// What an end of a range gives.
    #[tactic(auto, using(value_types::proofs::Outcomes::outcome_forms))]
    fn bound(&self, alloc: Global, bound: &Bound) -> Result<Option<i64>, Fault>
        requires { KnowsConstants self.now }
        ensures { Gives (spec.value_of_bound (read_by self.now) bound.now) result }
    {
        let Bound::Expr(expr) = bound else {
            return Ok(None);
        };
        let value = self.evaluate(alloc, expr)?;
        match &value {
            Value::Integer(number) => Ok(Some(*number)),
            _ => Err(Fault::Dynamic),
        }
    }

    /// What a range gives.
    #[tactic(auto, using(value_types::proofs::Outcomes::outcome_forms))]
    fn range(&self, alloc: Global, low: &Bound, high: &Bound) -> Result<Pattern, Fault>
        requires { KnowsConstants self.now }
        ensures { GivesBy spec.plain (spec.template_of_range (read_by self.now) low.now high.now) result }
    {
        let low = self.bound(alloc, low)?;
        let high = self.bound(alloc, high)?;
        Ok(Pattern::Range(low, high))
    }

    /// What an expression gives that names no template.
    #[tactic(auto, using(value_types::proofs::Outcomes::outcome_forms))]
    fn pattern(&self, alloc: Global, expr: &Expr) -> Result<Pattern, Fault>
        requires { KnowsConstants self.now }
        ensures { GivesBy spec.plain (spec.template_of_expression (read_by self.now) expr.now None) result }
    {
        let value = self.evaluate(alloc, expr)?;
        if value.is_complete() {
            Ok(Pattern::Value(value))
        } else {
            Err(Fault::Dynamic)
        }
    }

    /// What arguments give for parameters.
    pub(crate) fn arguments(
        &self,
        alloc: Global,
        parameters: &[Parameter],
        given: &[WrittenValue],
    ) -> Result<Vec<Value>, Fault>
        requires { KnowsConstants self.now }
        ensures { GivesBy (λ values. values.items) (spec.arguments (read_by self.now) parameters.now given.now) result }
    {
        if given.len() != parameters.len() {
            return Err(Fault::Dynamic);
        }
        let mut values = Vec::with_capacity(alloc, given.len())?;
        for (at, parameter) in parameters.iter().enumerate() {
            let wanted = self.frame.definitions.resolved(&parameter.type_name);
            values.push(self.value(alloc, &given[at], wanted)?)?;
        }
        Ok(values)
    }

    /// The template at a position, called with arguments.
    fn plan_call(
        &self,
        alloc: Global,
        at: Option<usize>,
        given: &[WrittenValue],
        steps: &mut Vec<Step>,
    ) -> Result<(), Fault>
        requires { KnowsConstants self.now }
        ensures { Plans (read_by self.now) (outcome_map alone (spec.template_called (read_by self.now) at given.now)) steps.old.items steps.new.items result }
    {
        let Some(at) = at else {
            return Err(Fault::Dynamic);
        };
        let Some(template) = self.frame.definitions.template(at) else {
            return Err(Fault::Dynamic);
        };
        let values = self.arguments(alloc, template.parameters.as_slice(), given)?;
        steps.push(Step::Call(at, Seq::from_vec(values)))?;
        Ok(())
    }

    /// A range.
    fn plan_range(
        &self,
        alloc: Global,
        low: &Bound,
        high: &Bound,
        steps: &mut Vec<Step>,
    ) -> Result<(), Fault>
        requires { KnowsConstants self.now }
        ensures { Plans (read_by self.now) (outcome_map alone (spec.template_of_range (read_by self.now) low.now high.now)) steps.old.items steps.new.items result }
    {
        let range = self.range(alloc, low, high)?;
        steps.push(Step::Plain(range))?;
        Ok(())
    }

    /// An expression, or the name of a template.
    fn plan_expression(
        &self,
        alloc: Global,
        expr: &Expr,
        steps: &mut Vec<Step>,
    ) -> Result<(), Fault>
        requires { KnowsConstants self.now }
        ensures { Plans (read_by self.now) (outcome_map alone (spec.template_of_expression (read_by self.now) expr.now (spec.template_named (read_by self.now) expr.now))) steps.old.items steps.new.items result }
    {
        let named = self.template_named(expr);
        if named.is_some() {
            return self.plan_call(alloc, named, &[], steps);
        }
        let pattern = self.pattern(alloc, expr)?;
        steps.push(Step::Plain(pattern))?;
        Ok(())
    }

    /// The template of what stands where one of a type is wanted.
    #[cycle(templates)]
    pub(super) fn plan(
        &self,
        alloc: Global,
        template: &Written,
        wanted: Option<DataType>,
        steps: &mut Vec<Step>,
    ) -> Result<(), Fault>
        requires { KnowsConstants self.now }
        ensures { Plans (read_by self.now) (outcome_map alone (spec.template_wanted template.now (read_by self.now) wanted)) steps.old.items steps.new.items result }
    {
        self.plan_body(alloc, &template.body, wanted, steps)?;
        if template.ifpresent {
            steps.push(Step::Ifpresent)?;
        }
        Ok(())
    }

    /// The template of what stands where one of a type is wanted, without its `ifpresent`.
    #[cycle(templates)]
    fn plan_body(
        &self,
        alloc: Global,
        body: &TemplateBody,
        wanted: Option<DataType>,
        steps: &mut Vec<Step>,
    ) -> Result<(), Fault>
        requires { KnowsConstants self.now }
        ensures { Plans (read_by self.now) (outcome_map alone (spec.body_wanted body.now (read_by self.now) wanted)) steps.old.items steps.new.items result }
    {
        match body {
            TemplateBody::Any => put(Pattern::Any, steps),
            TemplateBody::AnyOrOmit => put(Pattern::AnyOrOmit, steps),
            TemplateBody::Omit => put(Pattern::Omit, steps),
            TemplateBody::Complement(parts) => {
                self.plan_complement(alloc, parts.as_slice(), wanted, steps)
            }
            TemplateBody::List(parts) => self.plan_list(alloc, parts.as_slice(), wanted, steps),
            TemplateBody::Range(low, high) => self.plan_range(alloc, low, high, steps),
            TemplateBody::Call(call) => {
                let named = self.template_of_name(&call.name);
                self.plan_call(alloc, named, call.arguments.as_slice(), steps)
            }
            TemplateBody::Expr(expr) => self.plan_expression(alloc, expr, steps),
            TemplateBody::Listed(parts) => {
                self.plan_in_order(alloc, wanted, parts.as_slice(), steps)
            }
            TemplateBody::Assigned(parts) => {
                self.plan_by_name(alloc, wanted, parts.as_slice(), steps)
            }
        }
    }

    /// The values that parts don't match.
    #[cycle(templates)]
    fn plan_complement(
        &self,
        alloc: Global,
        parts: &[Written],
        wanted: Option<DataType>,
        steps: &mut Vec<Step>,
    ) -> Result<(), Fault>
        requires { KnowsConstants self.now }
        ensures { Plans (read_by self.now) (outcome_map (λ ps. alone (spec.plain (pattern.Complement ps))) (spec.parts_of (read_by self.now) wanted (map spec.template_wanted parts.now))) steps.old.items steps.new.items result }
    {
        self.plan_parts(alloc, parts, wanted, steps)?;
        steps.push(Step::Complement(parts.len()))?;
        Ok(())
    }

    /// The values that one of the parts matches.
    #[cycle(templates)]
    fn plan_list(
        &self,
        alloc: Global,
        parts: &[Written],
        wanted: Option<DataType>,
        steps: &mut Vec<Step>,
    ) -> Result<(), Fault>
        requires { KnowsConstants self.now }
        ensures { Plans (read_by self.now) (outcome_map (λ ps. alone (spec.plain (pattern.List ps))) (spec.parts_of (read_by self.now) wanted (map spec.template_wanted parts.now))) steps.old.items steps.new.items result }
    {
        self.plan_parts(alloc, parts, wanted, steps)?;
        steps.push(Step::List(parts.len()))?;
        Ok(())
    }

    /// The templates of parts that stand for the same.
    #[cycle(templates)]
    fn plan_parts(
        &self,
        alloc: Global,
        parts: &[Written],
        wanted: Option<DataType>,
        steps: &mut Vec<Step>,
    ) -> Result<(), Fault>
        requires { KnowsConstants self.now }
        ensures { Plans (read_by self.now) (spec.parts_of (read_by self.now) wanted (map spec.template_wanted parts.now)) steps.old.items steps.new.items result }
    {
        for part in parts {
            self.plan(alloc, part, wanted, steps)?;
        }
        Ok(())
    }

    /// A record by the order of its fields.
    #[cycle(templates)]
    fn plan_in_order(
        &self,
        alloc: Global,
        wanted: Option<DataType>,
        elements: &[Written],
        steps: &mut Vec<Step>,
    ) -> Result<(), Fault>
        requires { KnowsConstants self.now }
        ensures { Plans (read_by self.now) (outcome_map alone (spec.record_at (wanted_record wanted) (λ at. spec.in_order (read_by self.now) (fields_at (read_by self.now).definitions at) (map spec.template_wanted elements.now)))) steps.old.items steps.new.items result }
    {
        let at = wanted_record(wanted)?;
        let fields = self.frame.definitions.fields(at);
        self.plan_elements(alloc, fields, elements, steps)?;
        steps.push(Step::Record(at, fields.len()))?;
        Ok(())
    }

    /// The elements of a record template by the order of the fields.
    #[cycle(templates)]
    fn plan_elements(
        &self,
        alloc: Global,
        fields: &[Field],
        elements: &[Written],
        steps: &mut Vec<Step>,
    ) -> Result<(), Fault>
        requires { KnowsConstants self.now }
        ensures { Plans (read_by self.now) (spec.in_order (read_by self.now) fields.now (map spec.template_wanted elements.now)) steps.old.items steps.new.items result }
    {
        if elements.len() != fields.len() {
            return Err(Fault::Dynamic);
        }
        for (at, field) in fields.iter().enumerate() {
            let wanted = self.frame.definitions.resolved(&field.type_name);
            self.plan(alloc, &elements[at], wanted, steps)?;
        }
        Ok(())
    }

    /// A record by the names of its fields.
    #[cycle(templates)]
    fn plan_by_name(
        &self,
        alloc: Global,
        wanted: Option<DataType>,
        elements: &[FieldTemplate],
        steps: &mut Vec<Step>,
    ) -> Result<(), Fault>
        requires { KnowsConstants self.now }
        ensures { Plans (read_by self.now) (outcome_map alone (spec.record_at (wanted_record wanted) (λ at. spec.by_name (read_by self.now) (fields_at (read_by self.now).definitions at) (map spec.field_template elements.now)))) steps.old.items steps.new.items result }
    {
        let at = wanted_record(wanted)?;
        let fields = self.frame.definitions.fields(at);
        self.plan_named(alloc, fields, elements, steps)?;
        steps.push(Step::Record(at, fields.len()))?;
        Ok(())
    }

    /// The elements of a record template by the names of the fields.
    #[cycle(templates)]
    fn plan_named(
        &self,
        alloc: Global,
        fields: &[Field],
        elements: &[FieldTemplate],
        steps: &mut Vec<Step>,
    ) -> Result<(), Fault>
        requires { KnowsConstants self.now }
        ensures { Plans (read_by self.now) (spec.by_name (read_by self.now) fields.now (map spec.field_template elements.now)) steps.old.items steps.new.items result }
    {
        for field in fields {
            let Some(element) = first_of(elements, &field.name) else {
                return Err(Fault::Dynamic);
            };
            let wanted = self.frame.definitions.resolved(&field.type_name);
            self.plan(alloc, &element.template, wanted, steps)?;
        }
        Ok(())
    }
}

/// A template that names no others.
fn put(pattern: Pattern, steps: &mut Vec<Step>) -> Result<(), Fault>
    ensures { (reading : Reading) → Plans reading (Yields (alone (spec.plain pattern))) steps.old.items steps.new.items result }
{
    steps.push(Step::Plain(pattern))?;
    Ok(())
}
