//! What stands in constants and templates.
ghost use Rattle.std.specs.Prelude.{◌≡◌, IfOk, OnOk, map};
ghost use Rattle.check_scope.specs.internal.Tables.{said};
ghost use Rattle.check_survey.specs.Things.{add, tally};
ghost use Rattle.ttcn_types.specs.internal.Numbering.{AreNumbers, IsNumbered, NoConstants};

use super::numbers::Numbers;
use check_scope::names::Meaning;
use check_scope::scope::Scope;
use check_scope::table::Table;
use check_survey::Thing;
use std::alloc::{AllocError, Global};
use ttcn_syntax::{ComponentRef, Constant, Expr, FieldValue, Reference, Value};

/// What stands round a constant or a template: the module, and the template's parameters.
#[derive(Drop)]
pub(super) struct Surroundings<'p, 'a> {
    pub(super) scope: &'p Scope<'a>,
    pub(super) numbers: &'p Numbers,
    pub(super) parameters: Table<'a>,
    ghost are_numbers: { AreNumbers numbers.now scope.now.definitions.now },
    ghost no_constants: { NoConstants (said parameters) },
}

impl Surroundings<'_, '_> {
    ghost use Rattle.ttcn_types.specs.internal.Surrounding.{scope_of};
    ghost use Rattle.check_rules.specs.Parts as spec;

    /// What a name stands for.
    pub(super) fn get(&self, name: &[u8]) -> Option<Meaning>
        ensures meaning { result ≡ (scope_of self.now).names name.now }
        ensures has_number { IsNumbered self.now.scope.now.definitions.now result }
    {
        if let Some(meaning) = self.parameters.get(name) {
            return Some(meaning);
        }
        self.scope.in_module(name)
    }

    fn add_meaning(&self, meaning: Option<Meaning>, into: &mut Thing) -> Result<(), AllocError>
        requires { IsNumbered self.now.scope.now.definitions.now meaning }
        ensures { OnOk result (into.new ≡ add into.old (spec.of_meaning (scope_of self.now).definitions meaning)) }
    {
        match meaning {
            Some(Meaning::ModuleConstant(at, item)) => {
                into.add_reference(self.numbers.of_item(at, item))
            }
            _ => {
                into.add_leaf();
                Ok(())
            }
        }
    }

    fn add_reference(&self, reference: &Reference, into: &mut Thing) -> Result<(), AllocError>
        ensures { OnOk result (into.new ≡ add into.old (spec.of_meaning (scope_of self.now).definitions ((scope_of self.now).names reference.now.name))) }
    {
        self.add_meaning(self.get(reference.name.as_bytes()), into)
    }

    fn add_component(&self, component: &ComponentRef, into: &mut Thing) -> Result<(), AllocError>
        ensures { OnOk result (into.new ≡ add into.old (spec.of_component (scope_of self.now) component.now)) }
    {
        match component {
            ComponentRef::Itself | ComponentRef::Mtc => {
                into.add_leaf();
                Ok(())
            }
            ComponentRef::Named(reference) => self.add_reference(reference, into),
        }
    }

    /// The parts of an expression.
    pub(super) fn add_expression(&self, expr: &Expr, into: &mut Thing) -> Result<(), AllocError>
        ensures { OnOk result (into.new ≡ add into.old (spec.expression_parts (scope_of self.now) expr.now)) }
    {
        match expr {
            Expr::Reference(component) | Expr::Running(component) => {
                self.add_component(component, into)
            }
            Expr::Ispresent(reference) => self.add_reference(reference, into),
            Expr::Not(operand) => self.add_expression(operand.get(), into),
            Expr::Signed(_, operand) => self.add_expression(operand.get(), into),
            Expr::Chain(first, links) => {
                self.add_expression(first.get(), into)?;
                for link in links.as_slice() {
                    self.add_expression(&link.operand, into)?;
                }
                Ok(())
            }
            Expr::Int(_) | Expr::Bool(_) | Expr::Null => {
                into.add_leaf();
                Ok(())
            }
        }
    }

    /// The parts of a value.
    #[cycle(value)]
    fn add_value(&self, value: &Value, into: &mut Thing) -> Result<(), AllocError>
        ensures { OnOk result (into.new ≡ add into.old (spec.value_parts (scope_of self.now) value.now)) }
    {
        match value {
            Value::Expr(expr) => self.add_expression(expr, into),
            Value::Omit => {
                into.add_leaf();
                Ok(())
            }
            Value::Listed(elements) => {
                if elements.as_slice().is_empty() {
                    into.add_leaf();
                    return Ok(());
                }
                self.add_values(elements.as_slice(), into)
            }
            Value::Assigned(elements) => {
                if elements.as_slice().is_empty() {
                    into.add_leaf();
                    return Ok(());
                }
                self.add_field_values(elements.as_slice(), into)
            }
        }
    }

    /// The parts of values.
    #[cycle(value)]
    pub(super) fn add_values(&self, values: &[Value], into: &mut Thing) -> Result<(), AllocError>
        ensures { OnOk result (into.new ≡ add into.old (spec.all_of (map (spec.value_parts (scope_of self.now)) values.now))) }
    {
        for value in values {
            self.add_value(value, into)?;
        }
        Ok(())
    }

    #[cycle(value)]
    fn add_field_values(&self, fields: &[FieldValue], into: &mut Thing) -> Result<(), AllocError>
        ensures { OnOk result (into.new ≡ add into.old (spec.all_of (map (spec.field_value_parts (scope_of self.now)) fields.now))) }
    {
        for field in fields {
            self.add_value(&field.value, into)?;
        }
        Ok(())
    }

    /// What a constant is.
    pub(super) fn constant(&self, alloc: Global, constant: &Constant) -> Result<Thing, AllocError>
        ensures { IfOk result (λ thing. thing ≡ tally (spec.constant_parts (scope_of self.now) constant.now)) }
    {
        let mut thing = Thing::empty(alloc);
        self.add_value(&constant.value, &mut thing)?;
        Ok(thing)
    }
}
