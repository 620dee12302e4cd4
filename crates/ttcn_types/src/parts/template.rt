//! What stands in templates.
ghost use Rattle.std.specs.Prelude.{◌≡◌, IfOk, OnOk, map};
ghost use Rattle.check_survey.specs.Things.{add, tally};

use super::surroundings::Surroundings;
use check_rules::template_meant;
use check_survey::Thing;
use std::alloc::{AllocError, Global};
use ttcn_syntax::{Bound, Call, ComponentRef, Expr, FieldTemplate, Template, TemplateBody};

impl Surroundings<'_, '_> {
    ghost use Rattle.ttcn_types.specs.internal.Surrounding.{scope_of};
    ghost use Rattle.check_rules.specs.Parts as spec;
    ghost use Rattle.check_rules.specs.Templates as named;

    /// The template that an expression names without arguments.
    fn template_named(&self, expr: &Expr) -> Option<usize>
        ensures { result ≡ named.template_named (scope_of self.now) expr.now }
    {
        let Expr::Reference(ComponentRef::Named(reference)) = expr else {
            return None;
        };
        if !reference.fields.as_slice().is_empty() {
            return None;
        }
        template_meant(self.get(reference.name.as_bytes()))
    }

    /// A reference to a template, if it is one.
    fn add_named_template(
        &self,
        template: Option<usize>,
        into: &mut Thing,
    ) -> Result<(), AllocError>
        ensures { OnOk result (into.new ≡ add into.old (spec.of_template (scope_of self.now).definitions template)) }
    {
        match template {
            Some(at) => into.add_reference(self.numbers.at(at)),
            None => Ok(()),
        }
    }

    fn add_call(&self, call: &Call, into: &mut Thing) -> Result<(), AllocError>
        ensures { OnOk result (into.new ≡ add into.old (spec.call_parts (scope_of self.now) call.now)) }
    {
        self.add_named_template(template_meant(self.get(call.name.as_bytes())), into)?;
        self.add_values(call.arguments.as_slice(), into)
    }

    /// An expression, or the name of a template.
    fn add_expression_or_name(&self, expr: &Expr, into: &mut Thing) -> Result<(), AllocError>
        ensures { OnOk result (into.new ≡ add into.old (spec.of_name (scope_of self.now) expr.now (named.template_named (scope_of self.now) expr.now))) }
    {
        match self.template_named(expr) {
            Some(at) => into.add_reference(self.numbers.at(at)),
            None => self.add_expression(expr, into),
        }
    }

    fn add_bound(&self, bound: &Bound, into: &mut Thing) -> Result<(), AllocError>
        ensures { OnOk result (into.new ≡ add into.old (spec.of_bound (scope_of self.now) bound.now)) }
    {
        match bound {
            Bound::Expr(expr) => self.add_expression(expr, into),
            Bound::Infinity => {
                into.add_leaf();
                Ok(())
            }
        }
    }

    fn add_range(&self, low: &Bound, high: &Bound, into: &mut Thing) -> Result<(), AllocError>
        ensures { OnOk result (into.new ≡ add into.old (spec.beside (spec.of_bound (scope_of self.now) low.now) (spec.of_bound (scope_of self.now) high.now))) }
    {
        self.add_bound(low, into)?;
        self.add_bound(high, into)
    }

    /// The parts of a template.
    #[cycle(template)]
    fn add_template(&self, template: &Template, into: &mut Thing) -> Result<(), AllocError>
        ensures { OnOk result (into.new ≡ add into.old (spec.template_parts (scope_of self.now) template.now)) }
    {
        match &template.body {
            TemplateBody::Complement(elements) | TemplateBody::List(elements) => {
                self.add_templates(elements.as_slice(), into)
            }
            TemplateBody::Range(low, high) => self.add_range(low, high, into),
            TemplateBody::Call(call) => self.add_call(call, into),
            TemplateBody::Expr(expr) => self.add_expression_or_name(expr, into),
            TemplateBody::Listed(elements) => {
                if elements.as_slice().is_empty() {
                    into.add_leaf();
                    return Ok(());
                }
                self.add_templates(elements.as_slice(), into)
            }
            TemplateBody::Assigned(elements) => {
                if elements.as_slice().is_empty() {
                    into.add_leaf();
                    return Ok(());
                }
                self.add_field_templates(elements.as_slice(), into)
            }
            TemplateBody::Any | TemplateBody::AnyOrOmit | TemplateBody::Omit => {
                into.add_leaf();
                Ok(())
            }
        }
    }

    #[cycle(template)]
    fn add_templates(&self, templates: &[Template], into: &mut Thing) -> Result<(), AllocError>
        ensures { OnOk result (into.new ≡ add into.old (spec.all_of (map (spec.template_parts (scope_of self.now)) templates.now))) }
    {
        for template in templates {
            self.add_template(template, into)?;
        }
        Ok(())
    }

    #[cycle(template)]
    fn add_field_templates(
        &self,
        fields: &[FieldTemplate],
        into: &mut Thing,
    ) -> Result<(), AllocError>
        ensures { OnOk result (into.new ≡ add into.old (spec.all_of (map (spec.field_template_parts (scope_of self.now)) fields.now))) }
    {
        for field in fields {
            self.add_template(&field.template, into)?;
        }
        Ok(())
    }

    /// What a template is.
    pub(super) fn template(&self, alloc: Global, template: &Template) -> Result<Thing, AllocError>
        ensures { IfOk result (λ thing. thing ≡ tally (spec.template_parts (scope_of self.now) template.now)) }
    {
        let mut thing = Thing::empty(alloc);
        self.add_template(template, &mut thing)?;
        Ok(thing)
    }
}
