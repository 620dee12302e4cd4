//! Templates (ES 201 873-1, 15): how those are written that were evaluated, and why one of the text is a dynamic error.
use crate::names::{Names, write_name};
use crate::outcome::fails;
use crate::sight::Sight;
use check_rules::Meaning;
use std::alloc::{AllocError, Global};
use std::fmt::Write;
use ttcn_syntax::{
    Bound, Call, ComponentRef, Expr, FieldTemplate, Name, Template as Written, TemplateBody,
};
use ttcn_values::eval_template;
use value_types::{Pattern, Template};

impl<'a> Names<'a> {
    /// Writes an end of a range.
    fn write_bound(
        &self,
        out: &mut String,
        bound: Option<i64>,
        otherwise: &str,
    ) -> Result<(), AllocError> {
        match bound {
            Some(number) => write!(out, "{number}"),
            None => out.push_str(otherwise),
        }
    }

    /// Writes templates between two brackets.
    #[cycle(patterns)]
    fn write_parts(
        &self,
        out: &mut String,
        open: &str,
        parts: &[Template],
        close: &str,
    ) -> Result<(), AllocError> {
        out.push_str(open)?;
        for (at, part) in parts.iter().enumerate() {
            if at > 0 {
                out.push_str(", ")?;
            }
            self.write_template(out, part)?;
        }
        out.push_str(close)
    }

    /// Writes a template as it is written in a module.
    #[cycle(patterns)]
    pub fn write_template(&self, out: &mut String, template: &Template) -> Result<(), AllocError> {
        match &template.pattern {
            Pattern::Value(value) => self.write_value(out, value)?,
            Pattern::Any => out.push_str("?")?,
            Pattern::AnyOrOmit => out.push_str("*")?,
            Pattern::Omit => out.push_str("omit")?,
            Pattern::Complement(parts) => {
                self.write_parts(out, "complement(", parts.as_slice(), ")")?;
            }
            Pattern::List(parts) => self.write_parts(out, "(", parts.as_slice(), ")")?,
            Pattern::Record(_, parts) => self.write_parts(out, "{", parts.as_slice(), "}")?,
            Pattern::Range(low, high) => {
                out.push_str("(")?;
                self.write_bound(out, *low, "-infinity")?;
                out.push_str(" .. ")?;
                self.write_bound(out, *high, "infinity")?;
                out.push_str(")")?;
            }
        }
        if template.ifpresent {
            out.push_str(" ifpresent")?;
        }
        Ok(())
    }
}

/// The name that an expression is and nothing more.
fn bare_name(expr: &Expr) -> Option<&Name> {
    match expr {
        Expr::Reference(ComponentRef::Named(reference)) => {
            if reference.fields.as_slice().is_empty() {
                Some(&reference.name)
            } else {
                None
            }
        }
        _ => None,
    }
}

impl<'a> Sight<'a> {
    /// The position of the template of a name.
    pub(crate) fn template_of(&self, name: &Name) -> Option<usize> {
        match self.frame.definitions.meaning(name.as_bytes()) {
            Some(Meaning::Template(at)) => Some(at),
            _ => None,
        }
    }

    /// The position of the template that an expression names, where it names one.
    pub(crate) fn template_named(&self, expr: &Expr) -> Option<usize> {
        self.template_of(bare_name(expr)?)
    }

    /// Why a template is a dynamic error that another one of the module stands for, and whose arguments have values.
    fn called(
        &self,
        alloc: Global,
        template: &Written,
        name: &Name,
    ) -> Result<Option<String>, AllocError> {
        if !fails(eval_template(alloc, template, None, &self.frame))? {
            return Ok(None);
        }
        let mut text = String::from_str(alloc, "the template ")?;
        write_name(&mut text, name)?;
        text.push_str(" is a dynamic error with these arguments")?;
        Ok(Some(text))
    }

    /// Why the call of a template is a dynamic error.
    fn call_of_template(
        &self,
        alloc: Global,
        template: &Written,
        call: &Call,
    ) -> Result<Option<String>, AllocError> {
        match self.values(alloc, call.arguments.as_slice())? {
            Some(cause) => Ok(Some(cause)),
            None => self.called(alloc, template, &call.name),
        }
    }

    /// Why an expression, or the name of a template, is a dynamic error.
    fn pattern(
        &self,
        alloc: Global,
        template: &Written,
        expr: &Expr,
    ) -> Result<Option<String>, AllocError> {
        if self.template_named(expr).is_some() {
            return match bare_name(expr) {
                Some(name) => self.called(alloc, template, name),
                None => Ok(None),
            };
        }
        if let Some(cause) = self.expression(alloc, expr)? {
            return Ok(Some(cause));
        }
        match self.value(alloc, expr)? {
            Some(value) => {
                if value.is_complete() {
                    return Ok(None);
                }
                Ok(Some(self.lacking(alloc, &value)?))
            }
            None => Ok(None),
        }
    }

    /// Why an end of a range is a dynamic error.
    fn bound(&self, alloc: Global, bound: &Bound) -> Result<Option<String>, AllocError> {
        match bound {
            Bound::Expr(expr) => self.expression(alloc, expr),
            Bound::Infinity => Ok(None),
        }
    }

    /// Why a template is a dynamic error.
    #[cycle(templates)]
    pub(crate) fn template(
        &self,
        alloc: Global,
        template: &Written,
    ) -> Result<Option<String>, AllocError> {
        match &template.body {
            TemplateBody::Any | TemplateBody::AnyOrOmit | TemplateBody::Omit => Ok(None),
            TemplateBody::Complement(parts)
            | TemplateBody::List(parts)
            | TemplateBody::Listed(parts) => self.templates(alloc, parts.as_slice()),
            TemplateBody::Assigned(parts) => self.field_templates(alloc, parts.as_slice()),
            TemplateBody::Range(low, high) => match self.bound(alloc, low)? {
                Some(cause) => Ok(Some(cause)),
                None => self.bound(alloc, high),
            },
            TemplateBody::Call(call) => self.call_of_template(alloc, template, call),
            TemplateBody::Expr(expr) => self.pattern(alloc, template, expr),
        }
    }

    /// Why the first of templates is a dynamic error that is one.
    #[cycle(templates)]
    fn templates(&self, alloc: Global, parts: &[Written]) -> Result<Option<String>, AllocError> {
        for part in parts {
            if let Some(cause) = self.template(alloc, part)? {
                return Ok(Some(cause));
            }
        }
        Ok(None)
    }

    /// Why the first of fields' templates is a dynamic error that is one.
    #[cycle(templates)]
    fn field_templates(
        &self,
        alloc: Global,
        parts: &[FieldTemplate],
    ) -> Result<Option<String>, AllocError> {
        for part in parts {
            if let Some(cause) = self.template(alloc, &part.template)? {
                return Ok(Some(cause));
            }
        }
        Ok(None)
    }
}
