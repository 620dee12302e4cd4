//! The rules that templates break, at what they are matched with (ES 201 873-1, 15).
ghost use Rattle.std.specs.Prelude.{◌≡◌, ℕ, List, [], map, IfOk, bytes_eq};
ghost use Rattle.std.specs.List.{list_all, list_any};
ghost use Rattle.std.specs.Option.{option_map};
ghost use Rattle.ttcn_syntax.specs.declared.tree.expression.Expr.{out-Expr};
ghost use Rattle.ttcn_syntax.specs.declared.tree.template.FieldTemplate.{out-FieldTemplate};
ghost use Rattle.check_scope.specs.internal.Checking.{least, view};
ghost use Rattle.check_scope.specs.internal.Tables.{has};
ghost use Rattle.check_rules.specs.Templates as spec;
ghost use Rattle.check_rules.specs.Values.{by_name, in_order, wanted_fields};

use crate::call::{check_arguments, lone_arguments, template_type};
use crate::expression::expression;
use crate::value::{
    check_braces, check_expression, check_field_name, check_number, first_target, next_fields,
    target_named, wanted_fields,
};
use check_rules::{parameters_of, template_meant};
use check_scope::broken::Broken;
use check_scope::name_set::NameSet;
use check_scope::rule::Rule;
use check_scope::scope::Scope;
use check_scope::types::{DataType, Target, Typing};
use std::alloc::{AllocError, Global};
use ttcn_syntax::{
    Bound, ComponentRef, Expr, Field, FieldTemplate, Name, Template, TemplateBody, Value,
};

// ---- named templates

/// The name that an expression is and nothing more.
fn bare_name(expr: &Expr) -> Option<&Name>
    ensures { option_map (λ name. name.now) result ≡ spec.bare_name (out-Expr expr.now) }
{
    match expr {
        Expr::Reference(ComponentRef::Named(reference)) => {
            if reference.fields.as_slice().is_empty() {
                Some(&reference.name)
            } else {
                None
            }
        }
        _ => None,
    }
}

/// The position of the template that an expression names without arguments.
fn template_named(scope: &Scope<'_>, expr: &Expr) -> Option<usize>
    ensures { result ≡ spec.template_named (view scope.now) expr.now }
{
    match bare_name(expr) {
        Some(name) => template_meant(scope.get(name.as_bytes())),
        None => None,
    }
}

fn type_of_template(scope: &Scope<'_>, at: usize) -> Option<DataType>
    ensures { result ≡ spec.type_of_template (view scope.now) at }
{
    template_type(scope, scope.kind(at))
}

/// A template with arguments, where a template of a type is wanted.
#[tactic(auto, using(check_rules::proofs::Findings::least_append))]
fn check_template(
    alloc: Global,
    scope: &Scope<'_>,
    target: Target,
    given: &[Value],
    at: Option<usize>,
) -> Result<Broken, AllocError>
    ensures { IfOk result (λ broken. broken ≡ least (spec.check_named_template (view scope.now) target given.now at)) }
{
    let Some(at) = at else {
        let given = lone_arguments(alloc, scope, given)?;
        return Ok(Broken::of(Rule::UnknownName).and(given));
    };
    let given = check_arguments(alloc, scope, parameters_of(scope.kind(at)), given)?;
    let typing = Typing::of(type_of_template(scope, at));
    let fits = typing.fits(target.data_type);
    Ok(given.and(Broken::unless(fits, Rule::ValueType)))
}

/// An expression, or the name of a template.
fn check_name(
    alloc: Global,
    scope: &Scope<'_>,
    target: Target,
    expr: &Expr,
    at: Option<usize>,
) -> Result<Broken, AllocError>
    ensures { IfOk result (λ broken. broken ≡ least (spec.check_name (view scope.now) target expr.now at)) }
{
    match at {
        Some(_) => check_template(alloc, scope, target, &[], at),
        None => Ok(check_expression(scope, target.data_type, expr)),
    }
}

// ---- ranges

fn check_bound(scope: &Scope<'_>, bound: &Bound) -> Broken
    ensures { result ≡ least (spec.check_bound (view scope.now) bound.now) }
{
    match bound {
        Bound::Expr(expr) => check_expression(scope, Some(DataType::Integer), expr),
        Bound::Infinity => Broken::nothing(),
    }
}

/// A range, where integers are wanted.
#[tactic(auto, using(check_rules::proofs::Findings::least_append))]
fn check_range(scope: &Scope<'_>, target: Target, low: &Bound, high: &Bound) -> Broken
    ensures { result ≡ least (spec.check_range (view scope.now) target low.now high.now) }
{
    let fits = Typing::Known(DataType::Integer).fits(target.data_type);
    let range = Broken::unless(fits, Rule::ValueType);
    range
        .and(check_bound(scope, low))
        .and(check_bound(scope, high))
}

// ---- the type of a template by itself

fn typing_at_name(scope: &Scope<'_>, expr: &Expr, at: Option<usize>) -> Typing
    ensures { result ≡ spec.typing_at_name (view scope.now) expr.now at }
{
    match at {
        Some(at) => Typing::of(type_of_template(scope, at)),
        None => expression(scope, expr, false).typing,
    }
}

fn typing_by_position(scope: &Scope<'_>, at: Option<usize>) -> Typing
    ensures { result ≡ spec.typing_by_position (view scope.now) at }
{
    match at {
        Some(at) => Typing::of(type_of_template(scope, at)),
        None => Typing::Unknown,
    }
}

/// What is known of the type of a template by itself, where it says something.
pub fn typing_of_template(scope: &Scope<'_>, template: &Template) -> Option<Typing>
    ensures { result ≡ spec.typing_of_template (view scope.now) template.now }
{
    match &template.body {
        TemplateBody::Expr(expr) => {
            Some(typing_at_name(scope, expr, template_named(scope, expr)))
        }
        TemplateBody::Call(call) => {
            let meant = template_meant(scope.get(call.name.as_bytes()));
            Some(typing_by_position(scope, meant))
        }
        _ => None,
    }
}

// ---- templates

/// The names of elements.
fn names_of<'a>(alloc: Global, parts: &'a [FieldTemplate]) -> Result<NameSet<'a>, AllocError>
    ensures { IfOk result (λ names. (name : List ℕ) → has names name ≡ list_any (bytes_eq name) (map (λ part. (out-FieldTemplate part).name) parts.now)) }
{
    let mut names = NameSet::new(alloc);
    for part in parts {
        names.insert(part.name.as_bytes())?;
    }
    Ok(names)
}

/// Whether the name of each field was met.
fn has_each(names: &NameSet<'_>, fields: &[Field]) -> bool
    ensures { result ≡ list_all (λ field. has names.now field.name) fields.now }
{
    fields
        .iter()
        .all(|field| names.contains(field.name.as_bytes()))
}

/// Whether each field has an element. It isn't judged where the fields aren't known.
fn has_all(
    alloc: Global,
    fields: Option<&[Field]>,
    parts: &[FieldTemplate],
) -> Result<bool, AllocError>
    ensures { IfOk result (λ all. all ≡ spec.has_all (option_map (λ fields. fields.now) fields.entry) (map (λ part. (out-FieldTemplate part).name) parts.now)) }
{
    let Some(fields) = fields else {
        return Ok(true);
    };
    let names = names_of(alloc, parts)?;
    Ok(has_each(&names, fields))
}

/// The least rule that a template breaks.
#[cycle(template)]
#[tactic(auto, using(check_rules::proofs::TemplateForms::template_forms))]
pub fn template(
    alloc: Global,
    scope: &Scope<'_>,
    template: &Template,
    target: Target,
) -> Result<Broken, AllocError>
    ensures { IfOk result (λ broken. broken ≡ least (spec.template template.now (view scope.now) target)) }
{
    let body = check_body(alloc, scope, &template.body, target)?;
    let may_be_left_out = !template.ifpresent || target.optional;
    Ok(body.and(Broken::unless(may_be_left_out, Rule::Fields)))
}

/// The least rule that the body of a template breaks, `ifpresent` left aside.
#[cycle(template)]
#[tactic(auto, using(check_rules::proofs::TemplateForms::template_forms))]
fn check_body(
    alloc: Global,
    scope: &Scope<'_>,
    body: &TemplateBody,
    target: Target,
) -> Result<Broken, AllocError>
    ensures { IfOk result (λ broken. broken ≡ least (spec.body body.now (view scope.now) target)) }
{
    match body {
        TemplateBody::Any => Ok(Broken::nothing()),
        TemplateBody::AnyOrOmit | TemplateBody::Omit => {
            Ok(Broken::unless(target.optional, Rule::Fields))
        }
        TemplateBody::Complement(parts) | TemplateBody::List(parts) => {
            each(alloc, scope, parts.as_slice(), target)
        }
        TemplateBody::Range(low, high) => Ok(check_range(scope, target, low, high)),
        TemplateBody::Call(call) => {
            let meant = template_meant(scope.get(call.name.as_bytes()));
            check_template(alloc, scope, target, call.arguments.as_slice(), meant)
        }
        TemplateBody::Expr(expr) => {
            check_name(alloc, scope, target, expr, template_named(scope, expr))
        }
        TemplateBody::Listed(parts) => {
            let fields = wanted_fields(scope, target.data_type);
            let whole = check_braces(target.data_type).and(check_number(fields, parts.len()));
            let parts = in_order(alloc, scope, fields, parts.as_slice())?;
            Ok(whole.and(parts))
        }
        TemplateBody::Assigned(parts) => {
            let fields = wanted_fields(scope, target.data_type);
            let all = has_all(alloc, fields, parts.as_slice())?;
            let whole = check_braces(target.data_type).and(Broken::unless(all, Rule::Fields));
            let parts = by_name(alloc, scope, target.data_type, parts.as_slice())?;
            Ok(whole.and(parts))
        }
    }
}

/// Templates that stand for the same target.
#[cycle(template)]
fn each(
    alloc: Global,
    scope: &Scope<'_>,
    parts: &[Template],
    target: Target,
) -> Result<Broken, AllocError>
    ensures { IfOk result (λ broken. broken ≡ least (spec.each (map spec.template parts.now) (view scope.now) target)) }
{
    let mut broken = Broken::nothing();
    for part in parts {
        broken = broken.and(template(alloc, scope, part, target)?);
    }
    Ok(broken)
}

/// The elements of a record template by the order of the fields.
#[cycle(template)]
fn in_order(
    alloc: Global,
    scope: &Scope<'_>,
    fields: Option<&[Field]>,
    elements: &[Template],
) -> Result<Broken, AllocError>
    ensures { IfOk result (λ broken. broken ≡ least (in_order (option_map (λ fields. fields.now) fields.entry) (map spec.template elements.now) (view scope.now))) }
{
    let mut broken = Broken::nothing();
    let mut left = fields;
    for element in elements {
        let part = template(alloc, scope, element, first_target(scope, left))?;
        broken = broken.and(part);
        left = next_fields(left);
    }
    Ok(broken)
}

/// The elements of a record template by the names of the fields. Each name is that of a field, and of no other element.
#[cycle(template)]
fn by_name(
    alloc: Global,
    scope: &Scope<'_>,
    wanted: Option<DataType>,
    elements: &[FieldTemplate],
) -> Result<Broken, AllocError>
    ensures { IfOk result (λ broken. broken ≡ least (by_name (wanted_fields (view scope.now).definitions wanted) [] (map spec.field_template elements.now) (view scope.now))) }
{
    let mut broken = Broken::nothing();
    let mut names = NameSet::new(alloc);
    for element in elements {
        let is_new = names.insert(element.name.as_bytes())?;
        let named = check_field_name(scope, wanted, &element.name, is_new);
        let target = target_named(scope, wanted, &element.name);
        let part = template(alloc, scope, &element.template, target)?;
        broken = broken.and(named).and(part);
    }
    Ok(broken)
}
