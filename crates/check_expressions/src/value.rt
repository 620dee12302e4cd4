//! The rules that values break, at what they go to (ES 201 873-1, 5.4, 6.2 and 19.1).
ghost use Rattle.std.specs.Prelude.{◌≡◌, ◌&&◌, [], map, IfOk};
ghost use Rattle.std.specs.Option.{option_map};
ghost use Rattle.check_scope.specs.internal.Checking.{least, view};
ghost use Rattle.check_scope.specs.Typings.{unless};
ghost use Rattle.check_rules.specs.Values as spec;
ghost use Rattle.check_scope.specs.declared.rule.Rule.TheVariants as rule;

use crate::expression::expression;
use check_scope::broken::Broken;
use check_scope::name_set::NameSet;
use check_scope::rule::Rule;
use check_scope::scope::Scope;
use check_scope::types::{DataType, Target};
use std::alloc::{AllocError, Global};
use ttcn_syntax::{Expr, Field, FieldValue, Name, Value};

/// What a field of a record takes.
fn field_target(scope: &Scope<'_>, field: &Field) -> Target
    ensures { result ≡ spec.field_target (view scope.now).definitions field.now }
{
    Target {
        data_type: scope.resolved_in_module(&field.type_name),
        optional: field.optional,
    }
}

/// What the first element goes to.
pub(crate) fn first_target(scope: &Scope<'_>, fields: Option<&[Field]>) -> Target
    ensures { result ≡ spec.first_target (view scope.now).definitions (option_map (λ fields. fields.now) fields.entry) }
{
    match fields {
        Some([field, ..]) => field_target(scope, field),
        _ => Target::any(),
    }
}

/// What the element of a name goes to.
pub(crate) fn target_named(scope: &Scope<'_>, wanted: Option<DataType>, name: &Name) -> Target
    ensures { result ≡ spec.target_named (view scope.now).definitions (spec.wanted_fields (view scope.now).definitions wanted) name.now }
{
    let Some(DataType::Record(at)) = wanted else {
        return Target::any();
    };
    match scope.field(at, name) {
        Some(field) => field_target(scope, field),
        None => Target::any(),
    }
}

/// What is known of the fields of what is wanted.
pub(crate) fn wanted_fields<'a>(scope: &Scope<'a>, wanted: Option<DataType>) -> Option<&'a [Field]>
    ensures { option_map (λ fields. fields.now) result ≡ spec.wanted_fields (view scope.now).definitions wanted }
{
    match wanted {
        Some(DataType::Record(at)) => Some(scope.fields(at)),
        _ => None,
    }
}

/// Whether braces may stand where the type is wanted.
fn takes_braces(wanted: Option<DataType>) -> bool
    ensures { result ≡ spec.takes_braces wanted }
{
    matches!(wanted, None | Some(DataType::Record(_)))
}

/// Whether there are as many elements as fields. It isn't judged where the fields aren't known.
fn is_full(fields: Option<&[Field]>, elements: usize) -> bool
    ensures { result ≡ spec.is_full (option_map (λ fields. fields.now) fields.entry) elements }
{
    match fields {
        Some(fields) => elements == fields.len(),
        None => true,
    }
}

/// Braces, where the type is wanted.
pub(crate) fn check_braces(wanted: Option<DataType>) -> Broken
    ensures { result ≡ least (unless (spec.takes_braces wanted) rule.ValueType) }
{
    Broken::unless(takes_braces(wanted), Rule::ValueType)
}

/// The number of elements by the order of the fields.
pub(crate) fn check_number(fields: Option<&[Field]>, elements: usize) -> Broken
    ensures { result ≡ least (unless (spec.is_full (option_map (λ fields. fields.now) fields.entry) elements) rule.Fields) }
{
    Broken::unless(is_full(fields, elements), Rule::Fields)
}

/// Whether the name is that of a field. It isn't judged where the fields aren't known.
fn is_field(scope: &Scope<'_>, wanted: Option<DataType>, name: &Name) -> bool
    ensures { result ≡ spec.is_field (spec.wanted_fields (view scope.now).definitions wanted) name.now }
{
    match wanted {
        Some(DataType::Record(at)) => scope.field(at, name).is_some(),
        _ => true,
    }
}

/// The name of an element, which is that of a field, and a new one.
pub(crate) fn check_field_name(
    scope: &Scope<'_>,
    wanted: Option<DataType>,
    name: &Name,
    is_new: bool,
) -> Broken
    ensures { result ≡ least (unless (spec.is_field (spec.wanted_fields (view scope.now).definitions wanted) name.now && is_new) rule.Fields) }
{
    Broken::unless(is_field(scope, wanted, name) && is_new, Rule::Fields)
}

/// What is behind the first field.
pub(crate) fn next_fields(fields: Option<&[Field]>) -> Option<&[Field]>
    ensures { option_map (λ fields. fields.now) result ≡ spec.next_fields (option_map (λ fields. fields.now) fields.entry) }
{
    match fields {
        Some([_, fields @ ..]) => Some(fields),
        fields => fields,
    }
}

/// An expression where a value of a type is wanted.
#[tactic(auto, using(check_rules::proofs::Findings::least_append))]
pub(crate) fn check_expression(scope: &Scope<'_>, wanted: Option<DataType>, expr: &Expr) -> Broken
    ensures { result ≡ least (spec.check_expression (view scope.now) wanted expr.now) }
{
    let found = expression(scope, expr, false);
    let fits = found.typing.fits(wanted);
    found.broken.and(Broken::unless(fits, Rule::ValueType))
}

/// The least rule that a value breaks.
#[cycle(value)]
#[tactic(auto, using(check_rules::proofs::ValueForms::value_forms))]
pub fn value(
    alloc: Global,
    scope: &Scope<'_>,
    value: &Value,
    target: Target,
) -> Result<Broken, AllocError>
    ensures { IfOk result (λ broken. broken ≡ least (spec.value value.now (view scope.now) target)) }
{
    match value {
        Value::Expr(expr) => Ok(check_expression(scope, target.data_type, expr)),
        Value::Omit => Ok(Broken::unless(target.optional, Rule::Fields)),
        Value::Listed(elements) => {
            let fields = wanted_fields(scope, target.data_type);
            let whole = check_braces(target.data_type).and(check_number(fields, elements.len()));
            let parts = in_order(alloc, scope, fields, elements.as_slice())?;
            Ok(whole.and(parts))
        }
        Value::Assigned(elements) => {
            let parts = by_name(alloc, scope, target.data_type, elements.as_slice())?;
            Ok(check_braces(target.data_type).and(parts))
        }
    }
}

/// The elements of a literal by the order of the fields.
#[cycle(value)]
fn in_order(
    alloc: Global,
    scope: &Scope<'_>,
    fields: Option<&[Field]>,
    elements: &[Value],
) -> Result<Broken, AllocError>
    ensures { IfOk result (λ broken. broken ≡ least (spec.in_order (option_map (λ fields. fields.now) fields.entry) (map spec.value elements.now) (view scope.now))) }
{
    let mut broken = Broken::nothing();
    let mut left = fields;
    for element in elements {
        let part = value(alloc, scope, element, first_target(scope, left))?;
        broken = broken.and(part);
        left = next_fields(left);
    }
    Ok(broken)
}

/// The elements of a literal by the names of the fields. Each name is that of a field, and of no other element.
#[cycle(value)]
fn by_name(
    alloc: Global,
    scope: &Scope<'_>,
    wanted: Option<DataType>,
    elements: &[FieldValue],
) -> Result<Broken, AllocError>
    ensures { IfOk result (λ broken. broken ≡ least (spec.by_name (spec.wanted_fields (view scope.now).definitions wanted) [] (map spec.field_value elements.now) (view scope.now))) }
{
    let mut broken = Broken::nothing();
    let mut names = NameSet::new(alloc);
    for element in elements {
        let is_new = names.insert(element.name.as_bytes())?;
        let named = check_field_name(scope, wanted, &element.name, is_new);
        let target = target_named(scope, wanted, &element.name);
        let part = value(alloc, scope, &element.value, target)?;
        broken = broken.and(named).and(part);
    }
    Ok(broken)
}
