//! The rules that declarations, assignments and what they store break (ES 201 873-1, 8 and 19.1).
ghost use Rattle.std.specs.Prelude.{◌≡◌, IfOk};
ghost use Rattle.std.specs.Option.{option_map};
ghost use Rattle.check_scope.specs.internal.Checking.{least, view};
ghost use Rattle.check_rules.specs.internal.Findings.{finding};
ghost use Rattle.check_rules.specs.Targets as spec;

use crate::call::{check_activation, check_call, result_type_of, result_typing};
use crate::expression::{along, check_meaning};
use crate::value::value;
use check_rules::{CallPlace, Finding, behaviour_meant, component_meant, within};
use check_scope::broken::Broken;
use check_scope::names::Meaning;
use check_scope::rule::Rule;
use check_scope::scope::Scope;
use check_scope::types::{DataType, Target, Typing};
use std::alloc::{AllocError, Global};
use ttcn_syntax::{Assignment, Name, Reference, Rhs, TypeName};

// ---- declarations

/// The type of what is declared.
pub fn check_type(scope: &Scope<'_>, with_default: bool, type_name: &TypeName) -> Broken
    ensures { result ≡ least (spec.check_type (view scope.now).names with_default type_name.now) }
{
    match type_name {
        TypeName::Integer | TypeName::Boolean => Broken::nothing(),
        TypeName::Default => Broken::unless(with_default, Rule::BadType),
        TypeName::Named(_) => {
            Broken::unless(scope.resolved(type_name).is_some(), Rule::UnknownName)
        }
    }
}

/// A new name is no visible one.
pub fn check_new_name(scope: &Scope<'_>, name: &Name) -> Broken
    ensures { result ≡ least (spec.check_new_name (view scope.now).names name.now) }
{
    let visible = scope.get(name.as_bytes());
    Broken::unless(visible.is_none(), Rule::DuplicateName)
}

// ---- what stands on the right of `:=`

/// What is known of the result of a call.
fn call_typing(scope: &Scope<'_>, at: Option<usize>) -> Typing
    ensures { result ≡ spec.call_typing (view scope.now) at }
{
    match at {
        Some(at) => result_typing(scope, result_type_of(scope.kind(at))),
        None => Typing::Unknown,
    }
}

/// A new component of the type at a position.
fn check_created(wanted: Option<DataType>, at: Option<usize>) -> Broken
    ensures { result ≡ least (spec.check_created wanted at) }
{
    match at {
        Some(at) => {
            let typing = Typing::Known(DataType::Component(at));
            Broken::unless(typing.fits(wanted), Rule::ValueType)
        }
        None => Broken::of(Rule::UnknownName),
    }
}

#[tactic(auto, using(check_rules::proofs::Findings::least_append))]
pub(crate) fn check_rhs(
    alloc: Global,
    scope: &Scope<'_>,
    target: Target,
    right: &Rhs,
) -> Result<Broken, AllocError>
    ensures { IfOk result (λ broken. broken ≡ least (spec.check_rhs (view scope.now) target right.now)) }
{
    match right {
        Rhs::Value(right) => value(alloc, scope, right, target),
        Rhs::Create(name) => Ok(check_created(
            target.data_type,
            component_meant(scope.get(name.as_bytes())),
        )),
        Rhs::Call(call) => {
            let called = check_call(alloc, scope, CallPlace::Value, call)?;
            let meant = behaviour_meant(scope.get(call.name.as_bytes()));
            let fits = call_typing(scope, meant).fits(target.data_type);
            Ok(called.and(Broken::unless(fits, Rule::ValueType)))
        }
        Rhs::Activate(call) => {
            let activated = check_activation(alloc, scope, call)?;
            let fits = Typing::Known(DataType::Default).fits(target.data_type);
            Ok(activated.and(Broken::unless(fits, Rule::ValueType)))
        }
    }
}

/// An initial value, if there is one.
pub fn check_initial(
    alloc: Global,
    scope: &Scope<'_>,
    target: Target,
    right: Option<&Rhs>,
) -> Result<Broken, AllocError>
    ensures { IfOk result (λ broken. broken ≡ least (spec.check_initial (view scope.now) target (option_map (λ right. right.now) right.entry))) }
{
    match right {
        Some(right) => check_rhs(alloc, scope, target, right),
        None => Ok(Broken::nothing()),
    }
}

// ---- what is assigned

/// What a name is as a target: a variable or a parameter, but no constant.
fn as_target(scope: &Scope<'_>, meaning: Option<Meaning>) -> Finding
    ensures { result ≡ finding (spec.as_target (view scope.now).definitions meaning) }
{
    match meaning {
        Some(Meaning::Variable(data_type)) => Finding {
            typing: Typing::of(data_type),
            broken: Broken::nothing(),
        },
        Some(Meaning::Constant(_) | Meaning::ModuleConstant(_, _)) => Finding {
            typing: check_meaning(scope, meaning).typing,
            broken: Broken::of(Rule::NotAssignable),
        },
        _ => Finding {
            typing: Typing::Unknown,
            broken: Broken::of(Rule::UnknownName),
        },
    }
}

/// What is said of a target with its fields.
#[tactic(auto, using(check_rules::proofs::Findings::least_append, check_rules::proofs::Findings::finding_after))]
pub fn check_target(scope: &Scope<'_>, reference: &Reference) -> Finding
    ensures { result ≡ finding (spec.check_target (view scope.now) reference.now) }
{
    let found = as_target(scope, scope.get(reference.name.as_bytes()));
    along(scope, found.typing, reference.fields.as_slice()).after(found.broken)
}

/// Whether a field may be omitted. It isn't judged where the field isn't known.
fn optional_in(scope: &Scope<'_>, typing: Typing, name: &Name) -> bool
    ensures { result ≡ spec.optional_in (view scope.now).definitions typing name.now }
{
    match typing {
        Typing::Known(DataType::Record(at)) => match scope.field(at, name) {
            Some(field) => field.optional,
            None => true,
        },
        _ => true,
    }
}

/// Whether the last of fields of fields may be omitted; `optional` answers where there is none.
fn last_optional(scope: &Scope<'_>, typing: Typing, optional: bool, names: &[Name]) -> bool
    ensures { result ≡ spec.last_optional (view scope.now).definitions typing optional names.now }
{
    let mut around = typing;
    let mut last = optional;
    for name in names {
        last = optional_in(scope, around, name);
        around = within(scope, around, name).typing;
    }
    last
}

/// What goes to a reference.
#[tactic(auto, using(check_rules::proofs::Findings::least_append, check_rules::proofs::Findings::finding_after))]
fn target_at(scope: &Scope<'_>, reference: &Reference) -> Target
    ensures { result ≡ spec.target_at (view scope.now) reference.now }
{
    let found = as_target(scope, scope.get(reference.name.as_bytes()));
    Target {
        data_type: check_target(scope, reference).typing.known(),
        optional: last_optional(scope, found.typing, false, reference.fields.as_slice()),
    }
}

#[tactic(auto, using(check_rules::proofs::Findings::least_append))]
pub fn check_assignment(
    alloc: Global,
    scope: &Scope<'_>,
    assignment: &Assignment,
) -> Result<Broken, AllocError>
    ensures { IfOk result (λ broken. broken ≡ least (spec.check_assignment (view scope.now) assignment.now)) }
{
    let found = check_target(scope, &assignment.target);
    let target = target_at(scope, &assignment.target);
    let right = check_rhs(alloc, scope, target, assignment.value.get())?;
    Ok(found.broken.and(right))
}
