//! The types of expressions, and the rules that are broken in them (ES 201 873-1, 7).
ghost use Rattle.std.specs.Prelude.{◌≡◌, map, Some};
ghost use Rattle.std.specs.Option.{option_map};
ghost use Rattle.check_rules.specs.internal.Findings.{free_before, finding, with_before};
ghost use Rattle.check_scope.specs.internal.Checking.{view};
ghost use Rattle.check_rules.specs.Expressions as spec;

use check_rules::{Finding, within};
use check_scope::broken::Broken;
use check_scope::names::Meaning;
use check_scope::rule::Rule;
use check_scope::scope::Scope;
use check_scope::types::{DataType, Typing};
use check_scope::typing::{compares, operands_of, result_of};
use ttcn_syntax::{ComponentRef, Expr, Link, Name, Operator, Reference};

/// What a name stands for as a value.
pub(crate) fn check_meaning(scope: &Scope<'_>, meaning: Option<Meaning>) -> Finding
    ensures { result ≡ finding (spec.check_meaning (view scope.now).definitions meaning) }
{
    match meaning {
        Some(Meaning::Variable(data_type) | Meaning::Constant(data_type)) => {
            Finding::fine(Typing::of(data_type))
        }
        Some(Meaning::ModuleConstant(at, _)) => Finding::fine(Typing::of(scope.constants_type(at))),
        Some(Meaning::Enumerator(at)) => Finding::fine(Typing::Known(DataType::Enumerated(at))),
        Some(Meaning::Port(_) | Meaning::Timer) => Finding::fine(Typing::NoValue),
        _ => Finding::wrong(Rule::UnknownName),
    }
}

/// What fields of fields are.
pub(crate) fn along(scope: &Scope<'_>, typing: Typing, names: &[Name]) -> Finding
    ensures { result ≡ finding (spec.along (view scope.now).definitions typing names.now) }
{
    let mut found = Finding::fine(typing);
    for name in names {
        found = within(scope, found.typing, name).after(found.broken);
    }
    found
}

#[tactic(auto, using(check_rules::proofs::Findings::least_append, check_rules::proofs::Findings::finding_after))]
pub fn check_reference(scope: &Scope<'_>, reference: &Reference) -> Finding
    ensures { result ≡ finding (spec.check_reference (view scope.now) reference.now) }
{
    let found = check_meaning(scope, scope.get(reference.name.as_bytes()));
    along(scope, found.typing, reference.fields.as_slice()).after(found.broken)
}

/// `mtc`, or `self` of no known type.
fn any_component(free: bool) -> Finding
    ensures { result ≡ finding (spec.any_component free) }
{
    Finding {
        typing: Typing::AnyComponent,
        broken: Broken::unless(free, Rule::MtcPlace),
    }
}

pub fn check_component(scope: &Scope<'_>, component: &ComponentRef, free: bool) -> Finding
    ensures { result ≡ finding (spec.check_component (view scope.now) component.now free) }
{
    match component {
        ComponentRef::Itself => match scope.itself() {
            Some(at) => Finding::fine(Typing::Known(DataType::Component(at))),
            None => any_component(free),
        },
        ComponentRef::Mtc => any_component(free),
        ComponentRef::Named(reference) => check_reference(scope, reference),
    }
}

/// A place where a component is wanted, `mtc` among them.
#[tactic(auto, using(check_rules::proofs::Findings::least_append, check_rules::proofs::Findings::finding_after))]
pub fn check_wanted_component(scope: &Scope<'_>, component: &ComponentRef) -> Finding
    ensures { result ≡ finding (spec.check_wanted_component (view scope.now) component.now) }
{
    let found = check_component(scope, component, true);
    let is_component = found.typing.refers_to_component();
    Finding {
        typing: found.typing,
        broken: found
            .broken
            .and(Broken::unless(is_component, Rule::UnknownName)),
    }
}

/// Whether a reference is the mere name of a timer.
pub fn names_timer(scope: &Scope<'_>, component: &ComponentRef) -> bool
    ensures { result ≡ spec.names_timer (view scope.now) component.now }
{
    match component {
        ComponentRef::Named(reference) => {
            reference.fields.as_slice().is_empty()
                && matches!(scope.get(reference.name.as_bytes()), Some(Meaning::Timer))
        }
        _ => false,
    }
}

/// `.running`, of a timer or a component.
#[tactic(auto, using(check_rules::proofs::Findings::least_append, check_rules::proofs::Findings::finding_after))]
fn check_running(scope: &Scope<'_>, component: &ComponentRef) -> Finding
    ensures { result ≡ finding (spec.check_running (view scope.now) component.now) }
{
    if names_timer(scope, component) {
        return Finding::fine(Typing::Known(DataType::Boolean));
    }
    let found = check_component(scope, component, true);
    runs(found.typing).after(found.broken)
}

/// Whether a component runs.
fn runs(typing: Typing) -> Finding
    ensures { result ≡ finding (spec.runs typing) }
{
    Finding::demand(
        typing.refers_to_component(),
        Rule::UnknownName,
        DataType::Boolean,
    )
}

/// `ispresent`, of a field.
#[tactic(auto, using(check_rules::proofs::Findings::least_append, check_rules::proofs::Findings::finding_after))]
fn check_ispresent(scope: &Scope<'_>, reference: &Reference) -> Finding
    ensures { result ≡ finding (spec.check_ispresent (view scope.now) reference.now) }
{
    let found = check_reference(scope, reference);
    let is_field = names_field(reference.fields.as_slice());
    Finding::demand(is_field, Rule::Fields, DataType::Boolean).after(found.broken)
}

/// Whether a reference names a field.
fn names_field(fields: &[Name]) -> bool
    ensures { result ≡ spec.names_field fields.now }
{
    matches!(fields, [_, ..])
}

/// An operand that must be of a type, which is that of the whole.
fn of_type(wanted: DataType, typing: Typing) -> Finding
    ensures { result ≡ finding (spec.of_type wanted typing) }
{
    Finding::demand(typing.is_of(wanted), Rule::OperandType, wanted)
}

/// An operator between two operands.
fn between(operator: Operator, left: Typing, right: Typing) -> Finding
    ensures { result ≡ finding (spec.between operator left right) }
{
    let takes = if compares(operator) {
        left.is_comparable(right)
    } else {
        left.is_of(operands_of(operator)) && right.is_of(operands_of(operator))
    };
    Finding::demand(takes, Rule::OperandType, result_of(operator))
}

/// What is known of an expression's type, and the least rule that is broken in it. `mtc` may be the whole of it where it
/// is `free`.
pub fn expression(scope: &Scope<'_>, expr: &Expr, free: bool) -> Finding
    ensures { result ≡ finding (spec.expression expr.now (view scope.now) free) }
{
    match expr {
        Expr::Int(_) => Finding::fine(Typing::Known(DataType::Integer)),
        Expr::Bool(_) => Finding::fine(Typing::Known(DataType::Boolean)),
        Expr::Null => Finding::fine(Typing::Null),
        Expr::Reference(component) => check_component(scope, component, free),
        Expr::Running(component) => check_running(scope, component),
        Expr::Ispresent(reference) => check_ispresent(scope, reference),
        Expr::Not(operand) => {
            let found = expression(scope, operand.get(), false);
            of_type(DataType::Boolean, found.typing).after(found.broken)
        }
        Expr::Signed(_, operand) => {
            let found = expression(scope, operand.get(), false);
            of_type(DataType::Integer, found.typing).after(found.broken)
        }
        Expr::Chain(first, links) => {
            let links = links.as_slice();
            let mut left = expression(scope, first.get(), is_free_before(links, free));
            for link in links {
                let right = expression(scope, &link.operand, compares(link.operator));
                left = between(link.operator, left.typing, right.typing)
                    .after(right.broken)
                    .after(left.broken);
            }
            left
        }
    }
}

/// Whether `mtc` may be the first operand of a chain.
fn is_free_before(links: &[Link], free: bool) -> bool
    ensures { result ≡ free_before (map spec.link links.now) free }
{
    match links {
        [link, ..] => compares(link.operator),
        [] => free,
    }
}
