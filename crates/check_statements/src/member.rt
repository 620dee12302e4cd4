//! The declarations of component types (ES 201 873-1, 6.2.10).
ghost use Rattle.std.specs.Prelude.{◌≡◌, [], ◌∷◌, IfOk, OnOk};
ghost use Rattle.std.specs.Option.{option_map};
ghost use Rattle.ttcn_syntax.specs.declared.tree.definition.Member.TheVariants as member;
ghost use Rattle.check_scope.specs.internal.Checking.{around, least, view};
ghost use Rattle.check_rules.specs.Definitions as spec;
ghost use Rattle.check_scope.specs.Names.{declaring, member_entries};

use crate::declaration::{constants, declare, declare_each, timers};
use check_expressions::target::check_type;
use check_expressions::value::value;
use check_scope::broken::Broken;
use check_scope::names::Meaning;
use check_scope::rule::Rule;
use check_scope::scope::{Scope, port_type_meant};
use check_scope::types::{DataType, Target};
use std::alloc::{AllocError, Global};
use ttcn_syntax::{Member, MemberVariable, Name, TypeName, Value};

// ---- ports

/// A declaration of ports.
#[tactic(auto, using(crate::proofs::Leasts::least_append))]
fn check_ports<'a>(
    scope: &mut Scope<'a>,
    port_type: &Name,
    names: &'a [Name],
) -> Result<Broken, AllocError>
    ensures broken { IfOk result (λ broken. broken ≡ least (spec.check_member (view scope.old) (member.Ports port_type.now names.now))) }
    ensures view { OnOk result (view scope.new ≡ declaring (view scope.old) (member_entries (view scope.old).names (member.Ports port_type.now names.now))) }
    ensures around { OnOk result (around scope.new ≡ around scope.old) }
{
    let of = port_type_meant(scope.get(port_type.as_bytes()));
    let typed = Broken::unless(of.is_some(), Rule::UnknownName);
    let named = declare_each(scope, names, |scope, name| {
        declare(scope, name, Meaning::Port(of))
    })?;
    Ok(typed.and(named))
}

// ---- variables

/// An initial value, if there is one.
fn check_initial_value(
    alloc: Global,
    scope: &Scope<'_>,
    target: Target,
    initial: Option<&Value>,
) -> Result<Broken, AllocError>
    ensures { IfOk result (λ broken. broken ≡ least (spec.check_initial_value (view scope.now) target (option_map (λ initial. initial.now) initial.entry))) }
{
    match initial {
        Some(initial) => value(alloc, scope, initial, target),
        None => Ok(Broken::nothing()),
    }
}

/// A variable of a type, which is visible behind its own part of the declaration.
#[tactic(auto, using(crate::proofs::Leasts::least_append))]
fn member_variable<'a>(
    alloc: Global,
    scope: &mut Scope<'a>,
    of: Option<DataType>,
    variable: &'a MemberVariable,
) -> Result<Broken, AllocError>
    ensures broken { IfOk result (λ broken. broken ≡ least (spec.check_member_variable of (view scope.old) variable.now)) }
    ensures view { OnOk result (view scope.new ≡ declaring (view scope.old) (spec.member_variable_entry of (view scope.old) variable.now ∷ [])) }
    ensures around { OnOk result (around scope.new ≡ around scope.old) }
{
    let initial = check_initial_value(alloc, scope, Target::of(of), variable.value.as_ref())?;
    let name = declare(scope, &variable.name, Meaning::Variable(of))?;
    Ok(name.and(initial))
}

/// A declaration of variables.
#[tactic(auto, using(crate::proofs::Leasts::least_append))]
fn check_variables<'a>(
    alloc: Global,
    scope: &mut Scope<'a>,
    type_name: &TypeName,
    variables: &'a [MemberVariable],
) -> Result<Broken, AllocError>
    ensures broken { IfOk result (λ broken. broken ≡ least (spec.check_member (view scope.old) (member.Variables type_name.now variables.now))) }
    ensures view { OnOk result (view scope.new ≡ declaring (view scope.old) (member_entries (view scope.old).names (member.Variables type_name.now variables.now))) }
    ensures around { OnOk result (around scope.new ≡ around scope.old) }
{
    let of = scope.resolved(type_name);
    let typed = check_type(scope, true, type_name);
    let named = declare_each(scope, variables, |scope, variable| {
        member_variable(alloc, scope, of, variable)
    })?;
    Ok(typed.and(named))
}

// ---- all declarations

/// A declaration, which is visible in those behind it.
fn check_member<'a>(
    alloc: Global,
    scope: &mut Scope<'a>,
    member: &'a Member,
) -> Result<Broken, AllocError>
    ensures broken { IfOk result (λ broken. broken ≡ least (spec.check_member (view scope.old) member.now)) }
    ensures view { OnOk result (view scope.new ≡ declaring (view scope.old) (member_entries (view scope.old).names member.now)) }
    ensures around { OnOk result (around scope.new ≡ around scope.old) }
{
    match member {
        Member::Ports(port_type, names) => check_ports(scope, port_type, names.as_slice()),
        Member::Constants(declared) => constants(alloc, scope, declared),
        Member::Variables(type_name, variables) => {
            check_variables(alloc, scope, type_name, variables.as_slice())
        }
        Member::Timers(declared) => timers(scope, declared.as_slice()),
    }
}

/// The declarations of a component type.
pub(crate) fn check_members<'a>(
    alloc: Global,
    scope: &mut Scope<'a>,
    members: &'a [Member],
) -> Result<Broken, AllocError>
    ensures broken { IfOk result (λ broken. broken ≡ least (spec.check_members (view scope.old) members.now)) }
    ensures around { OnOk result (around scope.new ≡ around scope.old) }
{
    let mut broken = Broken::nothing();
    for member in members {
        let more = check_member(alloc, scope, member)?;
        broken = broken.and(more);
    }
    Ok(broken)
}
