//! Declarations of variables, constants and timers (ES 201 873-1, 8, 10 to 12).
ghost use Rattle.std.specs.Prelude.{◌≡◌, List, [], ◌∷◌, IfOk, OnOk};
ghost use Rattle.check_scope.specs.internal.Checking.{around, least, view};
ghost use Rattle.check_scope.specs.Names.{Entry, declaring};
ghost use Rattle.check_scope.specs.Names as visible;
ghost use Rattle.check_scope.specs.declared.rule.Rule as broken_rule;
ghost use Rattle.check_rules.specs.Declarations.{behind_all, one_by_one};
ghost use Rattle.check_rules.specs.Targets as spec;

use check_expressions::target::{check_initial, check_new_name, check_type};
use check_expressions::value::value;
use check_scope::broken::Broken;
use check_scope::names::Meaning;
use check_scope::scope::Scope;
use check_scope::types::{DataType, Target};
use std::alloc::{AllocError, Global};
use ttcn_syntax::{Constant, Constants, Name, Timer, Variable, Variables};

/// A new name, which is visible behind its own part of the declaration.
pub(crate) fn declare<'a>(
    scope: &mut Scope<'a>,
    name: &'a Name,
    meaning: Meaning,
) -> Result<Broken, AllocError>
    ensures broken { IfOk result (λ broken. broken ≡ least (spec.check_new_name (view scope.old).names name.now)) }
    ensures view { OnOk result (view scope.new ≡ declaring (view scope.old) ((name.now, meaning) ∷ [])) }
    ensures around { OnOk result (around scope.new ≡ around scope.old) }
{
    let broken = check_new_name(scope, name);
    scope.declare(name.as_bytes(), meaning)?;
    Ok(broken)
}

/// Items that declare a name each, which is visible in those behind it.
pub(crate) fn declare_each<'a, T, F: Fn(&mut Scope<'a>, &'a T) -> Result<Broken, AllocError>>(
    scope: &mut Scope<'a>,
    items: &'a [T],
    declare_item: F,
) -> Result<Broken, AllocError>
    requires { F.IsAlwaysCallable declare_item }
    ensures { (rules : visible.Scope → T → List broken_rule.Rule) → (entry : visible.Scope → T → Entry)
        → ((before : _) (item : _) (done : _) (after : _) → F.post declare_item before item done after
        → IfOk done (λ broken. broken ≡ least (rules (view before.now) item.now))
        × OnOk done (view after.now ≡ declaring (view before.now) (entry (view before.now) item.now ∷ []))
        × OnOk done (around after.now ≡ around before.now))
        → IfOk result (λ broken. broken ≡ least (one_by_one rules entry (view scope.old) items.now))
        × OnOk result (view scope.new ≡ behind_all entry (view scope.old) items.now)
        × OnOk result (around scope.new ≡ around scope.old) }
{
    let mut broken = Broken::nothing();
    for item in items {
        let more = declare_item(scope, item)?;
        broken = broken.and(more);
    }
    Ok(broken)
}

/// A variable of a type, which is visible behind its own part of the declaration.
#[tactic(auto, using(crate::proofs::Leasts::least_append))]
fn variable<'a>(
    alloc: Global,
    scope: &mut Scope<'a>,
    of: Option<DataType>,
    variable: &'a Variable,
) -> Result<Broken, AllocError>
    ensures broken { IfOk result (λ broken. broken ≡ least (spec.check_variable of (view scope.old) variable.now)) }
    ensures view { OnOk result (view scope.new ≡ declaring (view scope.old) (spec.variable_entry of (view scope.old) variable.now ∷ [])) }
    ensures around { OnOk result (around scope.new ≡ around scope.old) }
{
    let initial = check_initial(alloc, scope, Target::of(of), variable.value.as_ref())?;
    let name = declare(scope, &variable.name, Meaning::Variable(of))?;
    Ok(name.and(initial))
}

pub(crate) fn variables<'a>(
    alloc: Global,
    scope: &mut Scope<'a>,
    variables: &'a Variables,
) -> Result<Broken, AllocError>
    ensures broken { IfOk result (λ broken. broken ≡ least (spec.check_variables (view scope.old) variables.now)) }
    ensures view { OnOk result (view scope.new ≡ spec.behind_variables (view scope.old) variables.now) }
    ensures around { OnOk result (around scope.new ≡ around scope.old) }
{
    let of = scope.resolved(&variables.type_name);
    let typed = check_type(scope, true, &variables.type_name);
    let declared = declare_each(scope, variables.variables.as_slice(), |scope, item| {
        variable(alloc, scope, of, item)
    })?;
    Ok(typed.and(declared))
}

/// A constant of a type, which is visible behind its own part of the declaration.
#[tactic(auto, using(crate::proofs::Leasts::least_append))]
fn constant<'a>(
    alloc: Global,
    scope: &mut Scope<'a>,
    of: Option<DataType>,
    constant: &'a Constant,
) -> Result<Broken, AllocError>
    ensures broken { IfOk result (λ broken. broken ≡ least (spec.check_constant of (view scope.old) constant.now)) }
    ensures view { OnOk result (view scope.new ≡ declaring (view scope.old) (spec.constant_entry of (view scope.old) constant.now ∷ [])) }
    ensures around { OnOk result (around scope.new ≡ around scope.old) }
{
    let initial = value(alloc, scope, &constant.value, Target::of(of))?;
    let name = declare(scope, &constant.name, Meaning::Constant(of))?;
    Ok(name.and(initial))
}

pub(crate) fn constants<'a>(
    alloc: Global,
    scope: &mut Scope<'a>,
    constants: &'a Constants,
) -> Result<Broken, AllocError>
    ensures broken { IfOk result (λ broken. broken ≡ least (spec.check_constants (view scope.old) constants.now)) }
    ensures view { OnOk result (view scope.new ≡ spec.behind_constants (view scope.old) constants.now) }
    ensures around { OnOk result (around scope.new ≡ around scope.old) }
{
    let of = scope.resolved(&constants.type_name);
    let typed = check_type(scope, false, &constants.type_name);
    let declared = declare_each(scope, constants.constants.as_slice(), |scope, item| {
        constant(alloc, scope, of, item)
    })?;
    Ok(typed.and(declared))
}

pub(crate) fn timers<'a>(scope: &mut Scope<'a>, timers: &'a [Timer]) -> Result<Broken, AllocError>
    ensures broken { IfOk result (λ broken. broken ≡ least (spec.check_timers (view scope.old) timers.now)) }
    ensures view { OnOk result (view scope.new ≡ spec.behind_timers (view scope.old) timers.now) }
    ensures around { OnOk result (around scope.new ≡ around scope.old) }
{
    declare_each(scope, timers, |scope, timer| {
        declare(scope, &timer.name, Meaning::Timer)
    })
}
