//! Formal parameters (ES 201 873-1, 5.4.1).
ghost use Rattle.std.specs.Prelude.{◌≡◌, [], ◌∷◌, IfOk, OnOk};
ghost use Rattle.check_scope.specs.internal.Checking.{around, least, view};
ghost use Rattle.check_rules.specs.Definitions as spec;
ghost use Rattle.check_scope.specs.Names.{declaring};

use crate::declaration::{declare, declare_each};
use check_expressions::target::check_type;
use check_scope::broken::Broken;
use check_scope::names::Meaning;
use check_scope::scope::Scope;
use std::alloc::AllocError;
use ttcn_syntax::Parameter;

/// A parameter, which is visible in those behind it too.
#[tactic(auto, using(crate::proofs::Leasts::least_append))]
fn parameter<'a>(scope: &mut Scope<'a>, parameter: &'a Parameter) -> Result<Broken, AllocError>
    ensures broken { IfOk result (λ broken. broken ≡ least (spec.check_parameter (view scope.old) parameter.now)) }
    ensures view { OnOk result (view scope.new ≡ declaring (view scope.old) (spec.parameter_entry (view scope.old) parameter.now ∷ [])) }
    ensures around { OnOk result (around scope.new ≡ around scope.old) }
{
    let typed = check_type(scope, true, &parameter.type_name);
    let of = scope.resolved(&parameter.type_name);
    let name = declare(scope, &parameter.name, Meaning::Variable(of))?;
    Ok(name.and(typed))
}

/// The parameters of a behaviour or a template.
pub(crate) fn check_parameters<'a>(
    scope: &mut Scope<'a>,
    parameters: &'a [Parameter],
) -> Result<Broken, AllocError>
    ensures broken { IfOk result (λ broken. broken ≡ least (spec.check_parameters (view scope.old) parameters.now)) }
    ensures view { OnOk result (view scope.new ≡ spec.with_parameters (view scope.old) parameters.now) }
    ensures around { OnOk result (around scope.new ≡ around scope.old) }
{
    declare_each(scope, parameters, parameter)
}
