//! What is called: where a call stands, and what is known of the callee (ES 201 873-1, 15 and 16).
ghost use Rattle.std.specs.Prelude.{◌≡◌};
ghost use Rattle.std.specs.Option.{option_map};
ghost use Rattle.check_rules.specs.Calls as spec;
ghost use Rattle.check_rules.specs.Messages as messages;
ghost use Rattle.check_rules.specs.Templates as templates;
ghost use Rattle.check_scope.specs.internal.Checking.{view};
ghost use Rattle.check_scope.specs.Names.{component_meant};

use check_scope::names::Meaning;
use check_scope::scope::Scope;
use ttcn_syntax::{DefinitionKind, Name, Parameter};

/// Where a call stands, which says what may be called.
#[derive(Clone, Copy, Debug, PartialEq, Eq)]
pub enum CallPlace {
    /// As a statement: functions and altsteps.
    Alone,
    /// As a branch: altsteps.
    Branch,
    /// Where a value is wanted: functions with a result.
    Value,
}

impl CallPlace {
    /// Whether a definition of a kind may be called here.
    pub fn may_call(self, kind: Option<&DefinitionKind>) -> bool
        ensures { result ≡ spec.callable self (option_map (λ kind. kind.now) kind.entry) }
    {
        match (self, kind) {
            (CallPlace::Alone, Some(DefinitionKind::Function(_)))
            | (CallPlace::Alone | CallPlace::Branch, Some(DefinitionKind::Altstep(_))) => true,
            (CallPlace::Value, Some(DefinitionKind::Function(function))) => {
                function.returns.is_some()
            }
            _ => false,
        }
    }
}

/// The parameters of what may be called with arguments.
pub fn parameters_of<'a>(kind: Option<&'a DefinitionKind>) -> &'a [Parameter]
    ensures { result.now ≡ spec.parameters_of (option_map (λ kind. kind.now) kind.entry) }
{
    match kind {
        Some(DefinitionKind::Template(template)) => template.parameters.as_slice(),
        Some(DefinitionKind::Function(function)) => function.parameters.as_slice(),
        Some(DefinitionKind::Altstep(altstep)) => altstep.parameters.as_slice(),
        _ => &[],
    }
}

/// The component type that a function or an altstep says it runs on. No test case is called, wherever it runs.
pub fn runs_on_of<'a>(kind: Option<&'a DefinitionKind>) -> Option<&'a Name>
    ensures { option_map (λ name. name.now) result ≡ spec.runs_on_of (option_map (λ kind. kind.now) kind.entry) }
{
    match kind {
        Some(DefinitionKind::Function(function)) => function.runs_on.as_ref(),
        Some(DefinitionKind::Altstep(altstep)) => altstep.runs_on.as_ref(),
        _ => None,
    }
}

/// The position of the component type that a name in the module's text stands for.
pub fn component_named(scope: &Scope<'_>, name: Option<&Name>) -> Option<usize>
    ensures { result ≡ spec.component_named (view scope.now).definitions (option_map (λ name. name.now) name.entry) }
{
    component_meant(scope.in_module(name?.as_bytes()))
}

/// The position of the component type that a name stands for.
pub fn component_meant(meaning: Option<Meaning>) -> Option<usize>
    ensures { result ≡ component_meant meaning }
{
    match meaning {
        Some(Meaning::Component(at)) => Some(at),
        _ => None,
    }
}

/// The position of the behaviour that a name stands for.
pub fn behaviour_meant(meaning: Option<Meaning>) -> Option<usize>
    ensures { result ≡ spec.behaviour_meant meaning }
{
    match meaning {
        Some(Meaning::Function(at) | Meaning::Altstep(at) | Meaning::Testcase(at)) => Some(at),
        _ => None,
    }
}

/// The position of the template that a name stands for.
pub fn template_meant(meaning: Option<Meaning>) -> Option<usize>
    ensures { result ≡ templates.template_meant meaning }
{
    match meaning {
        Some(Meaning::Template(at)) => Some(at),
        _ => None,
    }
}

/// The port that a name stands for: the position of its type, which may be unknown.
pub fn port_meant(meaning: Option<Meaning>) -> Option<Option<usize>>
    ensures { result ≡ messages.port_meant meaning }
{
    match meaning {
        Some(Meaning::Port(at)) => Some(at),
        _ => None,
    }
}
