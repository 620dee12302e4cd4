//! The constants and templates of a module.
ghost use Rattle.std.specs.Prelude.{◌≡◌, [], ◌∷◌, ◌++◌, length, IfOk, OnOk, map};
ghost use Rattle.check_survey.specs.Things.{tally};
ghost use Rattle.ttcn_types.specs.internal.Surrounding.{scope_of};
ghost use Rattle.check_scope.specs.Scopes.{module_scope};
ghost use Rattle.check_rules.specs.Definitions.{with_parameters};
ghost use Rattle.check_scope.specs.Names.{declaring, resolved};
ghost use Rattle.check_rules.specs.Parts as spec;
ghost use Rattle.ttcn_types.specs.internal.Numbering.{AreNumbers};

use super::numbers::Numbers;
use super::surroundings::Surroundings;
use check_scope::names::Meaning;
use check_scope::scope::{Scope, built_in, type_meant};
use check_scope::table::Table;
use check_scope::types::DataType;
use check_survey::Thing;
use std::alloc::{AllocError, Global};
use ttcn_syntax::{Constant, DefinitionKind, Parameter, Span, TemplateDefinition, TypeName};

impl<'p, 'a> Surroundings<'p, 'a> {
    /// The module, where there are no parameters.
    fn of_module(alloc: Global, scope: &'p Scope<'a>, numbers: &'p Numbers) -> Surroundings<'p, 'a>
        requires { AreNumbers numbers.now scope.now.definitions.now }
        ensures { scope_of result ≡ module_scope scope.now.definitions.now }
    {
        Surroundings {
            scope,
            numbers,
            parameters: Table::new(alloc),
        }
    }

    /// The type that a declaration names.
    fn resolved(&self, type_name: &TypeName) -> Option<DataType>
        ensures { result ≡ resolved (scope_of self.now).names type_name.now }
    {
        match type_name {
            TypeName::Named(name) => type_meant(self.get(name.as_bytes())),
            _ => built_in(type_name),
        }
    }

    /// What stands round it behind one more parameter.
    fn with_parameter(self, parameter: &'a Parameter) -> Result<Surroundings<'p, 'a>, AllocError>
        ensures { IfOk result (λ around. scope_of around ≡ declaring (scope_of self.entry) ((parameter.now.name, Meaning.Variable (resolved (scope_of self.entry).names parameter.now.type_name)) ∷ [])) }
    {
        let meaning = Meaning::Variable(self.resolved(&parameter.type_name));
        let mut parameters = self.parameters;
        parameters.insert(parameter.name.as_bytes(), meaning)?;
        Ok(Surroundings {
            scope: self.scope,
            numbers: self.numbers,
            parameters,
        })
    }

    /// The module with the parameters of a template.
    fn of_template(
        alloc: Global,
        scope: &'p Scope<'a>,
        numbers: &'p Numbers,
        parameters: &'a [Parameter],
    ) -> Result<Surroundings<'p, 'a>, AllocError>
        requires { AreNumbers numbers.now scope.now.definitions.now }
        ensures { IfOk result (λ around. scope_of around ≡ with_parameters (module_scope scope.now.definitions.now) parameters.now) }
    {
        let mut around = Surroundings::of_module(alloc, scope, numbers);
        for parameter in parameters {
            around = around.with_parameter(parameter)?;
        }
        Ok(around)
    }
}

fn push_constants(
    alloc: Global,
    around: &Surroundings<'_, '_>,
    constants: &[Constant],
    things: &mut Vec<Thing>,
) -> Result<(), AllocError>
    ensures { OnOk result (things.new.items ≡ things.old.items ++ map tally (map (spec.constant_parts (scope_of around.now)) constants.now)) }
{
    for constant in constants {
        things.push(around.constant(alloc, constant)?)?;
    }
    Ok(())
}

fn push_template<'a>(
    alloc: Global,
    around: &Surroundings<'_, 'a>,
    template: &'a TemplateDefinition,
    things: &mut Vec<Thing>,
) -> Result<(), AllocError>
    ensures { OnOk result (things.new.items ≡ things.old.items ++ tally (spec.template_parts (with_parameters (module_scope around.now.scope.now.definitions.now) template.now.parameters) template.now.template) ∷ []) }
{
    let parameters = template.parameters.as_slice();
    let within = Surroundings::of_template(alloc, around.scope, around.numbers, parameters)?;
    things.push(within.template(alloc, template.template.get())?)?;
    Ok(())
}

/// What a definition has in the numbering.
fn push_written<'a>(
    alloc: Global,
    around: &Surroundings<'_, 'a>,
    kind: &'a DefinitionKind,
    things: &mut Vec<Thing>,
) -> Result<(), AllocError>
    requires { scope_of around.now ≡ module_scope around.now.scope.now.definitions.now }
    ensures { OnOk result (things.new.items ≡ things.old.items ++ map tally (spec.things_at around.now.scope.now.definitions.now kind.now)) }
{
    match kind {
        DefinitionKind::Constants(constants) => {
            push_constants(alloc, around, constants.constants.as_slice(), things)
        }
        DefinitionKind::Template(template) => push_template(alloc, around, template, things),
        _ => {
            things.push(Thing::empty(alloc))?;
            Ok(())
        }
    }
}

/// What each constant and each template of the module is.
fn things_of(alloc: Global, scope: &Scope<'_>, numbers: &Numbers) -> Result<Vec<Thing>, AllocError>
    requires { AreNumbers numbers.now scope.now.definitions.now }
    ensures { IfOk result (λ things. things.items ≡ map tally (spec.constants_and_templates scope.now.definitions.now)) }
{
    let around = Surroundings::of_module(alloc, scope, numbers);
    let mut things = Vec::new(alloc);
    for definition in scope.definitions {
        push_written(alloc, &around, &definition.kind, &mut things)?;
    }
    Ok(things)
}

/// The constants and templates of a module.
#[derive(Drop)]
pub(crate) struct Numbering {
    pub(crate) things: Vec<Thing>,
    /// For each the place of the definition that has it.
    pub(crate) places: Vec<Span>,
}

/// The constants and templates of the module.
pub(crate) fn constants_and_templates(
    alloc: Global,
    scope: &Scope<'_>,
) -> Result<Numbering, AllocError>
    ensures things { IfOk result (λ written. written.things.items ≡ map tally (spec.constants_and_templates scope.now.definitions.now)) }
    ensures places { IfOk result (λ written. length written.places.items ≡ length written.things.items) }
{
    let numbers = Numbers::of(alloc, scope.definitions)?;
    let things = things_of(alloc, scope, &numbers)?;
    Ok(Numbering {
        things,
        places: numbers.places,
    })
}
