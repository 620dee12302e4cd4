//! What records, constants, templates and altsteps refer to, and of how many parts they are.
ghost use Rattle.std.specs.Prelude.{◌≡◌, IfOk, OnOk, map};
ghost use Rattle.check_survey.specs.Things.{add, tally};
ghost use Rattle.check_rules.specs.Parts as spec;

mod numbers;
mod surroundings;
mod template;
mod written;

use check_scope::names::Meaning;
use check_scope::scope::Scope;
use check_scope::types::DataType;
use check_survey::Thing;
use std::alloc::{AllocError, Global};
use ttcn_syntax::{Alternative, Branch, DefinitionKind, Field};
pub(crate) use written::constants_and_templates;

// ---- records

fn add_field(scope: &Scope<'_>, field: &Field, into: &mut Thing) -> Result<(), AllocError>
    ensures { OnOk result (into.new ≡ add into.old (spec.part_of_field scope.now.definitions.now field.now)) }
{
    match scope.resolved_in_module(&field.type_name) {
        Some(DataType::Record(at)) => into.add_reference(at),
        _ => {
            into.add_leaf();
            Ok(())
        }
    }
}

fn fields_parts(alloc: Global, scope: &Scope<'_>, fields: &[Field]) -> Result<Thing, AllocError>
    ensures { IfOk result (λ thing. thing ≡ tally (spec.all_of (map (spec.part_of_field scope.now.definitions.now) fields.now))) }
{
    let mut thing = Thing::empty(alloc);
    for field in fields {
        add_field(scope, field, &mut thing)?;
    }
    Ok(thing)
}

/// The fields of a record, or a leaf where it has none.
fn record_parts(
    alloc: Global,
    scope: &Scope<'_>,
    kind: &DefinitionKind,
) -> Result<Thing, AllocError>
    ensures { IfOk result (λ thing. thing ≡ tally (spec.record_parts scope.now.definitions.now kind.now)) }
{
    match kind {
        DefinitionKind::Record(record) => {
            let mut thing = fields_parts(alloc, scope, record.fields.as_slice())?;
            if record.fields.as_slice().is_empty() {
                thing.add_leaf();
            }
            Ok(thing)
        }
        _ => Ok(Thing::empty(alloc)),
    }
}

/// The records of the module, by the positions of the definitions.
pub(crate) fn records(alloc: Global, scope: &Scope<'_>) -> Result<Vec<Thing>, AllocError>
    ensures { IfOk result (λ things. things.items ≡ map tally (spec.records scope.now.definitions.now)) }
{
    let mut things = Vec::new(alloc);
    for definition in scope.definitions {
        things.push(record_parts(alloc, scope, &definition.kind)?)?;
    }
    Ok(things)
}

// ---- altsteps

fn add_branch(scope: &Scope<'_>, branch: &Branch, into: &mut Thing) -> Result<(), AllocError>
    ensures { OnOk result (into.new ≡ add into.old (spec.branch_parts scope.now.definitions.now branch.now)) }
{
    if let Alternative::Call(_, call, _) = branch.alternative.get()
        && let Some(Meaning::Altstep(at)) = scope.in_module(call.name.as_bytes())
    {
        return into.add_reference(at);
    }
    into.add_leaf();
    Ok(())
}

fn branches_parts(
    alloc: Global,
    scope: &Scope<'_>,
    branches: &[Branch],
) -> Result<Thing, AllocError>
    ensures { IfOk result (λ thing. thing ≡ tally (spec.all_of (map (spec.branch_parts scope.now.definitions.now) branches.now))) }
{
    let mut thing = Thing::empty(alloc);
    for branch in branches {
        add_branch(scope, branch, &mut thing)?;
    }
    Ok(thing)
}

fn altstep_parts(
    alloc: Global,
    scope: &Scope<'_>,
    kind: &DefinitionKind,
) -> Result<Thing, AllocError>
    ensures { IfOk result (λ thing. thing ≡ tally (spec.altstep_parts scope.now.definitions.now kind.now)) }
{
    match kind {
        DefinitionKind::Altstep(altstep) => {
            branches_parts(alloc, scope, altstep.branches.as_slice())
        }
        _ => Ok(Thing::empty(alloc)),
    }
}

/// The altsteps of the module, by the positions of the definitions.
pub(crate) fn altsteps(alloc: Global, scope: &Scope<'_>) -> Result<Vec<Thing>, AllocError>
    ensures { IfOk result (λ things. things.items ≡ map tally (spec.altsteps scope.now.definitions.now)) }
{
    let mut things = Vec::new(alloc);
    for definition in scope.definitions {
        things.push(altstep_parts(alloc, scope, &definition.kind)?)?;
    }
    Ok(things)
}
