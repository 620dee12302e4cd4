//! The names of a module.
ghost use Rattle.std.specs.Prelude.{◌≡◌, [], ◌∷◌, map, IfOk, OnOk};
ghost use Rattle.check_scope.specs.internal.Checking.{both, least, least_in};
ghost use Rattle.check_scope.specs.Scopes.{check_module_names, check_new_entries};
ghost use Rattle.check_scope.specs.Names.{behind, constant_entries, entries_at, module_names};
ghost use Rattle.check_scope.specs.Names as spec;
ghost use Rattle.check_scope.specs.internal.Tables.{said};

use crate::broken::Broken;
use crate::least::Least;
use crate::names::Meaning;
use crate::rule::Rule;
use crate::table::Table;
use std::alloc::{AllocError, Global};
use ttcn_syntax::{Constant, Definition, DefinitionKind, Enumerator, Name};

/// Adds a name. It is new, or a rule is broken.
fn add<'a>(table: &mut Table<'a>, name: &'a Name, meaning: Meaning) -> Result<Broken, AllocError>
    ensures broken { IfOk result (λ broken. broken ≡ least (check_new_entries (said table.old) ((name.now, meaning) ∷ []))) }
    ensures said { OnOk result (said table.new ≡ behind (said table.old) ((name.now, meaning) ∷ [])) }
{
    let is_new = table.get(name.as_bytes()).is_none();
    table.insert(name.as_bytes(), meaning)?;
    Ok(Broken::unless(is_new, Rule::DuplicateName))
}

fn add_constants<'a>(
    table: &mut Table<'a>,
    at: usize,
    constants: &'a [Constant],
) -> Result<Broken, AllocError>
    ensures broken { IfOk result (λ broken. broken ≡ least (check_new_entries (said table.old) (constant_entries at 0 constants.now))) }
    ensures said { OnOk result (said table.new ≡ behind (said table.old) (constant_entries at 0 constants.now)) }
{
    let mut broken = Broken::nothing();
    for (item, constant) in constants.iter().enumerate() {
        let more = add(table, &constant.name, Meaning::ModuleConstant(at, item))?;
        broken = broken.and(more);
    }
    Ok(broken)
}

fn add_enumerators<'a>(
    table: &mut Table<'a>,
    at: usize,
    enumerators: &'a [Enumerator],
) -> Result<Broken, AllocError>
    ensures broken { IfOk result (λ broken. broken ≡ least (check_new_entries (said table.old) (map (λ n. (n.name, Meaning.Enumerator at)) enumerators.now))) }
    ensures said { OnOk result (said table.new ≡ behind (said table.old) (map (λ n. (n.name, Meaning.Enumerator at)) enumerators.now)) }
{
    let mut broken = Broken::nothing();
    for enumerator in enumerators {
        let more = add(table, &enumerator.name, Meaning::Enumerator(at))?;
        broken = broken.and(more);
    }
    Ok(broken)
}

/// Adds what the definition at a position defines.
fn define<'a>(
    table: &mut Table<'a>,
    at: usize,
    kind: &'a DefinitionKind,
) -> Result<Broken, AllocError>
    ensures broken { IfOk result (λ broken. broken ≡ least (check_new_entries (said table.old) (entries_at at kind.now))) }
    ensures said { OnOk result (said table.new ≡ behind (said table.old) (entries_at at kind.now)) }
{
    match kind {
        DefinitionKind::Record(record) => add(table, &record.name, Meaning::Record(at)),
        DefinitionKind::Enumerated(enumerated) => {
            let broken = add(table, &enumerated.name, Meaning::Enumerated(at))?;
            let more = add_enumerators(table, at, enumerated.enumerators.as_slice())?;
            Ok(broken.and(more))
        }
        DefinitionKind::Port(port) => add(table, &port.name, Meaning::PortType(at)),
        DefinitionKind::Component(component) => {
            add(table, &component.name, Meaning::Component(at))
        }
        DefinitionKind::Constants(constants) => {
            add_constants(table, at, constants.constants.as_slice())
        }
        DefinitionKind::Template(template) => add(table, &template.name, Meaning::Template(at)),
        DefinitionKind::Function(function) => add(table, &function.name, Meaning::Function(at)),
        DefinitionKind::Altstep(altstep) => add(table, &altstep.name, Meaning::Altstep(at)),
        DefinitionKind::Testcase(testcase) => add(table, &testcase.name, Meaning::Testcase(at)),
    }
}

/// The names of the whole module. Each is defined once, or a rule is broken.
pub fn define_all<'a>(
    alloc: Global,
    definitions: &'a [Definition],
    found: &mut Least,
) -> Result<Table<'a>, AllocError>
    ensures names { IfOk result (λ table. said table ≡ module_names definitions.now) }
    ensures least { OnOk result (least_in found.new ≡ both (least_in found.old) (least (check_module_names definitions.now))) }
{
    let mut table = Table::new(alloc);
    for (at, definition) in definitions.iter().enumerate() {
        let broken = define(&mut table, at, &definition.kind)?;
        found.note(broken, definition.place);
    }
    Ok(table)
}
