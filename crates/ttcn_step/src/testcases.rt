//! Test cases of programs, with all that their steps need.
ghost use Rattle.std.specs.Prelude.{◌≡◌, ℕ, ◌<◌, ◌^◌, [], IfOk, get_or, length};
ghost use Rattle.std.specs.Option.{option_map};
ghost use Rattle.check_rules.specs.Calls.{component_named};
ghost use Rattle.check_scope.specs.Names.{component_meant, kind_at};
ghost use Rattle.semantics.specs.Sites as sites;
ghost use Rattle.semantics.specs.Snapshots as rules;
ghost use Rattle.semantics.specs.Statements as said;
ghost use Rattle.step_snapshot.specs.Slots.{NoneIsMissing};
ghost use Rattle.step_snapshot.specs.Tests.{test_by};
ghost use Rattle.graph_names.specs.Known.{names_of, names_of_kind};

use check_rules::{Definitions, Meaning, Program, runs_on_of};
use config_parts::Cells;
use graph_numbers::Names;
use std::alloc::{AllocError, Global};
use step_snapshot::TestCase;
use ttcn_graph::{Graphs, compile};
use ttcn_syntax::{DefinitionKind, Name, Seq};
use value_types::{ComponentId, Path, Value};

/// The name of the component type that a behaviour runs on, where it says so.
fn component_name<'a>(kind: Option<&'a DefinitionKind>) -> Option<&'a Name>
    ensures { option_map (λ name. name.now) result ≡ sites.component_name (option_map (λ kind. kind.now) kind.entry) }
{
    match kind {
        Some(DefinitionKind::Testcase(testcase)) => Some(&testcase.runs_on),
        _ => runs_on_of(kind),
    }
}

/// The position of the component type that a name stands for.
fn type_meant(meaning: Option<Meaning>) -> usize
    ensures { result ≡ rules.type_said (component_meant meaning) }
{
    match meaning {
        Some(Meaning::Component(position)) => position,
        _ => 0,
    }
}

/// The position of the component type of a name, where there is one.
fn type_named(definitions: &Definitions<'_>, name: Option<&Name>) -> usize
    ensures { result ≡ rules.type_said (component_named definitions.now (option_map (λ name. name.now) name.entry)) }
{
    match name {
        Some(name) => type_meant(definitions.meaning(name.as_bytes())),
        None => 0,
    }
}

/// The position of the component type that the behaviour at a position runs on.
fn type_of(definitions: &Definitions<'_>, position: usize) -> usize
    ensures { result ≡ rules.type_said (sites.runs_on definitions.now position) }
{
    type_named(definitions, component_name(definitions.kind(position)))
}

/// The name of the component type whose ports are the system ports of a test case: that behind `system`, or else that of the
/// type that it runs on.
fn system_name<'a>(kind: Option<&'a DefinitionKind>) -> Option<&'a Name>
    ensures { option_map (λ name. name.now) result ≡ said.system_name (option_map (λ kind. kind.now) kind.entry) }
{
    match kind {
        Some(DefinitionKind::Testcase(testcase)) => match &testcase.system {
            Some(name) => Some(name),
            None => Some(&testcase.runs_on),
        },
        _ => None,
    }
}

/// The position of the component type whose ports are the system ports of the test case at a position.
fn system_type(definitions: &Definitions<'_>, position: usize) -> usize
    ensures { (script : rules.Script) → result ≡ said.system_type (record { definitions = definitions.now; testcase = position; script = script }) }
{
    type_named(definitions, system_name(definitions.kind(position)))
}

/// The component that runs the test case at a position.
fn mtc_of(alloc: Global, definitions: &Definitions<'_>, position: usize) -> ComponentId
    ensures { (script : rules.Script) → result ≡ rules.mtc_of (record { definitions = definitions.now; testcase = position; script = script }) }
{
    ComponentId {
        path: Path {
            numbers: Seq::new(alloc),
        },
        component_type: type_of(definitions, position),
    }
}

/// The names that have slots. A module of at most 1 MiB has fewer names than slots can count, but that is not known here: more
/// are refused as if an allocation failed.
fn slots_of(alloc: Global, graphs: &Graphs<'_>) -> Result<Names, AllocError>
    ensures room { IfOk result (λ names. length names < 2 ^ 32) }
    ensures items { IfOk result (λ names. (position : ℕ) → NoneIsMissing names (names_of (get_or graphs.now.lists position []))) }
    ensures known { IfOk result (λ names. (at : ℕ) → NoneIsMissing names (names_of_kind (kind_at graphs.now.definitions at))) }
{
    graphs.knows_items();
    graphs.knows_definitions();
    let names = Names::of(alloc, graphs.names())?;
    if names.as_slice().len() > u32::MAX as usize {
        return Err(AllocError);
    }
    Ok(names)
}

/// The test case at a position of a program, which runs with a script.
pub(crate) fn testcase_at<'a>(
    alloc: Global,
    program: &'a Program,
    position: usize,
    script: &'a [(Name, Seq<Value>)],
) -> Result<TestCase<'a>, AllocError>
    ensures { IfOk result (λ test. test_by test ≡ record { definitions = program.now.definitions; testcase = position; script = script.now }) }
{
    let _module = program.module();
    let definitions = program.definitions(alloc)?;
    let graphs = compile(alloc, program)?;
    let names = slots_of(alloc, &graphs)?;
    let mtc = mtc_of(alloc, &definitions, position);
    let system_type = system_type(&definitions, position);
    Ok(TestCase {
        definitions,
        graphs,
        names,
        position,
        mtc,
        system_type,
        script,
        nothing: Cells::new(alloc),
    })
}
