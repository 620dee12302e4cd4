//! The graphs that a row asks for.
use crate::machine::picture::draw;
use std::alloc::{AllocError, Global};
use test_corpus::Settings;
use ttcn_graph::compile;
use ttcn_syntax::{Definition, DefinitionKind};
use ttcn_types::Program;

/// A picture of the graph of the behaviour of a name.
pub fn picture_of(
    alloc: Global,
    program: &Program,
    name: &str,
    settings: &Settings<'_>,
) -> Result<String, AllocError> {
    let definitions = program.module().definitions.as_slice();
    let Some(behaviour) = behaviour(definitions, name.as_bytes()) else {
        return String::from_str(alloc, "no behaviour");
    };
    let graphs = compile(alloc, program)?;
    draw(alloc, &graphs, behaviour, lines(settings))
}

/// The position of the behaviour of a name among definitions.
fn behaviour(definitions: &[Definition], name: &[u8]) -> Option<usize> {
    definitions
        .iter()
        .position(|definition| is_named(&definition.kind, name))
}

/// Whether a definition is a behaviour of this name.
fn is_named(kind: &DefinitionKind, name: &[u8]) -> bool {
    match kind {
        DefinitionKind::Function(function) => function.name.as_bytes() == name,
        DefinitionKind::Altstep(altstep) => altstep.name.as_bytes() == name,
        DefinitionKind::Testcase(testcase) => testcase.name.as_bytes() == name,
        _ => false,
    }
}

/// How many positions have a line.
fn lines(settings: &Settings<'_>) -> usize {
    match settings.get("lines") {
        Some(number) => number.parse::<usize>().unwrap_or(0),
        None => 100,
    }
}
