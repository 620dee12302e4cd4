//! What ports of a type let pass (ES 201 873-1, 21.1 and 22.2).
ghost use Rattle.std.specs.Prelude.{◌≡◌, ◌++◌, IfOk, map};
ghost use Rattle.std.specs.List.{flat_map, list_any};
ghost use Rattle.std.specs.Option.{option_map};
ghost use Rattle.check_scope.specs.Names.{kind_at, module_names, resolved};
ghost use Rattle.check_scope.specs.PortTypes as spec;
ghost use Rattle.step_forms.specs.internal.Ports as ports;
ghost use Rattle.semantics.specs.Statements as said;

use check_rules::{DataType, Definitions};
use check_scope::scope::passes;
use std::alloc::{AllocError, Global};
use ttcn_syntax::{DefinitionKind, PortMessages, TypeName};

/// The types of names come behind others.
fn add_types(
    definitions: &Definitions<'_>,
    types: Vec<Option<DataType>>,
    names: &[TypeName],
) -> Result<Vec<Option<DataType>>, AllocError>
    ensures { IfOk result (λ new. new.items ≡ types.items ++ map (resolved (module_names definitions.now)) names.now) }
{
    let mut types = types;
    for name in names {
        types.push(definitions.resolved(name))?;
    }
    Ok(types)
}

/// The types of messages that pass in a direction come behind others.
fn add_passing(
    definitions: &Definitions<'_>,
    types: Vec<Option<DataType>>,
    incoming: bool,
    messages: &PortMessages,
) -> Result<Vec<Option<DataType>>, AllocError>
    ensures { IfOk result (λ new. new.items ≡ types.items ++ spec.types_passing (module_names definitions.now) incoming messages.now) }
{
    if passes(incoming, messages.direction) {
        add_types(definitions, types, messages.types.as_slice())
    } else {
        Ok(types)
    }
}

/// What a port type lists. It is nothing where no port type stands.
fn messages_of(kind: Option<&DefinitionKind>) -> &[PortMessages]
    ensures { result.now ≡ ports.messages_of (option_map (λ kind. kind.now) kind.entry) }
{
    match kind {
        Some(DefinitionKind::Port(port)) => port.messages.as_slice(),
        _ => &[],
    }
}

/// The types of messages that pass in a direction at ports of the type at a position.
fn types_passing(
    alloc: Global,
    definitions: &Definitions<'_>,
    incoming: bool,
    at: usize,
) -> Result<Vec<Option<DataType>>, AllocError>
    ensures { IfOk result (λ types. types.items ≡ flat_map (spec.types_passing (module_names definitions.now) incoming) (ports.messages_of (kind_at definitions.now at))) }
{
    let mut types = Vec::new(alloc);
    for messages in messages_of(definitions.kind(at)) {
        types = add_passing(definitions, types, incoming, messages)?;
    }
    Ok(types)
}

/// The types of messages that go through a port of the type at a position, if that is known.
fn types_at(
    alloc: Global,
    definitions: &Definitions<'_>,
    incoming: bool,
    port_type: Option<usize>,
) -> Result<Vec<Option<DataType>>, AllocError>
    ensures { IfOk result (λ types. types.items ≡ said.types_at definitions.now incoming port_type) }
{
    match port_type {
        Some(at) => types_passing(alloc, definitions, incoming, at),
        None => Ok(Vec::new(alloc)),
    }
}

/// Whether a type is that of another, which isn't judged where it is unknown.
fn agrees(one: DataType, other: Option<DataType>) -> bool
    ensures { result ≡ spec.agrees one other }
{
    match other {
        Some(other) => one.is_same(other),
        None => true,
    }
}

/// Whether a type is one of these, which aren't judged where they are unknown.
fn is_among(one: DataType, types: &[Option<DataType>]) -> bool
    ensures { result ≡ list_any (spec.agrees one) types.now }
{
    types.iter().any(|other| agrees(one, *other))
}

/// Whether these types have one, which isn't judged where it is unknown.
fn takes(types: &[Option<DataType>], one: Option<DataType>) -> bool
    ensures { result ≡ said.takes types.now one }
{
    match one {
        Some(one) => is_among(one, types),
        None => true,
    }
}

/// Whether what a port of one type lists for a way, in or out, is listed by a port of the other for a way, too.
fn is_covered(
    alloc: Global,
    definitions: &Definitions<'_>,
    incoming: bool,
    one: Option<usize>,
    other_incoming: bool,
    other: Option<usize>,
) -> Result<bool, AllocError>
    ensures { IfOk result (λ covered. covered ≡ said.is_covered definitions.now incoming one other_incoming other) }
{
    let listed = types_at(alloc, definitions, incoming, one)?;
    let others = types_at(alloc, definitions, other_incoming, other)?;
    Ok(listed.iter().all(|of| takes(&others, *of)))
}

/// Whether what a port of one type sends is received by a port of the other.
fn suits(
    alloc: Global,
    definitions: &Definitions<'_>,
    sending: Option<usize>,
    receiving: Option<usize>,
) -> Result<bool, AllocError>
    ensures { IfOk result (λ suited. suited ≡ said.suits definitions.now sending receiving) }
{
    is_covered(alloc, definitions, false, sending, true, receiving)
}

/// Whether two ports are there, and each sends only what the other receives.
pub fn suit_each_other(
    alloc: Global,
    definitions: &Definitions<'_>,
    one: Option<Option<usize>>,
    other: Option<Option<usize>>,
) -> Result<bool, AllocError>
    ensures { IfOk result (λ suited. suited ≡ said.suit_each_other definitions.now one other) }
{
    match (one, other) {
        (Some(one), Some(other)) => {
            Ok(suits(alloc, definitions, one, other)? && suits(alloc, definitions, other, one)?)
        }
        _ => Ok(false),
    }
}

/// Whether a port and a system port are there and may be mapped: the system port passes on what the port sends, and the port
/// receives what comes in at the system port.
pub fn is_mappable(
    alloc: Global,
    definitions: &Definitions<'_>,
    port: Option<Option<usize>>,
    system_port: Option<Option<usize>>,
) -> Result<bool, AllocError>
    ensures { IfOk result (λ mappable. mappable ≡ said.is_mappable definitions.now port system_port) }
{
    match (port, system_port) {
        (Some(port), Some(system_port)) => {
            Ok(
                is_covered(alloc, definitions, false, port, false, system_port)?
                    && is_covered(alloc, definitions, true, system_port, true, port)?,
            )
        }
        _ => Ok(false),
    }
}
