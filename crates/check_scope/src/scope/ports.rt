//! The types of the messages that pass at ports (ES 201 873-1, 6.2.9).
ghost use Rattle.std.specs.Prelude.{◌≡◌, ℕ, ◌++◌, map, IfOk, OnOk, Some};
ghost use Rattle.std.specs.List.{flat_map, slice_get};
ghost use Rattle.std.specs.Option.{option_map};
ghost use Rattle.check_scope.specs.PortTypes as spec;
ghost use Rattle.check_scope.specs.Names.{kind_at, resolved};
ghost use Rattle.check_scope.specs.internal.Tables.{said};
ghost use Rattle.check_scope.specs.internal.Traffic.{types_at, types_through};

use super::lookup::resolved_in;
use crate::table::Table;
use crate::traffic::Traffic;
use crate::type_listing::Listing;
use crate::types::DataType;
use std::alloc::{AllocError, Global};
use ttcn_syntax::{Definition, DefinitionKind, Direction, PortMessages, TypeName};

/// Whether messages of a direction come in, or go out.
pub fn passes(incoming: bool, direction: Direction) -> bool
    ensures { result ≡ spec.passes incoming direction }
{
    match direction {
        Direction::In => incoming,
        Direction::Out => !incoming,
        Direction::Inout => true,
    }
}

/// Adds the types that are named.
fn add_types(
    defined: &Table<'_>,
    types: &mut Vec<Option<DataType>>,
    names: &[TypeName],
) -> Result<(), AllocError>
    ensures { OnOk result (types.new.items ≡ types.old.items ++ map (resolved (said defined.now)) names.now) }
{
    for name in names {
        types.push(resolved_in(defined, name))?;
    }
    Ok(())
}

fn add_passing(
    defined: &Table<'_>,
    types: &mut Vec<Option<DataType>>,
    incoming: bool,
    messages: &PortMessages,
) -> Result<(), AllocError>
    ensures { OnOk result (types.new.items ≡ types.old.items ++ spec.types_passing (said defined.now) incoming messages.now) }
{
    if passes(incoming, messages.direction) {
        add_types(defined, types, messages.types.as_slice())?;
    }
    Ok(())
}

/// The types of the messages that pass in a direction.
fn types_of_messages(
    alloc: Global,
    defined: &Table<'_>,
    incoming: bool,
    all: &[PortMessages],
) -> Result<Vec<Option<DataType>>, AllocError>
    ensures { IfOk result (λ types. types.items ≡ flat_map (spec.types_passing (said defined.now) incoming) all.now) }
{
    let mut types = Vec::new(alloc);
    for messages in all {
        add_passing(defined, &mut types, incoming, messages)?;
    }
    Ok(types)
}

fn listing(
    alloc: Global,
    defined: &Table<'_>,
    incoming: bool,
    all: &[PortMessages],
) -> Result<Listing, AllocError>
    ensures { IfOk result (λ listing. listing.types.items ≡ flat_map (spec.types_passing (said defined.now) incoming) all.now) }
{
    let types = types_of_messages(alloc, defined, incoming, all)?;
    Listing::of(alloc, types)
}

/// What passes at ports of a type.
fn traffic(alloc: Global, defined: &Table<'_>, all: &[PortMessages]) -> Result<Traffic, AllocError>
    ensures { IfOk result (λ traffic. types_through (Some traffic) ≡ (λ incoming. flat_map (spec.types_passing (said defined.now) incoming) all.now)) }
{
    Ok(Traffic {
        incoming: listing(alloc, defined, true, all)?,
        outgoing: listing(alloc, defined, false, all)?,
    })
}

/// What passes at ports of what is defined, if it is a type of ports.
fn traffic_of(
    alloc: Global,
    defined: &Table<'_>,
    kind: &DefinitionKind,
) -> Result<Option<Traffic>, AllocError>
    ensures { IfOk result (λ traffic. types_through traffic ≡ (λ incoming. spec.types_of_port (said defined.now) incoming (Some kind.now))) }
{
    match kind {
        DefinitionKind::Port(port) => {
            let traffic = traffic(alloc, defined, port.messages.as_slice())?;
            Ok(Some(traffic))
        }
        _ => Ok(None),
    }
}

/// For each definition what passes at ports of it, if it is a type of ports.
pub(super) fn ports_of(
    alloc: Global,
    defined: &Table<'_>,
    definitions: &[Definition],
) -> Result<Vec<Option<Traffic>>, AllocError>
    ensures { IfOk result (λ ports. (at : ℕ) → types_at (slice_get ports.items at) ≡ (λ incoming. spec.types_of_port (said defined.now) incoming (kind_at definitions.now at))) }
{
    let mut ports = Vec::new(alloc);
    for definition in definitions {
        let traffic = traffic_of(alloc, defined, &definition.kind)?;
        ports.push(traffic)?;
    }
    Ok(ports)
}

/// What passes at ports of the type at a position.
pub(super) fn traffic_at(ports: &[Option<Traffic>], at: usize) -> Option<&Traffic>
    ensures { types_through (option_map (λ traffic. traffic.now) result) ≡ types_at (slice_get ports.now at) }
{
    ports.get(at)?.as_ref()
}
