//! Mappings of ports to system ports (ES 201 873-1, 21.1.1 and 21.1.2).
ghost use Rattle.std.specs.Prelude.{◌≡◌, IfOk};
ghost use Rattle.std.specs.List.{list_any};
ghost use Rattle.config_parts.specs.internal.Done as done;
ghost use Rattle.config_parts.specs.internal.Mappings as spec;

use crate::cells::put;
use crate::change::is_terminated_at;
use crate::component::Component;
use crate::connection::{Connection, End, Links};
use crate::copy::TryClone;
use crate::shared::Shared;
use std::alloc::{AllocError, Global};
use ttcn_syntax::Seq;
use value_types::{Fault, Path, Slot};

// ---- what is mapped

/// Whether a port is mapped.
pub(crate) fn is_mapped(mappings: &[(Slot, End)], end: &End) -> bool
    ensures { result ≡ spec.is_mapped mappings.now end.now }
{
    mappings.iter().any(|mapping| *end == mapping.1)
}

/// Whether a port is connected.
fn is_connected(connections: &[Connection], end: &End) -> bool
    ensures { result ≡ spec.is_connected connections.now end.now }
{
    connections.iter().any(|connection| *end == connection.one || *end == connection.other)
}

/// Whether a mapping maps one of these two and not the other.
fn maps_otherwise(mapping: &(Slot, End), end: &End, system_port: Slot) -> bool
    ensures { result ≡ spec.maps_otherwise end.now system_port mapping.now }
{
    if *end == mapping.1 {
        mapping.0 != system_port
    } else {
        mapping.0 == system_port
    }
}

/// Whether a port or a system port is mapped, and not one to the other.
fn is_mapped_otherwise(mappings: &[(Slot, End)], end: &End, system_port: Slot) -> bool
    ensures { result ≡ list_any (spec.maps_otherwise end.now system_port) mappings.now }
{
    mappings
        .iter()
        .any(|mapping| maps_otherwise(mapping, end, system_port))
}

/// Whether a port of a component is mapped.
fn has_mappings(mappings: &[(Slot, End)], path: &Path) -> bool
    ensures { result ≡ list_any (spec.is_of path.now) mappings.now }
{
    mappings.iter().any(|mapping| mapping.1.component == *path)
}

// ---- new mappings, and mappings that go

/// The same connections, with other mappings.
fn with_mappings(
    alloc: Global,
    links: &Links,
    mappings: Seq<(Slot, End)>,
) -> Result<Shared<Links>, AllocError>
    ensures { IfOk result (λ changed. changed ≡ spec.with_mappings mappings links.now) }
{
    let connections = links.connections.try_clone(alloc)?;
    let delivered = links.delivered.try_clone(alloc)?;
    Shared::new(
        alloc,
        Links {
            connections,
            mappings,
            delivered,
        },
    )
}

/// Whether a port may not be mapped to a system port: its component is terminated, it is connected, or one of the two is
/// mapped otherwise.
fn is_kept_unmapped(components: &[Component], links: &Links, end: &End, system_port: Slot) -> bool
    ensures { result ≡ done.is_kept_unmapped components.now links.now end.now system_port }
{
    is_terminated_at(components, &end.component)
        || is_connected(links.connections.as_slice(), end)
        || is_mapped_otherwise(links.mappings.as_slice(), end, system_port)
}

/// A port is mapped to a system port. A mapping that is there stays one.
pub(crate) fn map_port(
    alloc: Global,
    components: &[Component],
    links: &Links,
    end: End,
    system_port: Slot,
) -> Result<Shared<Links>, Fault>
    ensures { done.Answers (done.map_port components.now links.now end system_port) result }
{
    if is_kept_unmapped(components, links, &end, system_port) {
        return Err(Fault::Dynamic);
    }
    let mappings = put(links.mappings.try_clone(alloc)?, system_port, end)?;
    Ok(with_mappings(alloc, links, mappings)?)
}

/// The mappings without one, if it is there.
fn without_mapping(mappings: Seq<(Slot, End)>, end: &End, system_port: Slot) -> Seq<(Slot, End)>
    ensures { result ≡ spec.without_mapping end.now system_port mappings }
{
    let mut mappings = mappings.into_vec();
    mappings.retain(|mapping| !(*end == mapping.1 && mapping.0 == system_port));
    Seq::from_vec(mappings)
}

/// A port is mapped to a system port no more.
pub(crate) fn unmap_port(
    alloc: Global,
    links: &Links,
    end: &End,
    system_port: Slot,
) -> Result<Shared<Links>, AllocError>
    ensures { IfOk result (λ changed. changed ≡ spec.unmap_port end.now system_port links.now) }
{
    let mappings = without_mapping(links.mappings.try_clone(alloc)?, end, system_port);
    with_mappings(alloc, links, mappings)
}

/// The mappings without those of a component's ports.
fn without_ports(mappings: Seq<(Slot, End)>, path: &Path) -> Seq<(Slot, End)>
    ensures { result ≡ spec.without_ports path.now mappings }
{
    let mut mappings = mappings.into_vec();
    mappings.retain(|mapping| mapping.1.component != *path);
    Seq::from_vec(mappings)
}

/// A component's ports are mapped no more.
pub(crate) fn without_component(
    alloc: Global,
    links: Shared<Links>,
    path: &Path,
) -> Result<Shared<Links>, AllocError>
    ensures { IfOk result (λ changed. changed ≡ spec.without_component path.now links) }
{
    if !has_mappings(links.mappings.as_slice(), path) {
        return Ok(links);
    }
    let mappings = without_ports(links.mappings.try_clone(alloc)?, path);
    with_mappings(alloc, links.get(), mappings)
}
