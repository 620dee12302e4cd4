//! Mappings between ports and system ports (ES 201 873-1, 21.1).
ghost use Rattle.std.specs.Prelude.{◌≡◌, IfOk};
ghost use Rattle.step_forms.specs.Asks.{Asks, AsksWithin};
ghost use Rattle.step_snapshot.specs.Slots.{IsKnown};
ghost use Rattle.step_forms.specs.internal.Stands.{legend_of, site_of, stand_by};
ghost use Rattle.semantics.specs.Statements as said;
ghost use Rattle.step_snapshot.specs.Tests.{extent_of, test_by};
ghost use Rattle.ttcn_syntax.specs.declared.tree.statement.MapOperation.TheVariants as operation;

use crate::port_types::is_mappable;
use crate::stand::Stand;
use config_parts::{Act, End, Request};
use graph_sites::port_type;
use std::alloc::{AllocError, Global};
use step_snapshot::TestCase;
use ttcn_syntax::{MapOperation, Mapping, Name};
use value_types::{ComponentId, Fault};

/// Whether a port of a component may be mapped to a system port, as far as their types go.
fn may_map(
    alloc: Global,
    test: &TestCase<'_>,
    component: &ComponentId,
    port: &Name,
    system_port: &Name,
) -> Result<bool, AllocError>
    ensures { IfOk result (λ may. may ≡ said.may_map (test_by test.now) component.now port.now system_port.now) }
{
    let first = port_type(&test.definitions, component.component_type, port);
    let second = port_type(&test.definitions, test.system_type, system_port);
    is_mappable(alloc, &test.definitions, first, second)
}

/// A port is to be mapped to a system port.
fn map_port(
    alloc: Global,
    stand: &Stand<'_, '_>,
    component: ComponentId,
    port: &Name,
    system_port: &Name,
) -> Result<Option<Act>, Fault>
    requires port { IsKnown stand.now.snapshot.now.test.now.names port.now }
    requires system { IsKnown stand.now.snapshot.now.test.now.names system_port.now }
    ensures asks { Asks (legend_of stand.now) (said.ask_mapping (stand_by stand.now) component port.now system_port.now) result }
    ensures within { AsksWithin (extent_of stand.now.snapshot.now.test.now) result }
{
    let test = stand.snapshot.test;
    if !may_map(alloc, test, &component, port, system_port)? {
        return Err(Fault::Dynamic);
    }
    let own = stand.done(alloc)?;
    let end = End {
        component: component.path,
        port: test.slot_of(port),
    };
    Ok(Some(Act {
        request: Request::Maps(end, test.slot_of(system_port)),
        own,
    }))
}

/// A port is to be mapped to a system port no more.
fn unmap_port(
    alloc: Global,
    stand: &Stand<'_, '_>,
    component: ComponentId,
    port: &Name,
    system_port: &Name,
) -> Result<Option<Act>, Fault>
    requires port { IsKnown stand.now.snapshot.now.test.now.names port.now }
    requires system { IsKnown stand.now.snapshot.now.test.now.names system_port.now }
    ensures asks { Asks (legend_of stand.now) (said.ask_operation (stand_by stand.now) operation.Unmap component port.now system_port.now) result }
    ensures within { AsksWithin (extent_of stand.now.snapshot.now.test.now) result }
{
    let test = stand.snapshot.test;
    let own = stand.done(alloc)?;
    let end = End {
        component: component.path,
        port: test.slot_of(port),
    };
    Ok(Some(Act {
        request: Request::Unmaps(end, test.slot_of(system_port)),
        own,
    }))
}

/// An operation on mappings is to be done with a port of a component.
fn operate(
    alloc: Global,
    stand: &Stand<'_, '_>,
    mapping: &Mapping,
    component: ComponentId,
) -> Result<Option<Act>, Fault>
    requires port { IsKnown stand.now.snapshot.now.test.now.names mapping.now.port.port }
    requires system { IsKnown stand.now.snapshot.now.test.now.names mapping.now.system_port }
    ensures asks { Asks (legend_of stand.now) (said.ask_operation (stand_by stand.now) mapping.now.operation component mapping.now.port.port mapping.now.system_port) result }
    ensures within { AsksWithin (extent_of stand.now.snapshot.now.test.now) result }
{
    let port = &mapping.port.port;
    let system_port = &mapping.system_port;
    match mapping.operation {
        MapOperation::Map => map_port(alloc, stand, component, port, system_port),
        MapOperation::Unmap => unmap_port(alloc, stand, component, port, system_port),
    }
}

/// A port is to be mapped or unmapped.
pub fn act_map(
    alloc: Global,
    stand: &Stand<'_, '_>,
    mapping: &Mapping,
) -> Result<Option<Act>, Fault>
    requires port { IsKnown stand.now.snapshot.now.test.now.names mapping.now.port.port }
    requires system { IsKnown stand.now.snapshot.now.test.now.names mapping.now.system_port }
    ensures asks { Asks (legend_of stand.now) (said.act_map (stand_by stand.now) (site_of stand.now) mapping.now) result }
    ensures within { AsksWithin (extent_of stand.now.snapshot.now.test.now) result }
{
    let component = stand.component(alloc, &mapping.port.component)?;
    operate(alloc, stand, mapping, component)
}
