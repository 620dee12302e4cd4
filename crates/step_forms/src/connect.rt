//! Connections between ports (ES 201 873-1, 21.1).
ghost use Rattle.std.specs.Prelude.{◌≡◌, length, IfOk};
ghost use Rattle.step_forms.specs.Asks.{Asks, AsksWithin};
ghost use Rattle.step_snapshot.specs.Slots.{IsKnown};
ghost use Rattle.step_forms.specs.internal.Stands.{legend_of, site_of, stand_by};
ghost use Rattle.semantics.specs.Statements as said;
ghost use Rattle.step_snapshot.specs.Tests.{extent_of};

use crate::port_types::suit_each_other;
use crate::stand::Stand;
use config_parts::{Act, End, Request};
use graph_sites::port_type;
use std::alloc::{AllocError, Global};
use step_snapshot::TestCase;
use ttcn_syntax::{Name, PortRef};
use value_types::{ComponentId, Fault};

/// Whether two ports may be connected, as far as their types go: they are there and aren't one, and each sends only what
/// the other receives.
fn may_connect(
    alloc: Global,
    test: &TestCase<'_>,
    one: &ComponentId,
    port: &Name,
    other: &ComponentId,
    other_port: &Name,
) -> Result<bool, AllocError>
    ensures { IfOk result (λ may. may ≡ said.may_connect test.now.definitions one.now port.now other.now other_port.now) }
{
    let first = port_type(&test.definitions, one.component_type, port);
    let second = port_type(&test.definitions, other.component_type, other_port);
    let suited = suit_each_other(alloc, &test.definitions, first, second)?;
    Ok(suited && !(one.path == other.path && port == other_port))
}

/// Two ports of components are to be connected.
fn connect_ends(
    alloc: Global,
    stand: &Stand<'_, '_>,
    first: ComponentId,
    port: &Name,
    second: ComponentId,
    other_port: &Name,
) -> Result<Option<Act>, Fault>
    requires one { IsKnown stand.now.snapshot.now.test.now.names port.now }
    requires other { IsKnown stand.now.snapshot.now.test.now.names other_port.now }
    ensures asks { Asks (legend_of stand.now) (said.ask_connection (stand_by stand.now) first port.now second other_port.now) result }
    ensures within { AsksWithin (extent_of stand.now.snapshot.now.test.now) result }
{
    let test = stand.snapshot.test;
    if !may_connect(alloc, test, &first, port, &second, other_port)? {
        return Err(Fault::Dynamic);
    }
    let own = stand.done(alloc)?;
    let one = End {
        component: first.path,
        port: test.slot_of(port),
    };
    let other = End {
        component: second.path,
        port: test.slot_of(other_port),
    };
    Ok(Some(Act {
        request: Request::Connects(one, other),
        own,
    }))
}

/// Two ports are to be connected.
pub fn act_connect(
    alloc: Global,
    stand: &Stand<'_, '_>,
    one: &PortRef,
    other: &PortRef,
) -> Result<Option<Act>, Fault>
    requires one { IsKnown stand.now.snapshot.now.test.now.names one.now.port }
    requires other { IsKnown stand.now.snapshot.now.test.now.names other.now.port }
    ensures asks { Asks (legend_of stand.now) (said.act_connect (stand_by stand.now) (site_of stand.now) one.now other.now) result }
    ensures within { AsksWithin (extent_of stand.now.snapshot.now.test.now) result }
{
    let first = stand.component(alloc, &one.component)?;
    let second = stand.component(alloc, &other.component)?;
    connect_ends(alloc, stand, first, &one.port, second, &other.port)
}
