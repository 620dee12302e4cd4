//! What a component asks for is done among all components (ES 201 873-1, 20 to 24).
ghost use Rattle.std.specs.Prelude.{◌≡◌, IfOk, OnOk};
ghost use Rattle.std.specs.Option.{option_map};
ghost use Rattle.config_parts.specs.internal.Done as spec;

use crate::change::{begin, deliver, place_of, terminate};
use crate::component::{Component, Message};
use crate::config::{Config, Going};
use crate::connect::peer;
use crate::connection::{Connection, End, Links};
use crate::frame::Frame;
use crate::mapping::{is_mapped, without_component};
use crate::shared::Shared;
use crate::verdict::worse;
use std::alloc::{AllocError, Global};
use ttcn_syntax::{Seq, Verdict};
use value_types::{ComponentId, Fault, Path, Slot, Value};

/// A message goes to the one peer to which it may go.
fn send_to_peer(
    alloc: Global,
    components: &mut Vec<Component>,
    connections: &[Connection],
    itself: &ComponentId,
    from: &End,
    to: Option<&Path>,
    value: Value,
) -> Result<(), Fault>
    ensures { spec.Leaves (spec.send_to_peer components.old.items connections.now itself.now from.now (option_map (λ path. path.now) to.entry) value) components.new.items result }
{
    let Some(peer) = peer(connections, from, to) else {
        return Err(Fault::Dynamic);
    };
    let message = Message {
        value,
        sender: Some(itself.try_clone(alloc)?),
    };
    deliver(alloc, components, &peer.component, peer.port, message)?;
    Ok(())
}

/// A component sends a value from a port: on a mapped port it leaves the test system, and no component may be named.
pub(crate) fn send(
    alloc: Global,
    components: &mut Vec<Component>,
    links: &Links,
    itself: &ComponentId,
    port: Slot,
    to: Option<&Path>,
    value: Value,
) -> Result<(), Fault>
    ensures { spec.Leaves (spec.send components.old.items links.now itself.now port (option_map (λ path. path.now) to.entry) value) components.new.items result }
{
    let from = End {
        component: itself.path.try_clone(alloc)?,
        port,
    };
    if !is_mapped(links.mappings.as_slice(), &from) {
        let connections = links.connections.as_slice();
        return send_to_peer(alloc, components, connections, itself, &from, to, value);
    }
    match to {
        Some(_) => Err(Fault::Dynamic),
        None => Ok(()),
    }
}

/// A component that is created begins to run.
pub(crate) fn start(
    alloc: Global,
    components: &mut Vec<Component>,
    path: &Path,
    frame: Frame,
) -> Result<(), Fault>
    ensures { spec.Leaves (spec.start components.old.items path.now frame) components.new.items result }
{
    let Some(at) = place_of(components, path) else {
        return Err(Fault::Dynamic);
    };
    if !components[at].state.is_created() {
        return Err(Fault::Dynamic);
    }
    begin(alloc, components, at, frame)?;
    Ok(())
}

/// The worst of the verdicts of all components.
pub(crate) fn overall(components: &[Component], forgotten: Verdict) -> Verdict
    ensures { result ≡ spec.overall forgotten components.now }
{
    let mut worst = forgotten;
    for component in components {
        worst = worse(worst, component.verdict);
    }
    worst
}

/// The test case goes on.
pub(crate) fn going_on(
    components: Vec<Component>,
    links: Shared<Links>,
    forgotten: Verdict,
) -> Config
    ensures { result ≡ spec.going_on components.items links forgotten }
{
    Config::Going(Going {
        components: Seq::from_vec(components),
        links,
        forgotten,
    })
}

/// Whether a path is that of the MTC.
fn is_main(path: &Path) -> bool
    ensures { result ≡ spec.is_main path.now }
{
    path.numbers.len() == 0
}

/// A component stops: its ports are mapped no more. The test case ends where the MTC does.
pub(crate) fn stop(
    alloc: Global,
    components: Vec<Component>,
    links: Shared<Links>,
    forgotten: Verdict,
    path: &Path,
) -> Result<Config, AllocError>
    ensures { IfOk result (λ config. config ≡ spec.stop components.items links forgotten path.now) }
{
    if is_main(path) {
        return Ok(Config::Ended(overall(&components, forgotten)));
    }
    let mut components = components;
    terminate(&mut components, path);
    let links = without_component(alloc, links, path)?;
    Ok(going_on(components, links, forgotten))
}
