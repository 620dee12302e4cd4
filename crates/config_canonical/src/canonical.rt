//! Canonical configurations: two are equal exactly where their live parts are.
ghost use Rattle.std.specs.Prelude.{◌≡◌, IfOk, length, true};
ghost use Rattle.std.specs.List.{find, list_any};
ghost use Rattle.std.specs.Option.{option_map};
ghost use Rattle.config_canonical.specs.internal.Husks as spec;
ghost use Rattle.semantics.specs.Configurations.{same_path};
ghost use Rattle.semantics.specs.LiveParts.{live_part};
ghost use Rattle.config_parts.specs.Legend.{Legend, config_by};
ghost use Rattle.config_parts.specs.Views.{Extent, IsConfigWithin};

use config_parts::{
    Cells, Component, Config, Connection, Data, Going, Links, Shared, State, TryClone,
};
use std::alloc::{AllocError, Global};
use ttcn_syntax::{Seq, Verdict};
use value_types::{ComponentId, Path};

fn is_terminated(state: State) -> bool
    ensures { result ≡ spec.is_terminated state }
{
    match state {
        State::Terminated => true,
        State::Created | State::Running => false,
    }
}

fn badness(verdict: Verdict) -> u8
    ensures { result ≡ spec.badness verdict }
{
    match verdict {
        Verdict::None => 0,
        Verdict::Pass => 1,
        Verdict::Inconc => 2,
        Verdict::Fail => 3,
        Verdict::Error => 4,
    }
}

/// The worse of two verdicts.
fn worse(one: Verdict, other: Verdict) -> Verdict
    ensures { result ≡ spec.worse one other }
{
    if badness(one) < badness(other) {
        other
    } else {
        one
    }
}

/// Whether some component is terminated.
fn has_terminated(components: &[Component]) -> bool
    ensures { result ≡ list_any spec.is_over components.now }
{
    components
        .iter()
        .any(|component| is_terminated(component.state))
}

/// The component of a path, where there is one.
fn component_at<'a>(components: &'a [Component], path: &Path) -> Option<&'a Component>
    ensures { option_map (λ component. component.now) result ≡ find (λ component. same_path component.itself.path path.now) components.now }
{
    components
        .iter()
        .find(|component| component.itself.path == *path)
}

/// Whether the component of a path is there and terminated.
fn is_terminated_at(components: &[Component], path: &Path) -> bool
    ensures { result ≡ spec.is_terminated_at components.now path.now }
{
    match component_at(components, path) {
        Some(component) => is_terminated(component.state),
        None => false,
    }
}

/// A connection stays unless both its components are terminated.
fn is_live(components: &[Component], connection: &Connection) -> bool
    ensures { result ≡ spec.is_live components.now connection.now }
{
    !(is_terminated_at(components, &connection.one.component)
        && is_terminated_at(components, &connection.other.component))
}

/// Whether some connection doesn't stay.
fn has_dead(components: &[Component], connections: &[Connection]) -> bool
    ensures { result ≡ list_any (spec.is_dead components.now) connections.now }
{
    connections
        .iter()
        .any(|connection| !is_live(components, connection))
}

/// The connections that stay, in memory of their own.
fn live_among(
    alloc: Global,
    components: &[Component],
    connections: &[Connection],
) -> Result<Seq<Connection>, AllocError>
    ensures { IfOk result (λ live. live ≡ spec.live_connections components.now connections.now) }
{
    let mut live = Vec::new(alloc);
    for connection in connections {
        if is_live(components, connection) {
            live.push(connection.try_clone(alloc)?)?;
        }
    }
    Ok(Seq::from_vec(live))
}

/// The connections that stay, all mappings, and what came in.
fn live_links(
    alloc: Global,
    components: &[Component],
    links: Shared<Links>,
) -> Result<Shared<Links>, AllocError>
    ensures { IfOk result (λ live. live ≡ spec.live_links components.now links) }
{
    if !has_dead(components, links.connections.as_slice()) {
        return Ok(links);
    }
    let connections = live_among(alloc, components, links.connections.as_slice())?;
    let mappings = links.mappings.try_clone(alloc)?;
    let delivered = links.delivered.try_clone(alloc)?;
    Shared::new(
        alloc,
        Links {
            connections,
            mappings,
            delivered,
        },
    )
}

/// The worst verdict of the components of which nothing but their paths is left.
fn forgotten(components: &[Component], forgotten: Verdict) -> Verdict
    ensures { result ≡ spec.forgotten forgotten components.now }
{
    let mut worst = forgotten;
    for component in components {
        if is_terminated(component.state) {
            worst = worse(worst, component.verdict);
        }
    }
    worst
}

fn is_none(verdict: Verdict) -> bool
    ensures { result ≡ spec.is_none verdict }
{
    match verdict {
        Verdict::None => true,
        Verdict::Pass | Verdict::Inconc | Verdict::Fail | Verdict::Error => false,
    }
}

/// Whether nothing is left of what a component has of its own.
fn is_new(own: &Data) -> bool
    ensures { result ≡ spec.is_new own.now }
{
    own.members.values.len() == 0
        && own.members.timers.len() == 0
        && own.calls.len() == 0
        && own.defaults.len() == 0
        && own.activations == 0
        && own.children == 0
}

/// Whether nothing but its path and its state are left of a component.
fn is_bare(component: &Component) -> bool
    ensures { result ≡ spec.is_bare component.now }
{
    component.itself.component_type == 0
        && is_none(component.verdict)
        && component.queues.get().len() == 0
        && is_new(component.own.get())
}

/// Whether some component is terminated of which more than its path is left.
fn has_remains(components: &[Component]) -> bool
    ensures { result ≡ list_any spec.has_remains components.now }
{
    components.iter().any(|component| is_terminated(component.state) && !is_bare(component))
}

/// A terminated component of which only the path is left.
fn husk(alloc: Global, path: Path) -> Result<Component, AllocError>
    ensures { IfOk result (λ left. left ≡ spec.husk path) }
{
    let own = Data {
        members: Cells::new(alloc),
        calls: Seq::new(alloc),
        defaults: Seq::new(alloc),
        activations: 0,
        children: 0,
    };
    Ok(Component {
        itself: ComponentId {
            path,
            component_type: 0,
        },
        own: Shared::new(alloc, own)?,
        state: State::Terminated,
        verdict: Verdict::None,
        queues: Shared::new(alloc, Seq::new(alloc))?,
    })
}

fn live_component(alloc: Global, component: Component) -> Result<Component, AllocError>
    ensures { IfOk result (λ live. live ≡ spec.live_component component) }
{
    if is_terminated(component.state) && !is_bare(&component) {
        husk(alloc, component.into_itself().path)
    } else {
        Ok(component)
    }
}

fn live_components(alloc: Global, components: Seq<Component>) -> Result<Seq<Component>, AllocError>
    ensures { IfOk result (λ live. live ≡ spec.live_components components) }
{
    let mut live = Vec::with_capacity(alloc, components.len())?;
    for component in components.into_vec() {
        live.push(live_component(alloc, component)?)?;
    }
    Ok(Seq::from_vec(live))
}

/// Whether nothing is left in a test case that doesn't matter: of each terminated component only its path is left, and every
/// connection stays.
fn is_live_already(going: &Going) -> bool
    ensures { result ≡ true → going.now ≡ spec.live_going going.now }
{
    let components = going.components.as_slice();
    if has_remains(components) {
        return false;
    }
    !has_dead(components, going.links.connections.as_slice())
}

/// What matters of a test case that goes on. Where no component is terminated, all of it does.
fn live_going(alloc: Global, going: Going) -> Result<Going, AllocError>
    ensures { IfOk result (λ live. live ≡ spec.live_going going) }
{
    if !has_terminated(going.components.as_slice()) {
        return Ok(going);
    }
    if is_live_already(&going) {
        return Ok(going);
    }
    let Going {
        components,
        links,
        forgotten: worst,
    } = going;
    let links = live_links(alloc, components.as_slice(), links)?;
    let forgotten = forgotten(components.as_slice(), worst);
    let components = live_components(alloc, components)?;
    Ok(Going {
        components,
        links,
        forgotten,
    })
}

/// The canonical form of a configuration: it stands for the live part of what the configuration stands for, by every legend.
pub fn canon_owned(alloc: Global, config: Config) -> Result<Config, AllocError>
    ensures live { (legend : Legend) → IfOk result (λ live. config_by legend live ≡ live_part (config_by legend config)) }
    ensures within { (size : Extent) → IsConfigWithin size config → IfOk result (IsConfigWithin size) }
{
    match config {
        Config::Ended(verdict) => Ok(Config::Ended(verdict)),
        Config::Going(going) => Ok(Config::Going(live_going(alloc, going)?)),
    }
}

/// The canonical form of a configuration that is lent. Both may share their parts.
pub fn canon(alloc: Global, config: &Config) -> Result<Config, AllocError>
    ensures live { (legend : Legend) → IfOk result (λ live. config_by legend live ≡ live_part (config_by legend config.now)) }
    ensures within { (size : Extent) → IsConfigWithin size config.now → IfOk result (IsConfigWithin size) }
{
    let copy = config.try_clone(alloc)?;
    canon_owned(alloc, copy)
}
