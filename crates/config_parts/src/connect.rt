//! Connections between ports: who is connected to whom, and new ones (ES 201 873-1, 21.1).
ghost use Rattle.std.specs.Prelude.{◌≡◌, IfOk};
ghost use Rattle.std.specs.Option.{option_map};
ghost use Rattle.config_parts.specs.internal.Done as done;
ghost use Rattle.config_parts.specs.internal.Ends as spec;

use crate::change::is_terminated_at;
use crate::component::Component;
use crate::connection::{Connection, End, Links};
use crate::copy::TryClone;
use crate::mapping::is_mapped;
use crate::shared::Shared;
use std::alloc::{AllocError, Global};
use std::cmp::Ordering;
use ttcn_syntax::Seq;
use value_types::{Fault, Path};

impl End {
    /// The order of ends: by their components, then by the names of their ports.
    fn cmp_to(&self, other: &End) -> Ordering
        ensures { result ≡ spec.end_cmp self.now other.now }
    {
        match self.component.numbers.cmp(&other.component.numbers) {
            Ordering::Equal => self.port.cmp(&other.port),
            unequal => unequal,
        }
    }

    /// Whether a message may go there that is sent to a component, where one is named.
    fn is_addressed(&self, to: Option<&Path>) -> bool
        ensures { result ≡ spec.addressed (option_map (λ path. path.now) to.entry) self.now }
    {
        match to {
            Some(path) => *path == self.component,
            None => true,
        }
    }
}

impl Connection {
    /// Two ends as a connection: the lesser one first.
    fn of(end: End, peer: End) -> Connection
        ensures { result ≡ spec.connection end peer }
    {
        match end.cmp_to(&peer) {
            Ordering::Greater => Connection {
                one: peer,
                other: end,
            },
            Ordering::Less | Ordering::Equal => Connection {
                one: end,
                other: peer,
            },
        }
    }

    fn cmp_to(&self, other: &Connection) -> Ordering
        ensures { result ≡ spec.connection_cmp self.now other.now }
    {
        match self.one.cmp_to(&other.one) {
            Ordering::Equal => self.other.cmp_to(&other.other),
            unequal => unequal,
        }
    }

    /// The end opposite to another, if the connection has that.
    fn opposite(&self, end: &End) -> Option<&End>
        ensures { option_map (λ end. end.now) result ≡ spec.opposite end.now self.now }
    {
        if *end == self.one {
            Some(&self.other)
        } else if *end == self.other {
            Some(&self.one)
        } else {
            None
        }
    }
}

/// The one end to which a message goes from another: there is no other to which it may go.
pub(crate) fn peer<'a>(
    connections: &'a [Connection],
    from: &End,
    to: Option<&Path>,
) -> Option<&'a End>
    ensures { option_map (λ end. end.now) result ≡ spec.peer connections.now from.now (option_map (λ path. path.now) to.entry) }
{
    let mut found = None;
    for connection in connections {
        let end = connection.opposite(from);
        match end {
            Some(end) if end.is_addressed(to) => {
                if found.is_some() {
                    return None;
                }
                found = Some(end);
            }
            _ => {}
        }
    }
    found
}

/// Whether an end is connected to another port of a component.
pub(crate) fn is_double(connections: &[Connection], end: &End, peer: &End) -> bool
    ensures { result ≡ spec.is_double connections.now end.now peer.now }
{
    for connection in connections {
        match connection.opposite(end) {
            Some(found) if found.component == peer.component && found.port != peer.port =>
                return true,
            _ => {}
        }
    }
    false
}

/// The connections with one more, in their order. One that is there stays one.
fn add(
    alloc: Global,
    connections: Seq<Connection>,
    new: Connection,
) -> Result<Seq<Connection>, AllocError>
    ensures { IfOk result (λ all. all ≡ spec.add_connection new connections) }
{
    let mut all = Vec::with_capacity(alloc, connections.len())?;
    let mut behind = Vec::new(alloc);
    for connection in connections.into_vec() {
        match connection.cmp_to(&new) {
            Ordering::Less => all.push(connection)?,
            Ordering::Equal => {}
            Ordering::Greater => behind.push(connection)?,
        }
    }
    all.push(new)?;
    all.append(&mut behind)?;
    Ok(Seq::from_vec(all))
}

/// Whether two ports may not be connected: a component is terminated, a port is mapped, or one of them would get a second
/// one of one component.
fn is_kept_apart(components: &[Component], links: &Links, one: &End, other: &End) -> bool
    ensures { result ≡ done.is_kept_apart components.now links.now one.now other.now }
{
    let connections = links.connections.as_slice();
    let mappings = links.mappings.as_slice();
    is_terminated_at(components, &one.component)
        || is_terminated_at(components, &other.component)
        || is_mapped(mappings, one)
        || is_mapped(mappings, other)
        || is_double(connections, one, other)
        || is_double(connections, other, one)
}

/// Two ports are connected.
pub(crate) fn connect(
    alloc: Global,
    components: &[Component],
    links: &Links,
    one: End,
    other: End,
) -> Result<Shared<Links>, Fault>
    ensures { done.Answers (done.connect components.now links.now one other) result }
{
    if is_kept_apart(components, links, &one, &other) {
        return Err(Fault::Dynamic);
    }
    let connections = links.connections.try_clone(alloc)?;
    let connections = add(alloc, connections, Connection::of(one, other))?;
    let mappings = links.mappings.try_clone(alloc)?;
    let delivered = links.delivered.try_clone(alloc)?;
    let links = Links {
        connections,
        mappings,
        delivered,
    };
    Ok(Shared::new(alloc, links)?)
}
