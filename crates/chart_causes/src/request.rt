//! Why what a component asks for among all components is a dynamic error (ES 201 873-1, 21.1, 21.3 and 22.2).
use crate::names::write_path;
use crate::scene::Scene;
use config_parts::{Connection, End, Links, Request, State};
use std::alloc::{AllocError, Global};
use std::fmt::Write;
use value_types::{Path, Slot};

/// No more ports are named in one line.
const MOST: usize = 3;

/// The end of a connection opposite to another, if the connection has that.
fn opposite<'a>(connection: &'a Connection, end: &End) -> Option<&'a End> {
    if connection.one == *end {
        Some(&connection.other)
    } else if connection.other == *end {
        Some(&connection.one)
    } else {
        None
    }
}

/// The ports to which a port is connected, of a component where one is named.
fn peers<'a>(
    alloc: Global,
    connections: &'a [Connection],
    from: &End,
    to: Option<&Path>,
) -> Result<Vec<&'a End>, AllocError> {
    let mut peers = Vec::new(alloc);
    for connection in connections {
        if let Some(end) = opposite(connection, from) {
            let is_meant = match to {
                Some(path) => end.component == *path,
                None => true,
            };
            if is_meant {
                peers.push(end)?;
            }
        }
    }
    Ok(peers)
}

/// The port to which a port is connected of the component of another one, if that isn't the other one.
fn connected_otherwise<'a>(
    connections: &'a [Connection],
    end: &End,
    peer: &End,
) -> Option<&'a End> {
    for connection in connections {
        if let Some(found) = opposite(connection, end) {
            if found.component == peer.component && found.port != peer.port {
                return Some(found);
            }
        }
    }
    None
}

/// The port to which a port is connected, if it is.
fn first_peer<'a>(connections: &'a [Connection], end: &End) -> Option<&'a End> {
    for connection in connections {
        if let Some(found) = opposite(connection, end) {
            return Some(found);
        }
    }
    None
}

/// The system port to which a port is mapped.
fn mapped_to(links: &Links, end: &End) -> Option<Slot> {
    for mapping in links.mappings.as_slice() {
        if mapping.1 == *end {
            return Some(mapping.0);
        }
    }
    None
}

/// The port that is mapped to a system port.
fn mapped_at(links: &Links, system_port: Slot) -> Option<&End> {
    for mapping in links.mappings.as_slice() {
        if mapping.0 == system_port {
            return Some(&mapping.1);
        }
    }
    None
}

impl<'a> Scene<'a> {
    /// Writes a component's port as it is written in a module: `mtc.1:net`.
    pub(crate) fn write_port(&self, out: &mut String, end: &End) -> Result<(), AllocError> {
        write_path(out, &end.component)?;
        out.push_str(":")?;
        self.names.write_slot(out, end.port)
    }

    /// A port, with words and another port behind it.
    fn two_ports(
        &self,
        alloc: Global,
        one: &End,
        words: &str,
        other: &End,
    ) -> Result<String, AllocError> {
        let mut text = String::new(alloc);
        self.write_port(&mut text, one)?;
        text.push_str(words)?;
        self.write_port(&mut text, other)?;
        Ok(text)
    }

    /// A port that is mapped to a system port.
    fn is_mapped(&self, alloc: Global, end: &End, system_port: Slot) -> Result<String, AllocError> {
        let mut text = String::new(alloc);
        self.write_port(&mut text, end)?;
        text.push_str(" is mapped to system:")?;
        self.names.write_slot(&mut text, system_port)?;
        Ok(text)
    }

    /// A component, with words behind it.
    fn component_is(&self, alloc: Global, path: &Path, words: &str) -> Result<String, AllocError> {
        let mut text = String::new(alloc);
        write_path(&mut text, path)?;
        text.push_str(words)?;
        Ok(text)
    }

    /// Why a message has no way from a port: it leads to several others.
    fn leads_to_several(
        &self,
        alloc: Global,
        from: &End,
        peers: &[&End],
    ) -> Result<String, AllocError> {
        let mut text = String::new(alloc);
        self.names.write_slot(&mut text, from.port)?;
        write!(text, " leads to {} ports: ", peers.len())?;
        for (at, peer) in peers.iter().take(MOST).enumerate() {
            if at > 0 {
                text.push_str(", ")?;
            }
            self.write_port(&mut text, *peer)?;
        }
        if peers.len() > MOST {
            text.push_str(" ..")?;
        }
        Ok(text)
    }

    /// Why a message has no way from a port: it leads to none.
    fn leads_to_none(
        &self,
        alloc: Global,
        from: &End,
        to: Option<&Path>,
    ) -> Result<String, AllocError> {
        let mut text = String::new(alloc);
        self.names.write_slot(&mut text, from.port)?;
        match to {
            Some(path) => {
                text.push_str(" isn't connected to a port of ")?;
                write_path(&mut text, path)?;
            }
            None => text.push_str(" is neither connected nor mapped")?,
        }
        Ok(text)
    }

    /// Why a message has no way, or more than one.
    fn sending(&self, alloc: Global, port: Slot, to: Option<&Path>) -> Result<String, AllocError> {
        let from = End {
            component: self.component.itself.path.try_clone(alloc)?,
            port,
        };
        let links = self.going.links.get();
        if let Some(system_port) = mapped_to(links, &from) {
            let mut text = self.is_mapped(alloc, &from, system_port)?;
            text.push_str(", and no component can be named behind to")?;
            return Ok(text);
        }
        let peers = peers(alloc, links.connections.as_slice(), &from, to)?;
        if peers.is_empty() {
            self.leads_to_none(alloc, &from, to)
        } else {
            self.leads_to_several(alloc, &from, peers.as_slice())
        }
    }

    /// Why a component can't start.
    fn starting(&self, alloc: Global, path: &Path) -> Result<String, AllocError> {
        match self.state(path) {
            Some(State::Running) => self.component_is(alloc, path, " runs already"),
            Some(State::Terminated) => self.component_is(alloc, path, " has ended already"),
            Some(State::Created) | None => Ok(String::new(alloc)),
        }
    }

    /// Whether the component of a path is terminated.
    fn has_ended(&self, path: &Path) -> bool {
        matches!(self.state(path), Some(State::Terminated))
    }

    /// Why one of two ports can't be connected to the other, as far as it is by itself.
    fn unconnectable(
        &self,
        alloc: Global,
        end: &End,
        peer: &End,
    ) -> Result<Option<String>, AllocError> {
        let links = self.going.links.get();
        if self.has_ended(&end.component) {
            let text = self.component_is(alloc, &end.component, " has ended")?;
            return Ok(Some(text));
        }
        if let Some(system_port) = mapped_to(links, end) {
            return Ok(Some(self.is_mapped(alloc, end, system_port)?));
        }
        match connected_otherwise(links.connections.as_slice(), end, peer) {
            Some(other) => {
                let text = self.two_ports(alloc, end, " is connected to ", other)?;
                Ok(Some(text))
            }
            None => Ok(None),
        }
    }

    /// Why two ports can't be connected.
    fn connecting(&self, alloc: Global, one: &End, other: &End) -> Result<String, AllocError> {
        if let Some(cause) = self.unconnectable(alloc, one, other)? {
            return Ok(cause);
        }
        match self.unconnectable(alloc, other, one)? {
            Some(cause) => Ok(cause),
            None => Ok(String::new(alloc)),
        }
    }

    /// Why a port can't be mapped to a system port.
    fn mapping(&self, alloc: Global, end: &End, system_port: Slot) -> Result<String, AllocError> {
        let links = self.going.links.get();
        if self.has_ended(&end.component) {
            return self.component_is(alloc, &end.component, " has ended");
        }
        if let Some(peer) = first_peer(links.connections.as_slice(), end) {
            return self.two_ports(alloc, end, " is connected to ", peer);
        }
        match (mapped_to(links, end), mapped_at(links, system_port)) {
            (Some(other), _) => self.is_mapped(alloc, end, other),
            (None, Some(other)) => self.is_mapped(alloc, other, system_port),
            (None, None) => Ok(String::new(alloc)),
        }
    }

    /// Why what the component asks for is a dynamic error: empty where that isn't found.
    pub fn refusal(&self, alloc: Global, request: &Request) -> Result<String, AllocError> {
        match request {
            Request::Sends(port, to, _) => self.sending(alloc, *port, to.as_ref()),
            Request::Starts(path, _) => self.starting(alloc, path),
            Request::Connects(one, other) => self.connecting(alloc, one, other),
            Request::Maps(end, system_port) => self.mapping(alloc, end, *system_port),
            _ => Ok(String::new(alloc)),
        }
    }
}
