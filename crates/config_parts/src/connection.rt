//! Connections between ports, and their mappings to system ports (ES 201 873-1, 21.1).
use ttcn_syntax::Seq;
use value_types::{Path, Slot};

/// A component's port.
#[derive(PartialEq, Eq)]
pub struct End {
    pub component: Path,
    pub port: Slot,
}

impl Drop for End {
    fn drop(self) {
        let End {
            component: _component,
            port: _port,
        } = self;
    }
}

/// Two ports that are connected, the lesser one first.
#[derive(PartialEq, Eq)]
pub struct Connection {
    pub one: End,
    pub other: End,
}

impl Drop for Connection {
    fn drop(self) {
        let Connection {
            one: _one,
            other: _other,
        } = self;
    }
}

/// How ports are linked: with each other, and with system ports; and what came in there.
#[derive(PartialEq, Eq)]
pub struct Links {
    /// Ascending.
    pub connections: Seq<Connection>,
    /// The system ports that are mapped, ascending, each with the port that is mapped to it.
    pub mappings: Seq<(Slot, End)>,
    /// How many messages came in at each system port, where any did. The system ports ascend.
    pub delivered: Seq<(Slot, usize)>,
}

impl Drop for Links {
    fn drop(self) {
        let Links {
            connections: _connections,
            mappings: _mappings,
            delivered: _delivered,
        } = self;
    }
}
