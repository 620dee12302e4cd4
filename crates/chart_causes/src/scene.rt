//! A component where it stands.
use crate::names::Names;
use crate::sight::Sight;
use check_rules::{Definitions, Meaning, runs_on_of};
use config_parts::{Component, Going, Queue, State};
use ttcn_syntax::{DefinitionKind, Name, Span};
use value_types::{ComponentId, Frame, Path, Slot, TimerState, Value};

/// A component, the configuration in which it stands, and what gives words.
#[derive(Clone, Copy)]
pub struct Scene<'a> {
    pub(crate) names: Names<'a>,
    /// The definitions of the module, by their names.
    pub(crate) defined: &'a Definitions<'a>,
    pub(crate) going: &'a Going,
    pub(crate) component: &'a Component,
    /// The components that run.
    pub(crate) running: &'a [&'a Path],
    pub(crate) mtc: &'a ComponentId,
}

/// A behaviour by its position among the definitions, with the values of its own names and the states of its own timers.
#[derive(Clone, Copy)]
pub(crate) struct Place<'a> {
    pub(crate) behaviour: usize,
    pub(crate) values: &'a [(Slot, Value)],
    pub(crate) timers: &'a [(Slot, TimerState)],
}

impl<'a> Scene<'a> {
    /// A component in a configuration where these components run.
    pub fn new(
        names: Names<'a>,
        defined: &'a Definitions<'a>,
        going: &'a Going,
        component: &'a Component,
        running: &'a [&'a Path],
        mtc: &'a ComponentId,
    ) -> Scene<'a> {
        Scene {
            names,
            defined,
            going,
            component,
            running,
            mtc,
        }
    }

    /// Whether the behaviour at a position says on what it runs, and so sees the names of the component.
    fn sees_members(&self, behaviour: usize) -> bool {
        let name = match self.defined.kind(behaviour) {
            Some(DefinitionKind::Testcase(testcase)) => Some(&testcase.runs_on),
            kind => runs_on_of(kind),
        };
        match name {
            Some(name) => matches!(
                self.defined.meaning(name.as_bytes()),
                Some(Meaning::Component(_))
            ),
            None => false,
        }
    }

    /// Where the component stands whose last frame is at a statement.
    pub(crate) fn last_place(&self, statement: Span) -> Place<'a> {
        let behaviour = self.names.definition_at(statement).unwrap_or(0);
        match self.component.own.get().calls.as_slice().first() {
            Some(frame) => Place {
                behaviour,
                values: frame.cells.values.as_slice(),
                timers: frame.cells.timers.as_slice(),
            },
            None => Place {
                behaviour,
                values: &[],
                timers: &[],
            },
        }
    }

    /// What expressions read in a behaviour.
    pub(crate) fn sight(&self, place: Place<'a>) -> Sight<'a> {
        let members = &self.component.own.get().members;
        let seen = self.sees_members(place.behaviour);
        let frame = Frame {
            definitions: self.defined,
            names: self.names.slots,
            locals: place.values,
            members: if seen { members.values.as_slice() } else { &[] },
            local_timers: place.timers,
            member_timers: if seen { members.timers.as_slice() } else { &[] },
            running: self.running,
            itself: &self.component.itself,
            mtc: self.mtc,
        };
        Sight {
            names: self.names,
            frame,
        }
    }

    /// The messages that wait at the port of a name, where the component has it.
    pub(crate) fn queue(&self, name: &Name) -> Option<&'a Queue> {
        let slot = self.names.slot_of(name)?;
        self.component
            .queues
            .get()
            .as_slice()
            .iter()
            .find(|queue| queue.port == slot)
    }

    /// The component with a path.
    pub(crate) fn other(&self, path: &Path) -> Option<&'a Component> {
        self.going
            .components
            .as_slice()
            .iter()
            .find(|component| component.itself.path == *path)
    }

    /// How far the component with a path has come.
    pub(crate) fn state(&self, path: &Path) -> Option<State> {
        match self.other(path) {
            Some(component) => Some(component.state),
            None => None,
        }
    }
}
