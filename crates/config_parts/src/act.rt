//! What components ask for in their steps, and how it is done among all components (ES 201 873-1, 20 to 24).
ghost use Rattle.std.specs.Prelude.{◌≡◌, IfOk};
ghost use Rattle.semantics.specs.Snapshots.{Test};
ghost use Rattle.semantics.specs.Steps as rules;
ghost use Rattle.config_parts.specs.Acts.{HasPathsInOrder, IsUncovered, Leads, act_by};
ghost use Rattle.config_parts.specs.Legend.{IsLegend, Legend, going_by};
ghost use Rattle.config_parts.specs.Views.{Extent, IsActWithin, IsConfigWithin, IsGoingWithin};
ghost use Rattle.config_parts.specs.internal.Done as done;

use crate::change::{remove_first, settle, worsen};
use crate::component::Component;
use crate::config::{Config, Going};
use crate::connect::connect;
use crate::connection::{End, Links};
use crate::create::create;
use crate::frame::{Data, Frame};
use crate::going::{going_on, send, start, stop};
use crate::mapping::{map_port, unmap_port};
use crate::shared::Shared;
use std::alloc::Global;
use ttcn_syntax::Verdict;
use value_types::{ComponentId, Fault, Path, Slot, Value};

/// What a component asks for among all components, beside the change of its own data.
#[derive(Drop)]
pub enum Request {
    /// Nothing more.
    Continues,
    /// The component's verdict gets no better than this.
    Worsens(Verdict),
    /// The first message of a port is removed.
    Removes(Slot),
    /// A message is sent from a port, to a component where one is named.
    Sends(Slot, Option<Path>, Value),
    /// A new component.
    Creates(Component),
    /// A created component starts with a frame.
    Starts(Path, Frame),
    /// A component stops.
    Stops(Path),
    /// Two ports are connected.
    Connects(End, End),
    /// A port is mapped to a system port.
    Maps(End, Slot),
    /// A port is mapped to a system port no more.
    Unmaps(End, Slot),
}

/// What a component does in its step.
#[derive(Drop)]
pub struct Act {
    pub request: Request,
    /// The component's own data behind the step.
    pub own: Data,
}

/// What a component asks for is done, where its own data are in place.
fn performed(
    alloc: Global,
    components: Vec<Component>,
    links: Shared<Links>,
    forgotten: Verdict,
    itself: &ComponentId,
    request: Request,
) -> Result<Config, Fault>
    ensures { done.Answers (done.perform components.items links forgotten itself.now request) result }
{
    let mut components = components;
    match request {
        Request::Continues => Ok(going_on(components, links, forgotten)),
        Request::Worsens(verdict) => {
            worsen(&mut components, &itself.path, verdict);
            Ok(going_on(components, links, forgotten))
        }
        Request::Removes(port) => {
            remove_first(alloc, &mut components, &itself.path, port)?;
            Ok(going_on(components, links, forgotten))
        }
        Request::Sends(port, to, value) => {
            send(
                alloc,
                &mut components,
                links.get(),
                itself,
                port,
                to.as_ref(),
                value,
            )?;
            Ok(going_on(components, links, forgotten))
        }
        Request::Creates(new) => {
            create(&mut components, new)?;
            Ok(going_on(components, links, forgotten))
        }
        Request::Starts(path, frame) => {
            start(alloc, &mut components, &path, frame)?;
            Ok(going_on(components, links, forgotten))
        }
        Request::Stops(path) => Ok(stop(alloc, components, links, forgotten, &path)?),
        Request::Connects(one, other) => {
            let links = connect(alloc, &components, links.get(), one, other)?;
            Ok(going_on(components, links, forgotten))
        }
        Request::Maps(end, system_port) => {
            let links = map_port(alloc, &components, links.get(), end, system_port)?;
            Ok(going_on(components, links, forgotten))
        }
        Request::Unmaps(end, system_port) => {
            let links = unmap_port(alloc, links.get(), &end, system_port)?;
            Ok(going_on(components, links, forgotten))
        }
    }
}

/// What a component does in its step: its own data change first, and then what it asks for is done among all components.
fn done(going: Going, alloc: Global, itself: &ComponentId, act: Act) -> Result<Config, Fault>
    ensures { done.Answers (done.apply going itself.now act) result }
{
    let Going {
        components,
        links,
        forgotten,
    } = going;
    let Act { request, own } = act;
    let mut components = components.into_vec();
    settle(alloc, &mut components, &itself.path, own)?;
    performed(alloc, components, links, forgotten, itself, request)
}

impl Going {
    /// What a component asks for in its step is done: the configuration that the step leads to, or a fault where it is a
    /// dynamic error. The components stand in the order of their paths, and the marks that come first are gone already from
    /// the data behind the step.
    pub fn apply(self, alloc: Global, itself: &ComponentId, act: Act) -> Result<Config, Fault>
        ensures leads { (legend : Legend) (test : Test) → IsLegend legend → HasPathsInOrder self → IsUncovered (act_by legend act) → Leads legend (rules.apply test (going_by legend self) itself.now (act_by legend act)) result }
        ensures within { (size : Extent) → IsGoingWithin size self → IsActWithin size act → IfOk result (IsConfigWithin size) }
    {
        done(self, alloc, itself, act)
    }
}
