//! Messages that come in at system ports (ES 201 873-1, 21.1 and 22.2).
ghost use Rattle.std.specs.Prelude.{◌≡◌, ◌<◌, IfOk, OnOk};
ghost use Rattle.std.specs.List.{find};
ghost use Rattle.std.specs.Option.{option_map};
ghost use Rattle.config_parts.specs.Acts.{HasPathsInOrder};
ghost use Rattle.config_parts.specs.Legend.{IsLegend, Legend, end_by, going_by};
ghost use Rattle.config_parts.specs.Views.{Extent, IsGoingWithin};
ghost use Rattle.config_parts.specs.internal.Expiries.{is_of_slot};
ghost use Rattle.config_parts.specs.internal.Mappings as spec;
ghost use Rattle.semantics.specs.Steps as rules;
ghost use Rattle.value_types.specs.Frames.{entry};

use crate::cells::put;
use crate::change::deliver;
use crate::component::Message;
use crate::config::Going;
use crate::connection::{End, Links};
use crate::copy::TryClone;
use crate::shared::Shared;
use std::alloc::{AllocError, Global};
use std::mem;
use ttcn_syntax::Seq;
use value_types::{Slot, Value};

/// How many messages came in at a system port.
fn count_at(delivered: &[(Slot, usize)], system_port: Slot) -> usize
    ensures { result ≡ spec.count_at delivered.now system_port }
{
    match delivered.iter().find(|entry| entry.0 == system_port) {
        Some(entry) => entry.1,
        None => 0,
    }
}

/// The port that is mapped to a system port.
fn mapped_at(mappings: &[(Slot, End)], system_port: Slot) -> Option<&End>
    ensures { option_map (λ end. end.now) result ≡ option_map (λ e. e.1) (find (is_of_slot system_port) mappings.now) }
{
    match mappings.iter().find(|mapping| mapping.0 == system_port) {
        Some(mapping) => Some(&mapping.1),
        None => None,
    }
}

/// One more message came in at a system port. More than can be counted are refused as if an allocation failed.
fn with_delivery(
    alloc: Global,
    links: &Links,
    system_port: Slot,
) -> Result<Shared<Links>, AllocError>
    ensures { IfOk result (λ changed. changed ≡ spec.with_delivery system_port links.now) }
{
    let Some(count) = count_at(links.delivered.as_slice(), system_port).checked_add(1) else {
        return Err(AllocError);
    };
    let delivered = put(links.delivered.try_clone(alloc)?, system_port, count)?;
    Shared::new(
        alloc,
        Links {
            connections: links.connections.try_clone(alloc)?,
            mappings: links.mappings.try_clone(alloc)?,
            delivered,
        },
    )
}

impl Going {
    /// How many messages came in at the system port of a slot.
    pub fn delivered(&self, system_port: Slot) -> usize
        ensures { (legend : Legend) → IsLegend legend → result ≡ rules.delivered_at (going_by legend self.now).delivered (legend.names system_port) }
    {
        count_at(self.links.delivered.as_slice(), system_port)
    }

    /// The port that is mapped to the system port of a slot.
    pub fn mapped(&self, system_port: Slot) -> Option<&End>
        ensures { (legend : Legend) → IsLegend legend → option_map (λ end. end_by legend end.now) result ≡ entry (going_by legend self.now).mappings (legend.names system_port) }
    {
        mapped_at(self.links.mappings.as_slice(), system_port)
    }

    /// A message comes in at a system port, and goes behind those that wait at a port. The components stand in the order of
    /// their paths.
    pub fn come_in(
        &mut self,
        alloc: Global,
        system_port: Slot,
        end: End,
        value: Value,
    ) -> Result<(), AllocError>
        ensures comes { (legend : Legend) → IsLegend legend → HasPathsInOrder self.old → OnOk result (going_by legend self.new ≡ rules.come_in (legend.names system_port) (end_by legend end) value (going_by legend self.old)) }
        ensures within { (size : Extent) → IsGoingWithin size self.old → OnOk result (IsGoingWithin size self.new) }
    {
        let message = Message {
            value,
            sender: None,
        };
        let mut components = mem::replace(&mut self.components, Seq::new(alloc)).into_vec();
        deliver(alloc, &mut components, &end.component, end.port, message)?;
        self.components = Seq::from_vec(components);
        self.links = with_delivery(alloc, self.links.get(), system_port)?;
        Ok(())
    }
}
