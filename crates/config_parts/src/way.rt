//! Where messages go (ES 201 873-1, 21.1 and 22.2).
ghost use Rattle.std.specs.Prelude.{◌≡◌, IfOk};
ghost use Rattle.std.specs.Option.{option_map};
ghost use Rattle.config_parts.specs.Legend.{IsLegend, Legend, end_by, going_by};
ghost use Rattle.config_parts.specs.Ways.{way_by};
ghost use Rattle.config_parts.specs.internal.Routes as spec;
ghost use Rattle.semantics.specs.Telling as rules;

use crate::change::is_terminated_at;
use crate::component::Component;
use crate::config::Going;
use crate::connect::peer;
use crate::connection::End;
use crate::copy::TryClone;
use std::alloc::{AllocError, Global};
use value_types::{Path, Slot};

/// Where a message goes.
#[derive(Drop)]
pub enum Way {
    /// Behind those that wait at a port.
    Reaches(End),
    /// Nowhere: the component of the port that it is meant for is terminated.
    Lost(End),
    /// Out of the test system, by a system port.
    Leaves(Slot),
}

/// The system port to which a port is mapped.
fn mapped_to(mappings: &[(Slot, End)], end: &End) -> Option<Slot>
    ensures { result ≡ spec.mapped_to mappings.now end.now }
{
    match mappings.iter().find(|mapping| *end == mapping.1) {
        Some(mapping) => Some(mapping.0),
        None => None,
    }
}

/// Where a message goes that is meant for a port.
fn way_to(alloc: Global, components: &[Component], end: &End) -> Result<Way, AllocError>
    ensures { IfOk result (λ way. way ≡ spec.way_to components.now end.now) }
{
    let copy = end.try_clone(alloc)?;
    if is_terminated_at(components, &end.component) {
        Ok(Way::Lost(copy))
    } else {
        Ok(Way::Reaches(copy))
    }
}

/// Where a message goes from a port, and to a component where one is named.
fn way_from(
    alloc: Global,
    going: &Going,
    from: &End,
    to: Option<&Path>,
) -> Result<Option<Way>, AllocError>
    ensures { IfOk result (λ way. way ≡ spec.way_from going.now from.now (option_map (λ path. path.now) to.entry)) }
{
    if let Some(system_port) = mapped_to(going.links.mappings.as_slice(), from) {
        return match to {
            Some(_) => Ok(None),
            None => Ok(Some(Way::Leaves(system_port))),
        };
    }
    match peer(going.links.connections.as_slice(), from, to) {
        Some(end) => {
            let way = way_to(alloc, going.components.as_slice(), end)?;
            Ok(Some(way))
        }
        None => Ok(None),
    }
}

impl Going {
    /// Where a message goes that is meant for a port.
    #[tactic(auto, using(crate::proofs::Routed::way_to_by))]
    pub fn way_to(&self, alloc: Global, end: &End) -> Result<Way, AllocError>
        ensures { (legend : Legend) → IfOk result (λ way. way_by legend way ≡ rules.way_to (going_by legend self.now) (end_by legend end.now)) }
    {
        way_to(alloc, self.components.as_slice(), end)
    }

    /// Where a message goes that is sent from a port, and to a component where one is named. Nowhere where sending it is a
    /// dynamic error.
    pub fn way_from(
        &self,
        alloc: Global,
        from: &End,
        to: Option<&Path>,
    ) -> Result<Option<Way>, AllocError>
        ensures { (legend : Legend) → IsLegend legend → IfOk result (λ way. option_map (way_by legend) way ≡ rules.way_from (going_by legend self.now) (end_by legend from.now) (option_map (λ path. path.now) to.entry)) }
    {
        way_from(alloc, self, from, to)
    }
}
