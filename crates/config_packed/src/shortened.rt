//! Configurations in whose queues only the messages in front are left.
ghost use Rattle.std.specs.List.{flat_map};
ghost use Rattle.std.specs.Prelude.{◌≡◌, ◌++◌, IfOk, OnOk};
ghost use Rattle.config_packed.specs.internal.Cuts.{joined, shortened_parts};
ghost use Rattle.config_packed.specs.Pieces.{IsCut, bytes_of, shortened_going};
ghost use Rattle.config_parts.specs.declared.config.Going.{Going};

use crate::packed::Packed;
use crate::pieces::{ComponentBytes, ConfigBytes, put_fronts};
use crate::sized::put_sized;
use crate::whole::ROOM;
use config_parts::Config;
use std::alloc::{AllocError, Global};

/// The bytes of a component with the first message of each queue. What is spelled apart first is its queues.
fn put_shortened(
    bytes: &mut Vec<u8>,
    apart: &mut Vec<u8>,
    component: &ComponentBytes<'_>,
) -> Result<(), AllocError>
    ensures { OnOk result (bytes.new.items ≡ bytes.old.items ++ joined (shortened_parts (bytes_of component.now))) }
{
    put_sized(bytes, component.own)?;
    apart.clear();
    put_fronts(apart, component.queues)?;
    put_sized(bytes, apart.as_slice())
}

/// The same of several components, one behind the other.
fn put_all_shortened(
    bytes: &mut Vec<u8>,
    apart: &mut Vec<u8>,
    components: &[ComponentBytes<'_>],
) -> Result<(), AllocError>
    ensures { OnOk result (bytes.new.items ≡ bytes.old.items ++ flat_map (λ component. joined (shortened_parts (bytes_of component))) components.now) }
{
    for component in components {
        put_shortened(bytes, apart, component)?;
    }
    Ok(())
}

impl ConfigBytes<'_> {
    /// The configuration in whose queues only the messages in front are left, in bytes of its own.
    pub fn shortened(&self, alloc: Global) -> Result<Packed, AllocError>
        requires { (going : Going) × IsCut going self.now }
        ensures { (going : Going) → IsCut going self.now → IfOk result (λ packed. packed ≡ Config.Going (shortened_going going)) }
    {
        let mut bytes = Vec::with_capacity(alloc, ROOM)?;
        let mut apart = Vec::with_capacity(alloc, ROOM)?;
        bytes.extend_from_slice(self.head)?;
        put_all_shortened(&mut bytes, &mut apart, self.components.as_slice())?;
        Ok(Packed::from_bytes(bytes))
    }

    /// How many bytes the messages that wait take, with those of their ports.
    pub fn queue_bytes(&self) -> usize {
        let mut size: usize = 0;
        for component in self.components.as_slice() {
            size = size.saturating_add(component.queues.len());
        }
        size
    }
}
