//! The bytes of a configuration that goes on, in parts.
ghost use Rattle.std.specs.Prelude.{◌≡◌, ◌++◌, ◌<◌, IfOk, OnOk, Some, length, map, slice_get};
ghost use Rattle.config_packed.specs.internal.Cuts.{cut_content, cut_front, cut_fronts, first_of};
ghost use Rattle.config_packed.specs.Pieces.{IsCut, bytes_of, spell_key};
ghost use Rattle.config_packed.specs.Reading.{read_items};
ghost use Rattle.config_packed.specs.Shares.{AreOf};
ghost use Rattle.config_packed.specs.Spelling.{spell_config};
ghost use Rattle.config_packed.specs.declared.pieces.ComponentBytes.{ComponentBytes};
ghost use Rattle.config_parts.specs.declared.component.Component.{Component};
ghost use Rattle.config_parts.specs.declared.config.Going.{Going};

use crate::byte_reader::ByteReader;
use crate::halves::half;
use crate::number::{LONG_ROOM, put_long, put_pair, take_long, take_pair};
use crate::sized::{put_sized, take_sized};
use crate::skip::Skip;
use config_parts::{Config, Message};
use std::alloc::{AllocError, Global};

/// The bytes of a component: those of its verdict and its data, and those of its queues.
#[derive(Clone, Copy)]
pub struct ComponentBytes<'a> {
    pub own: &'a [u8],
    pub queues: &'a [u8],
}

/// The bytes of a configuration that goes on, in parts.
#[derive(Drop)]
pub struct ConfigBytes<'a> {
    /// What stands before the bytes of the components, the outline at its end.
    pub head: &'a [u8],
    /// What all components see: how ports are linked, and the names and states of the components.
    pub outline: &'a [u8],
    pub components: Vec<ComponentBytes<'a>>,
    /// Whether system ports are mapped.
    pub has_mappings: bool,
}

// ---- cutting

/// The bytes of the next component.
#[tactic(auto, unfolding(crate::specs::internal::Cuts::cut_content))]
fn take_component<'a>(reader: &mut ByteReader<'a>) -> ComponentBytes<'a>
    ensures value { bytes_of result ≡ (cut_content reader.old).0 }
    ensures rest { reader.new ≡ (cut_content reader.old).1 }
{
    let own = take_sized(reader);
    let queues = take_sized(reader);
    ComponentBytes { own, queues }
}

/// Adds the bytes of this many components.
fn take_components<'a>(
    components: &mut Vec<ComponentBytes<'a>>,
    reader: &mut ByteReader<'a>,
    count: usize,
) -> Result<(), AllocError>
    ensures { OnOk result (map bytes_of components.new.items ≡ map bytes_of components.old.items ++ (read_items cut_content count reader.old).0) }
{
    for _turn in 0..count {
        components.push(take_component(reader))?;
    }
    Ok(())
}

/// The parts of the bytes of a configuration that goes on.
pub fn take_parts<'a>(alloc: Global, bytes: &'a [u8]) -> Result<ConfigBytes<'a>, AllocError>
    ensures { (going : Going) → bytes.now ≡ spell_config (Config.Going going) → IfOk result (λ parts. IsCut going parts) }
{
    let mut reader = ByteReader::new(bytes);
    let tag = reader.byte();
    let count = take_long(&mut reader);
    let outline = take_sized(&mut reader);
    let head = reader.since(bytes);
    let mut components = Vec::with_capacity(alloc, count.min(reader.left()))?;
    take_components(&mut components, &mut reader, count)?;
    Ok(ConfigBytes {
        head,
        outline,
        components,
        has_mappings: tag == 2,
    })
}

/// The same, where the bytes of each half of the components stand apart.
pub fn take_parts_of_halves<'a>(
    alloc: Global,
    head: &'a [u8],
    front: &'a [u8],
    back: &'a [u8],
) -> Result<ConfigBytes<'a>, AllocError>
    ensures { (going : Going) → AreOf head.now front.now back.now (Config.Going going) → IfOk result (λ parts. IsCut going parts) }
{
    let mut reader = ByteReader::new(head);
    let tag = reader.byte();
    let count = take_long(&mut reader);
    let outline = take_sized(&mut reader);
    let first = half(count);
    let mut reader_of_front = ByteReader::new(front);
    let mut reader_of_back = ByteReader::new(back);
    let mut components = Vec::with_capacity(alloc, count.min(front.len()))?;
    take_components(&mut components, &mut reader_of_front, first)?;
    take_components(&mut components, &mut reader_of_back, count - first)?;
    Ok(ConfigBytes {
        head,
        outline,
        components,
        has_mappings: tag == 2,
    })
}

// ---- keys

/// The bytes of the first of messages. Of none there are none.
fn first_of(messages: &[u8]) -> &[u8]
    ensures { result.now ≡ first_of messages.now }
{
    let mut reader = ByteReader::new(messages);
    Message::skip(&mut reader);
    reader.since(messages)
}

/// The port and the first message of the next queue.
#[tactic(auto, unfolding(crate::specs::internal::Cuts::cut_front))]
fn put_front(key: &mut Vec<u8>, reader: &mut ByteReader<'_>) -> Result<(), AllocError>
    ensures value { OnOk result (key.new.items ≡ key.old.items ++ (cut_front reader.old).0) }
    ensures rest { OnOk result (reader.new ≡ (cut_front reader.old).1) }
{
    let (count, port) = take_pair(reader);
    let messages = take_sized(reader);
    put_pair(key, count.min(1), port)?;
    put_sized(key, first_of(messages))
}

/// The port and the first message of each queue, from the bytes of the queues.
pub fn put_fronts(key: &mut Vec<u8>, queues: &[u8]) -> Result<(), AllocError>
    ensures { OnOk result (key.new.items ≡ key.old.items ++ cut_fronts queues.now) }
{
    let mut reader = ByteReader::new(queues);
    let count = take_long(&mut reader);
    put_long(key, count)?;
    for _turn in 0..count {
        put_front(key, &mut reader)?;
    }
    Ok(())
}

impl<'a> ConfigBytes<'a> {
    /// What tells what the component at a place does, behind other bytes: what all components see, its place, what it has of
    /// its own, and the first message of each of its queues.
    pub fn put_key(&self, key: &mut Vec<u8>, at: usize) -> Result<(), AllocError>
        requires { at < length self.now.components.items }
        ensures { (going : Going) (component : Component) → IsCut going self.now → slice_get going.components at ≡ Some component
            → OnOk result (key.new.items ≡ key.old.items ++ spell_key going at component) }
    {
        let component = &self.components[at];
        key.extend_from_slice(self.outline)?;
        put_long(key, at)?;
        key.extend_from_slice(component.own)?;
        put_fronts(key, component.queues)
    }

    /// What tells what the component at a place does.
    pub fn key(&self, alloc: Global, at: usize) -> Result<Vec<u8>, AllocError>
        requires { at < length self.now.components.items }
        ensures { (going : Going) (component : Component) → IsCut going self.now → slice_get going.components at ≡ Some component
            → IfOk result (λ key. key.items ≡ spell_key going at component) }
    {
        let mut key = Vec::with_capacity(alloc, self.key_room(&self.components[at]))?;
        self.put_key(&mut key, at)?;
        Ok(key)
    }

    /// No more bytes than a key takes.
    fn key_room(&self, component: &ComponentBytes<'_>) -> usize {
        self.outline
            .len()
            .saturating_add(component.own.len())
            .saturating_add(component.queues.len())
            .saturating_add(LONG_ROOM)
    }

    /// The bytes of what the component at a place has of its own, and of its queues. Where no component is there, there are none.
    pub fn parts_at(&self, at: usize) -> (&'a [u8], &'a [u8])
        ensures { (component : ComponentBytes) → slice_get self.now.components.items at ≡ Some component → (result.0.now, result.1.now) ≡ bytes_of component }
    {
        match self.components.get(at) {
            Some(component) => (component.own, component.queues),
            None => (&[], &[]),
        }
    }
}
