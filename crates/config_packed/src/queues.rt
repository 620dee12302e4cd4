//! The messages that wait for a component, as bytes.
ghost use Rattle.std.specs.Prelude.{◌≡◌, IfOk, List, MatchOption};
ghost use Rattle.config_packed.specs.internal.Cuts.{AreAt, IsWithout};
ghost use Rattle.config_packed.specs.Spelling.{spell_list, spell_queue};
ghost use Rattle.config_parts.specs.declared.component.Queue.{Queue};
ghost use Rattle.config_parts.specs.internal.Changes.{with_message, without_message};

use crate::byte_reader::ByteReader;
use crate::message::MessageBytes;
use crate::number::{LONG_ROOM, PAIR_ROOM, put_long, put_pair, take_long, take_pair};
use crate::sized::{put_sized, take_sized};
use crate::skip::Skip;
use config_parts::Message;
use std::alloc::{AllocError, Global};
use value_types::Slot;

/// The bytes from the first queue of a port on, where there is one.
fn from_queue<'a>(queues: &'a [u8], port: Slot) -> Option<ByteReader<'a>>
    ensures { (qs : List Queue) → queues.now ≡ spell_list spell_queue qs → MatchOption result (IsWithout port qs) (AreAt port qs) }
{
    let mut reader = ByteReader::new(queues);
    let count = take_long(&mut reader);
    for _turn in 0..count {
        let here = reader.rest();
        let (_count, found) = take_pair(&mut reader);
        if found == port {
            return Some(ByteReader::new(here));
        }
        let _messages = take_sized(&mut reader);
    }
    None
}

/// The bytes of queues where the first message of a port is gone.
pub fn queues_without_first(alloc: Global, queues: &[u8], port: Slot) -> Result<Vec<u8>, AllocError>
    ensures { (qs : List Queue) → queues.now ≡ spell_list spell_queue qs → IfOk result (λ bytes. bytes.items ≡ spell_list spell_queue (without_message port qs)) }
{
    let Some(mut reader) = from_queue(queues, port) else {
        return Vec::from_slice(alloc, queues);
    };
    let front = reader.since(queues);
    let (count, _port) = take_pair(&mut reader);
    if count == 0 {
        return Vec::from_slice(alloc, queues);
    }
    let mut messages = ByteReader::new(take_sized(&mut reader));
    Message::skip(&mut messages);
    let mut bytes = Vec::with_capacity(alloc, queues.len())?;
    bytes.extend_from_slice(front)?;
    put_pair(&mut bytes, count - 1, port)?;
    put_sized(&mut bytes, messages.rest())?;
    bytes.extend_from_slice(reader.rest())?;
    Ok(bytes)
}

/// The bytes of queues where a message came to a port.
pub fn queues_with_message(
    alloc: Global,
    queues: &[u8],
    port: Slot,
    message: &MessageBytes,
) -> Result<Vec<u8>, AllocError>
    ensures { (qs : List Queue) → queues.now ≡ spell_list spell_queue qs → IfOk result (λ bytes. bytes.items ≡ spell_list spell_queue (with_message port message.now qs)) }
{
    let message = message.as_bytes();
    let Some(mut reader) = from_queue(queues, port) else {
        return Vec::from_slice(alloc, queues);
    };
    let front = reader.since(queues);
    let (count, _port) = take_pair(&mut reader);
    // no memory holds more messages than can be numbered
    let Some(more) = count.checked_add(1) else {
        return Err(AllocError);
    };
    let waiting = take_sized(&mut reader);
    let Some(size) = waiting.len().checked_add(message.len()) else {
        return Err(AllocError);
    };
    let room = queues
        .len()
        .saturating_add(message.len())
        .saturating_add(PAIR_ROOM)
        .saturating_add(LONG_ROOM);
    let mut bytes = Vec::with_capacity(alloc, room)?;
    bytes.extend_from_slice(front)?;
    put_pair(&mut bytes, more, port)?;
    put_long(&mut bytes, size)?;
    bytes.extend_from_slice(waiting)?;
    bytes.extend_from_slice(message)?;
    bytes.extend_from_slice(reader.rest())?;
    Ok(bytes)
}
