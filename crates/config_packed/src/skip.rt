//! Going past parts of configurations without keeping them.
ghost use Rattle.std.specs.Prelude.{◌≡◌};
ghost use Rattle.config_packed.specs.Reading.{identity_from, path_from, read_enumerated, read_field, read_integer, read_items, read_list, read_record, read_sender, read_value_within};

use crate::byte_reader::ByteReader;
use crate::number::{take_long, take_number};
use crate::spelled::Spelled;
use config_parts::Message;
use ttcn_syntax::Seq;
use value_types::{ComponentId, Value};

/// What can be gone past, without memory for it.
pub trait Skip: Spelled {
    /// Reads on behind what `take` would read.
    fn skip(reader: &mut ByteReader<'_>)
        ensures { reader.new ≡ (Self.read reader.old).1 };
}

// ---- numbers and lists

impl Skip for u32 {
    fn skip(reader: &mut ByteReader<'_>) {
        let _number = take_number(reader);
    }
}

/// Goes past this many items.
pub fn skip_items<T: Skip>(reader: &mut ByteReader<'_>, count: usize)
    ensures { reader.new ≡ (read_items T.read count reader.old).1 }
{
    for _turn in 0..count {
        T::skip(reader);
    }
}

impl<T: Skip> Skip for Seq<T> {
    #[tactic(auto, unfolding(crate::specs::Reading::read_list))]
    fn skip(reader: &mut ByteReader<'_>) {
        let count = take_long(reader);
        skip_items::<T>(reader, count);
    }
}

// ---- names of components, and values

fn skip_path_from(reader: &mut ByteReader<'_>, first: u8)
    ensures { reader.new ≡ (path_from first reader.old).1 }
{
    if first > 100 {
        Seq::<u32>::skip(reader);
    }
}

#[tactic(auto, unfolding(crate::specs::Reading::identity_from))]
fn skip_identity_from(reader: &mut ByteReader<'_>, first: u8)
    ensures { reader.new ≡ (identity_from first reader.old).1 }
{
    skip_path_from(reader, first);
    let _component_type = take_long(reader);
}

impl Skip for ComponentId {
    #[tactic(auto, unfolding(crate::specs::Reading::read_identity))]
    fn skip(reader: &mut ByteReader<'_>) {
        let first = reader.byte();
        skip_identity_from(reader, first);
    }
}

#[tactic(auto, unfolding(crate::specs::Reading::read_integer))]
fn skip_integer(reader: &mut ByteReader<'_>)
    ensures { reader.new ≡ (read_integer reader.old).1 }
{
    let _number = take_long(reader);
}

#[tactic(auto, unfolding(crate::specs::Reading::read_enumerated))]
fn skip_enumerated(reader: &mut ByteReader<'_>)
    ensures { reader.new ≡ (read_enumerated reader.old).1 }
{
    let _at = take_long(reader);
    let _name = take_long(reader);
}

#[cycle(value)]
#[tactic(auto, unfolding(crate::specs::Reading::read_field))]
fn skip_field(reader: &mut ByteReader<'_>, depth: usize)
    ensures { reader.new ≡ (read_field (read_value_within depth) reader.old).1 }
{
    if reader.byte() != 0 {
        skip_value(reader, depth);
    }
}

#[cycle(value)]
#[tactic(auto, unfolding(crate::specs::Reading::read_record, crate::specs::Reading::read_list))]
fn skip_record(reader: &mut ByteReader<'_>, depth: usize)
    ensures { reader.new ≡ (read_record (read_value_within depth) reader.old).1 }
{
    let _at = take_long(reader);
    let count = take_long(reader);
    for _turn in 0..count {
        skip_field(reader, depth);
    }
}

/// Goes past a value whose records nest less deep than this.
#[cycle(value)]
#[tactic(auto, unfolding(crate::specs::Reading::read_value_within))]
fn skip_value(reader: &mut ByteReader<'_>, depth: usize)
    ensures { reader.new ≡ (read_value_within depth reader.old).1 }
{
    if depth == 0 {
        return;
    }
    let tag = reader.byte();
    if tag > 8 {
        return;
    }
    match tag {
        0 => skip_integer(reader),
        1 => {}
        2 => {}
        3 => skip_enumerated(reader),
        4 => skip_record(reader, depth - 1),
        5 => ComponentId::skip(reader),
        6 => u32::skip(reader),
        7 => {}
        _ => {}
    }
}

impl Skip for Value {
    #[tactic(auto, unfolding(crate::specs::Reading::read_value))]
    fn skip(reader: &mut ByteReader<'_>) {
        skip_value(reader, reader.left());
    }
}

// ---- messages

#[tactic(auto, unfolding(crate::specs::Reading::read_sender))]
fn skip_sender(reader: &mut ByteReader<'_>)
    ensures { reader.new ≡ (read_sender reader.old).1 }
{
    let first = reader.byte();
    if first != 102 {
        skip_identity_from(reader, first);
    }
}

impl Skip for Message {
    #[tactic(auto, unfolding(crate::specs::Reading::read_message))]
    fn skip(reader: &mut ByteReader<'_>) {
        Value::skip(reader);
        skip_sender(reader);
    }
}
