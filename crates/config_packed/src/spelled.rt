//! What can be spelled as bytes.
ghost use Rattle.std.specs.List.{flat_map};
ghost use Rattle.std.specs.Prelude.{◌≡◌, ◌++◌, IfOk, OnOk};
ghost use Rattle.config_packed.specs.Reading.{read_items};

use crate::byte_reader::ByteReader;
use crate::number::{put_long, put_number, take_long, take_number};
use std::alloc::{AllocError, Global};
use ttcn_syntax::Seq;
use value_types::Slot;

/// What can be spelled as bytes, and read again.
pub trait Spelled: Drop {
    ghost use Rattle.std.specs.Prelude.{List, ℕ};

    ghost spell: { Self → List ℕ };

    ghost read: { List ℕ → Self × List ℕ };

    fn put(&self, bytes: &mut Vec<u8>) -> Result<(), AllocError>
        ensures { OnOk result (bytes.new.items ≡ bytes.old.items ++ spell self.now) };

    fn take(alloc: Global, reader: &mut ByteReader<'_>) -> Result<Self, AllocError>
        ensures value { IfOk result (λ thing. thing ≡ (read reader.old).0) }
        ensures rest { OnOk result (reader.new ≡ (read reader.old).1) };
}

impl Spelled for u32 {
    ghost use Rattle.config_packed.specs.Reading.{read_number};
    ghost use Rattle.config_packed.specs.Spelling.{spell_number};

    ghost spell = { spell_number };

    ghost read = { read_number };

    fn put(&self, bytes: &mut Vec<u8>) -> Result<(), AllocError> {
        put_number(bytes, *self)
    }

    fn take(_alloc: Global, reader: &mut ByteReader<'_>) -> Result<u32, AllocError> {
        Ok(take_number(reader))
    }
}

impl Spelled for usize {
    ghost use Rattle.config_packed.specs.Reading.{read_long};
    ghost use Rattle.config_packed.specs.Spelling.{spell_long};

    ghost spell = { spell_long };

    ghost read = { read_long };

    fn put(&self, bytes: &mut Vec<u8>) -> Result<(), AllocError> {
        put_long(bytes, *self)
    }

    fn take(_alloc: Global, reader: &mut ByteReader<'_>) -> Result<usize, AllocError> {
        Ok(take_long(reader))
    }
}

/// Items, one behind the other.
pub fn put_items<T: Spelled>(bytes: &mut Vec<u8>, items: &[T]) -> Result<(), AllocError>
    ensures { OnOk result (bytes.new.items ≡ bytes.old.items ++ flat_map T.spell items.now) }
{
    for item in items {
        item.put(bytes)?;
    }
    Ok(())
}

/// This many items.
pub fn take_items<T: Spelled>(
    alloc: Global,
    reader: &mut ByteReader<'_>,
    count: usize,
) -> Result<Seq<T>, AllocError>
    ensures value { IfOk result (λ items. items ≡ (read_items T.read count reader.old).0) }
    ensures rest { OnOk result (reader.new ≡ (read_items T.read count reader.old).1) }
{
    let mut items = Vec::with_capacity(alloc, count.min(reader.left()))?;
    for _turn in 0..count {
        items.push(T::take(alloc, reader)?)?;
    }
    Ok(Seq::from_vec(items))
}

impl<T: Spelled> Spelled for Seq<T> {
    ghost use Rattle.config_packed.specs.Reading.{read_list};
    ghost use Rattle.config_packed.specs.Spelling.{spell_list};

    ghost spell = { spell_list T.spell };

    ghost read = { read_list T.read };

    #[tactic(auto, unfolding(crate::specs::Spelling::spell_list))]
    fn put(&self, bytes: &mut Vec<u8>) -> Result<(), AllocError> {
        put_long(bytes, self.len())?;
        put_items(bytes, self.as_slice())
    }

    #[tactic(auto, unfolding(crate::specs::Reading::read_list))]
    fn take(alloc: Global, reader: &mut ByteReader<'_>) -> Result<Seq<T>, AllocError> {
        let count = take_long(reader);
        take_items(alloc, reader, count)
    }
}

/// What a slot has.
impl<T: Spelled> Spelled for (Slot, T) {
    ghost use Rattle.config_packed.specs.Reading.{read_entry};
    ghost use Rattle.config_packed.specs.Spelling.{spell_entry};

    ghost spell = { spell_entry T.spell };

    ghost read = { read_entry T.read };

    fn put(&self, bytes: &mut Vec<u8>) -> Result<(), AllocError> {
        put_number(bytes, self.0)?;
        self.1.put(bytes)
    }

    #[tactic(auto, unfolding(crate::specs::Reading::read_entry))]
    fn take(alloc: Global, reader: &mut ByteReader<'_>) -> Result<(Slot, T), AllocError> {
        let slot = take_number(reader);
        let stored = T::take(alloc, reader)?;
        Ok((slot, stored))
    }
}
