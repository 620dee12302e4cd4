//! Bytes that stand behind their length.
ghost use Rattle.std.specs.Prelude.{◌≡◌, ◌++◌, OnOk};
ghost use Rattle.config_packed.specs.internal.Cuts.{cut_sized};
ghost use Rattle.config_packed.specs.Spelling.{spell_sized};

use crate::byte_reader::ByteReader;
use crate::number::{put_long, take_long};
use std::alloc::AllocError;

/// Bytes behind their length.
#[tactic(auto, unfolding(crate::specs::Spelling::spell_sized))]
pub fn put_sized(bytes: &mut Vec<u8>, sized: &[u8]) -> Result<(), AllocError>
    ensures { OnOk result (bytes.new.items ≡ bytes.old.items ++ spell_sized sized.now) }
{
    put_long(bytes, sized.len())?;
    bytes.extend_from_slice(sized)
}

/// The bytes that stand behind their length.
#[tactic(auto, unfolding(crate::specs::internal::Cuts::cut_sized))]
pub fn take_sized<'a>(reader: &mut ByteReader<'a>) -> &'a [u8]
    ensures value { result.now ≡ (cut_sized reader.old).0 }
    ensures rest { reader.new ≡ (cut_sized reader.old).1 }
{
    let size = take_long(reader);
    reader.bytes(size)
}
