//! What a writer takes.
ghost use Rattle.std.specs.Prelude.{◌<◌, ◌-◌, ◌^◌, OnErr, OnOk};
ghost use Rattle.ttcnx_streams.specs.Transfers.{Took, TookPart, device_by};

use crate::counted::Counted;
use std::io::Write;
use thiserror::Error;

/// A call of a writer failed, or took no byte.
#[derive(Clone, Copy, Debug, PartialEq, Eq, Error)]
#[error("a write failed")]
pub struct WriteError;

/// Writes all bytes, as many at a time as the writer takes, and flushes it. The first failed call is the last one, an
/// interruption too.
pub fn write_whole<W: Write>(writer: &mut Counted<W>, bytes: &[u8]) -> Result<(), WriteError>
    requires { writer.old.failed < 2 ^ 64 - 1 }
    ensures took { OnOk result (Took (device_by W.contents writer.old) (device_by W.contents writer.new) bytes.now) }
    ensures took_part { OnErr result (TookPart (device_by W.contents writer.old) (device_by W.contents writer.new) bytes.now) }
{
    let mut rest = bytes;
    while !rest.is_empty() {
        match writer.write(rest) {
            Ok(0) | Err(_) => return Err(WriteError),
            Ok(taken) => rest = &rest[taken..],
        }
    }
    match writer.flush() {
        Ok(()) => Ok(()),
        Err(_) => Err(WriteError),
    }
}
