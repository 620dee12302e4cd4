//! What a reader gives, up to its end or to a number of bytes.
ghost use Rattle.std.specs.Prelude.{◌≡◌, ◌<◌, ◌-◌, ◌^◌, Err, IfOk, IfSome, take};
ghost use Rattle.ttcnx_streams.specs.declared.reading.ReadError.TheVariants.{Memory};
ghost use Rattle.ttcnx_streams.specs.Transfers.{BrokeOff, Stopped, WasRead, device_by};

use crate::counted::Counted;
use std::alloc::{AllocError, AllocFailed, Global};
use std::io::Read;
use thiserror::Error;

/// How many bytes are asked for at once.
const PIECE: usize = 8192;

/// Why a reader was not read as far as was asked for.
#[derive(Clone, Copy, Debug, PartialEq, Eq, Error)]
pub enum ReadError {
    /// A call of the reader failed.
    #[error("a read failed")]
    Reader,
    #[error("no memory")]
    Memory,
}

impl From<AllocError> for ReadError {
    ghost from_gives = { λ _ error. error ≡ Memory };

    fn from(_refused: AllocError) -> ReadError {
        ReadError::Memory
    }
}

impl<T: Drop> From<AllocFailed<T>> for ReadError {
    ghost from_gives = { λ _ error. error ≡ Memory };

    fn from(_refused: AllocFailed<T>) -> ReadError {
        ReadError::Memory
    }
}

/// The bytes that a reader gives up to its end, or the first so many where it gives more. The first failed call is the last
/// one, an interruption too.
#[tactic(auto, using(crate::proofs::Known::known_text))]
pub fn read_up_to<R: Read>(
    alloc: Global,
    reader: &mut Counted<R>,
    most: usize,
) -> Result<Vec<u8>, ReadError>
    requires { reader.old.failed < 2 ^ 64 - 1 }
    ensures read { IfOk result (λ text. WasRead most (device_by R.remaining reader.old) (device_by R.remaining reader.new) text.items) }
    // Where the reader's bytes are known, these are the first of them.
    ensures known { IfOk result (λ text. IfSome (R.remaining reader.old.device) (λ bytes. text.items ≡ take most bytes)) }
    ensures failed { result ≡ Err ReadError.Reader → BrokeOff most (device_by R.remaining reader.old) (device_by R.remaining reader.new) }
    ensures refused { result ≡ Err ReadError.Memory → Stopped most (device_by R.remaining reader.old) (device_by R.remaining reader.new) }
{
    let mut text = Vec::new(alloc);
    let mut piece = [0; PIECE];
    while text.len() < most {
        let wanted = PIECE.min(most - text.len());
        match reader.read(&mut piece[..wanted]) {
            Ok(0) => return Ok(text),
            Ok(given) => text.extend_from_slice(&piece[..given])?,
            Err(_) => return Err(ReadError::Reader),
        }
    }
    Ok(text)
}
