//! Why texts are no scripts.
ghost use Rattle.std.specs.Prelude.{◌≡◌};
ghost use Rattle.report_script.specs.declared.error.ScriptError.TheVariants.{Memory};

use std::alloc::{AllocError, AllocFailed};
use thiserror::Error;

/// Why a text is no script of a test case. The first reason counts.
#[derive(Clone, Copy, Debug, PartialEq, Eq, Error)]
pub enum ScriptError {
    /// The text has more than 1,048,576 bytes.
    #[error("the script is too large")]
    TooLarge,
    /// The text is no JSON.
    #[error("the script is no JSON")]
    BadJson,
    /// It is no object, or one of its members is no system port.
    #[error("no such system port")]
    NoSuchPort,
    /// What stands for a system port is no list of messages that may come in there.
    #[error("no message of the system port")]
    BadMessage,
    #[error("no memory")]
    Memory,
}

impl From<AllocError> for ScriptError {
    ghost from_gives = { λ _ error. error ≡ Memory };

    fn from(_error: AllocError) -> ScriptError {
        ScriptError::Memory
    }
}

impl<T: Drop> From<AllocFailed<T>> for ScriptError {
    ghost from_gives = { λ _ error. error ≡ Memory };

    fn from(_error: AllocFailed<T>) -> ScriptError {
        ScriptError::Memory
    }
}
