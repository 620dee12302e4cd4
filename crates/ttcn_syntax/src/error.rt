//! Why a text could not be cut into tokens.
ghost use Rattle.std.specs.Prelude.{◌≡◌};
ghost use Rattle.ttcn_syntax.specs.declared.error.LexError.TheVariants.{Memory};

use crate::Span;
use std::alloc::{AllocError, AllocFailed};
use thiserror::Error;

/// Why a text has no tokens, with the place of the first byte that can't be read.
#[derive(Clone, Copy, Debug, PartialEq, Eq, Error)]
pub enum LexError {
    #[error("the text is longer than 1,048,576 bytes")]
    TextTooLong,
    #[error("a byte that begins no token stands in line {}, column {}", .0.line, .0.column)]
    BadByte(Span),
    #[error("the comment that begins in line {}, column {} has no end", .0.line, .0.column)]
    OpenComment(Span),
    #[error("the text that begins in line {}, column {} has no end", .0.line, .0.column)]
    OpenText(Span),
    #[error("the number in line {}, column {} is above 9223372036854775807", .0.line, .0.column)]
    IntegerTooLarge(Span),
    #[error("no memory")]
    Memory,
}

impl From<AllocError> for LexError {
    ghost from_gives = { λ _ e. e ≡ Memory };

    fn from(_error: AllocError) -> LexError {
        LexError::Memory
    }
}

impl<T: Drop> From<AllocFailed<T>> for LexError {
    ghost from_gives = { λ _ e. e ≡ Memory };

    fn from(_error: AllocFailed<T>) -> LexError {
        LexError::Memory
    }
}
