use std::alloc::{AllocError, AllocFailed};
use thiserror::Error;
use ttcn_syntax::Span;

/// Why tokens spell no module, with the place of a token that shows it.
#[derive(Clone, Copy, Debug, PartialEq, Eq, Error)]
pub enum ParseError {
    #[error("the brackets nest deeper than 200")]
    TooDeep(Span),
    #[error("the word or character is left out of this subset")]
    LeftOut(Span),
    #[error("no module has this token here")]
    Unexpected(Span),
    #[error("no memory")]
    Memory,
}

impl From<AllocError> for ParseError {
    ghost use Rattle.std.specs.Prelude.{◌≡◌};
    ghost use Rattle.parse_reader.specs.declared.error.ParseError.TheVariants.{Memory};

    ghost from_gives = { λ _ e. e ≡ Memory };

    fn from(_error: AllocError) -> ParseError {
        ParseError::Memory
    }
}

impl<T: Drop> From<AllocFailed<T>> for ParseError {
    ghost use Rattle.std.specs.Prelude.{◌≡◌};
    ghost use Rattle.parse_reader.specs.declared.error.ParseError.TheVariants.{Memory};

    ghost from_gives = { λ _ e. e ≡ Memory };

    fn from(_error: AllocFailed<T>) -> ParseError {
        ParseError::Memory
    }
}
