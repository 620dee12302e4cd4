//! Why rows are not asked.
use std::alloc::{AllocError, AllocFailed};
use std::io;
use thiserror::Error;

/// What a file of rows has that none may have, with the number of its line.
#[derive(Clone, Copy, Debug, PartialEq, Eq, Error)]
pub enum RowsError {
    #[error("line {0} stands where no line of its kind may")]
    Stray(u64),
    #[error("the row in line {0} has no answer")]
    NoAnswer(u64),
    #[error("the frame in line {0} has no gap <<row>>")]
    NoGap(u64),
    #[error("line {0} sets something that is unknown")]
    UnknownKey(u64),
    #[error("a repeat behind line {0} is not of the form <<N times PATTERN>>")]
    BadRepeat(u64),
    #[error("no memory")]
    Memory,
}

impl From<AllocError> for RowsError {
    ghost use Rattle.std.specs.Prelude.{◌≡◌};
    ghost use Rattle.test_corpus.specs.declared.error.RowsError.TheVariants.{Memory};

    ghost from_gives = { λ _ error. error ≡ Memory };

    fn from(_refused: AllocError) -> RowsError {
        RowsError::Memory
    }
}

impl<T: Drop> From<AllocFailed<T>> for RowsError {
    ghost use Rattle.std.specs.Prelude.{◌≡◌};
    ghost use Rattle.test_corpus.specs.declared.error.RowsError.TheVariants.{Memory};

    ghost from_gives = { λ _ error. error ≡ Memory };

    fn from(_refused: AllocFailed<T>) -> RowsError {
        RowsError::Memory
    }
}

/// Why not all files of rows are answered.
#[derive(Debug, Drop, Error)]
pub enum CorpusError {
    #[error("{file}: {error}")]
    Rows { file: String, error: RowsError },
    #[error("{file}: {error}")]
    File { file: String, error: io::Error },
    #[error(transparent)]
    Io(#[from] io::Error),
    #[error(transparent)]
    Memory(#[from(alloc)] AllocError),
}
