//! Why calls of a machine are refused.
ghost use Rattle.std.specs.Prelude.{◌≡◌};
ghost use Rattle.ttcn_step.specs.declared.error.CoarsenError.TheVariants as coarsen;
ghost use Rattle.ttcn_step.specs.declared.error.StepError.TheVariants as step;
ghost use Rattle.ttcn_step.specs.declared.error.ReplayError.TheVariants as replay;

use std::alloc::{AllocError, AllocFailed};
use thiserror::Error;

/// Why a label leads nowhere.
#[derive(Clone, Copy, Debug, PartialEq, Eq, Error)]
pub enum StepError {
    #[error("the label is not enabled")]
    NotEnabled,
    #[error("no memory")]
    Memory,
}

impl From<AllocError> for StepError {
    ghost from_gives = { λ _ error. error ≡ step.Memory };

    fn from(_error: AllocError) -> StepError {
        StepError::Memory
    }
}

impl<T: Drop> From<AllocFailed<T>> for StepError {
    ghost from_gives = { λ _ error. error ≡ step.Memory };

    fn from(_error: AllocFailed<T>) -> StepError {
        StepError::Memory
    }
}

/// Why a list of labels is no run.
#[derive(Clone, Copy, Debug, PartialEq, Eq, Error)]
pub enum ReplayError {
    /// The number of the first label that is not enabled where it stands. The first label has number 1.
    #[error("label {0} is not enabled")]
    NotEnabled(usize),
    #[error("no memory")]
    Memory,
}

impl From<AllocError> for ReplayError {
    ghost from_gives = { λ _ error. error ≡ replay.Memory };

    fn from(_error: AllocError) -> ReplayError {
        ReplayError::Memory
    }
}

/// Why fine labels stand for no run that ends.
#[derive(Clone, Copy, Debug, PartialEq, Eq, Error)]
pub enum CoarsenError {
    /// The number of the first fine label that can't follow where it stands. The first label has number 1.
    #[error("label {0} can't follow")]
    NotFine(usize),
    /// The test case goes on behind the last label.
    #[error("the run has not ended")]
    NotEnded,
    #[error("no memory")]
    Memory,
}

impl From<AllocError> for CoarsenError {
    ghost from_gives = { λ _ error. error ≡ coarsen.Memory };

    fn from(_error: AllocError) -> CoarsenError {
        CoarsenError::Memory
    }
}

impl<T: Drop> From<AllocFailed<T>> for CoarsenError {
    ghost from_gives = { λ _ error. error ≡ coarsen.Memory };

    fn from(_error: AllocFailed<T>) -> CoarsenError {
        CoarsenError::Memory
    }
}
