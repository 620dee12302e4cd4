use std::alloc::{AllocError, AllocFailed};
use thiserror::Error;

/// How far to explore, and how the work is cut.
#[derive(Clone, Copy, Debug, PartialEq, Eq)]
pub struct Plan {
    /// The greatest number of steps of a run: 0 to 100,000.
    pub steps: u64,
    /// How many different states may be found: 1 to 10,000,000.
    pub limit: u64,
    /// How many workers share the work: 1 to 64. It has no effect on the answer.
    pub workers: u64,
    /// How many candidates a worker takes at once: 1 to 65,536. It has no effect on the answer.
    pub piece: u64,
}

impl Plan {
    ghost use Rattle.std.specs.Prelude.{◌↔◌, IsTrue};
    ghost use Rattle.search_layer.specs.Limits.{IsWithinLimits};

    /// Whether each number is within its limits.
    pub fn is_within_limits(&self) -> bool
        ensures { IsTrue result ↔ IsWithinLimits self.now }
    {
        self.steps <= 100_000
            && 1 <= self.limit
            && self.limit <= 10_000_000
            && 1 <= self.workers
            && self.workers <= 64
            && 1 <= self.piece
            && self.piece <= 65_536
    }
}

/// Hears where a worker begins a piece of a layer's candidates. It has no effect on the answer.
pub trait Gate: Sync {
    fn enter(&self, worker: u64, layer: u64, piece: u64, pieces: u64);
}

/// A gate that does nothing.
#[derive(Clone, Copy, Debug, PartialEq, Eq)]
pub struct NoGate;

impl Gate for NoGate {
    fn enter(&self, _worker: u64, _layer: u64, _piece: u64, _pieces: u64) {}
}

/// Why an exploration has no answer.
#[derive(Clone, Copy, Debug, PartialEq, Eq, Error)]
pub enum ExploreError {
    #[error("the plan is outside its limits")]
    BadPlan,
    #[error("more states than the limit")]
    TooMany,
    #[error("out of memory")]
    Memory,
}

impl From<AllocError> for ExploreError {
    ghost use Rattle.std.specs.Prelude.{◌≡◌};
    ghost use Rattle.search_layer.specs.declared.plan.ExploreError.TheVariants.{Memory};

    ghost from_gives = { λ _ e. e ≡ Memory };

    fn from(_refused: AllocError) -> ExploreError {
        ExploreError::Memory
    }
}

impl<T: Drop> From<AllocFailed<T>> for ExploreError {
    ghost use Rattle.std.specs.Prelude.{◌≡◌};
    ghost use Rattle.search_layer.specs.declared.plan.ExploreError.TheVariants.{Memory};

    ghost from_gives = { λ _ e. e ≡ Memory };

    fn from(_refused: AllocFailed<T>) -> ExploreError {
        ExploreError::Memory
    }
}
