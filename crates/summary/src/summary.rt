ghost use Rattle.std.specs.Prelude.{◌≡◌, IfOk, Contains};
ghost use Rattle.summary.specs.Sums.{Join, IsSemilattice, Observation};

use crate::System;
use std::alloc::{AllocError, Global};

/// What the runs of a system show: something of each state that a run ends in, and of each step that a run
/// ends with, joined over all runs.
pub trait Summary<Y: System>: Send + Sync + Drop {
    /// The summary of nothing, and two summaries made one.
    ghost joins: { Join Self };

    /// What a state shows, and what a step shows.
    ghost observation: { Y → Observation Y.State Y.Label Self };

    fn empty(alloc: Global) -> Result<Self, AllocError>
        ensures { IfOk result (λ summary. summary ≡ joins.none) };

    fn join(self, alloc: Global, other: Self) -> Result<Self, AllocError>
        ensures { IfOk result (λ summary. summary ≡ joins.join self other) };

    /// What a state shows.
    fn at(alloc: Global, system: &Y, state: &Y::State) -> Result<Self, AllocError>
        requires { Y.fits system.now state.now }
        ensures { IfOk result (λ summary. summary ≡ (observation system.now).at state.now) };

    /// What the step that an enabled label takes from a state shows.
    fn by(alloc: Global, system: &Y, state: &Y::State, label: &Y::Label) -> Result<Self, AllocError>
        requires fits { Y.fits system.now state.now }
        requires enabled { Contains ((Y.graph system.now).enabled state.now) label.now }
        ensures { IfOk result (λ summary. summary ≡ (observation system.now).by state.now label.now) };

    /// Summaries are joined in any order, and any number of times.
    ghost semilattice: { IsSemilattice joins };
}
