ghost use Rattle.std.specs.Prelude.{◌≡◌, Option, true, IfOk, map};

use std::alloc::{AllocError, Global};
use summary::System;

/// A system whose steps and states show something to which runs are wanted.
pub trait Watched: System {
    /// What a step shows.
    type Event: PartialEq + Send + Sync + Drop;

    /// What a state shows.
    type Stand: PartialEq + Send + Sync + Drop;

    /// What the step by an enabled label shows, if it shows something.
    ghost event: { Self → Self.State → Self.Label → Option Self.Event };

    /// What a state shows, if it shows something.
    ghost stand: { Self → Self.State → Option Self.Stand };

    /// The enabled labels of a state, from the least to the greatest, each with what its step shows, if it shows something.
    fn events(
        &self,
        alloc: Global,
        state: &Self::State,
    ) -> Result<Vec<(Self::Label, Option<Self::Event>)>, AllocError>
        requires { Self.fits self.now state.now }
        ensures { IfOk result (λ found. found.items ≡ map (λ label. (label, event self.now state.now label)) ((Self.graph self.now).enabled state.now)) };

    /// What a state shows, if it shows something.
    fn stand(&self, alloc: Global, state: &Self::State) -> Result<Option<Self::Stand>, AllocError>
        requires { Self.fits self.now state.now }
        ensures { IfOk result (λ shown. shown ≡ stand self.now state.now) };

    /// `==` on what is shown is true of a value and itself alone.
    ghost one_event: { (e f : Self.Event) → Self.Event.eq e f ≡ true → e ≡ f };

    ghost one_stand: { (s t : Self.Stand) → Self.Stand.eq s t ≡ true → s ≡ t };

    ghost same_event: { (e : Self.Event) → Self.Event.eq e e ≡ true };

    ghost same_stand: { (s : Self.Stand) → Self.Stand.eq s s ≡ true };
}
