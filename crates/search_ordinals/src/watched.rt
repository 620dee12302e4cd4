//! Systems whose steps and states show something, with ordinals in place of labels.
ghost use Rattle.std.specs.Prelude.{◌≡◌, IfOk, map};
ghost use Rattle.search_ordinals.specs.Ordinals.{shown_at};

use crate::branched::Branched;
use crate::ordinal::Ordinal;
use crate::steps::numbered;
use crate::system::OrdinalSystem;
use explore::Watched;
use std::alloc::{AllocError, Global};

/// A system that tells the branches of all steps from a state at once, and what these show.
pub trait BranchedWatched: Branched + Watched {
    /// For each enabled label, from the least to the greatest, the branch that its step takes, if it takes one, and what the
    /// step shows, if it shows something.
    fn branched_events(
        &self,
        alloc: Global,
        state: &Self::State,
    ) -> Result<Vec<(Option<Self::Branch>, Option<Self::Event>)>, AllocError>
        requires { Self.fits self.now state.now }
        ensures { IfOk result (λ found. found.items ≡ map (λ label. (Self.branch self.now state.now label, Self.event self.now state.now label)) ((Self.graph self.now).enabled state.now)) };
}

impl<'a, Y: BranchedWatched> Watched for OrdinalSystem<'a, Y> {
    type Event = Y::Event;

    type Stand = Y::Stand;

    ghost event = { λ it state ordinal. shown_at (Y.event it.system.now state) ((Y.graph it.system.now).enabled state) ordinal.nth };

    ghost stand = { λ it state. Y.stand it.system.now state };

    ghost one_event = { Y.one_event };

    ghost one_stand = { Y.one_stand };

    ghost same_event = { Y.same_event };

    ghost same_stand = { Y.same_stand };

    fn events(
        &self,
        alloc: Global,
        state: &Y::State,
    ) -> Result<Vec<(Ordinal<Y::Branch>, Option<Y::Event>)>, AllocError> {
        numbered(alloc, self.system.branched_events(alloc, state)?)
    }

    fn stand(&self, alloc: Global, state: &Y::State) -> Result<Option<Y::Stand>, AllocError> {
        self.system.stand(alloc, state)
    }
}
