//! A system with ordinals in place of labels.
ghost use Rattle.std.specs.Prelude.{◌≡◌};
ghost use Rattle.search_ordinals.specs.OrdinalLaws.{holds_behind, ordinals_ascend};
ghost use Rattle.search_ordinals.specs.Ordinals.{ordinal_graph};

use crate::branched::Branched;
use crate::ordinal::Ordinal;
use crate::steps::{nth_of, number_of, numbered};
use search_layer::Sparing;
use std::alloc::{AllocError, Global};
use summary::System;

/// A system whose labels are ordinals. More than 2^32 enabled labels are want of memory.
#[derive(Drop)]
pub struct OrdinalSystem<'a, Y: Branched> {
    pub system: &'a Y,
}

impl<'a, Y: Branched> OrdinalSystem<'a, Y> {
    pub fn new(system: &'a Y) -> OrdinalSystem<'a, Y>
        ensures { result.system.now ≡ system.now }
    {
        OrdinalSystem { system }
    }
}

impl<'a, Y: Branched> System for OrdinalSystem<'a, Y> {
    type State = Y::State;

    type Label = Ordinal<Y::Branch>;

    ghost graph = { λ it. ordinal_graph (Y.branch it.system.now) (Y.graph it.system.now) };

    ghost fits = { λ it state. Y.fits it.system.now state };

    fn start(&self, alloc: Global) -> Result<Y::State, AllocError> {
        self.system.start(alloc)
    }

    fn labels(
        &self,
        alloc: Global,
        state: &Y::State,
    ) -> Result<Vec<Ordinal<Y::Branch>>, AllocError> {
        let mut ordinals = Vec::new(alloc);
        for label in self.system.labels(alloc, state)? {
            let nth = number_of(ordinals.len())?;
            let branch = self.system.branch(alloc, state, &label)?;
            ordinals.push(Ordinal { nth, branch })?;
        }
        Ok(ordinals)
    }

    fn next(
        &self,
        alloc: Global,
        state: &Y::State,
        ordinal: &Ordinal<Y::Branch>,
    ) -> Result<Y::State, AllocError> {
        let label = nth_of(self.system.labels(alloc, state)?, ordinal.nth);
        self.system.next(alloc, state, &label)
    }

    fn successors(
        &self,
        alloc: Global,
        state: &Y::State,
    ) -> Result<Vec<(Ordinal<Y::Branch>, Y::State)>, AllocError> {
        numbered(alloc, self.system.branched_successors(alloc, state)?)
    }

    fn copy(
        &self,
        _alloc: Global,
        ordinal: &Ordinal<Y::Branch>,
    ) -> Result<Ordinal<Y::Branch>, AllocError> {
        let branch = match &ordinal.branch {
            Some(branch) => Some(Y::copy_branch(branch)),
            None => None,
        };
        Ok(Ordinal {
            nth: ordinal.nth,
            branch,
        })
    }

    fn mark(&self, state: &Y::State) -> Option<u8> {
        self.system.mark(state)
    }

    ghost same = { λ it s t f h e. Y.same it.system.now s t f h e };

    ghost ascending = { λ it s f. ordinals_ascend (Y.branch it.system.now s) ((Y.graph it.system.now).enabled s) };

    ghost first_fits = { λ it. Y.first_fits it.system.now };

    ghost after_fits = { λ it s o f c. holds_behind (Y.branch it.system.now) (Y.graph it.system.now) (Y.fits it.system.now) s o (λ label found. Y.after_fits it.system.now s label f found) c };

    ghost marks_below_8 = { λ it s f. Y.marks_below_8 it.system.now s f };
}

impl<'a, Y: Branched> Sparing for OrdinalSystem<'a, Y> {
    fn sparing_successors(
        &self,
        alloc: Global,
        state: &Y::State,
        before: &Y::State,
        last: &Ordinal<Y::Branch>,
    ) -> Result<Vec<(Ordinal<Y::Branch>, Option<Y::State>)>, AllocError> {
        let found = self
            .system
            .sparing_branches(alloc, state, before, last.nth)?;
        numbered(alloc, found)
    }
}
