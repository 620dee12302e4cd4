//! The runs of a system that keep a bound, as a system.
ghost use Rattle.std.specs.Prelude.{◌≡◌, ◌++◌, ◌∷◌, [], OnOk, if◌then◌else◌};
ghost use Rattle.std.specs.declared.cmp.Ordering.TheVariants.{Less};
ghost use Rattle.search_bounds.specs.Bounded.{bounded, left_after, may_take};
ghost use Rattle.search_bounds.specs.BoundedLaws.{ascends_within, enabled_within, one_bounded};

use crate::{Bound, Bounded, Kind, Timed};
use std::alloc::{AllocError, Global};
use summary::System;

/// A system of whose runs those are left that keep a bound.
#[derive(Drop)]
pub struct BoundedSystem<'a, Y: Timed> {
    pub system: &'a Y,
    pub bound: Bound,
}

impl<'a, Y: Timed> BoundedSystem<'a, Y> {
    pub fn new(system: &'a Y, bound: Bound) -> BoundedSystem<'a, Y>
        ensures system { result.system.now ≡ system.now }
        ensures bound { result.bound ≡ bound }
    {
        BoundedSystem { system, bound }
    }
}

/// How many timers may still expire behind a step.
fn left_behind(kind: Kind, left: Option<u32>) -> Option<u32>
    ensures { result ≡ left_after kind left }
{
    match left {
        Some(number) if kind.is_expiry() => Some(number.saturating_sub(1)),
        _ => left,
    }
}

/// Whether a step of this kind may be taken, where it is known whether a timer may expire.
fn may_go(expire: bool, kind: Kind) -> bool
    ensures { result ≡ may_take expire kind }
{
    expire || !kind.is_expiry()
}

/// Adds an item, if it is wanted.
fn keep<T: Drop>(kept: &mut Vec<T>, item: T, wanted: bool) -> Result<(), AllocError>
    ensures { OnOk result (kept.new.items ≡ kept.old.items ++ (if wanted then item ∷ [] else [])) }
{
    if wanted {
        kept.push(item)?;
    }
    Ok(())
}

impl<'a, Y: Timed> System for BoundedSystem<'a, Y> {
    type State = Bounded<Y::State>;

    type Label = Y::Label;

    ghost graph = { λ it. bounded it.bound Y.kind (Y.graph it.system.now) };

    ghost fits = { λ it b. Y.fits it.system.now b.state };

    fn start(&self, alloc: Global) -> Result<Bounded<Y::State>, AllocError> {
        Ok(Bounded {
            state: self.system.start(alloc)?,
            left: self.bound.expiries,
        })
    }

    fn labels(&self, alloc: Global, b: &Bounded<Y::State>) -> Result<Vec<Y::Label>, AllocError> {
        let labels = self.system.labels(alloc, &b.state)?;
        let mut statement = false;
        'seen: for label in &labels {
            statement |= Y::kind(label).is_statement();
        }
        let expire = self.bound.may_expire(b.left, statement);
        let mut kept = Vec::new(alloc);
        'taken: for label in labels {
            let wanted = may_go(expire, Y::kind(&label));
            keep(&mut kept, label, wanted)?;
        }
        Ok(kept)
    }

    fn next(
        &self,
        alloc: Global,
        b: &Bounded<Y::State>,
        label: &Y::Label,
    ) -> Result<Bounded<Y::State>, AllocError> {
        Ok(Bounded {
            state: self.system.next(alloc, &b.state, label)?,
            left: left_behind(Y::kind(label), b.left),
        })
    }

    fn successors(
        &self,
        alloc: Global,
        b: &Bounded<Y::State>,
    ) -> Result<Vec<(Y::Label, Bounded<Y::State>)>, AllocError> {
        let pairs = self.system.successors(alloc, &b.state)?;
        let mut statement = false;
        'seen: for (label, _) in &pairs {
            statement |= Y::kind(label).is_statement();
        }
        let expire = self.bound.may_expire(b.left, statement);
        let mut kept = Vec::new(alloc);
        'taken: for (label, state) in pairs {
            let kind = Y::kind(&label);
            let wanted = may_go(expire, kind);
            let left = left_behind(kind, b.left);
            keep(&mut kept, (label, Bounded { state, left }), wanted)?;
        }
        Ok(kept)
    }

    fn copy(&self, alloc: Global, label: &Y::Label) -> Result<Y::Label, AllocError> {
        self.system.copy(alloc, label)
    }

    fn mark(&self, b: &Bounded<Y::State>) -> Option<u8> {
        self.system.mark(&b.state)
    }

    ghost same = { λ it s t f h e. one_bounded Y.State.eq s t (Y.same it.system.now s.state t.state f h) e };

    ghost ascending = { λ it s f. ascends_within it.bound Y.kind (Y.graph it.system.now) s (λ l m. Y.Label.cmp l m ≡ Less) (Y.ascending it.system.now s.state f) };

    ghost first_fits = { λ it. Y.first_fits it.system.now };

    ghost after_fits = { λ it s l f c. Y.after_fits it.system.now s.state l f (enabled_within it.bound Y.kind (Y.graph it.system.now) s l c) };

    ghost marks_below_8 = { λ it s f. Y.marks_below_8 it.system.now s.state f };
}
