//! An exploration by ordinals answers with labels, and with branches and blocked components.
ghost use Rattle.std.specs.Prelude.{◌≡◌, ◌==◌, ◌<◌, ◌≤◌, ◌%◌, [], ◌∷◌, None, Some, if◌then◌else◌};
ghost use Rattle.std.proofs.Common.{refl};
ghost use Rattle.std.proofs.lemmas.Bool.{eq-eqb, eqb-true};
ghost use Rattle.explore.specs.Ring.{ring, ring_same, ring_ascends, ring_after, ring_mark};

use crate::rings::{are_labels, are_remainders};
use explore::example::Ring;
use explore::{NoGate, Plan, Stops, Watched};
use search_ordinals::{
    Branched, BranchedWatched, explore_by_ordinals, explore_watched_by_ordinals,
};
use std::alloc::{AllocError, Global};
use std::test::Fail;
use summary::{Located, System};

/// A ring, with branches and blocked components.
#[derive(Drop)]
struct Wheel {
    ring: Ring,
}

impl System for Wheel {
    type State = u32;

    type Label = u8;

    ghost graph = { λ it. ring it.ring.size };

    ghost fits = { λ it state. state < it.ring.size };

    ghost same = { λ it s t f h e. ring_same s t e };

    ghost ascending = { λ it s f. ring_ascends };

    ghost first_fits = { λ it. it.ring.at_least_one };

    ghost after_fits = { λ it s l f c. ring_after it.ring.size s l it.ring.at_least_one };

    ghost marks_below_8 = { λ it s f. ring_mark it.ring.size s };

    fn start(&self, alloc: Global) -> Result<u32, AllocError> {
        self.ring.start(alloc)
    }

    fn labels(&self, alloc: Global, state: &u32) -> Result<Vec<u8>, AllocError> {
        self.ring.labels(alloc, state)
    }

    fn next(&self, alloc: Global, state: &u32, label: &u8) -> Result<u32, AllocError> {
        self.ring.next(alloc, state, label)
    }

    fn copy(&self, alloc: Global, label: &u8) -> Result<u8, AllocError> {
        self.ring.copy(alloc, label)
    }

    fn mark(&self, state: &u32) -> Option<u8> {
        self.ring.mark(state)
    }
}

/// Each step by label 1 takes branch 7, and in state 4 the component 30 is blocked.
impl Located for Wheel {
    type Branch = u16;

    type Standing = u32;

    ghost branch = { λ it state label. if label == 1 then Some 7 else None };

    ghost blocked = { λ it state. if state == 4 then 30 ∷ [] else [] };

    fn branch(&self, _alloc: Global, _state: &u32, label: &u8) -> Result<Option<u16>, AllocError> {
        Ok(if *label == 1 { Some(7) } else { None })
    }

    fn blocked(&self, alloc: Global, state: &u32) -> Result<Vec<u32>, AllocError> {
        if *state == 4 {
            Vec::from_slice(alloc, &[30])
        } else {
            Ok(Vec::new(alloc))
        }
    }
}

impl Branched for Wheel {
    fn copy_branch(branch: &u16) -> u16 {
        *branch
    }
}

/// Steps show their labels, and states their remainders by 4.
impl Watched for Wheel {
    type Event = u8;

    type Stand = u32;

    ghost event = { λ it state label. Some label };

    ghost stand = { λ it state. Some (state % 4) };

    ghost one_event = { λ e f same. eqb-true e f same };

    ghost one_stand = { λ s t same. eqb-true s t same };

    ghost same_event = { λ e. eq-eqb e e refl };

    ghost same_stand = { λ s. eq-eqb s s refl };

    fn events(&self, alloc: Global, state: &u32) -> Result<Vec<(u8, Option<u8>)>, AllocError> {
        self.ring.events(alloc, state)
    }

    fn stand(&self, alloc: Global, state: &u32) -> Result<Option<u32>, AllocError> {
        self.ring.stand(alloc, state)
    }
}

impl BranchedWatched for Wheel {
    fn branched_events(
        &self,
        alloc: Global,
        _state: &u32,
    ) -> Result<Vec<(Option<u16>, Option<u8>)>, AllocError> {
        Vec::from_slice(alloc, &[(None, Some(0)), (Some(7), Some(1))])
    }
}

const PLAN: Plan = Plan {
    steps: 10,
    limit: 100,
    workers: 2,
    piece: 1,
};

/// Whether a run with these labels ends with the first mark, and none with the second one.
fn ends_by(best: &[Option<Vec<u8>>], labels: &[u8]) -> bool {
    let [Some(first), None, ..] = best else {
        return false;
    };
    first.as_slice() == labels
}

#[test]
fn best_runs_are_told_in_labels(rt: HostRuntime) -> Result<(), Fail> {
    let wheel = Wheel {
        ring: Ring::new(10),
    };
    let reached = explore_by_ordinals::<Wheel, NoGate, HostRuntime>(
        &rt,
        rt.alloc(),
        &wheel,
        &PLAN,
        &Stops::NOWHERE,
        &NoGate,
    )?;
    assert!(rt; reached.steps == 10);
    let answer = reached.answer;
    assert!(rt; answer.count == 10 && answer.complete);
    // From state 0 to the last: 1, 2, 4, 8, 9.
    assert!(rt; ends_by(answer.best.as_slice(), &[0, 0, 1, 1, 0]));
    let shown = &answer.summary.second;
    assert!(rt; shown.first.places.as_slice() == [7].as_slice());
    assert!(rt; shown.second.components.as_slice() == [30].as_slice());
    Ok(())
}

#[test]
fn least_runs_to_sights_are_told_in_labels(rt: HostRuntime) -> Result<(), Fail> {
    let wheel = Wheel {
        ring: Ring::new(10),
    };
    let sighted = explore_watched_by_ordinals::<Wheel, NoGate, HostRuntime>(
        &rt,
        rt.alloc(),
        &wheel,
        &PLAN,
        &Stops::NOWHERE,
        &NoGate,
    )?;
    let reached = &sighted.reached;
    assert!(rt; reached.steps == 10 && reached.answer.count == 10 && reached.answer.complete);
    assert!(rt; are_labels(sighted.events.as_slice()));
    assert!(rt; are_remainders(sighted.stands.as_slice()));
    Ok(())
}
