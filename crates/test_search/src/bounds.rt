//! The runs of a system with few expiries of timers.
ghost use Rattle.search_bounds.specs.declared.kind.Kind.TheVariants.{Expiry};

use crate::places::Light;
use explore::{NoGate, Plan, Stops};
use search_bounds::{Bound, BoundedSystem, Kind, Timed};
use search_ordinals::{Branched, explore_by_ordinals};
use std::test::Fail;

/// Each step of the light is the expiry of a timer.
impl Timed for Light {
    ghost kind = { λ label. Expiry };

    fn kind(_label: &u8) -> Kind {
        Kind::Expiry
    }
}

impl Branched for Light {
    fn copy_branch(branch: &u16) -> u16 {
        *branch
    }
}

#[test]
fn runs_with_few_expiries_are_explored(rt: HostRuntime) -> Result<(), Fail> {
    let plan = Plan {
        steps: 10,
        limit: 100,
        workers: 2,
        piece: 1,
    };
    // The light has three states. Those that a bound keeps apart also say how many timers may still expire.
    for (expiries, patient, count, complete) in [
        (None, false, 3, true),
        (None, true, 3, true),
        (Some(0), false, 1, true),
        (Some(1), true, 2, true),
        (Some(5), false, 6, true),
        (Some(20), false, 11, false),
    ] {
        let bound = Bound { expiries, patient };
        let system = BoundedSystem::new(&Light, bound);
        let reached = explore_by_ordinals::<BoundedSystem<'_, Light>, NoGate, HostRuntime>(
            &rt,
            rt.alloc(),
            &system,
            &plan,
            &Stops::NOWHERE,
            &NoGate,
        )?;
        let answer = reached.answer;
        assert!(rt;
            answer.count == count && answer.complete == complete,
            "{bound:?}"
        );
    }
    Ok(())
}
