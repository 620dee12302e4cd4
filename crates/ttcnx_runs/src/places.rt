//! The branches and blocked components of a test case, where summaries ask for them.
ghost use Rattle.std.specs.Prelude.{◌≡◌, IfOk, true, []};
ghost use Rattle.semantics.specs.Labels.{labels};
ghost use Rattle.semantics.specs.Places as rules;
ghost use Rattle.ttcnx_runs.specs.Runs.{FitsRuns};

use crate::keys::BranchPlace;
use crate::recalling::surely_goes_on;
use crate::runs::Runs;
use crate::scheme::Scheme;
use crate::state::State;
use crate::working_out::remembers_by_fronts;
use std::alloc::{AllocError, Global};
use step_labels::{Label, Standing};
use summary::Located;

/// Whether some label is enabled, by what is remembered of a component. Where many messages wait, that is worked out.
fn is_known_to_go_on<'p, K: Scheme>(
    runs: &Runs<'_, '_, 'p, K>,
    alloc: Global,
    state: &State<'p, K>,
) -> Result<bool, AllocError>
    requires { FitsRuns state.now }
    ensures { IfOk result (λ known. known ≡ true → ¬ (labels K.machine.test state.now ≡ [])) }
{
    if surely_goes_on(alloc, &runs.memory, &state.packed)? {
        return Ok(true);
    }
    if remembers_by_fronts(runs, alloc, state)? {
        return surely_goes_on(alloc, &runs.memory, &state.packed);
    }
    Ok(false)
}

/// The components that are blocked in a state of which isn't known whether some label is enabled.
fn blocked_in<'p, K: Scheme>(
    runs: &Runs<'_, '_, 'p, K>,
    alloc: Global,
    state: &State<'p, K>,
) -> Result<Vec<Standing>, AllocError>
    requires { FitsRuns state.now }
    ensures { IfOk result (λ found. found.items ≡ rules.blocked K.machine.test state.now) }
{
    if is_known_to_go_on(runs, alloc, state)? {
        return Ok(Vec::new(alloc));
    }
    let config = state.packed.config(alloc)?;
    runs.machine.blocked(alloc, &config)
}

impl<'t, 'a, 'p, K: Scheme + Send + Sync> Located for Runs<'t, 'a, 'p, K> {
    type Branch = BranchPlace;

    type Standing = Standing;

    ghost branch = { λ _ state label. rules.branch_of K.machine.test state label };

    ghost blocked = { λ _ state. rules.blocked K.machine.test state };

    fn branch(
        &self,
        alloc: Global,
        state: &State<'p, K>,
        label: &Label,
    ) -> Result<Option<BranchPlace>, AllocError> {
        let config = state.packed.config(alloc)?;
        let place = self.machine.branch(alloc, &config, label)?;
        Ok(place.map(BranchPlace::new))
    }

    fn blocked(&self, alloc: Global, state: &State<'p, K>) -> Result<Vec<Standing>, AllocError> {
        if state.goes_on {
            return Ok(Vec::new(alloc));
        }
        blocked_in(self, alloc, state)
    }
}
