//! All successors of a state with the branches of their steps: from what is remembered, else worked out.
ghost use Rattle.std.specs.Prelude.{◌≡◌, IfOk, IfSome, Some, map};
ghost use Rattle.std.specs.List.{AllZip};
ghost use Rattle.search_ordinals.specs.Ordinals.{with_branch};
ghost use Rattle.search_ordinals.specs.Sparing.{IsSparedAt};
ghost use Rattle.search_ordinals.specs.Told.{IsNth};
ghost use Rattle.semantics.specs.Canonical.{canonical_graph};
ghost use Rattle.semantics.specs.Places as rules;
ghost use Rattle.semantics.specs.Steps as steps;
ghost use Rattle.ttcnx_runs.specs.Runs.{FitsRuns};

use crate::keys::BranchPlace;
use crate::recalling::next_state;
use crate::runs::Runs;
use crate::scheme::Scheme;
use crate::sparing::{recalled_pairs, recalled_states};
use crate::state::State;
use crate::step::Step;
use crate::working_out::{remembers_by_fronts, steps_worked_out};
use search_ordinals::{Branched, nth_of};
use std::alloc::{AllocError, Global};
use step_labels::Label;

/// The branches of steps, and the states to which they lead.
fn pairs_of<'p, K: Scheme>(
    alloc: Global,
    steps: Vec<Step<State<'p, K>>>,
) -> Result<Vec<(Option<BranchPlace>, State<'p, K>)>, AllocError>
    ensures { IfOk result (λ pairs. pairs.items ≡ map (λ step. (step.branch, step.after)) steps.entry.items) }
{
    let mut pairs = Vec::with_capacity(alloc, steps.len())?;
    for Step {
        label: _label,
        branch,
        after,
    } in steps {
        pairs.push((branch, after))?;
    }
    Ok(pairs)
}

/// For each enabled label the branch that its step takes, if it takes one, and the state to which it leads, worked out and
/// remembered.
fn all_successors<'p, K: Scheme>(
    runs: &Runs<'_, '_, 'p, K>,
    alloc: Global,
    state: &State<'p, K>,
) -> Result<Vec<(Option<BranchPlace>, State<'p, K>)>, AllocError>
    requires { FitsRuns state.now }
    ensures { IfOk result (λ pairs. pairs.items ≡ with_branch (rules.branch_of K.machine.test) (canonical_graph K.machine.test) state.now ((canonical_graph K.machine.test).enabled state.now)) }
{
    let packed = &state.packed;
    let config = packed.config(alloc)?;
    let parts = packed.parts(alloc)?;
    let steps = steps_worked_out(runs, alloc, &config, &parts)?;
    pairs_of(alloc, steps)
}

/// The same branches and states, where no state is left out.
fn with_all_states<'p, K: Scheme>(
    alloc: Global,
    found: Vec<(Option<BranchPlace>, State<'p, K>)>,
) -> Result<Vec<(Option<BranchPlace>, Option<State<'p, K>>)>, AllocError>
    ensures { IfOk result (λ pairs. pairs.items ≡ map (λ pair. (pair.0, Some pair.1)) found.entry.items) }
{
    let mut pairs = Vec::with_capacity(alloc, found.len())?;
    for (branch, after) in found {
        pairs.push((branch, Some(after)))?;
    }
    Ok(pairs)
}

/// What is recalled of a state behind a step.
fn recalled_behind<'p, K: Scheme>(
    runs: &Runs<'_, '_, 'p, K>,
    alloc: Global,
    state: &State<'p, K>,
    before: &State<'p, K>,
    nth: u32,
) -> Result<Option<Vec<(Option<BranchPlace>, Option<State<'p, K>>)>>, AllocError>
    requires fits { FitsRuns state.now × FitsRuns before.now }
    requires behind { (label : steps.Label) × IsNth ((canonical_graph K.machine.test).enabled before.now) nth label × (state.now ≡ (canonical_graph K.machine.test).after before.now label) }
    ensures { IfOk result (λ found. IfSome found (λ pairs. AllZip (IsSparedAt (rules.branch_of K.machine.test) (canonical_graph K.machine.test) before.now nth state.now) ((canonical_graph K.machine.test).enabled state.now) pairs.items)) }
{
    recalled_pairs(
        alloc,
        runs.machine,
        runs.interner,
        &runs.memory,
        &before.packed,
        nth,
        &state.packed,
        state.by,
    )
}

/// For each enabled label of a state behind a step the branch that its step takes, if it takes one, and the state to which it
/// leads: recalled, else worked out and remembered. The step is given by the state before it and by how many enabled labels
/// come before its own. A state may be left out where two steps lead there from the state before, of which the first one comes
/// before that step.
fn spared_successors<'p, K: Scheme>(
    runs: &Runs<'_, '_, 'p, K>,
    alloc: Global,
    state: &State<'p, K>,
    before: &State<'p, K>,
    nth: u32,
) -> Result<Vec<(Option<BranchPlace>, Option<State<'p, K>>)>, AllocError>
    requires fits { FitsRuns state.now × FitsRuns before.now }
    requires behind { (label : steps.Label) × IsNth ((canonical_graph K.machine.test).enabled before.now) nth label × (state.now ≡ (canonical_graph K.machine.test).after before.now label) }
    ensures { IfOk result (λ found. AllZip (IsSparedAt (rules.branch_of K.machine.test) (canonical_graph K.machine.test) before.now nth state.now) ((canonical_graph K.machine.test).enabled state.now) found.items) }
{
    if let Some(pairs) = recalled_behind(runs, alloc, state, before, nth)? {
        return Ok(pairs);
    }
    if remembers_by_fronts(runs, alloc, state)? {
        if let Some(pairs) = recalled_behind(runs, alloc, state, before, nth)? {
            return Ok(pairs);
        }
    }
    with_all_states(alloc, all_successors(runs, alloc, state)?)
}

/// The state behind the step of the enabled label before which so many come, where many messages wait and it is recalled.
fn recalled_state<'p, K: Scheme>(
    runs: &Runs<'_, '_, 'p, K>,
    alloc: Global,
    state: &State<'p, K>,
    nth: u32,
) -> Result<Option<State<'p, K>>, AllocError>
    requires fits { FitsRuns state.now }
    requires label { (label : steps.Label) × IsNth ((canonical_graph K.machine.test).enabled state.now) nth label }
    ensures { (label : steps.Label) → IsNth ((canonical_graph K.machine.test).enabled state.now) nth label
        → IfOk result (λ found. IfSome found (λ after. after ≡ (canonical_graph K.machine.test).after state.now label)) }
{
    let found = recalled_states(
        alloc,
        runs.machine,
        runs.interner,
        &runs.memory,
        &state.packed,
    )?;
    match found {
        Some(pairs) => Ok(nth_of(pairs, nth).1),
        None => Ok(None),
    }
}

/// The state behind the step of an enabled label, before which so many come: recalled, else worked out.
fn state_behind<'p, K: Scheme>(
    runs: &Runs<'_, '_, 'p, K>,
    alloc: Global,
    state: &State<'p, K>,
    nth: u32,
    label: &Label,
) -> Result<State<'p, K>, AllocError>
    requires fits { FitsRuns state.now }
    requires nth { IsNth ((canonical_graph K.machine.test).enabled state.now) nth label.now }
    ensures { IfOk result (λ after. after ≡ (canonical_graph K.machine.test).after state.now label.now) }
{
    if let Some(after) = recalled_state(runs, alloc, state, nth)? {
        return Ok(after);
    }
    next_state(alloc, runs.machine, runs.interner, &state.packed, label)
}

impl<'t, 'a, 'p, K: Scheme + Send + Sync> Branched for Runs<'t, 'a, 'p, K> {
    fn branched_successors(
        &self,
        alloc: Global,
        state: &State<'p, K>,
    ) -> Result<Vec<(Option<BranchPlace>, State<'p, K>)>, AllocError> {
        all_successors(self, alloc, state)
    }

    fn sparing_branches(
        &self,
        alloc: Global,
        state: &State<'p, K>,
        before: &State<'p, K>,
        nth: u32,
    ) -> Result<Vec<(Option<BranchPlace>, Option<State<'p, K>>)>, AllocError> {
        spared_successors(self, alloc, state, before, nth)
    }

    fn next_of(
        &self,
        alloc: Global,
        state: &State<'p, K>,
        nth: u32,
        label: &Label,
    ) -> Result<State<'p, K>, AllocError> {
        state_behind(self, alloc, state, nth, label)
    }

    fn copy_branch(branch: &BranchPlace) -> BranchPlace
        ensures { result ≡ branch.now }
    {
        BranchPlace::new(branch.place())
    }
}
