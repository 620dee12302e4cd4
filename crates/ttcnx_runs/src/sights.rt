//! Runs to places of a test case, and to blocks.
ghost use Rattle.std.specs.Prelude.{◌≡◌, ◌↔◌, false, IfOk, IsErrOf, OnOk, map};
ghost use Rattle.search_layer.specs.Limits.{IsWithinLimits};
ghost use Rattle.semantics.specs.Labels.{labels};
ghost use Rattle.semantics.specs.Places as rules;
ghost use Rattle.ttcnx_runs.specs.Sights.{AreBlocks, ArePlaces, block_in, if_some, stands-itself, stands-one, step_place, step-place-itself, step-place-one};
ghost use Rattle.ttcn_step.specs.Machines.{Fits, said};
ghost use Rattle.std.specs.List.{find};
ghost use Rattle.std.specs.Option.{option_map};
ghost use Rattle.ttcnx_runs.specs.Aims.{first_of, is_at, stands_at};
ghost use Rattle.ttcnx_runs.specs.Answers.{IsMadeOf};
ghost use Rattle.ttcnx_runs.specs.Endings.{AreTooMany};
ghost use Rattle.ttcnx_runs.specs.Extents.{IsExtent};
ghost use Rattle.ttcnx_runs.specs.Runs.{FitsRuns};
ghost use Rattle.ttcnx_runs.specs.internal.Explored.{AreSights, IsExplored};

use crate::exploration::{Extent, Shown, extent_of};
use crate::keys::BranchPlace;
use crate::recalling::recalled_steps;
use crate::runs::Runs;
use crate::scheme::Scheme;
use crate::search::search_watched;
use crate::state::State;
use crate::step_place::{StepPlace, step_shown};
use explore::{ExploreError, Gate, Plan, Sighted, Sighting, Stops, Watched};
use search_memory::Interner;
use search_ordinals::BranchedWatched;
use std::alloc::{AllocError, Global};
use std::marker::Brand;
use std::thread::Threads;
use step_labels::{Label, Standing};
use summary::Located;
use ttcn_config::Config;
use ttcn_step::Machine;
use ttcn_syntax::{Seq, Span};

/// The enabled labels, each with where its step is, and whether its message is lost.
fn shown_steps(
    alloc: Global,
    machine: &Machine<'_>,
    config: &Config,
) -> Result<Vec<(Label, Option<StepPlace>)>, AllocError>
    requires { Fits machine.now config.now }
    ensures { IfOk result (λ found. found.items ≡ map (λ label. (label, step_place machine.now.test (said machine.now config.now) label)) (labels machine.now.test (said machine.now config.now))) }
{
    let mut found = Vec::new(alloc);
    for label in machine.labels(alloc, config)? {
        let (_branch, event) = step_shown(alloc, machine, config, &label)?;
        found.push((label, event))?;
    }
    Ok(found)
}

/// For each enabled label the branch that its step takes, if it takes one, and where the step is, and whether its message is
/// lost.
fn branched_steps(
    alloc: Global,
    machine: &Machine<'_>,
    config: &Config,
) -> Result<Vec<(Option<BranchPlace>, Option<StepPlace>)>, AllocError>
    requires { Fits machine.now config.now }
    ensures { IfOk result (λ found. found.items ≡ map (λ label. (rules.branch_of machine.now.test (said machine.now config.now) label, step_place machine.now.test (said machine.now config.now) label)) (labels machine.now.test (said machine.now config.now))) }
{
    let mut found = Vec::new(alloc);
    for label in machine.labels(alloc, config)? {
        let (branch, event) = step_shown(alloc, machine, config, &label)?;
        found.push((branch, event))?;
    }
    Ok(found)
}

/// The same of a state, from what is remembered, else worked out.
fn steps_from<'p, K: Scheme>(
    runs: &Runs<'_, '_, 'p, K>,
    alloc: Global,
    state: &State<'p, K>,
) -> Result<Vec<(Option<BranchPlace>, Option<StepPlace>)>, AllocError>
    requires { FitsRuns state.now }
    ensures { IfOk result (λ found. found.items ≡ map (λ label. (rules.branch_of K.machine.test state.now label, step_place K.machine.test state.now label)) (labels K.machine.test state.now)) }
{
    if let Some(found) = recalled_steps(alloc, &runs.memory, &state.packed)? {
        return Ok(found);
    }
    let config = state.packed.config(alloc)?;
    branched_steps(alloc, runs.machine, &config)
}

/// Some, where there are some.
fn if_some(standings: Vec<Standing>) -> Option<Seq<Standing>>
    ensures { result ≡ if_some standings.items }
{
    if standings.is_empty() {
        None
    } else {
        Some(Seq::from_vec(standings))
    }
}

impl<'t, 'a, 'p, K: Scheme + Send + Sync> Watched for Runs<'t, 'a, 'p, K> {
    type Event = StepPlace;

    type Stand = Seq<Standing>;

    ghost event = { λ _ state label. step_place K.machine.test state label };

    ghost stand = { λ _ state. block_in K.machine.test state };

    ghost one_event = { step-place-one };

    ghost one_stand = { stands-one };

    ghost same_event = { step-place-itself };

    ghost same_stand = { stands-itself };

    fn events(
        &self,
        alloc: Global,
        state: &State<'p, K>,
    ) -> Result<Vec<(Label, Option<StepPlace>)>, AllocError> {
        let config = state.packed.config(alloc)?;
        shown_steps(alloc, self.machine, &config)
    }

    fn stand(
        &self,
        alloc: Global,
        state: &State<'p, K>,
    ) -> Result<Option<Seq<Standing>>, AllocError> {
        Ok(if_some(self.blocked(alloc, state)?))
    }
}

impl<'t, 'a, 'p, K: Scheme + Send + Sync> BranchedWatched for Runs<'t, 'a, 'p, K> {
    fn branched_events(
        &self,
        alloc: Global,
        state: &State<'p, K>,
    ) -> Result<Vec<(Option<BranchPlace>, Option<StepPlace>)>, AllocError> {
        steps_from(self, alloc, state)
    }
}

/// What was found of the runs of a test case, and the least runs to places in the text and to blocks, in the order of the
/// runs.
#[derive(Drop)]
pub struct Sights {
    /// How far the runs were explored, and what was found of them.
    pub extent: Extent,
    /// The places of steps, those where a message is lost apart. The run ends with the step.
    pub places: Vec<Sighting<StepPlace, Label>>,
    /// The components that are blocked where the run ends, each with the place where it stands.
    pub blocks: Vec<Sighting<Seq<Standing>, Label>>,
}

/// Explores all runs of a machine's test case as `explore_runs_until` does, and finds the least of the shortest runs to each
/// place in the text and to each block.
pub fn sight_runs<G: Gate, R: Threads + Sync>(
    rt: &R,
    alloc: Global,
    machine: &Machine<'_>,
    plan: &Plan,
    stops: &Stops,
    gate: &G,
) -> Result<Sights, ExploreError>
    ensures bad_plan { IsErrOf result ExploreError.BadPlan ↔ ¬ IsWithinLimits plan.now }
    ensures planned { OnOk result (IsWithinLimits plan.now) }
    ensures too_many { IsErrOf result ExploreError.TooMany → AreTooMany machine.now.test plan.now stops.now }
    ensures limited { IsErrOf result ExploreError.TooMany → stops.now.at_limit ≡ false }
    ensures extent { IfOk result (λ sights. IsExtent machine.now.test plan.now stops.now sights.extent) }
    ensures places { IfOk result (λ sights. ArePlaces machine.now.test sights.extent.steps sights.places.items) }
    ensures blocks { IfOk result (λ sights. AreBlocks machine.now.test sights.extent.steps sights.blocks.items) }
{
    sight_within::<Brand, G, R>(rt, alloc, machine, plan, stops, gate)
}

/// Explores runs, and finds the least ones to places and blocks, where a type names the machine.
fn sight_within<K: Scheme + Send + Sync, G: Gate, R: Threads + Sync>(
    rt: &R,
    alloc: Global,
    machine: &Machine<'_>,
    plan: &Plan,
    stops: &Stops,
    gate: &G,
) -> Result<Sights, ExploreError>
    requires { machine.now ≡ K.machine }
    ensures { IsExplored K.machine.test plan.now stops.now (AreSights K.machine.test plan.now stops.now) result }
{
    let interner = Interner::new(alloc);
    let runs = Runs::<K>::new(alloc, machine, &interner);
    match search_watched::<Runs<'_, '_, '_, K>, G, R>(rt, alloc, &runs, plan, stops, gate) {
        Ok(sighted) => match sights_of(alloc, sighted) {
            Ok(sights) => Ok(sights),
            Err(AllocError) => Err(ExploreError::Memory),
        },
        Err(refused) => Err(refused),
    }
}

/// What an answer of the search tells, with the runs that were found.
fn sights_of(
    alloc: Global,
    sighted: Sighted<Shown, Label, StepPlace, Seq<Standing>>,
) -> Result<Sights, AllocError>
    ensures steps { IfOk result (λ sights. sights.extent.steps ≡ sighted.reached.steps) }
    ensures ending { IfOk result (λ sights. sights.extent.ending ≡ sighted.reached.ending) }
    ensures made { IfOk result (λ sights. IsMadeOf sights.extent.found sighted.reached.answer) }
    ensures places { IfOk result (λ sights. sights.places.items ≡ sighted.events.items) }
    ensures blocks { IfOk result (λ sights. sights.blocks.items ≡ sighted.stands.items) }
{
    let Sighted {
        reached,
        events,
        stands,
    } = sighted;
    let extent = extent_of(alloc, reached)?;
    Ok(Sights {
        extent,
        places: events,
        blocks: stands,
    })
}

/// Whether a place is this one.
fn is_at(key: &BranchPlace, place: Span) -> bool
    ensures { result ≡ is_at place key.now }
{
    *key == BranchPlace::new(place)
}

/// Whether some component stands at a place.
fn stands_at(standings: &Seq<Standing>, place: Span) -> bool
    ensures { result ≡ stands_at place standings.now }
{
    standings
        .as_slice()
        .iter()
        .any(|standing| is_at(&BranchPlace::new(standing.place), place))
}

/// What was found, or else this run where it fits.
fn first_of(found: Option<Vec<Label>>, fits: bool, run: Vec<Label>) -> Option<Vec<Label>>
    ensures { option_map (λ run. run.items) result ≡ first_of (option_map (λ run. run.items) found) fits run.items }
{
    match found {
        Some(found) => Some(found),
        None if fits => Some(run),
        None => None,
    }
}

impl Sights {
    /// The labels of the least of the shortest runs whose last step is at a place.
    pub fn to_place(self, place: Span) -> Option<Vec<Label>>
        ensures { option_map (λ run. run.items) result ≡ option_map (λ s. s.run.items) (find (λ s. is_at place s.event.place) self.places.items) }
    {
        let mut found = None;
        for one in self.places {
            let Sighting { event, run } = one;
            found = first_of(found, is_at(&event.place, place), run);
        }
        found
    }

    /// The labels of the least of the shortest runs that end where some component is blocked at a place.
    pub fn to_block(self, place: Span) -> Option<Vec<Label>>
        ensures { option_map (λ run. run.items) result ≡ option_map (λ s. s.run.items) (find (λ s. stands_at place s.event) self.blocks.items) }
    {
        let mut found = None;
        for one in self.blocks {
            let Sighting { event, run } = one;
            found = first_of(found, stands_at(&event, place), run);
        }
        found
    }
}
