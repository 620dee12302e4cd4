//! All runs of a test case up to a bound (ES 201 873-4).
ghost use Rattle.std.specs.Prelude.{◌≡◌, ◌↔◌, ℕ, ◌<◌, ◌≤◌, false, IfOk, IsErrOf, IsTrue, OnOk};
ghost use Rattle.search_layer.specs.Limits.{IsWithinLimits};
ghost use Rattle.ttcnx_runs.specs.Found.{AreFound, place_cmp, standing_cmp};
ghost use Rattle.ttcnx_runs.specs.Answers.{IsMadeOf};
ghost use Rattle.ttcnx_runs.specs.Endings.{AreTooMany};
ghost use Rattle.ttcnx_runs.specs.Extents.{IsExtent};
ghost use Rattle.ttcnx_runs.specs.internal.Explored.{IsExplored};
ghost use Rattle.summary.specs.Ascent.{Ascends};
ghost use Rattle.summary.specs.KeySet.{from_list};
ghost use Rattle.laws_live.specs.Parts.{CountsParts, IsCompleteByParts};

use crate::search::search;
use crate::{BranchPlace, Runs, Scheme};
use explore::{Answer, Ending, ExploreError, Gate, Plan, Reached, Stops};
use search_memory::Interner;
use std::alloc::{AllocError, Global};
use std::marker::Brand;
use std::thread::Threads;
use step_labels::{Label, Standing};
use summary::{Blocked, Both, Branches, OrderedSet, Verdicts};
use ttcn_step::Machine;
use ttcn_syntax::Span;

/// What is summed up over all runs: the verdicts with which they end, the branches that are taken, and the components that
/// are blocked.
pub(crate) type Shown = Both<Verdicts, Both<Branches<BranchPlace>, Blocked<Standing>>>;

/// What was found.
#[derive(Drop)]
pub struct Exploration {
    /// How many configurations the runs reach, where those that go on alike count as one.
    pub configurations: u64,
    /// Whether those that only runs of all steps reach have no step, so that no longer run reaches another one.
    pub complete: bool,
    /// For the number of each verdict the labels of the least of the shortest runs that end with it, if one does.
    pub best: Vec<Option<Vec<Label>>>,
    /// The places of the branches that are taken, ascending.
    pub branches: Vec<Span>,
    /// The components that are blocked, by their paths and then by the places where they stand.
    pub blocked: Vec<Standing>,
}

/// How far the runs of a test case were explored, and what was found of them.
#[derive(Drop)]
pub struct Extent {
    /// What is found is of all runs of at most so many steps.
    pub steps: u64,
    pub found: Exploration,
    /// Why it is of no longer runs.
    pub ending: Ending,
}

/// Explores all runs of a machine's test case of at most the plan's steps.
pub fn explore_runs<G: Gate, R: Threads + Sync>(
    rt: &R,
    alloc: Global,
    machine: &Machine<'_>,
    plan: &Plan,
    gate: &G,
) -> Result<Exploration, ExploreError>
    ensures bad_plan { IsErrOf result ExploreError.BadPlan ↔ ¬ IsWithinLimits plan.now }
    ensures planned { OnOk result (IsWithinLimits plan.now) }
    ensures too_many { IsErrOf result ExploreError.TooMany → (count : ℕ) × CountsParts machine.now.test plan.now.steps count × (plan.now.limit < count) }
    ensures found { IfOk result (AreFound machine.now.test plan.now.steps) }
    ensures within { IfOk result (λ found. found.configurations ≤ plan.now.limit) }
    ensures complete { IfOk result (λ found. IsTrue found.complete ↔ IsCompleteByParts machine.now.test plan.now.steps) }

    // Where no longer run reaches another configuration, the same is true of the runs of every greater bound.
    ensures every_bound { IfOk result (λ found. IsTrue found.complete → (bound : ℕ) → plan.now.steps ≤ bound → AreFound machine.now.test bound found) }
{
    let extent = explore_runs_until(rt, alloc, machine, plan, &Stops::NOWHERE, gate)?;
    Ok(extent.found)
}

/// Explores all runs of a machine's test case of at most the plan's steps, or of fewer steps where one of the stops comes
/// first.
pub fn explore_runs_until<G: Gate, R: Threads + Sync>(
    rt: &R,
    alloc: Global,
    machine: &Machine<'_>,
    plan: &Plan,
    stops: &Stops,
    gate: &G,
) -> Result<Extent, ExploreError>
    ensures bad_plan { IsErrOf result ExploreError.BadPlan ↔ ¬ IsWithinLimits plan.now }
    ensures planned { OnOk result (IsWithinLimits plan.now) }

    // Runs reach more configurations than the limit, with each number of steps with which the exploration may end.
    ensures too_many { IsErrOf result ExploreError.TooMany → AreTooMany machine.now.test plan.now stops.now }
    ensures limited { IsErrOf result ExploreError.TooMany → stops.now.at_limit ≡ false }

    ensures extent { IfOk result (IsExtent machine.now.test plan.now stops.now) }
{
    explore_within::<Brand, G, R>(rt, alloc, machine, plan, stops, gate)
}

/// Explores all runs of a machine's test case of at most the plan's steps, or of fewer where a stop comes first. A type names
/// the machine.
fn explore_within<K: Scheme + Send + Sync, G: Gate, R: Threads + Sync>(
    rt: &R,
    alloc: Global,
    machine: &Machine<'_>,
    plan: &Plan,
    stops: &Stops,
    gate: &G,
) -> Result<Extent, ExploreError>
    requires { machine.now ≡ K.machine }
    ensures { IsExplored K.machine.test plan.now stops.now (IsExtent K.machine.test plan.now stops.now) result }
{
    let interner = Interner::new(alloc);
    let runs = Runs::<K>::new(alloc, machine, &interner);
    match search::<Runs<'_, '_, '_, K>, G, R>(rt, alloc, &runs, plan, stops, gate) {
        Ok(reached) => match extent_of(alloc, reached) {
            Ok(extent) => Ok(extent),
            Err(AllocError) => Err(ExploreError::Memory),
        },
        Err(refused) => Err(refused),
    }
}

/// What an answer of the search tells, and the bound that it is of.
pub fn extent_of(alloc: Global, reached: Reached<Shown, Label>) -> Result<Extent, AllocError>
    ensures steps { IfOk result (λ extent. extent.steps ≡ reached.steps) }
    ensures ending { IfOk result (λ extent. extent.ending ≡ reached.ending) }
    ensures made { IfOk result (λ extent. IsMadeOf extent.found reached.answer) }
{
    let Reached {
        steps,
        answer,
        ending,
    } = reached;
    let found = found_by(alloc, answer)?;
    Ok(Extent {
        steps,
        found,
        ending,
    })
}

/// What an answer of the search tells.
fn found_by(alloc: Global, answer: Answer<Shown, Label>) -> Result<Exploration, AllocError>
    ensures configurations { IfOk result (λ found. found.configurations ≡ answer.count) }
    ensures complete { IfOk result (λ found. found.complete ≡ answer.complete) }
    ensures best { IfOk result (λ found. found.best.items ≡ answer.best.items) }
    ensures branches { IfOk result (λ found. from_list found.branches.items ≡ answer.summary.second.first.places) }
    ensures ascending { IfOk result (λ found. Ascends place_cmp found.branches.items) }
    ensures blocked { IfOk result (λ found. from_list found.blocked.items ≡ answer.summary.second.second.components) }
    ensures in_order { IfOk result (λ found. Ascends standing_cmp found.blocked.items) }
{
    let Answer {
        summary,
        count,
        complete,
        best,
    } = answer;
    let branches = places_of(alloc, &summary.second.first.places)?;
    let blocked = standings_of(alloc, &summary.second.second.components)?;
    Ok(Exploration {
        configurations: count,
        complete,
        best,
        branches,
        blocked,
    })
}

/// The places of a set of branches, ascending.
fn places_of(alloc: Global, set: &OrderedSet<BranchPlace>) -> Result<Vec<Span>, AllocError>
    ensures keys { IfOk result (λ places. from_list places.items ≡ set.now) }
    ensures ascend { IfOk result (λ places. Ascends place_cmp places.items) }
{
    let mut places = Vec::new(alloc);
    for key in set.as_slice() {
        places.push(key.place())?;
    }
    Ok(places)
}

/// The components of a set, each with the place where it stands, ascending.
fn standings_of(alloc: Global, set: &OrderedSet<Standing>) -> Result<Vec<Standing>, AllocError>
    ensures keys { IfOk result (λ standings. from_list standings.items ≡ set.now) }
    ensures ascend { IfOk result (λ standings. Ascends standing_cmp standings.items) }
{
    let mut standings = Vec::new(alloc);
    for key in set.as_slice() {
        standings.push(key.try_clone(alloc)?)?;
    }
    Ok(standings)
}
