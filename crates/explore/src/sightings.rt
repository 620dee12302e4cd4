//! The least runs that show something.
ghost use Rattle.std.specs.Prelude.{◌≡◌, ◌<◌, ◌≤◌, List, [], length, take, All, IfOk, OnOk};
ghost use Rattle.std.specs.List.{AllZip, list_any};
ghost use Rattle.explore.specs.internal.Noting.{IsRunBy, IsRunTo, note, note_shown, note_states, note_steps};
ghost use Rattle.explore.specs.internal.Tied.{AreLastSteps, GoBack};
ghost use Rattle.summary.specs.Run.{Run};

use crate::runs::run_to;
use crate::watched::Watched;
use search_layer::{Lasts, Step};
use search_shards::{ShardedSet, number_of};
use std::alloc::{AllocError, Global};

/// What runs show, with the labels of the least run that shows it.
#[derive(Debug, Drop)]
pub struct Sighting<E, L> {
    pub event: E,
    pub run: Vec<L>,
}

/// What is shown, and where it is shown first.
#[derive(Drop)]
pub(crate) struct Noted<E, X> {
    pub event: E,
    pub at: X,
}

/// Whether something was noted before.
fn is_noted<E: PartialEq, X>(noted: &[Noted<E, X>], event: &E) -> bool
    ensures { result ≡ list_any (λ n. E.eq n.event event.now) noted.now }
{
    noted.iter().any(|n| n.event == *event)
}

/// Notes what is shown here, unless it was noted before.
fn note<E: PartialEq + Drop, X: Drop>(
    noted: &mut Vec<Noted<E, X>>,
    event: Option<E>,
    at: X,
) -> Result<(), AllocError>
    ensures { OnOk result (noted.new.items ≡ note E.eq event at noted.old.items) }
{
    if let Some(event) = event {
        if !is_noted(noted.as_slice(), &event) {
            noted.push(Noted { event, at })?;
        }
    }
    Ok(())
}

/// Notes what the steps from the state at a place show, each given by its label and what it shows.
fn note_shown<E: PartialEq + Drop, L: Drop>(
    noted: &mut Vec<Noted<E, Step<L>>>,
    place: u32,
    shown: Vec<(L, Option<E>)>,
) -> Result<(), AllocError>
    ensures { OnOk result (noted.new.items ≡ note_shown E.eq place shown.items noted.old.items) }
{
    for (label, event) in shown {
        let before = place;
        note(noted, event, Step { before, label })?;
    }
    Ok(())
}

/// What the steps of the states up to a place show.
pub(crate) fn noted_steps<Y: Watched>(
    alloc: Global,
    system: &Y,
    states: &ShardedSet<Y::State>,
    to: usize,
) -> Result<Vec<Noted<Y::Event, Step<Y::Label>>>, AllocError>
    requires fits { All (Y.fits system.now) states.now.keys }
    requires to { to ≤ length states.now.keys }
    ensures { IfOk result (λ noted. noted.items ≡ note_steps (Y.graph system.now) Y.Event.eq (Y.event system.now) 0 (take to states.now.keys) []) }
{
    let mut noted = Vec::new(alloc);
    for place in 0..to {
        let number = number_of(place)?;
        let shown = system.events(alloc, &states[place])?;
        note_shown(&mut noted, number, shown)?;
    }
    Ok(noted)
}

/// What states show.
pub(crate) fn noted_states<Y: Watched>(
    alloc: Global,
    system: &Y,
    states: &ShardedSet<Y::State>,
) -> Result<Vec<Noted<Y::Stand, usize>>, AllocError>
    requires { All (Y.fits system.now) states.now.keys }
    ensures { IfOk result (λ noted. noted.items ≡ note_states Y.Stand.eq (Y.stand system.now) 0 states.now.keys []) }
{
    let mut noted = Vec::new(alloc);
    for place in 0..states.len() {
        let stand = system.stand(alloc, &states[place])?;
        note(&mut noted, stand, place)?;
    }
    Ok(noted)
}

/// The labels of the runs to the steps that were noted.
pub(crate) fn runs_by<Y: Watched>(
    alloc: Global,
    system: &Y,
    steps: &Lasts<Y::Label>,
    noted: Vec<Noted<Y::Event, Step<Y::Label>>>,
) -> Result<Vec<Sighting<Y::Event, Y::Label>>, AllocError>
    requires within { All (λ m. m.at.before < length steps.now) noted.items }
    requires back { GoBack steps.now }
    ensures { IfOk result (λ sightings. (runs : List (Run Y.Label)) → AreLastSteps runs steps.now → AllZip (IsRunBy runs) sightings.items noted.items) }
{
    let mut sightings = Vec::with_capacity(alloc, noted.len())?;
    for one in noted {
        let Noted { event, at } = one;
        let Step { before, label } = at;
        let mut run = run_to(alloc, system, steps, before as usize)?;
        run.push(label)?;
        sightings.push(Sighting { event, run })?;
    }
    Ok(sightings)
}

/// The labels of the runs to the states that were noted.
pub(crate) fn runs_to<Y: Watched>(
    alloc: Global,
    system: &Y,
    steps: &Lasts<Y::Label>,
    noted: Vec<Noted<Y::Stand, usize>>,
) -> Result<Vec<Sighting<Y::Stand, Y::Label>>, AllocError>
    requires within { All (λ m. m.at < length steps.now) noted.items }
    requires back { GoBack steps.now }
    ensures { IfOk result (λ sightings. (runs : List (Run Y.Label)) → AreLastSteps runs steps.now → AllZip (IsRunTo runs) sightings.items noted.items) }
{
    let mut sightings = Vec::with_capacity(alloc, noted.len())?;
    for one in noted {
        let Noted { event, at } = one;
        let run = run_to(alloc, system, steps, at)?;
        sightings.push(Sighting { event, run })?;
    }
    Ok(sightings)
}
