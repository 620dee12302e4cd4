//! From the ordinals of runs back to their labels.
ghost use Rattle.std.specs.Prelude.{◌≡◌, ℕ, ◌<◌, length, None, All, IfOk, IfSome, slice_index_or};
ghost use Rattle.std.specs.List.{AllZip};
ghost use Rattle.search_ordinals.specs.Told.{AreLabelsTold, AreToldWhereTold, IsTelling};
ghost use Rattle.search_ordinals.specs.internal.Sighted.{IsSightingTold};

use crate::branched::Branched;
use crate::ordinal::Ordinal;
use crate::steps::nth_of;
use explore::Sighting;
use std::alloc::{AllocError, Global};

/// The labels of the run that ordinals tell.
fn labels_along<Y: Branched>(
    alloc: Global,
    system: &Y,
    ordinals: &[Ordinal<Y::Branch>],
) -> Result<Vec<Y::Label>, AllocError>
    requires { IsTelling (Y.branch system.now) (Y.graph system.now) ordinals.now }
    ensures { IfOk result (λ labels. AreLabelsTold (Y.branch system.now) (Y.graph system.now) ordinals.now labels.items) }
{
    let mut labels = Vec::new(alloc);
    let mut state = system.start(alloc)?;
    for ordinal in ordinals {
        let label = nth_of(system.labels(alloc, &state)?, ordinal.nth);
        state = system.next_of(alloc, &state, ordinal.nth, &label)?;
        labels.push(label)?;
    }
    Ok(labels)
}

/// The labels of the run that ordinals tell, where there are ordinals.
fn labels_where_told<Y: Branched>(
    alloc: Global,
    system: &Y,
    ordinals: &Option<Vec<Ordinal<Y::Branch>>>,
) -> Result<Option<Vec<Y::Label>>, AllocError>
    requires { IfSome ordinals.now (λ told. IsTelling (Y.branch system.now) (Y.graph system.now) told.items) }
    ensures { IfOk result (λ labels. AreToldWhereTold (Y.branch system.now) (Y.graph system.now) ordinals.now labels) }
{
    match ordinals {
        None => Ok(None),
        Some(ordinals) => Ok(Some(labels_along(alloc, system, ordinals.as_slice())?)),
    }
}

/// The labels of the runs that ordinals tell.
pub fn labels_of_runs<Y: Branched>(
    alloc: Global,
    system: &Y,
    runs: &[Option<Vec<Ordinal<Y::Branch>>>],
) -> Result<Vec<Option<Vec<Y::Label>>>, AllocError>
    requires told { (k : ℕ) → k < length runs.now → IfSome (slice_index_or runs.now k None) (λ told. IsTelling (Y.branch system.now) (Y.graph system.now) told.items) }
    ensures as_many { IfOk result (λ all. length all.items ≡ length runs.now) }
    ensures each { IfOk result (λ all. (k : ℕ) → k < length runs.now → AreToldWhereTold (Y.branch system.now) (Y.graph system.now) (slice_index_or runs.now k None) (slice_index_or all.items k None)) }
{
    let mut all = Vec::new(alloc);
    for run in runs {
        all.push(labels_where_told(alloc, system, run)?)?;
    }
    Ok(all)
}

/// The same that is shown, with the labels of the runs that ordinals tell.
pub fn labels_of_sightings<Y: Branched, E: Drop>(
    alloc: Global,
    system: &Y,
    told: Vec<Sighting<E, Ordinal<Y::Branch>>>,
) -> Result<Vec<Sighting<E, Y::Label>>, AllocError>
    requires telling { All (λ one. IsTelling (Y.branch system.now) (Y.graph system.now) one.run.items) told.items }
    ensures { IfOk result (λ sightings. AllZip (IsSightingTold (Y.branch system.now) (Y.graph system.now)) sightings.items told.items) }
{
    let mut sightings = Vec::with_capacity(alloc, told.len())?;
    for one in told {
        let Sighting { event, run } = one;
        let labels = labels_along(alloc, system, run.as_slice())?;
        sightings.push(Sighting { event, run: labels })?;
    }
    Ok(sightings)
}
