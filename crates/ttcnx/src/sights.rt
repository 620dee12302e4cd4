//! The statements that set a verdict or whose message is lost in some run, and the blocks, each with the least run to it.
use crate::until::Sighted;
use chart_words::{Passage, passages_at, verdict_settings};
use explore::Sighting;
use std::alloc::{AllocError, Global};
use step_labels::{Label, Standing};
use ttcn_syntax::{Definition, Span};
use ttcnx_runs::StepPlace;

/// A statement, and the least of the shortest runs whose last step is that of this statement.
#[derive(Drop)]
pub(crate) struct Visit<'a> {
    pub passage: Passage,
    pub run: &'a [Label],
}

/// Components that are blocked, each at a place, and the least of the shortest runs that end so.
#[derive(Drop)]
pub(crate) struct Block<'a> {
    pub standings: Vec<&'a Standing>,
    pub run: &'a [Label],
}

/// The least run to a place, if there is one.
fn run_to(places: &[Sighting<StepPlace, Label>], place: Span) -> Option<&[Label]> {
    let found = places
        .iter()
        .find(|seen| seen.event.place.place() == place)?;
    Some(found.run.as_slice())
}

/// The statements of functions, of altsteps and of a test case that set a verdict in some run, in the order of the text.
pub(crate) fn settings_of<'a>(
    alloc: Global,
    text: &[u8],
    definitions: &[Definition],
    testcase: &str,
    sighted: &'a Sighted,
) -> Result<Vec<Visit<'a>>, AllocError> {
    let mut settings = Vec::new(alloc);
    for passage in verdict_settings(alloc, text, definitions, testcase)? {
        if let Some(run) = run_to(sighted.places.as_slice(), passage.place) {
            settings.push(Visit { passage, run })?;
        }
    }
    Ok(settings)
}

/// The statements whose message is lost in some run, in the order of the least runs in which it is.
pub(crate) fn losses_of<'a>(
    alloc: Global,
    text: &[u8],
    definitions: &[Definition],
    sighted: &'a Sighted,
) -> Result<Vec<Visit<'a>>, AllocError> {
    let (mut places, mut runs) = (Vec::new(alloc), Vec::new(alloc));
    for seen in &sighted.places {
        if seen.event.lost {
            places.push(seen.event.place.place())?;
            runs.push(seen.run.as_slice())?;
        }
    }
    let passages = passages_at(alloc, text, definitions, places.as_slice())?;
    let mut losses = Vec::new(alloc);
    for (passage, run) in passages.into_iter().zip(runs) {
        losses.push(Visit { passage, run })?;
    }
    Ok(losses)
}

/// Whether a block has a component at a place.
fn has(block: &Block<'_>, standing: &Standing) -> bool {
    block.standings.iter().any(|other| **other == *standing)
}

/// The components that no block before has at the same place.
fn new_among<'a>(
    alloc: Global,
    standings: &'a [Standing],
    before: &[Block<'a>],
) -> Result<Vec<&'a Standing>, AllocError> {
    let mut found = Vec::new(alloc);
    for standing in standings {
        if !before.iter().any(|block| has(block, standing)) {
            found.push(standing)?;
        }
    }
    Ok(found)
}

/// The components that are blocked where some run ends, each with its place once: at the least of the runs to there.
pub(crate) fn blocks_of(alloc: Global, sighted: &Sighted) -> Result<Vec<Block<'_>>, AllocError> {
    let mut blocks = Vec::new(alloc);
    for seen in &sighted.blocks {
        let standings = new_among(alloc, seen.event.as_slice(), blocks.as_slice())?;
        if !standings.is_empty() {
            let run = seen.run.as_slice();
            blocks.push(Block { standings, run })?;
        }
    }
    Ok(blocks)
}
