//! The plans of a row.
use explore::Plan;
use std::alloc::{AllocError, Global};
use test_corpus::Settings;

/// Each of the row's numbers of workers with each of its pieces; nothing, if a setting is no number or `steps` isn't set.
pub fn plans_of(alloc: Global, settings: &Settings<'_>) -> Result<Option<Vec<Plan>>, AllocError> {
    let workers = numbers(alloc, settings.get("workers").unwrap_or("1"))?;
    let pieces = numbers(alloc, settings.get("piece").unwrap_or("256"))?;
    let steps = number(settings.get("steps"));
    let limit = number(Some(settings.get("limit").unwrap_or("1000000")));
    let (Some(workers), Some(pieces), Some(steps), Some(limit)) = (workers, pieces, steps, limit)
    else {
        return Ok(None);
    };
    let mut plans = Vec::new(alloc);
    for workers in &workers {
        for piece in &pieces {
            plans.push(Plan {
                steps,
                limit,
                workers: *workers,
                piece: *piece,
            })?;
        }
    }
    Ok(Some(plans))
}

/// The number that a word spells.
fn number(word: Option<&str>) -> Option<u64> {
    word?.parse::<u64>().ok()
}

/// The numbers that stand between blanks; nothing, if one of the words is no number.
fn numbers(alloc: Global, words: &str) -> Result<Option<Vec<u64>>, AllocError> {
    let mut numbers = Vec::new(alloc);
    for word in words.split_whitespace() {
        match number(Some(word)) {
            Some(number) => numbers.push(number)?,
            None => return Ok(None),
        }
    }
    Ok(Some(numbers))
}
