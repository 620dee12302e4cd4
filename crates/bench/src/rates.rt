//! Rates.
use std::time::Duration;

/// How many there were a second, where so many took so long.
pub fn rate(count: u64, took: Duration) -> u64 {
    let micros = took.as_micros().max(1);
    (u128::from(count) * 1_000_000 / micros).min(u128::from(u64::MAX)) as u64
}
