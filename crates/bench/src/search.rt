//! How many states and candidates a second `explore` takes, of a system whose states are rows of 96 bytes.
mod counters;
mod row;

use crate::Numbers;
use crate::rates::rate;
use counters::Counters;
use explore::{NoGate, Plan, explore};
use std::io;
use std::rt::Clock;
use std::thread::Threads;
use std::time::Instant;
use summary::Verdicts;

/// The numbers say how many values the five counters go through, how many workers there are, and how many candidates a
/// piece has.
pub fn measure<R>(rt: &R, numbers: Numbers) -> io::Result<()>
where
    R: AllocGlobal + Clock + Eprint + Print + Threads + Sync,
{
    let values = numbers.first.unwrap_or(4).clamp(1, 20) as u8;
    let plan = Plan {
        steps: 5 * u64::from(values),
        limit: 10_000_000,
        workers: numbers.second.unwrap_or(2),
        piece: numbers.third.unwrap_or(256),
    };
    let counters = Counters::new(values);
    let start = Instant::now(rt)?;
    let explored = explore::<Counters, Verdicts, NoGate, R>(
        rt,
        rt.alloc(),
        &counters,
        &plan,
        &NoGate,
    );
    let took = start.elapsed(rt)?;
    match explored {
        Ok(answer) => {
            println!(rt; "{} states", answer.count)?;
            eprintln!(rt;
                "{} workers, pieces of {}: {} ms, {} states and {} candidates a second",
                plan.workers,
                plan.piece,
                took.as_millis(),
                rate(answer.count, took),
                rate(answer.count.saturating_mul(5), took)
            )
        }
        Err(refused) => println!(rt; "{refused}"),
    }
}
