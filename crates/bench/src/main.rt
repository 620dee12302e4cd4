//! Prints figures of layers below test cases: how fast states are searched and first positions are found.
//!
//! `bench PART` does one part, `bench all` each of them, and `bench PART N ..` takes larger ones. Counts go to standard
//! output, rates to standard error.
#![tactic(auto)]

mod positions;
mod rates;
mod search;

use std::{env, io};

/// What can be measured.
const PARTS: [&str; 2] = ["positions", "search"];

/// The numbers behind the part, as far as they are given.
#[derive(Clone, Copy)]
pub struct Numbers {
    pub first: Option<u64>,
    pub second: Option<u64>,
    pub third: Option<u64>,
}

/// The number that an argument has, if it has one.
fn number(text: Option<String>) -> Option<u64> {
    text?.as_str().parse().ok()
}

fn main(rt: HostRuntime) -> io::Result<()> {
    let mut args = env::args(&rt)?;
    let wanted = args.nth(1);
    let numbers = Numbers {
        first: number(args.nth(0)),
        second: number(args.nth(0)),
        third: number(args.nth(0)),
    };
    let wanted = match &wanted {
        Some(wanted) => wanted.as_str(),
        None => "all",
    };
    for part in PARTS {
        if wanted != "all" && wanted != part {
            continue;
        }
        match part {
            "positions" => positions::measure(&rt, numbers)?,
            _ => search::measure(&rt, numbers)?,
        }
    }
    Ok(())
}
