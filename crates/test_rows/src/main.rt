//! Answers rows of texts by what the program prints for them, or by what one of its layers says of them. With the argument
//! `--refuse-memory` alone it makes calls whose requests for memory are refused.
#![tactic(auto)]

mod language;
mod machine;
mod program;

use anyhow::Result;
use language::{checked, evaluated, parsed, scripted};
use machine::answer_of_machine;
use program::answer_of;
use std::alloc::AllocError;
use std::process::ExitCode;
use std::rt::Env;
use std::thread::Threads;
use std::{env, io};
use test_corpus::{Settings, Subject, answer_files};
use test_memory::try_all;

struct Layers;

impl<R: AllocGlobal + Threads + Sync> Subject<R> for Layers {
    fn keys(&self) -> &'static [&'static str] {
        &[
            "behind",
            "by",
            "bytes",
            "command",
            "definitions",
            "expiries",
            "find",
            "format",
            "forms",
            "graph",
            "limit",
            "lines",
            "patient-timers",
            "piece",
            "ports",
            "run",
            "runfile",
            "script",
            "steps",
            "testcase",
            "timers",
            "workers",
        ]
    }

    fn answer(&self, rt: &R, text: &str, settings: &Settings<'_>) -> Result<String, AllocError> {
        let alloc = rt.alloc();
        match settings.get("by") {
            None => answer_of(rt, alloc, text.as_bytes(), settings),
            Some("checker") => checked(alloc, text),
            Some("evaluation") => evaluated(alloc, text, settings.get("definitions")),
            Some("machine") => answer_of_machine(alloc, text, settings),
            Some("parser") => parsed(alloc, text, settings),
            Some("script") => scripted(alloc, text, settings),
            Some(who) => format!(in alloc; "nothing is answered by {who}"),
        }
    }
}

/// Whether calls with refused memory are asked for, and no rows.
fn refuses_memory<R: AllocGlobal + Env>(rt: &R) -> io::Result<bool> {
    let first = env::args(rt)?.skip(1).next();
    Ok(first.is_some_and(|word| word.as_str() == "--refuse-memory"))
}

fn main(rt: HostRuntime) -> Result<ExitCode> {
    if refuses_memory(&rt)? {
        let otherwise = try_all(&rt)?;
        return Ok(ExitCode::from((otherwise > 0) as u8));
    }
    Ok(answer_files(&rt, &Layers)?)
}
