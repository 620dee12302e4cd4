//! Explores the runs of test cases written in TTCN-3, up to a bound.
#![tactic(auto)]

mod lint_command;
mod program;
mod run_command;

use std::io::IsTerminal;
use std::process::ExitCode;
use ttcnx_progress::Progress;

fn main(rt: HostRuntime) -> ExitCode {
    let progress = Progress::new(&rt, rt.stderr().is_terminal());
    ExitCode::from(program::run(&rt, &progress))
}
