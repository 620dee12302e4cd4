//! Reports on the runs that keep a bound on expiries of timers.
use explore::{NoGate, Plan, Stops};
use report_bounds::{bounded_json, bounded_text};
use search_bounds::Bound;
use std::alloc::{AllocError, Global};
use std::thread::Threads;
use test_corpus::Settings;
use ttcnx::{Fault, Report, run_bounded};

/// The bound that the row's runs keep, where it sets one.
pub fn bound_of(settings: &Settings<'_>) -> Option<Bound> {
    let expiries = settings
        .get("expiries")
        .and_then(|number| number.parse::<u32>().ok());
    let patient = settings.get("patient-timers").is_some();
    if expiries.is_some() || patient {
        Some(Bound { expiries, patient })
    } else {
        None
    }
}

/// The report on the runs that keep a bound.
pub fn report_within<R: Threads + Sync>(
    rt: &R,
    alloc: Global,
    text: &[u8],
    script: &[u8],
    name: &str,
    bound: Bound,
    plan: &Plan,
) -> Result<Report, Fault> {
    let stops = Stops::NOWHERE;
    let until = run_bounded(rt, alloc, text, script, name, bound, plan, &stops, &NoGate)?;
    Ok(until.report)
}

/// What is printed of the report on these runs.
pub fn printed_within(
    alloc: Global,
    report: &Report,
    bound: Bound,
    json: bool,
) -> Result<String, AllocError> {
    let bytes = if json {
        bounded_json(alloc, report, bound)?
    } else {
        bounded_text(alloc, report, bound)?
    };
    match str::from_utf8(bytes.as_slice()) {
        Ok(text) => String::from_str(alloc, text),
        Err(_) => String::from_str(alloc, "not UTF-8\n"),
    }
}
