//! The command `run`: the report on a test case, or the least run to a place.
use crate::program::{ENOUGH, Stop, print, read_bytes, read_script, unread};
use explore::{Ending, Plan, Stops};
use report::PlaceText;
use report_bounds::{bounded_json, bounded_text};
use std::alloc::{AllocError, Global};
use std::rt::Files;
use std::thread::Threads;
use std::{fs, io};
use ttcn_syntax::Span;
use ttcnx::{
    Aim, Bound, Counted, Fault, Reaching, Report, Sighted, StreamFault, Until, Wishes, bound_of,
    explain_report, run_bounded, run_explained, run_file, run_sighted, run_stream, run_to,
    run_until, stops_of, to_json, to_text, with_few_expiries,
};
use ttcnx_progress::{Behind, Showing};

/// What a `run` is given.
#[derive(Drop)]
pub(crate) struct Request {
    pub file: String,
    pub testcase: String,
    pub script: Option<String>,
    pub plan: Plan,
    pub telling: Telling,
    pub wishes: Wishes,
}

/// How a report is told.
#[derive(Clone, Copy)]
pub(crate) struct Telling {
    pub json: bool,
    pub explain: bool,
}

/// A test case, and how far its runs are explored.
#[derive(Clone, Copy)]
struct Subject<'a> {
    text: &'a [u8],
    script: &'a [u8],
    testcase: &'a str,
    plan: &'a Plan,
}

/// What is written to the standard output, and the line that tells where it is of fewer steps than are wished.
#[derive(Drop)]
struct Told {
    bytes: Vec<u8>,
    shortfall: Option<String>,
}

/// Explores the runs of a test case, and writes the report on them, or the run that is wanted in its place. The gate shows how
/// far the exploration is, where it is not to be quiet.
pub(crate) fn run<R, G>(rt: &R, request: Request, gate: &G) -> Result<(), Stop>
where
    R: Files + Print + AllocGlobal + Threads + Sync,
    G: Showing,
{
    if !request.wishes.quiet {
        gate.begin(request.plan.piece);
    }
    let answered = answer(rt, request, gate);
    gate.clear();
    let Some(Told { bytes, shortfall }) = answered? else {
        return Ok(());
    };
    print(rt, &bytes)?;
    match shortfall {
        Some(line) => Err(Stop::Told(line, 3)),
        None => Ok(()),
    }
}

/// Explores the runs of a test case, and gives what is to be written, unless it is written already.
fn answer<R, G>(rt: &R, request: Request, gate: &G) -> Result<Option<Told>, Stop>
where
    R: Files + Print + AllocGlobal + Threads + Sync,
    G: Showing,
{
    let Request {
        file,
        testcase,
        script,
        plan,
        telling,
        wishes,
    } = request;
    let aim = aim_of(rt.alloc(), &wishes)?;
    let script = read_script(rt, script)?;
    if aim.is_none() && is_plain(&wishes, telling) {
        stream(
            rt,
            &script,
            file,
            testcase.as_str(),
            &plan,
            telling.json,
            gate,
        )?;
        return Ok(None);
    }
    let text = read_bytes(rt, file, ENOUGH)?;
    let subject = Subject {
        text: &text,
        script: &script,
        testcase: testcase.as_str(),
        plan: &plan,
    };
    let told = match aim {
        Some(aim) => run_in_file(rt, subject, wishes.until_complete, aim, gate)?,
        None if telling.explain => told_explained(rt, subject, &wishes, telling.json, gate)?,
        None => told_report(rt, subject, &wishes, telling.json, gate)?,
    };
    Ok(Some(told))
}

/// Whether nothing else is wanted than the report on all runs of at most the plan's steps.
fn is_plain(wishes: &Wishes, telling: Telling) -> bool {
    let is_whole = stops_of(wishes) == Stops::NOWHERE && bound_of(wishes).is_none();
    is_whole && !telling.explain && !wishes.few_expiries
}

/// Explores the runs of a test case of the module in a file under a script, and writes the report to the standard
/// output.
fn stream<R, G>(
    rt: &R,
    script: &[u8],
    file: String,
    testcase: &str,
    plan: &Plan,
    json: bool,
    gate: &G,
) -> Result<(), Fault>
where
    R: Files + Print + AllocGlobal + Threads + Sync,
    G: Showing,
{
    let mut reader = match fs::open(rt, file.as_str()) {
        Ok(opened) => Counted::new(opened),
        Err(error) => return Err(unread(file, &error)),
    };
    let mut writer = Counted::new(Behind::new(gate, io::writer(rt)));
    match run_stream(
        rt,
        rt.alloc(),
        &mut reader,
        &mut writer,
        script,
        testcase,
        plan,
        json,
        gate,
    ) {
        Ok(()) => Ok(()),
        Err(StreamFault::Read) => Err(Fault::CannotRead(file)),
        Err(StreamFault::Write) => Err(Fault::CannotWrite),
        Err(StreamFault::Refused(fault)) => Err(fault),
    }
}

// ---- a report up to a stop, within a bound, with other runs, or explained

/// Explores the runs of a test case that are asked for up to a stop, and tells the report on them.
fn told_report<R, G>(
    rt: &R,
    subject: Subject<'_>,
    wishes: &Wishes,
    json: bool,
    gate: &G,
) -> Result<Told, Stop>
where
    R: AllocGlobal + Threads + Sync,
    G: Showing,
{
    let alloc = rt.alloc();
    let (stops, bound) = (stops_of(wishes), bound_of(wishes));
    let until = explored(rt, subject, bound, &stops, gate)?;
    let shortfall = shortfall(alloc, &until, &stops)?;
    let report = with_chosen_runs(rt, subject, until.report, wishes, gate)?;
    let bytes = match (bound, json) {
        (None, true) => to_json(alloc, &report)?.into_bytes(),
        (None, false) => to_text(alloc, &report)?.into_bytes(),
        (Some(bound), true) => bounded_json(alloc, &report, bound)?,
        (Some(bound), false) => bounded_text(alloc, &report, bound)?,
    };
    Ok(Told { bytes, shortfall })
}

/// Explores the runs of a test case up to a stop, or those that keep a bound.
fn explored<R, G>(
    rt: &R,
    subject: Subject<'_>,
    bound: Option<Bound>,
    stops: &Stops,
    gate: &G,
) -> Result<Until, Fault>
where
    R: AllocGlobal + Threads + Sync,
    G: Showing,
{
    let alloc = rt.alloc();
    let (text, script, name) = (subject.text, subject.script, subject.testcase);
    match bound {
        None => run_until(rt, alloc, text, script, name, subject.plan, stops, gate),
        Some(bound) => {
            run_bounded(
                rt,
                alloc,
                text,
                script,
                name,
                bound,
                subject.plan,
                stops,
                gate,
            )
        }
    }
}

/// A report, with the runs to its verdicts in which the fewest timers expire where these are wanted.
fn with_chosen_runs<R, G>(
    rt: &R,
    subject: Subject<'_>,
    report: Report,
    wishes: &Wishes,
    gate: &G,
) -> Result<Report, Fault>
where
    R: AllocGlobal + Threads + Sync,
    G: Showing,
{
    if !wishes.few_expiries {
        return Ok(report);
    }
    let plan = Plan {
        steps: report.steps,
        ..*subject.plan
    };
    with_few_expiries(
        rt,
        rt.alloc(),
        subject.text,
        subject.script,
        subject.testcase,
        report,
        wishes.patient_timers,
        &plan,
        gate,
    )
}

/// Explores the runs of a test case up to a stop, and tells the report on them with its runs explained.
fn told_explained<R, G>(
    rt: &R,
    subject: Subject<'_>,
    wishes: &Wishes,
    json: bool,
    gate: &G,
) -> Result<Told, Stop>
where
    R: AllocGlobal + Threads + Sync,
    G: Showing,
{
    let alloc = rt.alloc();
    let (text, script, name, plan) = (subject.text, subject.script, subject.testcase, subject.plan);
    let stops = stops_of(wishes);
    if stops == Stops::NOWHERE && !wishes.few_expiries {
        return Ok(Told {
            bytes: run_explained(rt, alloc, text, script, name, plan, gate, json)?,
            shortfall: None,
        });
    }
    let sighted = run_sighted(rt, alloc, text, script, name, plan, &stops, gate)?;
    let shortfall = shortfall(alloc, &sighted.until, &stops)?;
    let Sighted {
        until,
        places,
        blocks,
    } = sighted;
    let Until { report, ending } = until;
    let report = with_chosen_runs(rt, subject, report, wishes, gate)?;
    let sighted = Sighted {
        until: Until { report, ending },
        places,
        blocks,
    };
    let bytes = explain_report(alloc, text, script, name, &sighted, json)?;
    Ok(Told { bytes, shortfall })
}

/// What tells that a report is of fewer steps than are wished: it ended at the limit, or isn't complete though it should be.
fn shortfall(alloc: Global, until: &Until, stops: &Stops) -> Result<Option<String>, AllocError> {
    let steps = until.report.steps;
    match until.ending {
        Ending::Limit => Ok(Some(format!(in alloc; "stopped E1 TooMany behind {steps} steps")?)),
        Ending::Steps if stops.when_complete => Ok(Some(format!(in alloc;
            "stopped E3 NotComplete behind {steps} steps"
        )?)),
        _ => Ok(None),
    }
}

// ---- a run to a place

/// Explores the runs of a test case, and gives the least of the shortest runs to an aim as a run file.
fn run_in_file<R, G>(
    rt: &R,
    subject: Subject<'_>,
    until_complete: bool,
    aim: Aim,
    gate: &G,
) -> Result<Told, Stop>
where
    R: AllocGlobal + Threads + Sync,
    G: Showing,
{
    let alloc = rt.alloc();
    // A run that is found within the limit is the least of all runs.
    let stops = Stops {
        at_limit: true,
        when_complete: until_complete,
        at_mark: None,
    };
    let (text, script, name) = (subject.text, subject.script, subject.testcase);
    let reaching = run_to(
        rt,
        alloc,
        text,
        script,
        name,
        subject.plan,
        &stops,
        aim,
        gate,
    )?;
    match &reaching.run {
        Some(run) => Ok(Told {
            bytes: run_file(alloc, run.as_slice())?.into_bytes(),
            shortfall: None,
        }),
        None => Err(unreached(alloc, &reaching)?),
    }
}

/// Why there is no run to an aim.
fn unreached(alloc: Global, reaching: &Reaching) -> Result<Stop, AllocError> {
    let steps = reaching.steps;
    match reaching.ending {
        Ending::Limit => Ok(Stop::Fault(Fault::TooMany)),
        Ending::Complete => Ok(Stop::Told(String::from_str(alloc, "refused U2 NoSuchRun")?, 1)),
        _ => Ok(Stop::Told(
            format!(in alloc; "refused U2 NoSuchRun of {steps} steps")?,
            1,
        )),
    }
}

/// Where a run is wanted to get, if one is wanted.
fn aim_of(alloc: Global, wishes: &Wishes) -> Result<Option<Aim>, Stop> {
    if let Some(word) = &wishes.run_to {
        let place = place_of(alloc, word.as_str(), "--run-to")?;
        return Ok(Some(Aim::Step(place)));
    }
    if let Some(word) = &wishes.run_to_block {
        let place = place_of(alloc, word.as_str(), "--run-to-block")?;
        return Ok(Some(Aim::Block(place)));
    }
    Ok(None)
}

/// The place that a word writes as `LINE:COL`, which is given for this option.
fn place_of(alloc: Global, word: &str, option: &str) -> Result<Span, Stop> {
    if let Some(place) = place_in(word) {
        let written = PlaceText(place).to_string(alloc)?;
        if written.as_str() == word {
            return Ok(place);
        }
    }
    Err(Stop::Words(format!(in alloc;
        "error: invalid value '{word}' for '{option} <LINE:COL>': it is no place such as 14:1\n\nFor more information, try '--help'.\n"
    )?))
}

/// The place of two numbers with a colon between them.
fn place_in(word: &str) -> Option<Span> {
    let (line, column) = word.split_once(':')?;
    Some(Span {
        line: line.parse().ok()?,
        column: column.parse().ok()?,
    })
}
