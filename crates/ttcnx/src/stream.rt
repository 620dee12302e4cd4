//! From a reader that gives the text of a module to a writer that takes the report on one of its test cases.
ghost use Rattle.std.specs.Prelude.{◌≡◌, ℕ, ◌<◌, ◌-◌, ◌^◌, List, take, Err, IfErr, IfOk, IfSome, string_bytes};
ghost use Rattle.search_layer.specs.Limits.{IsWithinLimits};
ghost use Rattle.ttcnx_streams.specs.Transfers.{device_by};
ghost use Rattle.ttcnx.specs.Answer.{HasOneAnswer};
ghost use Rattle.ttcnx.specs.Named.{source};
ghost use Rattle.ttcnx.specs.Streamed.{HasOneText, IsStreamed, streams_by, enough, told_as};

use crate::fault::Fault;
use crate::run::run_script;
use explore::{Gate, Plan};
use report::{Report, to_json, to_text};
use std::alloc::{AllocError, Global};
use std::io::{Read, Write};
use std::thread::Threads;
use thiserror::Error;
use ttcn_syntax::LONGEST_TEXT;
use ttcnx_streams::{Counted, ReadError, WriteError, read_up_to, write_whole};

/// How many bytes of a text are read: one that has them all is refused as too long.
const ENOUGH: usize = LONGEST_TEXT + 1;

/// Why no whole report was written.
#[derive(Debug, Drop, Error)]
pub enum StreamFault {
    /// A read failed, and nothing was written.
    #[error("a read failed")]
    Read,
    /// A write failed behind a beginning of the report.
    #[error("a write failed")]
    Write,
    /// There is no report, and nothing was written.
    #[error("{0}")]
    Refused(Fault),
}

impl From<Fault> for StreamFault {
    ghost use Rattle.ttcnx.specs.declared.stream.StreamFault.TheVariants.{Refused};

    ghost from_gives = { λ why fault. fault ≡ Refused why };

    fn from(why: Fault) -> StreamFault {
        StreamFault::Refused(why)
    }
}

impl From<AllocError> for StreamFault {
    ghost use Rattle.ttcnx.specs.declared.fault.Fault.TheVariants.{Memory};
    ghost use Rattle.ttcnx.specs.declared.stream.StreamFault.TheVariants.{Refused};

    ghost from_gives = { λ _ fault. fault ≡ Refused Memory };

    fn from(_refused: AllocError) -> StreamFault {
        StreamFault::Refused(Fault::Memory)
    }
}

impl From<ReadError> for StreamFault {
    ghost use Rattle.ttcnx.specs.Streamed.{read_fault};

    ghost from_gives = { λ error fault. fault ≡ read_fault error };

    fn from(error: ReadError) -> StreamFault {
        match error {
            ReadError::Reader => StreamFault::Read,
            ReadError::Memory => StreamFault::Refused(Fault::Memory),
        }
    }
}

impl From<WriteError> for StreamFault {
    ghost use Rattle.ttcnx.specs.declared.stream.StreamFault.TheVariants.{Write};

    ghost from_gives = { λ _ fault. fault ≡ Write };

    fn from(_error: WriteError) -> StreamFault {
        StreamFault::Write
    }
}

/// Reads the text of a module, explores the runs of the test case of this name with a script, and writes the report, as text or
/// as JSON. The plan is judged before the first read, and nothing is written before the whole report is there. Each failed call
/// of the reader or the writer ends this one, an interruption too.
#[tactic(auto, using(crate::proofs::Streams::one_text))]
pub fn run_stream<R: Read, W: Write, G: Gate, T: Threads + Sync>(
    rt: &T,
    alloc: Global,
    reader: &mut Counted<R>,
    writer: &mut Counted<W>,
    script: &[u8],
    name: &str,
    plan: &Plan,
    json: bool,
    gate: &G,
) -> Result<(), StreamFault>
    requires reads { reader.old.failed < 2 ^ 64 - 1 }
    requires writes { writer.old.failed < 2 ^ 64 - 1 }
    ensures streamed { IsStreamed script.now name.now plan.now json (streams_by R.remaining W.contents reader.old writer.old)
        (streams_by R.remaining W.contents reader.new writer.new) result }

    // What is given, a name and a plan have one answer, and a reader whose bytes are known gives one text.
    ensures one { (text : List ℕ) → HasOneAnswer (source text script.now) name.now plan.now }
    ensures known { HasOneText (device_by R.remaining reader.old) (device_by R.remaining reader.new) }

    // A plan beyond its limits leaves both as they were, and all but a failed write leaves the writer so.
    ensures bad_plan { (IsWithinLimits plan.now → ⊥) → (result ≡ Err (StreamFault.Refused Fault.BadPlan)) × (reader.new ≡ reader.old) }
    ensures unwritten { IfErr result (λ why. (why ≡ StreamFault.Write → ⊥) → writer.new ≡ writer.old) }
{
    if !plan.is_within_limits() {
        return Err(StreamFault::Refused(Fault::BadPlan));
    }
    let text = read_up_to(alloc, reader, ENOUGH)?;
    let report = run_script(rt, alloc, &text, script, name, plan, gate)?;
    let told = told_as(alloc, &report, json)?;
    Ok(write_whole(writer, told.as_bytes())?)
}

/// What tells a report, as JSON or as text.
pub(crate) fn told_as(alloc: Global, report: &Report, json: bool) -> Result<String, AllocError>
    ensures { IfOk result (λ told. string_bytes told ≡ told_as json report.now) }
{
    if json {
        to_json(alloc, report)
    } else {
        to_text(alloc, report)
    }
}
