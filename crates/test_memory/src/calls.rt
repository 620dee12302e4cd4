//! The calls that ask for memory, with what they are asked.
ghost use Rattle.std.specs.Thread.{IsSync};

use crate::given::Given;
use crate::texts::{
    FINE_RUN_OF_RACE, MAPPED, ONE, RACE, REPORT_ON_MAPPED, REPORT_ON_ONE, REPORT_ON_RACE,
    RUN_OF_RACE, SCRIPT,
};
use explore::{NoGate, Plan};
use report::{RunError, ScriptError, read_fine, read_run, read_script};
use std::alloc::{AllocError, Global};
use std::thread::Threads;
use step_labels::{FineLabel, Label};
use ttcn_config::{Config, Packed, canon, pack, unpack};
use ttcn_parse::{ParseError, parse};
use ttcn_step::{CoarsenError, Machine, ReplayError, StepError};
use ttcn_syntax::{LexError, Spanned, lex};
use ttcn_types::{CheckError, Program, TestId, check};
use ttcnx::{
    Counted, Fault, LineError, Report, StreamFault, check_text, coarsen_text, double_text,
    fault_line, read_line, replay_text, run_script, run_stream, run_text, to_json, to_text,
};

/// The words of a command line.
const WORDS: [&str; 9] = [
    "run",
    "f",
    "--testcase",
    "T",
    "--steps",
    "13",
    "--workers",
    "4",
    "--json",
];

/// A call.
#[derive(Clone, Copy)]
pub enum Call {
    /// `run_text` with so many workers, of the module of one component or of the race.
    RunOne(u64),
    RunRace(u64),
    /// `run_script` with so many workers, of a module with a system port.
    RunScript(u64),
    RunStream,
    Lex,
    Parse,
    /// `parse` and `check`, which takes the module.
    Check,
    CheckText,
    ReplayText,
    CoarsenText,
    DoubleText,
    ReadRun,
    ReadFine,
    ReadScript,
    ReadLine,
    FaultLine,
    NewMachine,
    Start,
    /// `labels` of the start.
    Labels,
    /// `next` from the start by its first label.
    Next,
    Replay,
    Coarsen,
    Double,
    Canon,
    Pack,
    Unpack,
    ToText,
    ToJson,
}

/// All of them, with their names.
pub const CALLS: &[(&str, Call)] = &[
    ("run_text of one component, 1 worker", Call::RunOne(1)),
    ("run_text of one component, 4 workers", Call::RunOne(4)),
    ("run_text of the race, 1 worker", Call::RunRace(1)),
    ("run_text of the race, 4 workers", Call::RunRace(4)),
    ("run_script, 1 worker", Call::RunScript(1)),
    ("run_script, 4 workers", Call::RunScript(4)),
    ("run_stream", Call::RunStream),
    ("lex", Call::Lex),
    ("parse", Call::Parse),
    ("parse and check", Call::Check),
    ("check_text", Call::CheckText),
    ("replay_text", Call::ReplayText),
    ("coarsen_text", Call::CoarsenText),
    ("double_text", Call::DoubleText),
    ("read_run", Call::ReadRun),
    ("read_fine", Call::ReadFine),
    ("read_script", Call::ReadScript),
    ("read_line", Call::ReadLine),
    ("fault_line", Call::FaultLine),
    ("Machine::new", Call::NewMachine),
    ("Machine::start", Call::Start),
    ("Machine::start and labels", Call::Labels),
    ("Machine::start, labels and next", Call::Next),
    ("Machine::replay", Call::Replay),
    ("Machine::coarsen", Call::Coarsen),
    ("Machine::double", Call::Double),
    ("canon", Call::Canon),
    ("pack", Call::Pack),
    ("unpack", Call::Unpack),
    ("to_text", Call::ToText),
    ("to_json", Call::ToJson),
];

/// What calls are asked for, made with ample memory.
#[derive(Drop)]
pub struct Subjects<'a, 'p> {
    pub tokens: &'a [Spanned],
    pub program: &'a Program,
    pub testcase: TestId,
    pub machine: &'a Machine<'p>,
    /// A configuration behind some steps, and its bytes.
    pub config: &'a Config,
    pub packed: &'a Packed,
    pub report: &'a Report,
    pub run: &'a [Label],
    pub fine_run: &'a [FineLabel],
}

/// Why a call gave nothing.
#[derive(Clone, Copy)]
pub enum Refusal {
    Memory,
    Other,
}

impl From<AllocError> for Refusal {
    fn from(_refused: AllocError) -> Refusal {
        Refusal::Memory
    }
}

impl From<Fault> for Refusal {
    fn from(fault: Fault) -> Refusal {
        match fault {
            Fault::Memory => Refusal::Memory,
            _ => Refusal::Other,
        }
    }
}

impl From<StreamFault> for Refusal {
    fn from(fault: StreamFault) -> Refusal {
        match fault {
            StreamFault::Refused(fault) => Refusal::from(fault),
            StreamFault::Read | StreamFault::Write => Refusal::Other,
        }
    }
}

impl From<LexError> for Refusal {
    fn from(error: LexError) -> Refusal {
        match error {
            LexError::Memory => Refusal::Memory,
            _ => Refusal::Other,
        }
    }
}

impl From<ParseError> for Refusal {
    fn from(error: ParseError) -> Refusal {
        match error {
            ParseError::Memory => Refusal::Memory,
            _ => Refusal::Other,
        }
    }
}

impl From<CheckError> for Refusal {
    fn from(error: CheckError) -> Refusal {
        match error {
            CheckError::Memory(_) => Refusal::Memory,
            CheckError::Broken(..) => Refusal::Other,
        }
    }
}

impl From<LineError> for Refusal {
    fn from(error: LineError) -> Refusal {
        match error {
            LineError::Memory(_) => Refusal::Memory,
            LineError::Help(_) | LineError::Bad(_) => Refusal::Other,
        }
    }
}

impl From<StepError> for Refusal {
    fn from(error: StepError) -> Refusal {
        match error {
            StepError::Memory => Refusal::Memory,
            StepError::NotEnabled => Refusal::Other,
        }
    }
}

impl From<RunError> for Refusal {
    fn from(error: RunError) -> Refusal {
        match error {
            RunError::Memory => Refusal::Memory,
            RunError::BadLabel(_) => Refusal::Other,
        }
    }
}

impl From<ReplayError> for Refusal {
    fn from(error: ReplayError) -> Refusal {
        match error {
            ReplayError::Memory => Refusal::Memory,
            ReplayError::NotEnabled(_) => Refusal::Other,
        }
    }
}

impl From<ScriptError> for Refusal {
    fn from(error: ScriptError) -> Refusal {
        match error {
            ScriptError::Memory => Refusal::Memory,
            ScriptError::TooLarge
            | ScriptError::BadJson
            | ScriptError::NoSuchPort
            | ScriptError::BadMessage => Refusal::Other,
        }
    }
}

impl From<CoarsenError> for Refusal {
    fn from(error: CoarsenError) -> Refusal {
        match error {
            CoarsenError::Memory => Refusal::Memory,
            CoarsenError::NotFine(_) | CoarsenError::NotEnded => Refusal::Other,
        }
    }
}

/// Makes calls.
pub trait Maker {
    /// What calls give.
    type Given: Drop;

    /// What a call gives.
    fn make<R: Threads + Sync>(
        &self,
        rt: &R,
        alloc: Global,
        call: Call,
    ) -> Result<Self::Given, Refusal>
        requires sync { IsSync R.row };

    /// The bytes that tell it from other things that the same call may give.
    fn into_bytes(alloc: Global, given: Self::Given) -> Result<Vec<u8>, AllocError>;
}

impl Maker for Subjects<'_, '_> {
    type Given = Given;

    fn make<R: Threads + Sync>(&self, rt: &R, alloc: Global, call: Call) -> Result<Given, Refusal> {
        match call {
            Call::RunOne(_) | Call::RunRace(_) | Call::RunScript(_) | Call::RunStream => {
                call.make_run(rt, alloc)
            }
            Call::Lex | Call::Parse | Call::Check | Call::ReadScript | Call::NewMachine => {
                call.make_nothing(alloc, self)
            }
            Call::CheckText
            | Call::ReplayText
            | Call::CoarsenText
            | Call::DoubleText
            | Call::ReadRun
            | Call::ReadFine
            | Call::ReadLine
            | Call::FaultLine => call.make_of_texts(alloc),
            Call::Canon | Call::Pack | Call::Unpack | Call::ToText | Call::ToJson => {
                call.make_of_parts(alloc, self)
            }
            _ => call.make_of_machine(alloc, self),
        }
    }

    fn into_bytes(alloc: Global, given: Given) -> Result<Vec<u8>, AllocError> {
        given.into_bytes(alloc)
    }
}

impl Call {
    /// What an exploration gives.
    fn make_run<R: Threads + Sync>(self, rt: &R, alloc: Global) -> Result<Given, Refusal> {
        let race = RACE.as_bytes();
        Ok(match self {
            Call::RunOne(workers) => {
                let plan = plan(2, workers);
                Given::Report(run_text(rt, alloc, ONE.as_bytes(), "T", &plan, &NoGate)?)
            }
            Call::RunRace(workers) => {
                Given::Report(run_text(rt, alloc, race, "T", &plan(13, workers), &NoGate)?)
            }
            Call::RunScript(workers) => {
                let (text, script, plan) = (MAPPED.as_bytes(), SCRIPT.as_bytes(), plan(9, workers));
                Given::Report(run_script(rt, alloc, text, script, "T", &plan, &NoGate)?)
            }
            Call::RunStream => Given::Bytes(streamed(rt, alloc)?),
            _ => return Err(Refusal::Other),
        })
    }

    /// Makes a call whose answer isn't looked at.
    fn make_nothing(self, alloc: Global, subjects: &Subjects<'_, '_>) -> Result<Given, Refusal> {
        match self {
            Call::Lex => {
                lex(alloc, RACE.as_bytes())?;
            }
            Call::Parse => {
                parse(alloc, subjects.tokens)?;
            }
            Call::Check => {
                check(alloc, parse(alloc, subjects.tokens)?)?;
            }
            Call::ReadScript => {
                let script = SCRIPT.as_bytes();
                read_script(alloc, script, subjects.program, subjects.testcase)?;
            }
            Call::NewMachine => {
                Machine::new(alloc, subjects.program, subjects.testcase)?;
            }
            _ => return Err(Refusal::Other),
        }
        Ok(Given::Nothing)
    }

    /// What a call on texts gives.
    fn make_of_texts(self, alloc: Global) -> Result<Given, Refusal> {
        let (race, run, fine_run) = (
            RACE.as_bytes(),
            RUN_OF_RACE.as_bytes(),
            FINE_RUN_OF_RACE.as_bytes(),
        );
        Ok(match self {
            Call::CheckText => {
                check_text(alloc, race)?;
                Given::Nothing
            }
            Call::ReplayText => Given::Bytes(replay_text(alloc, race, "T", run, b"{}")?),
            Call::CoarsenText => Given::Bytes(coarsen_text(alloc, race, "T", fine_run, b"{}")?),
            Call::DoubleText => Given::Bytes(double_text(alloc, race, "T", run, b"{}")?),
            Call::ReadRun => Given::Run(read_run(alloc, run)?),
            Call::ReadFine => Given::FineRun(read_fine(alloc, fine_run)?),
            Call::ReadLine => {
                read_line(alloc, &WORDS)?;
                Given::Nothing
            }
            Call::FaultLine => Given::Text(fault_line(alloc, &Fault::NotEnabled(7))?),
            _ => return Err(Refusal::Other),
        })
    }

    /// What a call of the machine gives.
    fn make_of_machine(self, alloc: Global, subjects: &Subjects<'_, '_>) -> Result<Given, Refusal> {
        let machine = subjects.machine;
        match self {
            Call::Start => Ok(Given::Config(machine.start(alloc)?)),
            Call::Labels => first_labels(alloc, machine),
            Call::Next => Ok(Given::Config(second(alloc, machine)?)),
            Call::Replay => Ok(Given::Config(machine.replay(alloc, subjects.run)?)),
            Call::Coarsen => Ok(Given::Run(machine.coarsen(alloc, subjects.fine_run)?)),
            Call::Double => Ok(Given::FineRun(machine.double(alloc, subjects.run)?)),
            _ => Err(Refusal::Other),
        }
    }

    /// What a call on a configuration or a report gives.
    fn make_of_parts(self, alloc: Global, subjects: &Subjects<'_, '_>) -> Result<Given, Refusal> {
        Ok(match self {
            Call::Canon => Given::Config(canon(alloc, subjects.config)?),
            Call::Pack => Given::Packed(pack(alloc, subjects.config)?),
            Call::Unpack => Given::Config(unpack(alloc, &subjects.packed)?),
            Call::ToText => Given::Text(to_text(alloc, subjects.report)?),
            Call::ToJson => Given::Text(to_json(alloc, subjects.report)?),
            _ => return Err(Refusal::Other),
        })
    }

    /// The text that the call gives, where it is that of a row.
    pub fn wanted(self) -> Option<&'static str> {
        match self {
            Call::RunOne(_) => Some(REPORT_ON_ONE),
            Call::RunScript(_) => Some(REPORT_ON_MAPPED),
            Call::RunRace(_) | Call::RunStream | Call::ToText => Some(REPORT_ON_RACE),
            Call::ReadRun | Call::Coarsen | Call::CoarsenText => Some(RUN_OF_RACE),
            Call::Labels => Some("mtc\n"),
            Call::FaultLine => Some("refused N2 NotEnabled at label 7"),
            Call::ReadFine | Call::Double | Call::DoubleText => Some(FINE_RUN_OF_RACE),
            _ => None,
        }
    }
}

/// The plan of a call: a candidate a piece.
fn plan(steps: u64, workers: u64) -> Plan {
    Plan {
        steps,
        limit: 1_000_000,
        workers,
        piece: 1,
    }
}

/// The labels of the start.
fn first_labels(alloc: Global, machine: &Machine<'_>) -> Result<Given, Refusal> {
    let start = machine.start(alloc)?;
    Ok(Given::Run(machine.labels(alloc, &start)?))
}

/// The configuration behind the first label.
fn second(alloc: Global, machine: &Machine<'_>) -> Result<Config, Refusal> {
    let start = machine.start(alloc)?;
    match machine.labels(alloc, &start)?.first() {
        Some(label) => Ok(machine.next(alloc, &start, label)?),
        None => Err(Refusal::Other),
    }
}

/// What `run_stream` writes of the race.
fn streamed<R: Threads + Sync>(rt: &R, alloc: Global) -> Result<Vec<u8>, StreamFault> {
    let mut reader = Counted::new(RACE.as_bytes());
    // A writer with room, so that what is refused is a request of the call.
    let mut writer = Counted::new(Vec::with_capacity(alloc, REPORT_ON_RACE.len())?);
    let plan = plan(13, 4);
    run_stream(
        rt,
        alloc,
        &mut reader,
        &mut writer,
        b"{}",
        "T",
        &plan,
        false,
        &NoGate,
    )?;
    Ok(writer.into_inner())
}
