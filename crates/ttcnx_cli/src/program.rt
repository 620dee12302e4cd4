//! What the program does: from its words to what it writes and the status that it exits with.
use crate::lint_command;
use crate::run_command::{self, Request, Telling};
use std::alloc::{AllocError, Global};
use std::io::{self, ErrorKind, Read};
use std::rt::{Env, Files};
use std::thread::Threads;
use std::{env, fs};
use ttcn_syntax::LONGEST_TEXT;
use ttcnx::{
    Fault, Line, LineError, check_answer, coarsen_text, double_text, explain_text, fault_line,
    list_answer, read_line, replay_text, status,
};
use ttcnx_progress::Showing;

/// How many bytes of a module or a script are read: a text that has them all is refused as too long.
pub(crate) const ENOUGH: u64 = LONGEST_TEXT as u64 + 1;

/// The script of a command that is given none: nothing comes in.
const NO_SCRIPT: &[u8] = b"{}";

/// Why a command line was not answered, or not as it asks.
#[derive(Debug, Drop)]
pub(crate) enum Stop {
    /// The words are at fault, as the text says.
    Words(String),
    Fault(Fault),
    /// A line tells it, and there is a status to exit with.
    Told(String, u8),
    /// What is written tells it, and there is a status to exit with.
    Written(u8),
}

impl From<AllocError> for Stop {
    fn from(_refused: AllocError) -> Stop {
        Stop::Fault(Fault::Memory)
    }
}

impl From<Fault> for Stop {
    fn from(fault: Fault) -> Stop {
        Stop::Fault(fault)
    }
}

/// Does what the words ask for, and gives the status to exit with. Nothing is written before the whole answer
/// is there, but for what the gate shows of an exploration.
pub fn run<R, G>(rt: &R, gate: &G) -> u8
where
    R: Env + Files + Print + Eprint + AllocGlobal + Threads + Sync,
    G: Showing,
{
    match answer(rt, gate) {
        Ok(()) => 0,
        Err(Stop::Words(text)) => {
            let _ = rt.eprint(&text);
            2
        }
        Err(Stop::Fault(fault)) => tell(rt, &fault),
        Err(Stop::Told(line, status)) => {
            let _ = rt.eprintln(&line);
            status
        }
        Err(Stop::Written(status)) => status,
    }
}

/// Writes the line of a fault, and gives its status.
fn tell<R: Eprint + AllocGlobal>(rt: &R, fault: &Fault) -> u8 {
    match fault_line(rt.alloc(), fault) {
        Ok(line) => {
            let _ = rt.eprintln(&line);
            status(fault)
        }
        Err(_) => {
            let _ = rt.eprintln(&Fault::Memory);
            status(&Fault::Memory)
        }
    }
}

/// Answers the words of the command line.
fn answer<R, G>(rt: &R, gate: &G) -> Result<(), Stop>
where
    R: Env + Files + Print + AllocGlobal + Threads + Sync,
    G: Showing,
{
    let alloc = rt.alloc();
    let words = words(rt)?;
    let texts: Vec<&str> = words.iter().map(|word| word.as_str()).collect(alloc)?;
    match read_line(alloc, texts.get(1..).unwrap_or(&[])) {
        Ok(line) => answer_line(rt, line, gate),
        Err(LineError::Help(text)) => Ok(print(rt, text.as_bytes())?),
        Err(LineError::Bad(text)) => Err(Stop::Words(text)),
        Err(LineError::Memory(_)) => Err(Stop::Fault(Fault::Memory)),
    }
}

/// Answers a command.
fn answer_line<R, G>(rt: &R, line: Line, gate: &G) -> Result<(), Stop>
where
    R: Files + Print + AllocGlobal + Threads + Sync,
    G: Showing,
{
    match line {
        Line::Check { file } => {
            let text = read_bytes(rt, file, ENOUGH)?;
            Ok(print(rt, check_answer(rt.alloc(), &text)?.as_bytes())?)
        }
        Line::Lint { files, format } => lint_command::run(rt, files, format),
        Line::List { file } => {
            let text = read_bytes(rt, file, ENOUGH)?;
            Ok(print(rt, &list_answer(rt.alloc(), &text)?)?)
        }
        Line::Run {
            file,
            testcase,
            script,
            plan,
            json,
            explain,
            wishes,
        } => {
            let request = Request {
                file,
                testcase,
                script,
                plan,
                telling: Telling { json, explain },
                wishes,
            };
            run_command::run(rt, request, gate)
        }
        Line::Replay {
            file,
            testcase,
            script,
            run,
        } => follow(rt, script, file, run, |alloc, given| {
            replay_text(
                alloc,
                &given.module,
                testcase.as_str(),
                &given.run,
                &given.script,
            )
        }),
        Line::Coarsen {
            file,
            testcase,
            script,
            run,
        } => follow(rt, script, file, run, |alloc, given| {
            coarsen_text(
                alloc,
                &given.module,
                testcase.as_str(),
                &given.run,
                &given.script,
            )
        }),
        Line::Double {
            file,
            testcase,
            script,
            run,
        } => follow(rt, script, file, run, |alloc, given| {
            double_text(
                alloc,
                &given.module,
                testcase.as_str(),
                &given.run,
                &given.script,
            )
        }),
        Line::Explain {
            file,
            testcase,
            script,
            run,
            format,
        } => follow(rt, script, file, run, |alloc, given| {
            let (module, run, script) = (&given.module, &given.run, &given.script);
            explain_text(alloc, module, testcase.as_str(), run, script, format)
        }),
    }
}

/// Reads the files of a command about a run, and writes what is answered for them.
fn follow<R, F>(
    rt: &R,
    script: Option<String>,
    file: String,
    run: String,
    answer: F,
) -> Result<(), Stop>
where
    R: Files + Print + AllocGlobal,
    F: Fn(Global, &Given) -> Result<Vec<u8>, Fault>,
    requires { F.IsAlwaysCallable answer }
{
    let given = read_all(rt, script, file, run)?;
    Ok(print(rt, &answer(rt.alloc(), &given)?)?)
}

/// Writes bytes to the standard output.
pub(crate) fn print<R: Print>(rt: &R, bytes: &[u8]) -> Result<(), Fault> {
    match Print::write_all(rt, bytes) {
        Ok(()) => Ok(()),
        Err(_) => Err(Fault::CannotWrite),
    }
}

/// What a command about a run reads: the bytes of a script, of a module and of a run file.
#[derive(Drop)]
struct Given {
    script: Vec<u8>,
    module: Vec<u8>,
    run: Vec<u8>,
}

/// Reads the files of a command about a run, the script first.
fn read_all<R: Files + AllocGlobal>(
    rt: &R,
    script: Option<String>,
    file: String,
    run: String,
) -> Result<Given, Fault> {
    let script = read_script(rt, script)?;
    let module = read_bytes(rt, file, ENOUGH)?;
    let run = read_bytes(rt, run, u64::MAX)?;
    Ok(Given {
        script,
        module,
        run,
    })
}

/// The bytes of the script, which is read before all other files.
pub(crate) fn read_script<R: Files + AllocGlobal>(
    rt: &R,
    file: Option<String>,
) -> Result<Vec<u8>, Fault> {
    match file {
        Some(file) => read_bytes(rt, file, ENOUGH),
        None => Ok(Vec::from_slice(rt.alloc(), NO_SCRIPT)?),
    }
}

/// The words of the command line, the program's name first.
fn words<R: Env + AllocGlobal>(rt: &R) -> Result<Vec<String>, Stop> {
    match env::args(rt) {
        Ok(words) => Ok(words.collect(rt.alloc())?),
        Err(error) if error.kind() == ErrorKind::OutOfMemory => Err(Stop::Fault(Fault::Memory)),
        Err(_) => {
            let text = "error: a word of the command line is not UTF-8\n";
            Err(Stop::Words(String::from_str(rt.alloc(), text)?))
        }
    }
}

/// The bytes of a file, or so many of them where it has more.
pub(crate) fn read_bytes<R: Files + AllocGlobal>(
    rt: &R,
    file: String,
    most: u64,
) -> Result<Vec<u8>, Fault> {
    match bytes_of(rt, file.as_str(), most) {
        Ok(bytes) => Ok(bytes),
        Err(error) => Err(unread(file, &error)),
    }
}

/// Why the file of this name was not read.
pub(crate) fn unread(file: String, error: &io::Error) -> Fault {
    if error.kind() == ErrorKind::OutOfMemory {
        Fault::Memory
    } else {
        Fault::CannotRead(file)
    }
}

/// The first bytes of a file, as many as are wanted at most.
pub(crate) fn bytes_of<R: Files + AllocGlobal>(
    rt: &R,
    file: &str,
    most: u64,
) -> io::Result<Vec<u8>> {
    let mut bytes = Vec::new(rt.alloc());
    fs::open(rt, file)?.take(most).read_to_end(&mut bytes)?;
    Ok(bytes)
}
