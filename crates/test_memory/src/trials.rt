//! Each call with each of its requests for memory refused.
use crate::calls::{CALLS, Call, Maker, Refusal, Subjects};
use crate::refusals::{Answer, Ending, Order, Refused, can_refuse, end};
use crate::tables::{
    draws_without_memory, finish_table, new_board, new_table, places_without_memory,
};
use crate::texts::{FINE_RUN_OF_RACE, RACE, RUN_OF_RACE, SENT};
use anyhow::{Result, bail};
use explore::{NoGate, Plan};
use report::{read_fine, read_run};
use std::alloc::{AllocError, Global};
use std::rt::Files;
use std::thread::Threads;
use ttcn_config::{canon, pack};
use ttcn_parse::parse;
use ttcn_step::Machine;
use ttcn_syntax::{Spanned, lex};
use ttcn_types::{Program, TestId, check};
use ttcnx::run_text;

/// More requests than any of the calls makes.
const REQUESTS: u64 = 1_000_000;

/// What is tried.
#[derive(Clone, Copy)]
enum Trial {
    Call(Call),
    NewTable,
    FinishTable,
    NewBoard,
}

/// The trials of tables and boards, with their names.
const TABLES: &[(&str, Trial)] = &[
    ("Seen::new", Trial::NewTable),
    ("Seen::finish", Trial::FinishTable),
    ("Board::new", Trial::NewBoard),
];

/// How many requests were refused, and how many answers were otherwise than they may be.
#[derive(Clone, Copy)]
struct Count {
    refused: u64,
    otherwise: u64,
}

impl Count {
    const NONE: Count = Count {
        refused: 0,
        otherwise: 0,
    };

    fn plus(self, more: Count) -> Count {
        Count {
            refused: self.refused.saturating_add(more.refused),
            otherwise: self.otherwise.saturating_add(more.otherwise),
        }
    }

    /// One answer more.
    fn with(self, ending: Ending) -> Count {
        self.plus(Count {
            refused: ending.was_refused as u64,
            otherwise: !ending.is_allowed() as u64,
        })
    }

    /// One answer more, with ample memory.
    fn with_ample(self, ending: Ending) -> Count {
        self.plus(Count {
            refused: 0,
            otherwise: !matches!(ending.answer, Answer::Right) as u64,
        })
    }
}

/// Tries all calls, tells how each went, and gives how many answers were otherwise than they may be.
pub fn try_all<R>(rt: &R) -> Result<u64>
where
    R: Files + Print + AllocGlobal + Threads + Sync,
{
    let alloc = rt.alloc();
    let tokens = lex(alloc, RACE.as_bytes())?;
    let program = check(alloc, parse(alloc, tokens.as_slice())?)?;
    let Some(testcase) = program.testcase("T") else {
        bail!("the module has no test case")
    };
    let machine = Machine::new(alloc, &program, testcase)?;
    let Count { refused, otherwise } = try_machine(
        rt,
        tokens.as_slice(),
        &program,
        testcase,
        &machine,
    )?;
    println!(rt; "all: {refused} requests refused in turn, {otherwise} answered otherwise")?;
    Ok(otherwise)
}

/// Tries all calls, those of a machine with this one.
fn try_machine<R>(
    rt: &R,
    tokens: &[Spanned],
    program: &Program,
    testcase: TestId,
    machine: &Machine<'_>,
) -> Result<Count>
where
    R: Files + Print + AllocGlobal + Threads + Sync,
{
    let alloc = rt.alloc();
    let plan = Plan {
        steps: 13,
        limit: 100,
        workers: 1,
        piece: 1,
    };
    let report = run_text(rt, alloc, RACE.as_bytes(), "T", &plan, &NoGate)?;
    let sent = read_run(alloc, SENT.as_bytes())?;
    let config = canon(alloc, &machine.replay(alloc, sent.as_slice())?)?;
    let packed = pack(alloc, &config)?;
    let run = read_run(alloc, RUN_OF_RACE.as_bytes())?;
    let fine_run = read_fine(alloc, FINE_RUN_OF_RACE.as_bytes())?;
    let subjects = Subjects {
        tokens,
        program,
        testcase,
        machine,
        config: &config,
        packed: &packed,
        report: &report,
        run: run.as_slice(),
        fine_run: fine_run.as_slice(),
    };
    try_with(rt, &subjects)
}

/// Tries all calls, those of a maker with what it has.
fn try_with<R, M: Maker>(rt: &R, maker: &M) -> Result<Count>
where
    R: Files + Print + AllocGlobal + Threads + Sync,
{
    let mut all = Count::NONE;
    for (name, call) in CALLS {
        all = all.plus(refuse_each(rt, name, Trial::Call(*call), maker)?);
    }
    for (name, trial) in TABLES {
        all = all.plus(refuse_each(rt, name, *trial, maker)?);
    }
    let places = places_without_memory(rt, rt.alloc(), can_refuse(rt))?;
    let draws = draws_without_memory(rt, rt.alloc(), can_refuse(rt))?;
    Ok(all.plus(Count {
        refused: 0,
        otherwise: !places as u64 + !draws as u64,
    }))
}

/// Refuses each request of a call in turn, until it ends without a refusal; after each refusal the call is made again, with
/// ample memory.
fn refuse_each<R, M: Maker>(rt: &R, name: &str, trial: Trial, maker: &M) -> Result<Count>
where
    R: Files + Print + AllocGlobal + Threads + Sync,
{
    let ample = attempt(rt, trial, maker, Refused::None)?;
    let mut count = Count::NONE.with_ample(ample);
    if can_refuse(rt) {
        for number in 1..REQUESTS {
            let ending = attempt(rt, trial, maker, Refused::One(number))?;
            count = count.with(ending);
            if !ending.was_refused {
                break;
            }
            count = count.with_ample(attempt(rt, trial, maker, Refused::None)?);
        }
    }
    let Count { refused, otherwise } = count;
    println!(rt; "{name}: {refused} requests refused in turn, {otherwise} answered otherwise")?;
    Ok(count)
}

/// Makes a call whose requests are refused so.
fn attempt<R, M: Maker>(
    rt: &R,
    trial: Trial,
    maker: &M,
    refused: Refused,
) -> Result<Ending, AllocError>
where
    R: Files + AllocGlobal + Threads + Sync,
{
    let alloc = rt.alloc();
    let order = Order::new(alloc, refused)?;
    match trial {
        Trial::Call(call) => attempt_call(rt, alloc, call, maker, &order),
        Trial::NewTable => Ok(new_table(rt, alloc, &order)),
        Trial::FinishTable => finish_table(rt, alloc, &order),
        Trial::NewBoard => Ok(new_board(rt, alloc, &order)),
    }
}

fn attempt_call<R, M: Maker>(
    rt: &R,
    alloc: Global,
    call: Call,
    maker: &M,
    order: &Order,
) -> Result<Ending, AllocError>
where
    R: Files + Threads + Sync,
{
    order.begin(rt);
    let made = maker.make(rt, alloc, call);
    let was_refused = end(rt);
    let answer = match made {
        Ok(given) => answer_by(is_right(rt, alloc, call, maker, given)?),
        Err(Refusal::Memory) => Answer::NoMemory,
        Err(Refusal::Other) => Answer::Other,
    };
    Ok(Ending {
        was_refused,
        answer,
    })
}

fn answer_by(is_right: bool) -> Answer {
    if is_right {
        Answer::Right
    } else {
        Answer::Other
    }
}

/// Whether a call gave the text of its row, or where no row has it, what it gives with ample memory.
fn is_right<R: Threads + Sync, M: Maker>(
    rt: &R,
    alloc: Global,
    call: Call,
    maker: &M,
    given: M::Given,
) -> Result<bool, AllocError> {
    let bytes = M::into_bytes(alloc, given)?;
    if let Some(wanted) = call.wanted() {
        return Ok(bytes.as_slice() == wanted.as_bytes());
    }
    match maker.make(rt, alloc, call) {
        Ok(again) => Ok(bytes.as_slice() == M::into_bytes(alloc, again)?.as_slice()),
        Err(_) => Ok(false),
    }
}
