//! Readers and writers that fail, that move few bytes at a time, or that have no end.
ghost use Rattle.std.specs.Prelude.{◌≡◌, ◌<◌, ◌^◌, ◌-◌};

use explore::{NoGate, Plan};
use std::alloc::{AllocError, AllocGlobal};
use std::io::{self, Error, ErrorKind, Read, Write};
use std::test::Fail;
use std::thread::Threads;
use ttcnx::{Counted, Fault, Refusal, StreamFault, fault_line, run_stream};

const TEXT: &str = "module M {
type component C {}
testcase T() runs on C { setverdict(pass) }
}
";

const REPORT: &str = "testcase T
steps 2
configurations 3
complete yes
verdict pass 2
  mtc
  mtc
";

const REPORT_IN_JSON: &str =
    "{\"blocked\":[],\"branches\":[],\"complete\":true,\"configurations\":3,\"steps\":2,\"testcase\":\"T\",\"verdicts\":[{\"run\":[\"mtc\",\"mtc\"],\"verdict\":\"pass\"}]}\n";

/// A test case that waits for what comes in at its system port, or for a timer.
const SYSTEM: &str = "module Y {
type port P message { in integer; out boolean }
type component C { port P p; timer t := 1.0 }
testcase T() runs on C system C {
map(self:p, system:p);
p.send(true);
t.start;
alt {
[] p.receive(1) { setverdict(pass) }
[] p.receive { setverdict(fail) }
[] t.timeout { setverdict(inconc) }
}
}
}
";

const REPORT_UNDER_A_SCRIPT: &str = "testcase T
steps 9
configurations 29
complete yes
verdict pass 7
  mtc
  mtc
  mtc
  system.p
  mtc
  mtc
  mtc
verdict inconc 7
  mtc
  mtc
  mtc
  mtc/0.t
  mtc
  mtc
  mtc
branch 9:1
branch 11:1
";

const PLAN: Plan = Plan {
    steps: 2,
    limit: 1_000_000,
    workers: 1,
    piece: 256,
};

/// How a call goes wrong.
#[derive(Clone, Copy, Debug)]
enum Trouble {
    Fails,
    IsInterrupted,
    MovesNothing,
}

/// A reader or a writer that moves so many bytes a call at most, and has trouble at one of its calls.
#[derive(Drop)]
struct Faulty<T> {
    inner: T,
    step: usize,
    /// The number of the call with trouble, from 1 on.
    at: u64,
    trouble: Trouble,
    calls: u64,
    moved: u64,
}

impl<T> Faulty<T> {
    fn new(inner: T, step: usize, at: u64, trouble: Trouble) -> Faulty<T> {
        Faulty {
            inner,
            step,
            at,
            trouble,
            calls: 0,
            moved: 0,
        }
    }

    /// How many of so many bytes a call may move.
    fn room(&mut self, wanted: usize) -> io::Result<usize> {
        self.calls = self.calls.saturating_add(1);
        if self.calls != self.at {
            return Ok(wanted.min(self.step));
        }
        match self.trouble {
            Trouble::Fails => Err(Error::from(ErrorKind::Other)),
            Trouble::IsInterrupted => Err(Error::from(ErrorKind::Interrupted)),
            Trouble::MovesNothing => Ok(0),
        }
    }

    fn count(&mut self, moved: usize) {
        self.moved = self.moved.saturating_add(moved as u64);
    }
}

impl<T: Read> Read for Faulty<T> {
    fn read(&mut self, buf: &mut [u8]) -> io::Result<usize> {
        let room = self.room(buf.len())?.min(buf.len());
        let given = self.inner.read(&mut buf[..room])?;
        self.count(given);
        Ok(given.min(buf.len()))
    }
}

impl<T: Write> Write for Faulty<T> {
    fn write(&mut self, buf: &[u8]) -> io::Result<usize> {
        let room = self.room(buf.len())?.min(buf.len());
        let taken = self.inner.write(&buf[..room])?;
        self.count(taken);
        Ok(taken.min(buf.len()))
    }

    fn flush(&mut self) -> io::Result<()> {
        Ok(())
    }
}

/// A device without trouble.
fn sound<T>(inner: T, step: usize) -> Counted<Faulty<T>>
    ensures { result.failed ≡ 0 }
{
    Counted::new(Faulty::new(inner, step, 0, Trouble::Fails))
}

/// What is asked for beside the text.
#[derive(Clone, Copy)]
struct Order<'a> {
    script: &'a str,
    testcase: &'a str,
    plan: Plan,
    json: bool,
}

/// A report as text on the test case `T`, for which no messages come in.
const PLAIN: Order<'static> = Order {
    script: "{}",
    testcase: "T",
    plan: PLAN,
    json: false,
};

/// Writes the report on a test case of the text that the reader gives.
fn stream<R, D, E>(
    rt: &R,
    reader: &mut Counted<D>,
    writer: &mut Counted<E>,
    order: &Order<'_>,
) -> Result<(), StreamFault>
where
    R: AllocGlobal + Threads + Sync,
    D: Read,
    E: Write,
    requires reads { reader.old.failed < 2 ^ 64 - 1 }
    requires writes { writer.old.failed < 2 ^ 64 - 1 }
{
    run_stream(
        rt,
        rt.alloc(),
        reader,
        writer,
        order.script.as_bytes(),
        order.testcase,
        &order.plan,
        order.json,
        &NoGate,
    )
}

/// Whether a text goes in and its report comes out, where devices without trouble move so many bytes a call.
fn goes_through<R: AllocGlobal + Threads + Sync>(
    rt: &R,
    text: &str,
    order: &Order<'_>,
    step: usize,
    want: &str,
) -> bool {
    let mut reader = sound(text.as_bytes(), step);
    let mut writer = sound(Vec::new(rt.alloc()), step);
    let done = stream(rt, &mut reader, &mut writer, order);
    let is_done = done.is_ok() && reader.failed() == 0 && writer.failed() == 0;
    let written = writer.into_inner().inner;
    is_done && written.as_slice() == want.as_bytes()
}

#[test]
fn reports_go_through(rt: HostRuntime) -> Result<(), Fail> {
    let json = Order {
        json: true,
        ..PLAIN
    };
    for step in [1, 7, 1_000_000] {
        assert!(rt; goes_through(&rt, TEXT, &PLAIN, step, REPORT), "{step}");
        assert!(rt;
            goes_through(&rt, TEXT, &json, step, REPORT_IN_JSON),
            "{step}"
        );
    }
    Ok(())
}

#[test]
fn messages_of_a_script_come_in(rt: HostRuntime) -> Result<(), Fail> {
    let order = Order {
        script: "{\"p\":[{\"integer\":1},{\"integer\":2}]}",
        plan: Plan { steps: 9, ..PLAN },
        ..PLAIN
    };
    assert!(rt; goes_through(&rt, SYSTEM, &order, 30, REPORT_UNDER_A_SCRIPT));
    Ok(())
}

/// Whether an order is refused with this line, and nothing is written.
fn is_refused<R: AllocGlobal + Threads + Sync>(
    rt: &R,
    text: &str,
    order: &Order<'_>,
    want: &str,
) -> Result<bool, AllocError> {
    let alloc = rt.alloc();
    let mut reader = sound(text.as_bytes(), 30);
    let mut writer = sound(Vec::new(alloc), 30);
    let done = stream(rt, &mut reader, &mut writer, order);
    let Err(StreamFault::Refused(fault)) = &done else {
        return Ok(false);
    };
    let line = fault_line(alloc, fault)?;
    Ok(line.as_str() == want && writer.into_inner().calls == 0)
}

/// Texts, test cases and scripts, and how they are refused: a script is judged behind the test case's name.
const REFUSED: &[(&str, &str, &str, &str)] = &[
    (TEXT, "t", "{}", "refused U1 NoSuchTestCase"),
    (TEXT, "t", "{", "refused U1 NoSuchTestCase"),
    (TEXT, "T", "{", "refused J1 BadJson"),
    (TEXT, "T", "[]", "refused J2 NoSuchPort"),
    (TEXT, "T", "{\"p\":[]}", "refused J2 NoSuchPort"),
    (SYSTEM, "T", "{\"p\":[1]}", "refused J3 BadMessage"),
];

#[test]
fn refusals_write_nothing(rt: HostRuntime) -> Result<(), Fail> {
    for (text, testcase, script, want) in REFUSED {
        let order = Order {
            script,
            testcase,
            ..PLAIN
        };
        assert!(rt; is_refused(&rt, text, &order, want)?, "{script}");
    }
    Ok(())
}

/// Whether trouble at a call of the reader ends a stream there, and nothing is written.
fn ends_at_read<R: AllocGlobal + Threads + Sync>(rt: &R, trouble: Trouble, at: u64) -> bool {
    let mut reader = Counted::new(Faulty::new(TEXT.as_bytes(), 30, at, trouble));
    let mut writer = sound(Vec::new(rt.alloc()), 30);
    let done = stream(rt, &mut reader, &mut writer, &PLAIN);
    let is_read = matches!(done, Err(StreamFault::Read));
    let are_counted = reader.failed() == 1 && writer.failed() == 0;
    is_read && are_counted && reader.into_inner().calls == at && writer.into_inner().calls == 0
}

#[test]
fn reads_that_fail_end_the_call(rt: HostRuntime) -> Result<(), Fail> {
    for trouble in [Trouble::Fails, Trouble::IsInterrupted] {
        for at in 1..=4 {
            assert!(rt; ends_at_read(&rt, trouble, at), "{trouble:?} {at}");
        }
    }
    Ok(())
}

/// Nothing more is asked for behind a read that gave nothing, though the reader has more.
#[test]
fn a_read_of_nothing_is_the_end(rt: HostRuntime) -> Result<(), Fail> {
    let mut reader = Counted::new(Faulty::new(TEXT.as_bytes(), 30, 3, Trouble::MovesNothing));
    let mut writer = sound(Vec::new(rt.alloc()), 30);
    let done = stream(&rt, &mut reader, &mut writer, &PLAIN);
    let is_refused = matches!(
        done,
        Err(StreamFault::Refused(Fault::Refused(Refusal::Unexpected, _)))
    );
    assert!(rt;
        is_refused && reader.failed() == 0,
        "a beginning of the text"
    );
    assert!(rt; reader.into_inner().calls == 3, "nothing more is asked for");
    assert!(rt; writer.into_inner().calls == 0, "nothing is written");
    Ok(())
}

/// Whether trouble at a call of the writer, which takes a byte a call, ends a stream there, with a beginning of the report.
fn ends_at_write<R: AllocGlobal + Threads + Sync>(rt: &R, trouble: Trouble, before: usize) -> bool {
    let at = (before as u64).saturating_add(1);
    let mut reader = sound(TEXT.as_bytes(), 30);
    let mut writer = Counted::new(Faulty::new(Vec::new(rt.alloc()), 1, at, trouble));
    let done = stream(rt, &mut reader, &mut writer, &PLAIN);
    let is_write = matches!(done, Err(StreamFault::Write));
    let are_counted = reader.failed() == 0 && writer.failed() == 1;
    let writer = writer.into_inner();
    let is_beginning = REPORT.as_bytes().get(..before) == Some(writer.inner.as_slice());
    is_write && are_counted && writer.calls == at && is_beginning
}

#[test]
fn writes_that_fail_leave_a_beginning(rt: HostRuntime) -> Result<(), Fail> {
    for trouble in [
        Trouble::Fails,
        Trouble::IsInterrupted,
        Trouble::MovesNothing,
    ] {
        for before in 0..REPORT.len() {
            assert!(rt; ends_at_write(&rt, trouble, before), "{trouble:?} {before}");
        }
    }
    Ok(())
}

/// A writer that takes all bytes, and can't be flushed.
#[derive(Drop)]
struct Unflushed(Vec<u8>);

impl Write for Unflushed {
    fn write(&mut self, buf: &[u8]) -> io::Result<usize> {
        Ok(self.0.write(buf)?.min(buf.len()))
    }

    fn flush(&mut self) -> io::Result<()> {
        Err(Error::from(ErrorKind::Other))
    }
}

#[test]
fn a_failed_flush_is_a_failed_write(rt: HostRuntime) -> Result<(), Fail> {
    let alloc = rt.alloc();
    let mut reader = sound(TEXT.as_bytes(), 30);
    let mut writer = Counted::new(Unflushed(Vec::new(alloc)));
    let done = stream(&rt, &mut reader, &mut writer, &PLAIN);
    assert!(rt;
        matches!(done, Err(StreamFault::Write)) && writer.failed() == 1,
        "the flush"
    );
    assert!(rt;
        writer.into_inner().0.as_slice() == REPORT.as_bytes(),
        "the report is there"
    );
    Ok(())
}

#[test]
fn no_more_is_read_than_is_needed(rt: HostRuntime) -> Result<(), Fail> {
    let alloc = rt.alloc();
    let mut reader = sound(io::repeat(b'('), 1_000_000);
    let mut writer = sound(Vec::new(alloc), 1);
    let done = stream(&rt, &mut reader, &mut writer, &PLAIN);
    let is_refused = matches!(
        done,
        Err(StreamFault::Refused(Fault::Refused(Refusal::TextTooLong, _)))
    );
    assert!(rt; is_refused && reader.failed() == 0, "a text without end");
    assert!(rt;
        reader.into_inner().moved == 1_048_577,
        "a byte more than a text may have"
    );
    assert!(rt; writer.into_inner().calls == 0, "nothing is written");
    Ok(())
}

#[test]
fn plans_are_judged_before_the_first_read(rt: HostRuntime) -> Result<(), Fail> {
    let order = Order {
        plan: Plan { limit: 0, ..PLAN },
        ..PLAIN
    };
    let mut reader = sound(TEXT.as_bytes(), 30);
    let mut writer = sound(Vec::new(rt.alloc()), 30);
    let done = stream(&rt, &mut reader, &mut writer, &order);
    assert!(rt;
        matches!(done, Err(StreamFault::Refused(Fault::BadPlan))),
        "the plan"
    );
    assert!(rt; reader.into_inner().calls == 0, "nothing is read");
    assert!(rt; writer.into_inner().calls == 0, "nothing is written");
    Ok(())
}
