//! Two workers that work at once.
use explore::{Gate, Plan};
use std::sync::atomic::AtomicU64;
use std::sync::atomic::Ordering::SeqCst;
use std::test::Fail;
use std::thread::yield_now;
use ttcnx::{run_text, to_text};

/// Two components send to the main one, which takes the message that comes first.
const RACE: &str = "module R {
type port P message { inout integer }
type component M { port P p }
type component W { port P q }
function f(integer x) runs on W { q.send(x) }
testcase T() runs on M {
var W a := W.create;
var W b := W.create;
connect(self:p, a:q);
connect(self:p, b:q);
a.start(f(1));
b.start(f(2));
alt {
[] p.receive(1) { setverdict(pass) }
[] p.receive { setverdict(fail) }
}
}
}
";

const REPORT: &str = "testcase T
steps 13
configurations 47
complete yes
verdict pass 10
  mtc
  mtc
  mtc
  mtc
  mtc
  mtc
  mtc.1
  mtc
  mtc
  mtc
verdict fail 10
  mtc
  mtc
  mtc
  mtc
  mtc
  mtc
  mtc.2
  mtc
  mtc
  mtc
branch 14:1
branch 15:1
";

/// How often the held worker looks for another one.
const TURNS: u64 = 10_000_000;

/// A gate that holds the first worker that begins one of several pieces, until another one begins a piece of the same layer.
#[derive(Drop)]
struct Meeting {
    /// The layer in which the first one is held, or a number that no layer has.
    layer: AtomicU64,
    /// A bit for each worker that began a piece of that layer.
    workers: AtomicU64,
    /// Not 0 where the turns were used up.
    late: AtomicU64,
}

impl Gate for Meeting {
    fn enter(&self, worker: u64, layer: u64, _piece: u64, pieces: u64) {
        if pieces < 2 {
            return;
        }
        let own = 1 << (worker % 64);
        match self.layer.compare_exchange(u64::MAX, layer, SeqCst, SeqCst) {
            Ok(_none) => {
                self.workers.fetch_or(own, SeqCst);
                self.wait_for_another(own);
            }
            Err(held) => {
                if held == layer {
                    self.workers.fetch_or(own, SeqCst);
                }
            }
        }
    }
}

impl Meeting {
    fn wait_for_another(&self, own: u64) {
        for _turn in 0..TURNS {
            if self.workers.load(SeqCst) != own {
                return;
            }
            yield_now();
        }
        self.late.store(1, SeqCst);
    }
}

#[test]
fn two_workers_work_on_one_layer(rt: HostRuntime) -> Result<(), Fail> {
    let alloc = rt.alloc();
    let plan = Plan {
        steps: 13,
        limit: 1_000_000,
        workers: 2,
        piece: 1,
    };
    let gate = Meeting {
        layer: AtomicU64::new(u64::MAX),
        workers: AtomicU64::new(0),
        late: AtomicU64::new(0),
    };
    let report = run_text(&rt, alloc, RACE.as_bytes(), "T", &plan, &gate)?;
    let text = to_text(alloc, &report)?;
    assert!(rt; text.as_str() == REPORT, "{text}");
    assert!(rt; gate.workers.load(SeqCst) == 3, "workers 0 and 1");
    assert!(rt; gate.late.load(SeqCst) == 0, "the second one began in time");
    Ok(())
}
