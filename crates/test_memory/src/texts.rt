//! The modules of the calls, and what is answered for them.

/// One component, which sets its verdict.
pub const ONE: &str = "module M {
type component C {}
testcase T() runs on C { setverdict(pass) }
}
";

/// The report on all its runs of at most 2 steps.
pub const REPORT_ON_ONE: &str = "testcase T
steps 2
configurations 3
complete yes
verdict pass 2
  mtc
  mtc
";

/// Two components send to the main one, which takes the message that comes first.
pub const RACE: &str = "module R {
type port P message { inout integer }
type component M { port P p }
type component W { port P q }
function f(integer x) runs on W { q.send(x) }
testcase T() runs on M {
var W a := W.create;
var W b := W.create;
connect(self:p, a:q);
connect(self:p, b:q);
a.start(f(1));
b.start(f(2));
alt {
[] p.receive(1) { setverdict(pass) }
[] p.receive { setverdict(fail) }
}
}
}
";

/// The report on all its runs of at most 13 steps.
pub const REPORT_ON_RACE: &str = "testcase T
steps 13
configurations 47
complete yes
verdict pass 10
  mtc
  mtc
  mtc
  mtc
  mtc
  mtc
  mtc.1
  mtc
  mtc
  mtc
verdict fail 10
  mtc
  mtc
  mtc
  mtc
  mtc
  mtc
  mtc.2
  mtc
  mtc
  mtc
branch 14:1
branch 15:1
";

/// Its shortest run to the verdict pass.
pub const RUN_OF_RACE: &str = "mtc
mtc
mtc
mtc
mtc
mtc
mtc.1
mtc
mtc
mtc
";

/// The beginning of that run behind which a component has sent.
pub const SENT: &str = "mtc
mtc
mtc
mtc
mtc
mtc
mtc.1
";

/// The doubling of that run.
pub const FINE_RUN_OF_RACE: &str = "mtc
mtc
mtc
mtc
mtc
mtc
mtc.1
snap mtc
choose mtc
mtc
mtc
";

/// A port that is mapped to a system port, at which two messages come in.
pub const MAPPED: &str = "module Y {
type port P message { in integer; out boolean }
type component C { port P p; timer t := 1.0 }
testcase T() runs on C system C {
map(self:p, system:p);
p.send(true);
t.start;
alt {
[] p.receive(1) { setverdict(pass) }
[] p.receive { setverdict(fail) }
[] t.timeout { setverdict(inconc) }
}
}
}
";

/// The script of these messages.
pub const SCRIPT: &str = "{\"p\":[{\"integer\":1},{\"integer\":2}]}";

/// The report on all its runs of at most 9 steps.
pub const REPORT_ON_MAPPED: &str = "testcase T
steps 9
configurations 29
complete yes
verdict pass 7
  mtc
  mtc
  mtc
  system.p
  mtc
  mtc
  mtc
verdict inconc 7
  mtc
  mtc
  mtc
  mtc/0.t
  mtc
  mtc
  mtc
branch 9:1
branch 11:1
";
