//! Each item of the public surface, by the path at which users find it. Where one is missing, this crate doesn't compile.
pub use explore::{Answer, ExploreError, Gate, NoGate, Plan, explore};
pub use report::{
    Report, RunError, ScriptError, read_fine, read_run, read_script, to_json, to_text,
};
pub use shared::{Board, BoardSeat, NoSeat, Seen, SeenSeat};
pub use summary::{Blocked, Both, Branches, Summary, System, Verdicts};
pub use ttcn_config::{Config, Packed, canon, pack, unpack};
pub use ttcn_graph::{Graphs, compile};
pub use ttcn_parse::{ParseError, parse};
pub use ttcn_step::{
    CoarsenError, FineLabel, Label, Machine, Path, ReplayError, Script, StepError, Successor,
};
pub use ttcn_syntax::{LexError, Module, Span, Spanned, Token, lex};
pub use ttcn_types::{CheckError, Program, TestId, check};
pub use ttcn_values::{
    Fault as EvaluationFault, Frame, Template, Value, eval, eval_template, eval_value, matches,
};
pub use ttcnx::{
    Counted, Fault, Line, LineError, StreamFault, check_text, coarsen_text, double_text,
    fault_line, read_line, replay_text, run_script, run_stream, run_text, status,
};
