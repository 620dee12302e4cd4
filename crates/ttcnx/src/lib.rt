//! From the text of a module to the answer: whether it is well typed, and the report on the runs of one of its test cases.
#![tactic(auto)]

mod aim;
mod bounded;
mod check;
mod convert;
mod explain;
mod explain_run;
mod explain_words;
mod explained;
mod fault;
mod few;
mod list;
mod replay;
mod run;
mod sights;
mod stream;
mod testcase;
mod until;

pub use aim::{Aim, Reaching, run_to};
pub use bounded::{bound_of, run_bounded};
pub use check::{check_answer, check_text};
pub use check_rules::Rule;
pub use convert::{coarsen_text, double_text, run_file};
pub use explain::explain_text;
pub use explain_run::{explain_report, run_explained};
pub use explore::{Ending, Stops};
pub use fault::{Fault, Refusal, ScriptRefusal, fault_line, status};
pub use few::with_few_expiries;
pub use list::list_answer;
pub use replay::replay_text;
pub use report::{Outcome, Report, Standing, to_json, to_text};
pub use run::{run_script, run_text};
pub use search_bounds::Bound;
pub use stream::{StreamFault, run_stream};
pub use ttcnx_command_line::{Format, Line, LineError, LintFormat, Wishes, read_line};
pub use ttcnx_streams::Counted;
pub use until::{Sighted, Until, run_sighted, run_until, stops_of};
