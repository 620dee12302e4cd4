//! Reports on test cases, as text and as JSON, run files, and scripts.
#![tactic(auto)]

mod json;
mod laws;
mod reader;
mod report;
mod run;
mod text;

pub use json::to_json;
pub use laws::{
    fine_lines_read_one_way, fine_runs_read_one_way, fine_texts_read_back, lines_read_one_way,
    runs_read_one_way, texts_read_back,
};
pub use report::{Outcome, Report};
pub use report_script::{ScriptError, read_script};
pub use run::{RunError, read_fine, read_run};
pub use step_labels::Standing;
pub use text::{FineText, LabelText, PathText, PlaceText, to_text, word_of};
