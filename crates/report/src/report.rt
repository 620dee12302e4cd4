//! What an exploration has found.
use step_labels::{Label, Standing};
use ttcn_syntax::{Span, Verdict};

/// The report on a test case: how many configurations its runs of at most so many steps reach, whether there are no others,
/// each verdict that a run ends with, each branch that is taken, and each component that stands still where no step is left.
#[derive(Debug, Drop)]
pub struct Report {
    pub testcase: String,
    pub steps: u64,
    pub configurations: u64,
    pub complete: bool,
    pub outcomes: Vec<Outcome>,
    /// The places of the branches that are taken.
    pub branches: Vec<Span>,
    /// The components that are blocked, each with the place where it stands.
    pub blocked: Vec<Standing>,
}

/// A verdict, and the least of the shortest runs that end with it.
#[derive(Debug, Drop)]
pub struct Outcome {
    pub verdict: Verdict,
    pub run: Vec<Label>,
}
