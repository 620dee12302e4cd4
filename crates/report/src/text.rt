//! The texts of reports, and of the names and places in them.
ghost use Rattle.report.specs.Labels.{fine_text, label_text, name_text, path_text};
ghost use Rattle.report.specs.Texts.{blocked_line, branch_line, header_text, outcome_text, place_text, report_text, word_of, yes_or_no};
ghost use Rattle.std.specs.Fmt.{DisplaysOnOk};
ghost use Rattle.std.specs.List.{flat_map};
ghost use Rattle.std.specs.Prelude.{◌≡◌, IfOk, Some, string_bytes};

use crate::report::{Outcome, Report};
use std::alloc::{AllocError, Global};
use std::fmt;
use step_labels::{FineLabel, Label, Standing};
use ttcn_syntax::{Name, Span, Verdict};

/// The name of a timer or of a system port, whose bytes are shown as the characters of these codes.
#[derive(Clone, Copy)]
struct NameText<'a>(&'a Name);

/// A component's name, by the numbers of its path: `mtc.1.2`.
#[derive(Clone, Copy)]
pub struct PathText<'a>(pub &'a [u32]);

/// A label as it is written in a run file: a component's name, `mtc.1/0.t` for the expiry of a timer, or `system.q` for a
/// delivery.
#[derive(Clone, Copy)]
pub struct LabelText<'a>(pub &'a Label);

/// A label as it is written in the file of a fine run: `snap mtc.1`, `choose mtc.1`, or a label.
#[derive(Clone, Copy)]
pub struct FineText<'a>(pub &'a FineLabel);

/// A place in a module's text: `14:1`, line and column.
#[derive(Clone, Copy)]
pub struct PlaceText(pub Span);

/// A component that is blocked, and the place where it stands, as a line of a report.
#[derive(Clone, Copy)]
struct StandingText<'a>(&'a Standing);

impl<'a> fmt::Display for NameText<'a> {
    ghost output = { λ shown. Some (name_text shown.0.now) };

    fn fmt<W: fmt::Write>(&self, f: &mut fmt::Formatter<W>) -> fmt::Result {
        for byte in self.0.as_bytes() {
            let character = char::from(*byte);
            write!(f, "{character}")?;
        }
        Ok(())
    }
}

impl<'a> fmt::Display for PathText<'a> {
    ghost output = { λ shown. Some (path_text shown.0.now) };

    fn fmt<W: fmt::Write>(&self, f: &mut fmt::Formatter<W>) -> fmt::Result {
        write!(f, "mtc")?;
        for number in self.0 {
            write!(f, ".{number}")?;
        }
        Ok(())
    }
}

impl<'a> fmt::Display for LabelText<'a> {
    ghost output = { λ shown. Some (label_text shown.0.now) };

    fn fmt<W: fmt::Write>(&self, f: &mut fmt::Formatter<W>) -> fmt::Result {
        match self.0 {
            Label::Statement(path) => write!(f, "{}", PathText(path.numbers.as_slice())),
            Label::Expiry {
                component,
                frame,
                timer,
            } => {
                let (path, timer) = (PathText(component.numbers.as_slice()), NameText(timer));
                write!(f, "{path}/{frame}.{timer}")
            }
            Label::Delivery(system_port) => write!(f, "system.{}", NameText(system_port)),
        }
    }
}

impl<'a> fmt::Display for FineText<'a> {
    ghost output = { λ shown. Some (fine_text shown.0.now) };

    fn fmt<W: fmt::Write>(&self, f: &mut fmt::Formatter<W>) -> fmt::Result {
        match self.0 {
            FineLabel::Snap(path) => write!(f, "snap {}", PathText(path.numbers.as_slice())),
            FineLabel::Choose(path) => write!(f, "choose {}", PathText(path.numbers.as_slice())),
            FineLabel::Plain(label) => write!(f, "{}", LabelText(label)),
        }
    }
}

impl fmt::Display for PlaceText {
    ghost output = { λ shown. Some (place_text shown.0) };

    fn fmt<W: fmt::Write>(&self, f: &mut fmt::Formatter<W>) -> fmt::Result {
        let (line, column) = (self.0.line, self.0.column);
        write!(f, "{line}:{column}")
    }
}

/// A verdict as the language spells it.
pub fn word_of(verdict: Verdict) -> &'static str
    ensures { result.now ≡ word_of verdict }
{
    match verdict {
        Verdict::None => "none",
        Verdict::Pass => "pass",
        Verdict::Inconc => "inconc",
        Verdict::Fail => "fail",
        Verdict::Error => "error",
    }
}

fn yes_or_no(answer: bool) -> &'static str
    ensures { result.now ≡ yes_or_no answer }
{
    if answer { "yes" } else { "no" }
}

impl fmt::Display for Outcome {
    ghost output = { λ outcome. Some (outcome_text outcome) };

    fn fmt<W: fmt::Write>(&self, f: &mut fmt::Formatter<W>) -> fmt::Result {
        let length = self.run.len();
        writeln!(f, "verdict {} {length}", word_of(self.verdict))?;
        for label in &self.run {
            let label = LabelText(label);
            writeln!(f, "  {label}")?;
        }
        Ok(())
    }
}

impl<'a> fmt::Display for StandingText<'a> {
    ghost output = { λ shown. Some (blocked_line shown.0.now) };

    fn fmt<W: fmt::Write>(&self, f: &mut fmt::Formatter<W>) -> fmt::Result {
        let (component, place) = (
            PathText(self.0.component.numbers.as_slice()),
            PlaceText(self.0.place),
        );
        writeln!(f, "blocked {component} {place}")
    }
}

impl Report {
    /// What stands before the verdicts.
    fn write_header<W: fmt::Write>(&self, f: &mut fmt::Formatter<W>) -> fmt::Result
        ensures { DisplaysOnOk W.write_str_gives f.old result (Some (header_text self.now)) f.new }
    {
        writeln!(f, "testcase {}", self.testcase)?;
        writeln!(f, "steps {}", self.steps)?;
        writeln!(f, "configurations {}", self.configurations)?;
        writeln!(f, "complete {}", yes_or_no(self.complete))
    }

    /// The verdicts and the runs that end with them.
    fn write_outcomes<W: fmt::Write>(&self, f: &mut fmt::Formatter<W>) -> fmt::Result
        ensures { DisplaysOnOk W.write_str_gives f.old result (Some (flat_map outcome_text self.now.outcomes.items)) f.new }
    {
        for outcome in &self.outcomes {
            write!(f, "{outcome}")?;
        }
        Ok(())
    }

    /// The branches that are taken.
    fn write_branches<W: fmt::Write>(&self, f: &mut fmt::Formatter<W>) -> fmt::Result
        ensures { DisplaysOnOk W.write_str_gives f.old result (Some (flat_map branch_line self.now.branches.items)) f.new }
    {
        for place in &self.branches {
            let place = PlaceText(*place);
            writeln!(f, "branch {place}")?;
        }
        Ok(())
    }

    /// The components that are blocked.
    fn write_blocked<W: fmt::Write>(&self, f: &mut fmt::Formatter<W>) -> fmt::Result
        ensures { DisplaysOnOk W.write_str_gives f.old result (Some (flat_map blocked_line self.now.blocked.items)) f.new }
    {
        for standing in &self.blocked {
            let standing = StandingText(standing);
            write!(f, "{standing}")?;
        }
        Ok(())
    }
}

impl fmt::Display for Report {
    ghost output = { λ report. Some (report_text report) };

    fn fmt<W: fmt::Write>(&self, f: &mut fmt::Formatter<W>) -> fmt::Result {
        self.write_header(f)?;
        self.write_outcomes(f)?;
        self.write_branches(f)?;
        self.write_blocked(f)
    }
}

/// The report's text, each line ended by byte 10.
pub fn to_text(alloc: Global, report: &Report) -> Result<String, AllocError>
    ensures { IfOk result (λ text. string_bytes text ≡ report_text report.now) }
{
    report.to_string(alloc)
}
