//! The command that words give.
ghost use Rattle.std.specs.Prelude.{◌≡◌, ◌≤◌, ℕ, [], true, Some, IfErr, IfOk, IsSomeAnd, MatchOption, codes, is_some};
ghost use Rattle.std.specs.Prelude.{map, option_map, string_bytes};
ghost use Rattle.clap.specs.Words.{Row, found_of, kind_of, rows_of, subcommand_of};
ghost use Rattle.clap.specs.Words.{subcommand_rows_of, takes};
ghost use Rattle.clap.specs.Walk.{texts};
ghost use Rattle.search_layer.specs.Limits.{IsWithinLimits};
ghost use Rattle.ttcnx_command_line.specs.App.{most_expiries, ttcnx_app};
ghost use Rattle.ttcnx_command_line.specs.Command.{AreSteps, AreTexts, HasNumbers, HasRunFile, HasValues, HasWishes};
ghost use Rattle.ttcnx_command_line.specs.Command.{IsExplained, IsFlag, IsFormat, IsLintFormat, IsMemory, IsNumber};
ghost use Rattle.ttcnx_command_line.specs.Command.{IsNumberIfGiven, IsText, IsTextIfGiven, IsVerdictIfGiven};
ghost use Rattle.ttcnx_command_line.specs.Command.{StaysWithinLimits, aim_fault, bounds_expiries, explain_fault, fault_of_run};
ghost use Rattle.ttcnx_command_line.specs.Command.{faults_of, is_about_report, is_about_telling, most_steps, run_fault, subcommand_for, verdict_word};
ghost use Rattle.ttcnx_command_line.specs.internal.Answer.{HasRefusal, IsAnswer, IsBoundError};
ghost use Rattle.ttcnx_command_line.specs.internal.Given.{GivesCommand, GivesFlag, GivesFormat, GivesLintFormat};
ghost use Rattle.ttcnx_command_line.specs.internal.Given.{GivesNumber, GivesPlan, GivesRun, GivesRunFile, GivesText};
ghost use Rattle.ttcnx_command_line.specs.internal.Given.{GivesTexts, GivesWishes, HasOneBound, MayGiveNumber};
ghost use Rattle.ttcnx_command_line.specs.internal.Given.{GivesAboutReport, GivesRunCommand, MayGiveVerdict, aim_of, bound_of};
ghost use Rattle.ttcnx_command_line.specs.internal.Given.{explain_of, report_of};

use crate::definition::command;
use clap::error::ErrorKind;
use clap::{ArgMatches, Error as ClapError};
use explore::Plan;
use std::alloc::{AllocError, Global};
use std::fmt;
use thiserror::Error;
use ttcn_syntax::Verdict;

/// How many steps a run has that goes on until its report is complete.
const MOST_STEPS: u64 = 100_000;

/// What ends the answer to a `run` that is at fault.
const RUN_HELP: &str =
    "\n\nUsage: ttcnx run [OPTIONS] --testcase <NAME> <--steps <N>|--until-complete> <FILE>\n\nFor more information, try '--help'.\n";

/// The options of a `run`, as `clap` shows them.
const STEPS: &str = "--steps <N>";

const UNTIL_COMPLETE: &str = "--until-complete";

const RUN_TO: &str = "--run-to <LINE:COL>";

const RUN_TO_BLOCK: &str = "--run-to-block <LINE:COL>";

const EXPLAIN: &str = "--explain";

/// How a chart is drawn.
#[derive(Clone, Copy, Debug, PartialEq, Eq)]
pub enum Format {
    Text,
    Json,
    Mermaid,
    Svg,
}

/// How findings are shown.
#[derive(Clone, Copy, Debug, PartialEq, Eq)]
pub enum LintFormat {
    Text,
    Json,
}

/// What else is asked of the runs that are explored.
#[derive(Debug, Drop)]
pub struct Wishes {
    /// As many steps as the report needs to be complete, in place of a number.
    pub until_complete: bool,
    /// The report on the runs in which at most so many timers expire.
    pub expiries: Option<u32>,
    /// The report on the runs in which a timer expires only where no statement has a step.
    pub patient_timers: bool,
    /// The report with runs in which the fewest timers expire.
    pub few_expiries: bool,
    /// Above the limit, the report of the greatest bound that stays within it.
    pub partial: bool,
    /// The report of the first bound at which some run ends with this verdict.
    pub first: Option<Verdict>,
    /// No line of progress.
    pub quiet: bool,
    /// A place `LINE:COL`: the least of the shortest runs whose last step takes the branch there, or begins with the
    /// statement there, is written as a run file in place of the report.
    pub run_to: Option<String>,
    /// A place `LINE:COL`: the least of the shortest runs that end where some component is blocked there is written as
    /// a run file in place of the report.
    pub run_to_block: Option<String>,
}

/// Why a `run` is refused that `clap` takes.
#[derive(Clone, Copy, Debug)]
enum WrongRun {
    /// It has no bound.
    Unbounded,
    /// These two of its options can't stand together.
    Conflict(&'static str, &'static str),
}

impl fmt::Display for WrongRun {
    fn fmt<W: fmt::Write>(&self, f: &mut fmt::Formatter<W>) -> fmt::Result {
        match self {
            WrongRun::Unbounded => write!(
                f,
                "error: the following required arguments were not provided:\n  <{STEPS}|{UNTIL_COMPLETE}>{RUN_HELP}"
            ),
            WrongRun::Conflict(one, other) => {
                write!(
                    f,
                    "error: the argument '{one}' cannot be used with '{other}'{RUN_HELP}"
                )
            }
        }
    }
}

/// What the program is asked to do.
#[derive(Debug, Drop)]
pub enum Line {
    /// To test whether a module is well typed.
    Check {
        file: String,
    },
    /// To explore the runs of a test case.
    Run {
        file: String,
        testcase: String,
        /// The file of the script, where one is given.
        script: Option<String>,
        plan: Plan,
        /// Whether the report is written as JSON.
        json: bool,
        /// Whether the runs of the report are explained.
        explain: bool,
        /// What else is asked of the runs.
        wishes: Wishes,
    },
    /// To follow a run of a test case.
    Replay {
        file: String,
        testcase: String,
        /// The file of the script, where one is given.
        script: Option<String>,
        /// The file of the run.
        run: String,
    },
    /// To turn a fine run of a test case into the run that it stands for.
    Coarsen {
        file: String,
        testcase: String,
        /// The file of the script, where one is given.
        script: Option<String>,
        /// The file of the fine run.
        run: String,
    },
    /// To turn a run of a test case into a fine run, where each choice is apart from its snapshot.
    Double {
        file: String,
        testcase: String,
        /// The file of the script, where one is given.
        script: Option<String>,
        /// The file of the run.
        run: String,
    },
    /// To explain a run of a test case, step by step.
    Explain {
        file: String,
        testcase: String,
        /// The file of the script, where one is given.
        script: Option<String>,
        /// The file of the run.
        run: String,
        format: Format,
    },
    /// To tell what is wrong with modules, and what looks wrong.
    Lint {
        files: Vec<String>,
        format: LintFormat,
    },
    /// To list the test cases of a module.
    List {
        file: String,
    },
}

/// Why the words tell no command.
#[derive(Debug, Drop, Error)]
pub enum LineError {
    /// Help or the version was asked for.
    #[error("{0}")]
    Help(String),
    /// The words are at fault.
    #[error("{0}")]
    Bad(String),
    #[error(transparent)]
    Memory(AllocError),
}

impl From<AllocError> for LineError {
    ghost use Rattle.ttcnx_command_line.specs.declared.command.LineError.TheVariants.{Memory};

    ghost from_gives = { λ error line_error. line_error ≡ Memory error };

    fn from(error: AllocError) -> LineError {
        LineError::Memory(error)
    }
}

/// The command that the words behind the program's name give.
pub fn read_line<'a>(alloc: Global, words: &'a [&'a str]) -> Result<Line, LineError>
    ensures limits { IfOk result StaysWithinLimits }
    ensures subcommand { IfOk result (λ line.
        option_map (λ p. p.0) (subcommand_of ttcnx_app (texts words.now))
        ≡ Some (subcommand_for line)) }
    ensures values { IfOk result (λ line.
        IsSomeAnd (subcommand_of ttcnx_app (texts words.now)) (λ p. HasValues p.1 line)) }
    ensures accepted { IfOk result (λ line. faults_of (texts words.now) ≡ []) }
    ensures refused { IfErr result (IsExplained (faults_of (texts words.now))) }
    ensures taken { takes ttcnx_app (texts words.now) ≡ true
        → run_fault (subcommand_of ttcnx_app (texts words.now)) ≡ [] → IfErr result IsMemory }
{
    match command(alloc)?.try_get_matches_from(words) {
        Ok(matches) => bounded_line_of(alloc, &matches),
        Err(error) => Err(refusal(alloc, &error)?),
    }
}

/// The command that was given, unless it is a `run` with options that don't fit together.
fn bounded_line_of(alloc: Global, matches: &ArgMatches<'_>) -> Result<Line, LineError>
    requires { GivesCommand (subcommand_rows_of matches.now) }
    ensures limits { IfOk result StaysWithinLimits }
    ensures subcommand { IfOk result (λ line.
        option_map (λ p. p.0) (subcommand_rows_of matches.now) ≡ Some (subcommand_for line)) }
    ensures values { IfOk result (λ line.
        IsSomeAnd (subcommand_rows_of matches.now) (λ p. HasValues p.1 line)) }
    ensures bounded { IfOk result (λ line. run_fault (subcommand_rows_of matches.now) ≡ []) }
    ensures refused { IfErr result (IsBoundError (run_fault (subcommand_rows_of matches.now))) }
{
    if let Some(wrong) = wrong_run(matches) {
        return Err(LineError::Bad(wrong.to_string(alloc)?));
    }
    Ok(line_of(alloc, matches)?)
}

/// Why a `run` is refused that `clap` takes.
fn wrong_run(matches: &ArgMatches<'_>) -> Option<WrongRun>
    requires { GivesCommand (subcommand_rows_of matches.now) }
    ensures { MatchOption result (run_fault (subcommand_rows_of matches.now) ≡ [])
        (λ wrong. HasRefusal (run_fault (subcommand_rows_of matches.now))) }
{
    match matches.subcommand_matches("run") {
        Some(given) => wrong_run_of(given),
        None => None,
    }
}

/// Why a `run` with these arguments is refused.
fn wrong_run_of(given: &ArgMatches<'_>) -> Option<WrongRun>
    requires { GivesRun (rows_of (found_of given.now)) }
    ensures { MatchOption result (fault_of_run (rows_of (found_of given.now)) ≡ [])
        (λ wrong. HasRefusal (fault_of_run (rows_of (found_of given.now)))) }
{
    match wrong_bound_of(given) {
        Some(wrong) => Some(wrong),
        None => wrong_report_of(given),
    }
}

/// What is wrong with what a `run` is to write.
fn wrong_report_of(given: &ArgMatches<'_>) -> Option<WrongRun>
    requires { GivesAboutReport (rows_of (found_of given.now)) }
    ensures { MatchOption result (report_of (rows_of (found_of given.now)) ≡ [])
        (λ wrong. HasRefusal (report_of (rows_of (found_of given.now)))) }
{
    match wrong_aim_of(given) {
        Some(wrong) => Some(wrong),
        None => wrong_explain_of(given),
    }
}

/// What is wrong with the bound of a `run`: it has none, or two.
fn wrong_bound_of(given: &ArgMatches<'_>) -> Option<WrongRun>
    requires { GivesFlag (rows_of (found_of given.now)) (codes "until-complete") }
    ensures { MatchOption result (HasOneBound (rows_of (found_of given.now)))
        (λ wrong. HasRefusal (bound_of (rows_of (found_of given.now)))) }
{
    let has_steps = given.get_str("steps").is_some();
    let until_complete = flag_of(given, "until-complete");
    if has_steps {
        if until_complete {
            Some(WrongRun::Conflict(STEPS, UNTIL_COMPLETE))
        } else {
            None
        }
    } else if until_complete {
        None
    } else {
        Some(WrongRun::Unbounded)
    }
}

/// What is wrong with the aim of a `run`: there are two, or something else is asked of the report.
fn wrong_aim_of(given: &ArgMatches<'_>) -> Option<WrongRun>
    requires { GivesAboutReport (rows_of (found_of given.now)) }
    ensures { MatchOption result (aim_of (rows_of (found_of given.now)) ≡ [])
        (λ wrong. HasRefusal (aim_of (rows_of (found_of given.now)))) }
{
    let to_place = given.get_str("run-to").is_some();
    let to_block = given.get_str("run-to-block").is_some();
    let about_report = about_report_of(given);
    conflict_of(to_place, to_block, about_report)
}

/// An option that is about the report.
fn about_report_of(given: &ArgMatches<'_>) -> Option<&'static str>
    requires { GivesAboutReport (rows_of (found_of given.now)) }
    ensures { is_some result ≡ is_about_report (rows_of (found_of given.now)) }
{
    let few_expiries = flag_of(given, "few-expiries");
    let about_telling = about_telling_of(given);
    if few_expiries {
        Some("--few-expiries")
    } else {
        about_telling
    }
}

/// An option that says how the report is told, which one it is, or on which runs.
fn about_telling_of(given: &ArgMatches<'_>) -> Option<&'static str>
    requires { GivesAboutReport (rows_of (found_of given.now)) }
    ensures { is_some result ≡ is_about_telling (rows_of (found_of given.now)) }
{
    let json = flag_of(given, "json");
    let explain = flag_of(given, "explain");
    let partial = flag_of(given, "partial");
    let first = given.get_str("first").is_some();
    let about_expiries = about_expiries_of(given);
    if json {
        Some("--json")
    } else if explain {
        Some(EXPLAIN)
    } else if partial {
        Some("--partial")
    } else if first {
        Some("--first <VERDICT>")
    } else {
        about_expiries
    }
}

/// An option that bounds the expiries of timers in the runs of the report.
fn about_expiries_of(given: &ArgMatches<'_>) -> Option<&'static str>
    requires { GivesFlag (rows_of (found_of given.now)) (codes "patient-timers") }
    ensures { is_some result ≡ bounds_expiries (rows_of (found_of given.now)) }
{
    let expiries = given.get_str("expiries").is_some();
    let patient_timers = flag_of(given, "patient-timers");
    if expiries {
        Some("--expiries <N>")
    } else if patient_timers {
        Some("--patient-timers")
    } else {
        None
    }
}

/// What is wrong with runs that are to be explained: their expiries are bounded.
fn wrong_explain_of(given: &ArgMatches<'_>) -> Option<WrongRun>
    requires { GivesAboutReport (rows_of (found_of given.now)) }
    ensures { MatchOption result (explain_of (rows_of (found_of given.now)) ≡ [])
        (λ wrong. HasRefusal (explain_of (rows_of (found_of given.now)))) }
{
    let explain = flag_of(given, "explain");
    let about_expiries = about_expiries_of(given);
    explain_conflict_of(explain, about_expiries)
}

/// Whether explained runs and an option that bounds expiries stand together, which they can't.
fn explain_conflict_of(explain: bool, about_expiries: Option<&'static str>) -> Option<WrongRun>
    ensures { MatchOption result (explain_fault explain (is_some about_expiries.entry) ≡ [])
        (λ wrong. HasRefusal (explain_fault explain (is_some about_expiries.entry))) }
{
    match about_expiries {
        Some(other) if explain => Some(WrongRun::Conflict(EXPLAIN, other)),
        _ => None,
    }
}

/// Which two options can't stand together, where an aim is given or not, and an option about the report or none.
fn conflict_of(
    to_place: bool,
    to_block: bool,
    about_report: Option<&'static str>,
) -> Option<WrongRun>
    ensures { MatchOption result (aim_fault to_place to_block (is_some about_report.entry) ≡ [])
        (λ wrong. HasRefusal (aim_fault to_place to_block (is_some about_report.entry))) }
{
    match about_report {
        _ if to_place && to_block => Some(WrongRun::Conflict(RUN_TO, RUN_TO_BLOCK)),
        Some(other) if to_place => Some(WrongRun::Conflict(RUN_TO, other)),
        Some(other) if to_block => Some(WrongRun::Conflict(RUN_TO_BLOCK, other)),
        _ => None,
    }
}

/// What `clap` answers in place of matches.
fn refusal(alloc: Global, error: &ClapError) -> Result<LineError, AllocError>
    ensures { IfOk result (IsAnswer (kind_of error.now)) }
{
    match error.kind() {
        ErrorKind::OutOfMemory => Ok(LineError::Memory(AllocError)),
        ErrorKind::DisplayHelp | ErrorKind::DisplayVersion => {
            Ok(LineError::Help(error.to_string(alloc)?))
        }
        _ => Ok(LineError::Bad(error.to_string(alloc)?)),
    }
}

/// The command that was given, with its values.
fn line_of(alloc: Global, matches: &ArgMatches<'_>) -> Result<Line, AllocError>
    requires command { GivesCommand (subcommand_rows_of matches.now) }
    requires bound { run_fault (subcommand_rows_of matches.now) ≡ [] }
    ensures limits { IfOk result StaysWithinLimits }
    ensures subcommand { IfOk result (λ line.
        option_map (λ p. p.0) (subcommand_rows_of matches.now) ≡ Some (subcommand_for line)) }
    ensures values { IfOk result (λ line.
        IsSomeAnd (subcommand_rows_of matches.now) (λ p. HasValues p.1 line)) }
{
    if let Some(given) = matches.subcommand_matches("check") {
        return Ok(Line::Check {
            file: text_of(alloc, given, "FILE")?,
        });
    }
    if let Some(given) = matches.subcommand_matches("list") {
        return Ok(Line::List {
            file: text_of(alloc, given, "FILE")?,
        });
    }
    if let Some(given) = matches.subcommand_matches("run") {
        return run_of(alloc, given);
    }
    if let Some(given) = matches.subcommand_matches("lint") {
        return Ok(Line::Lint {
            files: texts_of(alloc, given, "FILE")?,
            format: lint_format_of(given),
        });
    }
    run_file_line_of(alloc, matches)
}

/// The command about a run that was given, with its values.
fn run_file_line_of(alloc: Global, matches: &ArgMatches<'_>) -> Result<Line, AllocError>
    requires { GivesRunCommand (subcommand_rows_of matches.now) }
    ensures limits { IfOk result StaysWithinLimits }
    ensures subcommand { IfOk result (λ line.
        option_map (λ p. p.0) (subcommand_rows_of matches.now) ≡ Some (subcommand_for line)) }
    ensures values { IfOk result (λ line.
        IsSomeAnd (subcommand_rows_of matches.now) (λ p. HasValues p.1 line)) }
{
    if let Some(given) = matches.subcommand_matches("replay") {
        let parts = run_file_of(alloc, given)?;
        return Ok(Line::Replay {
            file: parts.file,
            testcase: parts.testcase,
            script: parts.script,
            run: parts.run,
        });
    }
    if let Some(given) = matches.subcommand_matches("coarsen") {
        let parts = run_file_of(alloc, given)?;
        return Ok(Line::Coarsen {
            file: parts.file,
            testcase: parts.testcase,
            script: parts.script,
            run: parts.run,
        });
    }
    if let Some(given) = matches.subcommand_matches("double") {
        let parts = run_file_of(alloc, given)?;
        return Ok(Line::Double {
            file: parts.file,
            testcase: parts.testcase,
            script: parts.script,
            run: parts.run,
        });
    }
    let given = matches.subcommand_matches("explain").unwrap();
    let parts = run_file_of(alloc, given)?;
    Ok(Line::Explain {
        file: parts.file,
        testcase: parts.testcase,
        script: parts.script,
        run: parts.run,
        format: format_of(given),
    })
}

/// The command to explore the runs of a test case.
fn run_of(alloc: Global, given: &ArgMatches<'_>) -> Result<Line, AllocError>
    requires gives { GivesRun (rows_of (found_of given.now)) }
    requires bound { HasOneBound (rows_of (found_of given.now)) }
    ensures limits { IfOk result StaysWithinLimits }
    ensures subcommand { IfOk result (λ line. subcommand_for line ≡ codes "run") }
    ensures values { IfOk result (HasValues (rows_of (found_of given.now))) }
{
    Ok(Line::Run {
        file: text_of(alloc, given, "FILE")?,
        testcase: text_of(alloc, given, "testcase")?,
        script: text_if_given(alloc, given, "script")?,
        plan: plan_of(given),
        json: flag_of(given, "json"),
        explain: flag_of(given, "explain"),
        wishes: wishes_of(alloc, given)?,
    })
}

/// What else is asked of the runs.
fn wishes_of(alloc: Global, given: &ArgMatches<'_>) -> Result<Wishes, AllocError>
    requires { GivesWishes (rows_of (found_of given.now)) }
    ensures { IfOk result (HasWishes (rows_of (found_of given.now))) }
{
    Ok(Wishes {
        until_complete: flag_of(given, "until-complete"),
        expiries: expiries_of(given),
        patient_timers: flag_of(given, "patient-timers"),
        few_expiries: flag_of(given, "few-expiries"),
        partial: flag_of(given, "partial"),
        first: verdict_if_given(given, "first"),
        quiet: flag_of(given, "quiet"),
        run_to: text_if_given(alloc, given, "run-to")?,
        run_to_block: text_if_given(alloc, given, "run-to-block")?,
    })
}

/// How many timers may expire, where that is given.
fn expiries_of(given: &ArgMatches<'_>) -> Option<u32>
    requires { MayGiveNumber (rows_of (found_of given.now)) (codes "expiries") 0 most_expiries }
    ensures { IsNumberIfGiven (rows_of (found_of given.now)) (codes "expiries") result }
{
    match number_if_given(given, "expiries") {
        Some(number) => Some(number as u32),
        None => None,
    }
}

/// What a command about a run is given.
#[derive(Drop)]
struct RunFile {
    file: String,
    testcase: String,
    script: Option<String>,
    run: String,
}

fn run_file_of(alloc: Global, given: &ArgMatches<'_>) -> Result<RunFile, AllocError>
    requires { GivesRunFile (rows_of (found_of given.now)) }
    ensures { IfOk result (λ parts. HasRunFile (rows_of (found_of given.now))
        (string_bytes parts.file) (string_bytes parts.testcase)
        (option_map string_bytes parts.script) (string_bytes parts.run)) }
{
    Ok(RunFile {
        file: text_of(alloc, given, "FILE")?,
        testcase: text_of(alloc, given, "testcase")?,
        script: text_if_given(alloc, given, "script")?,
        run: text_of(alloc, given, "run")?,
    })
}

/// The numbers of a plan, which `clap` has found to be within the limits.
fn plan_of(given: &ArgMatches<'_>) -> Plan
    requires gives { GivesPlan (rows_of (found_of given.now)) }
    requires bound { HasOneBound (rows_of (found_of given.now)) }
    ensures numbers { HasNumbers (rows_of (found_of given.now)) result }
    ensures limits { IsWithinLimits result }
{
    Plan {
        steps: steps_of(given),
        limit: number_of(given, "limit"),
        workers: number_of(given, "workers"),
        piece: number_of(given, "piece"),
    }
}

/// The steps of a plan: a number, or the most where the report has to be complete.
fn steps_of(given: &ArgMatches<'_>) -> u64
    requires gives { MayGiveNumber (rows_of (found_of given.now)) (codes "steps") 0 100000 }
    requires bound { HasOneBound (rows_of (found_of given.now)) }
    ensures steps { AreSteps (rows_of (found_of given.now)) result }
    ensures limit { result ≤ most_steps }
{
    match number_if_given(given, "steps") {
        Some(steps) => steps,
        None => MOST_STEPS,
    }
}

/// The verdict that the argument names, where it is given.
fn verdict_if_given(given: &ArgMatches<'_>, id: &str) -> Option<Verdict>
    requires { MayGiveVerdict (rows_of (found_of given.now)) id.now }
    ensures { IsVerdictIfGiven (rows_of (found_of given.now)) id.now result }
{
    match given.get_str(id) {
        Some(word) => Some(verdict_of(word)),
        None => None,
    }
}

/// The verdict that a word names.
fn verdict_of(word: &str) -> Verdict
    requires { (verdict : _) × (word.now ≡ verdict_word verdict) }
    ensures { word.now ≡ verdict_word result }
{
    if word == "none" {
        Verdict::None
    } else if word == "pass" {
        Verdict::Pass
    } else if word == "inconc" {
        Verdict::Inconc
    } else if word == "fail" {
        Verdict::Fail
    } else {
        Verdict::Error
    }
}

/// The format of findings that is named, which `clap` has found to be one of the two.
fn lint_format_of(given: &ArgMatches<'_>) -> LintFormat
    requires { GivesLintFormat (rows_of (found_of given.now)) }
    ensures { IsLintFormat (rows_of (found_of given.now)) result }
{
    if given.get_str("format").unwrap() == "json" {
        LintFormat::Json
    } else {
        LintFormat::Text
    }
}

/// The format that is named, which `clap` has found to be one of the four.
fn format_of(given: &ArgMatches<'_>) -> Format
    requires { GivesFormat (rows_of (found_of given.now)) }
    ensures { IsFormat (rows_of (found_of given.now)) result }
{
    let word = given.get_str("format").unwrap();
    if word == "json" {
        Format::Json
    } else if word == "mermaid" {
        Format::Mermaid
    } else if word == "svg" {
        Format::Svg
    } else {
        Format::Text
    }
}

fn text_of(alloc: Global, given: &ArgMatches<'_>, id: &str) -> Result<String, AllocError>
    requires { GivesText (rows_of (found_of given.now)) id.now }
    ensures { IfOk result (λ text.
        IsText (rows_of (found_of given.now)) id.now (string_bytes text)) }
{
    String::from_str(alloc, given.get_str(id).unwrap())
}

/// The text of an argument that may be left out.
fn text_if_given(
    alloc: Global,
    given: &ArgMatches<'_>,
    id: &str,
) -> Result<Option<String>, AllocError>
    ensures { IfOk result (λ text.
        IsTextIfGiven (rows_of (found_of given.now)) id.now (option_map string_bytes text)) }
{
    match given.get_str(id) {
        Some(text) => Ok(Some(String::from_str(alloc, text)?)),
        None => Ok(None),
    }
}

/// The texts of an argument that has one or more.
fn texts_of(alloc: Global, given: &ArgMatches<'_>, id: &str) -> Result<Vec<String>, AllocError>
    requires { GivesTexts (rows_of (found_of given.now)) id.now }
    ensures { IfOk result (λ texts.
        AreTexts (rows_of (found_of given.now)) id.now (map string_bytes texts.items)) }
{
    let mut texts = Vec::new(alloc);
    for text in given.get_strs(id).unwrap() {
        texts.push(String::from_str(alloc, text)?)?;
    }
    Ok(texts)
}

/// The number of an argument that may be left out.
fn number_if_given(given: &ArgMatches<'_>, id: &str) -> Option<u64>
    requires { (low : ℕ) × (high : ℕ) × MayGiveNumber (rows_of (found_of given.now)) id.now low high }
    ensures { IsNumberIfGiven (rows_of (found_of given.now)) id.now result }
{
    given.get_one(id)
}

fn number_of(given: &ArgMatches<'_>, id: &str) -> u64
    requires { (low : ℕ) × (high : ℕ) × GivesNumber (rows_of (found_of given.now)) id.now low high }
    ensures { IsNumber (rows_of (found_of given.now)) id.now result }
{
    given.get_one(id).unwrap()
}

fn flag_of(given: &ArgMatches<'_>, id: &str) -> bool
    requires { GivesFlag (rows_of (found_of given.now)) id.now }
    ensures { IsFlag (rows_of (found_of given.now)) id.now result }
{
    given.get_flag(id)
}
