//! The commands and what they take, as `clap` is given them.
ghost use Rattle.std.specs.Prelude.{◌≡◌, IfOk, codes, false};
ghost use Rattle.clap.specs.Words.{app_of, rule_of};
ghost use Rattle.clap.specs.declared.builder.command.Command.TheViews.{out-Command as fields_of};
ghost use Rattle.ttcnx_command_line.specs.App.{app_with, explain_app, file_app, file_word, files_word};
ghost use Rattle.ttcnx_command_line.specs.App.{flag, format_option, format_words, lint_app, lint_words};
ghost use Rattle.ttcnx_command_line.specs.App.{needed_option, number_option, range_option, run_app, run_file_app};
ghost use Rattle.ttcnx_command_line.specs.App.{plan_app, value_option, verdict_option, verdict_words};
ghost use Rattle.ttcnx_command_line.specs.internal.Named.{HasWords, HoldsAtNames};

use clap::{Arg, ArgAction, Command, value_parser};
use std::alloc::{AllocError, Global};

/// The version that `--version` prints.
const VERSION: &str = "0.1";

/// What a call of `run` looks like.
const RUN_USAGE: &str =
    "ttcnx run [OPTIONS] --testcase <NAME> <--steps <N>|--until-complete> <FILE>";

/// The words that name a format.
static FORMATS: [&str; 4] = ["text", "json", "mermaid", "svg"];

/// The words that name a format of findings.
static LINT_FORMATS: [&str; 2] = ["text", "json"];

/// The words that name a verdict.
static VERDICTS: [&str; 5] = ["none", "pass", "inconc", "fail", "error"];

/// The program with its commands.
pub(crate) fn command<'a>(alloc: Global) -> Result<Command<'a>, AllocError>
    ensures { IfOk result (λ c. (lists : _) × HasWords lists × (app_of c ≡ app_with lists)) }
{
    Command::new(alloc, "ttcnx")
        .about("Checks modules written in TTCN-3, and explores their test cases")
        .version(VERSION)
        .bin_name("ttcnx")?
        .no_binary_name(true)
        .subcommand_required(true)
        .subcommand(file_command(
            alloc,
            "check",
            "Tests whether a module is well typed",
            "Example: ttcnx check examples/x2.ttcn",
        )?)?
        .subcommand(run_command(alloc)?)?
        .subcommand(run_file_command(
            alloc,
            "replay",
            "Follows a run of a test case",
            "The file of the run, with a label a line",
            "Example: ttcnx replay examples/x2.ttcn --testcase T --run examples/x2.fail.run",
        )?)?
        .subcommand(run_file_command(
            alloc,
            "coarsen",
            "Turns a fine run of a test case into the run that it stands for",
            "The file of the fine run, with a label a line",
            "Example: ttcnx coarsen examples/x6.ttcn --testcase T --run examples/x6.fine.run",
        )?)?
        .subcommand(run_file_command(
            alloc,
            "double",
            "Turns a run of a test case into a fine run: each choice apart from its snapshot",
            "The file of the run, with a label a line",
            "Example: ttcnx double examples/x2.ttcn --testcase T --run examples/x2.pass.run",
        )?)?
        .subcommand(explain_command(alloc)?)?
        .subcommand(lint_command(alloc)?)?
        .subcommand(file_command(
            alloc,
            "list",
            "Lists the test cases of a module, one a line",
            "Example: ttcnx list examples/x2.ttcn",
        )?)
}

/// A command about a module, which stands in a file.
fn file_command<'a>(
    alloc: Global,
    name: &'a str,
    about: &'a str,
    example: &'a str,
) -> Result<Command<'a>, AllocError>
    ensures app { IfOk result (λ c. app_of c ≡ file_app name.entry.now) }
    ensures local { IfOk result (λ c. (fields_of c).has_globals ≡ false) }
{
    Command::new(alloc, name)
        .about(about)
        .after_help(example)
        .arg(file(alloc))
}

/// The command that explores the runs of a test case.
fn run_command<'a>(alloc: Global) -> Result<Command<'a>, AllocError>
    ensures app { IfOk result (λ c. HoldsAtNames verdict_words (λ names. app_of c ≡ run_app names)) }
    ensures local { IfOk result (λ c. (fields_of c).has_globals ≡ false) }
{
    let expiries =
        "Writes the report on the runs in which at most so many timers expire: 0 to 4294967295";
    let patient_timers =
        "Writes the report on the runs in which a timer expires only where no statement has a step";
    let few_expiries =
        "Writes the report with other runs to its verdicts: those in which the fewest timers expire";
    let partial = "Above the limit, writes the report of the greatest bound that stays within it";
    let first =
        "Writes the report of the first bound at which some run ends with this verdict: none, pass, inconc, fail or error";
    let run_to =
        "Writes a run file in place of the report: the least of the shortest runs whose last step takes the branch at this place, or begins with the statement there";
    let run_to_block =
        "Writes a run file in place of the report: the least of the shortest runs that end where some component is blocked at this place";
    plan_command(alloc)?
        .arg(range(alloc, "expiries", u32::MAX, expiries))?
        .arg(flag(alloc, "patient-timers", patient_timers))?
        .arg(flag(alloc, "few-expiries", few_expiries))?
        .arg(flag(alloc, "partial", partial))?
        .arg(verdict(alloc, "first", first))?
        .arg(flag(alloc, "quiet", "Writes no line of progress to the terminal"))?
        .arg(place(alloc, "run-to", run_to))?
        .arg(place(alloc, "run-to-block", run_to_block))
}

/// The command that explores runs, with the words of its plan.
fn plan_command<'a>(alloc: Global) -> Result<Command<'a>, AllocError>
    ensures app { IfOk result (λ c. app_of c ≡ plan_app) }
    ensures local { IfOk result (λ c. (fields_of c).has_globals ≡ false) }
{
    let limit = number(alloc, "limit", 10_000_000, "1000000").help(
        "How many configurations may be reached: 1 to 10000000",
    );
    let workers = number(alloc, "workers", 64, "1").help(
        "How many workers share the work: 1 to 64",
    );
    let piece = number(alloc, "piece", 65_536, "256").help(
        "How many candidates a worker takes at once: 1 to 65536",
    );
    Command::new(alloc, "run")
        .about("Explores the runs of a test case")
        .override_usage(RUN_USAGE)
        .after_help("Example: ttcnx run examples/x2.ttcn --testcase T --steps 13")
        .arg(file(alloc))?
        .arg(testcase(alloc))?
        .arg(script(alloc))?
        .arg(range(
            alloc,
            "steps",
            100_000,
            "The greatest number of steps of a run: 0 to 100000",
        ))?
        .arg(flag(
            alloc,
            "until-complete",
            "In place of --steps: as many steps as the report needs to be complete",
        ))?
        .arg(limit)?
        .arg(workers)?
        .arg(piece)?
        .arg(flag(alloc, "json", "Writes the report as JSON"))?
        .arg(flag(
            alloc,
            "explain",
            "Writes the runs behind the report, step by step",
        ))
}

/// A command about a run of a test case, which stands in a file.
fn run_file_command<'a>(
    alloc: Global,
    name: &'a str,
    about: &'a str,
    run_help: &'a str,
    example: &'a str,
) -> Result<Command<'a>, AllocError>
    ensures app { IfOk result (λ c. app_of c ≡ run_file_app name.entry.now) }
    ensures local { IfOk result (λ c. (fields_of c).has_globals ≡ false) }
{
    let run = Arg::new(alloc, "run")
        .long("run")
        .value_name("FILE")
        .required(true)
        .help(run_help);
    Command::new(alloc, name)
        .about(about)
        .after_help(example)
        .arg(file(alloc))?
        .arg(testcase(alloc))?
        .arg(script(alloc))?
        .arg(run)
}

/// A command about a run, which is shown in a format.
fn explain_command<'a>(alloc: Global) -> Result<Command<'a>, AllocError>
    ensures app { IfOk result (λ c. HoldsAtNames format_words (λ names. app_of c ≡ explain_app names)) }
    ensures local { IfOk result (λ c. (fields_of c).has_globals ≡ false) }
{
    run_file_command(
        alloc,
        "explain",
        "Explains a run of a test case, step by step",
        "The file of the run, with a label a line",
        "Example: ttcnx explain examples/x2.ttcn --testcase T --run examples/x2.fail.run",
    )?
    .arg(format(alloc))
}

/// The command that tells what is wrong with modules.
fn lint_command<'a>(alloc: Global) -> Result<Command<'a>, AllocError>
    ensures app { IfOk result (λ c. HoldsAtNames lint_words (λ names. app_of c ≡ lint_app names)) }
    ensures local { IfOk result (λ c. (fields_of c).has_globals ≡ false) }
{
    Command::new(alloc, "lint")
        .about("Tells all that is wrong with modules, and what looks wrong")
        .after_help("Example: ttcnx lint examples/x1.ttcn examples/x2.ttcn --format json")
        .arg(files(alloc))?
        .arg(lint_format(alloc))
}

/// The file that a command reads.
fn file<'a>(alloc: Global) -> Arg<'a>
    ensures rule { rule_of result ≡ file_word }
    ensures local { result.global ≡ false }
{
    Arg::new(alloc, "FILE")
        .required(true)
        .help("The text of the module")
}

/// The files that a command reads, one or more.
fn files<'a>(alloc: Global) -> Arg<'a>
    ensures rule { rule_of result ≡ files_word }
    ensures local { result.global ≡ false }
{
    Arg::new(alloc, "FILE")
        .required(true)
        .num_args(1..)
        .help("The texts of the modules")
}

/// The test case that a command is about.
fn testcase<'a>(alloc: Global) -> Arg<'a>
    ensures rule { rule_of result ≡ needed_option (codes "testcase") }
    ensures local { result.global ≡ false }
{
    Arg::new(alloc, "testcase")
        .long("testcase")
        .value_name("NAME")
        .required(true)
        .help("The name of the test case")
}

/// The file of a script, which may be left out.
fn script<'a>(alloc: Global) -> Arg<'a>
    ensures rule { rule_of result ≡ value_option (codes "script") }
    ensures local { result.global ≡ false }
{
    Arg::new(alloc, "script")
        .long("script")
        .value_name("FILE")
        .help("The file of a script: what comes in at the system ports")
}

/// A number up to `most` that may be left out.
fn range<'a>(alloc: Global, name: &'a str, most: u32, help: &'a str) -> Arg<'a>
    ensures rule { rule_of result ≡ range_option name.entry.now most }
    ensures local { result.global ≡ false }
{
    Arg::new(alloc, name)
        .long(name)
        .value_name("N")
        .value_parser(value_parser!(u64).range(0..=i64::from(most)))
        .help(help)
}

/// A number from 1 on that may be left out.
fn number<'a>(alloc: Global, name: &'a str, most: u32, default: &'a str) -> Arg<'a>
    ensures rule { rule_of result ≡ number_option name.entry.now most default.entry.now }
    ensures local { result.global ≡ false }
{
    Arg::new(alloc, name)
        .long(name)
        .value_name("N")
        .value_parser(value_parser!(u64).range(1..=i64::from(most)))
        .default_value(default)
}

/// The format, one of four words.
fn format<'a>(alloc: Global) -> Arg<'a>
    ensures rule { HoldsAtNames format_words (λ names. rule_of result ≡ format_option names) }
    ensures local { result.global ≡ false }
{
    Arg::new(alloc, "format")
        .long("format")
        .value_name("FORMAT")
        .value_parser(FORMATS.as_slice())
        .hide_possible_values(true)
        .default_value("text")
        .help("How the run is shown: text, json, mermaid or svg")
}

/// The format of findings, one of two words.
fn lint_format<'a>(alloc: Global) -> Arg<'a>
    ensures rule { HoldsAtNames lint_words (λ names. rule_of result ≡ format_option names) }
    ensures local { result.global ≡ false }
{
    Arg::new(alloc, "format")
        .long("format")
        .value_name("FORMAT")
        .value_parser(LINT_FORMATS.as_slice())
        .hide_possible_values(true)
        .default_value("text")
        .help("How the findings are shown: text or json")
}

/// A verdict that may be left out, one of five words.
fn verdict<'a>(alloc: Global, name: &'a str, help: &'a str) -> Arg<'a>
    ensures rule { HoldsAtNames verdict_words (λ names. rule_of result ≡ verdict_option name.entry.now names) }
    ensures local { result.global ≡ false }
{
    Arg::new(alloc, name)
        .long(name)
        .value_name("VERDICT")
        .value_parser(VERDICTS.as_slice())
        .hide_possible_values(true)
        .help(help)
}

/// A place in the text that may be left out.
fn place<'a>(alloc: Global, name: &'a str, help: &'a str) -> Arg<'a>
    ensures rule { rule_of result ≡ value_option name.entry.now }
    ensures local { result.global ≡ false }
{
    Arg::new(alloc, name)
        .long(name)
        .value_name("LINE:COL")
        .help(help)
}

/// A flag.
fn flag<'a>(alloc: Global, name: &'a str, help: &'a str) -> Arg<'a>
    ensures rule { rule_of result ≡ flag name.entry.now }
    ensures local { result.global ≡ false }
{
    Arg::new(alloc, name)
        .long(name)
        .action(ArgAction::SetTrue)
        .help(help)
}
