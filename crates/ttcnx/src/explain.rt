//! From the text of a module and a run file to a chart of the run.
ghost use Rattle.std.specs.Prelude.{◌≡◌, ◌<◌, ◌⊎◌, length, Err};
ghost use Rattle.chart_steps.specs.Stories.{last_of};
ghost use Rattle.ttcn_step.specs.Machines.{Fits};
ghost use Rattle.ttcn_syntax.specs.Limits.{longest_text};
ghost use Rattle.ttcnx.specs.Explained.{IsExplained};
ghost use Rattle.ttcnx.specs.Fault.{lexical_fault};
ghost use Rattle.ttcnx.specs.Named.{source};

use crate::fault::Fault;
use crate::testcase::test_of;
use chart_formats::{Chart, to_json, to_mermaid, to_svg, to_text};
use chart_steps::{Story, tell};
use chart_words::{Run, chart_of};
use check_rules::{Definitions, Program};
use report::read_run;
use std::alloc::{AllocError, Global};
use step_labels::Label;
use ttcn_step::Machine;
use ttcn_syntax::LexError;
use ttcnx_command_line::Format;

/// What the command `explain` prints for a module, the name of a test case, a run file and a script: the run as a chart.
/// Refusals come in the order of the work: the text, its tokens, its module, the name, the script, the run file, the first
/// label that is not enabled.
pub fn explain_text(
    alloc: Global,
    text: &[u8],
    name: &str,
    run: &[u8],
    script: &[u8],
    format: Format,
) -> Result<Vec<u8>, Fault>
    ensures answer { (result ≡ Err Fault.Memory) ⊎ IsExplained (source text.now script.now) name.now run.now result }

    // This is decided before memory is asked for.
    ensures too_long { longest_text < length text.now → result ≡ Err (lexical_fault LexError.TextTooLong) }
{
    let (program, testcase, script) = test_of(alloc, text, name, script)?;
    let labels = read_run(alloc, run)?;
    let machine = Machine::with_script(alloc, &program, testcase, &script)?;
    let story = tell(alloc, &machine, labels.as_slice())?;
    let chart = chart(
        alloc,
        &machine,
        &program,
        text,
        name,
        labels.as_slice(),
        &story,
    )?;
    Ok(drawn(alloc, &chart, format)?.into_bytes())
}

/// The chart of a run.
pub(crate) fn chart(
    alloc: Global,
    machine: &Machine<'_>,
    program: &Program,
    text: &[u8],
    name: &str,
    labels: &[Label],
    story: &Story,
) -> Result<Chart, AllocError>
    requires { Fits machine.now (last_of story.now.start story.now.steps.items) }
{
    let defined = program.definitions(alloc)?;
    chart_by(alloc, machine, program, &defined, text, name, labels, story)
}

/// The chart of a run, by what the program defines.
fn chart_by(
    alloc: Global,
    machine: &Machine<'_>,
    program: &Program,
    defined: &Definitions<'_>,
    text: &[u8],
    name: &str,
    labels: &[Label],
    story: &Story,
) -> Result<Chart, AllocError>
    requires { Fits machine.now (last_of story.now.start story.now.steps.items) }
{
    let end = story.end();
    let standings = machine.standings(alloc, end)?;
    let stuck = machine.is_stuck(alloc, end)?;
    chart_of(
        alloc,
        Run {
            text,
            definitions: program.module().definitions.as_slice(),
            defined,
            slots: machine.names(),
            testcase: name,
            labels,
            story,
            standings: standings.as_slice(),
            stuck,
        },
    )
}

/// A chart, drawn in a format.
pub(crate) fn drawn(alloc: Global, chart: &Chart, format: Format) -> Result<String, AllocError> {
    match format {
        Format::Text => to_text(alloc, chart),
        Format::Json => to_json(alloc, chart),
        Format::Mermaid => to_mermaid(alloc, chart),
        Format::Svg => to_svg(alloc, chart),
    }
}
