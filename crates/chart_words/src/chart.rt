//! From a run to its chart.
use crate::columns::{columns, last_going};
use crate::rows::rows_of;
use crate::source::Source;
use crate::step::Speaker;
use chart_causes::{Names, cause_at_start};
use chart_formats::Chart;
use chart_steps::Story;
use check_rules::Definitions;
use config_parts::{Component, Config};
use std::alloc::{AllocError, Global};
use step_labels::{Label, Standing};
use ttcn_syntax::{Definition, Name, Seq};
use value_types::{ComponentId, Path};

/// A run, with all that its chart says.
#[derive(Clone, Copy)]
pub struct Run<'a> {
    /// The text of the module, and its definitions, in their order and by their names.
    pub text: &'a [u8],
    pub definitions: &'a [Definition],
    pub defined: &'a Definitions<'a>,
    /// The names of slots.
    pub slots: &'a [Name],
    /// The name of the test case.
    pub testcase: &'a str,
    /// The labels, and what their steps do.
    pub labels: &'a [Label],
    pub story: &'a Story,
    /// Where the run ends: the components that run with their places, and whether no label is enabled.
    pub standings: &'a [Standing],
    pub stuck: bool,
}

/// The components of a run.
fn components_of(story: &Story) -> &[Component] {
    match last_going(story) {
        Some(going) => going.components.as_slice(),
        None => &[],
    }
}

/// The main component, or another one where there is none.
fn main_of<'a>(components: &'a [Component], otherwise: &'a ComponentId) -> &'a ComponentId {
    match components.first() {
        Some(component) => &component.itself,
        None => otherwise,
    }
}

/// Why a run ends before its first step.
fn push_cause_at_start(
    alloc: Global,
    names: Names<'_>,
    run: Run<'_>,
    ending: &mut Vec<String>,
) -> Result<(), AllocError> {
    let mut text = String::from_str(alloc, "DYNAMIC ERROR before the first step")?;
    if let Some(cause) = cause_at_start(alloc, names, run.defined, run.testcase)? {
        text.push_str(": ")?;
        text.push_str(cause.as_str())?;
    }
    ending.push(text)?;
    Ok(())
}

/// A run as a chart.
pub fn chart_of(alloc: Global, run: Run<'_>) -> Result<Chart, AllocError> {
    let source = Source::new(alloc, run.text)?;
    let names = Names {
        definitions: run.definitions,
        slots: run.slots,
    };
    let components = components_of(run.story);
    let nobody = ComponentId {
        path: Path {
            numbers: Seq::new(alloc),
        },
        component_type: 0,
    };
    let speaker = Speaker {
        names,
        defined: run.defined,
        mtc: main_of(components, &nobody),
        source: &source,
        components,
    };
    let mut ending = speaker.ending(alloc, run.story.end(), run.standings, run.stuck)?;
    if let Config::Ended(_) = &run.story.start {
        push_cause_at_start(alloc, names, run, &mut ending)?;
    }
    Ok(Chart {
        testcase: String::from_str(alloc, run.testcase)?,
        columns: columns(alloc, names, components)?,
        rows: rows_of(alloc, speaker, run.labels, run.story)?,
        ending,
    })
}
