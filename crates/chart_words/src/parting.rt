//! What comes otherwise in two runs behind the step at which they part: a message, or the expiry of a timer.
use chart_causes::{Names, write_name, write_path};
use chart_steps::{Story, Told};
use config_parts::{End, Way};
use std::alloc::{AllocError, Global};
use std::fmt::Write;
use step_labels::Label;
use ttcn_step::Sent;
use ttcn_syntax::Name;
use value_types::Path;

/// A run: how it is called, its labels, and what their steps do.
#[derive(Clone, Copy)]
pub struct Course<'a> {
    pub name: &'a str,
    pub labels: &'a [Label],
    pub story: &'a Story,
}

/// What comes to a component: a message at a port, or the expiry of a timer of a frame.
#[derive(Clone, Copy)]
enum Coming<'a> {
    Message(&'a Sent, &'a End),
    Expiry(u32, &'a Name),
}

/// What comes to a component in a step.
#[derive(Clone, Copy)]
struct Arrival<'a> {
    /// The number of the step in its run.
    number: usize,
    path: &'a Path,
    coming: Coming<'a>,
}

/// What comes otherwise to a component: in either run, if anything more comes there.
#[derive(Clone, Copy)]
struct Difference<'a> {
    path: &'a Path,
    one: Option<Arrival<'a>>,
    other: Option<Arrival<'a>>,
    /// Whether something else comes before to the component, the same in both.
    is_next: bool,
}

/// What comes to a component in the step of a label.
fn arrival_of<'a>(number: usize, label: &'a Label, told: &'a Told) -> Option<Arrival<'a>> {
    if let Label::Expiry {
        component,
        frame,
        timer,
    } = label
    {
        return Some(Arrival {
            number,
            path: component,
            coming: Coming::Expiry(*frame, timer),
        });
    }
    match &told.sent {
        Some(sent) => match &sent.way {
            Way::Reaches(end) => Some(Arrival {
                number,
                path: &end.component,
                coming: Coming::Message(sent, end),
            }),
            Way::Lost(_) | Way::Leaves(_) => None,
        },
        None => None,
    }
}

/// What comes to components in a run behind so many steps.
fn arrivals<'a>(
    alloc: Global,
    run: Course<'a>,
    steps: usize,
) -> Result<Vec<Arrival<'a>>, AllocError> {
    let mut found = Vec::new(alloc);
    let mut number: usize = 0;
    for (label, told) in run.labels.iter().zip(run.story.steps.iter()) {
        if number >= steps {
            if let Some(arrival) = arrival_of(number, label, told) {
                found.push(arrival)?;
            }
        }
        number = number.saturating_add(1);
    }
    Ok(found)
}

/// Whether the same comes.
fn is_same(one: Coming<'_>, other: Coming<'_>) -> bool {
    match (one, other) {
        (Coming::Message(one, at), Coming::Message(other, its)) => {
            *at == *its && one.value == other.value && one.from == other.from
        }
        (Coming::Expiry(frame, timer), Coming::Expiry(its, other)) => {
            frame == its && *timer == *other
        }
        _ => false,
    }
}

/// The arrivals at a component.
fn at_component<'a>(
    alloc: Global,
    arrivals: &[Arrival<'a>],
    path: &Path,
) -> Result<Vec<Arrival<'a>>, AllocError> {
    let mut found = Vec::new(alloc);
    for arrival in arrivals {
        if *arrival.path == *path {
            found.push(*arrival)?;
        }
    }
    Ok(found)
}

/// How many arrivals are the same in front of both.
fn common(one: &[Arrival<'_>], other: &[Arrival<'_>]) -> usize {
    let mut count: usize = 0;
    for (arrival, its) in one.iter().zip(other) {
        if !is_same(arrival.coming, its.coming) {
            return count;
        }
        count = count.saturating_add(1);
    }
    count
}

/// What first comes otherwise to a component.
fn difference_at<'a>(
    alloc: Global,
    one: &[Arrival<'a>],
    other: &[Arrival<'a>],
    path: &'a Path,
) -> Result<Difference<'a>, AllocError> {
    let one = at_component(alloc, one, path)?;
    let other = at_component(alloc, other, path)?;
    let count = common(one.as_slice(), other.as_slice());
    Ok(Difference {
        path,
        one: one.as_slice().get(count).copied(),
        other: other.as_slice().get(count).copied(),
        is_next: count > 0,
    })
}

/// The number of the step in which something comes otherwise, in the run where that is earlier.
fn step_of(difference: Difference<'_>) -> Option<usize> {
    match (difference.one, difference.other) {
        (Some(one), Some(other)) => Some(one.number.min(other.number)),
        (Some(one), None) => Some(one.number),
        (None, Some(other)) => Some(other.number),
        (None, None) => None,
    }
}

/// The components to which something comes, each once.
fn components_of<'a>(
    alloc: Global,
    one: &[Arrival<'a>],
    other: &[Arrival<'a>],
) -> Result<Vec<&'a Path>, AllocError> {
    let mut paths: Vec<&'a Path> = Vec::new(alloc);
    for arrival in one.iter().chain(other) {
        if !paths.iter().any(|path| **path == *arrival.path) {
            paths.push(arrival.path)?;
        }
    }
    Ok(paths)
}

/// What comes otherwise first, to any component.
fn first_difference<'a>(
    alloc: Global,
    one: &[Arrival<'a>],
    other: &[Arrival<'a>],
) -> Result<Option<Difference<'a>>, AllocError> {
    let mut first = None;
    let mut least = usize::MAX;
    let paths = components_of(alloc, one, other)?;
    for path in &paths {
        let found = difference_at(alloc, one, other, *path)?;
        if let Some(number) = step_of(found) {
            if number < least {
                least = number;
                first = Some(found);
            }
        }
    }
    Ok(first)
}

/// Writes what comes: `{1, setup} from mtc at net`, `the expiry of guard`.
fn write_coming(
    out: &mut String,
    names: Names<'_>,
    arrival: Option<Arrival<'_>>,
) -> Result<(), AllocError> {
    match arrival {
        None => out.push_str("nothing"),
        Some(arrival) => match arrival.coming {
            Coming::Expiry(_, timer) => {
                out.push_str("the expiry of ")?;
                write_name(out, timer)
            }
            Coming::Message(sent, end) => {
                names.write_value(out, &sent.value)?;
                out.push_str(" from ")?;
                match &sent.from {
                    Some(from) => write_path(out, &from.component)?,
                    None => out.push_str("system")?,
                }
                out.push_str(" at ")?;
                names.write_slot(out, end.port)
            }
        },
    }
}

/// What comes first to a component that isn't the same in two runs behind so many steps: a message or an expiry.
pub fn order_of<'a>(
    alloc: Global,
    names: Names<'a>,
    one: Course<'a>,
    other: Course<'a>,
    steps: usize,
) -> Result<Option<String>, AllocError> {
    let of_one = arrivals(alloc, one, steps)?;
    let of_other = arrivals(alloc, other, steps)?;
    let difference = match first_difference(alloc, of_one.as_slice(), of_other.as_slice())? {
        Some(difference) => difference,
        None => return Ok(None),
    };
    let mut text = String::from_str(alloc, "to ")?;
    write_path(&mut text, difference.path)?;
    let word = if difference.is_next { "next" } else { "first" };
    write!(text, " comes {word}: in {} ", one.name)?;
    write_coming(&mut text, names, difference.one)?;
    write!(text, ", in {} ", other.name)?;
    write_coming(&mut text, names, difference.other)?;
    Ok(Some(text))
}
