//! Charts as SVG, which browsers draw.
use crate::chart::{Arrow, Chart, Column, Row};
use crate::words::{Escape, Steps, TITLES, lines_width, push_escaped, steps_width};
use std::alloc::{AllocError, Global};

/// The width of a character, in pixels, as are all sizes below.
const CHARACTER: usize = 8;

/// The height of a line of a head.
const HEAD_LINE: usize = 16;

/// The height of a row.
const ROW: usize = 26;

/// The height of a line of the ending.
const ENDING_LINE: usize = 18;

/// What stays free at the edges.
const EDGE: usize = 10;

/// The least width of a lane.
const LANE: usize = 120;

/// Where the heads begin, below the name of the test case.
const HEADS: usize = 36;

/// The ends of arrows, and the ground.
const PROLOGUE: &str = r##"<defs>
<marker id="arrow" markerUnits="userSpaceOnUse" markerWidth="10" markerHeight="8" refX="10" refY="4" orient="auto"><path d="M0,0 L10,4 L0,8 z" fill="#1a4f8b"/></marker>
<marker id="cross" markerUnits="userSpaceOnUse" markerWidth="10" markerHeight="10" refX="5" refY="5" orient="auto"><path d="M0,0 L10,10 M0,10 L10,0" stroke="#b00020" stroke-width="2"/></marker>
</defs>
<rect width="100%" height="100%" fill="#ffffff"/>
"##;

/// The look of the words of rows and of the ending.
const PLAIN: &str = "";

/// The look of the name of the test case.
const BOLD: &str = r#" font-weight="bold""#;

/// The look of the words of heads.
const MIDDLE: &str = r#" text-anchor="middle""#;

/// The look of the numbers at the left.
const NUMBER: &str = r##" text-anchor="end" fill="#666666""##;

/// The look of a message's arrow.
const SENT: &str = r##" stroke="#1a4f8b" marker-end="url(#arrow)""##;

/// The look of a lost message's arrow.
const LOST: &str = r##" stroke="#b00020" marker-end="url(#cross)""##;

/// Where the parts of a drawing stand.
#[derive(Clone, Copy)]
struct Plan<'a> {
    chart: &'a Chart,
    /// Whether the first lane is that of what is outside the test system.
    outside: bool,
    /// Where the numbers of steps and lines end.
    steps: usize,
    lines: usize,
    /// Where the lanes begin, and how wide each is.
    left: usize,
    lane: usize,
    /// Where the heads end, and the lifelines.
    top: usize,
    bottom: usize,
}

/// The place behind so many parts of one size.
fn behind(start: usize, size: usize, count: usize) -> usize {
    start.saturating_add(size.saturating_mul(count))
}

/// Where a text ends that begins at a place.
fn text_end(start: usize, words: &str) -> usize {
    behind(start, CHARACTER, words.chars().count())
}

impl<'a> Plan<'a> {
    fn new(chart: &'a Chart) -> Plan<'a> {
        let steps = behind(EDGE, CHARACTER, steps_width(chart));
        let lines = behind(
            steps.saturating_add(2 * CHARACTER),
            CHARACTER,
            lines_width(chart),
        );
        let top = behind(HEADS + EDGE, HEAD_LINE, chart.head_lines());
        Plan {
            chart,
            outside: chart.shows_outside(),
            steps,
            lines,
            left: lines.saturating_add(CHARACTER),
            lane: behind(4 * CHARACTER, CHARACTER, chart.head_width()).max(LANE),
            top,
            bottom: behind(top.saturating_add(EDGE), ROW, chart.rows.len()),
        }
    }

    /// The lane of a column; the lane of what is outside comes first.
    fn lane_of(&self, column: Option<usize>) -> usize {
        match self.chart.place_of(column) {
            Some(place) => place.saturating_add(usize::from(self.outside)),
            None => 0,
        }
    }

    /// Where the lifeline of a lane stands.
    fn lifeline(&self, lane: usize) -> usize {
        behind(self.left, self.lane, lane).saturating_add(self.lane / 2)
    }

    /// Where the words of a row begin.
    fn words_start(&self, row: &Row) -> usize {
        self.lifeline(self.lane_of(self.chart.column_of(row)))
            .saturating_add(CHARACTER)
    }

    /// The number of lanes.
    fn lanes(&self) -> usize {
        let columns = self.chart.columns.len();
        columns.saturating_add(usize::from(self.outside))
    }

    fn width(&self) -> usize {
        let rows = self.chart.rows.iter();
        let rows = rows.map(|row| text_end(self.words_start(row), row.text.as_str()));
        let ending = self.chart.ending.iter();
        let ending = ending.map(|line| text_end(EDGE, line.as_str()));
        let title = text_end(EDGE + 9 * CHARACTER, self.chart.testcase.as_str());
        behind(self.left, self.lane, self.lanes())
            .max(rows.max().unwrap_or(0))
            .max(ending.max().unwrap_or(0))
            .max(title)
            .saturating_add(EDGE)
    }

    fn height(&self) -> usize {
        behind(self.bottom, ENDING_LINE, self.chart.ending.len()).saturating_add(3 * EDGE)
    }
}

/// What SVG reads in place of the characters that mean something to it.
const ESCAPES: [Escape; 4] = [
    ('&', "&amp;"),
    ('<', "&lt;"),
    ('>', "&gt;"),
    ('"', "&quot;"),
];

/// Words at a place, which is that of their line's foot.
fn push_words(
    text: &mut String,
    place: (usize, usize),
    look: &str,
    words: &str,
) -> Result<(), AllocError> {
    let (x, y) = place;
    write!(text, "<text x=\"{x}\" y=\"{y}\"{look}>")?;
    push_escaped(text, words, &ESCAPES)?;
    text.push_str("</text>\n")
}

fn push_start(text: &mut String, plan: &Plan<'_>) -> Result<(), AllocError> {
    let (width, height) = (plan.width(), plan.height());
    text.push_str("<?xml version=\"1.0\" encoding=\"UTF-8\"?>\n")?;
    text.push_str("<svg xmlns=\"http://www.w3.org/2000/svg\" version=\"1.1\"")?;
    write!(text, " width=\"{width}\" height=\"{height}\"")?;
    text.push_str(" font-family=\"monospace\" font-size=\"13\">\n<title>")?;
    push_escaped(text, plan.chart.testcase.as_str(), &ESCAPES)?;
    text.push_str("</title>\n")?;
    text.push_str(PROLOGUE)?;
    let (x, y) = (EDGE, HEADS - 14);
    write!(text, "<text x=\"{x}\" y=\"{y}\"{BOLD}>testcase ")?;
    push_escaped(text, plan.chart.testcase.as_str(), &ESCAPES)?;
    text.push_str("</text>\n")
}

fn push_lifelines(text: &mut String, plan: &Plan<'_>) -> Result<(), AllocError> {
    text.push_str("<g stroke=\"#999999\" stroke-dasharray=\"4,4\">\n")?;
    let (top, bottom) = (plan.top, plan.bottom);
    for lane in 0..plan.lanes() {
        let x = plan.lifeline(lane);
        writeln!(
            text,
            "<line x1=\"{x}\" y1=\"{top}\" x2=\"{x}\" y2=\"{bottom}\"/>"
        )?;
    }
    text.push_str("</g>\n")
}

/// The box of a head, and the first lines that stand in it.
fn push_head(
    text: &mut String,
    plan: &Plan<'_>,
    lane: usize,
    lines: &[&str],
) -> Result<(), AllocError> {
    let x = behind(plan.left, plan.lane, lane).saturating_add(CHARACTER);
    let width = plan.lane.saturating_sub(2 * CHARACTER);
    let height = plan.top.saturating_sub(HEADS);
    write!(
        text,
        "<rect x=\"{x}\" y=\"{HEADS}\" width=\"{width}\" height=\"{height}\""
    )?;
    text.push_str(" fill=\"#eef2f7\" stroke=\"#444444\"/>\n")?;
    for (place, words) in lines.iter().enumerate() {
        let y = behind(HEADS + HEAD_LINE, HEAD_LINE, place);
        if !words.is_empty() {
            push_words(text, (plan.lifeline(lane), y), MIDDLE, words)?;
        }
    }
    Ok(())
}

fn push_heads(text: &mut String, plan: &Plan<'_>) -> Result<(), AllocError> {
    let [steps, lines] = TITLES;
    let y = plan.top.saturating_sub(4);
    push_words(text, (plan.steps, y), NUMBER, steps)?;
    push_words(text, (plan.lines, y), NUMBER, lines)?;
    if plan.outside {
        push_head(text, plan, 0, &["system"])?;
    }
    for (place, column) in plan.chart.columns.iter().enumerate() {
        push_head(text, plan, plan.lane_of(Some(place)), &column.head())?;
    }
    Ok(())
}

/// An arrow; one that leads to where it begins is drawn as a loop.
fn push_arrow(
    text: &mut String,
    plan: &Plan<'_>,
    y: usize,
    arrow: Arrow,
) -> Result<(), AllocError> {
    let from = plan.lifeline(plan.lane_of(arrow.from));
    let to = plan.lifeline(plan.lane_of(arrow.to));
    let look = if arrow.lost { LOST } else { SENT };
    if from == to {
        writeln!(
            text,
            "<path d=\"M{from},{y} h24 v5 h-24\" fill=\"none\"{look}/>"
        )
    } else {
        writeln!(
            text,
            "<line x1=\"{from}\" y1=\"{y}\" x2=\"{to}\" y2=\"{y}\"{look}/>"
        )
    }
}

/// The numbers at the left of a row.
fn push_numbers(
    alloc: Global,
    text: &mut String,
    plan: &Plan<'_>,
    row: &Row,
    y: usize,
) -> Result<(), AllocError> {
    let steps = Steps(row).to_string(alloc)?;
    push_words(text, (plan.steps, y), NUMBER, steps.as_str())?;
    if let Some(line) = row.line {
        let line = line.to_string(alloc)?;
        push_words(text, (plan.lines, y), NUMBER, line.as_str())?;
    }
    Ok(())
}

/// The words of a row, on a ground that hides the lifelines behind them.
fn push_said(text: &mut String, plan: &Plan<'_>, row: &Row, y: usize) -> Result<(), AllocError> {
    let x = plan.words_start(row);
    let words = row.text.as_str();
    let (top, width) = (y.saturating_sub(12), text_end(0, words));
    write!(
        text,
        "<rect x=\"{x}\" y=\"{top}\" width=\"{width}\" height=\"16\""
    )?;
    text.push_str(" fill=\"#ffffff\"/>\n")?;
    push_words(text, (x, y), PLAIN, words)
}

fn push_rows(alloc: Global, text: &mut String, plan: &Plan<'_>) -> Result<(), AllocError> {
    for (place, row) in plan.chart.rows.iter().enumerate() {
        let y = behind(plan.top.saturating_add(EDGE + 13), ROW, place);
        push_numbers(alloc, text, plan, row, y)?;
        push_said(text, plan, row, y)?;
        if let Some(arrow) = row.arrow {
            push_arrow(text, plan, y.saturating_add(6), arrow)?;
        }
    }
    Ok(())
}

fn push_ending(text: &mut String, plan: &Plan<'_>) -> Result<(), AllocError> {
    for (place, line) in plan.chart.ending.iter().enumerate() {
        let y = behind(plan.bottom.saturating_add(3 * EDGE), ENDING_LINE, place);
        push_words(text, (EDGE, y), PLAIN, line.as_str())?;
    }
    Ok(())
}

/// The chart as a document of SVG 1.1 that stands for itself.
pub fn to_svg(alloc: Global, chart: &Chart) -> Result<String, AllocError> {
    let mut text = String::new(alloc);
    let plan = Plan::new(chart);
    push_start(&mut text, &plan)?;
    push_lifelines(&mut text, &plan)?;
    push_heads(&mut text, &plan)?;
    push_rows(alloc, &mut text, &plan)?;
    push_ending(&mut text, &plan)?;
    text.push_str("</svg>\n")?;
    Ok(text)
}
