//! Charts as text: a lane of characters for each component.
use crate::chart::{Chart, Row};
use crate::words::{Steps, TITLES, lines_width, steps_width};
use std::alloc::{AllocError, Global};

/// The fewest characters of a lane.
const NARROW: usize = 12;

/// The most characters of a lane.
const WIDE: usize = 24;

/// The most characters of a longer line of a head, before two points.
const KEPT: usize = 21;

/// The places on a line where the numbers of the steps and of the lines end, where the first lane begins, and how wide
/// a lane is.
#[derive(Clone, Copy)]
struct Lanes {
    steps: usize,
    lines: usize,
    first: usize,
    width: usize,
}

impl Lanes {
    fn new(chart: &Chart) -> Lanes {
        let steps = steps_width(chart);
        let lines = steps.saturating_add(2).saturating_add(lines_width(chart));
        Lanes {
            steps,
            lines,
            first: lines.saturating_add(2),
            width: chart.head_width().saturating_add(2).clamp(NARROW, WIDE),
        }
    }
}

/// Lines that are written from left to right.
#[derive(Drop)]
struct Page {
    text: String,
    /// The number of characters on the last line.
    position: usize,
}

impl Page {
    /// Writes words from a place on, behind blanks. No words leave the line as it is.
    fn put(&mut self, place: usize, words: &str) -> Result<(), AllocError> {
        if words.is_empty() {
            return Ok(());
        }
        for _ in self.position..place {
            self.text.push(' ')?;
        }
        self.position = self.position.max(place);
        self.add(words)
    }

    /// Adds words to the line, and a point for each character that doesn't print.
    fn add(&mut self, words: &str) -> Result<(), AllocError> {
        for character in words.chars() {
            let is_control = character.is_control();
            self.text.push(if is_control { '.' } else { character })?;
            self.position = self.position.saturating_add(1);
        }
        Ok(())
    }

    /// Writes words that end before a place.
    fn put_before(&mut self, place: usize, words: &str) -> Result<(), AllocError> {
        self.put(place.saturating_sub(words.len()), words)
    }

    /// Writes a line of a head, of which a longer one loses its end.
    fn put_head(&mut self, place: usize, words: &str) -> Result<(), AllocError> {
        match words.get(..KEPT) {
            Some(start) if words.chars().count() > KEPT + 2 => {
                self.put(place, start)?;
                self.add("..")
            }
            _ => self.put(place, words),
        }
    }

    fn end_line(&mut self) -> Result<(), AllocError> {
        self.position = 0;
        self.text.push('\n')
    }

    /// A line of its own.
    fn put_line(&mut self, words: &str) -> Result<(), AllocError> {
        self.add(words.trim_end())?;
        self.end_line()
    }

    /// A line of the heads.
    fn put_heads(&mut self, chart: &Chart, lanes: Lanes, line: usize) -> Result<(), AllocError> {
        let mut place = lanes.first;
        for column in &chart.columns {
            if let Some(words) = column.head().get(line) {
                self.put_head(place, words.trim_end())?;
            }
            place = place.saturating_add(lanes.width);
        }
        self.end_line()
    }

    /// What a row says, with an arrow before it where a message comes in from outside.
    fn put_words(&mut self, chart: &Chart, place: usize, row: &Row) -> Result<(), AllocError> {
        let mut start = place;
        if chart.place_of(row.column).is_none() {
            self.put(place, "-->")?;
            start = place.saturating_add(4);
        }
        self.put(start, row.text.as_str().trim_end())
    }

    /// A row, with a line down each lane that it leaves free.
    fn put_row(&mut self, chart: &Chart, lanes: Lanes, row: &Row) -> Result<(), AllocError> {
        let column = chart.column_of(row).unwrap_or(0);
        let mut place = lanes.first;
        for lane in 0..chart.columns.len().max(1) {
            if lane == column {
                self.put_words(chart, place, row)?;
            }
            if self.position < place {
                self.put(place, "|")?;
            }
            place = place.saturating_add(lanes.width);
        }
        self.end_line()
    }
}

fn put_heads(page: &mut Page, chart: &Chart, lanes: Lanes) -> Result<(), AllocError> {
    let [steps, lines] = TITLES;
    page.put_before(lanes.steps, steps)?;
    page.put_before(lanes.lines, lines)?;
    for line in 0..chart.head_lines() {
        page.put_heads(chart, lanes, line)?;
    }
    Ok(())
}

fn put_rows(alloc: Global, page: &mut Page, chart: &Chart, lanes: Lanes) -> Result<(), AllocError> {
    for row in &chart.rows {
        let steps = Steps(row).to_string(alloc)?;
        page.put_before(lanes.steps, steps.as_str())?;
        if let Some(line) = row.line {
            let line = line.to_string(alloc)?;
            page.put_before(lanes.lines, line.as_str())?;
        }
        page.put_row(chart, lanes, row)?;
    }
    Ok(())
}

fn put_ending(page: &mut Page, chart: &Chart) -> Result<(), AllocError> {
    if !chart.ending.is_empty() {
        page.end_line()?;
    }
    for line in &chart.ending {
        page.put_line(line.as_str())?;
    }
    Ok(())
}

/// The chart as lines of text: the heads of the components, a line for each row, and the ending.
pub fn to_text(alloc: Global, chart: &Chart) -> Result<String, AllocError> {
    let mut page = Page {
        text: String::new(alloc),
        position: 0,
    };
    let lanes = Lanes::new(chart);
    page.add("testcase ")?;
    page.put_line(chart.testcase.as_str())?;
    page.end_line()?;
    put_heads(&mut page, chart, lanes)?;
    put_rows(alloc, &mut page, chart, lanes)?;
    put_ending(&mut page, chart)?;
    Ok(page.text)
}
