//! Where a run ends, in words.
use crate::step::Speaker;
use chart_causes::write_path;
use config_parts::{Component, Config, Going, Queue};
use report::word_of;
use std::alloc::{AllocError, Global};
use std::fmt::Write;
use step_labels::Standing;

/// No more messages of a queue are shown.
const MOST: usize = 10;

/// Writes the last three digits of a number, behind a comma.
fn write_last_three(out: &mut String, number: usize) -> Result<(), AllocError> {
    let (hundreds, tens, ones) = (number / 100 % 10, number / 10 % 10, number % 10);
    write!(out, ",{hundreds}{tens}{ones}")
}

/// Writes a number with a comma before each three digits at its end: `9,990`.
fn write_count(out: &mut String, count: usize) -> Result<(), AllocError> {
    let (thousands, millions) = (count / 1000, count / 1_000_000);
    if millions > 0 {
        write!(out, "{millions}")?;
        write_last_three(out, thousands)?;
        write_last_three(out, count)
    } else if thousands > 0 {
        write!(out, "{thousands}")?;
        write_last_three(out, count)
    } else {
        write!(out, "{count}")
    }
}

impl<'a> Speaker<'a> {
    /// A component, and the statement at which it stands.
    fn standing(self, alloc: Global, standing: &Standing) -> Result<String, AllocError> {
        let mut text = String::new(alloc);
        write_path(&mut text, &standing.component)?;
        let (line, place) = (standing.place.line, standing.place);
        write!(
            text,
            " stands at line {line}: {}",
            self.source.phrase(alloc, place)?
        )?;
        Ok(text)
    }

    /// The messages that wait at a port: the first of them, and how many there are more.
    fn queue_line(self, alloc: Global, queue: &Queue) -> Result<String, AllocError> {
        let mut text = String::from_str(alloc, "    ")?;
        self.names.write_slot(&mut text, queue.port)?;
        text.push_str(" holds ")?;
        let messages = queue.messages.as_slice();
        for (at, message) in messages.iter().take(MOST).enumerate() {
            if at > 0 {
                text.push_str(", ")?;
            }
            self.names.write_value(&mut text, &message.value)?;
        }
        let more = queue.messages.len().saturating_sub(MOST);
        if more > 0 {
            text.push_str(" .. (")?;
            write_count(&mut text, more)?;
            text.push_str(" more)")?;
        }
        Ok(text)
    }

    /// The messages that wait for a component, a line a port where some do.
    fn push_queues(
        self,
        alloc: Global,
        component: &Component,
        lines: &mut Vec<String>,
    ) -> Result<(), AllocError> {
        for queue in component.queues.get().as_slice() {
            if !queue.messages.as_slice().is_empty() {
                lines.push(self.queue_line(alloc, queue)?)?;
            }
        }
        Ok(())
    }

    /// What a component that stands somewhere waits for and sees.
    fn push_seen(
        self,
        alloc: Global,
        going: &Going,
        standing: &Standing,
        lines: &mut Vec<String>,
    ) -> Result<(), AllocError> {
        let components = going.components.as_slice();
        let Some(component) = components
            .iter()
            .find(|component| component.itself.path == standing.component)
        else {
            return Ok(());
        };
        self.push_waiting(alloc, going, component, standing.place, lines)?;
        self.push_queues(alloc, component, lines)
    }

    /// Where a run ends: with a verdict, or with components that stand somewhere, and whether one of them can go on.
    pub(crate) fn ending(
        self,
        alloc: Global,
        config: &Config,
        standings: &[Standing],
        stuck: bool,
    ) -> Result<Vec<String>, AllocError> {
        let mut lines = Vec::new(alloc);
        match config {
            Config::Ended(verdict) => {
                lines.push(format!(in alloc; "ended {}", word_of(*verdict))?)?;
            }
            Config::Going(going) => {
                let word = if stuck {
                    "blocked: no component, no timer and no system port has a step"
                } else {
                    "open: some step is possible"
                };
                lines.push(String::from_str(alloc, word)?)?;
                for standing in standings {
                    lines.push(self.standing(alloc, standing)?)?;
                    self.push_seen(alloc, going, standing, &mut lines)?;
                }
            }
        }
        Ok(lines)
    }
}
