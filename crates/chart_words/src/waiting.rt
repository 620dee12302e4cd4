//! What a component waits for, and what it sees of that (ES 201 873-1, 20.2, 21.3, 22.2 and 23.4).
use crate::step::Speaker;
use chart_causes::{Judged, Scene, Seen, statement_at};
use config_parts::{Component, Going};
use std::alloc::{AllocError, Global};
use std::fmt::Write;
use ttcn_syntax::Span;

impl<'a> Speaker<'a> {
    /// Writes where a branch stands that isn't the statement itself: its line, the altstep where the statement stands in
    /// another behaviour, and its text.
    fn write_branch(
        self,
        alloc: Global,
        out: &mut String,
        place: Span,
        branch: Span,
    ) -> Result<(), AllocError> {
        if branch == place {
            return Ok(());
        }
        write!(out, "line {}: ", branch.line)?;
        let names = self.names;
        if let Some(altstep) = names.altstep_at(branch) {
            if names.definition_at(place) != Some(altstep) {
                out.push_str("in ")?;
                names.write_definition(out, altstep)?;
                out.push_str(": ")?;
            }
        }
        out.push_str(self.source.phrase(alloc, branch)?.as_str())?;
        out.push_str(": ")
    }

    /// A branch, and what a component sees of it that stands at a place.
    fn branch_line(
        self,
        alloc: Global,
        place: Span,
        judged: &Judged,
    ) -> Result<String, AllocError> {
        let mut text = String::from_str(alloc, "    ")?;
        self.write_branch(alloc, &mut text, place, judged.place)?;
        match judged.seen {
            Seen::Left | Seen::Unsure => {}
            Seen::Taken => text.push_str("can be taken")?,
            Seen::Failed => {
                text.push_str("is a dynamic error")?;
                if !judged.words.is_empty() {
                    text.push_str(": ")?;
                }
            }
        }
        text.push_str(judged.words.as_str())?;
        Ok(text)
    }

    /// What a component that stands at a place sees of what it waits for there: a line for each branch, those of its active
    /// defaults behind those of the statement.
    pub(crate) fn push_waiting(
        self,
        alloc: Global,
        going: &Going,
        component: &Component,
        place: Span,
        lines: &mut Vec<String>,
    ) -> Result<(), AllocError> {
        let statement = match statement_at(self.names.definitions, place) {
            Some(statement) => statement,
            None => return Ok(()),
        };
        let running = going.running(alloc)?;
        let scene = Scene::new(
            self.names,
            self.defined,
            going,
            component,
            running.as_slice(),
            self.mtc,
        );
        let judged = scene.judged(alloc, statement)?;
        for branch in &judged {
            lines.push(self.branch_line(alloc, place, branch)?)?;
        }
        Ok(())
    }
}
