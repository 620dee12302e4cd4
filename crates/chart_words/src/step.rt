//! What happens in a step, in words (ES 201 873-1, 19 to 24).
use crate::cause::Failure;
use crate::changes::{Changes, changes_of};
use crate::columns::{column_of, component_in};
use crate::source::Source;
use chart_causes::{Names, statement_at, write_name, write_path};
use chart_formats::Arrow;
use chart_steps::{Told, verdict_at};
use check_rules::Definitions;
use config_parts::{Component, Config, End, Request, Way};
use report::word_of;
use std::alloc::{AllocError, Global};
use std::fmt::Write;
use step_labels::Label;
use ttcn_step::{Part, Sent};
use ttcn_syntax::{Action, Name, Span, Verdict};
use value_types::{ComponentId, Path, Slot};

/// What gives words: names, the module's definitions and its text, the main component, and the components of the run in the
/// order of the columns.
#[derive(Clone, Copy)]
pub(crate) struct Speaker<'a> {
    pub(crate) names: Names<'a>,
    pub(crate) defined: &'a Definitions<'a>,
    pub(crate) mtc: &'a ComponentId,
    pub(crate) source: &'a Source<'a>,
    pub(crate) components: &'a [Component],
}

/// A step: its label, what is told of it, and the configuration before it.
#[derive(Clone, Copy)]
pub(crate) struct Step<'a> {
    pub(crate) label: &'a Label,
    pub(crate) told: &'a Told,
    pub(crate) before: &'a Config,
}

/// What is said of a step.
#[derive(Drop)]
pub(crate) struct Words {
    pub(crate) text: String,
    /// Whether the component only computes.
    pub(crate) computes: bool,
    /// The line in the module's text.
    pub(crate) line: Option<u32>,
}

/// The component that a label names.
pub(crate) fn path_of(label: &Label) -> Option<&Path> {
    match label {
        Label::Statement(path) => Some(path),
        Label::Expiry { component, .. } => Some(component),
        Label::Delivery(_) => None,
    }
}

/// Words one behind the other.
fn joined(alloc: Global, words: &[String], separator: &str) -> Result<String, AllocError> {
    let mut text = String::new(alloc);
    let mut between = "";
    for word in words {
        text.push_str(between)?;
        text.push_str(word.as_str())?;
        between = separator;
    }
    Ok(text)
}

impl<'a> Step<'a> {
    fn before(self, path: &Path) -> Option<&'a Component> {
        component_in(self.before, path)
    }

    fn behind(self, path: &Path) -> Option<&'a Component> {
        component_in(&self.told.behind, path)
    }

    /// Whether the step ends the test case with a dynamic error.
    fn fails(self) -> bool {
        match (&self.told.behind, &self.told.request) {
            (Config::Ended(_), Some(Request::Stops(_))) => false,
            (Config::Ended(_), _) => true,
            (Config::Going(_), _) => false,
        }
    }
}

impl<'a> Speaker<'a> {
    /// Writes a component's port: `net of mtc.1`.
    fn write_end(self, out: &mut String, end: &End) -> Result<(), AllocError> {
        self.names.write_slot(out, end.port)?;
        out.push_str(" of ")?;
        write_path(out, &end.component)
    }

    /// Writes a component's port as it is written in a module: `mtc.1:net`.
    fn write_port(self, out: &mut String, end: &End) -> Result<(), AllocError> {
        write_path(out, &end.component)?;
        out.push_str(":")?;
        self.names.write_slot(out, end.port)
    }

    /// How many messages wait at a port behind a step.
    fn queue_length(self, config: &Config, end: &End) -> usize {
        let Some(component) = component_in(config, &end.component) else {
            return 0;
        };
        match component
            .queues
            .get()
            .as_slice()
            .iter()
            .find(|queue| queue.port == end.port)
        {
            Some(queue) => queue.messages.len(),
            None => 0,
        }
    }

    /// Writes where a message goes.
    fn write_way(self, out: &mut String, step: Step<'_>, way: &Way) -> Result<(), AllocError> {
        match way {
            Way::Reaches(end) => {
                out.push_str(" --> ")?;
                self.write_end(out, end)?;
                write!(out, ", queue {}", self.queue_length(&step.told.behind, end))
            }
            Way::Lost(end) => {
                out.push_str(" --> DROPPED: ")?;
                write_path(out, &end.component)?;
                out.push_str(" has ended")
            }
            Way::Leaves(system_port) => {
                out.push_str(" --> system:")?;
                self.names.write_slot(out, *system_port)
            }
        }
    }

    /// A message that is sent: `net ! {1, setup} --> net of mtc.1, queue 1`.
    fn sending(self, alloc: Global, step: Step<'_>, sent: &Sent) -> Result<String, AllocError> {
        let mut text = String::new(alloc);
        if let Some(from) = &sent.from {
            self.names.write_slot(&mut text, from.port)?;
            text.push_str(" ! ")?;
        }
        self.names.write_value(&mut text, &sent.value)?;
        self.write_way(&mut text, step, &sent.way)?;
        Ok(text)
    }

    /// The first message that waits at a port of a component.
    fn receiving(
        self,
        alloc: Global,
        component: Option<&Component>,
        port: Slot,
    ) -> Result<String, AllocError> {
        let mut text = String::new(alloc);
        self.names.write_slot(&mut text, port)?;
        text.push_str(" ? ")?;
        let Some(component) = component else {
            return Ok(text);
        };
        let queues = component.queues.get().as_slice();
        let Some(queue) = queues.iter().find(|queue| queue.port == port) else {
            return Ok(text);
        };
        if let Some(message) = queue.messages.as_slice().first() {
            self.names.write_value(&mut text, &message.value)?;
            match &message.sender {
                Some(sender) => {
                    text.push_str(" from ")?;
                    write_path(&mut text, &sender.path)?;
                }
                None => text.push_str(" from system")?,
            }
        }
        Ok(text)
    }

    /// A verdict that is set: `verdict none -> inconc "not answered"`.
    fn setting(
        self,
        alloc: Global,
        step: Step<'_>,
        path: &Path,
        set: Verdict,
    ) -> Result<String, AllocError> {
        let mut text = String::new(alloc);
        let old = verdict_at(step.before, path);
        let new = verdict_at(&step.told.behind, path);
        match (old, new) {
            (Some(old), Some(new)) if old != new => {
                write!(text, "verdict {} -> {}", word_of(old), word_of(new))?;
            }
            (Some(old), _) => {
                write!(text, "setverdict {}: stays {}", word_of(set), word_of(old))?;
            }
            _ => {
                write!(text, "setverdict {}", word_of(set))?;
            }
        }
        if let Some(place) = step.told.place {
            let reason = self.source.reason(alloc, place)?;
            if !reason.is_empty() {
                write!(text, " {reason}")?;
            }
        }
        Ok(text)
    }

    /// A component that stops.
    fn stopping(
        self,
        alloc: Global,
        step: Step<'_>,
        path: &Path,
        stopped: &Path,
    ) -> Result<String, AllocError> {
        let mut text = String::new(alloc);
        if *path != *stopped {
            text.push_str("stops ")?;
            write_path(&mut text, stopped)?;
            text.push_str(", ")?;
        }
        match &step.told.behind {
            Config::Ended(verdict) => {
                write!(text, "TEST CASE ENDS: {}", word_of(*verdict))?;
            }
            Config::Going(_) => {
                if *path == *stopped {
                    text.push_str("ENDS")?;
                } else {
                    text.push_str("which ENDS")?;
                }
            }
        }
        Ok(text)
    }

    /// Two ports, with words before and between them.
    fn linking(
        self,
        alloc: Global,
        word: &str,
        one: &End,
        other: &End,
    ) -> Result<String, AllocError> {
        let mut text = String::from_str(alloc, word)?;
        self.write_port(&mut text, one)?;
        text.push_str(" -- ")?;
        self.write_port(&mut text, other)?;
        Ok(text)
    }

    /// A port and a system port, with a word before them.
    fn mapping(
        self,
        alloc: Global,
        word: &str,
        end: &End,
        system_port: Slot,
    ) -> Result<String, AllocError> {
        let mut text = String::from_str(alloc, word)?;
        self.write_port(&mut text, end)?;
        text.push_str(" -- system:")?;
        self.names.write_slot(&mut text, system_port)?;
        Ok(text)
    }

    /// What a component asks for among all components.
    fn request(
        self,
        alloc: Global,
        step: Step<'_>,
        path: &Path,
        request: &Request,
    ) -> Result<Option<String>, AllocError> {
        Ok(match request {
            Request::Continues => None,
            Request::Worsens(verdict) => Some(self.setting(alloc, step, path, *verdict)?),
            Request::Removes(port) => Some(self.receiving(alloc, step.before(path), *port)?),
            Request::Sends(_, _, _) => match &step.told.sent {
                Some(sent) => Some(self.sending(alloc, step, sent)?),
                None => None,
            },
            Request::Creates(new) => {
                let mut text = String::from_str(alloc, "creates ")?;
                write_path(&mut text, &new.itself.path)?;
                text.push_str(" of type ")?;
                self.names
                    .write_definition(&mut text, new.itself.component_type)?;
                Some(text)
            }
            Request::Starts(started, _) => {
                let mut text = String::from_str(alloc, "starts ")?;
                write_path(&mut text, started)?;
                if let Some(place) = step.told.place {
                    text.push_str(": ")?;
                    text.push_str(self.source.phrase(alloc, place)?.as_str())?;
                }
                Some(text)
            }
            Request::Stops(stopped) => Some(self.stopping(alloc, step, path, stopped)?),
            Request::Connects(one, other) => Some(self.linking(alloc, "connect ", one, other)?),
            Request::Maps(end, system_port) => {
                Some(self.mapping(alloc, "map ", end, *system_port)?)
            }
            Request::Unmaps(end, system_port) => {
                Some(self.mapping(alloc, "unmap ", end, *system_port)?)
            }
        })
    }

    /// What stands before the words of a step that takes a branch: the altstep in which it stands, and `[]` unless that is in
    /// the words.
    fn branch_words(self, alloc: Global, branch: Span, marked: bool) -> Result<String, AllocError> {
        let mut text = String::new(alloc);
        if let Some(at) = self.names.altstep_at(branch) {
            text.push_str("in ")?;
            self.names.write_definition(&mut text, at)?;
            text.push_str(": ")?;
        }
        if marked {
            text.push_str("[] ")?;
        }
        Ok(text)
    }

    /// Writes where a dynamic error is: `, in: x := 1 / n`, `, in lending: [1 / n == 2] t.timeout`.
    fn write_scene(
        self,
        alloc: Global,
        out: &mut String,
        place: Span,
        part: Option<Part>,
    ) -> Result<(), AllocError> {
        out.push_str(" in")?;
        if let Some(at) = self.names.altstep_at(place) {
            out.push(' ')?;
            self.names.write_definition(out, at)?;
        }
        out.push_str(": ")?;
        out.push_str(self.source.phrase_of(alloc, place, part)?.as_str())
    }

    /// A dynamic error: `DYNAMIC ERROR: division by zero: 1 / 0, in: x := 1 / n`.
    fn failing(self, alloc: Global, step: Step<'_>, path: &Path) -> Result<Words, AllocError> {
        let mut text = String::from_str(alloc, "DYNAMIC ERROR")?;
        let Failure { place, words } = self.failure(alloc, step, path)?;
        if !words.is_empty() {
            write!(text, ": {words}")?;
        }
        let part = if place == step.told.place {
            step.told.part
        } else {
            None
        };
        let mut line = None;
        if let Some(place) = place {
            line = Some(self.source.line(place, part));
            if !words.is_empty() {
                text.push_str(",")?;
            }
            self.write_scene(alloc, &mut text, place, part)?;
        }
        Ok(Words {
            text,
            computes: false,
            line,
        })
    }

    /// The line of a step: that of the branch that it takes, or else of the part of its statement.
    fn line(self, step: Step<'_>) -> Option<u32> {
        match (step.told.branch, step.told.place) {
            (Some(place), _) => Some(place.line),
            (None, Some(place)) => Some(self.source.line(place, step.told.part)),
            (None, None) => None,
        }
    }

    /// Whether a step is the declaration of a timer: one that was there is no longer the same.
    fn declares_timer(self, step: Step<'_>) -> bool {
        match step.told.place {
            Some(place) => match statement_at(self.names.definitions, place) {
                Some(statement) => matches!(statement.action.get(), Action::Timers(_)),
                None => false,
            },
            None => false,
        }
    }

    /// The step of a component's statement.
    fn statement(self, alloc: Global, step: Step<'_>, path: &Path) -> Result<Words, AllocError> {
        if step.fails() {
            return self.failing(alloc, step, path);
        }
        let Changes {
            words: mut changed,
            only_values,
        } = changes_of(alloc, self.names, step.before(path), step.behind(path))?;
        if !only_values && self.declares_timer(step) {
            changed = Vec::new(alloc);
        }
        let asked = match &step.told.request {
            Some(request) => self.request(alloc, step, path, request)?,
            None => None,
        };
        let computes = asked.is_none() && only_values && step.told.branch.is_none();
        let mut words = Vec::new(alloc);
        let mut prefix = String::new(alloc);
        if let Some(branch) = step.told.branch {
            prefix = self.branch_words(alloc, branch, asked.is_some())?;
        }
        match asked {
            Some(text) => words.push(text)?,
            None => {
                if let Some(place) = self.phrase_place(step, changed.is_empty()) {
                    let part = if step.told.branch.is_some() {
                        None
                    } else {
                        step.told.part
                    };
                    words.push(self.source.phrase_of(alloc, place, part)?)?;
                }
            }
        }
        for text in changed {
            words.push(text)?;
        }
        prefix.push_str(joined(alloc, words.as_slice(), ", ")?.as_str())?;
        if prefix.is_empty() {
            prefix.push_str("returns")?;
        }
        Ok(Words {
            text: prefix,
            computes,
            line: self.line(step),
        })
    }

    /// Where the text stands that says what a step does which asks for nothing: at the branch that it takes, or else at its
    /// statement, where nothing else is to be said.
    fn phrase_place(self, step: Step<'_>, unchanged: bool) -> Option<Span> {
        match step.told.branch {
            Some(place) => Some(place),
            None if unchanged => step.told.place,
            None => None,
        }
    }

    /// A message that comes in: `{7, ok} at net of mtc, queue 1, from system:status`.
    fn coming_in(
        self,
        alloc: Global,
        step: Step<'_>,
        system_port: &Name,
    ) -> Result<String, AllocError> {
        let mut text = String::new(alloc);
        if let Some(sent) = &step.told.sent {
            self.names.write_value(&mut text, &sent.value)?;
            if let Way::Reaches(end) | Way::Lost(end) = &sent.way {
                text.push_str(" at ")?;
                self.write_end(&mut text, end)?;
                write!(
                    text,
                    ", queue {}",
                    self.queue_length(&step.told.behind, end)
                )?;
            }
        }
        text.push_str(", from system:")?;
        write_name(&mut text, system_port)?;
        Ok(text)
    }

    /// What is said of a step.
    pub(crate) fn words(self, alloc: Global, step: Step<'_>) -> Result<Words, AllocError> {
        match step.label {
            Label::Statement(path) => self.statement(alloc, step, path),
            Label::Expiry { timer, .. } => {
                let mut text = String::new(alloc);
                write_name(&mut text, timer)?;
                text.push_str(" EXPIRES")?;
                Ok(Words {
                    text,
                    computes: false,
                    line: None,
                })
            }
            Label::Delivery(system_port) => Ok(Words {
                text: self.coming_in(alloc, step, system_port)?,
                computes: false,
                line: None,
            }),
        }
    }

    /// Where the message of a step goes.
    pub(crate) fn arrow(self, step: Step<'_>) -> Option<Arrow> {
        let sent = match &step.told.sent {
            Some(sent) => sent,
            None => return None,
        };
        let from = match &sent.from {
            Some(end) => column_of(self.components, &end.component),
            None => None,
        };
        let (to, lost) = match &sent.way {
            Way::Reaches(end) => (column_of(self.components, &end.component), false),
            Way::Lost(end) => (column_of(self.components, &end.component), true),
            Way::Leaves(_) => (None, false),
        };
        Some(Arrow { from, to, lost })
    }
}
