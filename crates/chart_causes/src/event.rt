//! Whether an event has happened for a component where it stands, and what it sees instead (ES 201 873-1, 20.2, 21.3, 22.2
//! and 23).
use crate::names::{write_name, write_path};
use crate::outcome::given;
use crate::reference::write_reference;
use crate::scene::{Place, Scene};
use crate::sight::Sight;
use check_rules::DataType;
use config_parts::{Message, Queue, State};
use std::alloc::{AllocError, Global};
use std::fmt::Write;
use ttcn_syntax::{
    ComponentRef, Event, Expr, MessageTemplate, Name, Operator, PortSelector, Receive, Reference,
    TemplateBody,
};
use ttcn_values::{eval_component, eval_component_reference, eval_template, matches};
use value_types::{ComponentId, TimerState, Value, timer_state};

/// More components are not named in one line.
const MOST: usize = 10;

/// What a component sees of a branch.
#[derive(Clone, Copy, Debug, PartialEq, Eq)]
pub enum Seen {
    /// The branch can be taken.
    Taken,
    /// It can't be taken, which is no error.
    Left,
    /// It is a dynamic error to look at it.
    Failed,
    /// It isn't known which of these.
    Unsure,
}

/// What a component sees of a branch, and the words for it.
#[derive(Drop)]
pub(crate) struct View {
    pub(crate) seen: Seen,
    pub(crate) words: String,
}

impl View {
    /// A branch that can be taken.
    pub(crate) fn taken(alloc: Global) -> Result<View, AllocError> {
        Ok(View {
            seen: Seen::Taken,
            words: String::new(alloc),
        })
    }

    /// A branch that can't be taken, for a reason.
    pub(crate) fn left(words: String) -> Result<View, AllocError> {
        Ok(View {
            seen: Seen::Left,
            words,
        })
    }

    /// A branch that is a dynamic error, for a cause where one is found.
    pub(crate) fn failed(alloc: Global, cause: Option<String>) -> Result<View, AllocError> {
        Ok(View {
            seen: Seen::Failed,
            words: match cause {
                Some(cause) => cause,
                None => String::new(alloc),
            },
        })
    }
}

/// The type of the result of an operator.
fn result_of(operator: Operator) -> DataType {
    match operator {
        Operator::Add
        | Operator::Subtract
        | Operator::Multiply
        | Operator::Divide
        | Operator::Mod
        | Operator::Rem => DataType::Integer,
        _ => DataType::Boolean,
    }
}

/// The type of an expression that says it by its form.
fn type_by_form(expr: &Expr) -> Option<DataType> {
    match expr {
        Expr::Int(_) | Expr::Signed(_, _) => Some(DataType::Integer),
        Expr::Bool(_) | Expr::Running(_) | Expr::Ispresent(_) | Expr::Not(_) => {
            Some(DataType::Boolean)
        }
        Expr::Null | Expr::Reference(_) => None,
        Expr::Chain(_, links) => match links.as_slice().last() {
            Some(link) => Some(result_of(link.operator)),
            None => None,
        },
    }
}

/// The type of a value by itself.
fn type_of(value: &Value) -> Option<DataType> {
    match value {
        Value::Integer(_) => Some(DataType::Integer),
        Value::Boolean(_) => Some(DataType::Boolean),
        Value::Enumerated(at, _) => Some(DataType::Enumerated(*at)),
        Value::Record(at, _) => Some(DataType::Record(*at)),
        Value::Component(component) => Some(DataType::Component(component.component_type)),
        Value::Default(_) => Some(DataType::Default),
        Value::Null | Value::Omit => None,
    }
}

/// Whether what stands behind `from` sent a message: `null` sent none.
fn has_sent(wanted: &Value, sender: &Option<ComponentId>) -> bool {
    match (wanted, sender) {
        (Value::Component(wanted), Some(sender)) => wanted.path == sender.path,
        _ => false,
    }
}

impl<'a> Scene<'a> {
    /// Writes the name of a type.
    fn write_type(&self, out: &mut String, data_type: DataType) -> Result<(), AllocError> {
        match data_type {
            DataType::Integer => out.push_str("integer"),
            DataType::Boolean => out.push_str("boolean"),
            DataType::Default => out.push_str("default"),
            DataType::Record(at) | DataType::Enumerated(at) | DataType::Component(at) => {
                self.names.write_definition(out, at)
            }
        }
    }

    /// The type of the template of the module at a position.
    fn type_of_template(&self, at: usize) -> Option<DataType> {
        let template = self.defined.template(at)?;
        self.defined.resolved(&template.type_name)
    }

    /// The type of the template of a name.
    fn type_of_named(&self, sight: Sight<'_>, name: &Name) -> Option<DataType> {
        self.type_of_template(sight.template_of(name)?)
    }

    /// The type of an expression: by its form, or else by its value.
    fn type_of_expression(
        &self,
        alloc: Global,
        sight: Sight<'_>,
        expr: &Expr,
    ) -> Result<Option<DataType>, AllocError> {
        if let Some(data_type) = type_by_form(expr) {
            return Ok(Some(data_type));
        }
        match sight.value(alloc, expr)? {
            Some(value) => Ok(type_of(&value)),
            None => Ok(None),
        }
    }

    /// The type that a message must have by its template, where this says one by itself; else the port takes messages of one
    /// type alone, and that is the type of the message that was found. None where it isn't known.
    fn wanted_type(
        &self,
        alloc: Global,
        sight: Sight<'_>,
        written: &MessageTemplate,
        found: Option<DataType>,
    ) -> Result<Option<DataType>, AllocError> {
        if let Some(name) = &written.type_name {
            return Ok(self.defined.resolved(name));
        }
        match &written.template.get().body {
            TemplateBody::Call(call) => Ok(self.type_of_named(sight, &call.name)),
            TemplateBody::Expr(expr) => match sight.template_named(expr) {
                Some(at) => Ok(self.type_of_template(at)),
                None => self.type_of_expression(alloc, sight, expr),
            },
            _ => Ok(found),
        }
    }

    /// What stands first at a port: `the first message at net is {1, setup}`.
    fn front(&self, alloc: Global, queue: &Queue, message: &Message) -> Result<String, AllocError> {
        let mut text = String::from_str(alloc, "the first message at ")?;
        self.names.write_slot(&mut text, queue.port)?;
        text.push_str(" is ")?;
        self.names.write_value(&mut text, &message.value)?;
        Ok(text)
    }

    /// A message that is of another type than the wanted one.
    fn of_other_type(
        &self,
        alloc: Global,
        queue: &Queue,
        message: &Message,
        wanted: DataType,
    ) -> Result<View, AllocError> {
        let mut text = self.front(alloc, queue, message)?;
        text.push_str(", wanted is one of type ")?;
        self.write_type(&mut text, wanted)?;
        View::left(text)
    }

    /// Writes what a template wants of a message that it doesn't match: `release`, or `one` where it matches, where none stands,
    /// or where it has no value.
    fn write_wanted(
        &self,
        alloc: Global,
        out: &mut String,
        sight: Sight<'_>,
        receive: &Receive,
        message: &Message,
    ) -> Result<(), AllocError> {
        if let Some(written) = &receive.message {
            let (written, of) = (written.template.get(), type_of(&message.value));
            if let Some(template) = given(eval_template(alloc, written, of, &sight.frame))? {
                if !matches(&template, &message.value) {
                    return self.names.write_template(out, &template);
                }
            }
        }
        out.push_str("one")
    }

    /// A message that another one sent than the wanted one.
    fn from_other(
        &self,
        alloc: Global,
        sight: Sight<'_>,
        receive: &Receive,
        queue: &Queue,
        message: &Message,
        wanted: &Value,
    ) -> Result<View, AllocError> {
        let mut text = self.front(alloc, queue, message)?;
        match &message.sender {
            Some(sender) => {
                text.push_str(" from ")?;
                write_path(&mut text, &sender.path)?;
            }
            None => text.push_str(" from outside")?,
        }
        text.push_str(", wanted is ")?;
        self.write_wanted(alloc, &mut text, sight, receive, message)?;
        text.push_str(" from ")?;
        self.names.write_value(&mut text, wanted)?;
        View::left(text)
    }

    /// The template of a receive against a message in front of a port, whose type and sender are right.
    fn matched(
        &self,
        alloc: Global,
        sight: Sight<'_>,
        receive: &Receive,
        queue: &Queue,
        message: &Message,
    ) -> Result<View, AllocError> {
        let written = match &receive.message {
            Some(written) => written.template.get(),
            None => return View::taken(alloc),
        };
        let of = type_of(&message.value);
        match given(eval_template(alloc, written, of, &sight.frame))? {
            Some(template) => {
                if matches(&template, &message.value) {
                    return View::taken(alloc);
                }
                let mut text = self.front(alloc, queue, message)?;
                text.push_str(", wanted is ")?;
                self.names.write_template(&mut text, &template)?;
                View::left(text)
            }
            None => View::failed(alloc, sight.template(alloc, written)?),
        }
    }

    /// A receive against a message in front of a port whose type is right: its sender comes first.
    fn addressed(
        &self,
        alloc: Global,
        sight: Sight<'_>,
        behaviour: usize,
        receive: &Receive,
        queue: &Queue,
        message: &Message,
    ) -> Result<View, AllocError> {
        if let Some(reference) = &receive.from {
            match given(eval_component_reference(alloc, reference, &sight.frame))? {
                Some(wanted) => {
                    if !has_sent(&wanted, &message.sender) {
                        return self.from_other(alloc, sight, receive, queue, message, &wanted);
                    }
                }
                None => return View::failed(alloc, sight.component(alloc, reference)?),
            }
        }
        let view = self.matched(alloc, sight, receive, queue, message)?;
        match &receive.sender {
            Some(target) if view.seen == Seen::Taken => {
                self.stored(alloc, behaviour, target, queue, message)
            }
            _ => Ok(view),
        }
    }

    /// A message that matches, whose sender is to be stored: it must have one, of the type of the target.
    fn stored(
        &self,
        alloc: Global,
        behaviour: usize,
        target: &Reference,
        queue: &Queue,
        message: &Message,
    ) -> Result<View, AllocError> {
        let mut text = self.front(alloc, queue, message)?;
        let Some(sender) = &message.sender else {
            text.push_str(" from outside, and has no sender to store")?;
            return View::failed(alloc, Some(text));
        };
        match self.type_of_reference(alloc, behaviour, target)? {
            None => Ok(View {
                seen: Seen::Unsure,
                words: text,
            }),
            Some(wanted) if wanted == DataType::Component(sender.component_type) => {
                View::taken(alloc)
            }
            Some(wanted) => {
                text.push_str(" from ")?;
                write_path(&mut text, &sender.path)?;
                text.push_str(" of type ")?;
                self.names
                    .write_definition(&mut text, sender.component_type)?;
                text.push_str(", and ")?;
                write_reference(&mut text, target)?;
                text.push_str(" is of type ")?;
                self.write_type(&mut text, wanted)?;
                View::failed(alloc, Some(text))
            }
        }
    }

    /// A receive against what stands first at a port.
    fn at_port(
        &self,
        alloc: Global,
        sight: Sight<'_>,
        behaviour: usize,
        receive: &Receive,
        queue: &Queue,
    ) -> Result<View, AllocError> {
        let message = match queue.messages.as_slice().first() {
            Some(message) => message,
            None => {
                let mut text = String::from_str(alloc, "nothing waits at ")?;
                self.names.write_slot(&mut text, queue.port)?;
                return View::left(text);
            }
        };
        let found = type_of(&message.value);
        let wanted = match &receive.message {
            Some(written) => self.wanted_type(alloc, sight, written, found)?,
            None => found,
        };
        match (wanted, found) {
            (Some(wanted), Some(found)) => {
                if wanted != found {
                    return self.of_other_type(alloc, queue, message, wanted);
                }
                self.addressed(alloc, sight, behaviour, receive, queue, message)
            }
            _ => Ok(View {
                seen: Seen::Unsure,
                words: self.front(alloc, queue, message)?,
            }),
        }
    }

    /// A receive at any port: the ports in their order.
    fn at_any_port(
        &self,
        alloc: Global,
        sight: Sight<'_>,
        behaviour: usize,
        receive: &Receive,
    ) -> Result<View, AllocError> {
        let mut words = String::new(alloc);
        let mut between = "";
        for queue in self.component.queues.get().as_slice() {
            let view = self.at_port(alloc, sight, behaviour, receive, queue)?;
            if view.seen != Seen::Left {
                return Ok(view);
            }
            words.push_str(between)?;
            words.push_str(view.words.as_str())?;
            between = "; ";
        }
        View::left(words)
    }

    /// A receive.
    fn received(
        &self,
        alloc: Global,
        sight: Sight<'_>,
        behaviour: usize,
        receive: &Receive,
    ) -> Result<View, AllocError> {
        match &receive.port {
            PortSelector::Any => self.at_any_port(alloc, sight, behaviour, receive),
            PortSelector::Named(name) => match self.queue(name) {
                Some(queue) => self.at_port(alloc, sight, behaviour, receive, queue),
                None => View::failed(alloc, None),
            },
        }
    }

    /// `t.timeout`
    fn timed_out(&self, alloc: Global, sight: Sight<'_>, name: &Name) -> Result<View, AllocError> {
        let words = match timer_state(name, &sight.frame) {
            Some(TimerState::Expired) => return View::taken(alloc),
            Some(TimerState::Running) => " runs and hasn't expired",
            Some(TimerState::Inactive) => " isn't running",
            None => return View::failed(alloc, None),
        };
        let mut text = String::new(alloc);
        write_name(&mut text, name)?;
        text.push_str(words)?;
        View::left(text)
    }

    /// Whether a component has ended, and how far it has come.
    fn ended(&self, alloc: Global, component: &ComponentId) -> Result<View, AllocError> {
        let words = match self.state(&component.path) {
            Some(State::Terminated) => return View::taken(alloc),
            Some(State::Running) => " still runs",
            Some(State::Created) => " was never started",
            None => return View::failed(alloc, None),
        };
        let mut text = String::new(alloc);
        write_path(&mut text, &component.path)?;
        text.push_str(words)?;
        View::left(text)
    }

    /// `c.done`
    fn done(
        &self,
        alloc: Global,
        sight: Sight<'_>,
        reference: &ComponentRef,
    ) -> Result<View, AllocError> {
        match given(eval_component(alloc, reference, &sight.frame))? {
            Some(component) => self.ended(alloc, &component),
            None => View::failed(alloc, sight.component(alloc, reference)?),
        }
    }

    /// `all component.done`
    fn all_done(&self, alloc: Global) -> Result<View, AllocError> {
        if self.component.itself.path != self.mtc.path {
            let text = "all component.done is asked elsewhere than on mtc";
            return View::failed(alloc, Some(String::from_str(alloc, text)?));
        }
        let mut text = String::new(alloc);
        let mut count: usize = 0;
        for path in self.running {
            if **path != self.mtc.path {
                count = count.saturating_add(1);
                if count <= MOST {
                    text.push_str(if count == 1 { "" } else { ", " })?;
                    write_path(&mut text, *path)?;
                }
            }
        }
        match count {
            0 => return View::taken(alloc),
            1 => text.push_str(" still runs")?,
            _ => {
                if count > MOST {
                    write!(text, " .. ({} more)", count.saturating_sub(MOST))?;
                }
                text.push_str(" still run")?;
            }
        }
        View::left(text)
    }

    /// What the component sees of an event.
    pub(crate) fn event(
        &self,
        alloc: Global,
        place: Place<'_>,
        event: &Event,
    ) -> Result<View, AllocError> {
        let sight = self.sight(place);
        match event {
            Event::Receive(receive) => self.received(alloc, sight, place.behaviour, receive),
            Event::Timeout(name) => self.timed_out(alloc, sight, name),
            Event::Done(reference) => self.done(alloc, sight, reference),
            Event::AllDone => self.all_done(alloc),
        }
    }
}
