//! Why a statement is a dynamic error (ES 201 873-1, 19 to 23).
use crate::choice::Judged;
use crate::event::Seen;
use crate::names::{write_name, write_path};
use crate::outcome::given;
use crate::scene::Scene;
use crate::sight::Sight;
use std::alloc::{AllocError, Global};
use ttcn_syntax::{
    Action, Assignment, Call, ComponentRef, Conditional, Constant, Expr, ForStart, MapOperation,
    Mapping, Name, PortRef, Reference, Rhs, Send, Span, Statement, Variable,
};
use ttcn_values::{eval_component, timer_runs};
use value_types::ComponentId;

/// Why a step is a dynamic error: the place of the statement or of the branch, and the words, which are empty where the cause
/// isn't found.
#[derive(Drop)]
pub struct Cause {
    pub place: Span,
    pub words: String,
}

/// The one cause, where there is no other.
fn alone(causes: Vec<String>) -> Option<String> {
    let mut causes = causes;
    let last = causes.pop()?;
    if causes.iter().all(|cause| *cause == last) {
        Some(last)
    } else {
        None
    }
}

impl<'a> Sight<'a> {
    /// Why what stands on the right of `:=` is a dynamic error.
    fn right(&self, alloc: Global, right: &Rhs) -> Result<Option<String>, AllocError> {
        match right {
            Rhs::Value(value) => self.written(alloc, value),
            Rhs::Call(call) | Rhs::Activate(call) => self.arguments(alloc, call),
            Rhs::Create(name) => self.creation(alloc, name),
        }
    }

    /// Why the arguments of a call are a dynamic error.
    fn arguments(&self, alloc: Global, call: &Call) -> Result<Option<String>, AllocError> {
        self.values(alloc, call.arguments.as_slice())
    }

    /// Why an assignment is a dynamic error.
    fn assignment(
        &self,
        alloc: Global,
        assignment: &Assignment,
    ) -> Result<Option<String>, AllocError> {
        self.right(alloc, assignment.value.get())
    }

    /// Why variables are a dynamic error, each that is one.
    fn push_variables(
        &self,
        alloc: Global,
        variables: &[Variable],
        causes: &mut Vec<String>,
    ) -> Result<(), AllocError> {
        for variable in variables {
            if let Some(right) = &variable.value {
                if let Some(cause) = self.right(alloc, right)? {
                    causes.push(cause)?;
                }
            }
        }
        Ok(())
    }

    /// Why one of variables is a dynamic error, where no other is by another cause: which of them is declared now isn't known.
    fn variables(
        &self,
        alloc: Global,
        variables: &[Variable],
    ) -> Result<Option<String>, AllocError> {
        let mut causes = Vec::new(alloc);
        self.push_variables(alloc, variables, &mut causes)?;
        Ok(alone(causes))
    }

    /// Why the first of constants is a dynamic error that is one: those before it keep their values.
    fn constants(
        &self,
        alloc: Global,
        constants: &[Constant],
    ) -> Result<Option<String>, AllocError> {
        for constant in constants {
            if let Some(cause) = self.written(alloc, &constant.value)? {
                return Ok(Some(cause));
            }
        }
        Ok(None)
    }

    /// Why one of conditions is a dynamic error, where no other is by another cause: which of them is tested now isn't known.
    fn conditions(
        &self,
        alloc: Global,
        conditionals: &[Conditional],
    ) -> Result<Option<String>, AllocError> {
        let mut causes = Vec::new(alloc);
        for conditional in conditionals {
            if let Some(cause) = self.expression(alloc, &conditional.condition)? {
                causes.push(cause)?;
            }
        }
        Ok(alone(causes))
    }

    /// Why a part of a `for` is a dynamic error, where no other is by another cause: which of them is done now isn't known.
    fn head(
        &self,
        alloc: Global,
        start: &ForStart,
        condition: &Expr,
        step: &Assignment,
    ) -> Result<Option<String>, AllocError> {
        let mut causes = Vec::new(alloc);
        match start {
            ForStart::Variables(declared) => {
                self.push_variables(alloc, declared.variables.as_slice(), &mut causes)?;
            }
            ForStart::Assign(assignment) => {
                if let Some(cause) = self.assignment(alloc, assignment)? {
                    causes.push(cause)?;
                }
            }
        }
        if let Some(cause) = self.expression(alloc, condition)? {
            causes.push(cause)?;
        }
        if let Some(cause) = self.assignment(alloc, step)? {
            causes.push(cause)?;
        }
        Ok(alone(causes))
    }

    /// Why it is a dynamic error to stop what a reference means, a timer or a component.
    fn stopping(
        &self,
        alloc: Global,
        component: &ComponentRef,
    ) -> Result<Option<String>, AllocError> {
        match timer_runs(component, &self.frame) {
            Some(_) => Ok(None),
            None => self.component(alloc, component),
        }
    }

    /// Why a component can't be started where it is asked for: it is none, or its function's arguments.
    fn starting(
        &self,
        alloc: Global,
        component: &ComponentRef,
        call: &Call,
    ) -> Result<Option<String>, AllocError> {
        match self.component(alloc, component)? {
            Some(cause) => Ok(Some(cause)),
            None => self.arguments(alloc, call),
        }
    }

    /// Why a message can't be sent where it is asked for: its template, the component that it is meant for, or that it isn't
    /// one value.
    fn sending(&self, alloc: Global, send: &Send) -> Result<Option<String>, AllocError> {
        if let Some(cause) = self.template(alloc, send.message.template.get())? {
            return Ok(Some(cause));
        }
        if let Some(to) = &send.to {
            if let Some(cause) = self.component(alloc, to)? {
                return Ok(Some(cause));
            }
        }
        let text = "what is sent stands for more than one value";
        Ok(Some(String::from_str(alloc, text)?))
    }

    /// Why a reference to a default is a dynamic error.
    fn default(
        &self,
        alloc: Global,
        reference: &Option<Reference>,
    ) -> Result<Option<String>, AllocError> {
        match reference {
            Some(reference) => self.presence(alloc, reference),
            None => Ok(None),
        }
    }
}

impl<'a> Scene<'a> {
    /// Why a port of a component isn't there: `mtc.1 has no port net`.
    fn without_port(
        &self,
        alloc: Global,
        component: &ComponentId,
        port: &Name,
    ) -> Result<Option<String>, AllocError> {
        let slot = self.names.slot_of(port);
        if let (Some(slot), Some(found)) = (slot, self.other(&component.path)) {
            let queues = found.queues.get().as_slice();
            if queues.iter().any(|queue| queue.port == slot) {
                return Ok(None);
            }
        }
        let mut text = String::new(alloc);
        write_path(&mut text, &component.path)?;
        text.push_str(" has no port ")?;
        write_name(&mut text, port)?;
        Ok(Some(text))
    }

    /// Why two ports of components that are there can't be connected: one isn't there, they are one, or by their types.
    fn unsuited(
        &self,
        alloc: Global,
        one: &ComponentId,
        port: &Name,
        other: &ComponentId,
        other_port: &Name,
    ) -> Result<Option<String>, AllocError> {
        if let Some(cause) = self.without_port(alloc, one, port)? {
            return Ok(Some(cause));
        }
        if let Some(cause) = self.without_port(alloc, other, other_port)? {
            return Ok(Some(cause));
        }
        let text = if one.path == other.path && *port == *other_port {
            "a port is connected to itself"
        } else {
            "one of the ports sends a type that the other doesn't receive"
        };
        Ok(Some(String::from_str(alloc, text)?))
    }

    /// Why two ports can't be connected where it is asked for.
    fn connection(
        &self,
        alloc: Global,
        sight: Sight<'_>,
        one: &PortRef,
        other: &PortRef,
    ) -> Result<Option<String>, AllocError> {
        if let Some(cause) = sight.component(alloc, &one.component)? {
            return Ok(Some(cause));
        }
        if let Some(cause) = sight.component(alloc, &other.component)? {
            return Ok(Some(cause));
        }
        let first = given(eval_component(alloc, &one.component, &sight.frame))?;
        let second = given(eval_component(alloc, &other.component, &sight.frame))?;
        match (first, second) {
            (Some(first), Some(second)) => {
                self.unsuited(alloc, &first, &one.port, &second, &other.port)
            }
            _ => Ok(None),
        }
    }

    /// Why a port can't be mapped where it is asked for.
    fn mapped(
        &self,
        alloc: Global,
        sight: Sight<'_>,
        mapping: &Mapping,
    ) -> Result<Option<String>, AllocError> {
        if let Some(cause) = sight.component(alloc, &mapping.port.component)? {
            return Ok(Some(cause));
        }
        let found = given(eval_component(alloc, &mapping.port.component, &sight.frame))?;
        if let (Some(component), MapOperation::Map) = (found, mapping.operation) {
            if let Some(cause) = self.without_port(alloc, &component, &mapping.port.port)? {
                return Ok(Some(cause));
            }
            let text =
                "the system port isn't there, or one of the two ports sends a type that the other doesn't pass on";
            return Ok(Some(String::from_str(alloc, text)?));
        }
        Ok(None)
    }

    /// The branch that is a dynamic error, and why, where one is.
    fn failed_branch(
        &self,
        alloc: Global,
        statement: &Statement,
    ) -> Result<Option<Cause>, AllocError> {
        let mut judged = self.judged(alloc, statement)?;
        match judged.pop() {
            Some(last) => {
                let Judged { place, seen, words } = last;
                if seen == Seen::Failed {
                    Ok(Some(Cause { place, words }))
                } else {
                    Ok(None)
                }
            }
            None => Ok(None),
        }
    }

    /// Why a part of a statement is a dynamic error.
    fn action(
        &self,
        alloc: Global,
        sight: Sight<'_>,
        statement: &Statement,
    ) -> Result<Option<String>, AllocError> {
        match statement.action.get() {
            Action::Variables(declared) => sight.variables(alloc, declared.variables.as_slice()),
            Action::Constants(declared) => sight.constants(alloc, declared.constants.as_slice()),
            Action::Assign(assignment) => sight.assignment(alloc, assignment),
            Action::Call(call) => sight.arguments(alloc, call),
            Action::If(conditionals, _) => sight.conditions(alloc, conditionals.as_slice()),
            Action::While(condition, _) | Action::DoWhile(_, condition) => {
                sight.expression(alloc, condition)
            }
            Action::For(start, condition, step, _) => sight.head(alloc, start, condition, step),
            Action::Return(Some(value)) => sight.written(alloc, value),
            Action::Connect(one, other) => self.connection(alloc, sight, one, other),
            Action::Map(mapping) => self.mapped(alloc, sight, mapping),
            Action::Send(send) => sight.sending(alloc, send),
            Action::StartComponent(component, call) => sight.starting(alloc, component, call),
            Action::StopOf(component) => sight.stopping(alloc, component),
            Action::Activate(call) => sight.arguments(alloc, call),
            Action::Deactivate(reference) => sight.default(alloc, reference),
            _ => Ok(None),
        }
    }

    /// Why it is a dynamic error that the component does what a statement says at which it stands.
    pub fn cause(&self, alloc: Global, statement: &Statement) -> Result<Cause, AllocError> {
        if let Some(cause) = self.failed_branch(alloc, statement)? {
            return Ok(cause);
        }
        let sight = self.sight(self.last_place(statement.place));
        let words = match self.action(alloc, sight, statement)? {
            Some(words) => words,
            None => String::new(alloc),
        };
        Ok(Cause {
            place: statement.place,
            words,
        })
    }
}
