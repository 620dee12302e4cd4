//! What a component sees of the branches at which it stands (ES 201 873-1, 16.2, 20.2 and 20.5).
use crate::event::{Seen, View};
use crate::outcome::given;
use crate::scene::{Place, Scene};
use crate::sight::Sight;
use check_rules::{Meaning, parameters_of};
use config_parts::ActiveDefault;
use std::alloc::{AllocError, Global};
use ttcn_syntax::{
    Action, Alternative, Branch, Call, ComponentRef, DefinitionKind, Event, Expr, Name, Span,
    Statement,
};
use ttcn_values::{eval_arguments, eval_condition};
use value_types::{Slot, Value};

/// Altsteps call each other in chains of so many at most.
const LONGEST_CHAIN: usize = 200;

/// No more values of names are shown behind a guard.
const MOST: usize = 3;

/// What a component sees of a branch.
#[derive(Drop)]
pub struct Judged {
    /// Where the branch stands, or the statement that is one.
    pub place: Span,
    pub seen: Seen,
    /// Why it isn't taken, or why it is a dynamic error, where that is found.
    pub words: String,
}

/// The branches of an altstep.
fn branches_at(kind: Option<&DefinitionKind>) -> &[Branch] {
    match kind {
        Some(DefinitionKind::Altstep(altstep)) => altstep.branches.as_slice(),
        _ => &[],
    }
}

/// One branch more. Gives whether the next one is looked at, too.
fn push(judged: &mut Vec<Judged>, place: Span, view: View) -> Result<bool, AllocError> {
    let View { seen, words } = view;
    judged.push(Judged { place, seen, words })?;
    Ok(seen == Seen::Left)
}

impl<'a> Sight<'a> {
    /// The names in an expression, each with its value: `owner is mtc.2`.
    fn push_readings(
        &self,
        alloc: Global,
        expr: &Expr,
        readings: &mut Vec<String>,
    ) -> Result<(), AllocError> {
        match expr {
            Expr::Int(_) | Expr::Bool(_) | Expr::Null | Expr::Ispresent(_) => Ok(()),
            Expr::Reference(component) | Expr::Running(component) => {
                self.push_reading(alloc, component, readings)
            }
            Expr::Not(operand) | Expr::Signed(_, operand) => {
                self.push_readings(alloc, operand.get(), readings)
            }
            Expr::Chain(first, links) => {
                self.push_readings(alloc, first.get(), readings)?;
                for link in links.as_slice() {
                    self.push_readings(alloc, &link.operand, readings)?;
                }
                Ok(())
            }
        }
    }

    /// A name with its value, unless it is there.
    fn push_reading(
        &self,
        alloc: Global,
        component: &ComponentRef,
        readings: &mut Vec<String>,
    ) -> Result<(), AllocError> {
        if readings.len() < MOST {
            if let Some(reading) = self.reading(alloc, component)? {
                if !readings.iter().any(|other| *other == reading) {
                    readings.push(reading)?;
                }
            }
        }
        Ok(())
    }

    /// A guard that is false, with the values of its names.
    fn false_guard(&self, alloc: Global, guard: &Expr) -> Result<String, AllocError> {
        let mut readings = Vec::new(alloc);
        self.push_readings(alloc, guard, &mut readings)?;
        let mut text = String::from_str(alloc, "the guard is false")?;
        let mut between = ": ";
        for reading in &readings {
            text.push_str(between)?;
            text.push_str(reading.as_str())?;
            between = ", ";
        }
        Ok(text)
    }
}

impl<'a> Scene<'a> {
    /// What is seen of a guard, which is true where none stands.
    fn guard(
        &self,
        alloc: Global,
        place: Place<'_>,
        guard: &Option<Expr>,
    ) -> Result<View, AllocError> {
        let guard = match guard {
            Some(guard) => guard,
            None => return View::taken(alloc),
        };
        let sight = self.sight(place);
        match given(eval_condition(alloc, guard, &sight.frame))? {
            Some(true) => View::taken(alloc),
            Some(false) => View::left(sight.false_guard(alloc, guard)?),
            None => View::failed(alloc, sight.expression(alloc, guard)?),
        }
    }

    /// The values of the parameters of the behaviour at a position.
    fn parameters(
        &self,
        alloc: Global,
        at: usize,
        values: &[Value],
    ) -> Result<Vec<(Slot, Value)>, AllocError> {
        let mut cells = Vec::new(alloc);
        let parameters = parameters_of(self.defined.kind(at));
        for (parameter, value) in parameters.iter().zip(values) {
            if let Some(slot) = self.names.slot_of(&parameter.name) {
                cells.push((slot, value.try_clone(alloc)?))?;
            }
        }
        Ok(cells)
    }

    /// The branches of the altstep at a position with these arguments.
    #[cycle(judging)]
    fn judge_altstep(
        &self,
        alloc: Global,
        at: usize,
        values: &[Value],
        levels: usize,
        judged: &mut Vec<Judged>,
    ) -> Result<bool, AllocError> {
        if levels == 0 {
            return Ok(false);
        }
        let cells = self.parameters(alloc, at, values)?;
        let place = Place {
            behaviour: at,
            values: cells.as_slice(),
            timers: &[],
        };
        let branches = branches_at(self.defined.kind(at));
        self.judge_branches(alloc, place, branches, levels - 1, judged)
    }

    /// A call of an altstep at a place in the text: its arguments come first.
    #[cycle(judging)]
    fn judge_call(
        &self,
        alloc: Global,
        place: Place<'_>,
        span: Span,
        call: &Call,
        levels: usize,
        judged: &mut Vec<Judged>,
    ) -> Result<bool, AllocError> {
        let at = match self.altstep_named(&call.name) {
            Some(at) => at,
            None => return Ok(false),
        };
        let sight = self.sight(place);
        let parameters = parameters_of(self.defined.kind(at));
        let arguments = call.arguments.as_slice();
        let values = eval_arguments(alloc, parameters, arguments, &sight.frame);
        match given(values)? {
            Some(values) => self.judge_altstep(alloc, at, values.as_slice(), levels, judged),
            None => {
                let cause = sight.values(alloc, arguments)?;
                push(judged, span, View::failed(alloc, cause)?)
            }
        }
    }

    /// Branches, up to the first that can be taken. Gives whether none can be.
    #[cycle(judging)]
    fn judge_branches(
        &self,
        alloc: Global,
        place: Place<'_>,
        branches: &[Branch],
        levels: usize,
        judged: &mut Vec<Judged>,
    ) -> Result<bool, AllocError> {
        for branch in branches {
            if !self.judge_branch(alloc, place, branch, levels, judged)? {
                return Ok(false);
            }
        }
        Ok(true)
    }

    /// A branch. Gives whether the next one is looked at, too.
    #[cycle(judging)]
    fn judge_branch(
        &self,
        alloc: Global,
        place: Place<'_>,
        branch: &Branch,
        levels: usize,
        judged: &mut Vec<Judged>,
    ) -> Result<bool, AllocError> {
        let span = branch.place;
        let guard = match branch.alternative.get() {
            Alternative::Event(guard, _, _) | Alternative::Call(guard, _, _) => {
                self.guard(alloc, place, guard)?
            }
            Alternative::Else(_) => View::taken(alloc)?,
        };
        if guard.seen != Seen::Taken {
            return push(judged, span, guard);
        }
        match branch.alternative.get() {
            Alternative::Event(_, event, _) => {
                push(judged, span, self.event(alloc, place, event)?)
            }
            Alternative::Call(_, call, _) => {
                self.judge_call(alloc, place, span, call, levels, judged)
            }
            Alternative::Else(_) => push(judged, span, guard),
        }
    }

    /// The altstep of a name.
    pub(crate) fn altstep_named(&self, name: &Name) -> Option<usize> {
        match self.defined.meaning(name.as_bytes()) {
            Some(Meaning::Altstep(at)) => Some(at),
            _ => None,
        }
    }

    /// The branches of active defaults, up to the first that can be taken.
    fn judge_defaults(
        &self,
        alloc: Global,
        defaults: &[ActiveDefault],
        judged: &mut Vec<Judged>,
    ) -> Result<(), AllocError> {
        for default in defaults {
            let values = default.arguments.as_slice();
            if !self.judge_altstep(alloc, default.altstep, values, LONGEST_CHAIN, judged)? {
                return Ok(());
            }
        }
        Ok(())
    }

    /// A lone event.
    fn judge_event(
        &self,
        alloc: Global,
        place: Place<'_>,
        span: Span,
        event: &Event,
        judged: &mut Vec<Judged>,
    ) -> Result<bool, AllocError> {
        push(judged, span, self.event(alloc, place, event)?)
    }

    /// What the component sees of the branches of a statement at which it stands, and behind them of those of its active
    /// defaults: all of them, or those up to the first of which it isn't known that it can't be taken. None where the
    /// statement is no `alt` and stands for none.
    pub fn judged(&self, alloc: Global, statement: &Statement) -> Result<Vec<Judged>, AllocError> {
        let mut judged = Vec::new(alloc);
        let (place, span) = (self.last_place(statement.place), statement.place);
        let none_taken = match statement.action.get() {
            Action::Alt(branches) => {
                let branches = branches.as_slice();
                self.judge_branches(alloc, place, branches, LONGEST_CHAIN, &mut judged)?
            }
            Action::Event(event) => self.judge_event(alloc, place, span, event, &mut judged)?,
            Action::Call(call) => {
                self.judge_call(alloc, place, span, call, LONGEST_CHAIN, &mut judged)?
            }
            _ => false,
        };
        if none_taken {
            let defaults = self.component.own.get().defaults.as_slice();
            self.judge_defaults(alloc, defaults, &mut judged)?;
        }
        Ok(judged)
    }
}
