//! What an expression gives (ES 201 873-1, section 7).
ghost use Rattle.std.specs.Prelude.{◌≡◌, map};
ghost use Rattle.value_types.specs.Evaluation.{after, joined, link, value_of};
ghost use Rattle.ttcn_values.specs.internal.Readers.{KnowsConstants, read_by, wanted_of};
ghost use Rattle.value_types.specs.Outcomes.{Answers, Gives, Yields};
ghost use Rattle.value_types.specs.Readings.{component_at, component_runs};

use super::record::{value_of_new, value_of_stored};
use super::{Origin, Reader, Use};
use crate::operators::{apply, is_decided, negate, number, sign};
use crate::{Fault, Value};
use std::alloc::Global;
use ttcn_syntax::{ComponentRef, Expr, Link, Reference};

impl Reader<'_> {
    /// Whether the component runs that a value refers to.
    fn component_runs(&self, value: &Value) -> Result<Value, Fault>
        ensures gives { Gives (component_runs (read_by self.now) value.now) result }
        ensures answers { Answers result }
    {
        match value {
            Value::Component(id) => Ok(Value::Boolean(self.runs(&id.path))),
            _ => Err(Fault::Dynamic),
        }
    }

    /// What an expression gives.
    #[cycle(reader)]
    #[tactic(auto, using(value_types::proofs::Outcomes::outcome_forms))]
    pub(crate) fn evaluate(&self, alloc: Global, expr: &Expr) -> Result<Value, Fault>
        requires { KnowsConstants self.now }
        ensures { Gives (value_of expr.now (read_by self.now)) result }
    {
        match expr {
            Expr::Int(digits) => number(*digits),
            Expr::Bool(truth) => Ok(Value::Boolean(*truth)),
            Expr::Null => Ok(Value::Null),
            Expr::Reference(component) => self.component(alloc, component),
            Expr::Running(component) => match self.timer(component) {
                Some(runs) => Ok(Value::Boolean(runs)),
                None => self.component_runs(&self.component(alloc, component)?),
            },
            Expr::Ispresent(reference) => self.read(alloc, reference, Use::Presence),
            Expr::Not(operand) => negate(&self.evaluate(alloc, operand.get())?),
            Expr::Signed(mark, operand) => sign(*mark, &self.evaluate(alloc, operand.get())?),
            Expr::Chain(first, links) => {
                let first = self.evaluate(alloc, first.get())?;
                self.chain(alloc, first, links.as_slice())
            }
        }
    }

    /// What operators and operands behind a value give.
    #[cycle(reader)]
    fn chain(&self, alloc: Global, first: Value, links: &[Link]) -> Result<Value, Fault>
        requires { KnowsConstants self.now }
        ensures { Gives (after (read_by self.now) (Yields first) (map link links.now)) result }
    {
        let mut value = first;
        for next in links {
            value = self.link(alloc, value, next)?;
        }
        Ok(value)
    }

    /// What an operator and an operand behind a value give. They count for nothing where the value decides.
    #[cycle(reader)]
    #[tactic(auto, using(value_types::proofs::Outcomes::outcome_forms))]
    fn link(&self, alloc: Global, left: Value, next: &Link) -> Result<Value, Fault>
        requires { KnowsConstants self.now }
        ensures { Gives (joined (read_by self.now) (link next.now) left) result }
    {
        if is_decided(next.operator, &left) {
            return Ok(left);
        }
        let right = self.evaluate(alloc, &next.operand)?;
        apply(next.operator, &left, &right)
    }

    /// A component, or what a name stands for.
    #[cycle(reader)]
    pub(crate) fn component(&self, alloc: Global, component: &ComponentRef) -> Result<Value, Fault>
        requires { KnowsConstants self.now }
        ensures { Gives (component_at (read_by self.now) component.now) result }
    {
        match component {
            ComponentRef::Itself => Ok(Value::Component(self.frame.itself.try_clone(alloc)?)),
            ComponentRef::Mtc => Ok(Value::Component(self.frame.mtc.try_clone(alloc)?)),
            ComponentRef::Named(reference) => self.read(alloc, reference, Use::Value),
        }
    }

    /// What a reference is read for: the value that it leads to, or whether it leads to one.
    #[cycle(reader)]
    #[tactic(auto, using(crate::proofs::Uses::taken_of_failure, crate::proofs::Uses::taken_alike))]
    pub(crate) fn read(
        &self,
        alloc: Global,
        reference: &Reference,
        wanted: Use,
    ) -> Result<Value, Fault>
        requires { KnowsConstants self.now }
        ensures { Gives (wanted_of wanted (read_by self.now) reference.now) result }
    {
        let definitions = self.frame.definitions;
        let fields = reference.fields.as_slice();
        match self.origin(&reference.name) {
            Origin::Constant(at, item) => match self.result_of(at, item) {
                Some(Ok(value)) => value_of_stored(alloc, definitions, wanted, Some(value), fields),
                Some(Err(fault)) => Err(*fault),
                None => {
                    let value = self.constant(alloc, at, item)?;
                    value_of_new(alloc, definitions, wanted, Some(value), fields)
                }
            },
            Origin::Enumerator(value) => value_of_new(alloc, definitions, wanted, value, fields),
            Origin::Local(value) => value_of_stored(alloc, definitions, wanted, value, fields),
        }
    }
}
