//! What expressions, values and templates of the text give (ES 201 873-1, sections 7 and 15).
ghost use Rattle.std.specs.Prelude.{◌≡◌};
ghost use Rattle.value_types.specs.Evaluation.{condition_of, value_of};
ghost use Rattle.value_types.specs.Frames.{reading};
ghost use Rattle.ttcn_values.specs.internal.Readers.{KnowsConstants, read_by};
ghost use Rattle.value_types.specs.Literals.{value_wanted};
ghost use Rattle.value_types.specs.Outcomes.{Gives};
ghost use Rattle.value_types.specs.Readings.{component_at, component_referred, referred, timer_at};
ghost use Rattle.value_types.specs.Templates.{arguments, template_wanted};

use crate::reader::{Reader, Use, Visible};
use crate::{ComponentId, Fault, Frame, Template, Value};
use check_rules::DataType;
use std::alloc::Global;
use ttcn_syntax::{
    ComponentRef, Expr, Parameter, Reference, Seq, Template as WrittenTemplate,
    Value as WrittenValue,
};

/// Constants and templates of a program refer to each other in chains of at most so many.
const LONGEST_CHAIN: usize = 200;

impl<'a> Reader<'a> {
    /// A frame reads for itself.
    fn of(frame: &'a Frame<'a>) -> Reader<'a>
        ensures reads { read_by result ≡ reading frame.now }
        ensures knows { KnowsConstants result }
    {
        Reader {
            frame,
            visible: Visible::Frame,
            depth: LONGEST_CHAIN,
            constants: &[],
        }
    }
}

/// The value of an expression, or its dynamic error.
pub fn eval(alloc: Global, expr: &Expr, frame: &Frame<'_>) -> Result<Value, Fault>
    ensures { Gives (value_of expr.now (reading frame.now)) result }
{
    Reader::of(frame).evaluate(alloc, expr)
}

/// Whether a condition is true, or its dynamic error.
#[tactic(auto, using(value_types::proofs::Outcomes::outcome_forms))]
pub fn eval_condition(alloc: Global, condition: &Expr, frame: &Frame<'_>) -> Result<bool, Fault>
    ensures { Gives (condition_of condition.now (reading frame.now)) result }
{
    let value = eval(alloc, condition, frame)?;
    match &value {
        Value::Boolean(truth) => Ok(*truth),
        _ => Err(Fault::Dynamic),
    }
}

/// The value of a name, or of fields behind it, or its dynamic error.
pub fn eval_reference(
    alloc: Global,
    reference: &Reference,
    frame: &Frame<'_>,
) -> Result<Value, Fault>
    ensures { Gives (referred (reading frame.now) reference.now) result }
{
    Reader::of(frame).read(alloc, reference, Use::Value)
}

/// The value of a component reference, which may be `null`, or its dynamic error.
pub fn eval_component_reference(
    alloc: Global,
    component: &ComponentRef,
    frame: &Frame<'_>,
) -> Result<Value, Fault>
    ensures { Gives (component_at (reading frame.now) component.now) result }
{
    Reader::of(frame).component(alloc, component)
}

/// The component that a reference refers to, or its dynamic error: `null` refers to none.
#[tactic(auto, using(value_types::proofs::Outcomes::outcome_forms))]
pub fn eval_component(
    alloc: Global,
    component: &ComponentRef,
    frame: &Frame<'_>,
) -> Result<ComponentId, Fault>
    ensures { Gives (component_referred (reading frame.now) component.now) result }
{
    eval_component_reference(alloc, component, frame)?.into_component()
}

/// Whether the timer runs that a reference means, if it means one.
pub fn timer_runs(component: &ComponentRef, frame: &Frame<'_>) -> Option<bool>
    ensures { result ≡ timer_at (reading frame.now) component.now }
{
    Reader::of(frame).timer(component)
}

/// What arguments give for parameters, or the dynamic error of the first that has one.
pub fn eval_arguments(
    alloc: Global,
    parameters: &[Parameter],
    given: &[WrittenValue],
    frame: &Frame<'_>,
) -> Result<Seq<Value>, Fault>
    ensures { Gives (arguments (reading frame.now) parameters.now given.now) result }
{
    let values = Reader::of(frame).arguments(alloc, parameters, given)?;
    Ok(Seq::from_vec(values))
}

/// The value of what stands where a value of a type is wanted, or its dynamic error. `Value::Omit` is what `omit` gives.
pub fn eval_value(
    alloc: Global,
    value: &WrittenValue,
    wanted: Option<DataType>,
    frame: &Frame<'_>,
) -> Result<Value, Fault>
    ensures { Gives (value_wanted value.now (reading frame.now) wanted) result }
{
    Reader::of(frame).value(alloc, value, wanted)
}

/// The template of what stands where one of a type is wanted, or its dynamic error. Each of its expressions is evaluated.
pub fn eval_template(
    alloc: Global,
    template: &WrittenTemplate,
    wanted: Option<DataType>,
    frame: &Frame<'_>,
) -> Result<Template, Fault>
    ensures { Gives (template_wanted template.now (reading frame.now) wanted) result }
{
    Reader::of(frame).template(alloc, template, wanted)
}
