//! What expressions, values and templates give, and what matches.
#![tactic(auto)]

mod evaluation;
mod matching;
mod named;
mod operators;
mod reader;

pub use evaluation::{
    eval, eval_arguments, eval_component, eval_component_reference, eval_condition, eval_reference,
    eval_template, eval_value, timer_runs,
};
pub use matching::matches;
pub use value_types::{
    ComponentId, Fault, Frame, Path, Pattern, Slot, Template, TimerState, Value,
    equal_templates_are_one, equal_values_are_one, timer_state,
};
