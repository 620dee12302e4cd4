//! What the names give that the module doesn't define.
ghost use Rattle.std.specs.Prelude.{◌≡◌};
ghost use Rattle.std.specs.Option.{option_map};
ghost use Rattle.value_types.specs.Chains.{given_to};
ghost use Rattle.ttcn_values.specs.internal.Readers.{origin_value, read_by};
ghost use Rattle.value_types.specs.Outcomes.{value_in};
ghost use Rattle.value_types.specs.Readings.{named, timer_at};

use super::record::enumerated;
use super::{Origin, Reader, Visible};
use crate::named::position_of;
use crate::{Path, TimerState, Value, timer_state};
use check_rules::Meaning;
use ttcn_syntax::{ComponentRef, Name, Parameter};
use value_types::seen_entry;

/// What the parameter of a name is given.
#[tactic(auto, using(value_types::proofs::Outcomes::outcome_forms))]
fn given<'a>(parameters: &[Parameter], values: &'a [Value], name: &Name) -> Option<&'a Value>
    ensures { option_map (λ value. value.now) result ≡ value_in (given_to parameters.now values.now name.now) }
{
    values.get(position_of(parameters, name)?)
}

impl<'a> Reader<'a> {
    /// The value of a name, if it has one.
    #[tactic(auto, using(value_types::proofs::Outcomes::outcome_forms))]
    pub(super) fn name(&self, name: &Name) -> Option<&'a Value>
        ensures { option_map (λ value. value.now) result ≡ value_in ((read_by self.now).names name.now) }
    {
        match self.visible {
            Visible::Frame => {
                let frame = self.frame;
                seen_entry(frame.names, frame.locals, frame.members, name)
            }
            Visible::Nothing => None,
            Visible::Parameters(parameters, values) => given(parameters, values, name),
        }
    }

    /// Whether the timer runs that is meant, if one is: a name without fields may be that of a timer.
    pub(crate) fn timer(&self, component: &ComponentRef) -> Option<bool>
        ensures { result ≡ timer_at (read_by self.now) component.now }
    {
        let ComponentRef::Named(reference) = component else {
            return None;
        };
        let Visible::Frame = self.visible else {
            return None;
        };
        if reference.fields.len() > 0 {
            return None;
        }
        let state = timer_state(&reference.name, self.frame)?;
        Some(state == TimerState::Running)
    }

    /// Whether a component runs.
    pub(super) fn runs(&self, path: &Path) -> bool
        ensures { result ≡ (read_by self.now).running path.now }
    {
        self.frame.running.iter().any(|other| path == *other)
    }

    /// What a name stands for.
    #[tactic(auto, using(value_types::proofs::Outcomes::outcome_forms))]
    pub(super) fn origin(&self, name: &Name) -> Origin<'a>
        ensures { value_in (named (read_by self.now) name.now) ≡ value_in (origin_value (read_by self.now) result) }
    {
        let definitions = self.frame.definitions;
        match definitions.meaning(name.as_bytes()) {
            Some(Meaning::ModuleConstant(at, item)) => Origin::Constant(at, item),
            Some(Meaning::Enumerator(at)) => Origin::Enumerator(enumerated(definitions, at, name)),
            _ => Origin::Local(self.name(name)),
        }
    }
}
