//! The last step of each state's least run.
ghost use Rattle.std.specs.Prelude.{◌≡◌, [], ◌∷◌, ◌++◌, None, Some, get_or, option_map, OnOk, OnErr};

use crate::visited::Step;
use std::alloc::{AllocError, Global};
use std::marker::Model;

/// For each state that was found the last step of its least run. The first state has none. Contracts see what `at` gives, for
/// all places in order.
#[derive(Drop)]
pub struct Lasts<L> {
    /// Those of all states but the first one.
    steps: Vec<Step<L>>,
}

impl<L> Model for Lasts<L> {
    ghost use Rattle.std.specs.Prelude.{List, Option, ◌∷◌, map, None, Some};
    ghost use Rattle.search_layer.specs.declared.visited.Step.{Step};
    ghost use Rattle.search_layer.specs.Lasts.{lasts_code};

    ghost Value = { List (Option (Step L)) };

    ghost coded = { lasts_code L.code };

    ghost view = { λ lasts. None ∷ map Some lasts.steps.items };
}

impl<L> Lasts<L> {
    /// The last step to the state at a place, unless that is the first one.
    pub fn at(&self, place: usize) -> Option<&Step<L>>
        ensures { option_map (λ step. step.now) result ≡ get_or self.now place None }
    {
        let steps = self.steps.as_slice();
        steps.get(place.checked_sub(1)?)
    }
}

impl<L: Drop> Lasts<L> {
    /// Of the first state alone.
    pub fn new(alloc: Global) -> Lasts<L>
        ensures { result ≡ None ∷ [] }
    {
        Lasts {
            steps: Vec::new(alloc),
        }
    }

    /// Adds the last step to one more state.
    pub fn push(&mut self, step: Step<L>) -> Result<(), AllocError>
        ensures pushed { OnOk result (self.new ≡ self.old ++ Some step ∷ []) }
        ensures refused { OnErr result (self.new ≡ self.old) }
    {
        self.steps.push(step)?;
        Ok(())
    }
}
