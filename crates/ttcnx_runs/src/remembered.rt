//! What is remembered of a component.
ghost use Rattle.ttcnx_runs.specs.Remembered.{AreOutcomes};

use crate::outcome::Outcome;
use crate::scheme::Scheme;
use search_memory::Keyed;
use std::marker::PhantomData;

/// The steps of a component, by the key of what it sees.
#[derive(Drop)]
pub struct Remembered<K: Scheme> {
    pub(crate) key: Vec<u8>,
    pub(crate) outcomes: Vec<Outcome>,
    pub(crate) of: PhantomData<K>,
    ghost right: { ∥ AreOutcomes K.machine key.items outcomes.items ∥₁ },
}

impl<K: Scheme> Keyed for Remembered<K> {
    ghost key = { λ remembered. remembered.key.items };

    fn key(&self) -> &[u8] {
        self.key.as_slice()
    }
}
