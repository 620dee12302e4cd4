//! The runs of a test case, as a system.
ghost use Rattle.std.specs.Prelude.{◌≡◌, IfOk, map};
ghost use Rattle.std.specs.List.{All};
ghost use Rattle.ttcnx_runs.specs.Laws.{after-fits, ascending, first-fits, marks-below};
ghost use Rattle.ttcnx_runs.specs.Runs.{FitsRuns};
ghost use Rattle.ttcnx_runs.specs.SameConfigurations.{configuration_one};
ghost use Rattle.semantics.specs.Canonical.{canonical_graph};
ghost use Rattle.semantics.specs.Configurations.{badness};
ghost use Rattle.semantics.specs.LiveParts.{live_part};
ghost use Rattle.config_parts.specs.Legend.{config_by};
ghost use Rattle.ttcn_step.specs.Machines.{Fits, legend, said};

use crate::remembered::Remembered;
use crate::scheme::Scheme;
use crate::shortening::with_same_labels;
use crate::state::{State, hash_of};
use search_memory::{Interner, Memory};
use std::alloc::{AllocError, Global};
use std::marker::PhantomData;
use step_labels::Label;
use summary::System;
use ttcn_config::{Config, InternedConfig, canon_owned};
use ttcn_step::{Machine, Successor};
use ttcn_syntax::Verdict;

/// How many components are remembered at most, each as it sees something else, before that was of use.
const TRIAL: usize = 2_048;

/// And how many behind that.
const PLACES: usize = 65_536;

/// The runs of the test case of a machine, which `K` names.
#[derive(Drop)]
pub struct Runs<'t, 'a, 'p, K: Scheme> {
    pub(crate) machine: &'a Machine<'t>,
    /// Keeps the bytes of which configurations consist.
    pub(crate) interner: &'p Interner,
    /// What components do, by what they see.
    pub(crate) memory: Memory<Remembered<K>>,
    ghost is: { machine.now ≡ K.machine },
}

impl<'t, 'a, 'p, K: Scheme> Runs<'t, 'a, 'p, K> {
    pub fn new(
        alloc: Global,
        machine: &'a Machine<'t>,
        interner: &'p Interner,
    ) -> Runs<'t, 'a, 'p, K>
        requires { machine.now ≡ K.machine }
    {
        Runs {
            machine,
            interner,
            memory: Memory::new(alloc, TRIAL, PLACES),
        }
    }
}

/// The number of a verdict, from the best on.
pub fn mark_of(verdict: Verdict) -> u8
    ensures { result ≡ badness verdict }
{
    match verdict {
        Verdict::None => 0,
        Verdict::Pass => 1,
        Verdict::Inconc => 2,
        Verdict::Fail => 3,
        Verdict::Error => 4,
    }
}

/// The state of the canonical form of a configuration.
pub fn state_of<'p, K: Scheme>(
    alloc: Global,
    machine: &Machine<'_>,
    interner: &'p Interner,
    config: Config,
) -> Result<State<'p, K>, AllocError>
    requires is { machine.now ≡ K.machine }
    requires fits { Fits machine.now config }
    ensures { IfOk result (λ state. state ≡ live_part (config_by (legend K.machine) config)) }
{
    machine.lists_and_names_differ();
    let goes_on = !machine.is_stuck(alloc, &config)?;
    let config = canon_owned(alloc, config)?;
    let packed = InternedConfig::new(alloc, interner, &config)?;
    Ok(State {
        hash: hash_of(&packed),
        packed,
        goes_on,
        by: u8::MAX,
        of: PhantomData,
    })
}

/// Enabled labels, each with the state to which it leads.
fn pairs_of<'p, K: Scheme>(
    alloc: Global,
    machine: &Machine<'_>,
    interner: &'p Interner,
    found: Vec<Successor>,
) -> Result<Vec<(Label, State<'p, K>)>, AllocError>
    requires is { machine.now ≡ K.machine }
    requires fits { All (λ s. Fits machine.now s.config) found.items }
    ensures { IfOk result (λ pairs. pairs.items ≡ map (λ s. (s.label, live_part (said K.machine s.config))) found.items) }
{
    let mut pairs = Vec::with_capacity(alloc, found.len())?;
    for Successor { label, config } in found {
        let after = state_of(alloc, machine, interner, config)?;
        pairs.push((label, after))?;
    }
    Ok(pairs)
}

impl<'t, 'a, 'p, K: Scheme + Send + Sync> System for Runs<'t, 'a, 'p, K> {
    type State = State<'p, K>;

    type Label = Label;

    ghost graph = { λ _. canonical_graph K.machine.test };

    ghost fits = { λ _ state. FitsRuns state };

    fn start(&self, alloc: Global) -> Result<State<'p, K>, AllocError> {
        let config = self.machine.start(alloc)?;
        state_of(alloc, self.machine, self.interner, config)
    }

    fn labels(&self, alloc: Global, state: &State<'p, K>) -> Result<Vec<Label>, AllocError> {
        let config = with_same_labels::<K>(alloc, &state.packed)?;
        self.machine.labels(alloc, &config)
    }

    fn next(
        &self,
        alloc: Global,
        state: &State<'p, K>,
        label: &Label,
    ) -> Result<State<'p, K>, AllocError> {
        let config = state.packed.config(alloc)?;
        match self.machine.next(alloc, &config, label) {
            Ok(after) => state_of(alloc, self.machine, self.interner, after),
            Err(_) => Err(AllocError),
        }
    }

    fn successors(
        &self,
        alloc: Global,
        state: &State<'p, K>,
    ) -> Result<Vec<(Label, State<'p, K>)>, AllocError> {
        let config = state.packed.config(alloc)?;
        let found = self.machine.successors(alloc, &config)?;
        pairs_of(alloc, self.machine, self.interner, found)
    }

    fn copy(&self, alloc: Global, label: &Label) -> Result<Label, AllocError> {
        label.try_clone(alloc)
    }

    fn mark(&self, state: &State<'p, K>) -> Option<u8> {
        state.packed.verdict().map(mark_of)
    }

    ghost same = { λ _ s t _ _ equal. configuration_one s t equal };

    ghost ascending = { λ _ s fits. ascending K.machine.test s fits };

    ghost first_fits = { λ _. first-fits K.machine.test };

    ghost after_fits = { λ _ s label fits _. after-fits K.machine.test s label fits };

    ghost marks_below_8 = { λ _ s _. marks-below s };
}
