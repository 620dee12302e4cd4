//! Successors from what is remembered, without states to which another order of the last two steps leads, too.
ghost use Rattle.std.specs.Prelude.{◌≡◌, ◌++◌, ◌<◌, ℕ, IfOk, IfSome, IsSome, List, OnOk, Option, Some, length, map, slice_get, true};
ghost use Rattle.std.specs.List.{AllZip, flat_map};
ghost use Rattle.config_packed.specs.Pieces.{IsCut, spell_key};
ghost use Rattle.config_parts.specs.declared.component.Component.{Component};
ghost use Rattle.config_parts.specs.declared.config.Config.TheVariants as config;
ghost use Rattle.config_parts.specs.declared.config.Going.{Going};
ghost use Rattle.search_ordinals.specs.Told.{IsNth};
ghost use Rattle.semantics.specs.Canonical.{canonical_graph};
ghost use Rattle.semantics.specs.Configurations as rules;
ghost use Rattle.semantics.specs.Labels.{labels};
ghost use Rattle.semantics.specs.Places.{branch_of};
ghost use Rattle.semantics.specs.Steps.{Label};
ghost use Rattle.ttcn_step.specs.Machines.{said};
ghost use Rattle.ttcn_syntax.specs.declared.place.Span.{Span};
ghost use Rattle.ttcnx_runs.specs.internal.Recalls.{AreKeys, CanRecall, FitsState};
ghost use Rattle.ttcnx_runs.specs.Remembered.{IsEffectWithin, led_to, shown, steps_of};
ghost use Rattle.search_ordinals.specs.Sparing.{IsSparedAt};
ghost use Rattle.ttcnx_runs.specs.internal.Apart.{AreApart, AreForTwo};
ghost use Rattle.ttcnx_runs.specs.internal.Spared.{AreFirstKeys, IsLeft, IsReached, IsSpared, IsStepAmong};

use crate::keys::{BranchPlace, copied};
use crate::outcome::{Effect, Sending};
use crate::recalling::{KEY_ROOM, Recall, active_among, parts_to_recall, recall_all, recall_at};
use crate::remembered::Remembered;
use crate::scheme::Scheme;
use crate::shortening::are_many;
use crate::state::State;
use search_memory::{Interner, Memory};
use std::alloc::{AllocError, Global};
use std::marker::PhantomData;
use ttcn_config::{ConfigBytes, InternedConfig};
use ttcn_step::Machine;

// ---- steps that are apart

/// Whether two messages come to different queues.
fn are_for_two(one: &Sending, other: &Sending) -> bool
    ensures { result ≡ true → AreForTwo one.now other.now }
{
    one.to != other.to || one.port != other.port
}

/// Whether a step of the component at a place and one of another component, which sees the same behind it, lead to the same
/// in both orders, and the second one leaves what the first component sees.
fn are_apart(at: usize, first: &Effect, second: &Effect) -> bool
    ensures { result ≡ true → AreApart at first.now second.now }
{
    match (first, second) {
        (Effect::Alone(_, _), Effect::Alone(_, _)) => true,
        (Effect::Alone(_, _), Effect::Sends(_, sending)) => sending.to != at,
        (Effect::Sends(_, _), Effect::Alone(_, _)) => true,
        (Effect::Sends(_, one), Effect::Sends(_, other)) => {
            other.to != at && are_for_two(one, other)
        }
        _ => false,
    }
}

// ---- the last step

/// The step that led to a configuration: the place of the component that it was of, its effect, and what is remembered of the
/// components up to that one, as they were before the step.
#[derive(Drop)]
struct LastStep<'m, K: Scheme> {
    at: usize,
    effect: &'m Effect,
    known: Vec<&'m Remembered<K>>,
}

impl<K: Scheme> LastStep<'_, K> {
    /// Whether the component at a place comes before the one that made the step, and saw the same before it.
    fn leaves_sight(&self, at: usize, one: &Remembered<K>) -> bool
        ensures { result ≡ true → (at < self.now.at) × (slice_get (map (λ one. one.now.key.items) self.now.known.items) at ≡ Some one.now.key.items) }
    {
        if at >= self.at {
            return false;
        }
        let known = self.known.as_slice();
        match known.get(at) {
            Some(before) => before.key.as_slice() == one.key.as_slice(),
            None => false,
        }
    }
}

/// Whether no byte of two configurations differs in what the component at a place sees.
fn sees_the_same(one: &ConfigBytes<'_>, other: &ConfigBytes<'_>, at: usize) -> bool
    ensures { result ≡ true → (g h : Going) (c d : Component) → IsCut g one.now → IsCut h other.now → slice_get g.components at ≡ Some c → slice_get h.components at ≡ Some d
        → spell_key g at c ≡ spell_key h at d }
{
    if at >= one.components.len() || at >= other.components.len() {
        return false;
    }
    let mine = &one.components[at];
    let theirs = &other.components[at];
    one.outline == other.outline && mine.own == theirs.own && mine.queues == theirs.queues
}

/// What is remembered of the component at a place of the configuration before a step. Where the component sees the same behind
/// the step, it is what is remembered of it there.
fn recall_before<'m, K: Scheme>(
    memory: &'m Memory<Remembered<K>>,
    before: &ConfigBytes<'_>,
    parts: &ConfigBytes<'_>,
    all: &[&'m Remembered<K>],
    key: &mut Vec<u8>,
    at: usize,
) -> Result<Option<&'m Remembered<K>>, AllocError>
    requires at { at < length before.now.components.items }
    requires keys { (going : Going) → IsCut going parts.now → AreKeys going (map (λ one. one.now.key.items) all.now) }
    ensures { (earlier going : Going) (component : Component) → IsCut earlier before.now → IsCut going parts.now → slice_get earlier.components at ≡ Some component
        → IfOk result (λ found. IfSome found (λ one. one.now.key.items ≡ spell_key earlier at component)) }
{
    if at < all.len() && sees_the_same(before, parts, at) {
        return Ok(Some(all[at]));
    }
    recall_at(memory, before, key, at)
}

/// The step before which so many come, where it is remembered.
fn last_step<'m, K: Scheme>(
    alloc: Global,
    memory: &'m Memory<Remembered<K>>,
    before: &ConfigBytes<'_>,
    nth: u32,
    parts: &ConfigBytes<'_>,
    all: &[&'m Remembered<K>],
    key: &mut Vec<u8>,
) -> Result<Option<LastStep<'m, K>>, AllocError>
    requires { (going : Going) → IsCut going parts.now → AreKeys going (map (λ one. one.now.key.items) all.now) }
    ensures { (earlier going : Going) → IsCut earlier before.now → IsCut going parts.now
        → IfOk result (λ found. IfSome found (λ last. AreFirstKeys earlier (map (λ one. one.now.key.items) last.known.items)
        × IsStepAmong (λ one. one.now.outcomes.items) last.known.items nth last.at last.effect.now)) }
{
    let mut known = Vec::with_capacity(alloc, all.len())?;
    let mut left = nth as usize;
    for at in 0..before.components.len() {
        let Some(one) = recall_before(memory, before, parts, all, key, at)? else {
            return Ok(None);
        };
        known.push(one)?;
        let outcomes = one.outcomes.as_slice();
        if left < outcomes.len() {
            let effect = &outcomes[left].effect;
            return Ok(Some(LastStep { at, effect, known }));
        }
        left -= outcomes.len();
    }
    Ok(None)
}

/// Whether a component that comes before a place has steps.
fn has_active_before<K: Scheme>(all: &[&Remembered<K>], place: u8) -> bool {
    for at in 0..all.len().min(usize::from(place)) {
        if !all[at].outcomes.is_empty() {
            return true;
        }
    }
    false
}

/// The step before which so many come in a configuration, where it is remembered, and a component that comes before the one that
/// made it has steps.
fn step_before<'m, K: Scheme>(
    alloc: Global,
    memory: &'m Memory<Remembered<K>>,
    before: &InternedConfig<'_>,
    nth: u32,
    parts: &ConfigBytes<'_>,
    all: &[&'m Remembered<K>],
    by: u8,
    key: &mut Vec<u8>,
) -> Result<Option<LastStep<'m, K>>, AllocError>
    requires { (going : Going) → IsCut going parts.now → AreKeys going (map (λ one. one.now.key.items) all.now) }
    ensures { (earlier going : Going) → before.now ≡ config.Going earlier → IsCut going parts.now
        → IfOk result (λ found. IfSome found (λ last. AreFirstKeys earlier (map (λ one. one.now.key.items) last.known.items)
        × IsStepAmong (λ one. one.now.outcomes.items) last.known.items nth last.at last.effect.now)) }
{
    if !has_active_before(all, by) {
        return Ok(None);
    }
    match before.parts(alloc)? {
        Some(before) => last_step(alloc, memory, &before, nth, parts, all, key),
        None => Ok(None),
    }
}

/// Whether a step of the component at a place comes before the last step where that one was taken, and the two are apart.
fn is_early<K: Scheme>(
    last: &Option<LastStep<'_, K>>,
    at: usize,
    one: &Remembered<K>,
    effect: &Effect,
) -> bool
    ensures { result ≡ true → IsSome last.now × IfSome last.now (λ last. (at < last.at) × (slice_get (map (λ one. one.now.key.items) last.known.items) at ≡ Some one.now.key.items)
        × AreApart last.at last.effect.now effect.now) }
{
    match last {
        Some(last) => are_apart(last.at, last.effect, effect) && last.leaves_sight(at, one),
        None => false,
    }
}

// ---- successors

/// The state to which a step of the component at a place leads, unless it is early.
fn state_unless_early<'p, K: Scheme>(
    recall: &Recall<'_, '_, '_, '_, 'p, K>,
    early: bool,
    at: usize,
    effect: &Effect,
) -> Result<Option<State<'p, K>>, AllocError>
    requires is { recall.now.machine.now ≡ K.machine }
    requires can { CanRecall K.machine recall.now.packed.now recall.now.parts.now recall.now.active }
    requires here { (going : Going) → recall.now.packed.now ≡ config.Going going → (component : Component) × (slice_get going.components at ≡ Some component) }
    requires within { (going : Going) → recall.now.packed.now ≡ config.Going going → IsEffectWithin K.machine going at effect.now }
    ensures { (going : Going) (component : Component) → recall.now.packed.now ≡ config.Going going → slice_get going.components at ≡ Some component
        → IfOk result (IsLeft early (led_to K.machine going at component effect.now)) }
{
    if early {
        return Ok(None);
    }
    Ok(Some(recall.state_behind(at, effect)?))
}

/// Adds what is remembered of the steps of the component at a place, without states that are early.
fn push_recalled<'p, K: Scheme>(
    recall: &Recall<'_, '_, '_, '_, 'p, K>,
    last: &Option<LastStep<'_, K>>,
    at: usize,
    one: &Remembered<K>,
    pairs: &mut Vec<(Option<BranchPlace>, Option<State<'p, K>>)>,
) -> Result<(), AllocError>
    requires is { recall.now.machine.now ≡ K.machine }
    requires can { CanRecall K.machine recall.now.packed.now recall.now.parts.now recall.now.active }
    requires here { (going : Going) → recall.now.packed.now ≡ config.Going going → (component : Component) × (slice_get going.components at ≡ Some component) × (one.now.key.items ≡ spell_key going at component) }
    ensures { (before going : Going) (nth : ℕ) (component : Component) (start : List (Option Span × rules.Configuration)) → recall.now.packed.now ≡ config.Going going → slice_get going.components at ≡ Some component
        → IfSome last.now (λ last. IsReached K.machine (λ one. one.now.key.items) (λ one. one.now.outcomes.items) before nth last.known.items last.at last.effect.now going)
        → AllZip (IsSpared (canonical_graph K.machine.test) (said K.machine (config.Going before)) nth) start pairs.old.items
        → OnOk result (AllZip (IsSpared (canonical_graph K.machine.test) (said K.machine (config.Going before)) nth) (start ++ map (shown K.machine going at component) one.now.outcomes.items) pairs.new.items) }
{
    recall.machine.lists_and_names_differ();
    for outcome in one.outcomes.as_slice() {
        let branch = copied(&outcome.branch);
        let early = is_early(last, at, one, &outcome.effect);
        let after = state_unless_early(recall, early, at, &outcome.effect)?;
        pairs.push((branch, after))?;
    }
    Ok(())
}

/// How many steps are remembered of all components.
fn steps_among<K: Scheme>(all: &[&Remembered<K>]) -> usize {
    let mut count: usize = 0;
    for one in all {
        count = count.saturating_add(one.outcomes.len());
    }
    count
}

/// What is remembered of the steps of all components, without states that are early.
fn pairs_behind<'p, K: Scheme>(
    recall: &Recall<'_, '_, '_, '_, 'p, K>,
    last: &Option<LastStep<'_, K>>,
    all: &[&Remembered<K>],
) -> Result<Vec<(Option<BranchPlace>, Option<State<'p, K>>)>, AllocError>
    requires is { recall.now.machine.now ≡ K.machine }
    requires can { CanRecall K.machine recall.now.packed.now recall.now.parts.now recall.now.active }
    requires keys { (going : Going) → recall.now.packed.now ≡ config.Going going → AreKeys going (map (λ one. one.now.key.items) all.now) }
    ensures { (before going : Going) (nth : ℕ) → recall.now.packed.now ≡ config.Going going
        → IfSome last.now (λ last. IsReached K.machine (λ one. one.now.key.items) (λ one. one.now.outcomes.items) before nth last.known.items last.at last.effect.now going)
        → IfOk result (λ pairs. AllZip (IsSpared (canonical_graph K.machine.test) (said K.machine (config.Going before)) nth) (flat_map (steps_of K.machine going) going.components) pairs.items) }
{
    let mut pairs = Vec::with_capacity(recall.alloc, steps_among(all))?;
    for at in 0..all.len() {
        push_recalled(recall, last, at, all[at], &mut pairs)?;
    }
    Ok(pairs)
}

/// For each enabled label the branch that its step takes, if it takes one, and the state to which it leads, where the steps of
/// all components are remembered. Of a state behind a step, which is given by the configuration before it and by how many
/// enabled labels come before its own, those states are left out to which two steps lead from the configuration before, of
/// which the first one comes before that step. The place of the component that made the step is a hint: where a component before
/// it has no steps, no state is left out.
pub(crate) fn recalled_pairs<'p, K: Scheme>(
    alloc: Global,
    machine: &Machine<'_>,
    interner: &'p Interner,
    memory: &Memory<Remembered<K>>,
    before: &InternedConfig<'p>,
    nth: u32,
    packed: &InternedConfig<'p>,
    by: u8,
) -> Result<Option<Vec<(Option<BranchPlace>, Option<State<'p, K>>)>>, AllocError>
    requires is { machine.now ≡ K.machine }
    requires fits { FitsState K.machine packed.now }
    requires fits_before { FitsState K.machine before.now }
    requires behind { (label : Label) × IsNth (labels K.machine.test (said K.machine before.now)) nth label × (said K.machine packed.now ≡ (canonical_graph K.machine.test).after (said K.machine before.now) label) }
    ensures { IfOk result (λ found. IfSome found (λ pairs. AllZip (IsSparedAt (branch_of K.machine.test) (canonical_graph K.machine.test) (said K.machine before.now) nth (said K.machine packed.now)) (labels K.machine.test (said K.machine packed.now)) pairs.items)) }
{
    if memory.has_given_up() {
        return Ok(None);
    }
    let Some(parts) = parts_to_recall(alloc, packed)? else {
        return Ok(None);
    };
    let mut key = Vec::with_capacity(alloc, KEY_ROOM)?;
    let Some(all) = recall_all(alloc, memory, &parts, &mut key)? else {
        return Ok(None);
    };
    let last = step_before(alloc, memory, before, nth, &parts, &all, by, &mut key)?;
    let recall = Recall {
        alloc,
        machine,
        interner,
        packed,
        parts: &parts,
        active: active_among(&all),
        of: PhantomData,
    };
    let pairs = pairs_behind(&recall, &last, &all)?;
    memory.note_use(alloc)?;
    Ok(Some(pairs))
}

/// For each enabled label the branch that its step takes, if it takes one, and the state to which it leads, where many messages
/// wait and the steps of all components are remembered. No state is left out, as if the step behind which it is were the first.
pub(crate) fn recalled_states<'p, K: Scheme>(
    alloc: Global,
    machine: &Machine<'_>,
    interner: &'p Interner,
    memory: &Memory<Remembered<K>>,
    packed: &InternedConfig<'p>,
) -> Result<Option<Vec<(Option<BranchPlace>, Option<State<'p, K>>)>>, AllocError>
    requires is { machine.now ≡ K.machine }
    requires fits { FitsState K.machine packed.now }
    ensures { IfOk result (λ found. IfSome found (λ pairs. AllZip (IsSparedAt (branch_of K.machine.test) (canonical_graph K.machine.test) (said K.machine packed.now) 0 (said K.machine packed.now)) (labels K.machine.test (said K.machine packed.now)) pairs.items)) }
{
    let Some(parts) = parts_to_recall(alloc, packed)? else {
        return Ok(None);
    };
    if !are_many(&parts) {
        return Ok(None);
    }
    let mut key = Vec::with_capacity(alloc, KEY_ROOM)?;
    let Some(all) = recall_all(alloc, memory, &parts, &mut key)? else {
        return Ok(None);
    };
    let recall = Recall {
        alloc,
        machine,
        interner,
        packed,
        parts: &parts,
        active: active_among(&all),
        of: PhantomData,
    };
    Ok(Some(pairs_behind(&recall, &None, &all)?))
}
