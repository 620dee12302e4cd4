//! What is remembered of components, and the states to which their steps lead, without unpacking the configuration.
ghost use Rattle.std.specs.Prelude.{◌≡◌, ◌++◌, ◌<◌, IfOk, IfSome, OnOk, Some, length, map, slice_get, true, []};
ghost use Rattle.std.specs.List.{flat_map};
ghost use Rattle.config_packed.specs.Pieces.{AreJoined, IsCut, changed_going, joined_going, spell_key};
ghost use Rattle.config_parts.specs.Legend.{going_by};
ghost use Rattle.config_parts.specs.declared.component.Component.{Component};
ghost use Rattle.config_parts.specs.declared.config.Config.TheVariants as config;
ghost use Rattle.config_parts.specs.declared.config.Going.{Going};
ghost use Rattle.laws_local.specs.Alone.{IsLive, how_many};
ghost use Rattle.semantics.specs.Canonical.{canonical_graph};
ghost use Rattle.semantics.specs.Labels.{labels};
ghost use Rattle.ttcn_step.specs.Machines.{legend, said};
ghost use Rattle.ttcnx_runs.specs.internal.Recalls.{AreKeys, CanRecall, FitsState, IsToRecall, branch_and_place, branch_and_place_of, has_steps};
ghost use Rattle.ttcnx_runs.specs.Remembered.{IsEffectWithin, led_to, sent_going, without_front};
ghost use Rattle.ttcnx_runs.specs.declared.outcome.Effect.TheVariants as effect;

use crate::keys::{BranchPlace, copied};
use crate::outcome::{Effect, Sending};
use crate::remembered::Remembered;
use crate::runs::state_of;
use crate::scheme::Scheme;
use crate::state::{State, hash_of, hint_of};
use crate::step_place::{StepPlace, copied_place};
use search_memory::{Interner, Memory};
use std::alloc::{AllocError, Global};
use std::marker::PhantomData;
use step_labels::Label;
use ttcn_config::{
    ConfigBytes, InternedConfig, OwnBytes, Packed, queues_with_message, queues_without_first,
};
use ttcn_step::Machine;
use value_types::Slot;

/// The state to which a label leads.
pub(crate) fn next_state<'p, K: Scheme>(
    alloc: Global,
    machine: &Machine<'_>,
    interner: &'p Interner,
    packed: &InternedConfig<'_>,
    label: &Label,
) -> Result<State<'p, K>, AllocError>
    requires is { machine.now ≡ K.machine }
    requires fits { FitsState K.machine packed.now }
    ensures { IfOk result (λ state. state ≡ (canonical_graph K.machine.test).after (said K.machine packed.now) label.now) }
{
    let config = packed.config(alloc)?;
    match machine.next(alloc, &config, label) {
        Ok(after) => state_of(alloc, machine, interner, after),
        Err(_) => Err(AllocError),
    }
}

/// The configuration where a component alone changed.
fn changed_alone<'p>(
    alloc: Global,
    interner: &'p Interner,
    packed: &InternedConfig<'p>,
    parts: &ConfigBytes<'_>,
    at: usize,
    own: &OwnBytes,
    removed: Option<Slot>,
) -> Result<InternedConfig<'p>, AllocError>
    requires { (going : Going) × (component : Component) × IsCut going parts.now × (slice_get going.components at ≡ Some component) × (packed.now ≡ config.Going going) }
    ensures { (going : Going) (component : Component) → IsCut going parts.now → slice_get going.components at ≡ Some component → packed.now ≡ config.Going going
        → IfOk result (λ packed. packed ≡ config.Going (changed_going going at own.now.0 own.now.1 at (without_front removed component.queues))) }
{
    let queues = parts.components[at].queues;
    match removed {
        None => packed.changed(alloc, interner, parts, at, own.as_bytes(), at, queues),
        Some(port) => {
            let queues = queues_without_first(alloc, queues, port)?;
            packed.changed(
                alloc,
                interner,
                parts,
                at,
                own.as_bytes(),
                at,
                queues.as_slice(),
            )
        }
    }
}

/// The configuration where a component changed and sent a message. Where no component is at its place, nobody gets it.
fn changed_by_sending<'p>(
    alloc: Global,
    interner: &'p Interner,
    packed: &InternedConfig<'p>,
    parts: &ConfigBytes<'_>,
    at: usize,
    own: &OwnBytes,
    sending: &Sending,
) -> Result<InternedConfig<'p>, AllocError>
    requires { (going : Going) × (component : Component) × IsCut going parts.now × (slice_get going.components at ≡ Some component) × (packed.now ≡ config.Going going) }
    ensures { (going : Going) (component : Component) → IsCut going parts.now → slice_get going.components at ≡ Some component → packed.now ≡ config.Going going
        → IfOk result (λ packed. packed ≡ config.Going (sent_going going at own.now sending.now)) }
{
    if sending.to >= parts.components.len() {
        let queues = parts.components[at].queues;
        return packed.changed(alloc, interner, parts, at, own.as_bytes(), at, queues);
    }
    let waiting = parts.components[sending.to].queues;
    let queues = queues_with_message(alloc, waiting, sending.port, &sending.message)?;
    let queues = queues.as_slice();
    packed.changed(
        alloc,
        interner,
        parts,
        at,
        own.as_bytes(),
        sending.to,
        queues,
    )
}

/// The configuration where a component ended: it, and what all components see, are those of another one.
fn changed_by_ending<'p>(
    alloc: Global,
    interner: &'p Interner,
    packed: &InternedConfig<'p>,
    parts: &ConfigBytes<'_>,
    at: usize,
    behind: &Packed,
) -> Result<InternedConfig<'p>, AllocError>
    requires { (going : Going) × (other : Going) × IsCut going parts.now × (behind.now ≡ config.Going other) × AreJoined going at other × (packed.now ≡ config.Going going) }
    ensures { (going other : Going) → IsCut going parts.now → behind.now ≡ config.Going other → AreJoined going at other → packed.now ≡ config.Going going
        → IfOk result (λ packed. packed ≡ config.Going (joined_going going at other)) }
{
    match behind.parts(alloc)? {
        Some(others) => packed.joined_with(alloc, interner, parts, at, &others),
        None => unreachable!(),
    }
}

/// A configuration whose successors are made from what is remembered.
#[derive(Drop)]
pub(crate) struct Recall<'m, 't, 'k, 'b, 'p, K: Scheme> {
    pub(crate) alloc: Global,
    pub(crate) machine: &'m Machine<'t>,
    pub(crate) interner: &'p Interner,
    pub(crate) packed: &'k InternedConfig<'p>,
    pub(crate) parts: &'k ConfigBytes<'b>,
    /// How many components have enabled labels. Where several have, some are left whatever one does.
    pub(crate) active: usize,
    pub(crate) of: PhantomData<K>,
}

impl<'p, K: Scheme> Recall<'_, '_, '_, '_, 'p, K> {
    /// The state to which a step leads that changes the component at a place alone.
    fn state_alone(
        &self,
        at: usize,
        own: &OwnBytes,
        removed: Option<Slot>,
    ) -> Result<State<'p, K>, AllocError>
        requires is { self.now.machine.now ≡ K.machine }
        requires can { CanRecall K.machine self.now.packed.now self.now.parts.now self.now.active }
        requires here { (going : Going) → self.now.packed.now ≡ config.Going going → (component : Component) × (slice_get going.components at ≡ Some component) }
        requires within { (going : Going) → self.now.packed.now ≡ config.Going going → IsEffectWithin K.machine going at (effect.Alone own.now removed) }
        ensures { (going : Going) (component : Component) → self.now.packed.now ≡ config.Going going → slice_get going.components at ≡ Some component
            → IfOk result (λ state. state ≡ led_to K.machine going at component (effect.Alone own.now removed)) }
    {
        self.machine.lists_and_names_differ();
        let packed = changed_alone(
            self.alloc,
            self.interner,
            self.packed,
            self.parts,
            at,
            own,
            removed,
        )?;
        Ok(State {
            hash: hash_of(&packed),
            packed,
            goes_on: self.active >= 2,
            by: hint_of(at),
            of: PhantomData,
        })
    }

    /// The state to which a step leads by which the component at a place sends a message.
    fn state_sending(
        &self,
        at: usize,
        own: &OwnBytes,
        sending: &Sending,
    ) -> Result<State<'p, K>, AllocError>
        requires is { self.now.machine.now ≡ K.machine }
        requires can { CanRecall K.machine self.now.packed.now self.now.parts.now self.now.active }
        requires here { (going : Going) → self.now.packed.now ≡ config.Going going → (component : Component) × (slice_get going.components at ≡ Some component) }
        requires within { (going : Going) → self.now.packed.now ≡ config.Going going → IsEffectWithin K.machine going at (effect.Sends own.now sending.now) }
        ensures { (going : Going) (component : Component) → self.now.packed.now ≡ config.Going going → slice_get going.components at ≡ Some component
            → IfOk result (λ state. state ≡ led_to K.machine going at component (effect.Sends own.now sending.now)) }
    {
        self.machine.lists_and_names_differ();
        let packed = changed_by_sending(
            self.alloc,
            self.interner,
            self.packed,
            self.parts,
            at,
            own,
            sending,
        )?;
        Ok(State {
            hash: hash_of(&packed),
            packed,
            goes_on: self.active >= 3,
            by: hint_of(at),
            of: PhantomData,
        })
    }

    /// The state to which a step leads that ends the component at a place.
    fn state_ended(&self, at: usize, behind: &Packed) -> Result<State<'p, K>, AllocError>
        requires is { self.now.machine.now ≡ K.machine }
        requires can { CanRecall K.machine self.now.packed.now self.now.parts.now self.now.active }
        requires within { (going : Going) → self.now.packed.now ≡ config.Going going → IsEffectWithin K.machine going at (effect.Ends behind.now) }
        ensures { (going : Going) (component : Component) → self.now.packed.now ≡ config.Going going → slice_get going.components at ≡ Some component
            → IfOk result (λ state. state ≡ led_to K.machine going at component (effect.Ends behind.now)) }
    {
        self.machine.lists_and_names_differ();
        let packed = changed_by_ending(
            self.alloc,
            self.interner,
            self.packed,
            self.parts,
            at,
            behind,
        )?;
        Ok(State {
            hash: hash_of(&packed),
            packed,
            goes_on: false,
            by: hint_of(at),
            of: PhantomData,
        })
    }

    /// The state to which a step of the component at a place leads.
    pub(crate) fn state_behind(
        &self,
        at: usize,
        effect: &Effect,
    ) -> Result<State<'p, K>, AllocError>
        requires is { self.now.machine.now ≡ K.machine }
        requires can { CanRecall K.machine self.now.packed.now self.now.parts.now self.now.active }
        requires here { (going : Going) → self.now.packed.now ≡ config.Going going → (component : Component) × (slice_get going.components at ≡ Some component) }
        requires within { (going : Going) → self.now.packed.now ≡ config.Going going → IsEffectWithin K.machine going at effect.now }
        ensures { (going : Going) (component : Component) → self.now.packed.now ≡ config.Going going → slice_get going.components at ≡ Some component
            → IfOk result (λ state. state ≡ led_to K.machine going at component effect.now) }
    {
        match effect {
            Effect::Alone(own, removed) => self.state_alone(at, own, *removed),
            Effect::Sends(own, sending) => self.state_sending(at, own, sending),
            Effect::Ends(behind) => self.state_ended(at, behind),
            Effect::Other(label) => next_state(
                self.alloc,
                self.machine,
                self.interner,
                self.packed,
                label,
            ),
        }
    }
}

/// The bytes of a configuration in parts, where something may be recalled of all its steps: where the test case goes on, and no
/// system port is mapped.
pub(crate) fn parts_to_recall<'p>(
    alloc: Global,
    packed: &InternedConfig<'p>,
) -> Result<Option<ConfigBytes<'p>>, AllocError>
    ensures { IfOk result (λ found. IfSome found (IsToRecall packed.now)) }
{
    let Some(parts) = packed.parts(alloc)? else {
        return Ok(None);
    };
    if parts.has_mappings {
        return Ok(None);
    }
    Ok(Some(parts))
}

/// How many bytes are asked for before keys are made: few need more.
pub(crate) const KEY_ROOM: usize = 256;

/// What is remembered of the component at a place. Its key is made in a buffer.
pub(crate) fn recall_at<'m, K: Scheme>(
    memory: &'m Memory<Remembered<K>>,
    parts: &ConfigBytes<'_>,
    key: &mut Vec<u8>,
    at: usize,
) -> Result<Option<&'m Remembered<K>>, AllocError>
    requires { at < length parts.now.components.items }
    ensures { (going : Going) (component : Component) → IsCut going parts.now → slice_get going.components at ≡ Some component
        → IfOk result (λ found. IfSome found (λ one. one.now.key.items ≡ spell_key going at component)) }
{
    key.clear();
    parts.put_key(key, at)?;
    Ok(memory.find(key.as_slice()))
}

/// What is remembered of each component, where something is of all of them. Of a component that is the only one nothing is.
pub(crate) fn recall_all<'m, K: Scheme>(
    alloc: Global,
    memory: &'m Memory<Remembered<K>>,
    parts: &ConfigBytes<'_>,
    key: &mut Vec<u8>,
) -> Result<Option<Vec<&'m Remembered<K>>>, AllocError>
    ensures { (going : Going) → IsCut going parts.now → IfOk result (λ found. IfSome found (λ all. AreKeys going (map (λ one. one.now.key.items) all.items))) }
{
    if parts.components.len() < 2 {
        return Ok(None);
    }
    let mut all = Vec::with_capacity(alloc, parts.components.len())?;
    for at in 0..parts.components.len() {
        let Some(one) = recall_at(memory, parts, key, at)? else {
            return Ok(None);
        };
        all.push(one)?;
    }
    Ok(Some(all))
}

/// Adds the branches and places of the steps that are remembered of a component.
fn push_places<K: Scheme>(
    one: &Remembered<K>,
    found: &mut Vec<(Option<BranchPlace>, Option<StepPlace>)>,
) -> Result<(), AllocError>
    ensures { OnOk result (found.new.items ≡ found.old.items ++ map branch_and_place one.now.outcomes.items) }
{
    for outcome in one.outcomes.as_slice() {
        let branch = copied(&outcome.branch);
        let event = copied_place(&outcome.event);
        found.push((branch, event))?;
    }
    Ok(())
}

/// The branches and places of the steps that are remembered of all components.
fn places_of<K: Scheme>(
    alloc: Global,
    all: &[&Remembered<K>],
) -> Result<Vec<(Option<BranchPlace>, Option<StepPlace>)>, AllocError>
    ensures { IfOk result (λ found. found.items ≡ flat_map (λ one. map branch_and_place one.now.outcomes.items) all.now) }
{
    let mut found = Vec::new(alloc);
    for one in all {
        push_places(one, &mut found)?;
    }
    Ok(found)
}

/// For each enabled label the branch that its step takes, if it takes one, and where the step is, and whether its message is
/// lost, where the steps of all components are remembered.
pub(crate) fn recalled_steps<K: Scheme>(
    alloc: Global,
    memory: &Memory<Remembered<K>>,
    packed: &InternedConfig<'_>,
) -> Result<Option<Vec<(Option<BranchPlace>, Option<StepPlace>)>>, AllocError>
    requires { FitsState K.machine packed.now }
    ensures { IfOk result (λ found. IfSome found (λ steps. steps.items ≡ map (branch_and_place_of K.machine packed.now) (labels K.machine.test (said K.machine packed.now)))) }
{
    if memory.has_given_up() {
        return Ok(None);
    }
    let Some(parts) = parts_to_recall(alloc, packed)? else {
        return Ok(None);
    };
    let mut key = Vec::with_capacity(alloc, KEY_ROOM)?;
    let Some(all) = recall_all(alloc, memory, &parts, &mut key)? else {
        return Ok(None);
    };
    Ok(Some(places_of(alloc, &all)?))
}

/// Whether some component has steps, by what is remembered of it.
fn has_active<K: Scheme>(
    memory: &Memory<Remembered<K>>,
    parts: &ConfigBytes<'_>,
    key: &mut Vec<u8>,
) -> Result<bool, AllocError>
    ensures { IfOk result (λ active. active ≡ true → (going : Going) → IsCut going parts.now → IsLive (going_by (legend K.machine) going)
        → ¬ (labels K.machine.test (said K.machine (config.Going going)) ≡ [])) }
{
    for at in 0..parts.components.len() {
        if let Some(one) = recall_at(memory, parts, key, at)? {
            if !one.outcomes.is_empty() {
                return Ok(true);
            }
        }
    }
    Ok(false)
}

/// Whether some label is enabled, by what is remembered of a component.
pub(crate) fn surely_goes_on<K: Scheme>(
    alloc: Global,
    memory: &Memory<Remembered<K>>,
    packed: &InternedConfig<'_>,
) -> Result<bool, AllocError>
    requires { FitsState K.machine packed.now }
    ensures { IfOk result (λ active. active ≡ true → ¬ (labels K.machine.test (said K.machine packed.now) ≡ [])) }
{
    if memory.has_given_up() {
        return Ok(false);
    }
    let Some(parts) = packed.parts(alloc)? else {
        return Ok(false);
    };
    let mut key = Vec::with_capacity(alloc, KEY_ROOM)?;
    has_active(memory, &parts, &mut key)
}

/// How many components have steps.
pub(crate) fn active_among<K: Scheme>(all: &[&Remembered<K>]) -> usize
    ensures { result ≡ how_many (λ one. has_steps one.now.outcomes.items) all.now }
{
    let mut count = 0;
    for one in all {
        if !one.outcomes.is_empty() {
            count += 1;
        }
    }
    count
}
