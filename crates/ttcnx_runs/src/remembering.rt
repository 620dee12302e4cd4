//! What is to be remembered of the steps of components.
ghost use Rattle.std.specs.Prelude.{◌≡◌, IfOk, IfSome, Some, slice_get, true};
ghost use Rattle.std.specs.Option.{option_map};
ghost use Rattle.config_parts.specs.Acts.{request_by};
ghost use Rattle.config_parts.specs.Legend.{Legend, going_by};
ghost use Rattle.config_parts.specs.Views.{IsGoingWithin, IsWithin};
ghost use Rattle.config_parts.specs.declared.component.Component.{Component};
ghost use Rattle.config_parts.specs.declared.config.Config.TheVariants as form;
ghost use Rattle.config_parts.specs.declared.config.Going.{Going};
ghost use Rattle.config_packed.specs.Pieces.{AreParts, IsCut, spell_key};
ghost use Rattle.laws_local.specs.Alone.{IsLive, is_of_path};
ghost use Rattle.ttcn_step.specs.Machines.{Fits, extent, legend, said};
ghost use Rattle.ttcnx_runs.specs.internal.Makes.{EndsThere, IsAlone, IsEnding, IsFit, IsHere, IsMade, IsMadeOf, IsPlaced, IsRemoved, IsSending, IsSent, LeadsTo};
ghost use Rattle.ttcnx_runs.specs.internal.WorkedOut.{AreSteps, IsStep};
ghost use Rattle.ttcnx_runs.specs.internal.Recalls.{FitsState};
ghost use Rattle.ttcnx_runs.specs.Remembered.{AreOutcomes};

use crate::keys::copied;
use crate::outcome::{Effect, Outcome, Sending};
use crate::remembered::Remembered;
use crate::scheme::Scheme;
use crate::state::State;
use crate::step::Step;
use crate::step_place::place_of_step;
use config_parts::{Request, Way};
use search_memory::Memory;
use std::alloc::{AllocError, Global};
use std::marker::PhantomData;
use step_labels::Label;
use ttcn_config::{
    Component, Config, ConfigBytes, End, InternedConfig, Message, MessageBytes, OwnBytes, Packed,
};
use ttcn_step::{Machine, Sent};
use value_types::{Path, Slot, Value};

/// The port whose first message goes, if one does, where what is asked for changes nothing but the component that asks.
fn removed_by(request: Option<Request>) -> Option<Option<Slot>>
    ensures { (legend : Legend) → IfSome result (IsRemoved legend (option_map (request_by legend) request)) }
{
    match request {
        Some(Request::Continues) => Some(None),
        Some(Request::Worsens(_)) => Some(None),
        Some(Request::Removes(port)) => Some(Some(port)),
        Some(_) => None,
        None => None,
    }
}

/// The port whose first message goes, if one does, where the step of an enabled label changes nothing but the component that
/// the label is of.
fn removed_at(
    alloc: Global,
    machine: &Machine<'_>,
    config: &Config,
    label: &Label,
) -> Result<Option<Option<Slot>>, AllocError>
    requires { Fits machine.now config.now }
    ensures { IfOk result (λ found. IfSome found (IsAlone machine.now (said machine.now config.now) label.now)) }
{
    match label {
        Label::Statement(_) => Ok(removed_by(machine.request(alloc, config, label)?)),
        Label::Expiry { .. } => Ok(Some(None)),
        Label::Delivery(_) => Ok(None),
    }
}

/// What the component at a place has of its own.
fn own_at(
    alloc: Global,
    packed: &InternedConfig<'_>,
    at: usize,
) -> Result<Option<OwnBytes>, AllocError>
    ensures { IfOk result (λ found. IfSome found (λ own. (going : Going) × (component : Component) × (packed.now ≡ form.Going going) × (slice_get going.components at ≡ Some component)
        × (own ≡ (component.verdict, component.own)))) }
{
    let Some(parts) = packed.parts(alloc)? else {
        return Ok(None);
    };
    if at >= parts.components.len() {
        return Ok(None);
    }
    let component = &parts.components[at];
    Ok(Some(OwnBytes::copy(alloc, component.own)?))
}

/// What the component at a place of a state has of its own.
fn own_behind<K: Scheme>(
    alloc: Global,
    state: &State<'_, K>,
    at: usize,
) -> Result<Option<OwnBytes>, AllocError>
    ensures { IfOk result (λ found. IfSome found (λ own. (going : Going) × (component : Component) × (state.now ≡ said K.machine (form.Going going)) × (slice_get going.components at ≡ Some component)
        × (own ≡ (component.verdict, component.own)) × IsWithin (extent K.machine) own.1)) }
{
    own_at(alloc, &state.packed, at)
}

/// The place of the component of a path, where there is one.
fn place_of(components: &[Component], path: &Path) -> Option<usize>
    ensures { IfSome result (λ place. (component : Component) × (slice_get components.now place ≡ Some component) × (component.itself.path ≡ path.now)) }
{
    for (place, component) in components.iter().enumerate() {
        if component.itself.path == *path {
            return Some(place);
        }
    }
    None
}

/// A message from the component at a place to a port, where that is a port of another one.
fn sending_to(
    alloc: Global,
    components: &[Component],
    at: usize,
    value: Value,
    port: End,
) -> Result<Option<Sending>, AllocError>
    ensures { IfOk result (λ found. IfSome found (IsSending components.now at value port)) }
{
    let Some(to) = place_of(components, &port.component) else {
        return Ok(None);
    };
    if at >= components.len() {
        return Ok(None);
    }
    let sender = &components[at].itself;
    if port.component == sender.path {
        return Ok(None);
    }
    let message = Message {
        value,
        sender: Some(sender.try_clone(alloc)?),
    };
    Ok(Some(Sending {
        to,
        port: port.port,
        message: MessageBytes::new(alloc, &message)?,
    }))
}

/// What the step of an enabled label, which is of the component at a place, sends to another component.
fn sending_at(
    alloc: Global,
    machine: &Machine<'_>,
    config: &Config,
    at: usize,
    label: &Label,
) -> Result<Option<Sending>, AllocError>
    requires { Fits machine.now config.now }
    ensures { IfOk result (λ found. IfSome found (λ sending. (going : Going) (component : Component) → IsHere machine.now config.now going at component label.now → IsSent machine.now going component label.now sending)) }
{
    let Config::Going(going) = config else {
        return Ok(None);
    };
    let Some(sent) = machine.sent(alloc, config, label)? else {
        return Ok(None);
    };
    let Sent {
        from: _from,
        value,
        way,
    } = sent;
    match way {
        Way::Reaches(port) => sending_to(alloc, going.components.as_slice(), at, value, port),
        Way::Lost(_) => Ok(None),
        Way::Leaves(_) => Ok(None),
    }
}

/// Whether what is asked for ends the component of a path, which asks.
fn ends_by(request: Option<Request>, path: &Path) -> bool
    ensures { (legend : Legend) → result ≡ true → IsEnding path.now (option_map (request_by legend) request) }
{
    match request {
        Some(Request::Stops(of)) => of == *path,
        Some(_) => false,
        None => false,
    }
}

/// Whether the step of an enabled label ends the component that the label is of.
fn ends_at(
    alloc: Global,
    machine: &Machine<'_>,
    config: &Config,
    label: &Label,
) -> Result<bool, AllocError>
    requires { Fits machine.now config.now }
    ensures { IfOk result (λ ends. ends ≡ true → EndsThere machine.now (said machine.now config.now) label.now) }
{
    match label {
        Label::Statement(path) => Ok(ends_by(machine.request(alloc, config, label)?, path)),
        Label::Expiry { .. } => Ok(false),
        Label::Delivery(_) => Ok(false),
    }
}

/// The configuration of a state, where the test case goes on.
fn going_behind<K: Scheme>(
    alloc: Global,
    state: &State<'_, K>,
) -> Result<Option<Packed>, AllocError>
    ensures { IfOk result (λ found. IfSome found (λ packed. (going : Going) × (packed ≡ form.Going going) × (state.now ≡ said K.machine (form.Going going)) × IsGoingWithin (extent K.machine) going)) }
{
    match state.packed.verdict() {
        Some(_) => Ok(None),
        None => Ok(Some(state.packed.to_packed(alloc)?)),
    }
}

/// What the step of a label changes, which is of the component at a place and leads to a state.
fn effect_of<K: Scheme>(
    alloc: Global,
    machine: &Machine<'_>,
    config: &Config,
    at: usize,
    step: &Step<State<'_, K>>,
) -> Result<Effect, AllocError>
    requires is { machine.now ≡ K.machine }
    requires fits { Fits K.machine config.now }
    requires leads { LeadsTo K.machine config.now step.now.label step.now.after }
    ensures made { IfOk result (λ effect. (going : Going) (component : Component) → IsHere K.machine config.now going at component step.now.label → IsMade K.machine going at component step.now.label effect) }
    ensures within { IfOk result (λ effect. (going : Going) (component : Component) → IsHere K.machine config.now going at component step.now.label → IsFit K.machine going at component effect) }
{
    machine.lists_and_names_differ();
    if let Some(removed) = removed_at(alloc, machine, config, &step.label)? {
        if let Some(own) = own_behind(alloc, &step.after, at)? {
            return Ok(Effect::Alone(own, removed));
        }
    }
    if let Some(sending) = sending_at(alloc, machine, config, at, &step.label)? {
        if let Some(own) = own_behind(alloc, &step.after, at)? {
            return Ok(Effect::Sends(own, sending));
        }
    }
    if ends_at(alloc, machine, config, &step.label)? {
        if let Some(behind) = going_behind(alloc, &step.after)? {
            return Ok(Effect::Ends(behind));
        }
    }
    Ok(Effect::Other(step.label.try_clone(alloc)?))
}

/// What is remembered of the step of a label, which is of the component at a place.
fn outcome_of<K: Scheme>(
    alloc: Global,
    machine: &Machine<'_>,
    config: &Config,
    at: usize,
    step: &Step<State<'_, K>>,
) -> Result<Outcome, AllocError>
    requires is { machine.now ≡ K.machine }
    requires fits { Fits K.machine config.now }
    requires step { IsStep K.machine config.now step.now }
    ensures made { IfOk result (λ outcome. (going : Going) (component : Component) → IsHere K.machine config.now going at component step.now.label → IsMadeOf K.machine going at component step.now.label outcome) }
    ensures placed { IfOk result (λ outcome. (going : Going) (component : Component) → IsHere K.machine config.now going at component step.now.label → IsPlaced K.machine going at component step.now.label outcome.event) }
    ensures within { IfOk result (λ outcome. (going : Going) (component : Component) → IsHere K.machine config.now going at component step.now.label → IsFit K.machine going at component outcome.effect) }
{
    let event = place_of_step(alloc, machine, config, &step.label, &step.branch)?;
    let effect = effect_of(alloc, machine, config, at, step)?;
    Ok(Outcome {
        branch: copied(&step.branch),
        event,
        effect,
    })
}

/// Whether a label is of the component of a path.
fn is_of(label: &Label, path: &Path) -> bool
    ensures { result ≡ is_of_path path.now label.now }
{
    match label {
        Label::Statement(of) => *of == *path,
        Label::Expiry { component, .. } => *component == *path,
        Label::Delivery(_) => false,
    }
}

/// What is remembered of the steps of the component of a path, which is at a place.
fn outcomes_at<K: Scheme>(
    alloc: Global,
    machine: &Machine<'_>,
    config: &Config,
    at: usize,
    path: &Path,
    steps: &[Step<State<'_, K>>],
) -> Result<Vec<Outcome>, AllocError>
    requires is { machine.now ≡ K.machine }
    requires fits { Fits K.machine config.now }
    requires steps { AreSteps K.machine config.now steps.now }
    ensures { IfOk result (λ outcomes. (going : Going) (component : Component) → config.now ≡ form.Going going → IsLive (going_by (legend K.machine) going) → slice_get going.components at ≡ Some component → path.now ≡ component.itself.path
        → AreOutcomes K.machine (spell_key going at component) outcomes.items) }
{
    let mut outcomes = Vec::new(alloc);
    for step in steps {
        if is_of(&step.label, path) {
            outcomes.push(outcome_of(alloc, machine, config, at, step)?)?;
        }
    }
    Ok(outcomes)
}

/// Remembers the steps of the component at a place, unless they are remembered.
fn remember_at<K: Scheme>(
    alloc: Global,
    machine: &Machine<'_>,
    memory: &Memory<Remembered<K>>,
    config: &Config,
    parts: &ConfigBytes<'_>,
    at: usize,
    path: &Path,
    steps: &[Step<State<'_, K>>],
) -> Result<(), AllocError>
    requires is { machine.now ≡ K.machine }
    requires fits { Fits K.machine config.now }
    requires steps { AreSteps K.machine config.now steps.now }
    requires here { (going : Going) × (component : Component) × (config.now ≡ form.Going going) × IsCut going parts.now × IsLive (going_by (legend K.machine) going) × (slice_get going.components at ≡ Some component) × (path.now ≡ component.itself.path) }
{
    let key = parts.key(alloc, at)?;
    if memory.find(key.as_slice()).is_some() {
        return Ok(());
    }
    let outcomes = outcomes_at(alloc, machine, config, at, path, steps)?;
    memory.keep(
        alloc,
        Remembered {
            key,
            outcomes,
            of: PhantomData,
        },
    )
}

/// Remembers the steps of all components of a configuration, whose bytes are given in parts, where there are several: one
/// alone is hardly ever met again as it is.
pub(crate) fn remember<'p, K: Scheme>(
    alloc: Global,
    machine: &Machine<'_>,
    memory: &Memory<Remembered<K>>,
    parts: &Option<ConfigBytes<'_>>,
    config: &Config,
    steps: &[Step<State<'p, K>>],
) -> Result<(), AllocError>
    requires is { machine.now ≡ K.machine }
    requires fits { FitsState K.machine config.now }
    requires parts { AreParts config.now parts.now }
    requires steps { AreSteps K.machine config.now steps.now }
{
    if memory.has_given_up() {
        return Ok(());
    }
    let Some(parts) = parts else {
        return Ok(());
    };
    if parts.components.len() < 2 {
        return Ok(());
    }
    let Config::Going(going) = config else {
        return Ok(());
    };
    for (at, component) in going.components.as_slice().iter().enumerate() {
        remember_at(
            alloc,
            machine,
            memory,
            config,
            parts,
            at,
            &component.itself.path,
            steps,
        )?;
    }
    Ok(())
}
