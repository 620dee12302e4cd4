//! Fine steps: a component's snapshot, its choice by it, and steps that are neither (ES 201 873-1, 20.2).
ghost use Rattle.std.specs.Prelude.{◌≡◌, IfOk, IfSome, bytes_eq, map, not};
ghost use Rattle.std.specs.List.{filter, find};
ghost use Rattle.std.specs.Option.{option_map};
ghost use Rattle.laws_fine.specs.Fates as fates;
ghost use Rattle.laws_fine.specs.Fine as rules;
ghost use Rattle.laws_fine.specs.Holding as holding;
ghost use Rattle.semantics.specs.Steps as steps;
ghost use Rattle.step_snapshot.specs.Tests.{legend_by, test_by};
ghost use Rattle.config_parts.specs.Legend.{Legend, going_by};
ghost use Rattle.config_parts.specs.declared.config.Config.TheVariants as config;
ghost use Rattle.ttcn_step.specs.Machines.{Fits, machine_of, said};
ghost use Rattle.ttcn_step.specs.internal.Fine as spec;
ghost use Rattle.step_coarse.specs.Fates.{fate_by};
ghost use Rattle.ttcn_step.specs.internal.Fine.{held_by};

use crate::alt::{is_of_alt, stands_at_alt};
use crate::error::StepError;
use crate::step::{asked, component_of, done, is_running, next, step};
use config_parts::{Config, Going, TryClone};
use std::alloc::{AllocError, Global};
use step_arrivals::slots_are_ordered;
use step_coarse::Fate;
use step_labels::{FineLabel, Label};
use step_snapshot::TestCase;
use ttcn_syntax::{Seq, Verdict};
use value_types::{ComponentId, Fault, Path};

/// A snapshot by which a component has still to choose.
#[derive(Drop)]
pub(crate) struct Stored {
    /// The component.
    pub path: Path,
    /// The configuration in which it took its snapshot.
    pub taken: Going,
    /// The expiries of its timers since, in their order.
    pub since: Vec<Label>,
}

/// A configuration with stored snapshots, the newest first.
#[derive(Drop)]
pub(crate) struct Fine {
    pub now: Config,
    pub stored: Vec<Stored>,
}

/// The configuration behind a fine step, and what came of its choice where it is one.
#[derive(Drop)]
pub(crate) struct FineStep {
    pub fine: Fine,
    pub fate: Fate,
}

// ---- what is stored

/// The stored snapshot of the component of a path.
fn stored_at<'b>(stored: &'b [Stored], path: &Seq<u32>) -> Option<&'b Stored>
    ensures { option_map (λ entry. entry.now) result ≡ find (λ entry. bytes_eq entry.path.numbers path.now) stored.now }
{
    stored.iter().find(|entry| entry.path.numbers == *path)
}

/// The snapshots of all other components.
fn without(stored: Vec<Stored>, path: &Seq<u32>) -> Vec<Stored>
    ensures { result.items ≡ filter (λ entry. not (bytes_eq entry.path.numbers path.now)) stored.items }
{
    let mut others = stored;
    others.retain(|entry| entry.path.numbers != *path);
    others
}

/// Whether the component of a path runs.
fn runs(going: &Going, path: &Seq<u32>) -> bool
    ensures { result ≡ spec.runs going.now path.now }
{
    match component_of(going.components.as_slice(), path) {
        Some(component) => is_running(component.state),
        None => false,
    }
}

/// The snapshots of the components that run.
fn still(now: &Config, stored: Vec<Stored>) -> Vec<Stored>
    ensures { result.items ≡ spec.still now.now stored.items }
{
    let mut still = stored;
    match now {
        Config::Ended(_) => {
            still.clear();
            still
        }
        Config::Going(going) => {
            still.retain(|entry| runs(going, &entry.path.numbers));
            still
        }
    }
}

/// The fine configuration behind a step: a component that does not run any more loses its snapshot.
fn behind(now: Config, stored: Vec<Stored>) -> Fine
    ensures now { result.now ≡ now }
    ensures stored { result.stored.items ≡ spec.still now stored.items }
{
    let stored = still(&now, stored);
    Fine { now, stored }
}

/// The stored snapshot behind the step of a label: the expiry of a timer of its component is noted.
fn note(alloc: Global, label: &Label, entry: Stored) -> Result<Stored, AllocError>
    ensures noted { (legend : Legend) → IfOk result (λ new. held_by legend new ≡ holding.noted label.now (held_by legend entry)) }
    ensures taken { IfOk result (λ new. new.taken ≡ entry.taken) }
{
    let mut entry = entry;
    if let Label::Expiry { component, .. } = label {
        if entry.path.numbers == component.numbers {
            entry.since.push(label.try_clone(alloc)?)?;
        }
    }
    Ok(entry)
}

/// The stored snapshots behind the step of a label.
fn note_all(alloc: Global, label: &Label, stored: Vec<Stored>) -> Result<Vec<Stored>, AllocError>
    ensures noted { (legend : Legend) → IfOk result (λ all. map (held_by legend) all.items ≡ map (holding.noted label.now) (map (held_by legend) stored.items)) }
    ensures taken { IfOk result (λ all. map (λ entry. entry.taken) all.items ≡ map (λ entry. entry.taken) stored.items) }
{
    let mut all = Vec::new(alloc);
    for entry in stored {
        all.push(note(alloc, label, entry)?)?;
    }
    Ok(all)
}

// ---- steps

/// The configuration to which a label leads; where it leads nowhere, nothing changes.
fn after(
    alloc: Global,
    test: &TestCase<'_>,
    config: Config,
    label: &Label,
) -> Result<Config, AllocError>
    requires { Fits (machine_of test.now) config }
    ensures after { IfOk result (λ after. said (machine_of test.now) after ≡ holding.after_label (test_by test.now) (said (machine_of test.now) config) label.now) }
    ensures fits { IfOk result (Fits (machine_of test.now)) }
{
    match next(alloc, test, &config, label) {
        Ok(after) => Ok(after),
        Err(StepError::NotEnabled) => Ok(config),
        Err(StepError::Memory) => Err(AllocError),
    }
}

/// Where labels lead, one after the other.
fn follow(
    alloc: Global,
    test: &TestCase<'_>,
    from: Config,
    labels: &[Label],
) -> Result<Config, AllocError>
    requires { Fits (machine_of test.now) from }
    ensures follows { IfOk result (λ end. said (machine_of test.now) end ≡ holding.follow (test_by test.now) labels.now (said (machine_of test.now) from)) }
    ensures fits { IfOk result (Fits (machine_of test.now)) }
{
    let mut config = from;
    for label in labels {
        config = after(alloc, test, config, label)?;
    }
    Ok(config)
}

/// A component takes its snapshot: it has to run, to stand at an `alt`, and to have stored none.
fn snap(
    alloc: Global,
    test: &TestCase<'_>,
    going: Going,
    stored: Vec<Stored>,
    path: &Path,
) -> Result<Option<FineStep>, AllocError>
    requires { spec.IsWell (machine_of test.now) (config.Going going) stored.items }
    ensures leads { IfOk result (spec.Leads (machine_of test.now) (config.Going going) stored.items (rules.Snap path.now)) }
    ensures well { IfOk result (λ found. IfSome found (spec.IsWellBehind (machine_of test.now))) }
{
    let Some(component) = component_of(going.components.as_slice(), &path.numbers) else {
        return Ok(None);
    };
    if !stands_at_alt(test, component) {
        return Ok(None);
    }
    if stored_at(stored.as_slice(), &path.numbers).is_some() {
        return Ok(None);
    }
    let taken = going.try_clone(alloc)?;
    let new = Stored {
        path: path.try_clone(alloc)?,
        taken,
        since: Vec::new(alloc),
    };
    let mut stored = stored;
    stored.insert(0, new)?;
    let fine = Fine {
        now: Config::Going(going),
        stored,
    };
    Ok(Some(FineStep {
        fine,
        fate: Fate::Lapses,
    }))
}

/// What comes of a choice: the configuration behind it, unless nothing could be chosen.
#[derive(Drop)]
struct Chosen {
    after: Option<Config>,
    fate: Fate,
}

/// What a component asked for when it took its snapshot, done in a configuration, with the expiries of its timers since
/// behind it. A dynamic error ends the test case.
fn choice(
    alloc: Global,
    test: &TestCase<'_>,
    going: &Going,
    itself: &ComponentId,
    entry: &Stored,
) -> Result<Chosen, AllocError>
    requires now { Fits (machine_of test.now) (config.Going going.now) }
    requires taken { Fits (machine_of test.now) (config.Going entry.now.taken) }
    ensures after { IfOk result (λ chosen. option_map (said (machine_of test.now)) chosen.after
        ≡ option_map (holding.follow (test_by test.now) (held_by (legend_by test.now) entry.now).since)
        (option_map steps.settled (steps.apply (test_by test.now) (going_by (legend_by test.now) going.now) itself.now (holding.act_then (test_by test.now) (held_by (legend_by test.now) entry.now))))) }
    ensures fate { IfOk result (λ chosen. fate_by chosen.fate ≡ fates.fate_of (holding.act_then (test_by test.now) (held_by (legend_by test.now) entry.now))) }
    ensures fits { IfOk result (λ chosen. IfSome chosen.after (Fits (machine_of test.now))) }
{
    slots_are_ordered(test);
    let Some(asking) = component_of(entry.taken.components.as_slice(), &entry.path.numbers) else {
        return Ok(Chosen {
            after: None,
            fate: Fate::Lapses,
        });
    };
    match asked(alloc, test, &entry.taken, asking) {
        Ok(None) => Ok(Chosen {
            after: None,
            fate: Fate::Lapses,
        }),
        Ok(Some(act)) => {
            let after = done(alloc, going, itself, act)?;
            let after = follow(alloc, test, after, entry.since.as_slice())?;
            Ok(Chosen {
                after: Some(after),
                fate: Fate::Takes,
            })
        }
        Err(Fault::Dynamic) => Ok(Chosen {
            after: Some(Config::Ended(Verdict::Error)),
            fate: Fate::Faults,
        }),
        Err(Fault::Memory) => Err(AllocError),
    }
}

/// A component chooses by the snapshot that it has stored.
fn choose(
    alloc: Global,
    test: &TestCase<'_>,
    going: Going,
    stored: Vec<Stored>,
    path: &Path,
) -> Result<Option<FineStep>, AllocError>
    requires { spec.IsWell (machine_of test.now) (config.Going going) stored.items }
    ensures leads { IfOk result (spec.Leads (machine_of test.now) (config.Going going) stored.items (rules.Choose path.now)) }
    ensures well { IfOk result (λ found. IfSome found (spec.IsWellBehind (machine_of test.now))) }
{
    let Some(component) = component_of(going.components.as_slice(), &path.numbers) else {
        return Ok(None);
    };
    let Some(entry) = stored_at(stored.as_slice(), &path.numbers) else {
        return Ok(None);
    };
    let Chosen { after, fate } = choice(alloc, test, &going, &component.itself, entry)?;
    let others = without(stored, &path.numbers);
    match after {
        Some(after) => {
            let fine = behind(after, others);
            Ok(Some(FineStep { fine, fate }))
        }
        None => {
            let fine = Fine {
                now: Config::Going(going),
                stored: others,
            };
            Ok(Some(FineStep { fine, fate }))
        }
    }
}

/// Any step but one at an `alt`.
fn step_plainly(
    alloc: Global,
    test: &TestCase<'_>,
    going: Going,
    stored: Vec<Stored>,
    label: &Label,
) -> Result<Option<FineStep>, AllocError>
    requires { spec.IsWell (machine_of test.now) (config.Going going) stored.items }
    ensures leads { IfOk result (spec.Leads (machine_of test.now) (config.Going going) stored.items (rules.Plain label.now)) }
    ensures well { IfOk result (λ found. IfSome found (spec.IsWellBehind (machine_of test.now))) }
{
    if is_of_alt(test, &going, label) {
        return Ok(None);
    }
    let Some(after) = step(alloc, test, &going, label)? else {
        return Ok(None);
    };
    let stored = note_all(alloc, label, stored)?;
    Ok(Some(FineStep {
        fine: behind(after, stored),
        fate: Fate::Lapses,
    }))
}

/// The fine configuration behind the step of a fine label, if the label can follow.
pub(crate) fn fine_step(
    alloc: Global,
    test: &TestCase<'_>,
    fine: Fine,
    label: &FineLabel,
) -> Result<Option<FineStep>, AllocError>
    requires { spec.IsWell (machine_of test.now) fine.now fine.stored.items }
    ensures leads { IfOk result (spec.Leads (machine_of test.now) fine.now fine.stored.items label.now) }
    ensures well { IfOk result (λ found. IfSome found (spec.IsWellBehind (machine_of test.now))) }
{
    let Fine { now, stored } = fine;
    let Config::Going(going) = now else {
        return Ok(None);
    };
    match label {
        FineLabel::Snap(path) => snap(alloc, test, going, stored, path),
        FineLabel::Choose(path) => choose(alloc, test, going, stored, path),
        FineLabel::Plain(label) => step_plainly(alloc, test, going, stored, label),
    }
}
