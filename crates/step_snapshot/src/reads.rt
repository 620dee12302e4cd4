//! What is read in a snapshot (ES 201 873-1, 5.2, 20.2 and 21.3).
ghost use Rattle.std.specs.Prelude.{◌≡◌, ◌&&◌, bytes_eq, is_some, length, not};
ghost use Rattle.std.specs.List.{find, list_any};
ghost use Rattle.std.specs.Option.{option_map};
ghost use Rattle.check_scope.specs.Names.{component_meant};
ghost use Rattle.semantics.specs.Configurations.{is_running_state, is_terminated_state, same_path};
ghost use Rattle.semantics.specs.Sites as sites;
ghost use Rattle.semantics.specs.Snapshots as rules;
ghost use Rattle.semantics.specs.Storing.{last_values};
ghost use Rattle.step_snapshot.specs.Seen.{own_by, seen_by};
ghost use Rattle.step_snapshot.specs.Tests.{legend_by, test_by};
ghost use Rattle.config_parts.specs.Legend.{queue_by, state_by};
ghost use Rattle.config_parts.specs.Views.{HasSlotsWithin, view_by};
ghost use Rattle.value_types.specs.Frames.{entry, reading, seen_entry};

use crate::snapshot::Snapshot;
use crate::test_case::TestCase;
use check_rules::runs_on_of;
use check_scope::names::Meaning;
use config_parts::{Cells, Component, Queue, State, frame_of, names_make_legends};
use ttcn_syntax::{DefinitionKind, Name};
use value_types::{Frame, Path, Slot, TimerState};

/// The name of the component type that a behaviour runs on, where it says so.
fn component_name<'a>(kind: Option<&'a DefinitionKind>) -> Option<&'a Name>
    ensures { option_map (λ name. name.now) result ≡ sites.component_name (option_map (λ kind. kind.now) kind.entry) }
{
    match kind {
        Some(DefinitionKind::Testcase(testcase)) => Some(&testcase.runs_on),
        _ => runs_on_of(kind),
    }
}

/// Whether a name stands for a component type.
fn is_component(meaning: Option<Meaning>) -> bool
    ensures { result ≡ is_some (component_meant meaning) }
{
    match meaning {
        Some(Meaning::Component(_)) => true,
        _ => false,
    }
}

fn is_running(state: State) -> bool
    ensures { result ≡ is_running_state (state_by state) }
{
    match state {
        State::Running => true,
        State::Created | State::Terminated => false,
    }
}

fn is_terminated(state: State) -> bool
    ensures { result ≡ is_terminated_state (state_by state) }
{
    match state {
        State::Terminated => true,
        State::Created | State::Running => false,
    }
}

/// The timer of a name, where one has the name.
fn timer_named<'b>(
    test: &TestCase<'_>,
    timers: &'b [(Slot, TimerState)],
    name: &Name,
) -> Option<&'b (Slot, TimerState)>
    ensures { option_map (λ timer. timer.now) result ≡ find (λ timer. bytes_eq ((legend_by test.now).names timer.0) name.now) timers.now }
{
    timers.iter().find(|timer| test.has_name(timer.0, name))
}

/// The state of the timer of a name, where one has the name.
fn timer_in(test: &TestCase<'_>, cells: &Cells, name: &Name) -> Option<TimerState>
    ensures { result ≡ entry (view_by (legend_by test.now) cells.now).timers name.now }
{
    match timer_named(test, cells.timers.as_slice(), name) {
        Some(timer) => Some(timer.1),
        None => None,
    }
}

/// The port of a name, where one has the name.
fn queue_named<'b>(test: &TestCase<'_>, queues: &'b [Queue], name: &Name) -> Option<&'b Queue>
    ensures { option_map (λ queue. queue.now) result ≡ find (λ queue. bytes_eq ((legend_by test.now).names queue.port) name.now) queues.now }
{
    queues.iter().find(|queue| test.has_name(queue.port, name))
}

/// The component of a path, where there is one.
fn component_at<'b>(components: &'b [Component], path: &Path) -> Option<&'b Component>
    ensures { option_map (λ component. component.now) result ≡ find (λ component. same_path component.itself.path path.now) components.now }
{
    components
        .iter()
        .find(|component| component.itself.path == *path)
}

/// Whether another component than that of a path runs.
fn another_runs(components: &[Component], path: &Path) -> bool
    ensures { result ≡ list_any (λ component. is_running_state (state_by component.state) && not (same_path component.itself.path path.now)) components.now }
{
    components.iter().any(|component| is_running(component.state) && component.itself.path != *path)
}

impl<'t, 'a> Snapshot<'t, 'a> {
    /// Whether the behaviour at a position says on what it runs, and so sees the names of the component.
    fn sees_members(&self, behaviour: usize) -> bool
        ensures { result ≡ is_some (sites.runs_on self.now.test.now.definitions behaviour) }
    {
        let definitions = &self.test.definitions;
        match component_name(definitions.kind(behaviour)) {
            Some(name) => is_component(definitions.meaning(name.as_bytes())),
            None => false,
        }
    }

    /// What is read in the behaviour at a position, where the names of a frame have these values and timers.
    pub fn frame<'b>(&'b self, behaviour: usize, inner: &'b Cells) -> Frame<'b>
        requires { HasSlotsWithin (length self.now.test.now.names) inner.now }
        ensures { (site : sites.Site) → site.behaviour ≡ behaviour
            → reading result ≡ rules.reading_in (test_by self.now.test.now) (seen_by self.now) (own_by self.now) site (view_by (legend_by self.now.test.now) inner.now) }
    {
        names_make_legends();
        let test = self.test;
        let outer = if self.sees_members(behaviour) {
            &self.component.own.members
        } else {
            &test.nothing
        };
        frame_of(
            &test.definitions,
            test.names.as_slice(),
            inner,
            outer,
            self.running,
            &self.component.itself,
            &test.mtc,
        )
    }

    /// What the names of the last frame have.
    pub fn last_cells(&self) -> &'a Cells
        ensures within { HasSlotsWithin (length self.now.test.now.names) result.now }
        ensures seen { view_by (legend_by self.now.test.now) result.now ≡ record { values = last_values (own_by self.now).calls; timers = (seen_by self.now).timers } }
    {
        match self.component.own.calls.as_slice().first() {
            Some(frame) => frame.cells.get(),
            None => &self.test.nothing,
        }
    }

    /// The state of a timer in the behaviour at a position, where the names of a frame have these values and timers.
    pub fn timer(&self, behaviour: usize, inner: &Cells, name: &Name) -> Option<TimerState>
        ensures { (site : sites.Site) → site.behaviour ≡ behaviour
            → result ≡ seen_entry (view_by (legend_by self.now.test.now) inner.now).timers (rules.seen_members (test_by self.now.test.now) site (rules.members_in (seen_by self.now) (own_by self.now))).timers name.now }
    {
        let found = timer_in(self.test, inner, name);
        if found.is_some() || !self.sees_members(behaviour) {
            return found;
        }
        timer_in(self.test, &self.component.own.members, name)
    }

    /// The messages that wait at the port of a name, where there is one.
    pub fn queue(&self, name: &Name) -> Option<&'a Queue>
        ensures { option_map (λ queue. rules.front_at (queue_by (legend_by self.now.test.now) queue.now)) result ≡ find (λ front. bytes_eq front.0 name.now) (seen_by self.now).fronts }
    {
        queue_named(self.test, self.component.queues.as_slice(), name)
    }

    /// Whether a component is terminated.
    pub fn is_terminated(&self, path: &Path) -> bool
        ensures { result ≡ rules.is_terminated_in (seen_by self.now) path.now }
    {
        match component_at(self.going.components.as_slice(), path) {
            Some(component) => is_terminated(component.state),
            None => false,
        }
    }

    /// Whether another component than the MTC runs.
    pub fn others_run(&self) -> bool
        ensures { result ≡ rules.others_run (seen_by self.now) self.now.test.now.mtc.path }
    {
        another_runs(self.going.components.as_slice(), &self.test.mtc.path)
    }
}
