//! Where a component stands in its step.
ghost use Rattle.std.specs.Prelude.{◌≡◌, ◌<◌, ◌∷◌, length};
ghost use Rattle.step_forms.specs.internal.Places.{behind_first, list_at, site_at};
ghost use Rattle.semantics.specs.Items as rules;
ghost use Rattle.graph_sites.specs.Facts.{facts_by, facts_of};
ghost use Rattle.step_snapshot.specs.Slots.{NoneIsMissing};
ghost use Rattle.graph_items.specs.Standing.{part_of};
ghost use Rattle.graph_names.specs.Known.{names_of};

use config_parts::Frame;
use step_snapshot::Snapshot;
use ttcn_graph::{Facts, Part};
use ttcn_syntax::Statement;

/// A component, with its last frame and the part of a statement that stands there first.
#[derive(Drop)]
pub struct Stand<'t, 'a> {
    pub snapshot: &'a Snapshot<'t, 'a>,
    pub frame: &'a Frame,
    /// The position of the behaviour in which the statement stands.
    pub behaviour: usize,
    pub statement: &'a Statement,
    pub part: Part,
    /// The position of what remains behind it.
    pub rest: usize,
    pub facts: &'a Facts<'t>,
    ghost last: { snapshot.now.component.now.own.calls ≡ frame.now ∷ behind_first snapshot.now.component.now.own.calls },
    ghost there: { frame.now.remaining < length snapshot.now.test.now.graphs.lists },
    ghost behind: { rest < length snapshot.now.test.now.graphs.lists },
    ghost first: { list_at snapshot.now.test.now frame.now.remaining ≡ rules.Doing (site_at snapshot.now.test.now frame.now.remaining) statement.now (part_of part) ∷ list_at snapshot.now.test.now rest },
    ghost site: { (site_at snapshot.now.test.now frame.now.remaining).behaviour ≡ behaviour },
    ghost known: { facts_by facts.now ≡ facts_of snapshot.now.test.now.definitions (list_at snapshot.now.test.now frame.now.remaining) },
    ghost named: { NoneIsMissing snapshot.now.test.now.names (names_of (list_at snapshot.now.test.now frame.now.remaining)) },
}
