//! What of a statement a step begins with (ES 201 873-1, 19).
ghost use Rattle.std.specs.Prelude.{◌≡◌, ◌∷◌, [], List, get_or, map};
ghost use Rattle.std.specs.Option.{option_map};
ghost use Rattle.semantics.specs.Items.{Item};
ghost use Rattle.semantics.specs.Sites.{Site};
ghost use Rattle.step_snapshot.specs.Tests.{legend_by};
ghost use Rattle.config_parts.specs.Legend.{component_by, frame_by};
ghost use Rattle.graph_items.specs.Begun.{item_at};
ghost use Rattle.graph_items.specs.Standing.{part_of};
ghost use Rattle.ttcn_step.specs.Parts as rules;

use crate::step::is_running;
use config_parts::{Component, Frame};
use step_snapshot::TestCase;
use ttcn_graph::{First, Part};

/// What of a statement stands first, if a part of one does.
fn part_first(first: First<'_, '_>) -> Option<Part>
    ensures { (site : Site) (rest : List Item) → option_map part_of result ≡ rules.part_of_item (item_at site first.entry ∷ rest) }
{
    match first {
        First::Doing { part, .. } => Some(part),
        First::Mark(_) => None,
        First::Waiting(_) => None,
    }
}

/// What of a statement stands first in the list at a position.
fn part_at(test: &TestCase<'_>, at: usize) -> Option<Part>
    ensures { option_map part_of result ≡ rules.part_of_item (get_or test.now.graphs.lists at []) }
{
    if at >= test.graphs.len() {
        return None;
    }
    match test.graphs.first(at) {
        Some(found) => part_first(found.0),
        None => None,
    }
}

/// What of a statement the last frame has to do first.
fn part_in(test: &TestCase<'_>, calls: &[Frame]) -> Option<Part>
    ensures { option_map part_of result ≡ rules.part_of_frames (map (frame_by (legend_by test.now)) calls.now) }
{
    match calls.first() {
        Some(frame) => part_at(test, frame.remaining),
        None => None,
    }
}

/// What of a statement a component that runs has to do first.
pub(crate) fn part_of(test: &TestCase<'_>, component: &Component) -> Option<Part>
    ensures { option_map part_of result ≡ rules.part_of_component (component_by (legend_by test.now) component.now) }
{
    if is_running(component.state) {
        part_in(test, component.own.calls.as_slice())
    } else {
        None
    }
}
