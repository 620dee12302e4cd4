//! Whether a component stands at an `alt`: elsewhere it has a step (ES 201 873-1, 20.2).
ghost use Rattle.std.specs.Prelude.{◌≡◌, ◌∷◌, [], List, get_or, true};
ghost use Rattle.graph_items.specs.Begun.{item_at};
ghost use Rattle.graph_items.specs.Standing.{part_of};
ghost use Rattle.semantics.specs.Items.{Doing, Item, action_of};
ghost use Rattle.semantics.specs.Sites.{Site};
ghost use Rattle.step_snapshot.specs.Tests.{legend_by, test_by};
ghost use Rattle.config_parts.specs.Legend.{component_by};
ghost use Rattle.ttcn_step.specs.internal.Plain.{HasStep, IsPlain, IsPlainFirst};

use config_parts::Component;
use step_snapshot::TestCase;
use ttcn_graph::{First, Part};
use ttcn_syntax::{Action, Statement};

/// Whether a statement is no `alt`, and stands for none. A call may be one of an altstep.
fn is_plain(statement: &Statement) -> bool
    ensures { result ≡ true → IsPlain (action_of statement.now) }
{
    match statement.action.get() {
        Action::Call(_) => false,
        Action::Event(_) => false,
        Action::Alt(_) => false,
        _ => true,
    }
}

/// Whether a part of a statement is no `alt`: only the whole of one is.
fn is_plain_part(statement: &Statement, part: Part) -> bool
    ensures { result ≡ true → (site : Site) (rest : List Item) → IsPlainFirst (Doing site statement.now (part_of part) ∷ rest) }
{
    match part {
        Part::Whole => is_plain(statement),
        Part::Name(_) => true,
        Part::From(_) => true,
        Part::Start => true,
        Part::Loop => true,
        Part::Last => true,
    }
}

/// Whether what stands first is no `alt`.
fn is_plain_first(first: First<'_, '_>) -> bool
    ensures { result ≡ true → (site : Site) (rest : List Item) → IsPlainFirst (item_at site first.entry ∷ rest) }
{
    match first {
        First::Doing {
            statement,
            part,
            ..
        } => is_plain_part(statement, part),
        First::Mark(_) => true,
        First::Waiting(_) => true,
    }
}

/// Whether no `alt` stands first at a position.
pub(crate) fn is_plain_at(test: &TestCase<'_>, position: usize) -> bool
    ensures { result ≡ true → IsPlainFirst (get_or test.now.graphs.lists position []) }
{
    if position >= test.graphs.len() {
        return true;
    }
    match test.graphs.first(position) {
        Some((first, _behind)) => is_plain_first(first),
        None => true,
    }
}

/// Whether a component stands at no `alt`: then it has a step wherever it runs, and nothing has to be evaluated to know it.
pub(crate) fn stands_at_plain(test: &TestCase<'_>, component: &Component) -> bool
    ensures { result ≡ true → HasStep (test_by test.now) (component_by (legend_by test.now) component.now) }
{
    match component.own.calls.as_slice().first() {
        Some(frame) => is_plain_at(test, frame.remaining),
        None => true,
    }
}
