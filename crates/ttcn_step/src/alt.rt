//! Whether a component stands at an `alt`, or at what stands for one (ES 201 873-1, 20.2).
ghost use Rattle.std.specs.Prelude.{◌≡◌, ◌∷◌, [], List, get_or, is_some};
ghost use Rattle.check_rules.specs.Calls.{altstep_meant};
ghost use Rattle.check_scope.specs.Names.{module_names};
ghost use Rattle.laws_fine.specs.Fine as fine;
ghost use Rattle.graph_items.specs.Begun.{item_at};
ghost use Rattle.graph_items.specs.Standing.{part_of};
ghost use Rattle.semantics.specs.Items.{Doing, Item, action_of};
ghost use Rattle.semantics.specs.Sites.{Site};
ghost use Rattle.step_snapshot.specs.Tests.{legend_by, test_by};
ghost use Rattle.config_parts.specs.Legend.{component_by, going_by};

use crate::step::{component_of, is_running};
use check_scope::names::Meaning;
use config_parts::{Component, Going};
use step_labels::Label;
use step_snapshot::TestCase;
use ttcn_graph::{First, Part};
use ttcn_syntax::{Action, Call, Statement};

/// Whether a call is one of an altstep.
fn calls_altstep(test: &TestCase<'_>, call: &Call) -> bool
    ensures { result ≡ is_some (altstep_meant (module_names test.now.definitions call.now.name)) }
{
    matches!(
        test.definitions.meaning(call.name.as_bytes()),
        Some(Meaning::Altstep(_))
    )
}

/// Whether a statement is an `alt`, or one event or one call of an altstep as an `alt` of its own.
fn is_alt(test: &TestCase<'_>, statement: &Statement) -> bool
    ensures { result ≡ fine.is_alt (test_by test.now) (action_of statement.now) }
{
    match statement.action.get() {
        Action::Alt(_) => true,
        Action::Event(_) => true,
        Action::Call(call) => calls_altstep(test, call),
        _ => false,
    }
}

/// Whether a part of a statement is an `alt`: only the whole of one is.
fn is_alt_part(test: &TestCase<'_>, statement: &Statement, part: Part) -> bool
    ensures { (site : Site) (rest : List Item) → result ≡ fine.begins_with_alt (test_by test.now) (Doing site statement.now (part_of part) ∷ rest) }
{
    match part {
        Part::Whole => is_alt(test, statement),
        Part::Name(_) => false,
        Part::From(_) => false,
        Part::Start => false,
        Part::Loop => false,
        Part::Last => false,
    }
}

/// Whether what stands first is an `alt`.
fn is_alt_first(test: &TestCase<'_>, first: First<'_, '_>) -> bool
    ensures { (site : Site) (rest : List Item) → result ≡ fine.begins_with_alt (test_by test.now) (item_at site first.entry ∷ rest) }
{
    match first {
        First::Doing {
            statement,
            part,
            ..
        } => is_alt_part(test, statement, part),
        First::Mark(_) => false,
        First::Waiting(_) => false,
    }
}

/// Whether an `alt` stands first in the list at a position.
fn is_alt_at(test: &TestCase<'_>, position: usize) -> bool
    ensures { result ≡ fine.begins_with_alt (test_by test.now) (get_or test.now.graphs.lists position []) }
{
    if position >= test.graphs.len() {
        return false;
    }
    match test.graphs.first(position) {
        Some((first, _behind)) => is_alt_first(test, first),
        None => false,
    }
}

/// Whether a component runs and stands at an `alt`.
pub(crate) fn stands_at_alt(test: &TestCase<'_>, component: &Component) -> bool
    ensures { result ≡ fine.stands_at_alt (test_by test.now) (component_by (legend_by test.now) component.now) }
{
    if !is_running(component.state) {
        return false;
    }
    match component.own.calls.as_slice().first() {
        Some(frame) => is_alt_at(test, frame.remaining),
        None => false,
    }
}

/// Whether a label is the statement of an `alt`.
pub(crate) fn is_of_alt(test: &TestCase<'_>, going: &Going, label: &Label) -> bool
    ensures { result ≡ fine.is_of_alt (test_by test.now) (going_by (legend_by test.now) going.now) label.now }
{
    match label {
        Label::Statement(path) => match component_of(going.components.as_slice(), &path.numbers) {
            Some(component) => stands_at_alt(test, component),
            None => false,
        },
        Label::Expiry { .. } => false,
        Label::Delivery(_) => false,
    }
}
