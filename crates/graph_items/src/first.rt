//! What stands first in a list of what remains.
ghost use Rattle.std.specs.Prelude.{◌≡◌, ◌∷◌, List};
ghost use Rattle.check_scope.specs.Names.{Entry};
ghost use Rattle.semantics.specs.Items as rules;
ghost use Rattle.graph_items.specs.Begun.{IsBegunBy};
ghost use Rattle.graph_items.specs.Standing.{item_of};

use crate::item::{Item, Part, Target};
use ttcn_syntax::Statement;

/// The first item of a list of what remains.
#[derive(Clone, Copy)]
pub enum First<'g, 'a> {
    /// A part of a statement, and the position of the behaviour in which it stands.
    Doing {
        behaviour: usize,
        statement: &'a Statement,
        part: Part,
    },
    /// An `alt`, or what stands for one, in a branch of which the items before are.
    Mark(&'a Statement),
    /// A call's result goes there.
    Waiting(&'g Target<'a>),
}

/// An item, where it stands first.
pub fn first_of<'g, 'a>(item: &'g Item<'a>) -> First<'g, 'a>
    ensures { (sites : List (List Entry)) (rest : List rules.Item) → IsBegunBy (item_of sites item.now ∷ rest) result rest }
{
    match item {
        Item::Doing(site, statement, part) => First::Doing {
            behaviour: site.behaviour,
            statement: statement.get(),
            part: *part,
        },
        Item::Mark(_site, statement) => First::Mark(statement.get()),
        Item::Waiting(target) => First::Waiting(target),
    }
}
