//! Graphs that have been drawn.
ghost use Rattle.std.specs.Prelude.{◌≡◌, ◌<◌, [], length, get_or, slice_get, IfNone, IfSome, None};
ghost use Rattle.graph_numbers.specs.Lists.{AreDifferent};
ghost use Rattle.graph_items.specs.Begun.{IsBegunBy};
ghost use Rattle.graph_sites.specs.Facts.{facts_by, facts_of};
ghost use Rattle.ttcn_graph.specs.Drafts.{HasWays, IsWay};
ghost use Rattle.ttcn_graph.specs.Ways.{ways_of};

use crate::cells::FixedCells;
use graph_items::{First, first_of};
use graph_sites::Facts;
use std::marker::Model;
use ttcn_syntax::{Definition, Seq};

/// The lists of definitions by their positions, and where each leads. A contract sees a draft that went back to the beginning.
pub(crate) struct Drawn<'a> {
    pub(crate) definitions: &'a [Definition],
    pub(crate) cells: FixedCells<'a>,
    pub(crate) ways: Vec<Seq<usize>>,
}

impl<'a> Drop for Drawn<'a> {
    fn drop(self) {
        let Drawn {
            definitions: _definitions,
            cells: _cells,
            ways: _ways,
        } = self;
    }
}

impl<'a> Model for Drawn<'a> {
    ghost use Rattle.std.specs.Prelude.{◌≡◌, map};
    ghost use Rattle.std.specs.Coded.{codes};
    ghost use Rattle.ttcn_syntax.specs.contracts.tree.statement.Action as action;
    ghost use Rattle.ttcn_syntax.specs.contracts.tree.statement.Branch as branch;
    ghost use Rattle.ttcn_syntax.specs.contracts.tree.statement.Statement as statement;
    ghost use Rattle.ttcn_syntax.specs.contracts.tree.template.Template as template;
    ghost use Rattle.ttcn_syntax.specs.contracts.tree.value.Value as value;
    ghost use Rattle.semantics.specs.Sites.{beginning};
    ghost use Rattle.graph_sites.specs.Facts.{facts_by, facts_of};
    ghost use Rattle.ttcn_graph.specs.Drafts as drafts;

    ghost Value = { drafts.Draft };

    ghost coded = { Prim.hlevel (codes, action.the_row.coded, branch.the_row.coded, statement.the_row.coded, template.the_row.coded, value.the_row.coded) };

    ghost view = { λ d. record { definitions = d.definitions.now; site = beginning 0; lists = d.cells.1; ways = d.ways.items } };

    ghost invariant = { λ d. map facts_by d.cells.2 ≡ map (facts_of d.definitions.now) d.cells.1 };
}

/// The position at a place among positions.
pub(crate) fn way_in(ways: &Seq<usize>, place: usize) -> Option<usize>
    ensures { result ≡ slice_get ways.now place }
{
    ways.as_slice().get(place).copied()
}

impl<'a> Drawn<'a> {
    /// How many lists there are.
    pub(crate) fn len(&self) -> usize
        ensures { result ≡ length self.now.lists }
    {
        self.cells.len()
    }

    /// The position of the empty list.
    pub(crate) fn nothing(&self) -> usize
        ensures within { result < length self.now.lists }
        ensures empty { get_or self.now.lists result [] ≡ [] }
    {
        self.cells.nothing()
    }

    /// The position of one of the lists that may come of the list at a position, where those were said.
    pub(crate) fn way(&self, at: usize, place: usize) -> Option<usize>
        ensures found { IfSome result (λ way. HasWays self.now at → IsWay self.now at place way) }
        ensures missing { IfNone result (HasWays self.now at → slice_get (ways_of self.now.definitions (get_or self.now.lists at [])) place ≡ None) }
    {
        match self.ways.get(at) {
            Some(ways) => way_in(ways, place),
            None => None,
        }
    }

    /// What stands first in the list at a position, and the position of the list behind it, which is a lesser one.
    pub(crate) fn first(&self, at: usize) -> Option<(First<'_, 'a>, usize)>
        requires { at < length self.now.lists }
        ensures missing { IfNone result (get_or self.now.lists at [] ≡ []) }
        ensures found { IfSome result (λ found. IsBegunBy (get_or self.now.lists at []) found.0 (get_or self.now.lists found.1 [])) }
        ensures before { IfSome result (λ found. found.1 < at) }
    {
        match self.cells.first(at) {
            Some((item, rest)) => Some((first_of(item), rest)),
            None => None,
        }
    }

    /// What is known where the first item of the list at a position stands.
    pub(crate) fn facts(&self, at: usize) -> &Facts<'a>
        requires { at < length self.now.lists }
        ensures { facts_by result.now ≡ facts_of self.now.definitions (get_or self.now.lists at []) }
    {
        match self.cells.facts(at) {
            Some(facts) => facts,
            None => unreachable!(),
        }
    }

    /// No list has two positions.
    pub(crate) fn lists_differ(&self)
        ensures { AreDifferent self.now.lists }
    {
        self.cells.lists_differ();
    }
}
