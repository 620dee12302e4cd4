//! Lists of what remains, what is known where they begin, and the lists of declared names that their sites name.
ghost use Rattle.std.specs.Prelude.{◌≡◌, ◌<◌, ◌∷◌, [], List, length, map, slice_get, Some, get_or, IfNone, IfOk, IfSome, OnOk, OnErr};
ghost use Rattle.std.specs.Option.{option_map};
ghost use Rattle.check_scope.specs.Names.{Entry};
ghost use Rattle.graph_numbers.specs.Lists.{AreDifferent, IsPut};
ghost use Rattle.semantics.specs.Items as rules;
ghost use Rattle.graph_items.specs.Standing.{item_of};
ghost use Rattle.graph_sites.specs.Facts as spec;
ghost use Rattle.graph_sites.specs.declared.facts.Facts.TheVariants as facts;
ghost use Rattle.graph_sites.specs.internal.OwnNames.{without_first};
ghost use Rattle.ttcn_graph.specs.internal.Within.{IsWithin};

use graph_items::{Declared, Item};
use graph_numbers::{Fixed, Lists};
use graph_sites::Facts;
use std::alloc::{AllocError, Global};
use std::marker::Model;

/// Lists of items by positions. A contract sees the lists of declared names, the lists of items of the rules, and what is
/// known at each of these.
pub(crate) struct Cells<'a> {
    sites: Lists<Declared<'a>>,
    items: Lists<Item<'a>>,
    facts: Vec<Facts<'a>>,
}

impl<'a> Drop for Cells<'a> {
    fn drop(self) {
        let Cells {
            sites: _sites,
            items: _items,
            facts: _facts,
        } = self;
    }
}

impl<'a> Model for Cells<'a> {
    ghost use Rattle.std.specs.Prelude.{List, map, length};
    ghost use Rattle.std.specs.Coded.{codes};
    ghost use Rattle.ttcn_syntax.specs.contracts.tree.statement.Action as action;
    ghost use Rattle.ttcn_syntax.specs.contracts.tree.statement.Branch as branch;
    ghost use Rattle.ttcn_syntax.specs.contracts.tree.statement.Statement as statement;
    ghost use Rattle.ttcn_syntax.specs.contracts.tree.template.Template as template;
    ghost use Rattle.ttcn_syntax.specs.contracts.tree.value.Value as value;
    ghost use Rattle.check_scope.specs.Names.{Entry};
    ghost use Rattle.graph_numbers.specs.Lists.{lists_of};
    ghost use Rattle.semantics.specs.Items as rules;
    ghost use Rattle.graph_items.specs.Standing.{remaining_of};
    ghost use Rattle.graph_sites.specs.declared.facts.Facts.{Facts};
    ghost use Rattle.ttcn_graph.specs.internal.Within.{AreAllWithin};

    ghost Value = { List (List Entry) × List (List rules.Item) × List Facts };

    ghost coded = { Prim.hlevel (codes, action.the_row.coded, branch.the_row.coded, statement.the_row.coded, template.the_row.coded, value.the_row.coded) };

    ghost view = { λ cells. (lists_of cells.sites.cells.keys, map (remaining_of (lists_of cells.sites.cells.keys)) (lists_of cells.items.cells.keys), cells.facts.items) };

    ghost invariant = { λ cells. AreAllWithin (length (lists_of cells.sites.cells.keys)) (lists_of cells.items.cells.keys) };
}

impl<'a> Cells<'a> {
    /// The empty lists alone.
    pub(crate) fn new(alloc: Global) -> Result<Cells<'a>, AllocError>
        ensures { IfOk result (λ cells. cells ≡ ([] ∷ [], [] ∷ [], facts.Nothing ∷ [])) }
    {
        let mut facts = Vec::new(alloc);
        facts.push(Facts::Nothing)?;
        Ok(Cells {
            sites: Lists::new(alloc),
            items: Lists::new(alloc),
            facts,
        })
    }

    /// The position of no declared names.
    pub(crate) fn no_names(&self) -> usize
        ensures within { result < length self.now.0 }
        ensures empty { get_or self.now.0 result [] ≡ [] }
    {
        self.sites.empty()
    }

    /// The position of no items.
    pub(crate) fn nothing(&self) -> usize
        ensures within { result < length self.now.1 }
        ensures empty { get_or self.now.1 result [] ≡ [] }
    {
        self.items.empty()
    }

    /// The position of a list of declared names with one more in front.
    pub(crate) fn declare(
        &mut self,
        declared: Declared<'a>,
        rest: usize,
    ) -> Result<usize, AllocError>
        requires { rest < length self.old.0 }
        ensures declared { IfOk result (λ at. IsPut self.old.0 self.new.0 at declared.entry rest) }
        ensures lists { OnOk result (self.new.1 ≡ self.old.1) }
        ensures facts { OnOk result (self.new.2 ≡ self.old.2) }
        ensures refused { OnErr result (self.new ≡ self.old) }
    {
        Ok(self.sites.put(declared, rest)?)
    }

    /// The position of a list of declared names without its first one.
    pub(crate) fn before(&self, at: usize) -> usize
        requires { at < length self.now.0 }
        ensures within { result < length self.now.0 }
        ensures names { get_or self.now.0 result [] ≡ without_first (get_or self.now.0 at []) }
    {
        match self.sites.first(at) {
            Some((_, rest)) => rest,
            None => at,
        }
    }

    /// The position of the list with an item before those of another, and with what is known there. What was known at each
    /// list stays so, whatever becomes of it.
    pub(crate) fn put(
        &mut self,
        item: Item<'a>,
        rest: usize,
        facts: Facts<'a>,
    ) -> Result<usize, AllocError>
        requires rest { rest < length self.old.1 }
        requires site { IsWithin (length self.old.0) item }
        ensures put { IfOk result (λ at. IsPut self.old.1 self.new.1 at (item_of self.old.0 item.entry) rest) }
        ensures names { self.new.0 ≡ self.old.0 }
        ensures facts { (known : List rules.Item → spec.Facts) → map spec.facts_by self.old.2 ≡ map known self.old.1
            → spec.facts_by facts.entry ≡ known (item_of self.old.0 item.entry ∷ get_or self.old.1 rest [])
            → map spec.facts_by self.new.2 ≡ map known self.new.1 }
    {
        self.facts.push(facts)?;
        let put = self.items.put(item, rest);
        // A list that has its position already, or is refused, has nothing to add.
        self.facts.truncate(self.items.len());
        Ok(put?)
    }

    /// The lists as they are.
    pub(crate) fn fix(self, alloc: Global) -> Result<FixedCells<'a>, AllocError>
        ensures { IfOk result (λ fixed. fixed ≡ self.entry) }
    {
        let Cells {
            sites,
            items,
            facts,
        } = self;
        Ok(FixedCells {
            sites: sites.fix(alloc)?,
            items: items.fix(alloc)?,
            facts,
        })
    }
}

/// Lists of items by positions, to which none is added any more. A contract sees what it sees of those before.
pub(crate) struct FixedCells<'a> {
    sites: Fixed<Declared<'a>>,
    items: Fixed<Item<'a>>,
    facts: Vec<Facts<'a>>,
}

impl<'a> Drop for FixedCells<'a> {
    fn drop(self) {
        let FixedCells {
            sites: _sites,
            items: _items,
            facts: _facts,
        } = self;
    }
}

impl<'a> Model for FixedCells<'a> {
    ghost use Rattle.std.specs.Prelude.{List, map, length};
    ghost use Rattle.std.specs.Coded.{codes};
    ghost use Rattle.ttcn_syntax.specs.contracts.tree.statement.Action as action;
    ghost use Rattle.ttcn_syntax.specs.contracts.tree.statement.Branch as branch;
    ghost use Rattle.ttcn_syntax.specs.contracts.tree.statement.Statement as statement;
    ghost use Rattle.ttcn_syntax.specs.contracts.tree.template.Template as template;
    ghost use Rattle.ttcn_syntax.specs.contracts.tree.value.Value as value;
    ghost use Rattle.check_scope.specs.Names.{Entry};
    ghost use Rattle.graph_numbers.specs.Lists.{lists_of};
    ghost use Rattle.semantics.specs.Items as rules;
    ghost use Rattle.graph_items.specs.Standing.{remaining_of};
    ghost use Rattle.graph_sites.specs.declared.facts.Facts.{Facts};
    ghost use Rattle.ttcn_graph.specs.internal.Within.{AreAllWithin};

    ghost Value = { List (List Entry) × List (List rules.Item) × List Facts };

    ghost coded = { Prim.hlevel (codes, action.the_row.coded, branch.the_row.coded, statement.the_row.coded, template.the_row.coded, value.the_row.coded) };

    ghost view = { λ cells. (lists_of cells.sites.cells.items, map (remaining_of (lists_of cells.sites.cells.items)) (lists_of cells.items.cells.items), cells.facts.items) };

    ghost invariant = { λ cells. AreAllWithin (length (lists_of cells.sites.cells.items)) (lists_of cells.items.cells.items) };
}

impl<'a> FixedCells<'a> {
    /// How many lists of items there are.
    pub(crate) fn len(&self) -> usize
        ensures { result ≡ length self.now.1 }
    {
        self.items.len()
    }

    /// The position of no items.
    pub(crate) fn nothing(&self) -> usize
        ensures within { result < length self.now.1 }
        ensures empty { get_or self.now.1 result [] ≡ [] }
    {
        self.items.empty()
    }

    /// What is known at a list.
    pub(crate) fn facts(&self, at: usize) -> Option<&Facts<'a>>
        ensures { option_map (λ facts. facts.now) result ≡ slice_get self.now.2 at }
    {
        self.facts.get(at)
    }

    /// The first item of a list, and the position of the list behind it.
    pub(crate) fn first(&self, at: usize) -> Option<(&Item<'a>, usize)>
        requires { at < length self.now.1 }
        ensures empty { IfNone result (get_or self.now.1 at [] ≡ []) }
        ensures item { IfSome result (λ found. get_or self.now.1 at [] ≡ item_of self.now.0 found.0.now ∷ get_or self.now.1 found.1 []) }
        ensures before { IfSome result (λ found. found.1 < at) }
    {
        self.items.first(at)
    }

    /// No list of items has two positions.
    pub(crate) fn lists_differ(&self)
        ensures { AreDifferent self.now.1 }
    {
        self.sites.lists_differ();
        self.items.lists_differ();
    }
}
