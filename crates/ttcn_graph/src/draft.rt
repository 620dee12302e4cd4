//! Graphs that are being drawn.
ghost use Rattle.std.specs.Prelude.{◌≡◌, ◌<◌, ◌∷◌, [], length, map, get_or, is_some, IfOk, OnOk};
ghost use Rattle.check_rules.specs.Calls.{altstep_meant};
ghost use Rattle.check_scope.specs.Names.{module_names, resolved};
ghost use Rattle.semantics.specs.Items as rules;
ghost use Rattle.semantics.specs.Sites as sites;
ghost use Rattle.graph_items.specs.Standing.{part_of, target_of};
ghost use Rattle.graph_sites.specs.Facts.{branch_facts, event_by, target_in};
ghost use Rattle.graph_sites.specs.internal.OwnNames.{retracted};
ghost use Rattle.ttcn_graph.specs.Drafts.{AreAt, AreDrawn, IsBegun, IsDrawn, IsFinished, at_site, empty_draft};
ghost use Rattle.ttcn_graph.specs.Ways.{ways_of, ways_of_assignment, ways_of_right};

use crate::cells::Cells;
use crate::drawn::Drawn;
use check_scope::names::Meaning;
use check_scope::types::DataType;
use graph_items::{At, Declared, Item, Part, Site, Target};
use graph_sites::{EventFacts, Facts, Here, facts_of_branches, facts_of_part};
use std::alloc::{AllocError, Global};
use std::marker::Model;
use ttcn_syntax::{Assignment, Branch, Definition, Name, Reference, Rhs, Seq, Statement, TypeName};

/// A graph that is being drawn. A contract sees it as the definitions say.
pub struct Draft<'a> {
    alloc: Global,
    here: Here<'a>,
    /// The position of the list of names that are declared here.
    declared: usize,
    cells: Cells<'a>,
    ways: Vec<Seq<usize>>,
}

impl<'a> Drop for Draft<'a> {
    fn drop(self) {
        let Draft {
            alloc: _alloc,
            here: _here,
            declared: _declared,
            cells: _cells,
            ways: _ways,
        } = self;
    }
}

impl<'a> Model for Draft<'a> {
    ghost use Rattle.std.specs.Prelude.{◌≡◌, ◌<◌, [], length, map, get_or};
    ghost use Rattle.std.specs.Coded.{codes};
    ghost use Rattle.ttcn_syntax.specs.contracts.tree.statement.Action as action;
    ghost use Rattle.ttcn_syntax.specs.contracts.tree.statement.Branch as branch;
    ghost use Rattle.ttcn_syntax.specs.contracts.tree.statement.Statement as statement;
    ghost use Rattle.ttcn_syntax.specs.contracts.tree.template.Template as template;
    ghost use Rattle.ttcn_syntax.specs.contracts.tree.value.Value as value;
    ghost use Rattle.graph_sites.specs.Facts.{facts_by, facts_of};
    ghost use Rattle.ttcn_graph.specs.Drafts as drafts;

    ghost Value = { drafts.Draft };

    ghost coded = { Prim.hlevel (codes, action.the_row.coded, branch.the_row.coded, statement.the_row.coded, template.the_row.coded, value.the_row.coded) };

    ghost view = { λ d. record { definitions = d.here.0; site = d.here.1; lists = d.cells.1; ways = d.ways.items } };

    ghost invariant = { λ d. (d.declared < length d.cells.0) × (get_or d.cells.0 d.declared [] ≡ d.here.1.declared)
        × (map facts_by d.cells.2 ≡ map (facts_of d.here.0) d.cells.1) };
}

impl<'a> Draft<'a> {
    /// The empty list alone, at the beginning of the behaviour at position 0.
    pub fn new(alloc: Global, definitions: &'a [Definition]) -> Result<Draft<'a>, AllocError>
        ensures { IfOk result (λ draft. draft ≡ empty_draft definitions.now) }
    {
        let here = Here::new(alloc, definitions)?;
        let cells = Cells::new(alloc)?;
        let declared = cells.no_names();
        Ok(Draft {
            alloc,
            here,
            declared,
            cells,
            ways: Vec::new(alloc),
        })
    }

    // ---- sites

    /// Goes to the beginning of the behaviour at a position.
    pub fn go_to(self, behaviour: usize) -> Result<Draft<'a>, AllocError>
        ensures { IfOk result (λ draft. draft ≡ at_site (sites.beginning behaviour) self.entry) }
    {
        let Draft {
            alloc,
            here,
            declared: _declared,
            cells,
            ways,
        } = self;
        let here = here.go_to(alloc, behaviour)?;
        let declared = cells.no_names();
        Ok(Draft {
            alloc,
            here,
            declared,
            cells,
            ways,
        })
    }

    /// Goes on behind the declaration of one more name.
    pub fn declare(&mut self, name: &'a Name, meaning: Meaning) -> Result<(), AllocError>
        ensures { OnOk result (self.new ≡ at_site (sites.site_with self.old.site (name.now, meaning)) self.old) }
    {
        let at = self
            .cells
            .declare(Declared::new(name, meaning), self.declared)?;
        self.here.declare(name, meaning)?;
        self.declared = at;
        Ok(())
    }

    /// Goes back before the name that was declared last.
    pub fn retract(&mut self)
        ensures { self.new ≡ at_site (retracted self.old.site) self.old }
    {
        self.declared = self.cells.before(self.declared);
        self.here.retract();
    }

    /// The type that a declaration names here.
    pub fn resolved(&self, type_name: &TypeName) -> Option<DataType>
        ensures { result ≡ resolved (sites.scope_at self.now.definitions self.now.site).names type_name.now }
    {
        self.here.resolved(type_name)
    }

    /// What a reference means here as a target.
    pub fn target(&self, reference: &'a Reference) -> Target<'a>
        ensures { target_of result ≡ target_in self.now.definitions self.now.site reference.now }
    {
        self.here.target(reference)
    }

    /// Whether a name is that of an altstep of the module.
    pub fn is_altstep(&self, name: &Name) -> bool
        ensures { result ≡ is_some (altstep_meant (module_names self.now.definitions name.now)) }
    {
        self.here.is_altstep(name)
    }

    // ---- positions

    /// What is known here of the events of branches.
    pub(crate) fn facts_of_branches(
        &self,
        branches: &'a [Branch],
    ) -> Result<Seq<EventFacts<'a>>, AllocError>
        ensures { IfOk result (λ facts. map event_by facts ≡ map (branch_facts self.now.definitions self.now.site) branches.now) }
    {
        facts_of_branches(self.alloc, &self.here, branches)
    }

    /// The position of the empty list.
    pub fn nothing(&self) -> usize
        ensures within { result < length self.now.lists }
        ensures empty { get_or self.now.lists result [] ≡ [] }
    {
        self.cells.nothing()
    }

    /// The position of a part of a statement in front of a list.
    pub fn begin(
        &mut self,
        statement: &'a Statement,
        part: Part,
        rest: usize,
    ) -> Result<usize, AllocError>
        requires { rest < length self.old.lists }
        ensures { IfOk result (λ at. IsBegun self.old self.new at (rules.Doing self.old.site statement.now (part_of part) ∷ get_or self.old.lists rest [])) }
    {
        let site = Site {
            behaviour: self.here.behaviour(),
            declared: self.declared,
        };
        let facts = facts_of_part(self.alloc, &self.here, statement, part)?;
        let item = Item::Doing(site, At::new(statement), part);
        let at = self.cells.put(item, rest, facts)?;
        Ok(at)
    }

    /// The position of the mark of a statement in front of a list.
    pub fn begin_mark(&mut self, statement: &'a Statement, rest: usize) -> Result<usize, AllocError>
        requires { rest < length self.old.lists }
        ensures { IfOk result (λ at. IsBegun self.old self.new at (rules.Mark self.old.site statement.now ∷ get_or self.old.lists rest [])) }
    {
        let site = Site {
            behaviour: self.here.behaviour(),
            declared: self.declared,
        };
        let item = Item::Mark(site, At::new(statement));
        let at = self.cells.put(item, rest, Facts::Nothing)?;
        Ok(at)
    }

    /// The position of a target that waits in front of a list.
    pub fn begin_wait(&mut self, target: Target<'a>, rest: usize) -> Result<usize, AllocError>
        requires { rest < length self.old.lists }
        ensures { IfOk result (λ at. IsBegun self.old self.new at (rules.Waiting (target_of target.entry) ∷ get_or self.old.lists rest [])) }
    {
        let at = self.cells.put(Item::Waiting(target), rest, Facts::Nothing)?;
        Ok(at)
    }

    /// Says where that is which may come of the list at a position.
    pub fn finish(&mut self, at: usize, ways: Seq<usize>) -> Result<(), AllocError>
        requires at { at < length self.old.lists }
        requires ways { AreAt self.old.lists ways (ways_of self.old.definitions (get_or self.old.lists at [])) }
        ensures { OnOk result (IsFinished self.old self.new at) }
    {
        while self.ways.len() <= at {
            self.ways.push(Seq::new(self.alloc))?;
        }
        self.ways[at] = ways;
        Ok(())
    }

    /// What was drawn, of these definitions.
    pub(crate) fn end(self, definitions: &'a [Definition]) -> Result<Drawn<'a>, AllocError>
        requires { self.definitions ≡ definitions.now }
        ensures { IfOk result (λ drawn. drawn ≡ at_site (sites.beginning 0) self.entry) }
    {
        let Draft {
            alloc,
            here: _here,
            declared: _declared,
            cells,
            ways,
        } = self;
        Ok(Drawn {
            definitions,
            cells: cells.fix(alloc)?,
            ways,
        })
    }

    // ---- positions with their ways

    /// No ways yet.
    pub fn no_ways(&self) -> Seq<usize>
        ensures { result ≡ [] }
    {
        Seq::new(self.alloc)
    }

    /// Says where the one list is that may come of the list at a position.
    pub fn finish_one(&mut self, at: usize, way: usize) -> Result<(), AllocError>
        requires at { at < length self.old.lists }
        requires within { way < length self.old.lists }
        requires ways { ways_of self.old.definitions (get_or self.old.lists at []) ≡ get_or self.old.lists way [] ∷ [] }
        ensures { OnOk result (IsFinished self.old self.new at) }
    {
        let mut ways = self.no_ways();
        ways.push(way)?;
        self.finish(at, ways)
    }

    /// The position of a part of a statement in front of a list, where it is known what may come of it.
    pub fn put(
        &mut self,
        statement: &'a Statement,
        part: Part,
        rest: usize,
        ways: Seq<usize>,
    ) -> Result<usize, AllocError>
        requires rest { rest < length self.old.lists }
        requires ways { AreAt self.old.lists ways (ways_of self.old.definitions (rules.Doing self.old.site statement.now (part_of part) ∷ get_or self.old.lists rest [])) }
        ensures { IfOk result (λ at. IsDrawn self.old self.new at (rules.Doing self.old.site statement.now (part_of part) ∷ get_or self.old.lists rest [])) }
    {
        let at = self.begin(statement, part, rest)?;
        self.finish(at, ways)?;
        Ok(at)
    }

    /// The position of a target that waits in front of a list.
    pub fn wait(&mut self, target: Target<'a>, rest: usize) -> Result<usize, AllocError>
        requires { rest < length self.old.lists }
        ensures { IfOk result (λ at. IsDrawn self.old self.new at (rules.Waiting (target_of target.entry) ∷ get_or self.old.lists rest [])) }
    {
        let at = self.begin_wait(target, rest)?;
        let ways = Seq::new(self.alloc);
        self.finish(at, ways)?;
        Ok(at)
    }

    /// The position of the mark of an `alt`, or of what stands for one, which itself has a position.
    pub fn mark(
        &mut self,
        statement: &'a Statement,
        whole: usize,
        rest: usize,
    ) -> Result<usize, AllocError>
        requires rest { rest < length self.old.lists }
        requires within { whole < length self.old.lists }
        requires stands { get_or self.old.lists whole [] ≡ rules.Doing self.old.site statement.now rules.Whole ∷ get_or self.old.lists rest [] }
        ensures { IfOk result (λ at. IsDrawn self.old self.new at (rules.Mark self.old.site statement.now ∷ get_or self.old.lists rest [])) }
    {
        let at = self.begin_mark(statement, rest)?;
        let mut ways = Seq::new(self.alloc);
        ways.push(whole)?;
        self.finish(at, ways)?;
        Ok(at)
    }

    /// What may come of an assignment: where a function is called, its target waits.
    pub fn right(
        &mut self,
        target: Target<'a>,
        right: &'a Rhs,
        rest: usize,
    ) -> Result<Seq<usize>, AllocError>
        requires { rest < length self.old.lists }
        ensures { IfOk result (λ ways. AreDrawn self.old self.new ways (ways_of_right (target_of target.entry) (get_or self.old.lists rest []) right.now)) }
    {
        match right {
            Rhs::Value(_) => Ok(Seq::new(self.alloc)),
            Rhs::Create(_) => Ok(Seq::new(self.alloc)),
            Rhs::Call(_) => {
                let at = self.wait(target, rest)?;
                let mut ways = Seq::new(self.alloc);
                ways.push(at)?;
                Ok(ways)
            }
            Rhs::Activate(_) => Ok(Seq::new(self.alloc)),
        }
    }

    /// What may come of an assignment in front of a list.
    pub fn assignment(
        &mut self,
        assignment: &'a Assignment,
        rest: usize,
    ) -> Result<Seq<usize>, AllocError>
        requires { rest < length self.old.lists }
        ensures { IfOk result (λ ways. AreDrawn self.old self.new ways (ways_of_assignment self.old.definitions self.old.site (get_or self.old.lists rest []) assignment.now)) }
    {
        let target = self.target(&assignment.target);
        let ways = self.right(target, assignment.value.get(), rest)?;
        Ok(ways)
    }
}
