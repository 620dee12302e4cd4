//! The graphs of all behaviours of a module.
ghost use Rattle.std.specs.Prelude.{◌≡◌, ℕ, ◌<◌, [], length, map, get_or, nat_eq, slice_get, IfOk, IfNone, IfSome, None};
ghost use Rattle.std.specs.Option.{option_map};
ghost use Rattle.check_scope.specs.Names.{kind_at};
ghost use Rattle.graph_numbers.specs.Lists.{AreDifferent};
ghost use Rattle.ttcn_graph.specs.Drafts.{AreDrawn, at_site};
ghost use Rattle.semantics.specs.Branches.{branches_of};
ghost use Rattle.semantics.specs.Sites.{beginning};
ghost use Rattle.graph_items.specs.Begun.{IsBegunBy};
ghost use Rattle.graph_sites.specs.Facts.{altstep_facts, event_by, facts_by, facts_of};
ghost use Rattle.graph_names.specs.Known.{AreKnown, names_of, names_of_kind};
ghost use Rattle.ttcn_graph.specs.Graphs.{IsAt, beginnings, beginnings_at, body_alone};
ghost use Rattle.ttcn_graph.specs.Ways.{ways_of};

use crate::block::{draw_block, draw_branches};
use crate::draft::Draft;
use crate::drawn::{Drawn, way_in};
use crate::known::all_names;
use check_rules::Program;
use check_scope::scope::kind_at;
use graph_items::First;
use graph_names::Names;
use graph_sites::{EventFacts, Facts};
use std::alloc::{AllocError, Global};
use std::marker::Model;
use ttcn_syntax::{Branch, Definition, DefinitionKind, Name, Seq, Statement};

/// The graphs of a module. A contract sees the lists that positions stand for, and where they lead.
pub struct Graphs<'a> {
    drawn: Drawn<'a>,
    starts: Vec<Seq<usize>>,
    /// For each definition, and the position behind the last one, what is known of the events of its branches, if it is an
    /// altstep.
    altsteps: Vec<Seq<EventFacts<'a>>>,
    names: Names<'a>,
}

impl<'a> Drop for Graphs<'a> {
    fn drop(self) {
        let Graphs {
            drawn: _drawn,
            starts: _starts,
            altsteps: _altsteps,
            names: _names,
        } = self;
    }
}

impl<'a> Model for Graphs<'a> {
    ghost use Rattle.std.specs.Prelude.{◌≡◌, ◌<◌, ℕ, [], length, map, get_or};
    ghost use Rattle.std.specs.Coded.{codes};
    ghost use Rattle.ttcn_syntax.specs.contracts.tree.statement.Action as action;
    ghost use Rattle.ttcn_syntax.specs.contracts.tree.statement.Branch as branch;
    ghost use Rattle.ttcn_syntax.specs.contracts.tree.statement.Statement as statement;
    ghost use Rattle.ttcn_syntax.specs.contracts.tree.template.Template as template;
    ghost use Rattle.ttcn_syntax.specs.contracts.tree.value.Value as value;
    ghost use Rattle.graph_sites.specs.Facts.{altstep_facts, event_by};
    ghost use Rattle.graph_names.specs.internal.Learning.{all_names};
    ghost use Rattle.ttcn_graph.specs.Drafts.{AreAt};
    ghost use Rattle.ttcn_graph.specs.Graphs as definition;

    ghost Value = { definition.Graphs };

    ghost coded = { Prim.hlevel (codes, action.the_row.coded, branch.the_row.coded, statement.the_row.coded, template.the_row.coded, value.the_row.coded) };

    ghost view = { λ graphs. definition.graphs_of graphs.drawn graphs.starts.items graphs.names };

    ghost invariant = { λ graphs. definition.AllHaveWays graphs.drawn
        × ((at : ℕ) → AreAt graphs.drawn.lists (get_or graphs.starts.items at []) (definition.beginnings_at graphs.drawn.definitions at))
        × ((at : ℕ) → map event_by (get_or graphs.altsteps.items at []) ≡ altstep_facts graphs.drawn.definitions at)
        × (graphs.names ≡ all_names graphs.drawn.definitions graphs.drawn.lists)
        × (length graphs.drawn.definitions < length graphs.altsteps.items) };
}

/// The position of the block of a function or a test case.
fn draw_body<'a>(
    draft: &mut Draft<'a>,
    body: &'a [Statement],
    nothing: usize,
) -> Result<Seq<usize>, AllocError>
    requires within { nothing < length draft.old.lists }
    requires empty { get_or draft.old.lists nothing [] ≡ [] }
    ensures { IfOk result (λ starts. AreDrawn draft.old draft.new starts (body_alone draft.old.definitions draft.old.site body.now)) }
{
    let at = draw_block(draft, body, nothing)?;
    let mut starts = draft.no_ways();
    starts.push(at)?;
    Ok(starts)
}

/// The positions of what a definition begins with.
fn draw_definition<'a>(
    draft: &mut Draft<'a>,
    kind: Option<&'a DefinitionKind>,
) -> Result<Seq<usize>, AllocError>
    ensures { IfOk result (λ starts. AreDrawn draft.old draft.new starts (beginnings draft.old.definitions draft.old.site (option_map (λ kind. kind.now) kind.entry))) }
{
    let nothing = draft.nothing();
    match kind {
        Some(DefinitionKind::Function(function)) => {
            draw_body(draft, function.body.as_slice(), nothing)
        }
        Some(DefinitionKind::Testcase(testcase)) => {
            draw_body(draft, testcase.body.as_slice(), nothing)
        }
        Some(DefinitionKind::Altstep(altstep)) => {
            draw_branches(draft, altstep.branches.as_slice(), nothing)
        }
        _ => Ok(draft.no_ways()),
    }
}

/// The branches of an altstep.
fn branches_of<'a>(kind: Option<&'a DefinitionKind>) -> &'a [Branch]
    ensures { result.now ≡ branches_of (option_map (λ kind. kind.now) kind.entry) }
{
    match kind {
        Some(DefinitionKind::Altstep(altstep)) => altstep.branches.as_slice(),
        _ => &[],
    }
}

/// The positions of what the definition at a position begins with, and what is known of the branches of an altstep.
fn draw_at<'a>(
    draft: Draft<'a>,
    definitions: &'a [Definition],
    at: usize,
) -> Result<(Draft<'a>, Seq<usize>, Seq<EventFacts<'a>>), AllocError>
    requires { draft.definitions ≡ definitions.now }
    ensures drawn { IfOk result (λ drawn. AreDrawn (at_site (beginning at) draft.entry) drawn.0 drawn.1 (beginnings_at definitions.now at)) }
    ensures facts { IfOk result (λ drawn. map event_by drawn.2 ≡ altstep_facts definitions.now at) }
{
    let mut draft = draft.go_to(at)?;
    let kind = kind_at(definitions, at);
    let facts = draft.facts_of_branches(branches_of(kind))?;
    let starts = draw_definition(&mut draft, kind)?;
    Ok((draft, starts, facts))
}

/// The graphs of all definitions.
fn draw_all<'a>(alloc: Global, definitions: &'a [Definition]) -> Result<Graphs<'a>, AllocError>
    ensures { IfOk result (λ graphs. graphs.definitions ≡ definitions.now) }
{
    let mut draft = Draft::new(alloc, definitions)?;
    let mut starts = Vec::new(alloc);
    let mut altsteps = Vec::new(alloc);
    for at in 0..definitions.len() {
        let (drawn, here, facts) = draw_at(draft, definitions, at)?;
        draft = drawn;
        starts.push(here)?;
        altsteps.push(facts)?;
    }
    altsteps.push(Seq::new(alloc))?;
    let whole = draft.end(definitions)?;
    let names = all_names(alloc, &whole, definitions)?;
    Ok(Graphs {
        drawn: whole,
        starts,
        altsteps,
        names,
    })
}

/// The graphs of a module: the blocks of all its behaviours, and all that may come of them.
pub fn compile<'a>(alloc: Global, program: &'a Program) -> Result<Graphs<'a>, AllocError>
    ensures { IfOk result (λ graphs. graphs.definitions ≡ program.now.definitions) }
{
    draw_all(alloc, program.module().definitions.as_slice())
}

impl<'a> Graphs<'a> {
    /// How many lists there are.
    pub fn len(&self) -> usize
        ensures { result ≡ length self.now.lists }
    {
        self.drawn.len()
    }

    /// Whether there are none, which never is: the empty list always has a position.
    pub fn is_empty(&self) -> bool
        ensures { result ≡ nat_eq (length self.now.lists) 0 }
    {
        self.len() == 0
    }

    /// The position of the empty list.
    pub fn nothing(&self) -> usize
        ensures within { result < length self.now.lists }
        ensures empty { get_or self.now.lists result [] ≡ [] }
    {
        self.drawn.nothing()
    }

    /// What stands first in the list at a position, and the position of the list behind it, which is a lesser one.
    pub fn first(&self, at: usize) -> Option<(First<'_, 'a>, usize)>
        requires { at < length self.now.lists }
        ensures missing { IfNone result (get_or self.now.lists at [] ≡ []) }
        ensures found { IfSome result (λ found. IsBegunBy (get_or self.now.lists at []) found.0 (get_or self.now.lists found.1 [])) }
        ensures before { IfSome result (λ found. found.1 < at) }
    {
        self.drawn.first(at)
    }

    /// What is known where the first item of the list at a position stands.
    pub fn facts(&self, at: usize) -> &Facts<'a>
        requires { at < length self.now.lists }
        ensures { facts_by result.now ≡ facts_of self.now.definitions (get_or self.now.lists at []) }
    {
        self.drawn.facts(at)
    }

    /// The position of one of the lists that may come of the list at a position.
    pub fn way(&self, at: usize, place: usize) -> Option<usize>
        requires { at < length self.now.lists }
        ensures found { IfSome result (λ way. IsAt self.now way place (ways_of self.now.definitions (get_or self.now.lists at []))) }
        ensures missing { IfNone result (slice_get (ways_of self.now.definitions (get_or self.now.lists at [])) place ≡ None) }
    {
        self.drawn.way(at, place)
    }

    /// The position of one of the lists that the definition at a position begins with.
    pub fn start(&self, definition: usize, place: usize) -> Option<usize>
        ensures found { IfSome result (λ start. IsAt self.now start place (beginnings_at self.now.definitions definition)) }
        ensures missing { IfNone result (slice_get (beginnings_at self.now.definitions definition) place ≡ None) }
    {
        match self.starts.get(definition) {
            Some(starts) => way_in(starts, place),
            None => None,
        }
    }

    /// What is known of the events of the branches of the altstep at a position, where branches are judged at its beginning.
    pub fn altstep_facts(&self, at: usize) -> &[EventFacts<'a>]
        ensures { map event_by result.now ≡ altstep_facts self.now.definitions at }
    {
        let last = self.altsteps.len() - 1;
        let place = if at < last { at } else { last };
        self.altsteps[place].as_slice()
    }

    /// The names that steps change or declare, and those of ports that they name.
    pub fn names(&self) -> &[&'a Name]
        ensures { map (λ name. name.now) result.now ≡ self.now.names }
    {
        self.names.as_slice()
    }

    /// The names of what stands first at each position are among the names of the graphs.
    pub fn knows_items(&self)
        ensures { (p : ℕ) → p < length self.now.lists → AreKnown self.now.names (names_of (get_or self.now.lists p [])) }
    {
        let _ = self.drawn.len();
    }

    /// The names of each definition are among the names of the graphs.
    pub fn knows_definitions(&self)
        ensures { (at : ℕ) → AreKnown self.now.names (names_of_kind (kind_at self.now.definitions at)) }
    {
        let _ = self.drawn.len();
    }

    /// No list has two positions.
    pub fn lists_differ(&self)
        ensures { AreDifferent self.now.lists }
    {
        self.drawn.lists_differ();
    }
}
