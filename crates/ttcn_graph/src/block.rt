//! Blocks and statements, drawn from their ends.
ghost use Rattle.std.specs.Prelude.{◌≡◌, ◌<◌, ◌∷◌, [], ◌++◌, length, map, get_or, slice_get, IfOk};
ghost use Rattle.ttcn_syntax.specs.declared.tree.statement.Action.TheVariants as form;
ghost use Rattle.semantics.specs.Items as rules;
ghost use Rattle.semantics.specs.Sites as sites;
ghost use Rattle.check_rules.specs.Calls.{altstep_meant};
ghost use Rattle.check_scope.specs.Names.{module_names};
ghost use Rattle.graph_items.specs.Standing.{part_of};
ghost use Rattle.ttcn_graph.specs.Drafts.{AreDrawn, IsDrawn, at_site};
ghost use Rattle.ttcn_graph.specs.Ways.{items_of_branch, ways_of, ways_of_assignment, ways_of_call};
ghost use Rattle.ttcn_graph.specs.internal.Drawing.{Does, ways_of_condition};

use crate::draft::Draft;
use crate::names::{declare_start, draw_names, go_behind_all};
use graph_items::Part;
use std::alloc::AllocError;
use ttcn_syntax::{
    Action, Alternative, Assignment, Branch, Conditional, Expr, ForStart, Name, Seq, Statement,
};

// ---- statements without blocks

/// An assignment, as a part of a statement.
fn draw_assignment<'a>(
    draft: &mut Draft<'a>,
    statement: &'a Statement,
    part: Part,
    assignment: &'a Assignment,
    rest: usize,
) -> Result<usize, AllocError>
    requires rest { rest < length draft.old.lists }
    requires form { ways_of draft.old.definitions (rules.Doing draft.old.site statement.now (part_of part) ∷ get_or draft.old.lists rest []) ≡ ways_of_assignment draft.old.definitions draft.old.site (get_or draft.old.lists rest []) assignment.now }
    ensures { IfOk result (λ at. IsDrawn draft.old draft.new at (rules.Doing draft.old.site statement.now (part_of part) ∷ get_or draft.old.lists rest [])) }
{
    let ways = draft.assignment(assignment, rest)?;
    let at = draft.put(statement, part, rest, ways)?;
    Ok(at)
}

/// An event, or the call of an altstep, that is an `alt` of its own.
fn draw_lone<'a>(
    draft: &mut Draft<'a>,
    statement: &'a Statement,
    rest: usize,
) -> Result<usize, AllocError>
    requires rest { rest < length draft.old.lists }
    requires form { ways_of draft.old.definitions (rules.Doing draft.old.site statement.now rules.Whole ∷ get_or draft.old.lists rest [])
        ≡ (rules.Mark draft.old.site statement.now ∷ get_or draft.old.lists rest []) ∷ [] }
    ensures { IfOk result (λ at. IsDrawn draft.old draft.new at (rules.Doing draft.old.site statement.now rules.Whole ∷ get_or draft.old.lists rest [])) }
{
    let whole = draft.begin(statement, Part::Whole, rest)?;
    let marked = draft.mark(statement, whole, rest)?;
    draft.finish_one(whole, marked)?;
    Ok(whole)
}

/// A statement whose step leaves only what is behind it.
fn draw_step<'a>(
    draft: &mut Draft<'a>,
    statement: &'a Statement,
    rest: usize,
) -> Result<usize, AllocError>
    requires rest { rest < length draft.old.lists }
    requires form { ways_of draft.old.definitions (rules.Doing draft.old.site statement.now rules.Whole ∷ get_or draft.old.lists rest []) ≡ [] }
    ensures { IfOk result (λ at. IsDrawn draft.old draft.new at (rules.Doing draft.old.site statement.now rules.Whole ∷ get_or draft.old.lists rest [])) }
{
    let ways = draft.no_ways();
    draft.put(statement, Part::Whole, rest, ways)
}

/// A call as a statement, of a function or an altstep.
fn draw_call<'a>(
    draft: &mut Draft<'a>,
    statement: &'a Statement,
    name: &Name,
    rest: usize,
) -> Result<usize, AllocError>
    requires rest { rest < length draft.old.lists }
    requires form { ways_of draft.old.definitions (rules.Doing draft.old.site statement.now rules.Whole ∷ get_or draft.old.lists rest [])
        ≡ ways_of_call (rules.Mark draft.old.site statement.now ∷ get_or draft.old.lists rest []) (altstep_meant (module_names draft.old.definitions name.now)) }
    ensures { IfOk result (λ at. IsDrawn draft.old draft.new at (rules.Doing draft.old.site statement.now rules.Whole ∷ get_or draft.old.lists rest [])) }
{
    if draft.is_altstep(name) {
        draw_lone(draft, statement, rest)
    } else {
        draw_step(draft, statement, rest)
    }
}

/// What a `for` begins with, at the site before it.
fn draw_start<'a>(
    draft: &mut Draft<'a>,
    statement: &'a Statement,
    start: &'a ForStart,
    condition: &'a Expr,
    step: &'a Assignment,
    body: &'a [Statement],
    rest: usize,
) -> Result<usize, AllocError>
    requires rest { rest < length draft.old.lists }
    requires form { Does statement.now (form.For start.now condition.now step.now body.now) }
    ensures { IfOk result (λ at. (site : sites.Site) → draft.old.site ≡ rules.site_in_for draft.old.definitions site start.now
        → IsDrawn (at_site site draft.old) draft.new at (rules.start_items draft.old.definitions site statement.now start.now ++ get_or draft.old.lists rest [])) }
{
    match start {
        ForStart::Variables(declared) => {
            let variables = declared.variables.as_slice();
            draw_names(draft, statement, variables, variables.len(), rest)
        }
        ForStart::Assign(assignment) => {
            draw_assignment(draft, statement, Part::Start, assignment, rest)
        }
    }
}

// ---- blocks, statements and branches

/// The position of a block in front of a list.
#[cycle(drawing)]
pub(crate) fn draw_block<'a>(
    draft: &mut Draft<'a>,
    body: &'a [Statement],
    rest: usize,
) -> Result<usize, AllocError>
    requires { rest < length draft.old.lists }
    ensures { IfOk result (λ at. IsDrawn draft.old draft.new at (rules.items draft.old.definitions draft.old.site body.now ++ get_or draft.old.lists rest [])) }
{
    go_behind_all(draft, body)?;
    let mut at = rest;
    for place in (0..body.len()).rev() {
        at = draw_statement(draft, &body[place], at)?;
    }
    Ok(at)
}

/// The position of a block in front of a list, where there is one.
#[cycle(drawing)]
fn draw_block_if_any<'a>(
    draft: &mut Draft<'a>,
    body: &'a Option<Seq<Statement>>,
    rest: usize,
) -> Result<usize, AllocError>
    requires { rest < length draft.old.lists }
    ensures { IfOk result (λ at. IsDrawn draft.old draft.new at (rules.items_if_any draft.old.definitions draft.old.site body.now ++ get_or draft.old.lists rest [])) }
{
    match body {
        Some(body) => draw_block(draft, body.as_slice(), rest),
        None => Ok(rest),
    }
}

/// The position of a branch's block in front of a list.
#[cycle(drawing)]
fn draw_branch<'a>(
    draft: &mut Draft<'a>,
    branch: &'a Branch,
    rest: usize,
) -> Result<usize, AllocError>
    requires { rest < length draft.old.lists }
    ensures { IfOk result (λ at. IsDrawn draft.old draft.new at (items_of_branch draft.old.definitions draft.old.site branch.now ++ get_or draft.old.lists rest [])) }
{
    match branch.alternative.get() {
        Alternative::Event(_guard, _event, body) => draw_block_if_any(draft, body, rest),
        Alternative::Call(_guard, _call, body) => draw_block_if_any(draft, body, rest),
        Alternative::Else(body) => draw_block(draft, body.as_slice(), rest),
    }
}

/// The positions of branches' blocks in front of a list.
#[cycle(drawing)]
pub(crate) fn draw_branches<'a>(
    draft: &mut Draft<'a>,
    branches: &'a [Branch],
    rest: usize,
) -> Result<Seq<usize>, AllocError>
    requires { rest < length draft.old.lists }
    ensures { IfOk result (λ ways. AreDrawn draft.old draft.new ways (map (λ branch. items_of_branch draft.old.definitions draft.old.site branch ++ get_or draft.old.lists rest []) branches.now)) }
{
    let mut ways = draft.no_ways();
    for branch in branches {
        let at = draw_branch(draft, branch, rest)?;
        ways.push(at)?;
    }
    Ok(ways)
}

#[cycle(drawing)]
fn draw_alt<'a>(
    draft: &mut Draft<'a>,
    branches: &'a [Branch],
    statement: &'a Statement,
    rest: usize,
) -> Result<usize, AllocError>
    requires rest { rest < length draft.old.lists }
    requires form { Does statement.now (form.Alt branches.now) }
    ensures { IfOk result (λ at. IsDrawn draft.old draft.new at (rules.Doing draft.old.site statement.now rules.Whole ∷ get_or draft.old.lists rest [])) }
{
    let whole = draft.begin(statement, Part::Whole, rest)?;
    let marked = draft.mark(statement, whole, rest)?;
    let mut ways = draw_branches(draft, branches, marked)?;
    ways.push(marked)?;
    draft.finish(whole, ways)?;
    Ok(whole)
}

/// What may come of the condition of an `if` at a place: its block, and what follows where it is false.
#[cycle(drawing)]
fn draw_condition<'a>(
    draft: &mut Draft<'a>,
    conditionals: &'a [Conditional],
    place: usize,
    failed: usize,
    rest: usize,
) -> Result<Seq<usize>, AllocError>
    requires rest { rest < length draft.old.lists }
    requires failed { failed < length draft.old.lists }
    ensures { IfOk result (λ ways. AreDrawn draft.old draft.new ways (ways_of_condition draft.old.definitions draft.old.site (get_or draft.old.lists rest []) (get_or draft.old.lists failed []) (slice_get conditionals.now place))) }
{
    let mut ways = draft.no_ways();
    if place < conditionals.len() {
        let held = draw_block(draft, conditionals[place].block.as_slice(), rest)?;
        ways.push(held)?;
    }
    ways.push(failed)?;
    Ok(ways)
}

/// The conditions of an `if` from the last one on, where the block of its `else` has a position.
#[cycle(drawing)]
fn draw_conditions<'a>(
    draft: &mut Draft<'a>,
    conditionals: &'a [Conditional],
    statement: &'a Statement,
    last: &'a Option<Seq<Statement>>,
    otherwise: usize,
    rest: usize,
) -> Result<usize, AllocError>
    requires rest { rest < length draft.old.lists }
    requires within { otherwise < length draft.old.lists }
    requires stands { get_or draft.old.lists otherwise [] ≡ rules.items_if_any draft.old.definitions draft.old.site last.now ++ get_or draft.old.lists rest [] }
    requires form { Does statement.now (form.If conditionals.now last.now) }
    ensures { IfOk result (λ at. IsDrawn draft.old draft.new at (rules.Doing draft.old.site statement.now rules.Whole ∷ get_or draft.old.lists rest [])) }
{
    let mut failed = otherwise;
    for place in (1..conditionals.len()).rev() {
        let ways = draw_condition(draft, conditionals, place, failed, rest)?;
        failed = draft.put(statement, Part::From(place), rest, ways)?;
    }
    let ways = draw_condition(draft, conditionals, 0, failed, rest)?;
    let at = draft.put(statement, Part::Whole, rest, ways)?;
    Ok(at)
}

#[cycle(drawing)]
fn draw_while<'a>(
    draft: &mut Draft<'a>,
    body: &'a [Statement],
    condition: &'a Expr,
    statement: &'a Statement,
    rest: usize,
) -> Result<usize, AllocError>
    requires rest { rest < length draft.old.lists }
    requires form { Does statement.now (form.While condition.now body.now) }
    ensures { IfOk result (λ at. IsDrawn draft.old draft.new at (rules.Doing draft.old.site statement.now rules.Whole ∷ get_or draft.old.lists rest [])) }
{
    let whole = draft.begin(statement, Part::Whole, rest)?;
    let held = draw_block(draft, body, whole)?;
    draft.finish_one(whole, held)?;
    Ok(whole)
}

#[cycle(drawing)]
fn draw_do_while<'a>(
    draft: &mut Draft<'a>,
    body: &'a [Statement],
    condition: &'a Expr,
    statement: &'a Statement,
    rest: usize,
) -> Result<usize, AllocError>
    requires rest { rest < length draft.old.lists }
    requires form { Does statement.now (form.DoWhile body.now condition.now) }
    ensures { IfOk result (λ at. IsDrawn draft.old draft.new at (rules.Doing draft.old.site statement.now rules.Whole ∷ get_or draft.old.lists rest [])) }
{
    let again = draft.begin(statement, Part::Loop, rest)?;
    let held = draw_block(draft, body, again)?;
    draft.finish_one(again, held)?;
    let whole = draft.begin(statement, Part::Whole, rest)?;
    draft.finish_one(whole, held)?;
    Ok(whole)
}

/// The `while` that a `for` becomes, at the site behind what the `for` begins with.
#[cycle(drawing)]
fn draw_loop<'a>(
    draft: &mut Draft<'a>,
    body: &'a [Statement],
    start: &'a ForStart,
    condition: &'a Expr,
    step: &'a Assignment,
    statement: &'a Statement,
    rest: usize,
) -> Result<usize, AllocError>
    requires rest { rest < length draft.old.lists }
    requires form { Does statement.now (form.For start.now condition.now step.now body.now) }
    ensures { IfOk result (λ at. IsDrawn draft.old draft.new at (rules.Doing draft.old.site statement.now rules.Loop ∷ get_or draft.old.lists rest [])) }
{
    let again = draft.begin(statement, Part::Loop, rest)?;
    let last = draw_assignment(draft, statement, Part::Last, step, again)?;
    let held = draw_block(draft, body, last)?;
    draft.finish_one(again, held)?;
    Ok(again)
}

#[cycle(drawing)]
fn draw_for<'a>(
    draft: &mut Draft<'a>,
    body: &'a [Statement],
    start: &'a ForStart,
    condition: &'a Expr,
    step: &'a Assignment,
    statement: &'a Statement,
    rest: usize,
) -> Result<usize, AllocError>
    requires rest { rest < length draft.old.lists }
    requires form { Does statement.now (form.For start.now condition.now step.now body.now) }
    ensures { IfOk result (λ at. IsDrawn draft.old draft.new at (rules.Doing draft.old.site statement.now rules.Whole ∷ get_or draft.old.lists rest [])) }
{
    declare_start(draft, start)?;
    let again = draw_loop(draft, body, start, condition, step, statement, rest)?;
    let first = draw_start(draft, statement, start, condition, step, body, again)?;
    let whole = draft.begin(statement, Part::Whole, rest)?;
    draft.finish_one(whole, first)?;
    Ok(whole)
}

/// The whole of a statement in front of a list.
#[cycle(drawing)]
fn draw_whole<'a>(
    draft: &mut Draft<'a>,
    statement: &'a Statement,
    rest: usize,
) -> Result<usize, AllocError>
    requires { rest < length draft.old.lists }
    ensures { IfOk result (λ at. IsDrawn draft.old draft.new at (rules.Doing draft.old.site statement.now rules.Whole ∷ get_or draft.old.lists rest [])) }
{
    match statement.action.get() {
        Action::Assign(assignment) => {
            draw_assignment(draft, statement, Part::Whole, assignment, rest)
        }
        Action::Call(call) => draw_call(draft, statement, &call.name, rest),
        Action::Event(_event) => draw_lone(draft, statement, rest),
        Action::Alt(branches) => draw_alt(draft, branches.as_slice(), statement, rest),
        Action::If(conditionals, last) => {
            let otherwise = draw_block_if_any(draft, last, rest)?;
            let conditionals = conditionals.as_slice();
            draw_conditions(draft, conditionals, statement, last, otherwise, rest)
        }
        Action::While(condition, body) => {
            draw_while(draft, body.as_slice(), condition, statement, rest)
        }
        Action::DoWhile(body, condition) => {
            draw_do_while(draft, body.as_slice(), condition, statement, rest)
        }
        Action::For(start, condition, step, body) => {
            let body = body.as_slice();
            draw_for(draft, body, start, condition, step, statement, rest)
        }
        _ => draw_step(draft, statement, rest),
    }
}

/// The position of a statement in front of a list, where the draft is behind the statement.
#[cycle(drawing)]
fn draw_statement<'a>(
    draft: &mut Draft<'a>,
    statement: &'a Statement,
    rest: usize,
) -> Result<usize, AllocError>
    requires { rest < length draft.old.lists }
    ensures { IfOk result (λ at. (site : sites.Site) → draft.old.site ≡ rules.site_after draft.old.definitions site statement.now
        → IsDrawn (at_site site draft.old) draft.new at (rules.items_of_statement draft.old.definitions site statement.now ++ get_or draft.old.lists rest [])) }
{
    match statement.action.get() {
        Action::Variables(declared) => {
            let variables = declared.variables.as_slice();
            draw_names(draft, statement, variables, variables.len(), rest)
        }
        Action::Constants(declared) => {
            draw_names(draft, statement, &[], declared.constants.len(), rest)
        }
        Action::Timers(timers) => draw_names(draft, statement, &[], timers.len(), rest),
        _ => draw_whole(draft, statement, rest),
    }
}
