//! Declarations: the sites behind them, and the positions of their names.
ghost use Rattle.std.specs.Prelude.{◌≡◌, ◌<◌, ◌∷◌, [], length, get_or, IfOk, OnOk};
ghost use Rattle.std.specs.Option.{option_map};
ghost use Rattle.semantics.specs.Items as rules;
ghost use Rattle.semantics.specs.Sites as sites;
ghost use Rattle.semantics.specs.Statements.{declared_target};
ghost use Rattle.graph_items.specs.Standing.{target_of};
ghost use Rattle.graph_sites.specs.internal.OwnNames.{retracted};
ghost use Rattle.ttcn_graph.specs.Drafts.{AreDrawn, IsDrawn, at_site};
ghost use Rattle.ttcn_graph.specs.Ways.{ways_of_variable};
ghost use Rattle.ttcn_graph.specs.internal.Drawing.{AreNames, declared_before, site_before, site_behind_all};

use crate::draft::Draft;
use check_scope::names::Meaning;
use graph_items::{Part, Referred, Target};
use std::alloc::AllocError;
use ttcn_syntax::{Action, Constants, ForStart, Seq, Statement, Timer, Variable, Variables};

// ---- behind declarations

fn declare_variables<'a>(draft: &mut Draft<'a>, declared: &'a Variables) -> Result<(), AllocError>
    ensures { OnOk result (draft.new ≡ at_site (sites.site_behind draft.old.site (sites.variable_entries (sites.scope_at draft.old.definitions draft.old.site) declared.now)) draft.old) }
{
    let of = draft.resolved(&declared.type_name);
    for variable in declared.variables.as_slice() {
        draft.declare(&variable.name, Meaning::Variable(of))?;
    }
    Ok(())
}

fn declare_constants<'a>(draft: &mut Draft<'a>, declared: &'a Constants) -> Result<(), AllocError>
    ensures { OnOk result (draft.new ≡ at_site (sites.site_behind draft.old.site (sites.constant_entries (sites.scope_at draft.old.definitions draft.old.site) declared.now)) draft.old) }
{
    let of = draft.resolved(&declared.type_name);
    for constant in declared.constants.as_slice() {
        draft.declare(&constant.name, Meaning::Constant(of))?;
    }
    Ok(())
}

fn declare_timers<'a>(draft: &mut Draft<'a>, timers: &'a [Timer]) -> Result<(), AllocError>
    ensures { OnOk result (draft.new ≡ at_site (sites.site_behind draft.old.site (sites.timer_entries timers.now)) draft.old) }
{
    for timer in timers {
        draft.declare(&timer.name, Meaning::Timer)?;
    }
    Ok(())
}

/// Goes on behind what a `for` begins with.
pub(crate) fn declare_start<'a>(
    draft: &mut Draft<'a>,
    start: &'a ForStart,
) -> Result<(), AllocError>
    ensures { OnOk result (draft.new ≡ at_site (rules.site_in_for draft.old.definitions draft.old.site start.now) draft.old) }
{
    match start {
        ForStart::Variables(declared) => declare_variables(draft, declared),
        ForStart::Assign(_assignment) => Ok(()),
    }
}

/// Goes on behind a statement.
fn go_behind<'a>(draft: &mut Draft<'a>, statement: &'a Statement) -> Result<(), AllocError>
    ensures { OnOk result (draft.new ≡ at_site (rules.site_after draft.old.definitions draft.old.site statement.now) draft.old) }
{
    match statement.action.get() {
        Action::Variables(declared) => declare_variables(draft, declared),
        Action::Constants(declared) => declare_constants(draft, declared),
        Action::Timers(timers) => declare_timers(draft, timers.as_slice()),
        _ => Ok(()),
    }
}

/// Goes on behind statements.
pub(crate) fn go_behind_all<'a>(
    draft: &mut Draft<'a>,
    body: &'a [Statement],
) -> Result<(), AllocError>
    ensures { OnOk result (draft.new ≡ at_site (site_behind_all draft.old.definitions draft.old.site body.now) draft.old) }
{
    for statement in body {
        go_behind(draft, statement)?;
    }
    Ok(())
}

// ---- positions of names

/// What may come of the declaration of a variable in front of a list, where it is one.
fn ways_of_name<'a>(
    draft: &mut Draft<'a>,
    variable: Option<&'a Variable>,
    rest: usize,
) -> Result<Seq<usize>, AllocError>
    requires { rest < length draft.old.lists }
    ensures { IfOk result (λ ways. AreDrawn draft.old draft.new ways (ways_of_variable (get_or draft.old.lists rest []) (option_map (λ variable. variable.now) variable.entry))) }
{
    match variable {
        Some(variable) => match &variable.value {
            Some(right) => draft.right(target_of_name(variable), right, rest),
            None => Ok(draft.no_ways()),
        },
        None => Ok(draft.no_ways()),
    }
}

/// The position of the declaration of the name that was declared last, at the site before it.
fn draw_name<'a>(
    draft: &mut Draft<'a>,
    statement: &'a Statement,
    variables: &'a [Variable],
    place: usize,
    rest: usize,
) -> Result<usize, AllocError>
    requires rest { rest < length draft.old.lists }
    requires names { AreNames draft.old.definitions statement.now variables.now }
    ensures { IfOk result (λ at. IsDrawn (at_site (retracted draft.old.site) draft.old) draft.new at (rules.Doing (retracted draft.old.site) statement.now (rules.Name place) ∷ get_or draft.old.lists rest [])) }
{
    draft.retract();
    let ways = ways_of_name(draft, variables.get(place), rest)?;
    let at = draft.put(statement, Part::Name(place), rest, ways)?;
    Ok(at)
}

/// The position of the declarations of so many names that were declared last, at the site before them.
pub(crate) fn draw_names<'a>(
    draft: &mut Draft<'a>,
    statement: &'a Statement,
    variables: &'a [Variable],
    count: usize,
    rest: usize,
) -> Result<usize, AllocError>
    requires rest { rest < length draft.old.lists }
    requires names { AreNames draft.old.definitions statement.now variables.now }
    ensures { IfOk result (λ at. IsDrawn (at_site (site_before count draft.old.site) draft.old) draft.new at (declared_before draft.old.site statement.now count (get_or draft.old.lists rest []))) }
{
    let mut at = rest;
    for place in (0..count).rev() {
        at = draw_name(draft, statement, variables, place, at)?;
    }
    Ok(at)
}

/// A variable that is declared, as a target.
fn target_of_name<'a>(variable: &'a Variable) -> Target<'a>
    ensures { target_of result ≡ declared_target variable.now.name }
{
    Target {
        own: true,
        reference: Referred::to_name(&variable.name),
        data_type: None,
    }
}
