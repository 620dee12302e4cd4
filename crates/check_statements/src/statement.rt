//! The rules that statements and branches break, block by block (ES 201 873-1, 19 and 20).
ghost use Rattle.std.specs.Prelude.{◌≡◌, IfOk, OnOk};
ghost use Rattle.std.specs.List.{flat_map};
ghost use Rattle.std.specs.Option.{option_map};
ghost use Rattle.check_scope.specs.internal.Checking.{around, both, least, least_in, view};
ghost use Rattle.check_statements.specs.internal.Places.{place_with};
ghost use Rattle.check_rules.specs.Statements as spec;

use crate::action::{check_condition, check_guard, check_leaf};
use crate::declaration::variables;
use crate::message::check_event;
use crate::place::Place;
use check_expressions::call::check_call;
use check_expressions::target::check_assignment;
use check_rules::CallPlace;
use check_scope::broken::Broken;
use check_scope::least::Least;
use check_scope::scope::Scope;
use std::alloc::{AllocError, Global};
use ttcn_syntax::{
    Action, Alternative, Assignment, Branch, Call, Conditional, Event, Expr, ForStart, Span,
    Statement,
};

// ---- what stands in front of blocks

/// What a `for` begins with.
fn check_for_start<'a>(
    alloc: Global,
    scope: &mut Scope<'a>,
    start: &'a ForStart,
) -> Result<Broken, AllocError>
    ensures broken { IfOk result (λ broken. broken ≡ least (spec.check_for_start (view scope.old) start.now)) }
    ensures view { OnOk result (view scope.new ≡ spec.behind_for_start (view scope.old) start.now) }
    ensures around { OnOk result (around scope.new ≡ around scope.old) }
{
    match start {
        ForStart::Variables(declared) => variables(alloc, scope, declared),
        ForStart::Assign(assignment) => check_assignment(alloc, scope, assignment),
    }
}

/// The head of a `for`.
#[tactic(auto, using(crate::proofs::Leasts::least_append))]
fn check_for_head<'a>(
    alloc: Global,
    scope: &mut Scope<'a>,
    start: &'a ForStart,
    condition: &Expr,
    step: &Assignment,
) -> Result<Broken, AllocError>
    ensures broken { IfOk result (λ broken. broken ≡ least (spec.check_for_head (view scope.old) start.now condition.now step.now)) }
    ensures view { OnOk result (view scope.new ≡ spec.behind_for_start (view scope.old) start.now) }
    ensures around { OnOk result (around scope.new ≡ around scope.old) }
{
    let start = check_for_start(alloc, scope, start)?;
    let condition = check_condition(scope, condition);
    let step = check_assignment(alloc, scope, step)?;
    Ok(start.and(condition).and(step))
}

/// A branch's guard and event.
#[tactic(auto, using(crate::proofs::Leasts::least_append))]
fn check_guarded_event(
    alloc: Global,
    scope: &Scope<'_>,
    guard: Option<&Expr>,
    event: &Event,
) -> Result<Broken, AllocError>
    ensures { IfOk result (λ broken. broken ≡ least (spec.check_guarded_event (view scope.now) (option_map (λ guard. guard.now) guard.entry) event.now)) }
{
    let guard = check_guard(scope, guard);
    let event = check_event(alloc, scope, event)?;
    Ok(guard.and(event))
}

/// A branch's guard and call of an altstep.
#[tactic(auto, using(crate::proofs::Leasts::least_append))]
fn check_guarded_call(
    alloc: Global,
    scope: &Scope<'_>,
    guard: Option<&Expr>,
    call: &Call,
) -> Result<Broken, AllocError>
    ensures { IfOk result (λ broken. broken ≡ least (spec.check_guarded_call (view scope.now) (option_map (λ guard. guard.now) guard.entry) call.now)) }
{
    let guard = check_guard(scope, guard);
    let call = check_call(alloc, scope, CallPlace::Branch, call)?;
    Ok(guard.and(call))
}

// ---- blocks, statements and branches

/// Statements in a block of their own: what one declares is visible in those behind it.
#[cycle(statement)]
pub(crate) fn block<'a>(
    alloc: Global,
    scope: &mut Scope<'a>,
    place: Place,
    body: &'a [Statement],
    found: &mut Least,
) -> Result<(), AllocError>
    ensures found { OnOk result (least_in found.new ≡ both (least_in found.old) (least (spec.statements body.now (place_with (view scope.old) place)))) }
    ensures view { OnOk result (view scope.new ≡ view scope.old) }
    ensures around { OnOk result (around scope.new ≡ around scope.old) }
{
    scope.enter(alloc)?;
    for item in body {
        statement(alloc, scope, place, item, found)?;
    }
    scope.leave();
    Ok(())
}

/// The conditions of an `if`, each with its block.
#[cycle(statement)]
fn conditionals<'a>(
    alloc: Global,
    scope: &mut Scope<'a>,
    place: Place,
    conditionals: &'a [Conditional],
    at: Span,
    found: &mut Least,
) -> Result<(), AllocError>
    ensures found { OnOk result (least_in found.new ≡ both (least_in found.old) (least (flat_map (λ conditional. spec.conditional conditional (place_with (view scope.old) place)) conditionals.now))) }
    ensures view { OnOk result (view scope.new ≡ view scope.old) }
    ensures around { OnOk result (around scope.new ≡ around scope.old) }
{
    for conditional in conditionals {
        found.note(check_condition(scope, &conditional.condition), at);
        block(alloc, scope, place, conditional.block.as_slice(), found)?;
    }
    Ok(())
}

/// What a branch waits for, and the block behind it.
#[cycle(statement)]
#[tactic(auto, using(check_rules::proofs::StatementForms::branch_forms))]
fn branch<'a>(
    alloc: Global,
    scope: &mut Scope<'a>,
    place: Place,
    branch: &'a Branch,
    found: &mut Least,
) -> Result<(), AllocError>
    ensures found { OnOk result (least_in found.new ≡ both (least_in found.old) (least (spec.branch branch.now (place_with (view scope.old) place)))) }
    ensures view { OnOk result (view scope.new ≡ view scope.old) }
    ensures around { OnOk result (around scope.new ≡ around scope.old) }
{
    let inside = place.inside_branch();
    match branch.alternative.get() {
        Alternative::Event(guard, event, body) => {
            let broken = check_guarded_event(alloc, scope, guard.as_ref(), event)?;
            found.note(broken, branch.place);
            match body {
                Some(body) => block(alloc, scope, inside, body.as_slice(), found),
                None => Ok(()),
            }
        }
        Alternative::Call(guard, call, body) => {
            let broken = check_guarded_call(alloc, scope, guard.as_ref(), call)?;
            found.note(broken, branch.place);
            match body {
                Some(body) => block(alloc, scope, inside, body.as_slice(), found),
                None => Ok(()),
            }
        }
        Alternative::Else(body) => block(alloc, scope, inside, body.as_slice(), found),
    }
}

/// The branches of an `alt` or an altstep.
#[cycle(statement)]
pub(crate) fn branches<'a>(
    alloc: Global,
    scope: &mut Scope<'a>,
    place: Place,
    branches: &'a [Branch],
    found: &mut Least,
) -> Result<(), AllocError>
    ensures found { OnOk result (least_in found.new ≡ both (least_in found.old) (least (flat_map (λ branch. spec.branch branch (place_with (view scope.old) place)) branches.now))) }
    ensures view { OnOk result (view scope.new ≡ view scope.old) }
    ensures around { OnOk result (around scope.new ≡ around scope.old) }
{
    for item in branches {
        branch(alloc, scope, place, item, found)?;
    }
    Ok(())
}

#[cycle(statement)]
#[tactic(auto, using(check_rules::proofs::StatementForms::statement_forms))]
fn statement<'a>(
    alloc: Global,
    scope: &mut Scope<'a>,
    place: Place,
    statement: &'a Statement,
    found: &mut Least,
) -> Result<(), AllocError>
    ensures found { OnOk result (least_in found.new ≡ both (least_in found.old) (least ((spec.statement statement.now).broken (place_with (view scope.old) place)))) }
    ensures view { OnOk result (view scope.new ≡ (spec.statement statement.now).scope_behind (view scope.old)) }
    ensures around { OnOk result (around scope.new ≡ around scope.old) }
{
    let at = statement.place;
    match statement.action.get() {
        Action::Alt(items) => branches(alloc, scope, place, items.as_slice(), found),
        Action::If(items, last) => {
            conditionals(alloc, scope, place, items.as_slice(), at, found)?;
            match last {
                Some(body) => block(alloc, scope, place, body.as_slice(), found),
                None => Ok(()),
            }
        }
        Action::While(condition, body) => {
            found.note(check_condition(scope, condition), at);
            block(alloc, scope, place, body.as_slice(), found)
        }
        Action::DoWhile(body, condition) => {
            block(alloc, scope, place, body.as_slice(), found)?;
            found.note(check_condition(scope, condition), at);
            Ok(())
        }
        Action::For(start, condition, step, body) => {
            scope.enter(alloc)?;
            let head = check_for_head(alloc, scope, start, condition, step)?;
            found.note(head, at);
            block(alloc, scope, place, body.as_slice(), found)?;
            scope.leave();
            Ok(())
        }
        action => {
            let broken = check_leaf(alloc, scope, place, action)?;
            found.note(broken, at);
            Ok(())
        }
    }
}
