//! Which modules are well typed.
ghost use Rattle.std.specs.Prelude.{◌≡◌, ◌<◌, ◌≤◌, length, IfErr, IfOk, IfSome, OnOk};
ghost use Rattle.check_survey.specs.Graphs.{AreComplete};
ghost use Rattle.check_scope.specs.internal.Checking.{least_in};
ghost use Rattle.check_scope.specs.Numbers.{number_of};
ghost use Rattle.check_rules.specs.Rules.{AreWellTyped, Breaks};
ghost use Rattle.ttcn_types.specs.Refusals.{IsRefusal};
ghost use Rattle.ttcn_types.specs.internal.Surveys.{BreaksAmong, BreaksBySurvey, BreaksInAltsteps, BreaksInRecords, BreaksWritten, IsLeastWhere, rule_of};

use crate::error::CheckError;
use crate::parts::{altsteps, constants_and_templates, records};
use check_rules::Program;
use check_scope::least::Least;
use check_scope::rule::Rule;
use check_scope::scope::Scope;
use check_statements::check_definitions;
use check_survey::{Findings, Thing, survey};
use std::alloc::{AllocError, Global};
use ttcn_syntax::{Definition, Module};

/// How many members a chain may have, of records, of constants and templates, or of altsteps.
const LONGEST: u32 = 200;

/// How many fields a record may have, those of the records in it among them.
const MOST_FIELDS: u32 = 1_000;

/// How many parts a constant, a template or an altstep may have, written out.
const MOST_PARTS: u32 = 10_000;

/// The least rule that things break by circles or sizes, and a thing that breaks it. A circle breaks the rule that is
/// given.
fn check_survey(
    alloc: Global,
    things: &[Thing],
    heaviest: u32,
    circle: Rule,
) -> Result<Option<(Rule, usize)>, AllocError>
    requires complete { AreComplete things.now }
    requires before_size { number_of circle ≤ 5 }
    ensures least { IfOk result (λ fault. IsLeastWhere (BreaksAmong things.now heaviest circle) (rule_of fault)) }
    ensures within { IfOk result (λ fault. IfSome fault (λ f. f.1 < length things.now)) }
{
    match survey(alloc, things, LONGEST, heaviest)? {
        Findings::Circle(thing) => Ok(Some((circle, thing))),
        Findings::Sizes {
            too_long,
            too_heavy,
        } => match too_long.or(too_heavy) {
            Some(thing) => Ok(Some((Rule::Size, thing))),
            None => Ok(None),
        },
    }
}

/// A fault at the place of the definition that it is about.
fn least_at(definitions: &[Definition], fault: Option<(Rule, usize)>) -> Least
    requires { IfSome fault (λ f. f.1 < length definitions.now) }
    ensures { (least_in result).least ≡ rule_of fault }
{
    match fault {
        Some((rule, at)) => Least {
            fault: Some((rule, definitions[at].place)),
        },
        None => Least { fault: None },
    }
}

/// A record that contains itself, or is too large.
#[tactic(auto, using(crate::proofs::Complete::records_complete, crate::proofs::Tallies::tally_complete, crate::proofs::Tallies::least_tally))]
fn check_records(alloc: Global, scope: &Scope<'_>) -> Result<Least, AllocError>
    ensures { IfOk result (λ found. IsLeastWhere (BreaksInRecords scope.now.definitions.now) (least_in found).least) }
{
    let things = records(alloc, scope)?;
    let fault = check_survey(alloc, things.as_slice(), MOST_FIELDS, Rule::BadType)?;
    Ok(least_at(scope.definitions, fault))
}

/// A constant or a template that refers to itself, or is too large.
#[tactic(auto, using(crate::proofs::WrittenOut::written_complete, crate::proofs::Tallies::tally_complete, crate::proofs::Tallies::least_tally))]
fn check_written(alloc: Global, scope: &Scope<'_>) -> Result<Least, AllocError>
    ensures { IfOk result (λ found. IsLeastWhere (BreaksWritten scope.now.definitions.now) (least_in found).least) }
{
    let written = constants_and_templates(alloc, scope)?;
    let fault = match check_survey(alloc, written.things.as_slice(), MOST_PARTS, Rule::Cycle)? {
        Some((rule, number)) => Some((rule, written.places[number])),
        None => None,
    };
    Ok(Least { fault })
}

/// An altstep that is a branch of itself, or too large.
#[tactic(auto, using(crate::proofs::Complete::altsteps_complete, crate::proofs::Tallies::tally_complete, crate::proofs::Tallies::least_tally))]
fn check_altsteps(alloc: Global, scope: &Scope<'_>) -> Result<Least, AllocError>
    ensures { IfOk result (λ found. IsLeastWhere (BreaksInAltsteps scope.now.definitions.now) (least_in found).least) }
{
    let things = altsteps(alloc, scope)?;
    let fault = check_survey(alloc, things.as_slice(), MOST_PARTS, Rule::Cycle)?;
    Ok(least_at(scope.definitions, fault))
}

/// The least rule that the definitions break by circles and sizes.
#[tactic(auto, using(crate::proofs::LeastWhere::where_either))]
fn check_surveys(alloc: Global, scope: &Scope<'_>) -> Result<Least, AllocError>
    ensures { IfOk result (λ found. IsLeastWhere (BreaksBySurvey scope.now.definitions.now) (least_in found).least) }
{
    let records = check_records(alloc, scope)?;
    let written = check_written(alloc, scope)?;
    let altsteps = check_altsteps(alloc, scope)?;
    Ok(records.and(written).and(altsteps))
}

/// The least rule that definitions break, with a place that breaks it.
fn least_broken(alloc: Global, definitions: &[Definition]) -> Result<Least, AllocError>
    ensures { IfOk result (λ found. IsLeastWhere (Breaks definitions.now) (least_in found).least) }
{
    let mut found = Least { fault: None };
    let mut scope = Scope::new(alloc, definitions, &mut found)?;
    found = found.and(check_surveys(alloc, &scope)?);
    check_definitions(alloc, &mut scope, definitions, &mut found)?;
    Ok(found)
}

/// Whether a module is well typed (ES 201 873-1, cut to this subset). If it is, the program keeps it. Otherwise the answer
/// is the least rule that it breaks, with a place that breaks it, and the module is dropped.
///
/// # Errors
/// - `Broken`: the module breaks a rule, and no lesser one.
/// - `Memory`: the allocator refuses memory.
pub fn check(alloc: Global, tree: Module) -> Result<Program, CheckError>
    ensures same { IfOk result (λ program. program ≡ tree) }
    ensures well_typed { OnOk result (AreWellTyped tree.definitions) }
    ensures refused { IfErr result (IsRefusal tree.definitions) }
{
    match least_broken(alloc, tree.definitions.as_slice()) {
        Err(refused) => Err(CheckError::Memory(refused)),
        Ok(found) => match found.fault {
            Some((rule, place)) => Err(CheckError::Broken(rule, place)),
            None => Program::new(alloc, tree).map_err(CheckError::Memory),
        },
    }
}
