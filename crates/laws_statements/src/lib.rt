//! Laws of statements that break no rule, for the layers above: they run no code.
#![tactic(auto)]

ghost use Rattle.std.specs.Prelude.{◌≡◌, ℕ, Bool, List, [], ◌∷◌, ◌++◌, Option, None, Some};
ghost use Rattle.ttcn_syntax.specs.declared.tree.definition.Altstep.{Altstep};
ghost use Rattle.ttcn_syntax.specs.declared.tree.definition.ComponentType.{ComponentType};
ghost use Rattle.ttcn_syntax.specs.declared.tree.definition.Definition.{Definition};
ghost use Rattle.ttcn_syntax.specs.declared.tree.definition.DefinitionKind.TheVariants as kind;
ghost use Rattle.ttcn_syntax.specs.declared.tree.definition.Function.{Function};
ghost use Rattle.ttcn_syntax.specs.declared.tree.definition.Member.{Member};
ghost use Rattle.ttcn_syntax.specs.declared.tree.definition.Testcase.{Testcase};
ghost use Rattle.ttcn_syntax.specs.declared.tree.expression.ComponentRef.{ComponentRef};
ghost use Rattle.ttcn_syntax.specs.declared.tree.expression.Expr.{Expr};
ghost use Rattle.ttcn_syntax.specs.declared.tree.statement.Action.{out-Action};
ghost use Rattle.ttcn_syntax.specs.declared.tree.statement.Assignment.{Assignment};
ghost use Rattle.ttcn_syntax.specs.declared.tree.statement.Branch.{Branch};
ghost use Rattle.ttcn_syntax.specs.declared.tree.statement.Constants.{Constants};
ghost use Rattle.ttcn_syntax.specs.declared.tree.statement.Receive.{Receive};
ghost use Rattle.ttcn_syntax.specs.declared.tree.statement.Statement.{Statement, out-Statement};
ghost use Rattle.ttcn_syntax.specs.declared.tree.statement.Variables.{Variables};
ghost use Rattle.ttcn_syntax.specs.declared.tree.template.MessageTemplate.{MessageTemplate};
ghost use Rattle.ttcn_syntax.specs.declared.tree.value.Call.{Call};
ghost use Rattle.ttcn_syntax.specs.declared.tree.value.Rhs.{Rhs};
ghost use Rattle.ttcn_syntax.specs.declared.tree.value.TypeName.{TypeName};
ghost use Rattle.ttcn_syntax.specs.declared.tree.value.Value.{Value};
ghost use Rattle.check_rules.specs.Calls.{check_activation};
ghost use Rattle.check_rules.specs.Targets.{check_assignment, check_constants, check_rhs, check_variables};
ghost use Rattle.check_scope.specs.Names.{Scope, declaring, kind_at, module_names, resolved};
ghost use Rattle.check_scope.specs.declared.names.Meaning.{Meaning};
ghost use Rattle.check_scope.specs.declared.types.DataType.{DataType};
ghost use Rattle.check_rules.specs.Definitions.{check_member, returns_of};
ghost use Rattle.check_rules.specs.Messages.{check_message, check_receive, passage_at, type_anywhere};
ghost use Rattle.check_rules.specs.Statements.{Place, check_condition, check_return, check_start, branch, statement, statements};
ghost use Rattle.laws_checker.specs.Laws.{IsKnown, IsWhole};
ghost use Rattle.laws_statements.specs.Members.{IsMember, scope_behind};
ghost use Rattle.laws_statements.specs.Messages.{HasType};
ghost use Rattle.laws_statements.specs.Named.{IsDefinedAs};
ghost use Rattle.laws_statements.specs.Parts.{HasFineParts, IsCondition, IsFineBranch};
ghost use Rattle.laws_statements.specs.Redirects.{HasRedirects};
ghost use Rattle.laws_statements.specs.Resolved.{Activates, Starts};
ghost use Rattle.laws_statements.specs.Results.{IsFineWithoutReturns, IsReturn, KnowsResults, branches, scope_in};
ghost use Rattle.laws_statements.specs.Targets.{DeclaresConstants, DeclaresVariables, HasTarget, IsAssignment, IsRightSide};
ghost use Rattle.check_survey.specs.Graphs.{AllChainsWithin};
ghost use Rattle.check_rules.specs.Limits.{longest_chain};
ghost use Rattle.check_rules.specs.Parts.{altsteps};

mod wider;

use check_rules::Program;
pub use wider::{
    declarations_stay_fine, expressions_stay_fine, parts_stay_fine, returns_stay_fine, scopes_grow,
    statements_stay_fine, types_stay_same,
};

/// A condition that breaks no rule is boolean.
#[tactic(auto, using(crate::proofs::Descent::condition_fine))]
pub fn conditions_are_boolean()
    ensures { (scope : Scope) → IsWhole scope → (e : Expr) → check_condition scope e ≡ [] → IsCondition scope e }
{}

/// What stands within a statement that breaks no rule breaks none: conditions are boolean, and blocks, branches and what
/// is assigned, called, sent or received are fine in the scopes in which they stand.
#[tactic(auto, using(crate::proofs::Descent::statement_fine))]
pub fn parts_are_fine()
    ensures { (s : Statement) (place : Place) → IsWhole place.scope → (statement s).broken place ≡ [] → HasFineParts place (out-Action (out-Statement s).action) }
{}

/// What stands within a branch that breaks no rule breaks none.
#[tactic(auto, using(crate::proofs::Descent::branch_fine))]
pub fn branches_are_fine()
    ensures { (b : Branch) (place : Place) → IsWhole place.scope → branch b place ≡ [] → IsFineBranch place b }
{}

/// An activation that breaks no rule is that of an altstep that may run here, with an argument of its type for each
/// parameter.
#[tactic(auto, using(crate::proofs::Resolving::activation_resolves))]
pub fn activations_resolve()
    ensures { (scope : Scope) (call : Call) → check_activation scope call ≡ [] → Activates scope call }
{}

/// A start that breaks no rule is that of a component with a function that runs on its type, with an argument of its type
/// for each parameter.
pub fn starts_resolve()
    ensures { (scope : Scope) (reference : ComponentRef) (call : Call) → check_start scope reference call ≡ [] → Starts scope reference call }
{}

/// The type of a message that breaks no rule at a port of a known type is known, whether it is sent or received.
#[tactic(auto, using(crate::proofs::MessageTypes::passing_typed))]
pub fn message_types_are_known()
    ensures { (scope : Scope) → IsWhole scope → (incoming : Bool) (port : ℕ) (message : MessageTemplate) → check_message scope (passage_at scope.definitions incoming (Some port)).0 (passage_at scope.definitions incoming (Some port)).1 message ≡ [] → HasType scope (passage_at scope.definitions incoming (Some port)) message }
{}

/// The type of a message that breaks no rule where it is received at `any port` is known.
#[tactic(auto, using(crate::proofs::MessageTypes::anywhere_typed))]
pub fn message_types_are_known_at_any_port()
    ensures { (scope : Scope) → IsWhole scope → (message : MessageTemplate) → check_message scope None type_anywhere message ≡ [] → HasType scope (None, type_anywhere) message }
{}

/// What a name of a module stands for is defined at the position that it means, under that name, in every module.
#[tactic(auto, using(crate::proofs::Naming::name_defined))]
pub fn names_are_defined()
    ensures { (definitions : List Definition) (name : List ℕ) (m : Meaning) → module_names definitions name ≡ Some m → IsDefinedAs definitions name m }
{}

/// The type of the target of an assignment that breaks no rule is known, and what is assigned goes there.
#[tactic(auto, using(crate::proofs::Assigning::assignment_typed))]
pub fn targets_are_known()
    ensures { (scope : Scope) → IsWhole scope → (assignment : Assignment) → check_assignment scope assignment ≡ [] → HasTarget scope assignment }
{}

/// Altsteps that are branches of one another make chains of at most 200.
#[tactic(auto, using(crate::proofs::Chains::chains_short))]
pub fn altstep_chains_are_short(program: &Program)
    ensures { AllChainsWithin (altsteps program.now.definitions) longest_chain }
{
    let _ = program.module();
}

/// The types of the results of functions are known.
#[tactic(auto, using(crate::proofs::Returning::results_known))]
pub fn results_are_known(program: &Program)
    ensures { KnowsResults program.now.definitions }
{
    let _ = program.module();
}

/// A `return` in a function that breaks no rule returns a value of the result's type, where the function has a result, and
/// where it has none, nothing.
#[tactic(auto, using(crate::proofs::Returning::return_fits))]
pub fn returns_fit()
    ensures { (scope : Scope) → KnowsResults scope.definitions → (at : ℕ) (f : Function) → kind_at scope.definitions at ≡ Some (kind.Function f) → (given : Option Value) → check_return scope (returns_of scope.definitions f.returns) given ≡ [] → IsReturn scope f.returns given }
{}

/// No `return` stands in altsteps and test cases that break no rule: they break none where no `return` may stand.
#[tactic(auto, using(crate::proofs::Returning::altstep_fine, crate::proofs::Returning::testcase_fine))]
pub fn returns_stand_in_functions(program: &Program)
    ensures in_no_altstep { (at : ℕ) (a : Altstep) → kind_at program.now.definitions at ≡ Some (kind.Altstep a) → IsFineWithoutReturns (scope_in program.now.definitions a.runs_on a.parameters) (branches a.branches) }
    ensures in_no_test_case { (at : ℕ) (t : Testcase) → kind_at program.now.definitions at ≡ Some (kind.Testcase t) → IsFineWithoutReturns (scope_in program.now.definitions (Some t.runs_on) []) (statements t.body) }
{
    let _ = program.module();
}

/// What stands on the right of `:=`, and breaks no rule at a target of a type, goes to this type: in assignments, and in
/// declarations of variables and constants, whose type is known.
#[tactic(auto, using(crate::proofs::RightSides::right_fits, crate::proofs::RightSides::assignment_fits, crate::proofs::RightSides::variables_fit, crate::proofs::RightSides::constants_fit))]
pub fn right_sides_fit()
    ensures anywhere { (scope : Scope) → KnowsResults scope.definitions → (t : DataType) (optional : Bool) (right : Rhs) → check_rhs scope (record { data_type = Some t; optional = optional }) right ≡ [] → IsRightSide scope t optional right }
    ensures assignments { (scope : Scope) → KnowsResults scope.definitions → IsWhole scope → (assignment : Assignment) → check_assignment scope assignment ≡ [] → IsAssignment scope assignment }
    ensures variables { (scope : Scope) → KnowsResults scope.definitions → (vs : Variables) → check_variables scope vs ≡ [] → DeclaresVariables scope vs }
    ensures constants { (scope : Scope) (cs : Constants) → check_constants scope cs ≡ [] → DeclaresConstants scope cs }
{}

/// The redirects of a `receive` that breaks no rule store the message in a variable of the message's type, and the sender in
/// one of a component type.
pub fn redirects_fit()
    ensures { (scope : Scope) → IsWhole scope → (receive : Receive) → check_receive scope receive ≡ [] → HasRedirects scope receive }
{}

/// In a component type, each member breaks no rule in the scope behind those before it, which is whole: its ports have
/// their port type, its constants and variables their type, to which their values go, and its names are new.
#[tactic(auto, using(crate::proofs::Members::whole_between, crate::proofs::Members::member_fine, crate::proofs::Members::member_is))]
pub fn members_are_fine(program: &Program)
    ensures scopes { (at : ℕ) (c : ComponentType) → kind_at program.now.definitions at ≡ Some (kind.Component c) → (before rest : List Member) → before ++ rest ≡ c.members → IsWhole (scope_behind program.now.definitions at before) }
    ensures rules { (at : ℕ) (c : ComponentType) → kind_at program.now.definitions at ≡ Some (kind.Component c) → (before : List Member) (m : Member) (rest : List Member) → before ++ m ∷ rest ≡ c.members → check_member (scope_behind program.now.definitions at before) m ≡ [] }
    ensures parts { (at : ℕ) (c : ComponentType) → kind_at program.now.definitions at ≡ Some (kind.Component c) → (before : List Member) (m : Member) (rest : List Member) → before ++ m ∷ rest ≡ c.members → IsMember (scope_behind program.now.definitions at before) m }
{
    let _ = program.module();
}

/// The types that are visible between the members of a component type are those of the module.
pub fn members_declare_no_types()
    ensures { (definitions : List Definition) (at : ℕ) (before : List Member) (of : TypeName) (t : DataType) → resolved (scope_behind definitions at before).names of ≡ Some t → resolved (module_names definitions) of ≡ Some t }
{}

/// A whole scope is whole with a further name, if what this stands for is known.
#[tactic(auto, using(crate::proofs::Members::name_leaves_whole))]
pub fn names_leave_scopes_whole()
    ensures { (scope : Scope) → IsWhole scope → (name : List ℕ) (m : Meaning) → IsKnown scope.definitions m → IsWhole (declaring scope ((name, m) ∷ [])) }
{}
