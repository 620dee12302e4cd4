//! Laws of what breaks no rule where further names are visible.
ghost use Rattle.std.specs.Prelude.{◌≡◌, ◌≢◌, ℕ, Bool, List, [], ◌∷◌, ◌++◌, Option, None, Some};
ghost use Rattle.ttcn_syntax.specs.declared.tree.definition.ComponentType.{ComponentType};
ghost use Rattle.ttcn_syntax.specs.declared.tree.definition.Definition.{Definition};
ghost use Rattle.ttcn_syntax.specs.declared.tree.definition.DefinitionKind.{DefinitionKind};
ghost use Rattle.ttcn_syntax.specs.declared.tree.definition.DefinitionKind.TheVariants as kind;
ghost use Rattle.ttcn_syntax.specs.declared.tree.definition.Member.{Member};
ghost use Rattle.ttcn_syntax.specs.declared.tree.definition.Parameter.{Parameter};
ghost use Rattle.ttcn_syntax.specs.declared.tree.expression.ComponentRef.{ComponentRef};
ghost use Rattle.ttcn_syntax.specs.declared.tree.expression.Expr.{Expr};
ghost use Rattle.ttcn_syntax.specs.declared.tree.expression.Reference.{Reference};
ghost use Rattle.ttcn_syntax.specs.declared.tree.statement.Assignment.{Assignment};
ghost use Rattle.ttcn_syntax.specs.declared.tree.statement.Branch.{Branch};
ghost use Rattle.ttcn_syntax.specs.declared.tree.statement.Constants.{Constants};
ghost use Rattle.ttcn_syntax.specs.declared.tree.statement.Event.{Event};
ghost use Rattle.ttcn_syntax.specs.declared.tree.statement.LogItem.{LogItem};
ghost use Rattle.ttcn_syntax.specs.declared.tree.statement.Mapping.{Mapping};
ghost use Rattle.ttcn_syntax.specs.declared.tree.statement.PortSelector.{PortSelector};
ghost use Rattle.ttcn_syntax.specs.declared.tree.statement.Receive.{Receive};
ghost use Rattle.ttcn_syntax.specs.declared.tree.statement.Send.{Send};
ghost use Rattle.ttcn_syntax.specs.declared.tree.statement.Statement.{Statement};
ghost use Rattle.ttcn_syntax.specs.declared.tree.statement.Timer.{Timer};
ghost use Rattle.ttcn_syntax.specs.declared.tree.statement.Variables.{Variables};
ghost use Rattle.ttcn_syntax.specs.declared.tree.statement.Verdict.{Verdict};
ghost use Rattle.ttcn_syntax.specs.declared.tree.template.MessageTemplate.{MessageTemplate};
ghost use Rattle.ttcn_syntax.specs.declared.tree.template.Template.{Template};
ghost use Rattle.ttcn_syntax.specs.declared.tree.value.Call.{Call};
ghost use Rattle.ttcn_syntax.specs.declared.tree.value.Rhs.{Rhs};
ghost use Rattle.ttcn_syntax.specs.declared.tree.value.TypeName.{TypeName};
ghost use Rattle.ttcn_syntax.specs.declared.tree.value.Value.{Value};
ghost use Rattle.check_rules.specs.Calls.{check_activation, check_arguments, check_call};
ghost use Rattle.check_rules.specs.Expressions.{Judgement, check_component, check_reference, check_wanted_component, expression};
ghost use Rattle.check_rules.specs.Targets.{check_assignment, check_constants, check_new_name, check_rhs, check_target, check_timers, check_type, check_variables, target_at};
ghost use Rattle.check_rules.specs.Templates.{template};
ghost use Rattle.check_rules.specs.Values.{value};
ghost use Rattle.check_scope.specs.Names.{Names, Scope, declaring, kind_at, resolved};
ghost use Rattle.check_scope.specs.declared.names.Meaning.{Meaning};
ghost use Rattle.check_scope.specs.declared.rule.Rule.TheVariants as rule;
ghost use Rattle.check_scope.specs.declared.types.Target.{Target};
ghost use Rattle.check_rules.specs.Definitions.{check_parameters, returns_of, with_parameters};
ghost use Rattle.check_rules.specs.Messages.{Passing, check_event, check_message, check_receive, check_selector, check_send, check_timer, incoming, type_of_message};
ghost use Rattle.check_rules.specs.Statements.{Place, branch, check_condition, check_deactivate, check_ends, check_guard, check_log, check_mapping, check_return, check_setverdict, check_start, check_stop, statement, statements, with_scope};
ghost use Rattle.laws_statements.specs.Declares.{Declared, NoneIsFurther, names_of_branch, names_of_constants, names_of_statement, names_of_statements, names_of_timers, names_of_variables};
ghost use Rattle.laws_statements.specs.Members.{scope_behind};
ghost use Rattle.laws_statements.specs.Within.{IsWithin, ReturnsStayFine, StaysFine, StaysSame};

use check_rules::Program;

/// An expression that breaks no rule breaks none where further names are visible, and what is said of it is the same. So it
/// is with references, components and targets; values and templates break none there.
#[tactic(auto, using(crate::proofs::Within::expression_stays, crate::proofs::Within::reference_stays, crate::proofs::Within::component_stays, crate::proofs::Within::wanted_stays, crate::proofs::Within::target_stays, crate::proofs::Within::value_stays, crate::proofs::Within::template_stays))]
pub fn expressions_stay_fine()
    ensures expressions { (e : Expr) (free : Bool) → StaysSame (λ s. expression e s free) }
    ensures references { (r : Reference) → StaysSame (λ s. check_reference s r) }
    ensures components { (c : ComponentRef) (free : Bool) → StaysSame (λ s. check_component s c free) }
    ensures wanted_components { (c : ComponentRef) → StaysSame (λ s. check_wanted_component s c) }
    ensures targets { (r : Reference) → StaysSame (λ s. check_target s r) }
    ensures values { (v : Value) (target : Target) → StaysFine (λ s. value v s target) }
    ensures templates { (t : Template) (target : Target) → StaysFine (λ s. template t s target) }
{}

/// What stands in statements without blocks and declarations, and breaks no rule, breaks none where further names are
/// visible.
#[tactic(auto, using(crate::proofs::Within::arguments_stay, crate::proofs::Within::guard_stays, crate::proofs::Within::call_stays, crate::proofs::Within::activation_stays, crate::proofs::Within::rhs_stays, crate::proofs::Within::assignment_stays, crate::proofs::Within::condition_stays, crate::proofs::Within::deactivate_stays, crate::proofs::Within::stop_stays, crate::proofs::Within::ends_stays, crate::proofs::Within::mapping_stays, crate::proofs::Within::start_stays, crate::proofs::Within::timer_stays, crate::proofs::Within::message_stays, crate::proofs::Within::send_stays, crate::proofs::Within::receive_stays, crate::proofs::Within::event_stays))]
pub fn parts_stay_fine()
    ensures arguments { (parameters : List Parameter) (given : List Value) → StaysFine (λ s. check_arguments s parameters given) }
    ensures calls { (callable : Option DefinitionKind → Bool) (call : Call) → StaysFine (λ s. check_call s callable call) }
    ensures activations { (call : Call) → StaysFine (λ s. check_activation s call) }
    ensures right_sides { (target : Target) (right : Rhs) → StaysFine (λ s. check_rhs s target right) }
    ensures assignments { (a : Assignment) → StaysFine (λ s. check_assignment s a) }
    ensures guards { (guard : Option Expr) → StaysFine (λ s. check_guard s guard) }
    ensures conditions { (e : Expr) → StaysFine (λ s. check_condition s e) }
    ensures verdicts { (v : Verdict) (reasons : List LogItem) → StaysFine (λ s. check_setverdict s v reasons) }
    ensures logs { (items : List LogItem) → StaysFine (λ s. check_log s items) }
    ensures deactivations { (r : Option Reference) → StaysFine (λ s. check_deactivate s r) }
    ensures stops { (c : ComponentRef) → StaysFine (λ s. check_stop s c) }
    ensures connections { (one other : ComponentRef) → StaysFine (λ s. check_ends s one other) }
    ensures mappings { (mapping : Mapping) → StaysFine (λ s. check_mapping s mapping) }
    ensures starts { (c : ComponentRef) (call : Call) → StaysFine (λ s. check_start s c call) }
    ensures timers { (name : List ℕ) → StaysFine (λ s. check_timer s name) }
    ensures messages { (passing : Passing) (otherwise : Judgement) (message : MessageTemplate) → StaysFine (λ s. check_message s passing otherwise message) }
    ensures sends { (send : Send) → StaysFine (λ s. check_send s send) }
    ensures receives { (receive : Receive) → StaysFine (λ s. check_receive s receive) }
    ensures events { (e : Event) → StaysFine (λ s. check_event s e) }
{}

/// Types of names, targets and messages, and what passes at a port, are the same where further names are visible.
#[tactic(auto, using(crate::proofs::Within::type_stays, crate::proofs::Within::target_at_stays, crate::proofs::Within::message_type_stays, crate::proofs::Within::port_stays))]
pub fn types_stay_same()
    ensures names { (scope other : Scope) → IsWithin scope other → (default : Bool) (t : TypeName) → check_type scope.names default t ≡ [] → resolved other.names t ≡ resolved scope.names t }
    ensures targets { (scope other : Scope) → IsWithin scope other → (r : Reference) → (check_target scope r).broken ≡ [] → target_at other r ≡ target_at scope r }
    ensures messages { (scope other : Scope) → IsWithin scope other → (passing : Passing) (otherwise : Judgement) (message : MessageTemplate) → check_message scope passing otherwise message ≡ [] → type_of_message other passing otherwise message ≡ type_of_message scope passing otherwise message }
    ensures ports { (scope other : Scope) → IsWithin scope other → (port : PortSelector) → check_selector scope port ≡ [] → incoming other port ≡ incoming scope port }
{}

/// A `return` that breaks no rule breaks none where further names are visible: so it is in functions, and where none may stand.
#[tactic(auto, using(crate::proofs::Within::return_stays, crate::proofs::Within::no_return_stays))]
pub fn returns_stay_fine()
    ensures in_functions { (definitions : List Definition) (of : Option TypeName) (place : Place) → place.returns ≡ returns_of definitions of → ReturnsStayFine place }
    ensures elsewhere { (place : Place) → ((inner : Scope) (given : Option Value) → check_return inner place.returns given ≢ []) → ReturnsStayFine place }
{}

/// A statement that breaks no rule breaks none where further names are visible, if it declares none of them, since that
/// would be a name declared twice, and if a `return` at its place breaks none there (`returns_stay_fine`). The scope behind
/// it is within the one behind it there. So it is with branches and blocks.
#[tactic(auto, using(crate::proofs::WithinActions::statement_stays_fine, crate::proofs::WithinActions::statement_stays_within, crate::proofs::WithinActions::branch_stays_fine, crate::proofs::WithinActions::statements_stay))]
pub fn statements_stay_fine()
    ensures statements { (s : Statement) (place : Place) (other : Scope) → ReturnsStayFine place → IsWithin place.scope other → NoneIsFurther place.scope other (names_of_statement s) → (statement s).broken place ≡ [] → (statement s).broken (with_scope place other) ≡ [] }
    ensures scopes { (s : Statement) (place : Place) (other : Scope) → IsWithin place.scope other → (statement s).broken place ≡ [] → IsWithin ((statement s).scope_behind place.scope) ((statement s).scope_behind other) }
    ensures names { (s : Statement) (place : Place) (other : Scope) → IsWithin place.scope other → (statement s).broken place ≡ [] → (names : Declared) → NoneIsFurther place.scope other names → NoneIsFurther ((statement s).scope_behind place.scope) ((statement s).scope_behind other) names }
    ensures branches { (b : Branch) (place : Place) (other : Scope) → ReturnsStayFine place → IsWithin place.scope other → NoneIsFurther place.scope other (names_of_branch b) → branch b place ≡ [] → branch b (with_scope place other) ≡ [] }
    ensures blocks { (body : List Statement) (place : Place) (other : Scope) → ReturnsStayFine place → IsWithin place.scope other → NoneIsFurther place.scope other (names_of_statements body) → statements body place ≡ [] → statements body (with_scope place other) ≡ [] }
{}

/// A declaration that breaks no rule breaks none where further names are visible, if it declares none of them. A name that is
/// visible can't be declared: that breaks the rule on names declared twice.
#[tactic(auto, using(crate::proofs::WithinActions::variables_stay, crate::proofs::WithinActions::constants_stay, crate::proofs::WithinActions::timers_stay, crate::proofs::WithinActions::name_twice))]
pub fn declarations_stay_fine()
    ensures variables { (vs : Variables) (scope other : Scope) → IsWithin scope other → NoneIsFurther scope other (names_of_variables vs) → check_variables scope vs ≡ [] → check_variables other vs ≡ [] }
    ensures constants { (cs : Constants) (scope other : Scope) → IsWithin scope other → NoneIsFurther scope other (names_of_constants cs) → check_constants scope cs ≡ [] → check_constants other cs ≡ [] }
    ensures timers { (timers : List Timer) (scope other : Scope) → IsWithin scope other → NoneIsFurther scope other (names_of_timers timers) → check_timers scope timers ≡ [] → check_timers other timers ≡ [] }
    ensures twice { (names : Names) (name : List ℕ) (m : Meaning) → names name ≡ Some m → check_new_name names name ≡ rule.DuplicateName ∷ [] }
{}

/// Declarations that break no rule leave what is visible as it is: the scope in front of them is within the one behind, and
/// so it is with the scopes between the members of a component type. To be within another scope is reflexive and transitive.
#[tactic(auto, using(crate::proofs::Growing::within_itself, crate::proofs::Growing::within_both, crate::proofs::Growing::new_name_within, crate::proofs::Growing::parameters_within, crate::proofs::Growing::statement_within, crate::proofs::Growing::members_within))]
pub fn scopes_grow(program: &Program)
    ensures itself { (scope : Scope) → IsWithin scope scope }
    ensures both { (scope other more : Scope) → IsWithin scope other → IsWithin other more → IsWithin scope more }
    ensures new_name { (scope : Scope) (name : List ℕ) (m : Meaning) → scope.names name ≡ None → IsWithin scope (declaring scope ((name, m) ∷ [])) }
    ensures parameters { (scope : Scope) (parameters : List Parameter) → check_parameters scope parameters ≡ [] → IsWithin scope (with_parameters scope parameters) }
    ensures statements { (s : Statement) (place : Place) → (statement s).broken place ≡ [] → IsWithin place.scope ((statement s).scope_behind place.scope) }
    ensures members { (at : ℕ) (c : ComponentType) → kind_at program.now.definitions at ≡ Some (kind.Component c) → (before more rest : List Member) → before ++ (more ++ rest) ≡ c.members → IsWithin (scope_behind program.now.definitions at before) (scope_behind program.now.definitions at (before ++ more)) }
{
    let _ = program.module();
}
