//! What conditions, component references, messages and assignments give.
ghost use Rattle.std.specs.Prelude.{◌≡◌, ℕ, List, Bool, true, [], Option, Some, IfSome};
ghost use Rattle.std.specs.List.{All};
ghost use Rattle.ttcn_syntax.specs.declared.tree.definition.Definition.{Definition};
ghost use Rattle.ttcn_syntax.specs.declared.tree.definition.Parameter.{Parameter};
ghost use Rattle.ttcn_syntax.specs.declared.tree.expression.ComponentRef.{ComponentRef};
ghost use Rattle.ttcn_syntax.specs.declared.tree.expression.Expr.{Expr};
ghost use Rattle.ttcn_syntax.specs.declared.tree.expression.Reference.{Reference};
ghost use Rattle.ttcn_syntax.specs.declared.tree.template.MessageTemplate.{MessageTemplate};
ghost use Rattle.ttcn_syntax.specs.declared.tree.value.Value as tree;
ghost use Rattle.value_assignment.specs.Assignment.{assigned};
ghost use Rattle.check_rules.specs.Calls.{parameters_of};
ghost use Rattle.check_rules.specs.Expressions.{Judgement, check_component, check_reference, check_wanted_component};
ghost use Rattle.check_rules.specs.Targets.{check_target, target_at};
ghost use Rattle.check_rules.specs.Values.{value};
ghost use Rattle.check_scope.specs.Names.{Scope, kind_at};
ghost use Rattle.check_scope.specs.Typings.{refers_to_component, target_of};
ghost use Rattle.check_scope.specs.declared.names.Meaning.TheVariants as meaning;
ghost use Rattle.check_scope.specs.declared.types.DataType.{DataType};
ghost use Rattle.check_scope.specs.declared.types.DataType.TheVariants as type;
ghost use Rattle.check_scope.specs.declared.types.Target.{Target};
ghost use Rattle.check_scope.specs.declared.types.Typing.TheVariants as typing;
ghost use Rattle.check_rules.specs.Messages.{Passing, check_message, type_of_message};
ghost use Rattle.check_rules.specs.Statements.{check_condition, check_deactivate};
ghost use Rattle.laws_checker.specs.Laws.{AreArguments, IsWhole};
ghost use Rattle.laws_evaluation.specs.Types.{FieldsDiffer, FitsIn, HasAll, HasParameterType, IsOfTyping, ParametersKnown, is_of, is_valued, template_goes, value_goes};
ghost use Rattle.laws_evaluation.specs.Uses.{GivesAlways, GivesOnly, HoldsAssigned, IsReference, IsSpecific};
ghost use Rattle.check_rules.specs.Rules.{AreWellTyped};
ghost use Rattle.value_types.specs.Evaluation.{condition_of};
ghost use Rattle.value_types.specs.Literals.{value_wanted};
ghost use Rattle.value_types.specs.Matching.{specific_value};
ghost use Rattle.value_types.specs.Outcomes.{IsMet, outcome_and_then};
ghost use Rattle.value_types.specs.Readings.{Reading, component_at, component_referred, referred};
ghost use Rattle.value_types.specs.Templates.{arguments, template_wanted};
ghost use Rattle.value_types.specs.declared.template.Template.{Template};
ghost use Rattle.value_types.specs.declared.value.Value.{Value};
ghost use Rattle.value_types.specs.declared.value.Value.TheVariants as value_form;

/// A condition that breaks no rule gives a boolean or a dynamic error.
#[tactic(auto, using(crate::proofs::Using::conditions_met))]
pub fn conditions_are_met()
    ensures { (e : Expr) (scope : Scope) (reading : Reading) → IsWhole scope → FitsIn scope reading → HasAll scope reading → check_condition scope e ≡ [] → IsMet (condition_of e reading) }
{}

/// What breaks no rule where a component is wanted gives a reference to one of its type or `null`, or a dynamic error; and the
/// component that is referred to is of this type, where `null` is a dynamic error.
#[tactic(auto, using(crate::proofs::Using::component_given, crate::proofs::Using::component_found, crate::proofs::Using::wanted_given, crate::proofs::Using::wanted_found))]
pub fn components_are_given()
    ensures references { (c : ComponentRef) (scope : Scope) (reading : Reading) → IsWhole scope → FitsIn scope reading → HasAll scope reading → (free : Bool) → (check_component scope c free).broken ≡ [] → refers_to_component (check_component scope c free).typing ≡ true → GivesOnly (component_at reading c) (IsReference scope.definitions (check_component scope c free).typing) }
    ensures components { (c : ComponentRef) (scope : Scope) (reading : Reading) → IsWhole scope → FitsIn scope reading → HasAll scope reading → (free : Bool) → (check_component scope c free).broken ≡ [] → refers_to_component (check_component scope c free).typing ≡ true → GivesOnly (component_referred reading c) (λ id. IsOfTyping scope.definitions (check_component scope c free).typing (value_form.Component id)) }
    ensures wanted_references { (c : ComponentRef) (scope : Scope) (reading : Reading) → IsWhole scope → FitsIn scope reading → HasAll scope reading → (check_wanted_component scope c).broken ≡ [] → GivesOnly (component_at reading c) (IsReference scope.definitions (check_wanted_component scope c).typing) }
    ensures wanted_components { (c : ComponentRef) (scope : Scope) (reading : Reading) → IsWhole scope → FitsIn scope reading → HasAll scope reading → (check_wanted_component scope c).broken ≡ [] → GivesOnly (component_referred reading c) (λ id. IsOfTyping scope.definitions (check_wanted_component scope c).typing (value_form.Component id)) }
{}

/// A reference that breaks no rule, and is of a value, gives a value of its type or a dynamic error; and where a default is
/// wanted, a default or `null`, or a dynamic error.
#[tactic(auto, using(crate::proofs::Using::reference_given, crate::proofs::Using::default_given))]
pub fn references_are_given()
    ensures of_values { (reference : Reference) (scope : Scope) (reading : Reading) → IsWhole scope → FitsIn scope reading → HasAll scope reading → (check_reference scope reference).broken ≡ [] → is_valued (check_reference scope reference).typing ≡ true → GivesOnly (referred reading reference) (IsOfTyping scope.definitions (check_reference scope reference).typing) }
    ensures of_defaults { (reference : Reference) (scope : Scope) (reading : Reading) → IsWhole scope → FitsIn scope reading → HasAll scope reading → check_deactivate scope (Some reference) ≡ [] → GivesOnly (referred reading reference) (λ v. is_of scope.definitions type.Default v ≡ true) }
{}

/// Arguments that break no rule give values or a dynamic error, where the types of the parameters are known.
#[tactic(auto, using(crate::proofs::TypedTemplates::arguments_met))]
pub fn arguments_are_met()
    ensures { (scope : Scope) (reading : Reading) → IsWhole scope → FieldsDiffer scope.definitions → ParametersKnown scope.definitions → FitsIn scope reading → HasAll scope reading → (ps : List Parameter) (vs : List tree.Value) → All (HasParameterType scope.definitions) ps → AreArguments scope ps vs → IsMet (arguments reading ps vs) }
{}

/// The parameters of a well-typed module's templates, functions and altsteps have their types.
#[tactic(auto, using(crate::proofs::Parameters::all_parameters_known))]
pub fn all_parameters_are_known()
    ensures { (definitions : List Definition) → AreWellTyped definitions → (at : ℕ) → All (HasParameterType definitions) (parameters_of (kind_at definitions at)) }
{}

/// The specific value of a template goes where the template goes, and lacks nothing; a template of several values has none,
/// which is a dynamic error. So a message that breaks no rule gives a value of its type, or a dynamic error.
#[tactic(auto, using(crate::proofs::Sending::specific_goes, crate::proofs::Sending::message_sent))]
pub fn specific_values_go()
    ensures of_templates { (t : Template) (definitions : List Definition) (target : Target) → template_goes t definitions target ≡ true → GivesOnly (specific_value t) (IsSpecific definitions target) }
    ensures of_messages { (scope : Scope) (reading : Reading) → IsWhole scope → FieldsDiffer scope.definitions → ParametersKnown scope.definitions → FitsIn scope reading → HasAll scope reading → (passing : Passing) (otherwise : Judgement) (message : MessageTemplate) → check_message scope passing otherwise message ≡ [] → (of : DataType) → (type_of_message scope passing otherwise message).typing ≡ typing.Known of → GivesOnly (outcome_and_then specific_value (template_wanted message.template reading (Some of))) (IsSpecific scope.definitions (target_of (Some of))) }
{}

/// A variable that holds no value or one of its type holds one of its type after an assignment to it, or to a field in it, that
/// breaks no rule. What goes to the target is assigned without an error, and is what is read there. What stands on the right
/// goes to the target, or there is a dynamic error.
#[tactic(auto, using(crate::proofs::Assigned::variable_assigned, crate::proofs::Assigned::value_assigned))]
pub fn assignments_keep_types()
    ensures of_values { (scope : Scope) → IsWhole scope → (reference : Reference) (t : DataType) → scope.names reference.name ≡ Some (meaning.Variable (Some t)) → (check_target scope reference).broken ≡ [] → (held : Option Value) → IfSome held (λ v. is_of scope.definitions t v ≡ true) → (new : Value) → value_goes new scope.definitions (target_at scope reference) ≡ true → GivesAlways (assigned scope.definitions (Some t) held reference.fields new) (HoldsAssigned scope.definitions t reference.fields new) }
    ensures of_right_sides { (scope : Scope) → IsWhole scope → (reference : Reference) (t : DataType) → scope.names reference.name ≡ Some (meaning.Variable (Some t)) → (check_target scope reference).broken ≡ [] → (held : Option Value) → IfSome held (λ v. is_of scope.definitions t v ≡ true) → (reading : Reading) → FieldsDiffer scope.definitions → FitsIn scope reading → HasAll scope reading → (v : tree.Value) → value v scope (target_at scope reference) ≡ [] → GivesOnly (outcome_and_then (assigned scope.definitions (Some t) held reference.fields) (value_wanted v reading (target_at scope reference).data_type)) (λ w. is_of scope.definitions t w ≡ true) }
{}
