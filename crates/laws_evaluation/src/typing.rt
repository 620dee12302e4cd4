//! What evaluation gives is of the type that the checker gives.
ghost use Rattle.std.specs.Prelude.{◌≡◌, ◌≤◌, ℕ, List, Bool, true, [], Some};
ghost use Rattle.ttcn_syntax.specs.declared.tree.definition.Definition.{Definition};
ghost use Rattle.ttcn_syntax.specs.declared.tree.definition.Parameter.{Parameter};
ghost use Rattle.ttcn_syntax.specs.declared.tree.expression.Expr.{Expr};
ghost use Rattle.ttcn_syntax.specs.declared.tree.template.Template.{Template};
ghost use Rattle.ttcn_syntax.specs.declared.tree.value.Value as tree;
ghost use Rattle.check_scope.specs.Scopes.{module_scope};
ghost use Rattle.check_rules.specs.Expressions.{expression};
ghost use Rattle.laws_checker.specs.Laws.{AreArguments, IsWhole};
ghost use Rattle.check_scope.specs.Names.{Scope};
ghost use Rattle.check_rules.specs.Rules.{AreWellTyped};
ghost use Rattle.check_rules.specs.Templates.{template};
ghost use Rattle.check_rules.specs.Values.{check_expression, value};
ghost use Rattle.check_scope.specs.declared.types.DataType.{DataType};
ghost use Rattle.value_types.specs.Chains.{with_names, within_chains};
ghost use Rattle.value_types.specs.Evaluation.{value_of};
ghost use Rattle.value_types.specs.Frames.{longest_chain};
ghost use Rattle.value_types.specs.Literals.{value_wanted};
ghost use Rattle.value_types.specs.Outcomes.{IfYields, IsMet, Outcome};
ghost use Rattle.value_types.specs.Readings.{Reading};
ghost use Rattle.value_types.specs.Templates.{arguments, template_wanted};
ghost use Rattle.laws_evaluation.specs.Types.{AreGiven, FieldsDiffer, FitsIn, HasAll, IsOfTyping, ParametersKnown, is_valued, template_goes, value_goes};
ghost use Rattle.value_types.specs.declared.value.Value.{Value};

/// The value of an expression is of the expression's type.
#[tactic(auto, using(crate::proofs::TypedValues::expression_typed))]
pub fn expressions_give_their_types()
    ensures { (e : Expr) (scope : Scope) (free : Bool) (reading : Reading) → FitsIn scope reading → IfYields (value_of e reading) (IsOfTyping scope.definitions (expression e scope free).typing) }
{}

/// An expression that breaks no rule, and is of a value, gives one or a dynamic error.
#[tactic(auto, using(crate::proofs::MetExpressions::expressions_met))]
pub fn expressions_are_met()
    ensures { (e : Expr) (scope : Scope) (reading : Reading) → IsWhole scope → FitsIn scope reading → HasAll scope reading → (free : Bool) → (expression e scope free).broken ≡ [] → is_valued (expression e scope free).typing ≡ true → IsMet (value_of e reading) }
{}

/// The value of an expression where a value of a type is wanted goes there.
#[tactic(auto, using(crate::proofs::TypedLiterals::wanted_goes))]
pub fn wanted_expressions_go()
    ensures { (scope : Scope) (reading : Reading) → IsWhole scope → FitsIn scope reading → (t : DataType) (o : Bool) (e : Expr) → check_expression scope (Some t) e ≡ [] → IfYields (value_of e reading) (λ v. value_goes v scope.definitions (record { data_type = Some t; optional = o }) ≡ true) }
{}

/// The value of what stands where a value of a type is wanted goes there.
#[tactic(auto, using(crate::proofs::TypedRecords::values_typed))]
pub fn values_go_where_they_are_wanted()
    ensures { (v : tree.Value) (scope : Scope) (reading : Reading) → IsWhole scope → FieldsDiffer scope.definitions → FitsIn scope reading → (t : DataType) (o : Bool) → value v scope (record { data_type = Some t; optional = o }) ≡ [] → IfYields (value_wanted v reading (Some t)) (λ w. value_goes w scope.definitions (record { data_type = Some t; optional = o }) ≡ true) }
{}

/// What stands where a value of a type is wanted, and breaks no rule, gives one or a dynamic error.
#[tactic(auto, using(crate::proofs::TypedRecords::values_met))]
pub fn values_are_met()
    ensures { (v : tree.Value) (scope : Scope) (reading : Reading) → IsWhole scope → FieldsDiffer scope.definitions → FitsIn scope reading → HasAll scope reading → (t : DataType) (o : Bool) → value v scope (record { data_type = Some t; optional = o }) ≡ [] → IsMet (value_wanted v reading (Some t)) }
{}

/// What stands where a template of a type is wanted gives one that goes there.
#[tactic(auto, using(crate::proofs::TypedTemplates::templates_typed))]
pub fn templates_go_where_they_are_wanted()
    ensures { (t : Template) (scope : Scope) (reading : Reading) → IsWhole scope → FieldsDiffer scope.definitions → FitsIn scope reading → (of : DataType) (o : Bool) → template t scope (record { data_type = Some of; optional = o }) ≡ [] → IfYields (template_wanted t reading (Some of)) (λ p. template_goes p scope.definitions (record { data_type = Some of; optional = o }) ≡ true) }
{}

/// What stands where a template of a type is wanted, and breaks no rule, gives one or a dynamic error.
#[tactic(auto, using(crate::proofs::TypedTemplates::templates_met))]
pub fn templates_are_met()
    ensures { (t : Template) (scope : Scope) (reading : Reading) → IsWhole scope → FieldsDiffer scope.definitions → ParametersKnown scope.definitions → FitsIn scope reading → HasAll scope reading → (of : DataType) (o : Bool) → template t scope (record { data_type = Some of; optional = o }) ≡ [] → IsMet (template_wanted t reading (Some of)) }
{}

/// The fields of a record have names of their own.
#[tactic(auto, using(crate::proofs::TypedChains::fields_differ))]
pub fn fields_differ()
    ensures { (definitions : List Definition) → AreWellTyped definitions → FieldsDiffer definitions }
{}

/// Arguments that break no rule give values of their parameters' types.
#[tactic(auto, using(crate::proofs::TypedTemplates::arguments_typed))]
pub fn arguments_are_given()
    ensures { (scope : Scope) (reading : Reading) → IsWhole scope → FieldsDiffer scope.definitions → FitsIn scope reading → (ps : List Parameter) (vs : List tree.Value) → AreArguments scope ps vs → IfYields (arguments reading ps vs) (AreGiven scope.definitions ps) }
{}

/// In a well-typed module what constants and templates give fits, however deep they refer to each other, whatever stands for
/// names that the module doesn't define.
pub fn chains_fit_their_module()
    ensures chains { (definitions : List Definition) → AreWellTyped definitions → (n : ℕ) (reading : Reading) → reading.definitions ≡ definitions → FitsIn (module_scope definitions) (within_chains n reading) }
    ensures names { (definitions : List Definition) → AreWellTyped definitions → (n : ℕ) (reading : Reading) → reading.definitions ≡ definitions → (names : List ℕ → Outcome Value) → FitsIn (module_scope definitions) (with_names names (within_chains n reading)) }
{}

/// The parameters of a well-typed module's templates have their types.
#[tactic(auto, using(crate::proofs::ModuleReadings::parameters_known))]
pub fn parameters_are_known()
    ensures { (definitions : List Definition) → AreWellTyped definitions → ParametersKnown definitions }
{}

/// A reading of a well-typed module has all that the module's scope knows, with as many links as the checker lets chains have.
#[tactic(auto, using(crate::proofs::ModuleReadings::module_has_all))]
pub fn modules_have_all()
    ensures { (definitions : List Definition) → AreWellTyped definitions → (n : ℕ) → longest_chain ≤ n → (reading : Reading) → reading.definitions ≡ definitions → (names : List ℕ → Outcome Value) → HasAll (module_scope definitions) (with_names names (within_chains n reading)) }
{}
