//! Laws of programs, for the layers above: they run no code.
ghost use Rattle.std.specs.Prelude.{◌≡◌, ◌≢◌, ℕ, Bool, true, false, List, [], ◌∷◌, ◌++◌, map, Option, Some, is_some};
ghost use Rattle.ttcn_syntax.specs.declared.tree.definition.DefinitionKind.{DefinitionKind};
ghost use Rattle.ttcn_syntax.specs.declared.operator.Sign.{Sign};
ghost use Rattle.ttcn_syntax.specs.declared.tree.expression.ComponentRef.{ComponentRef};
ghost use Rattle.ttcn_syntax.specs.declared.tree.expression.Expr.{Expr};
ghost use Rattle.ttcn_syntax.specs.declared.tree.expression.Expr.TheVariants as expression_form;
ghost use Rattle.ttcn_syntax.specs.declared.tree.expression.Link.{Link, out-Link};
ghost use Rattle.ttcn_syntax.specs.declared.tree.definition.Parameter.{Parameter};
ghost use Rattle.ttcn_syntax.specs.declared.tree.expression.Reference.{Reference};
ghost use Rattle.ttcn_syntax.specs.declared.tree.statement.Statement.{Statement};
ghost use Rattle.ttcn_syntax.specs.declared.tree.template.FieldTemplate.{FieldTemplate};
ghost use Rattle.ttcn_syntax.specs.declared.tree.template.Template.{Template};
ghost use Rattle.ttcn_syntax.specs.declared.tree.template.TemplateBody.TheVariants as body_form;
ghost use Rattle.ttcn_syntax.specs.declared.tree.value.Call.{Call};
ghost use Rattle.ttcn_syntax.specs.declared.tree.value.FieldValue.{FieldValue};
ghost use Rattle.ttcn_syntax.specs.declared.tree.value.Value.{Value};
ghost use Rattle.ttcn_syntax.specs.declared.tree.value.Value.TheVariants as form;
ghost use Rattle.check_rules.specs.Calls.{check_call, parameters_of};
ghost use Rattle.check_scope.specs.Scopes.{component_scope, module_scope, scope_on};
ghost use Rattle.check_rules.specs.Definitions.{check_definition, check_parameters, with_parameters};
ghost use Rattle.check_rules.specs.Expressions.{check_reference, expression};
ghost use Rattle.laws_checker.specs.Laws.{AreArguments, AreElements, AreNamedElements, IsTyped, IsWhole, Resolves};
ghost use Rattle.check_scope.specs.Names.{Scope, fields_at, kind_at};
ghost use Rattle.check_rules.specs.Statements.{Place, statement, statements, with_scope};
ghost use Rattle.check_rules.specs.Templates.{check_named_template, body, field_template, has_all, template, type_of_template};
ghost use Rattle.check_scope.specs.Typings.{goes_to, result_of};
ghost use Rattle.check_rules.specs.Values.{check_expression, field_value, value};
ghost use Rattle.check_scope.specs.declared.names.Meaning.TheVariants as meaning;
ghost use Rattle.check_scope.specs.declared.types.DataType.{DataType};
ghost use Rattle.check_scope.specs.declared.types.DataType.TheVariants as type;
ghost use Rattle.check_scope.specs.declared.types.Typing.TheVariants as typing;
ghost use Rattle.check_scope.specs.declared.types.Target.{Target};

use check_rules::Program;

/// Each definition breaks no rule inside.
#[tactic(auto, using(crate::proofs::Whole::definition_is_fine))]
pub fn definitions_are_fine(program: &Program)
    ensures { (at : ℕ) (kind : DefinitionKind) → kind_at program.now.definitions at ≡ Some kind → check_definition program.now.definitions at kind ≡ [] }
{
    let _ = program.module();
}

/// The scopes outside of blocks are whole.
#[tactic(auto, using(crate::proofs::Whole::module_whole, crate::proofs::Whole::behaviour_whole))]
pub fn scopes_are_whole(program: &Program)
    ensures of_the_module { IsWhole (module_scope program.now.definitions) }
    ensures of_component_types { (at : ℕ) → IsWhole (component_scope program.now.definitions at) }
    ensures of_behaviours { (runs_on : Option ℕ) → IsWhole (scope_on program.now.definitions runs_on) }
{
    let _ = program.module();
}

/// An expression that breaks no rule has its type.
#[tactic(auto, using(crate::proofs::Typed::expression_typed))]
pub fn expressions_have_types()
    ensures { (e : Expr) (scope : Scope) (free : Bool) → IsWhole scope → IsTyped (expression e scope free) }
{}

/// The type of an operation is known, whatever is broken in it: that of a chain is what its last operator gives.
#[tactic(auto, using(crate::proofs::Typed::negation_typed, crate::proofs::Typed::signed_typed, crate::proofs::Typed::presence_typed, crate::proofs::Typed::running_typed, crate::proofs::Typed::chain_typed))]
pub fn operations_have_types()
    ensures negation { (e : Expr) (scope : Scope) (free : Bool) → (expression (expression_form.Not e) scope free).typing ≡ typing.Known type.Boolean }
    ensures sign { (sign : Sign) (e : Expr) (scope : Scope) (free : Bool) → (expression (expression_form.Signed sign e) scope free).typing ≡ typing.Known type.Integer }
    ensures presence { (reference : Reference) (scope : Scope) (free : Bool) → (expression (expression_form.Ispresent reference) scope free).typing ≡ typing.Known type.Boolean }
    ensures running { (component : ComponentRef) (scope : Scope) (free : Bool) → (expression (expression_form.Running component) scope free).typing ≡ typing.Known type.Boolean }
    ensures chain { (first : Expr) (links : List Link) (last : Link) (scope : Scope) (free : Bool) → (expression (expression_form.Chain first (links ++ last ∷ [])) scope free).typing ≡ typing.Known (result_of (out-Link last).operator) }
{}

/// A call that breaks no rule resolves, with as many arguments as parameters, each of its parameter's type.
#[tactic(auto, using(crate::proofs::Fitting::call_resolves))]
pub fn calls_resolve()
    ensures { (scope : Scope) (callable : Option DefinitionKind → Bool) (call : Call) → check_call scope callable call ≡ [] → Resolves scope callable call }
{}

/// A record literal that breaks no rule has elements for fields of the record.
#[tactic(auto, using(crate::proofs::Fitting::literal_fits, crate::proofs::Fitting::named_literal_fits))]
pub fn literals_fit()
    ensures in_order { (scope : Scope) (at : ℕ) (target : Target) (elements : List Value) → target.data_type ≡ Some (type.Record at) → value (form.Listed elements) scope target ≡ [] → AreElements scope (fields_at scope.definitions at) (map value elements) }
    ensures by_name { (scope : Scope) (at : ℕ) (target : Target) (elements : List FieldValue) → target.data_type ≡ Some (type.Record at) → value (form.Assigned elements) scope target ≡ [] → AreNamedElements scope (fields_at scope.definitions at) [] (map field_value elements) }
{}

/// A record template that breaks no rule has an element for each field of the record.
#[tactic(auto, using(crate::proofs::Fitting::template_literal_fits, crate::proofs::Fitting::template_has_fields, crate::proofs::Fitting::named_template_fits))]
pub fn record_templates_fit()
    ensures in_order { (scope : Scope) (at : ℕ) (target : Target) (parts : List Template) → target.data_type ≡ Some (type.Record at) → body (body_form.Listed parts) scope target ≡ [] → AreElements scope (fields_at scope.definitions at) (map template parts) }
    ensures all_fields { (scope : Scope) (at : ℕ) (target : Target) (parts : List FieldTemplate) → target.data_type ≡ Some (type.Record at) → body (body_form.Assigned parts) scope target ≡ [] → has_all (Some (fields_at scope.definitions at)) (map (λ part. part.0) (map field_template parts)) ≡ true }
    ensures by_name { (scope : Scope) (at : ℕ) (target : Target) (parts : List FieldTemplate) → target.data_type ≡ Some (type.Record at) → body (body_form.Assigned parts) scope target ≡ [] → AreNamedElements scope (fields_at scope.definitions at) [] (map field_template parts) }
{}

/// A reference that breaks no rule begins with a name that is visible.
#[tactic(auto, using(crate::proofs::Descent::name_resolves))]
pub fn names_resolve()
    ensures { (scope : Scope) (reference : Reference) → (check_reference scope reference).broken ≡ [] → is_some (scope.names reference.name) ≡ true }
{}

/// An expression that breaks no rule where a value of a type is wanted has a known typing, which goes there.
#[tactic(auto, using(crate::proofs::Descent::expression_fits, crate::proofs::Descent::wanted_expression_typed))]
pub fn expressions_fit()
    ensures goes { (scope : Scope) (t : DataType) (e : Expr) → check_expression scope (Some t) e ≡ [] → goes_to t (expression e scope false).typing ≡ true }
    ensures known { (scope : Scope) → IsWhole scope → (t : DataType) (e : Expr) → check_expression scope (Some t) e ≡ [] → (expression e scope false).typing ≢ typing.Unknown }
{}

/// A named template that breaks no rule is of the type that is wanted, and has as many arguments as parameters, each of
/// its parameter's type.
#[tactic(auto, using(crate::proofs::Descent::template_fits, crate::proofs::Descent::template_arguments_fit))]
pub fn named_templates_fit()
    ensures of_type { (scope : Scope) → IsWhole scope → (name : List ℕ) (at : ℕ) → scope.names name ≡ Some (meaning.Template at) → (target : Target) (t : DataType) (given : List Value) → target.data_type ≡ Some t → check_named_template scope target given (Some at) ≡ [] → type_of_template scope at ≡ Some t }
    ensures arguments { (scope : Scope) (at : ℕ) (target : Target) (given : List Value) → check_named_template scope target given (Some at) ≡ [] → AreArguments scope (parameters_of (kind_at scope.definitions at)) given }
{}

/// Parameters that break no rule leave a whole scope whole, and so does a statement. In a block that breaks no rule the
/// first statement breaks none, and those behind it break none in the scope that it leaves.
#[tactic(auto, using(crate::proofs::Whole::parameters_whole, crate::proofs::Descent::statement_whole, crate::proofs::Descent::first_fine, crate::proofs::Descent::others_fine))]
pub fn blocks_are_fine()
    ensures parameters { (scope : Scope) (parameters : List Parameter) → check_parameters scope parameters ≡ [] → IsWhole scope → IsWhole (with_parameters scope parameters) }
    ensures statements { (s : Statement) (place : Place) → IsWhole place.scope → (statement s).broken place ≡ [] → IsWhole ((statement s).scope_behind place.scope) }
    ensures first { (s : Statement) (others : List Statement) (place : Place) → statements (s ∷ others) place ≡ [] → (statement s).broken place ≡ [] }
    ensures others { (s : Statement) (others : List Statement) (place : Place) → statements (s ∷ others) place ≡ [] → statements others (with_scope place ((statement s).scope_behind place.scope)) ≡ [] }
{}
