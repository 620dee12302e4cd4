//! Laws of values and templates.
ghost use Rattle.std.specs.Bool.{Decides};
ghost use Rattle.std.specs.Prelude.{◌≡◌};
ghost use Rattle.value_types.specs.Matching.{equal_pattern, equal_template};
ghost use Rattle.value_types.specs.Values.{equal};
ghost use Rattle.value_types.specs.declared.template.Pattern.{Pattern};
ghost use Rattle.value_types.specs.declared.template.Template.{Template};
ghost use Rattle.value_types.specs.declared.value.Value.{Value};

/// `==` is true of a value and itself alone.
#[tactic(auto, using(crate::proofs::Equality::equal_values))]
pub fn equal_values_are_one()
    ensures { (a b : Value) → Decides (equal a b) (a ≡ b) }
{}

/// `==` is true of a template and itself alone, and of a pattern and itself alone.
#[tactic(auto, using(crate::proofs::TemplateEquality::are_one))]
pub fn equal_templates_are_one()
    ensures templates { (a b : Template) → Decides (equal_template a b) (a ≡ b) }
    ensures patterns { (a b : Pattern) → Decides (equal_pattern a b) (a ≡ b) }
{}
