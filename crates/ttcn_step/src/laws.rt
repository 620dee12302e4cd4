//! Laws of labels and of canonical forms, which run no code.
ghost use Rattle.std.specs.Prelude.{◌≡◌, ◌↔◌, AllPairs, Contains, is_some, true};
ghost use Rattle.std.specs.declared.cmp.Ordering.TheVariants.{Less};
ghost use Rattle.semantics.specs.Labels.{label_cmp, labels};
ghost use Rattle.semantics.specs.Steps.{Label, next};
ghost use Rattle.semantics.specs.LiveParts.{live_part};
ghost use Rattle.config_parts.specs.Views.{IsConfigWithin};
ghost use Rattle.config_parts.specs.declared.config.Config.{Config};
ghost use Rattle.ttcn_step.specs.Machines.{Fits, Machine, extent, said};

/// The labels of a configuration that fits a machine are exactly those that lead somewhere, and they ascend, none twice.
#[tactic(auto, using(crate::proofs::Enabled::labels_lead, crate::proofs::Enabled::labels_ascending))]
pub fn labels_are_enabled()
    ensures enabled { (machine : Machine) (config : Config) → Fits machine config → (label : Label) → Contains (labels machine.test (said machine config)) label ↔ (is_some (next machine.test (said machine config) label) ≡ true) }
    ensures ascending { (machine : Machine) (config : Config) → Fits machine config → AllPairs (λ k l. label_cmp k l ≡ Less) (labels machine.test (said machine config)) }
{}

/// The canonical form of a configuration that fits a machine fits it, too: so a machine goes on from there.
#[tactic(auto, using(crate::proofs::LiveForms::live_forms_fit))]
pub fn canonical_forms_fit()
    ensures { (machine : Machine) (config form : Config) → Fits machine config → IsConfigWithin (extent machine) form → said machine form ≡ live_part (said machine config) → Fits machine form }
{}
