//! Laws of equality of configurations, of the rules and of the code: they run no code.

ghost use Rattle.std.specs.Prelude.{◌≡◌, ℕ, ◌<◌, List, [], true, length, get_or};
ghost use Rattle.std.specs.Cmp.{IsEquivalence, IsPartialEquivalence};
ghost use Rattle.graph_numbers.specs.Lists.{AreDifferent};
ghost use Rattle.semantics.specs.Configurations.{Configuration};
ghost use Rattle.semantics.specs.Items.{Item};
ghost use Rattle.config_parts.specs.Legend.{config_by};
ghost use Rattle.config_parts.specs.Names.{AreInOrder, legend_of, name_of};
ghost use Rattle.config_parts.specs.Views.{IsConfigWithin};
ghost use Rattle.config_parts.specs.declared.config.Config.{Config};
ghost use Rattle.ttcnx_runs.specs.CodeEquality.{equal_configs};
ghost use Rattle.ttcnx_runs.specs.Codes.{code_of, position_of, size_of, slot_of};
ghost use Rattle.ttcnx_runs.specs.SameConfigurations.{same_configuration};
ghost use Rattle.ttcnx_runs.specs.SameItems.{same_items};

/// The test on what remains to be done is true of a list and itself alone.
#[tactic(auto, using(crate::specs::SameItems::items_one, crate::specs::SameItems::items_itself))]
pub fn same_items_are_one()
    ensures one { (a b : List Item) → same_items a b ≡ true → a ≡ b }
    ensures itself { (a : List Item) → same_items a a ≡ true }
{}

/// The test on configurations of the rules is true of a configuration and itself alone.
#[tactic(auto, using(crate::specs::SameConfigurations::configuration_one, crate::specs::SameConfigurations::configuration_itself, crate::specs::SameConfigurations::same_configuration_equiv, crate::specs::SameConfigurations::same_configuration_laws))]
pub fn same_configurations_are_one()
    ensures one { (c d : Configuration) → same_configuration c d ≡ true → c ≡ d }
    ensures itself { (c : Configuration) → same_configuration c c ≡ true }
    ensures equivalence { IsEquivalence same_configuration }
    ensures laws { IsPartialEquivalence same_configuration }
{}

/// `==` on configurations of the code is true of a configuration and itself alone.
#[tactic(auto, using(crate::specs::CodeEquality::config_one, crate::specs::CodeEquality::config_itself))]
pub fn equal_configs_are_one()
    ensures one { (a b : Config) → equal_configs a b ≡ true → a ≡ b }
    ensures itself { (a : Config) → equal_configs a a ≡ true }
{}

/// Where no list has two positions, each position is found again by its list, and where names are in order, each slot by its
/// name, also beyond the last of the names.
#[tactic(auto, using(crate::specs::CodesBack::position_back, crate::specs::CodesBack::slot_back))]
pub fn positions_and_slots_come_back()
    ensures positions { (lists : List (List Item)) → AreDifferent lists → (p : ℕ) → p < length lists → position_of lists (get_or lists p []) ≡ p }
    ensures slots { (names : List (List ℕ)) → AreInOrder names → (slot : ℕ) → slot_of names (name_of names slot) ≡ slot }
{}

/// The code of what a configuration stands for is that configuration, where no list has two positions and names are in order.
#[tactic(auto, using(crate::specs::CodesBack::code_of_config))]
pub fn codes_come_back()
    ensures { (lists : List (List Item)) (names : List (List ℕ)) → AreDifferent lists → AreInOrder names → (c : Config) → IsConfigWithin (size_of lists names) c → code_of lists names (config_by (legend_of lists names) c) ≡ c }
{}

/// `==` on configurations of the code is the test on what they stand for.
#[tactic(auto, using(crate::specs::CodesBack::eq_is_same))]
pub fn equal_configs_stand_for_the_same()
    ensures { (lists : List (List Item)) (names : List (List ℕ)) → AreDifferent lists → AreInOrder names → (a b : Config) → IsConfigWithin (size_of lists names) a → IsConfigWithin (size_of lists names) b → equal_configs a b ≡ same_configuration (config_by (legend_of lists names) a) (config_by (legend_of lists names) b) }
{}
