//! Laws of canonical forms, which run no code.
ghost use Rattle.std.specs.Prelude.{◌≡◌, ◌↔◌, ℕ, List, true};
ghost use Rattle.ttcnx_runs.specs.CodeEquality.{equal_configs};
ghost use Rattle.ttcnx_runs.specs.Codes.{size_of};
ghost use Rattle.graph_numbers.specs.Lists.{AreDifferent};
ghost use Rattle.semantics.specs.Configurations.{Configuration};
ghost use Rattle.semantics.specs.Items.{Item};
ghost use Rattle.semantics.specs.LiveParts.{live_part};
ghost use Rattle.config_parts.specs.Legend.{config_by};
ghost use Rattle.config_parts.specs.Names.{AreInOrder, legend_of};
ghost use Rattle.config_parts.specs.Views.{IsConfigWithin};
ghost use Rattle.config_parts.specs.declared.config.Config.{Config};

/// `==` on canonical forms is true exactly of those of configurations with equal live parts.
pub fn canonical_forms_are_equal_for_equal_live_parts()
    ensures { (lists : List (List Item)) (names : List (List ℕ)) → AreDifferent lists → AreInOrder names → (a b : Config) → IsConfigWithin (size_of lists names) a → IsConfigWithin (size_of lists names) b
        → (c d : Configuration) → config_by (legend_of lists names) a ≡ live_part c → config_by (legend_of lists names) b ≡ live_part d → (equal_configs a b ≡ true) ↔ (live_part c ≡ live_part d) }
{}
