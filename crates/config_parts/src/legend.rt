//! What configurations stand for: laws, which run no code.
ghost use Rattle.std.specs.Prelude.{ℕ, List};
ghost use Rattle.semantics.specs.Items.{Item};
ghost use Rattle.config_parts.specs.Legend.{IsLegend};
ghost use Rattle.config_parts.specs.Names.{AreInOrder, legend_of};
ghost use Rattle.config_parts.specs.Views.{AreNames};

/// Names in the order of their bytes, none twice, make a legend with any lists, and each slot with a name has that name.
#[tactic(auto, using(crate::proofs::Naming::make_legend))]
pub fn names_make_legends()
    ensures legend { (lists : List (List Item)) (names : List (List ℕ)) → AreInOrder names → IsLegend (legend_of lists names) }
    ensures names { (lists : List (List Item)) (names : List (List ℕ)) → AreNames (legend_of lists names) names }
{}
