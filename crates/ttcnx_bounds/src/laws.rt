//! The law of a bound that forbids nothing, which runs no code.
ghost use Rattle.std.specs.Prelude.{◌↔◌, ℕ};
ghost use Rattle.laws_bounds.specs.BoundedParts.{Keeps};
ghost use Rattle.semantics.specs.Runs.{graph_of};
ghost use Rattle.semantics.specs.Snapshots.{Test};
ghost use Rattle.semantics.specs.Steps.{Label};
ghost use Rattle.summary.specs.Run.{IsRun, Run};
ghost use Rattle.ttcnx_bounds.specs.BoundedFound.{AreFoundBounded, no_bound};
ghost use Rattle.ttcnx_runs.specs.Found.{AreFound};
ghost use Rattle.ttcnx_runs.specs.declared.exploration.Exploration.{Exploration};

/// All runs keep a bound that forbids nothing, and what is found within it is what is found of all runs.
pub fn a_bound_that_forbids_nothing_leaves_all_runs()
    ensures runs { (test : Test) (run : Run Label) → Keeps test no_bound run ↔ IsRun (graph_of test) run }
    ensures found { (test : Test) (n : ℕ) (found : Exploration) → AreFoundBounded test no_bound n found ↔ AreFound test n found }
{}
