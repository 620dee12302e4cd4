//! Laws of fine runs, in which a component's snapshot and its choice by that snapshot are two steps: they end with the verdicts
//! of runs (ES 201 873-1, 20.2, and 873-4). They run no code.
#![tactic(auto)]

ghost use Rattle.std.specs.Prelude.{◌≡◌, ◌≤◌, List, [], Ok, Some, length, true, ◌↔◌};
ghost use Rattle.laws_fine.specs.Doubling.{doubled};
ghost use Rattle.laws_fine.specs.Fates.{coarse};
ghost use Rattle.laws_fine.specs.Fine.{Fine, FineLabel, fine_replay, is_found, stands_at_alt, stored_at};
ghost use Rattle.laws_fine.specs.Verdicts.{EndsFinelyWith, EndsWith, HasRun};
ghost use Rattle.semantics.specs.Configurations.{Configuration, Ended, Goes, Going, component_at};
ghost use Rattle.semantics.specs.Runs.{replay};
ghost use Rattle.semantics.specs.Snapshots.{Snapshot, Test};
ghost use Rattle.semantics.specs.Steps.{Label};
ghost use Rattle.ttcn_syntax.specs.declared.tree.statement.Verdict.{Verdict};
ghost use Rattle.check_rules.specs.Rules.{AreWellTyped};
ghost use Rattle.value_types.specs.declared.path.Path.{Path};

/// Taking snapshots and choices apart loses and adds no verdict: in a module that breaks no rule of the checker, some fine run
/// ends with a verdict exactly where some run does.
pub fn fine_runs_reach_the_same_verdicts()
    ensures { (test : Test) (v : Verdict) → AreWellTyped test.definitions → EndsFinelyWith test v ↔ EndsWith test v }
{}

/// A fine run that ends with a verdict stands for a run that ends with it: each choice that takes a branch or meets a fault
/// moves to the place of its snapshot, other snapshots and choices go, and so does all behind a fault. It has at most as many
/// labels, which holds of all fine labels.
#[tactic(auto, using(crate::proofs::Laws::coarse_runs, crate::proofs::Replays::coarse_short))]
pub fn choices_move_to_their_snapshots()
    ensures run { (test : Test) (labels : List FineLabel) (f : Fine) (v : Verdict) → AreWellTyped test.definitions → fine_replay test labels ≡ Ok f → f.now ≡ Ended v → replay test (coarse test labels) ≡ Ok (Ended v) }
    ensures short { (test : Test) (labels : List FineLabel) → length (coarse test labels) ≤ length labels }
{}

/// The doubling of a run is a fine run with the same end, leaves no snapshot, and stands for this run again.
#[tactic(auto, using(crate::proofs::Replays::doubled_runs, crate::proofs::Returning::doubled_returns))]
pub fn doublings_are_fine_runs()
    ensures fine { (test : Test) (run : List Label) (d : Configuration) → replay test run ≡ Ok d → fine_replay test (doubled test run) ≡ Ok (record { now = d; stored = [] }) }
    ensures back { (test : Test) (run : List Label) (d : Configuration) → replay test run ≡ Ok d → coarse test (doubled test run) ≡ run }
{}

/// In a module that breaks no rule of the checker, only components that run and stand at an `alt` have stored snapshots. Where
/// a test case has ended, in whatever module, there are none.
#[tactic(auto, using(crate::proofs::Laws::stored_stand, crate::proofs::Laws::ended_none))]
pub fn snapshots_are_stored_at_alts()
    ensures alts { (test : Test) (labels : List FineLabel) (f : Fine) (c : Going) (p : Path) (s : Snapshot) → AreWellTyped test.definitions → fine_replay test labels ≡ Ok f → f.now ≡ Goes c → stored_at f.stored p ≡ Some s → is_found (stands_at_alt test) (component_at c p) ≡ true }
    ensures ended { (test : Test) (labels : List FineLabel) (f : Fine) (v : Verdict) → fine_replay test labels ≡ Ok f → f.now ≡ Ended v → f.stored ≡ [] }
{}

/// Labels that are enabled one after the other lead to a verdict exactly where a run of the graph ends with it.
pub fn labels_lead_where_runs_end()
    ensures { (test : Test) (v : Verdict) → EndsWith test v ↔ HasRun test v }
{}
