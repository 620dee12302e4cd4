//! Laws of runs: what remains in a component's frames follows from what remained before, and in runs of a module that breaks
//! no rule each `repeat` finds its `alt`. They run no code.
#![tactic(auto)]

ghost use Rattle.std.specs.Prelude.{◌≡◌, List, Some, Ok, is_some, true};
ghost use Rattle.laws_repeat.specs.Following.{IsFollowed, lists_of};
ghost use Rattle.laws_repeat.specs.Marks.{StandsAtRepeat, StandsMarked};
ghost use Rattle.semantics.specs.Configurations.{Component, Configuration, Data, Goes, Going, component_at};
ghost use Rattle.semantics.specs.Runs.{graph_of, replay, start};
ghost use Rattle.semantics.specs.Snapshots.{Snapshot, Test};
ghost use Rattle.semantics.specs.Statements.{act};
ghost use Rattle.semantics.specs.Steps.{Label, next};
ghost use Rattle.semantics.specs.Taking.{repeated};
ghost use Rattle.summary.specs.Run.{Run, end_of};
ghost use Rattle.check_rules.specs.Rules.{AreWellTyped};
ghost use Rattle.value_types.specs.declared.path.Path.{Path};

/// What remains in a component's frames behind its step follows from what remained before, in any module and by any snapshot.
#[tactic(auto, using(crate::proofs::Asked::asked_followed))]
pub fn what_remains_follows()
    ensures { (test : Test) (snapshot : Snapshot) (own : Data) → IsFollowed test.definitions (lists_of own.calls) (act test snapshot own) }
{}

/// In runs of a module that breaks no rule each `repeat` has the mark of its `alt` behind it or below: so it is at the start,
/// behind each step, and where runs lead.
#[tactic(auto, using(crate::proofs::Repeats::start_marked, crate::proofs::Repeats::next_marked, crate::proofs::Repeats::replay_marked))]
pub fn runs_keep_marks()
    ensures start { (test : Test) → AreWellTyped test.definitions → StandsMarked test (start test) }
    ensures next { (test : Test) (c d : Configuration) (label : Label) → AreWellTyped test.definitions → StandsMarked test c → next test c label ≡ Some d → StandsMarked test d }
    ensures replayed { (test : Test) (run : List Label) (c : Configuration) → AreWellTyped test.definitions → replay test run ≡ Ok c → StandsMarked test c }
    ensures ends { (test : Test) (run : Run Label) → AreWellTyped test.definitions → StandsMarked test (end_of (graph_of test) run) }
{}

/// In runs of a module that breaks no rule a component that stands at a `repeat` finds its `alt`.
pub fn repeats_find_their_alts()
    ensures { (test : Test) (run : List Label) (c : Going) (p : Path) (x : Component) → AreWellTyped test.definitions → replay test run ≡ Ok (Goes c) → component_at c p ≡ Some x → StandsAtRepeat x.own.calls → is_some (repeated x.own.calls) ≡ true }
{}
