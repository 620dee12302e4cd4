//! Laws of runs: what holds of every configuration that a run leads to. They run no code.
#![tactic(auto)]

ghost use Rattle.std.specs.Prelude.{◌≡◌, List, None, Some, Ok, AllPairs, Contains, true, is_some, ◌↔◌};
ghost use Rattle.std.specs.declared.cmp.Ordering.TheVariants.{Less};
ghost use Rattle.laws_order.specs.Families.{StandsInFamily};
ghost use Rattle.laws_order.specs.Order.{StandsInOrder};
ghost use Rattle.semantics.specs.Canonical.{canonical_graph};
ghost use Rattle.semantics.specs.Configurations.{Component, Configuration, Data, Goes, Going, component_at, path_of};
ghost use Rattle.semantics.specs.Labels.{label_cmp, labels};
ghost use Rattle.semantics.specs.LiveParts.{live_part};
ghost use Rattle.semantics.specs.Runs.{graph_of, replay, start};
ghost use Rattle.semantics.specs.Snapshots.{Test, snapshot_of};
ghost use Rattle.semantics.specs.Statements.{Creates, Requests, act};
ghost use Rattle.semantics.specs.Steps.{Label, insert, next, settle, step, with_new};
ghost use Rattle.summary.specs.Run.{Run, end_of};

/// Runs start in order.
#[tactic(auto, using(crate::proofs::Runs::start_ordered))]
pub fn runs_start_in_order()
    ensures { (test : Test) → StandsInOrder (start test) }
{}

/// Each step keeps the order.
#[tactic(auto, using(crate::proofs::Runs::next_ordered))]
pub fn steps_keep_the_order()
    ensures { (test : Test) (c d : Configuration) (label : Label) → StandsInOrder c → next test c label ≡ Some d → StandsInOrder d }
{}

/// Every run leads to a configuration in order.
#[tactic(auto, using(crate::proofs::Runs::replay_ordered))]
pub fn runs_keep_the_order()
    ensures replayed { (test : Test) (run : List Label) (c : Configuration) → replay test run ≡ Ok c → StandsInOrder c }
    ensures ends { (test : Test) (run : Run Label) → StandsInOrder (end_of (graph_of test) run) }
{}

/// The live part of a configuration in order is in order, and runs over live parts lead to configurations in order.
#[tactic(auto, using(crate::proofs::Runs::live_ordered))]
pub fn live_parts_keep_the_order()
    ensures live { (c : Configuration) → StandsInOrder c → StandsInOrder (live_part c) }
    ensures ends { (test : Test) (run : Run Label) → StandsInOrder (end_of (canonical_graph test) run) }
{}

/// The labels of a configuration that a run leads to ascend.
#[tactic(auto, using(crate::proofs::Runs::labels_ascend_in_runs))]
pub fn labels_of_runs_ascend()
    ensures { (test : Test) (run : List Label) (c : Going) → replay test run ≡ Ok (Goes c) → AllPairs (λ k l. label_cmp k l ≡ Less) (labels test (Goes c)) }
{}

/// The labels of a configuration that a run leads to are exactly those that have a step.
#[tactic(auto, using(crate::proofs::Runs::labels_step_in_runs))]
pub fn labels_of_runs_have_steps()
    ensures { (test : Test) (run : List Label) (c : Going) → replay test run ≡ Ok (Goes c) → (label : Label) → Contains (labels test (Goes c)) label ↔ (is_some (step test (Goes c) label) ≡ true) }
{}

/// Each component of a configuration that a run leads to is the MTC, or one of those that another component that is there
/// has created so far.
#[tactic(auto, using(crate::proofs::Families::replay_family))]
pub fn runs_keep_families()
    ensures { (test : Test) (run : List Label) (c : Configuration) → replay test run ≡ Ok c → StandsInFamily c }
{}

/// No component of a configuration that a run leads to has the path of a new one, which always comes in.
pub fn new_components_have_new_paths()
    ensures path { (test : Test) (run : List Label) (c : Going) (component new : Component) (own : Data) → replay test run ≡ Ok (Goes c) → component_at c (path_of component) ≡ Some component → act test (snapshot_of c component) component.own ≡ Requests (Creates new) own → component_at c (path_of new) ≡ None }
    ensures inserted { (test : Test) (run : List Label) (c : Going) (component new : Component) (own : Data) → replay test run ≡ Ok (Goes c) → component_at c (path_of component) ≡ Some component → act test (snapshot_of c component) component.own ≡ Requests (Creates new) own → (with_new new (settle c (path_of component) own)).components ≡ insert new (settle c (path_of component) own).components }
{}
