//! The rules of steps: configurations, what each statement does in its step, and runs (ES 201 873-1 and 873-4). They run no code.
#![tactic(auto)]

ghost use Rattle.std.specs.Prelude.{◌≡◌, ℕ, List, [], None, Ok, AllPairs, Contains, true, is_some, ◌↔◌};
ghost use Rattle.std.specs.declared.cmp.Ordering.{Ordering};
ghost use Rattle.std.specs.declared.cmp.Ordering.TheVariants.{Less};
ghost use Rattle.ttcn_syntax.specs.declared.tree.statement.Verdict.{Verdict};
ghost use Rattle.semantics.specs.Canonical.{SeesLiveParts, canonical_graph};
ghost use Rattle.semantics.specs.Configurations.{Component, Configuration, Connection, Ended, Goes, Going, path_of};
ghost use Rattle.semantics.specs.Examples.{AwaitsDone, ConnectsPorts, CreatesComponent, Expires, Repeats, RepeatsInner, RepeatsOutside, SendsBehind, SetsVerdict, StartsTheTest, StaysQuiet, TakesDefault, TakesDone, TakesElse};
ghost use Rattle.semantics.specs.Labels.{label_cmp, labels};
ghost use Rattle.semantics.specs.LiveParts.{live_going, live_part};
ghost use Rattle.semantics.specs.Order.{IsOrdered};
ghost use Rattle.semantics.specs.Places.{blocked, branch_of};
ghost use Rattle.semantics.specs.Runs.{graph_of, mark_of, replay, start};
ghost use Rattle.semantics.specs.Snapshots.{Test};
ghost use Rattle.semantics.specs.Steps.{Label, next, step, touch, with_connection, with_new};
ghost use Rattle.std.specs.Option.{option_map};
ghost use Rattle.summary.specs.Exploration.{IsBest};
ghost use Rattle.summary.specs.Sums.{Join, Observation, sum_of};
ghost use Rattle.summary.specs.Run.{Run, all_runs, end_of};
ghost use Rattle.value_types.specs.Outcomes.{outcome_map};
ghost use Rattle.value_types.specs.declared.path.Path.{Path};

/// A test case that ended has no step and no label, and its live part is its verdict.
pub fn ended_test_cases_stand_still()
    ensures step { (test : Test) (v : Verdict) (label : Label) → step test (Ended v) label ≡ None }
    ensures labels { (test : Test) (v : Verdict) → labels test (Ended v) ≡ [] }
    ensures branch { (test : Test) (v : Verdict) (label : Label) → branch_of test (Ended v) label ≡ None }
    ensures live { (v : Verdict) → live_part (Ended v) ≡ Ended v }
{}

/// The empty run ends where runs start.
pub fn runs_start()
    ensures empty { (test : Test) → replay test [] ≡ Ok (start test) }
    ensures graph { (test : Test) → (graph_of test).first ≡ start test }
{}

/// The enabled labels ascend, and none comes twice.
#[tactic(auto, using(crate::proofs::LabelOrder::labels_ascend))]
pub fn labels_ascend()
    ensures { (test : Test) (c : Going) → IsOrdered c → AllPairs (λ k l. label_cmp k l ≡ Less) (labels test (Goes c)) }
{}

/// The enabled labels are exactly those that have a step.
#[tactic(auto, using(crate::proofs::LabelsEnabled::labels_enabled))]
pub fn labels_have_steps()
    ensures { (test : Test) (c : Going) → IsOrdered c → (label : Label) → Contains (labels test (Goes c)) label ↔ (is_some (step test (Goes c) label) ≡ true) }
{}

/// Worked examples: what single statements and expiries do.
#[tactic(auto, using(crate::proofs::Examples::sets_verdict, crate::proofs::Examples::takes_else, crate::proofs::Examples::takes_default, crate::proofs::Examples::repeats, crate::proofs::Examples::repeats_inner, crate::proofs::Examples::repeats_outside, crate::proofs::Examples::creates, crate::proofs::Examples::starts, crate::proofs::Examples::sends_behind, crate::proofs::Examples::connects_ports, crate::proofs::Examples::expires, crate::proofs::Examples::stays_quiet))]
pub fn examples_hold()
    ensures setverdict { SetsVerdict }
    ensures else_branch { TakesElse }
    ensures default { TakesDefault }
    ensures repeat { Repeats }
    ensures repeat_inner { RepeatsInner }
    ensures repeat_outside { RepeatsOutside }
    ensures done { TakesDone }
    ensures done_awaited { AwaitsDone }
    ensures create { CreatesComponent }
    ensures start { StartsTheTest }
    ensures send { SendsBehind }
    ensures connect { ConnectsPorts }
    ensures expiry { Expires }
    ensures no_expiry { StaysQuiet }
{}

/// A change of one component has the same live part from a configuration and from its live part.
#[tactic(auto, using(crate::proofs::LiveSteps::keeps_touch, crate::proofs::LiveSteps::keeps_new, crate::proofs::LiveSteps::keeps_connection))]
pub fn changes_keep_live_parts()
    ensures change { (change : Component → Component) → ((x : Component) → path_of (change x) ≡ path_of x) → (p : Path) (c : Going) → live_going (touch (live_going c) p change) ≡ live_going (touch c p change) }
    ensures new { (new : Component) (c : Going) → live_going (with_new new (live_going c)) ≡ live_going (with_new new c) }
    ensures connection { (k : Connection) (c : Going) → live_going (with_connection k (live_going c)) ≡ live_going (with_connection k c) }
{}

/// From a configuration and from its live part the same labels are enabled, each leads to configurations of one live part,
/// and the same is seen: the mark, the branch that a step takes, and the components that are blocked. So configurations of
/// one live part are the same for all that follows.
#[tactic(auto, using(crate::proofs::LiveTheorem::steps_live, crate::proofs::LiveTheorem::labels_live, crate::proofs::LiveTheorem::next_live, crate::proofs::LiveTheorem::mark_live, crate::proofs::LiveTheorem::branch_live, crate::proofs::LiveTheorem::blocked_live, crate::proofs::LiveTheorem::live_twice))]
pub fn live_parts_step_alike()
    ensures labels { (test : Test) (c : Configuration) → labels test (live_part c) ≡ labels test c }
    ensures steps { (test : Test) (c : Configuration) (label : Label) → option_map (outcome_map live_part) (step test (live_part c) label) ≡ option_map (outcome_map live_part) (step test c label) }
    ensures next { (test : Test) (c : Configuration) (label : Label) → option_map live_part (next test (live_part c) label) ≡ option_map live_part (next test c label) }
    ensures mark { (c : Configuration) → mark_of (live_part c) ≡ mark_of c }
    ensures branch { (test : Test) (c : Configuration) (label : Label) → branch_of test (live_part c) label ≡ branch_of test c label }
    ensures blocked { (test : Test) (c : Configuration) → blocked test (live_part c) ≡ blocked test c }
    ensures once { (c : Configuration) → live_part (live_part c) ≡ live_part c }
{}

/// The runs over live parts are the runs over configurations, with the live parts of their ends: so a search over live parts
/// finds the same runs, and the same least ones.
#[tactic(auto, using(crate::proofs::CanonicalRuns::ends_live, crate::proofs::CanonicalRuns::runs_alike, crate::proofs::CanonicalRuns::all_runs_alike, crate::proofs::CanonicalRuns::best_alike))]
pub fn canonical_runs_stand_for_all()
    ensures ends { (test : Test) (run : Run Label) → end_of (canonical_graph test) run ≡ live_part (end_of (graph_of test) run) }
    ensures runs { (test : Test) (n : ℕ) → all_runs (canonical_graph test) n ≡ all_runs (graph_of test) n }
    ensures best { (test : Test) (cmp : Label → Label → Ordering) (n mark : ℕ) (run : Run Label) → IsBest (canonical_graph test) cmp n mark run ↔ IsBest (graph_of test) cmp n mark run }
{}

/// What is summed up over the runs over live parts is what is summed up over all runs, where it is seen of live parts.
#[tactic(auto, using(crate::proofs::CanonicalRuns::sums_alike))]
pub fn canonical_sums_stand_for_all<S>()
    ensures { (test : Test) (j : Join S) (r : Observation Configuration Label S) → SeesLiveParts r → (n : ℕ) → sum_of (canonical_graph test) j r n ≡ sum_of (graph_of test) j r n }
{}
