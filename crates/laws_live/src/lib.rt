//! Laws of live parts: configurations with one live part go on alike, so the search over live parts is the search over all
//! configurations. They run no code.
#![tactic(auto)]

ghost use Rattle.std.specs.Prelude.{◌≡◌, ℕ, ◌≤◌, List, [], Option, ◌↔◌};
ghost use Rattle.std.specs.Option.{option_map};
ghost use Rattle.laws_live.specs.Parts.{CountsParts, IsCompleteByParts, IsPartReached};
ghost use Rattle.laws_live.specs.PlaceReadings.{blocked_reading, both_readings, branch_reading, mark_reading};
ghost use Rattle.laws_live.specs.Same.{AreSame};
ghost use Rattle.semantics.specs.Canonical.{SeesLiveParts, canonical_graph};
ghost use Rattle.semantics.specs.Configurations.{Configuration, Goes, Going};
ghost use Rattle.semantics.specs.Labels.{labels};
ghost use Rattle.semantics.specs.LiveParts.{live_part};
ghost use Rattle.semantics.specs.Places.{blocked, branch_of, standings};
ghost use Rattle.semantics.specs.Runs.{graph_of, mark_of, start};
ghost use Rattle.semantics.specs.Snapshots.{Test};
ghost use Rattle.semantics.specs.Steps.{Label, next, step};
ghost use Rattle.step_labels.specs.declared.standing.Standing.{Standing};
ghost use Rattle.summary.specs.Exploration.{Counts, HasMark, IsComplete, IsReached};
ghost use Rattle.summary.specs.Sums.{Observation};
ghost use Rattle.summary.specs.Run.{IsRun, Run};
ghost use Rattle.ttcn_syntax.specs.declared.place.Span.{Span};
ghost use Rattle.value_types.specs.Outcomes.{outcome_map};

/// A configuration and its live part are the same.
#[tactic(auto, using(semantics::proofs::LiveTheorem::live_twice))]
pub fn live_parts_are_the_same()
    ensures { (c : Configuration) → AreSame (live_part c) c }
{}

/// From two configurations that are the same, the same labels are enabled, each leads to configurations that are the same,
/// and the same is seen: the mark, the branch that a step takes, the components that are blocked, and where they stand.
#[tactic(auto, using(crate::proofs::SameSteps::same_labels, crate::proofs::SameSteps::same_steps, crate::proofs::SameSteps::same_next, crate::proofs::SameSteps::same_mark, crate::proofs::SameSteps::same_branch, crate::proofs::SameSteps::same_blocked, crate::proofs::SameSteps::same_standing))]
pub fn same_configurations_go_on_alike()
    ensures labels { (test : Test) (c d : Configuration) → AreSame c d → labels test c ≡ labels test d }
    ensures steps { (test : Test) (c d : Configuration) (label : Label) → AreSame c d → option_map (outcome_map live_part) (step test c label) ≡ option_map (outcome_map live_part) (step test d label) }
    ensures next { (test : Test) (c d : Configuration) (label : Label) → AreSame c d → option_map live_part (next test c label) ≡ option_map live_part (next test d label) }
    ensures mark { (c d : Configuration) → AreSame c d → mark_of c ≡ mark_of d }
    ensures branch { (test : Test) (c d : Configuration) (label : Label) → AreSame c d → branch_of test c label ≡ branch_of test d label }
    ensures blocked { (test : Test) (c d : Configuration) → AreSame c d → blocked test c ≡ blocked test d }
    ensures standing { (c d : Going) → AreSame (Goes c) (Goes d) → standings c ≡ standings d }
{}

/// Over live parts the same runs are runs.
pub fn runs_over_live_parts_are_the_runs()
    ensures { (test : Test) (run : Run Label) → IsRun (canonical_graph test) run ↔ IsRun (graph_of test) run }
{}

/// What is counted over live parts is how many different live parts runs reach, and a bound is complete over live parts
/// exactly where it is for all runs.
pub fn live_parts_are_counted()
    ensures reached { (test : Test) (n : ℕ) (part : Configuration) → IsReached (canonical_graph test) n part ↔ IsPartReached test n part }
    ensures counts { (test : Test) (n count : ℕ) → Counts (canonical_graph test) n count ↔ CountsParts test n count }
    ensures complete { (test : Test) (n : ℕ) → IsComplete (canonical_graph test) n ↔ IsCompleteByParts test n }
{}

/// Runs without a step reach one live part, that of the start, and that is complete exactly where no label is enabled there.
#[tactic(auto, using(crate::proofs::NoSteps::counts_the_start, crate::proofs::NoSteps::complete_at_the_start))]
pub fn no_steps_reach_the_start()
    ensures counts { (test : Test) → CountsParts test 0 1 }
    ensures complete { (test : Test) → IsCompleteByParts test 0 ↔ (labels test (start test) ≡ []) }
{}

/// How many live parts runs reach is one number, and with more steps no smaller.
pub fn counts_of_live_parts_grow()
    ensures once { (test : Test) (n count other : ℕ) → CountsParts test n count → CountsParts test n other → count ≡ other }
    ensures grows { (test : Test) (n m count other : ℕ) → n ≤ m → CountsParts test n count → CountsParts test m other → count ≤ other }
{}

/// The same runs end with a mark over live parts and over all configurations.
pub fn the_same_runs_have_marks()
    ensures { (test : Test) (n mark : ℕ) (run : Run Label) → HasMark (canonical_graph test) n mark run ↔ HasMark (graph_of test) n mark run }
{}

/// Marks, blocked components and branches are seen of live parts, whatever they are put into.
#[tactic(auto, using(crate::proofs::SameReadings::marks_seen, crate::proofs::SameReadings::blocked_seen, crate::proofs::SameReadings::branches_seen))]
pub fn places_are_seen_of_live_parts<S>()
    ensures marks { (put : Option ℕ → S) (none : S) → SeesLiveParts (mark_reading put none) }
    ensures blocked { (test : Test) (put : List Standing → S) (none : S) → SeesLiveParts (blocked_reading test put none) }
    ensures branches { (test : Test) (put : Option Span → S) (none : S) → SeesLiveParts (branch_reading test put none) }
{}

/// What two readings see of live parts, both together see.
#[tactic(auto, using(crate::proofs::SameReadings::both_seen))]
pub fn both_readings_see_live_parts<S, T, U>()
    ensures { (pair : S → T → U) (one : Observation Configuration Label S) (other : Observation Configuration Label T) → SeesLiveParts one → SeesLiveParts other → SeesLiveParts (both_readings pair one other) }
{}
