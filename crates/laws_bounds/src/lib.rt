//! Laws of graphs that stand for others: the search over live parts within a bound is the search over all configurations within
//! it. They run no code.
#![tactic(auto)]

ghost use Rattle.std.specs.Prelude.{◌≡◌, ◌↔◌, ℕ, ◌≤◌};
ghost use Rattle.std.specs.declared.cmp.Ordering.{Ordering};
ghost use Rattle.laws_bounds.specs.BoundedParts.{CountsBounded, HasMarkBounded, IsBestBounded, IsCompleteBounded, kind_of};
ghost use Rattle.laws_bounds.specs.Seen.{CountsKept, IsCompleteByKept};
ghost use Rattle.laws_bounds.specs.StandsFor.{SeesKept, StandsFor, of_states, with_left};
ghost use Rattle.search_bounds.specs.Bounded.{bounded};
ghost use Rattle.search_bounds.specs.declared.bound.Bound.{Bound};
ghost use Rattle.search_bounds.specs.declared.kind.Kind.{Kind};
ghost use Rattle.semantics.specs.Canonical.{SeesLiveParts, canonical_graph};
ghost use Rattle.semantics.specs.Configurations.{Configuration};
ghost use Rattle.semantics.specs.LiveParts.{live_part};
ghost use Rattle.semantics.specs.Runs.{graph_of};
ghost use Rattle.semantics.specs.Snapshots.{Test};
ghost use Rattle.semantics.specs.Steps.{Label};
ghost use Rattle.summary.specs.Exploration.{Counts, HasMark, IsBest, IsComplete};
ghost use Rattle.summary.specs.Graph.{Graph};
ghost use Rattle.summary.specs.Run.{IsRun, Run, end_of};
ghost use Rattle.summary.specs.Sums.{Join, Observation, sum_of};

/// A graph that stands for another has the same runs. They end in what is kept of where they end in the other, with the same
/// marks, and the same runs are the least.
pub fn what_stands_for_a_graph_has_its_runs<C, D, L>()
    ensures runs { (g : Graph C L) (h : Graph D L) (kept : C → D) → StandsFor g h kept → (run : Run L) → IsRun h run ↔ IsRun g run }
    ensures ends { (g : Graph C L) (h : Graph D L) (kept : C → D) → StandsFor g h kept → (run : Run L) → end_of h run ≡ kept (end_of g run) }
    ensures marks { (g : Graph C L) (h : Graph D L) (kept : C → D) → StandsFor g h kept → (n mark : ℕ) (run : Run L) → HasMark h n mark run ↔ HasMark g n mark run }
    ensures best { (g : Graph C L) (h : Graph D L) (kept : C → D) → StandsFor g h kept → (cmp : L → L → Ordering) (n mark : ℕ) (run : Run L) → IsBest h cmp n mark run ↔ IsBest g cmp n mark run }
{}

/// What is counted over a graph that stands for another is how much that differs is kept of the configurations that runs of the
/// other reach, and a bound is complete where it is by what is kept.
pub fn what_is_kept_is_counted<C, D, L>()
    ensures counts { (g : Graph C L) (h : Graph D L) (kept : C → D) → StandsFor g h kept → (n count : ℕ) → Counts h n count ↔ CountsKept g kept n count }
    ensures complete { (g : Graph C L) (h : Graph D L) (kept : C → D) → StandsFor g h kept → (n : ℕ) → IsComplete h n ↔ IsCompleteByKept g kept n }
{}

/// Where longer runs end with nothing else that is kept, they end with no other marks, and the least runs stay the least.
pub fn as_many_that_are_kept_have_the_same_marks<C, D, L>()
    ensures marks { (g : Graph C L) (h : Graph D L) (kept : C → D) → StandsFor g h kept → (n m : ℕ) → n ≤ m → (count mark : ℕ) → CountsKept g kept n count → CountsKept g kept m count → ((run : Run L) → ¬ HasMark g n mark run) → (run : Run L) → ¬ HasMark g m mark run }
    ensures best { (g : Graph C L) (h : Graph D L) (kept : C → D) → StandsFor g h kept → (n m : ℕ) → n ≤ m → (cmp : L → L → Ordering) (mark : ℕ) (run : Run L) → IsBest g cmp n mark run → IsBest g cmp m mark run }
{}

/// Over a graph that stands for another, what is seen of what is kept sums up alike.
pub fn what_is_seen_of_what_is_kept_sums_up_alike<C, D, L, S>()
    ensures { (g : Graph C L) (h : Graph D L) (kept : C → D) → StandsFor g h kept → (j : Join S) (whole : Observation C L S) (shrunk : Observation D L S) → SeesKept kept whole shrunk → (n : ℕ) → sum_of h j shrunk n ≡ sum_of g j whole n }
{}

/// What stands for a graph stands for it within each bound, where what is kept has the number of expiries that are left.
pub fn what_stands_for_a_graph_stands_for_it_within_bounds<C, D, L>()
    ensures { (bound : Bound) (kind : L → Kind) (g : Graph C L) (h : Graph D L) (kept : C → D) → StandsFor g h kept → StandsFor (bounded bound kind g) (bounded bound kind h) (with_left kept) }
{}

/// Live parts stand for configurations.
pub fn live_parts_stand_for_configurations()
    ensures { (test : Test) → StandsFor (graph_of test) (canonical_graph test) live_part }
{}

/// Of the runs of a test case that keep a bound, the search over live parts within it counts what they reach, says whether longer
/// ones reach more, and finds the same runs with marks and the same least ones.
pub fn live_parts_are_counted_within_bounds()
    ensures counts { (test : Test) (bound : Bound) (n count : ℕ) → Counts (bounded bound kind_of (canonical_graph test)) n count ↔ CountsBounded test bound n count }
    ensures complete { (test : Test) (bound : Bound) (n : ℕ) → IsComplete (bounded bound kind_of (canonical_graph test)) n ↔ IsCompleteBounded test bound n }
    ensures marks { (test : Test) (bound : Bound) (n mark : ℕ) (run : Run Label) → HasMark (bounded bound kind_of (canonical_graph test)) n mark run ↔ HasMarkBounded test bound n mark run }
    ensures best { (test : Test) (bound : Bound) (cmp : Label → Label → Ordering) (n mark : ℕ) (run : Run Label) → IsBest (bounded bound kind_of (canonical_graph test)) cmp n mark run ↔ IsBestBounded test bound cmp n mark run }
{}

/// What is seen of live parts sums up alike over live parts and over configurations, within each bound.
pub fn live_parts_sum_up_alike_within_bounds<S>()
    ensures { (test : Test) (bound : Bound) (j : Join S) (reading : Observation Configuration Label S) → SeesLiveParts reading → (n : ℕ) → sum_of (bounded bound kind_of (canonical_graph test)) j (of_states reading) n ≡ sum_of (bounded bound kind_of (graph_of test)) j (of_states reading) n }
{}
