//! The laws of runs that are told by ordinals, which run no code.
ghost use Rattle.std.specs.Prelude.{◌≡◌, ◌↔◌, ℕ, AllPairs, Option};
ghost use Rattle.std.specs.Cmp.{IsTotalOrder};
ghost use Rattle.std.specs.declared.cmp.Ordering.{Ordering};
ghost use Rattle.std.specs.declared.cmp.Ordering.TheVariants.{Less};
ghost use Rattle.search_ordinals.specs.OrdinalOrder.{ordinal_cmp};
ghost use Rattle.search_ordinals.specs.Ordinals.{ordinal_graph};
ghost use Rattle.search_ordinals.specs.Told.{IsTold};
ghost use Rattle.search_ordinals.specs.declared.ordinal.Ordinal.{Ordinal};
ghost use Rattle.summary.specs.Graph.{Graph};
ghost use Rattle.summary.specs.Exploration.{Counts, HasMark, IsBest, IsComplete};
ghost use Rattle.summary.specs.Run.{IsRun, NoLater, Run, end_of, steps_of};
ghost use Rattle.summary.specs.Sums.{Join, Observation, sum_of};

/// Each run is told by a run of ordinals, and each run of ordinals tells one run. Both end in the same state, after as many
/// steps.
pub fn ordinals_tell_runs<C, L, B>()
    ensures told { (branch : C → L → Option B) (g : Graph C L) (run : Run L) → IsRun g run → (told : Run (Ordinal B)) × IsTold branch g run told }
    ensures telling { (branch : C → L → Option B) (g : Graph C L) (told : Run (Ordinal B)) → IsRun (ordinal_graph branch g) told → (run : Run L) × IsTold branch g run told }
    ensures is_run { (branch : C → L → Option B) (g : Graph C L) (run : Run L) (told : Run (Ordinal B)) → IsTold branch g run told → IsRun g run × IsRun (ordinal_graph branch g) told }
    ensures one { (branch : C → L → Option B) (g : Graph C L) (run other : Run L) (told : Run (Ordinal B)) → IsTold branch g run told → IsTold branch g other told → run ≡ other }
    ensures ends { (branch : C → L → Option B) (g : Graph C L) (run : Run L) (told : Run (Ordinal B)) → IsTold branch g run told → end_of (ordinal_graph branch g) told ≡ end_of g run }
    ensures steps { (branch : C → L → Option B) (g : Graph C L) (run : Run L) (told : Run (Ordinal B)) → IsTold branch g run told → steps_of told ≡ steps_of run }
{}

/// What is counted, summed up, complete or best of the runs of ordinals is so of the runs that they tell. What is summed up
/// may read of a step the branch that it takes, and nothing else.
pub fn ordinals_are_explored_alike<C, L, B, S>()
    ensures counts { (branch : C → L → Option B) (g : Graph C L) (n count : ℕ) → Counts (ordinal_graph branch g) n count ↔ Counts g n count }
    ensures complete { (branch : C → L → Option B) (g : Graph C L) (n : ℕ) → IsComplete (ordinal_graph branch g) n ↔ IsComplete g n }
    ensures marked { (branch : C → L → Option B) (g : Graph C L) (n mark : ℕ) (run : Run L) (told : Run (Ordinal B)) → IsTold branch g run told → HasMark (ordinal_graph branch g) n mark told ↔ HasMark g n mark run }
    ensures sums { (branch : C → L → Option B) (g : Graph C L) (j : Join S) (r : Observation C L S) (t : Observation C (Ordinal B) S)
        → ((c : C) → t.at c ≡ r.at c) → ((c : C) (label : L) (o : Ordinal B) → o.branch ≡ branch c label → t.by c o ≡ r.by c label)
        → (n : ℕ) → sum_of (ordinal_graph branch g) j t n ≡ sum_of g j r n }

    // Where the labels that are enabled on the way ascend, the order of ordinals is that of labels.
    ensures later { (branch : C → L → Option B) (g : Graph C L) (cmp : L → L → Ordering) → IsTotalOrder cmp → ((run : Run L) → IsRun g run → AllPairs (λ l m. cmp l m ≡ Less) (g.enabled (end_of g run)))
        → (run other : Run L) (told also : Run (Ordinal B)) → IsTold branch g run told → IsTold branch g other also → NoLater ordinal_cmp told also → NoLater cmp run other }
    ensures best { (branch : C → L → Option B) (g : Graph C L) (cmp : L → L → Ordering) → IsTotalOrder cmp → ((run : Run L) → IsRun g run → AllPairs (λ l m. cmp l m ≡ Less) (g.enabled (end_of g run)))
        → (n mark : ℕ) (run : Run L) (told : Run (Ordinal B)) → IsTold branch g run told → IsBest (ordinal_graph branch g) ordinal_cmp n mark told → IsBest g cmp n mark run }
{}
