//! The law of bounded graphs, which runs no code.
ghost use Rattle.std.specs.Prelude.{◌≡◌, ◌↔◌, ◌-◌};
ghost use Rattle.std.specs.Option.{option_map};
ghost use Rattle.search_bounds.specs.Bounded.{bounded};
ghost use Rattle.search_bounds.specs.KeptRuns.{KeepsBound, expiries_of};
ghost use Rattle.search_bounds.specs.declared.bound.Bound.{Bound};
ghost use Rattle.search_bounds.specs.declared.kind.Kind.{Kind};
ghost use Rattle.summary.specs.Graph.{Graph};
ghost use Rattle.summary.specs.Run.{IsRun, Run, end_of};

/// The runs of a bounded graph are exactly the runs that keep the bound. They end where they end without a bound, and what is
/// left there is what their expiries leave.
pub fn bounded_runs_keep_the_bound<C, L>()
    ensures runs { (bound : Bound) (kind_of : L → Kind) (g : Graph C L) (run : Run L) → IsRun (bounded bound kind_of g) run ↔ KeepsBound bound kind_of g run }
    ensures ends { (bound : Bound) (kind_of : L → Kind) (g : Graph C L) (run : Run L) → (end_of (bounded bound kind_of g) run).state ≡ end_of g run }
    ensures left { (bound : Bound) (kind_of : L → Kind) (g : Graph C L) (run : Run L) → (end_of (bounded bound kind_of g) run).left ≡ option_map (λ most. most - expiries_of kind_of run) bound.expiries }
{}
