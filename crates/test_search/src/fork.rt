//! Two workers that work at once.
ghost use Rattle.std.specs.Prelude.{◌≡◌, ◌==◌, IfOk};
ghost use Rattle.std.specs.FinSet as set;
ghost use Rattle.std.specs.Hash as fed;
ghost use Rattle.std.proofs.Common.{rules, refl, sym, ◌∙◌};
ghost use Rattle.summary.specs.NumberSet.{union_semilattice};
ghost use Rattle.test_search.specs.Fork.{fork, fork_ascends, same_number};

use super::rings::{PLAN, ring};
use explore::example::Ring;
use explore::{Gate, NoGate, Plan, Sparing, explore};
use std::alloc::{AllocError, Global};
use std::hash::{Hash, Hasher};
use std::sync::atomic::AtomicU64;
use std::sync::atomic::Ordering::SeqCst;
use std::test::Fail;
use std::thread::yield_now;
use summary::{SmallSet, Summary, System, Verdicts};

/// How often the first call looks for a second one.
const TURNS: u64 = 10_000_000;

/// What a word of calls is raised by where the turns were used up.
const LATE: u64 = 1 << 32;

/// Counts a call. The first one waits until a second has begun.
fn wait_for_a_second(calls: &AtomicU64) {
    if calls.fetch_add(1, SeqCst) > 0 {
        return;
    }
    for _turn in 0..TURNS {
        if calls.load(SeqCst) > 1 {
            return;
        }
        yield_now();
    }
    calls.fetch_add(LATE, SeqCst);
}

/// A state that counts how often states other than the start are hashed.
#[derive(Drop)]
struct Tine<'a> {
    number: u8,
    steps: &'a AtomicU64,
    hashes: &'a AtomicU64,
}

impl<'a> PartialEq for Tine<'a> {
    ghost eq = { λ a b. a.number == b.number };

    ghost laws = { Prim.search rules };

    fn eq(&self, other: &Self) -> bool {
        self.number == other.number
    }
}

impl<'a> Eq for Tine<'a> {
    ghost laws = { Prim.search rules };
}

impl<'a> Hash for Tine<'a> {
    ghost hash_input = { λ state. fed.u8 state.number };

    ghost respects_eq = { Prim.search rules };

    fn hash<H: Hasher>(&self, state: &mut H) {
        if self.number > 0 {
            wait_for_a_second(self.hashes);
        }
        state.write_u8(self.number);
    }
}

/// The start leads to two states that lead nowhere. Its states carry the words, in which calls are counted.
#[derive(Drop)]
struct Fork<'a> {
    steps: &'a AtomicU64,
    hashes: &'a AtomicU64,
}

impl<'a> System for Fork<'a> {
    type State = Tine<'a>;

    type Label = u8;

    ghost graph = { λ it. fork (λ n. record { number = n; steps = it.steps; hashes = it.hashes }) (λ state. state.number) };

    ghost fits = { λ it state. (state.steps ≡ it.steps) × (state.hashes ≡ it.hashes) };

    ghost same = { λ it s t f h e. λ i. record { number = same_number s.number t.number e i; steps = (f.0 ∙ sym h.0) i; hashes = (f.1 ∙ sym h.1) i } };

    ghost ascending = { λ it s f. fork_ascends (s.number == 0) };

    ghost first_fits = { λ it. (refl, refl) };

    ghost after_fits = { λ it s l f c. (refl, refl) };

    ghost marks_below_8 = { λ it s f. tt };

    fn start(&self, _alloc: Global) -> Result<Tine<'a>, AllocError> {
        Ok(Tine {
            number: 0,
            steps: self.steps,
            hashes: self.hashes,
        })
    }

    fn labels(&self, alloc: Global, state: &Tine<'a>) -> Result<Vec<u8>, AllocError> {
        if state.number == 0 {
            Vec::from_slice(alloc, &[1, 2])
        } else {
            Ok(Vec::new(alloc))
        }
    }

    fn next(&self, _alloc: Global, _state: &Tine<'a>, label: &u8) -> Result<Tine<'a>, AllocError> {
        Ok(Tine {
            number: *label,
            steps: self.steps,
            hashes: self.hashes,
        })
    }

    fn copy(&self, _alloc: Global, label: &u8) -> Result<u8, AllocError> {
        Ok(*label)
    }

    fn mark(&self, _state: &Tine<'a>) -> Option<u8> {
        None
    }
}

impl<'a> Sparing for Fork<'a> {}

/// The labels that were taken.
#[derive(Debug, Drop)]
struct Taken {
    labels: SmallSet,
}

impl<'a> Summary<Fork<'a>> for Taken {
    ghost joins = { record {
      none = record { labels = set.empty };
      join = λ v w. record { labels = set.union v.labels w.labels };
    } };

    ghost observation = { λ it. record {
      at = λ state. record { labels = set.empty };
      by = λ state label. record { labels = set.insert set.empty label };
    } };

    ghost semilattice = { record {
      associates = λ x y z. λ i. record { labels = union_semilattice.associates x.labels y.labels z.labels i };
      commutes = λ x y. λ i. record { labels = union_semilattice.commutes x.labels y.labels i };
      repeats = λ x. λ i. record { labels = union_semilattice.repeats x.labels i };
      unit = λ x. λ i. record { labels = union_semilattice.unit x.labels i };
    } };

    fn empty(alloc: Global) -> Result<Taken, AllocError>
        ensures { IfOk result (λ summary. summary ≡ record { labels = set.empty }) }
    {
        Ok(Taken {
            labels: SmallSet::new(alloc),
        })
    }

    fn join(self, _alloc: Global, other: Taken) -> Result<Taken, AllocError>
        ensures { IfOk result (λ summary. summary ≡ record { labels = set.union self.labels other.labels }) }
    {
        Ok(Taken {
            labels: self.labels.union(other.labels)?,
        })
    }

    fn at(alloc: Global, _system: &Fork<'a>, _state: &Tine<'a>) -> Result<Taken, AllocError> {
        Ok(Taken {
            labels: SmallSet::new(alloc),
        })
    }

    fn by(
        alloc: Global,
        _system: &Fork<'a>,
        state: &Tine<'a>,
        label: &u8,
    ) -> Result<Taken, AllocError> {
        wait_for_a_second(state.steps);
        Ok(Taken {
            labels: SmallSet::of(alloc, *label)?,
        })
    }
}

#[test]
fn two_workers_hash_and_sum_up_at_once(rt: HostRuntime) -> Result<(), Fail> {
    let steps = AtomicU64::new(0);
    let hashes = AtomicU64::new(0);
    let fork = Fork {
        steps: &steps,
        hashes: &hashes,
    };
    let plan = Plan {
        steps: 1,
        workers: 2,
        piece: 1,
        ..PLAN
    };
    let answer = explore::<Fork, Taken, NoGate, HostRuntime>(
        &rt,
        rt.alloc(),
        &fork,
        &plan,
        &NoGate,
    )?;
    assert!(rt; answer.count == 3 && answer.complete);
    let taken = &answer.summary.labels;
    assert!(rt; taken.contains(1) && taken.contains(2), "{taken:?}");
    let steps = steps.load(SeqCst);
    assert!(rt; steps == 2, "the second `by` began in time: {steps}");
    let hashes = hashes.load(SeqCst);
    assert!(rt;
        2 <= hashes && hashes < LATE,
        "the second hash began in time: {hashes}"
    );
    Ok(())
}

/// A gate that holds the first worker until a second one is there.
#[derive(Drop)]
struct Pair {
    /// A bit for each worker.
    workers: AtomicU64,
    calls: AtomicU64,
}

impl Gate for Pair {
    fn enter(&self, worker: u64, _layer: u64, _piece: u64, _pieces: u64) {
        self.workers.fetch_or(1 << (worker % 64), SeqCst);
        wait_for_a_second(&self.calls);
    }
}

#[test]
fn the_gate_hears_two_workers(rt: HostRuntime) -> Result<(), Fail> {
    let pair = Pair {
        workers: AtomicU64::new(0),
        calls: AtomicU64::new(0),
    };
    let plan = Plan {
        steps: 1,
        workers: 2,
        piece: 1,
        ..PLAN
    };
    explore::<Ring, Verdicts, Pair, HostRuntime>(&rt, rt.alloc(), &ring(&rt, 10), &plan, &pair)?;
    assert!(rt; pair.workers.load(SeqCst) == 3, "workers 0 and 1");
    assert!(rt; pair.calls.load(SeqCst) == 2, "two pieces, at once");
    Ok(())
}
