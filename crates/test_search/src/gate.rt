//! When the gate is called.
use super::rings::{PLAN, ring};
use explore::example::Ring;
use explore::{Gate, Plan, explore};
use std::alloc::Global;
use std::process::Abort;
use std::sync::{Mutex, Wait};
use std::test::Fail;
use std::thread::Threads;
use summary::Verdicts;

/// A gate that notes the calls that it hears: worker, layer, piece and pieces.
#[derive(Drop)]
struct Notes<'a, R: Wait + Sync> {
    rt: &'a R,
    calls: Mutex<Vec<[u64; 4]>>,
}

impl<'a, R: Wait + Sync> Gate for Notes<'a, R> {
    fn enter(&self, worker: u64, layer: u64, piece: u64, pieces: u64) {
        let _ = self
            .calls
            .lock(self.rt)
            .push([worker, layer, piece, pieces]);
    }
}

fn check_gate<R: Threads + Wait + Sync + Abort>(
    rt: &R,
    alloc: Global,
    steps: u64,
    piece: u64,
    calls: &[[u64; 4]],
) -> Result<(), Fail> {
    let plan = Plan {
        steps,
        piece,
        ..PLAN
    };
    let notes = Notes {
        rt,
        calls: Mutex::new(Vec::new(alloc)),
    };
    explore::<Ring, Verdicts, Notes<R>, R>(rt, alloc, &ring(rt, 10), &plan, &notes)?;
    let heard = notes.calls.into_inner();
    assert!(rt;
        heard.as_slice() == calls,
        "{steps} steps, pieces of {piece}: {heard:?}"
    );
    Ok(())
}

// The layers of a ring of 10 are 0, then 1, then 2, then 3 and 4, then 6, 5 and 8. Each state has two candidates.

#[test]
fn the_gate_hears_each_piece(rt: HostRuntime) -> Result<(), Fail> {
    check_gate(
        &rt,
        rt.alloc(),
        3,
        1,
        &[
            [0, 0, 0, 2],
            [0, 0, 1, 2],
            [0, 1, 0, 2],
            [0, 1, 1, 2],
            [0, 2, 0, 2],
            [0, 2, 1, 2],
        ],
    )?;
    let whole_layers = [[0, 0, 0, 1], [0, 1, 0, 1], [0, 2, 0, 1]];
    check_gate(&rt, rt.alloc(), 3, 2, &whole_layers)?;
    check_gate(&rt, rt.alloc(), 3, 65_536, &whole_layers)
}

#[test]
fn a_layer_has_several_pieces_of_several_candidates(rt: HostRuntime) -> Result<(), Fail> {
    check_gate(
        &rt,
        rt.alloc(),
        5,
        2,
        &[
            [0, 0, 0, 1],
            [0, 1, 0, 1],
            [0, 2, 0, 1],
            [0, 3, 0, 2],
            [0, 3, 1, 2],
            [0, 4, 0, 3],
            [0, 4, 1, 3],
            [0, 4, 2, 3],
        ],
    )?;
    check_gate(
        &rt,
        rt.alloc(),
        5,
        3,
        &[
            [0, 0, 0, 1],
            [0, 1, 0, 1],
            [0, 2, 0, 1],
            [0, 3, 0, 2],
            [0, 3, 1, 2],
            [0, 4, 0, 2],
            [0, 4, 1, 2],
        ],
    )
}
