//! Frames of calls come and go (ES 201 873-1, 16).
ghost use Rattle.std.specs.Prelude.{◌≡◌, ◌<◌, map, IfOk};
ghost use Rattle.std.specs.List.{All};
ghost use Rattle.semantics.specs.Statements as rules;
ghost use Rattle.step_data.specs.Frames.{entered_all, left};
ghost use Rattle.config_parts.specs.Legend.{Legend, data_by, frame_by};
ghost use Rattle.config_parts.specs.Views.{Extent, IsFrameWithin, IsWithin};
ghost use Rattle.value_types.specs.Outcomes.{Answers, GivesBy};

use config_parts::{Data, Frame};
use std::alloc::{AllocError, Global};
use std::mem;
use ttcn_syntax::Seq;
use value_types::Fault;

/// A component has at most so many frames, frame 0 among them.
const MOST_FRAMES: usize = 4294967295;

/// Frames come above those that are there. What remains in the last of these is at a position.
pub fn enter_all(
    alloc: Global,
    own: Data,
    position: usize,
    frames: Vec<Frame>,
) -> Result<Data, AllocError>
    ensures entered { (legend : Legend) → IfOk result (λ new. data_by legend new ≡ entered_all (map (frame_by legend) frames.items) (legend.lists position) (data_by legend own)) }
    ensures within { (size : Extent) → position < size.lists → IsWithin size own → All (IsFrameWithin size) frames.items → IfOk result (IsWithin size) }
{
    let mut own = own;
    own.go_on(alloc, position);
    let mut below = mem::replace(&mut own.calls, Seq::new(alloc)).into_vec();
    let mut calls = frames;
    calls.append(&mut below)?;
    own.calls = Seq::from_vec(calls);
    Ok(own)
}

/// Too many frames are a dynamic error.
pub fn limit_frames(own: Data) -> Result<Data, Fault>
    ensures limited { (legend : Legend) → GivesBy (data_by legend) (rules.with_frames (data_by legend own).calls (data_by legend own)) result }
    ensures within { (size : Extent) → IsWithin size own → IfOk result (IsWithin size) }
    ensures answers { Answers result }
{
    if own.calls.len() >= MOST_FRAMES {
        return Err(Fault::Dynamic);
    }
    Ok(own)
}

/// A frame comes above those that are there.
pub fn enter(alloc: Global, own: Data, position: usize, frame: Frame) -> Result<Data, Fault>
    ensures entered { (legend : Legend) → GivesBy (data_by legend) (rules.enter (data_by legend own) (legend.lists position) (frame_by legend frame)) result }
    ensures within { (size : Extent) → position < size.lists → IsWithin size own → IsFrameWithin size frame → IfOk result (IsWithin size) }
{
    let mut frames = Vec::new(alloc);
    frames.push(frame)?;
    let own = enter_all(alloc, own, position, frames)?;
    limit_frames(own)
}

/// The last frame goes.
pub fn leave(alloc: Global, own: Data) -> Data
    ensures left { (legend : Legend) → data_by legend result ≡ left (data_by legend own) }
    ensures within { (size : Extent) → IsWithin size own → IsWithin size result }
{
    let mut own = own;
    let mut calls = mem::replace(&mut own.calls, Seq::new(alloc)).into_vec();
    if calls.len() > 0 {
        let _last = calls.remove(0);
    }
    own.calls = Seq::from_vec(calls);
    own
}
