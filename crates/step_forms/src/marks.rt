//! Marks, and `repeat` (ES 201 873-1, 20.3).
ghost use Rattle.std.specs.Prelude.{◌≡◌, ◌≤◌, ◌<◌, drop, length, map, slice_get, IfNone, IfOk, IfSome, None, Some};
ghost use Rattle.std.specs.Option.{option_map};
ghost use Rattle.step_forms.specs.internal.Places.{list_at};
ghost use Rattle.step_forms.specs.internal.Marks.{going_on_from};
ghost use Rattle.semantics.specs.Storing.{with_calls};
ghost use Rattle.semantics.specs.Taking as rules;
ghost use Rattle.ttcn_graph.specs.Ways.{ways_of};
ghost use Rattle.step_snapshot.specs.Tests.{extent_of, legend_by};
ghost use Rattle.config_parts.specs.Legend.{Legend, data_by, frame_by};
ghost use Rattle.config_parts.specs.Views.{Extent, IsWithin};
ghost use Rattle.value_types.specs.Outcomes.{GivesBy};

use crate::position::first_at;
use config_parts::{Data, Frame};
use std::alloc::{AllocError, Global};
use std::mem;
use step_snapshot::TestCase;
use ttcn_graph::First;
use ttcn_syntax::Seq;
use value_types::Fault;

/// The position of what is behind the mark that stands first in a list, if one does.
fn behind_mark(test: &TestCase<'_>, at: usize) -> Option<usize>
    ensures found { IfSome result (λ rest. rules.without_marks (list_at test.now at) ≡ rules.without_marks (list_at test.now rest)) }
    ensures before { IfSome result (λ rest. rest < at) }
    ensures none { IfNone result (rules.without_marks (list_at test.now at) ≡ list_at test.now at) }
{
    match first_at(test, at) {
        Some((First::Mark(_), rest)) => Some(rest),
        Some((First::Doing { .. }, _)) => None,
        Some((First::Waiting(_), _)) => None,
        None => None,
    }
}

/// The position of a list without the marks in front.
fn without_marks(test: &TestCase<'_>, position: usize) -> usize
    ensures unmarked { list_at test.now result ≡ rules.without_marks (list_at test.now position) }
    ensures before { result ≤ position }
{
    let mut at = position;
    while let Some(rest) = behind_mark(test, at) {
        at = rest;
    }
    at
}

/// The marks go that stand first in the last frame.
pub fn uncover(alloc: Global, test: &TestCase<'_>, own: Data) -> Data
    ensures uncovered { data_by (legend_by test.now) result ≡ rules.uncovered (data_by (legend_by test.now) own) }
    ensures within { IsWithin (extent_of test.now) own → IsWithin (extent_of test.now) result }
{
    let mut own = own;
    if let Some(frame) = own.calls.as_slice().first() {
        let position = without_marks(test, frame.remaining);
        own.go_on(alloc, position);
    }
    own
}

/// The position of what is behind the item that stands first in a list, if one does that is no mark.
fn behind_other(test: &TestCase<'_>, at: usize) -> Option<usize>
    ensures found { IfSome result (λ rest. rules.from_mark (list_at test.now at) ≡ rules.from_mark (list_at test.now rest)) }
    ensures before { IfSome result (λ rest. rest < at) }
    ensures none { IfNone result (rules.from_mark (list_at test.now at) ≡ slice_get (ways_of test.now.definitions (list_at test.now at)) 0) }
{
    match first_at(test, at) {
        Some((First::Mark(_), _)) => None,
        Some((First::Doing { .. }, rest)) => Some(rest),
        Some((First::Waiting(_), rest)) => Some(rest),
        None => None,
    }
}

/// The position of the first of the lists that may come of the list at a position.
fn first_way(test: &TestCase<'_>, at: usize) -> Option<usize>
    ensures leads { option_map (list_at test.now) result ≡ slice_get (ways_of test.now.definitions (list_at test.now at)) 0 }
    ensures within { IfSome result (λ position. position < length test.now.graphs.lists) }
{
    if at < test.graphs.len() {
        test.graphs.way(at, 0)
    } else {
        None
    }
}

/// The position of a list from its first mark on, with the marked `alt` put back, if it has a mark.
fn from_mark(test: &TestCase<'_>, position: usize) -> Option<usize>
    ensures marked { option_map (list_at test.now) result ≡ rules.from_mark (list_at test.now position) }
    ensures within { IfSome result (λ position. position < length test.now.graphs.lists) }
{
    let mut at = position;
    while let Some(rest) = behind_other(test, at) {
        at = rest;
    }
    first_way(test, at)
}

/// The last frame that has a mark: how many are above it, and the position of what remains there from its first mark on,
/// with the marked `alt` put back.
fn marked_frame(test: &TestCase<'_>, calls: &[Frame]) -> Option<(usize, usize)>
    ensures none { IfNone result (rules.repeated (map (frame_by (legend_by test.now)) calls.now) ≡ None) }
    ensures within { IfSome result (λ found. found.0 ≤ length calls.now) }
    ensures there { IfSome result (λ found. found.1 < length test.now.graphs.lists) }
    ensures found { IfSome result (λ found. rules.repeated (map (frame_by (legend_by test.now)) calls.now) ≡ Some (going_on_from (list_at test.now found.1) (drop found.0 (map (frame_by (legend_by test.now)) calls.now)))) }
{
    for (above, frame) in calls.iter().enumerate() {
        if let Some(position) = from_mark(test, frame.remaining) {
            return Some((above, position));
        }
    }
    None
}

/// The data without so many of the last frames.
fn without_frames(alloc: Global, own: Data, above: usize) -> Result<Data, AllocError>
    requires { above ≤ length own.calls }
    ensures calls { (legend : Legend) → IfOk result (λ new. data_by legend new ≡ with_calls (drop above (data_by legend own).calls) (data_by legend own)) }
    ensures within { (size : Extent) → IsWithin size own → IfOk result (IsWithin size) }
{
    let mut own = own;
    let mut calls = mem::replace(&mut own.calls, Seq::new(alloc)).into_vec();
    own.calls = Seq::from_vec(calls.split_off(above)?);
    Ok(own)
}

/// `repeat`: the frames from the last one on that has a mark, and what remains there begins with the marked `alt`.
pub fn repeat(alloc: Global, test: &TestCase<'_>, own: Data) -> Result<Data, Fault>
    requires { IsWithin (extent_of test.now) own }
    ensures repeated { GivesBy (data_by (legend_by test.now)) (rules.repeat_alt (data_by (legend_by test.now) own)) result }
    ensures within { IfOk result (IsWithin (extent_of test.now)) }
{
    let Some((above, position)) = marked_frame(test, own.calls.as_slice()) else {
        return Err(Fault::Dynamic);
    };
    let mut own = without_frames(alloc, own, above)?;
    own.go_on(alloc, position);
    Ok(own)
}
