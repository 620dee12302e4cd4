//! Configurations in which a component changed.
ghost use Rattle.std.specs.Prelude.{◌≡◌, ◌++◌, ◌<◌, ◌≤◌, IfOk, List, OnOk, length, map, true};
ghost use Rattle.std.specs.List.{flat_map};
ghost use Rattle.config_packed.specs.internal.Cuts.{changed_at_place, changed_contents, changed_from, joined, some_of};
ghost use Rattle.config_packed.specs.Pieces.{AreJoined, AreSpelled, IsCut, bytes_of, changed_going, joined_going, spelled_parts};
ghost use Rattle.config_packed.specs.Shares.{back_of_going, front_of_going};
ghost use Rattle.config_packed.specs.Spelling.{spell_list, spell_own, spell_queue};
ghost use Rattle.config_parts.specs.declared.component.Queue.{Queue};
ghost use Rattle.config_parts.specs.declared.config.Going.{Going};
ghost use Rattle.config_parts.specs.declared.frame.Data.{Data};

use crate::halves::half;
use crate::interned::InternedConfig;
use crate::pieces::{ComponentBytes, ConfigBytes};
use crate::sized::put_sized;
use crate::whole::ROOM;
use config_parts::Config;
use search_memory::{Interned, Interner};
use std::alloc::{AllocError, Global};
use ttcn_syntax::Verdict;

/// What takes the place of other bytes: of what the component at a place has of its own, and of the queues of one.
#[derive(Clone, Copy)]
struct Change<'o, 'q> {
    at: usize,
    own: &'o [u8],
    behind: usize,
    queues: &'q [u8],
}

impl Change<'_, '_> {
    /// The bytes of the component at a place.
    fn put(
        &self,
        bytes: &mut Vec<u8>,
        place: usize,
        component: &ComponentBytes<'_>,
    ) -> Result<(), AllocError>
        ensures { OnOk result (bytes.new.items ≡ bytes.old.items ++ joined (changed_at_place self.now.at self.now.own.now self.now.behind self.now.queues.now place (bytes_of component.now))) }
    {
        if place == self.at {
            put_sized(bytes, self.own)?;
        } else {
            put_sized(bytes, component.own)?;
        }
        if place == self.behind {
            put_sized(bytes, self.queues)
        } else {
            put_sized(bytes, component.queues)
        }
    }

    /// Whether it changes no component from a place on, and before another one.
    fn is_elsewhere(&self, from: usize, to: usize) -> bool
        ensures { result ≡ true → ¬ ((from ≤ self.now.at) × (self.now.at < to)) × ¬ ((from ≤ self.now.behind) × (self.now.behind < to)) }
    {
        let is_here = from <= self.at && self.at < to;
        let is_behind = from <= self.behind && self.behind < to;
        !is_here && !is_behind
    }
}

/// The bytes of the components from a place on, and before another one, with a change. Where it changes none of them, they are
/// those that are kept.
fn changed_half<'p>(
    alloc: Global,
    interner: &'p Interner,
    parts: &ConfigBytes<'_>,
    change: &Change<'_, '_>,
    kept: &'p Interned,
    from: usize,
    to: usize,
) -> Result<&'p Interned, AllocError>
    requires { (from ≤ to) × (to ≤ length parts.now.components.items) }
    ensures { kept.now ≡ flat_map joined (some_of from to (map bytes_of parts.now.components.items))
        → IfOk result (λ one. one.now ≡ changed_contents change.now.at change.now.own.now change.now.behind change.now.queues.now from (some_of from to (map bytes_of parts.now.components.items))) }
{
    if change.is_elsewhere(from, to) {
        return Ok(kept);
    }
    let mut bytes = Vec::with_capacity(alloc, ROOM)?;
    for place in from..to {
        change.put(&mut bytes, place, &parts.components[place])?;
    }
    interner.intern(alloc, bytes.as_slice())
}

impl<'p> InternedConfig<'p> {
    /// The bytes of both halves of the components with a change.
    fn changed_halves(
        &self,
        alloc: Global,
        interner: &'p Interner,
        parts: &ConfigBytes<'_>,
        change: &Change<'_, '_>,
    ) -> Result<(&'p Interned, &'p Interned), AllocError>
        ensures { (going new : Going) → self.now ≡ Config.Going going → IsCut going parts.now
            → changed_from change.now.at change.now.own.now change.now.behind change.now.queues.now 0 (map spelled_parts going.components) ≡ map spelled_parts new.components
            → IfOk result (λ halves. (halves.0.now ≡ front_of_going new) × (halves.1.now ≡ back_of_going new)) }
    {
        let count = parts.components.len();
        let first = half(count);
        let front = changed_half(alloc, interner, parts, change, self.front, 0, first)?;
        let back = changed_half(alloc, interner, parts, change, self.back, first, count)?;
        Ok((front, back))
    }

    /// The configuration with other bytes of what one component has of its own, and other bytes of the queues of one. Its own bytes
    /// are given in parts.
    pub fn changed(
        &self,
        alloc: Global,
        interner: &'p Interner,
        parts: &ConfigBytes<'_>,
        at: usize,
        own: &[u8],
        behind: usize,
        queues: &[u8],
    ) -> Result<InternedConfig<'p>, AllocError>
        requires { AreSpelled self.now parts.now own.now queues.now }
        ensures { (going : Going) (v : Verdict) (d : Data) (qs : List Queue) → self.now ≡ Config.Going going → IsCut going parts.now → own.now ≡ spell_own v d → queues.now ≡ spell_list spell_queue qs
            → IfOk result (λ interned. interned ≡ Config.Going (changed_going going at v d behind qs)) }
    {
        let change = Change {
            at,
            own,
            behind,
            queues,
        };
        let (front, back) = self.changed_halves(alloc, interner, parts, &change)?;
        Ok(InternedConfig::of(self.head, front, back))
    }

    /// The configuration in which the component at a place, and what all components see, are those of another configuration's
    /// parts. Its own bytes are given in parts.
    pub fn joined_with(
        &self,
        alloc: Global,
        interner: &'p Interner,
        parts: &ConfigBytes<'_>,
        at: usize,
        other: &ConfigBytes<'_>,
    ) -> Result<InternedConfig<'p>, AllocError>
        requires { (going : Going) × (it : Going) × (self.now ≡ Config.Going going) × IsCut going parts.now × IsCut it other.now × AreJoined going at it }
        ensures { (going it : Going) → self.now ≡ Config.Going going → IsCut going parts.now → IsCut it other.now → AreJoined going at it
            → IfOk result (λ interned. interned ≡ Config.Going (joined_going going at it)) }
    {
        let (own, queues) = other.parts_at(at);
        let change = Change {
            at,
            own,
            behind: at,
            queues,
        };
        let head = interner.intern(alloc, other.head)?;
        let (front, back) = self.changed_halves(alloc, interner, parts, &change)?;
        Ok(InternedConfig::of(head, front, back))
    }
}
