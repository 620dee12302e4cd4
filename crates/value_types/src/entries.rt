//! Entries of frames by the slots of their names.
ghost use Rattle.std.specs.Prelude.{◌≡◌};
ghost use Rattle.std.specs.Option.{option_map};
ghost use Rattle.value_types.specs.Frames.{named_entries, seen_entry};
ghost use Rattle.value_types.specs.internal.Slots.{entry_by_slot, is_slot_of};

use ttcn_syntax::Name;

/// The number of a name, which is its position among the names of a frame.
pub type Slot = u32;

/// Whether a slot is that of a name.
fn is_slot_of(names: &[Name], slot: Slot, name: &Name) -> bool
    ensures { result ≡ is_slot_of names.now slot name.now }
{
    match names.get(slot as usize) {
        Some(found) => found == name,
        None => false,
    }
}

/// What the first entry of a name says.
fn entry<'a, T>(names: &[Name], entries: &'a [(Slot, T)], name: &Name) -> Option<&'a T>
    ensures { option_map (λ found. found.now) result ≡ entry_by_slot names.now entries.now name.now }
{
    let found = entries
        .iter()
        .find(|entry| is_slot_of(names, entry.0, name))?;
    Some(&found.1)
}

/// What is seen of a name in two frames: the inner one comes first.
#[tactic(auto, using(crate::proofs::Slots::by_slot))]
pub fn seen_entry<'a, T>(
    names: &[Name],
    inner: &'a [(Slot, T)],
    outer: &'a [(Slot, T)],
    name: &Name,
) -> Option<&'a T>
    ensures { option_map (λ found. found.now) result ≡ seen_entry (named_entries names.now inner.now) (named_entries names.now outer.now) name.now }
{
    match entry(names, inner, name) {
        Some(found) => Some(found),
        None => entry(names, outer, name),
    }
}
