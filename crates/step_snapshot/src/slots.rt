//! The names of slots.
ghost use Rattle.std.specs.Prelude.{◌≡◌, ◌&&◌, ◌-◌, ◌<◌, ◌^◌, [], Contains, Some, IfNone, IfSome, bytes_eq, drop, get_or, length, nat_eq};
ghost use Rattle.std.specs.List.{list_all, slice_get, starts_with};
ghost use Rattle.graph_numbers.specs.Names.{AreInOrder};
ghost use Rattle.step_snapshot.specs.Slots.{IsKnown};
ghost use Rattle.step_snapshot.specs.Tests.{legend_by};
ghost use Rattle.config_parts.specs.Legend.{IsLegend};
ghost use Rattle.config_parts.specs.Names.{name_of};

use crate::test_case::TestCase;
use config_parts::names_make_legends;
use ttcn_syntax::Name;
use value_types::Slot;

/// Whether each of these is a zero.
fn are_zero(bytes: &[u8]) -> bool
    ensures { result ≡ list_all (λ byte. nat_eq byte 0) bytes.now }
{
    bytes.iter().all(|byte| *byte == 0)
}

/// Whether these are so many zeros.
fn are_zeros(bytes: &[u8], count: usize) -> bool
    ensures { result ≡ (nat_eq (length bytes.now) count && list_all (λ byte. nat_eq byte 0) bytes.now) }
{
    bytes.len() == count && are_zero(bytes)
}

/// Whether a name is another one with so many zeros behind it.
fn is_longer(name: &[u8], last: &[u8], zeros: usize) -> bool
    ensures { result ≡ (starts_with nat_eq name.now last.now && (nat_eq (length (drop (length last.now) name.now)) zeros && list_all (λ byte. nat_eq byte 0) (drop (length last.now) name.now))) }
{
    name.starts_with(last) && are_zeros(&name[last.len()..], zeros)
}

/// The bytes of the last name.
fn last_name(names: &[Name]) -> &[u8]
    ensures { result.now ≡ get_or names.now (length names.now - 1) [] }
{
    match names.last() {
        Some(last) => last.as_bytes(),
        None => &[],
    }
}

/// Whether a slot has this name. A slot behind the last one has the last name with zeros behind it.
fn is_name_of(names: &[Name], slot: usize, name: &Name) -> bool
    requires { slot < 2 ^ 32 }
    ensures { result ≡ bytes_eq (name_of names.now slot) name.now }
{
    if slot < names.len() {
        return names[slot] == *name;
    }
    is_longer(name.as_bytes(), last_name(names), slot - names.len() + 1)
}

/// The place of a name among names in their order.
fn place_of(names: &[Name], name: &Name) -> Option<usize>
    requires { AreInOrder names.now }
    ensures within { IfSome result (λ place. place < length names.now) }
    ensures found { IfSome result (λ place. slice_get names.now place ≡ Some name.now) }
    ensures missing { IfNone result (¬ Contains names.now name.now) }
{
    match names.binary_search(name) {
        Ok(place) => Some(place),
        Err(_) => None,
    }
}

impl<'a> TestCase<'a> {
    /// The slot of a name, where it has one.
    pub fn slot(&self, name: &Name) -> Option<Slot>
        ensures found { IfSome result (λ slot. slice_get self.now.names slot ≡ Some name.now) }
        ensures missing { IfNone result (¬ Contains self.now.names name.now) }
    {
        self.names.are_in_order();
        match place_of(self.names.as_slice(), name) {
            Some(place) => Some(place as Slot),
            None => None,
        }
    }

    /// The slot of a name that has one.
    pub fn slot_of(&self, name: &Name) -> Slot
        requires { IsKnown self.now.names name.now }
        ensures within { result < length self.now.names }
        ensures named { (legend_by self.now).names result ≡ name.now }
    {
        match self.slot(name) {
            Some(slot) => slot,
            None => unreachable!(),
        }
    }

    /// Slots are in the order of the bytes of their names.
    pub fn slots_are_in_order(&self)
        ensures { IsLegend (legend_by self.now) }
    {
        self.names.are_in_order();
        names_make_legends();
    }

    /// Whether a slot has this name.
    pub fn has_name(&self, slot: Slot, name: &Name) -> bool
        ensures { result ≡ bytes_eq ((legend_by self.now).names slot) name.now }
    {
        is_name_of(self.names.as_slice(), slot as usize, name)
    }
}
