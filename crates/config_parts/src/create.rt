//! New components (ES 201 873-1, 21.3.1).
ghost use Rattle.std.specs.Prelude.{◌≡◌, OnOk};
ghost use Rattle.std.specs.List.{position};
ghost use Rattle.config_parts.specs.internal.Done as spec;

use crate::change::place_of;
use crate::component::Component;
use std::alloc::AllocError;
use std::cmp::Ordering;

/// Whether a component comes before another.
fn is_before(one: &Component, other: &Component) -> bool
    ensures { result ≡ spec.is_before one.now other.now }
{
    one.itself.path.numbers.cmp(&other.itself.path.numbers) == Ordering::Less
}

/// The place of the first component behind a new one.
fn place_for(components: &[Component], new: &Component) -> Option<usize>
    ensures { result ≡ position (spec.is_before new.now) components.now }
{
    components
        .iter()
        .position(|component| is_before(new, component))
}

/// A new component takes its place among the others.
fn insert(components: &mut Vec<Component>, new: Component) -> Result<(), AllocError>
    ensures { OnOk result (components.new.items ≡ spec.insert new components.old.items) }
{
    match place_for(components, &new) {
        Some(at) => components.insert(at, new)?,
        None => components.push(new)?,
    }
    Ok(())
}

/// A new component, unless one has its path.
pub(crate) fn create(components: &mut Vec<Component>, new: Component) -> Result<(), AllocError>
    ensures { OnOk result (components.new.items ≡ spec.create components.old.items new) }
{
    match place_of(components, &new.itself.path) {
        Some(_) => Ok(()),
        None => insert(components, new),
    }
}
