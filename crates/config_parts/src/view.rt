//! What expressions read of a component (ES 201 873-1, 5.2 and 20.2).
ghost use Rattle.std.specs.Prelude.{◌≡◌, length, map, IfOk};
ghost use Rattle.std.specs.List.{list_any};
ghost use Rattle.semantics.specs.Configurations as rules;
ghost use Rattle.semantics.specs.Snapshots.{Snapshot, Test, facts_of, mtc_of, runs_in, snapshot_of};
ghost use Rattle.config_parts.specs.Acts.{HasPathsInOrder};
ghost use Rattle.config_parts.specs.Legend.{Legend, going_by};
ghost use Rattle.config_parts.specs.Views.{AreNames, HasSlotsWithin, running_paths, view_by};
ghost use Rattle.value_types.specs.Chains.{within_chains};
ghost use Rattle.value_types.specs.Frames.{longest_chain, reading};
ghost use Rattle.value_types.specs.contracts.path.PathPartialEq.TheImpl as equality;
ghost use Rattle.value_types.specs.declared.path.Path.{Path as APath};

use crate::component::Component;
use crate::config::Going;
use crate::frame::Cells;
use check_rules::Definitions;
use std::alloc::{AllocError, Global};
use ttcn_syntax::Name;
use value_types::{ComponentId, Frame, Path};

/// The paths of the components that run, in their order.
fn running_paths(alloc: Global, components: &[Component]) -> Result<Vec<&Path>, AllocError>
    ensures { IfOk result (λ paths. map (λ path. path.now) paths.items ≡ running_paths components.now) }
{
    let mut paths = Vec::new(alloc);
    for component in components {
        if component.state.is_running() {
            paths.push(&component.itself.path)?;
        }
    }
    Ok(paths)
}

impl Going {
    /// The paths of the components that run. The components stand in the order of their paths.
    pub fn running(&self, alloc: Global) -> Result<Vec<&Path>, AllocError>
        ensures { IfOk result (λ paths. (legend : Legend) (component : rules.Component) → HasPathsInOrder self.now → (path : APath) → list_any (λ other. (equality.ghosts).eq path other.now) paths.items ≡ runs_in (snapshot_of (going_by legend self.now) component) path) }
    {
        let running = running_paths(alloc, self.components.as_slice())?;
        Ok(running)
    }
}

/// What is read where the names of a frame have these values and timers, and the names of the component those of frame 0.
/// A behaviour that doesn't say on what it runs sees nothing of frame 0. Each slot has a name.
pub fn frame_of<'a>(
    definitions: &'a Definitions<'a>,
    names: &'a [Name],
    inner: &'a Cells,
    outer: &'a Cells,
    running: &'a [&'a Path],
    itself: &'a ComponentId,
    mtc: &'a ComponentId,
) -> Frame<'a>
    ensures { (legend : Legend) (test : Test) (snapshot : Snapshot) → AreNames legend names.now → HasSlotsWithin (length names.now) inner.now → HasSlotsWithin (length names.now) outer.now
        → test.definitions ≡ definitions.now → mtc_of test ≡ mtc.now → ((path : APath) → list_any (λ other. (equality.ghosts).eq path other.now) running.now ≡ runs_in snapshot path)
        → reading result ≡ within_chains longest_chain (facts_of test itself.now snapshot (view_by legend inner.now) (view_by legend outer.now)) }
{
    Frame {
        definitions,
        names,
        locals: inner.values.as_slice(),
        members: outer.values.as_slice(),
        local_timers: inner.timers.as_slice(),
        member_timers: outer.timers.as_slice(),
        running,
        itself,
        mtc,
    }
}
