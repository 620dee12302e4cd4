//! The configuration in which a test case starts (ES 201 873-1, 16.3, ES 201 873-4).
ghost use Rattle.std.specs.Prelude.{◌≡◌, ◌<◌, [], IfOk, IfSome, length};
ghost use Rattle.std.specs.Option.{option_map};
ghost use Rattle.check_scope.specs.Names.{kind_at};
ghost use Rattle.step_create.specs.internal.Starts.{going_alone, mtc_at};
ghost use Rattle.semantics.specs.Creating.{new_members};
ghost use Rattle.semantics.specs.Items.{items};
ghost use Rattle.semantics.specs.Runs as rules;
ghost use Rattle.semantics.specs.Sites.{beginning};
ghost use Rattle.semantics.specs.Snapshots.{mtc_of};
ghost use Rattle.step_snapshot.specs.Tests.{extent_of, legend_by, test_by};
ghost use Rattle.config_parts.specs.Legend.{component_by, config_by, frame_with};
ghost use Rattle.config_parts.specs.Views.{HasSlotsWithin, IsConfigWithin, IsWithin};
ghost use Rattle.value_types.specs.Outcomes.{GivesBy};

use crate::component::new_component;
use crate::members::Maker;
use config_parts::{Cells, Component, Config, Frame, Going, Links, Shared, State, TryClone};
use std::alloc::{AllocError, Global};
use step_snapshot::TestCase;
use ttcn_syntax::{DefinitionKind, Seq, Verdict};
use value_types::Fault;

/// The position of what the test case does.
fn body_of(test: &TestCase<'_>) -> Option<usize>
    ensures said { option_map (legend_by test.now).lists result ≡ option_map (items test.now.definitions (beginning test.now.position)) (rules.testcase_body (kind_at test.now.definitions test.now.position)) }
    ensures within { IfSome result (λ position. position < length test.now.graphs.lists) }
{
    match test.definitions.kind(test.position) {
        Some(DefinitionKind::Testcase(_)) => test.graphs.start(test.position, 0),
        _ => None,
    }
}

/// The names of the MTC's frame 0. The MTC runs, and no other component is there.
fn members_of_mtc(alloc: Global, test: &TestCase<'_>) -> Result<Cells, Fault>
    ensures made { GivesBy (λ cells. frame_with (legend_by test.now) [] cells) (new_members (test_by test.now) (mtc_of (test_by test.now)) (rules.first_snapshot (test_by test.now))) result }
    ensures within { IfOk result (HasSlotsWithin (length test.now.names)) }
{
    let running = [&test.mtc.path];
    let maker = Maker {
        test,
        itself: &test.mtc,
        running: &running,
    };
    maker.members(alloc)
}

/// The MTC, which runs with the list at a position as frame 1.
fn new_mtc(
    alloc: Global,
    test: &TestCase<'_>,
    position: usize,
    members: Cells,
) -> Result<Component, AllocError>
    ensures made { IfOk result (λ mtc. component_by (legend_by test.now) mtc ≡ mtc_at test.now position members) }
    ensures within { position < length test.now.graphs.lists → HasSlotsWithin (length test.now.names) members → IfOk result (λ mtc. IsWithin (extent_of test.now) mtc.own) }
{
    let mut calls = Seq::new(alloc);
    calls.push(Frame {
        remaining: position,
        cells: Shared::new(alloc, Cells::new(alloc))?,
    })?;
    let mut mtc = new_component(alloc, test, test.mtc.try_clone(alloc)?, members)?;
    let mut own = mtc.own.try_clone(alloc)?;
    own.calls = calls;
    mtc.own = Shared::new(alloc, own)?;
    mtc.state = State::Running;
    Ok(mtc)
}

/// A test case with the MTC alone.
fn alone(alloc: Global, mtc: Component) -> Result<Config, AllocError>
    ensures { IfOk result (λ config. config ≡ going_alone mtc) }
{
    let mut components = Seq::new(alloc);
    components.push(mtc)?;
    let links = Links {
        connections: Seq::new(alloc),
        mappings: Seq::new(alloc),
        delivered: Seq::new(alloc),
    };
    Ok(Config::Going(Going {
        components,
        links: Shared::new(alloc, links)?,
        forgotten: Verdict::None,
    }))
}

/// The configuration in which a test case starts: the MTC runs with its body as frame 1. A fault in frame 0 ends the test
/// case with verdict error.
pub fn start(alloc: Global, test: &TestCase<'_>) -> Result<Config, AllocError>
    ensures starts { IfOk result (λ config. config_by (legend_by test.now) config ≡ rules.start (test_by test.now)) }
    ensures within { IfOk result (IsConfigWithin (extent_of test.now)) }
{
    let Some(position) = body_of(test) else {
        return Ok(Config::Ended(Verdict::Error));
    };
    match members_of_mtc(alloc, test) {
        Ok(members) => alone(alloc, new_mtc(alloc, test, position, members)?),
        Err(Fault::Dynamic) => Ok(Config::Ended(Verdict::Error)),
        Err(Fault::Memory) => Err(AllocError),
    }
}
