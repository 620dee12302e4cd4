//! Where runs start (ES 201 873-4).
ghost use Rattle.std.specs.Prelude.{◌≡◌, IfOk};
ghost use Rattle.semantics.specs.Runs as runs;
ghost use Rattle.step_snapshot.specs.Tests.{test_by};
ghost use Rattle.ttcn_step.specs.Machines.{Fits, machine_of, said};

use config_parts::Config;
use std::alloc::{AllocError, Global};
use step_snapshot::TestCase;

/// The configuration in which runs start.
pub(crate) fn start(alloc: Global, test: &TestCase<'_>) -> Result<Config, AllocError>
    ensures start { IfOk result (λ config. said (machine_of test.now) config ≡ runs.start (test_by test.now)) }
    ensures fits { IfOk result (Fits (machine_of test.now)) }
{
    step_create::start(alloc, test)
}
