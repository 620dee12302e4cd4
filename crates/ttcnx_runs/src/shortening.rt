//! Configurations in which many messages wait. What components do depends on those in front of the others.
ghost use Rattle.std.specs.Prelude.{◌≡◌, IfOk, IfSome};
ghost use Rattle.config_packed.specs.Pieces.{shortened_going};
ghost use Rattle.config_parts.specs.declared.config.Config.TheVariants as config;
ghost use Rattle.config_parts.specs.declared.config.Going.{Going};
ghost use Rattle.semantics.specs.Labels.{labels};
ghost use Rattle.ttcn_step.specs.Machines.{Fits, said};
ghost use Rattle.ttcnx_runs.specs.internal.Recalls.{FitsState};

use crate::scheme::Scheme;
use std::alloc::{AllocError, Global};
use ttcn_config::{Config, ConfigBytes, InternedConfig, Packed, unpack};

/// So many bytes of messages are few: a configuration with them is read in about the time in which its steps are worked out.
const FEW: usize = 1_024;

/// Whether the messages that wait in a configuration take many bytes. Of one component alone, and where system ports are mapped,
/// nothing is recalled, so that there they are never many.
pub(crate) fn are_many(parts: &ConfigBytes<'_>) -> bool {
    if parts.components.len() < 2 || parts.has_mappings {
        return false;
    }
    parts.queue_bytes() > FEW
}

/// A configuration with only the messages in front of the others, where these are many.
pub(crate) fn shortened(
    alloc: Global,
    packed: &InternedConfig<'_>,
) -> Result<Option<Packed>, AllocError>
    ensures { IfOk result (λ found. IfSome found (λ short. (going : Going) × (packed.now ≡ config.Going going) × (short ≡ config.Going (shortened_going going)))) }
{
    let Some(parts) = packed.parts(alloc)? else {
        return Ok(None);
    };
    if are_many(&parts) {
        return Ok(Some(parts.shortened(alloc)?));
    }
    Ok(None)
}

/// A configuration in which the same labels are enabled, in memory of its own.
pub(crate) fn with_same_labels<K: Scheme>(
    alloc: Global,
    packed: &InternedConfig<'_>,
) -> Result<Config, AllocError>
    requires { FitsState K.machine packed.now }
    ensures fits { IfOk result (λ config. Fits K.machine config) }
    ensures labels { IfOk result (λ config. labels K.machine.test (said K.machine config) ≡ labels K.machine.test (said K.machine packed.now)) }
{
    match shortened(alloc, packed)? {
        Some(short) => unpack(alloc, &short),
        None => packed.config(alloc),
    }
}
