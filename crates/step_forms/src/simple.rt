//! Statements that ask for one thing by themselves (ES 201 873-1, 19, 20.5, 21.3 and 24).
ghost use Rattle.std.specs.Prelude.{◌≡◌, length};
ghost use Rattle.step_forms.specs.Asks.{Asks, AsksWithin};
ghost use Rattle.step_forms.specs.internal.Stands.{legend_of, site_of, stand_by};
ghost use Rattle.semantics.specs.Statements as said;
ghost use Rattle.semantics.specs.Taking.{repeat_alt};
ghost use Rattle.step_snapshot.specs.Tests.{extent_of};

use crate::call::activate_call;
use crate::marks::repeat;
use crate::stand::Stand;
use config_parts::{Act, Request};
use std::alloc::Global;
use step_data::{deactivate, deactivate_all};
use ttcn_syntax::{Call, Reference, Verdict};
use value_types::{Fault, Value};

/// `repeat`
pub fn act_repeat(alloc: Global, stand: &Stand<'_, '_>) -> Result<Option<Act>, Fault>
    ensures asks { Asks (legend_of stand.now) (said.continuing (repeat_alt (stand_by stand.now).own)) result }
    ensures within { AsksWithin (extent_of stand.now.snapshot.now.test.now) result }
{
    let own = stand.data(alloc)?;
    let own = repeat(alloc, stand.snapshot.test, own)?;
    Ok(Some(Act {
        request: Request::Continues,
        own,
    }))
}

/// `stop`
pub fn act_stop(alloc: Global, stand: &Stand<'_, '_>) -> Result<Option<Act>, Fault>
    ensures asks { Asks (legend_of stand.now) (said.Requests (said.Stops (stand_by stand.now).snapshot.itself.path) (said.done (stand_by stand.now))) result }
    ensures within { AsksWithin (extent_of stand.now.snapshot.now.test.now) result }
{
    let own = stand.done(alloc)?;
    let path = stand.snapshot.component.itself.path.try_clone(alloc)?;
    Ok(Some(Act {
        request: Request::Stops(path),
        own,
    }))
}

/// `setverdict`
pub fn act_verdict(
    alloc: Global,
    stand: &Stand<'_, '_>,
    verdict: Verdict,
) -> Result<Option<Act>, Fault>
    ensures asks { Asks (legend_of stand.now) (said.Requests (said.Worsens verdict) (said.done (stand_by stand.now))) result }
    ensures within { AsksWithin (extent_of stand.now.snapshot.now.test.now) result }
{
    let own = stand.done(alloc)?;
    Ok(Some(Act {
        request: Request::Worsens(verdict),
        own,
    }))
}

/// `activate`, where the reference is dropped.
pub fn act_activate(alloc: Global, stand: &Stand<'_, '_>, call: &Call) -> Result<Option<Act>, Fault>
    ensures asks { Asks (legend_of stand.now) (said.continuing (said.activated (stand_by stand.now) (site_of stand.now) call.now (said.done (stand_by stand.now)))) result }
    ensures within { AsksWithin (extent_of stand.now.snapshot.now.test.now) result }
{
    let own = stand.done(alloc)?;
    let own = activate_call(alloc, stand, call, own)?;
    Ok(Some(Act {
        request: Request::Continues,
        own,
    }))
}

/// `deactivate`, of one default or of all.
pub fn act_deactivate(
    alloc: Global,
    stand: &Stand<'_, '_>,
    reference: &Option<Reference>,
) -> Result<Option<Act>, Fault>
    ensures asks { Asks (legend_of stand.now) (said.act_deactivate (stand_by stand.now) (site_of stand.now) reference.now) result }
    ensures within { AsksWithin (extent_of stand.now.snapshot.now.test.now) result }
{
    let Some(reference) = reference else {
        let own = stand.done(alloc)?;
        return Ok(Some(Act {
            request: Request::Continues,
            own: deactivate_all(alloc, own),
        }));
    };
    let value = stand.reference(alloc, reference)?;
    match &value {
        Value::Default(number) => {
            let own = stand.done(alloc)?;
            Ok(Some(Act {
                request: Request::Continues,
                own: deactivate(alloc, own, *number),
            }))
        }
        Value::Null => {
            let own = stand.done(alloc)?;
            Ok(Some(Act {
                request: Request::Continues,
                own,
            }))
        }
        _ => Err(Fault::Dynamic),
    }
}
