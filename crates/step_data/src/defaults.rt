//! Defaults are activated and deactivated, and components counted (ES 201 873-1, 20.5 and 21.3.1).
ghost use Rattle.std.specs.Prelude.{◌≡◌, ◌<◌, [], IfOk, nat_eq, not};
ghost use Rattle.std.specs.List.{filter};
ghost use Rattle.step_data.specs.Frames.{activated, deactivated};
ghost use Rattle.semantics.specs.Statements as rules;
ghost use Rattle.config_parts.specs.Legend.{Legend, data_by};
ghost use Rattle.config_parts.specs.Views.{Extent, IsWithin};
ghost use Rattle.value_types.specs.Outcomes.{GivesBy};

use config_parts::{ActiveDefault, Data};
use std::alloc::Global;
use std::mem;
use ttcn_syntax::Seq;
use value_types::{Fault, Value};

/// An altstep is activated with arguments. Too many activations are a dynamic error.
pub fn activate(
    alloc: Global,
    own: Data,
    altstep: usize,
    arguments: Seq<Value>,
) -> Result<Data, Fault>
    ensures activated { (legend : Legend) → GivesBy (data_by legend) (activated altstep (data_by legend own) arguments) result }
    ensures within { (size : Extent) → IsWithin size own → IfOk result (IsWithin size) }
{
    let mut own = own;
    if own.activations == u32::MAX {
        return Err(Fault::Dynamic);
    }
    own.activations += 1;
    let mut defaults = mem::replace(&mut own.defaults, Seq::new(alloc)).into_vec();
    let new = ActiveDefault {
        number: own.activations,
        altstep,
        arguments,
    };
    defaults.insert(0, new)?;
    own.defaults = Seq::from_vec(defaults);
    Ok(own)
}

/// Defaults without the one of a number.
fn without(defaults: Seq<ActiveDefault>, number: u32) -> Seq<ActiveDefault>
    ensures { result ≡ filter (λ d. not (nat_eq d.number number)) defaults }
{
    let mut defaults = defaults.into_vec();
    defaults.retain(|active| active.number != number);
    Seq::from_vec(defaults)
}

/// The default of a number goes.
pub fn deactivate(alloc: Global, own: Data, number: u32) -> Data
    ensures gone { (legend : Legend) → data_by legend result ≡ deactivated number (data_by legend own) }
    ensures within { (size : Extent) → IsWithin size own → IsWithin size result }
{
    let mut own = own;
    let defaults = mem::replace(&mut own.defaults, Seq::new(alloc));
    own.defaults = without(defaults, number);
    own
}

/// All defaults go.
pub fn deactivate_all(alloc: Global, own: Data) -> Data
    ensures gone { (legend : Legend) → data_by legend result ≡ rules.with_defaults [] (data_by legend own) }
    ensures within { (size : Extent) → IsWithin size own → IsWithin size result }
{
    let mut own = own;
    own.defaults = Seq::new(alloc);
    own
}

/// One more component is created.
pub fn create_child(own: Data) -> Data
    requires { own.children < rules.most }
    ensures counted { (legend : Legend) → data_by legend result ≡ rules.with_child (data_by legend own) }
    ensures within { (size : Extent) → IsWithin size own → IsWithin size result }
{
    let mut own = own;
    own.children += 1;
    own
}
