//! A component activates at most 4294967295 defaults.
use std::alloc::Global;
use std::test::Fail;
use step_data::activate;
use ttcn_config::{Cells, Data};
use ttcn_syntax::Seq;
use ttcn_values::Fault;

/// The data of a component that has activated so many defaults.
fn data(alloc: Global, activations: u32) -> Data {
    Data {
        members: Cells::new(alloc),
        calls: Seq::new(alloc),
        defaults: Seq::new(alloc),
        activations,
        children: 0,
    }
}

#[test]
fn the_last_activation(rt: HostRuntime) -> Result<(), Fail> {
    let alloc = rt.alloc();
    let own = data(alloc, u32::MAX - 1);
    let Some(own) = activate(alloc, own, 7, Seq::new(alloc)).ok() else {
        return Err(Fail::new("a dynamic error"));
    };
    let newest = own.defaults.as_slice().first().map(|active| active.number);
    assert_eq!(rt; newest, Some(u32::MAX));
    let one_more = activate(alloc, own, 7, Seq::new(alloc)).err();
    assert_eq!(rt; one_more, Some(Fault::Dynamic));
    Ok(())
}
