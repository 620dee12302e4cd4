//! The texts of errors.
use explore::ExploreError;
use shared::NoSeat;
use std::test::Fail;

#[test]
fn errors_have_their_texts(rt: HostRuntime) -> Result<(), Fail> {
    let alloc = rt.alloc();
    let errors = [
        (ExploreError::BadPlan, "the plan is outside its limits"),
        (ExploreError::TooMany, "more states than the limit"),
        (ExploreError::Memory, "out of memory"),
    ];
    for (error, text) in errors {
        let told = error.to_string(alloc)?;
        assert!(rt; told.as_str() == text, "{text}");
    }
    let told = NoSeat.to_string(alloc)?;
    assert!(rt; told.as_str() == "all seats were made");
    Ok(())
}
