//! What an evaluation gives: a value, a dynamic error, or no memory.
use std::alloc::AllocError;
use value_types::Fault;

/// What an evaluation gives, where it is no dynamic error.
pub(crate) fn given<T: Drop>(outcome: Result<T, Fault>) -> Result<Option<T>, AllocError> {
    match outcome {
        Ok(value) => Ok(Some(value)),
        Err(Fault::Dynamic) => Ok(None),
        Err(Fault::Memory) => Err(AllocError),
    }
}

/// Whether an evaluation is a dynamic error.
pub(crate) fn fails<T: Drop>(outcome: Result<T, Fault>) -> Result<bool, AllocError> {
    match outcome {
        Ok(_) => Ok(false),
        Err(Fault::Dynamic) => Ok(true),
        Err(Fault::Memory) => Err(AllocError),
    }
}
