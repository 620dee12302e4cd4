//! What the calls refuse.
use thiserror::Error;

/// All seats that the object was made with are out already.
#[derive(Debug, Drop, Error)]
#[error("all seats were made")]
pub struct NoSeat;
