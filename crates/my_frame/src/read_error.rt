//! Why a packet could not be read.

ghost use Rattle.std.specs.Prelude.{◌≡◌};
ghost use Rattle.my_frame.specs.declared.read_error.ReadError.TheVariants as errors;

use crate::no_memory::NoMemory;
use std::alloc::AllocError;
use thiserror::Error;

/// Why a reader of packets returns no record: the payload is no record of the kind that is read, or
/// an allocation failed.
#[derive(Clone, Copy, Debug, PartialEq, Eq, Error)]
pub enum ReadError {
    #[error("malformed packet")]
    Malformed,
    #[error("out of memory")]
    NoMemory,
}

impl From<AllocError> for ReadError {
    ghost from_gives = { λ _ e. e ≡ errors.NoMemory };

    fn from(_e: AllocError) -> ReadError {
        ReadError::NoMemory
    }
}

impl From<NoMemory> for ReadError {
    ghost from_gives = { λ _ e. e ≡ errors.NoMemory };

    fn from(_e: NoMemory) -> ReadError {
        ReadError::NoMemory
    }
}
