//! Why a payload could not be read or written.

ghost use Rattle.std.specs.Prelude.{◌≡◌};
ghost use Rattle.my_frame.specs.declared.fault.CodecError.TheVariants as errors;

use crate::no_memory::NoMemory;
use std::alloc::AllocError;
use thiserror::Error;

/// What is wrong with a stream of chunks, or with a payload to send: a chunk has the sequence id
/// `found` where `expected` is the next one, or a payload has at least `length` bytes, which is more
/// than `limit`.
#[derive(Clone, Copy, Debug, PartialEq, Eq, Error)]
pub enum CodecFault {
    #[error("packet out of order: expected number {expected}, found {found}")]
    OutOfOrder { expected: u8, found: u8 },
    #[error("packet too large: {length} bytes, the limit is {limit}")]
    TooLarge { length: u64, limit: u64 },
}

/// Why a codec can't read or write a payload.
#[derive(Debug, Drop, PartialEq, Eq, Error)]
pub enum CodecError {
    #[error(transparent)]
    Fault(CodecFault),
    #[error("out of memory")]
    NoMemory,
}

impl From<AllocError> for CodecError {
    ghost from_gives = { λ _ e. e ≡ errors.NoMemory };

    fn from(_e: AllocError) -> CodecError {
        CodecError::NoMemory
    }
}

impl From<NoMemory> for CodecError {
    ghost from_gives = { λ _ e. e ≡ errors.NoMemory };

    fn from(_e: NoMemory) -> CodecError {
        CodecError::NoMemory
    }
}

impl From<CodecFault> for CodecError {
    ghost from_gives = { λ fault e. e ≡ errors.Fault fault };

    fn from(fault: CodecFault) -> CodecError {
        CodecError::Fault(fault)
    }
}
