//! What the open call asks for, or how it ended.

use my_reading::{Answer, Error};

/// Why a caller lets the open call fail.
#[derive(Clone, Copy, Debug, PartialEq, Eq)]
pub enum LinkFault {
    /// The link failed.
    Link,
    /// The call received too many bytes without an answer.
    TooLong,
    NoMemory,
}

/// What the open call asks for, or how it ended.
#[derive(Drop)]
pub enum SessionStep {
    /// The bytes owed are to be sent.
    Send,
    /// More bytes are awaited.
    Need,
    Done(Answer),
    Fault(Error),
}
