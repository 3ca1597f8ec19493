//! What a step of a call does.

use my_reading::{Answer, Error};

/// What a call returns.
#[derive(Drop)]
pub enum Ending {
    Answered(Answer),
    Failed(Error),
}

/// Where a call stops.
#[derive(Drop)]
pub enum Stop {
    /// Bytes are to be sent.
    Owes,
    /// More bytes are awaited.
    Awaits,
    /// It returns this.
    Returns(Ending),
}

/// One step of a call.
#[derive(Drop)]
pub enum Step {
    /// It continues with the same part.
    Stays,
    /// It continues with the next part.
    Passes,
    /// The transaction couldn't be committed: it continues with its rollback.
    Reverts,
    Stops(Stop),
}
