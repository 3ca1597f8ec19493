//! What a call is answered.

ghost use Rattle.std.specs.Prelude.{◌≡◌, IfOk};

use my_frame::NoMemory;
use my_statements::Statement;
use my_value::Row;
use std::alloc::Global;

/// The answer of a call.
#[derive(Drop, PartialEq, Eq)]
pub enum Answer {
    /// The command was accepted, or the connection made.
    Ready,
    Row(Row),
    /// The set that is read ended.
    SetEnd,
    /// Nothing is left to be read.
    NoSet,
    /// The statement that was prepared, or was cached.
    Stmt(Statement),
    /// Whether the server has the command of the call: it was reset, or nothing was sent.
    Flag(bool),
}

impl Answer {
    /// A second value of the same answer.
    pub fn copy(&self, alloc: Global) -> Result<Answer, NoMemory>
        ensures { IfOk result (λ copy. copy ≡ self.now) }
    {
        match self {
            Answer::Ready => Ok(Answer::Ready),
            Answer::Row(row) => Ok(Answer::Row(row.copy(alloc)?)),
            Answer::SetEnd => Ok(Answer::SetEnd),
            Answer::NoSet => Ok(Answer::NoSet),
            Answer::Stmt(statement) => Ok(Answer::Stmt(statement.copy(alloc)?)),
            Answer::Flag(flag) => Ok(Answer::Flag(*flag)),
        }
    }
}
