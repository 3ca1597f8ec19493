//! What stands beside a connection's calls, as it follows from the lines of a run: a stream, a transaction, and the aim of its
//! open call.
ghost use Rattle.std.specs.Prelude.{◌≡◌};
ghost use Rattle.my_script.specs.Beside.{beside_after, beside_by, finds, nothing_beside};

use crate::aim::{Aim, aim_after};
use crate::stream::{Stream, is_there, stream_after, target};
use crate::transaction::{Transaction, is_begun, transaction_after};
use crate::{Outcome, Step};

/// What the lines so far made at a connection beside its calls.
#[derive(Clone, Copy, PartialEq, Eq)]
pub struct Beside {
    pub stream: Stream,
    pub transaction: Transaction,
    pub aim: Aim,
}

impl Beside {
    /// Before the first line.
    pub fn new() -> Beside
        ensures { result ≡ nothing_beside }
    {
        Beside {
            stream: Stream::Without,
            transaction: Transaction::Without,
            aim: Aim::Row,
        }
    }

    /// What a line makes of it at the number that its step names.
    pub fn after(self, step: &Step, outcome: &Outcome) -> Beside
        ensures { result ≡ beside_after self step.now outcome.now }
    {
        match outcome {
            Outcome::NoSuchHandle => self,
            _ => Beside {
                stream: stream_after(self.stream, step, outcome),
                transaction: transaction_after(self.transaction, step, outcome),
                aim: aim_after(self.aim, step),
            },
        }
    }

    /// What a line makes of it at this number.
    pub fn by(self, number: u64, step: &Step, outcome: &Outcome) -> Beside
        ensures { result ≡ beside_by number self step.now outcome.now }
    {
        match target(step) {
            Some(named) => {
                if named == number {
                    self.after(step, outcome)
                } else {
                    self
                }
            }
            None => self,
        }
    }

    /// Whether a step finds the stream that it reads or lets go, or the transaction that it ends; the others need neither.
    pub fn finds(self, step: &Step) -> bool
        ensures { result ≡ finds self step.now }
    {
        match step {
            Step::Item(_) | Step::Unstream(_) => is_there(self.stream),
            Step::Commit(_) | Step::Rollback(_) | Step::ForgetTransaction(_) => {
                is_begun(self.transaction)
            }
            _ => true,
        }
    }
}
