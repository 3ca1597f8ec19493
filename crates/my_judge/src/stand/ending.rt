//! How a call may have ended where it stops.

ghost use Rattle.std.specs.Prelude.{◌≡◌, ◌⊎◌, Some, true};
ghost use Rattle.std.specs.Bool.{Decides};
ghost use Rattle.my_reading.specs.Errors.{io_error, unexpected_eof};
ghost use Rattle.my_judge.specs.Ended.{EndsSo, IsCutSo, ending_of, settled_at};
ghost use Rattle.my_machine.specs.Closes.{closes_at};

use super::Stand;
use crate::tape::Ending;
use my_grammar::Spot;
use my_machine::{Stop, closes_at};
use my_opts_parts::UrlError;
use my_reading::{Answer, CallKind, DriverError, Error, IoError, IoFault, IoKind, ServerError};
use my_statements::Statement;
use my_statements::laws::equal_statements_are_same;
use my_value::Row;

// Whether the error is this fault, after `place` packets.
fn is_fault(error: &Error, kind: IoKind, place: u64) -> bool
    ensures { Decides result (error.now ≡ io_error kind place) }
{
    match error {
        Error::Io(IoError::Io(fault)) => *fault == IoFault { kind, place },
        _ => false,
    }
}

/// Whether both are the same.
pub fn is_same_row(a: &Row, b: &Row) -> bool
    ensures { Decides result (a.now ≡ b.now) }
{
    a == b
}

// Whether both are the same to their callers.
fn is_same_statement(a: &Statement, b: &Statement) -> bool
    ensures { Decides result (a.now ≡ b.now) }
{
    equal_statements_are_same();
    a == b
}

fn is_same_answer(a: &Answer, b: &Answer) -> bool
    ensures { Decides result (a.now ≡ b.now) }
{
    match (a, b) {
        (Answer::Row(a), Answer::Row(b)) => is_same_row(a, b),
        (Answer::Ready, Answer::Ready) => true,
        (Answer::SetEnd, Answer::SetEnd) => true,
        (Answer::NoSet, Answer::NoSet) => true,
        (Answer::Stmt(a), Answer::Stmt(b)) => is_same_statement(a, b),
        (Answer::Flag(a), Answer::Flag(b)) => a == b,
        _ => false,
    }
}

// Whether both are the same refusal of the driver.
fn is_same_refusal(a: &DriverError, b: &DriverError) -> bool
    ensures { Decides result (a.now ≡ b.now) }
{
    a == b
}

// Whether both are the same error of a server.
fn is_same_refused(a: &ServerError, b: &ServerError) -> bool
    ensures { Decides result (a.now ≡ b.now) }
{
    a == b
}

fn is_same_url(a: &UrlError, b: &UrlError) -> bool
    ensures { Decides result (a.now ≡ b.now) }
{
    a == b
}

/// Whether both are the same error.
pub fn is_same_error(a: &Error, b: &Error) -> bool
    ensures { Decides result (a.now ≡ b.now) }
{
    match (a, b) {
        (Error::Driver(a), Error::Driver(b)) => is_same_refusal(a, b),
        (Error::Io(a), Error::Io(b)) => a == b,
        (Error::Server(a), Error::Server(b)) => is_same_refused(a, b),
        (Error::Url(a), Error::Url(b)) => is_same_url(a, b),
        (Error::Other(a), Error::Other(b)) => a == b,
        (Error::NoMemory, Error::NoMemory) => true,
        _ => false,
    }
}

// Whether the call returned this.
fn is_same(ending: &Ending, told: &my_machine::Ending) -> bool
    ensures { Decides result (ending.now ≡ ending_of told.now) }
{
    match (ending, told) {
        (Ending::Answered(a), my_machine::Ending::Answered(b)) => is_same_answer(a, b),
        (Ending::Failed(a), my_machine::Ending::Failed(b)) => is_same_error(a, b),
        _ => false,
    }
}

// Whether the call ended and returned this.
fn is_returned(ending: &Option<Ending>, told: &my_machine::Ending) -> bool
    ensures { Decides result (ending.now ≡ Some (ending_of told.now)) }
{
    match ending {
        Some(ending) => is_same(ending, told),
        None => false,
    }
}

impl Stand {
    // Whether the link failed so, or ended where bytes are awaited.
    fn is_link_error(&self, awaits: bool, error: &Error) -> bool
        ensures { let s = self.now.machine in
            let ended = (awaits ≡ true) × (error.now ≡ unexpected_eof s.facts.place) in
            Decides result ((error.now ≡ io_error IoKind.Link s.facts.place) ⊎ ended) }
    {
        let place = self.machine.facts.place;
        if is_fault(error, IoKind::Link, place) {
            return true;
        }
        awaits && is_fault(error, IoKind::UnexpectedEof, place)
    }

    // Whether a call that stops where bytes are owed or awaited may have ended so.
    fn is_cut(&self, kind: CallKind, awaits: bool, ending: &Option<Ending>) -> bool
        ensures { Decides result (IsCutSo kind self.now awaits ending.now) }
    {
        match ending {
            None => true,
            Some(Ending::Answered(_)) => false,
            Some(Ending::Cancelled(closing)) => *closing
                == closes_at(kind, self.machine.context.spot),
            Some(Ending::Failed(error)) => self.is_link_error(awaits, error),
        }
    }

    /// The ending of a call that stops here; cancelling it closes the connection or not.
    pub fn settled(&self, kind: CallKind, ending: Option<Ending>) -> Option<Ending>
        ensures { result ≡ settled_at kind self.now.machine.context.spot ending }
    {
        match ending {
            Some(Ending::Cancelled(_)) => {
                Some(Ending::Cancelled(closes_at(kind, self.machine.context.spot)))
            }
            ended => ended,
        }
    }

    /// Whether a call that stops so here may have ended so.
    pub fn ends_so(&self, kind: CallKind, stop: &Stop, ending: &Option<Ending>) -> bool
        ensures { Decides result (EndsSo kind self.now stop.now ending.now) }
    {
        match stop {
            Stop::Owes => self.is_cut(kind, false, ending),
            Stop::Awaits => self.is_cut(kind, true, ending),
            Stop::Returns(told) => is_returned(ending, told),
        }
    }
}
