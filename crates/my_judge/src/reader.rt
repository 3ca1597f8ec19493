//! The calls of a tape, read one after the other.

ghost use Rattle.std.specs.Prelude.{◌≡◌, ◌&&◌, ◌||◌, IfOk, map, not};
ghost use Rattle.std.specs.Option.{option_map};
ghost use Rattle.my_reading.specs.Calls.{is_connect, is_quit, is_unrefused, kind_of};
ghost use Rattle.my_reading.specs.Endings.{is_empty};
ghost use Rattle.my_reading.specs.Place.{is_rows};
ghost use Rattle.my_reading.specs.Reading.{closed_answer, is_closing};
ghost use Rattle.my_reading.specs.Tape.{between, sent_to, taken_to};
ghost use Rattle.my_reading.specs.Told.{closes, closes_by, closes_driver};
ghost use Rattle.my_judge.specs.Reads.{
  AreFactsThere,
  IsRead,
  IsSentThere,
  IsTaken,
  IsTakenThere,
  StopIs,
  may_stand,
  span_of,
  with_span,
};
ghost use Rattle.my_judge.specs.Settled.{IsSettled, span_with};
ghost use Rattle.my_judge.specs.Stands.{IsSomewhere, with_bytes};
ghost use Rattle.my_judge.specs.Tapes.{call_of, returned_of, tape_of, told_of};

use crate::stand::Stand;
use crate::tape::{Ending, Tape, TapeCall};
use my_frame::NoMemory;
use my_grammar::{Login, Spot};
use my_machine::{Stop, closes_by, is_connect, is_quit, is_unrefused};
use my_reading::{Answer, Call, CallKind, DriverError, Error, Facts};
use std::alloc::Global;

/// Where the reading of a tape is, and whether the connection is closed.
#[derive(Drop)]
pub struct Reader {
    pub stand: Stand,
    pub closed: bool,
}

// What a call on a closed connection returns.
fn closed_answer(call: &Call) -> my_machine::Ending
    ensures { returned_of result ≡ closed_answer call.now }
{
    if is_unrefused(call.kind()) {
        my_machine::Ending::Answered(Answer::Ready)
    } else {
        my_machine::Ending::Failed(Error::Driver(DriverError::ConnectionClosed))
    }
}

// Whether a call that ended so closes the connection.
fn closes(ending: &Ending, kind: CallKind) -> bool
    ensures { result ≡ closes (told_of ending.now) kind }
{
    match ending {
        Ending::Answered(Answer::Ready) => is_quit(kind),
        Ending::Answered(_) => false,
        Ending::Failed(error) => closes_by(error, kind),
        Ending::Cancelled(closing) => *closing,
    }
}

fn is_closing(call: &Call, ending: &Option<Ending>) -> bool
    ensures { result ≡ is_closing call.now (option_map told_of ending.now) }
{
    match ending {
        Some(ending) => closes(ending, call.kind()),
        None => false,
    }
}

fn is_empty(bytes: &[u8]) -> bool
    ensures { result ≡ is_empty bytes.now }
{
    match bytes {
        [] => true,
        _ => false,
    }
}

// On a closed connection nothing is sent or received.
fn is_quiet(closed: bool, sent: &[u8], taken: &[u8]) -> bool
    ensures { result ≡ not closed || (is_empty sent.now && is_empty taken.now) }
{
    !closed || (is_empty(sent) && is_empty(taken))
}

/// The bytes from one place to another.
pub fn between(bytes: &[u8], from: usize, to: usize) -> &[u8]
    ensures { result.now ≡ between from to bytes.now }
{
    let start = from.min(bytes.len());
    let (_, rest) = bytes.split_at(start);
    let count = to.saturating_sub(from).min(rest.len());
    let (front, _) = rest.split_at(count);
    front
}

// What was sent while the call was open, before these.
fn sent_in<'a>(tape: &'a Tape, call: &TapeCall, after: &[TapeCall]) -> &'a [u8]
    ensures { let end = sent_to (tape_of tape.now) (map call_of after.now) in
        result.now ≡ between call.now.sent_from end tape.now.sent }
{
    let end = match after.first() {
        Some(next) => next.sent_from,
        None => tape.sent.len(),
    };
    between(tape.sent.as_slice(), call.sent_from, end)
}

// What was received while the call was open, before these.
fn taken_in<'a>(tape: &'a Tape, call: &TapeCall, after: &[TapeCall]) -> &'a [u8]
    ensures { let end = taken_to (tape_of tape.now) (map call_of after.now) in
        result.now ≡ between call.now.taken_from end tape.now.taken }
{
    let end = match after.first() {
        Some(next) => next.taken_from,
        None => tape.taken.len(),
    };
    between(tape.taken.as_slice(), call.taken_from, end)
}

// The first call connects, and no other does.
fn may_stand(index: usize, kind: CallKind) -> bool
    ensures { result ≡ may_stand index kind }
{
    if index == 0 {
        is_connect(kind)
    } else {
        !is_connect(kind)
    }
}

fn is_rows(spot: Spot) -> bool
    ensures { result ≡ is_rows spot }
{
    match spot {
        Spot::Rows => true,
        _ => false,
    }
}

// Whether a stream took the set that is read, or whose end is left.
fn is_taken_at(machine: &my_machine::Stand) -> bool
    ensures { let s = machine.now in
        result ≡ s.taken && (s.end_left || is_rows s.context.spot) }
{
    machine.taken && (machine.end_left || is_rows(machine.context.spot))
}

impl Reader {
    /// Whether a stream took the set that is read, or whose end is left, on an open connection.
    pub fn is_taken(&self) -> bool
        ensures { IsTakenThere self.now result }
    {
        let taken = is_taken_at(&self.stand.machine);
        !self.closed & taken
    }

    /// What the server said so far.
    pub fn facts(&self) -> &Facts
        ensures { AreFactsThere self.now result.now }
    {
        &self.stand.machine.facts
    }

    /// How many bytes were sent so far.
    pub fn sent_len(&self) -> usize
        ensures { IsSentThere self.now result }
    {
        self.stand.sent.len()
    }

    // Where the call stops.
    fn stop(&mut self, alloc: Global, login: &Login, call: &Call) -> Result<Stop, NoMemory>
        requires { IsSomewhere login.now self.old.stand }
        ensures stop { IfOk result (λ stop. StopIs login.now call.now self.old stop self.new) }
        ensures closed { self.new.closed ≡ self.old.closed }
    {
        if self.closed {
            return Ok(Stop::Returns(closed_answer(call)));
        }
        self.stand.course(alloc, login, call)
    }

    // Where the call stops over these bytes.
    fn stop_over(
        &mut self,
        alloc: Global,
        login: &Login,
        call: &Call,
        sent: &[u8],
        taken: &[u8],
    ) -> Result<Stop, NoMemory>
        requires { IsSomewhere login.now self.old.stand }
        ensures stop { let stand = with_bytes sent.now taken.now self.old.stand in
            IfOk result (λ stop. StopIs login.now call.now (record self.old { stand = stand }) stop self.new) }
        ensures closed { self.new.closed ≡ self.old.closed }
    {
        self.stand.add_bytes(sent, taken)?;
        self.stop(alloc, login, call)
    }

    // Reads a call over its bytes, and returns whether it is right.
    fn read_call(
        &mut self,
        alloc: Global,
        login: &Login,
        call: &TapeCall,
        sent: &[u8],
        taken: &[u8],
    ) -> Result<bool, NoMemory>
        requires { IsSomewhere login.now self.old.stand }
        ensures { let span = with_span (call_of call.now) sent.now taken.now in
            IfOk result (λ right. IsRead login.now span self.old right self.new) }
    {
        let stop = self.stop_over(alloc, login, &call.call, sent, taken)?;
        let ends = self.stand.ends_so(call.call.kind(), &stop, &call.ending);
        drop(stop);
        let said = self.stand.is_sent_right();
        let quiet = is_quiet(self.closed, sent, taken);
        self.closed |= is_closing(&call.call, &call.ending);
        Ok(ends & said & quiet)
    }

    /// Reads a call that ended so over its bytes, and returns whether it is right. Where it was cancelled, the reading says
    /// whether that closed the connection.
    pub fn read_settled(
        &mut self,
        alloc: Global,
        login: &Login,
        call: &Call,
        ending: Option<Ending>,
        sent: &[u8],
        taken: &[u8],
    ) -> Result<bool, NoMemory>
        requires { IsSomewhere login.now self.old.stand }
        ensures { let span = span_with call.now ending sent.now taken.now in
            IfOk result (λ right. IsSettled login.now span self.old right self.new) }
    {
        let stop = match self.stop_over(alloc, login, call, sent, taken) {
            Ok(stop) => stop,
            Err(NoMemory) => {
                drop(ending);
                return Err(NoMemory);
            }
        };
        let settled = self.stand.settled(call.kind(), ending);
        let ends = self.stand.ends_so(call.kind(), &stop, &settled);
        drop(stop);
        let said = self.stand.is_sent_right();
        let quiet = is_quiet(self.closed, sent, taken);
        self.closed |= is_closing(call, &settled);
        drop(settled);
        Ok(ends & said & quiet)
    }

    /// Reads the call at this place of a tape, before these, and returns whether it is right.
    pub fn take_call(
        &mut self,
        alloc: Global,
        login: &Login,
        tape: &Tape,
        index: usize,
        call: &TapeCall,
        after: &[TapeCall],
    ) -> Result<bool, NoMemory>
        requires { IsSomewhere login.now self.old.stand }
        ensures { let span = span_of (tape_of tape.now) (call_of call.now) (map call_of after.now) in
            IfOk result (λ right. IsTaken login.now index span self.old right self.new) }
    {
        if !may_stand(index, call.call.kind()) {
            return Ok(false);
        }
        let sent = sent_in(tape, call, after);
        let taken = taken_in(tape, call, after);
        let right = self.read_call(alloc, login, call, sent, taken)?;
        Ok(right)
    }
}
