//! The walk of a connection over the lines of a transcript.

ghost use Rattle.std.specs.Prelude.{◌≡◌, ◌+◌, IfOk, slice_get};
ghost use Rattle.std.specs.Bool.{Decides};
ghost use Rattle.std.specs.Option.{option_copied, option_map};
ghost use Rattle.my_judge.specs.Tapes.{told_of};
ghost use Rattle.my_run_judge.specs.Does.{Begins, Does, IsReadCall, IsSentAt, IsSomewhere, IsTakenAt};
ghost use Rattle.my_run_judge.specs.Walks.{IsEnded, ended, ending_of, sent_end, told_in};
ghost use Rattle.my_run_judge.specs.Seen.{seen};

use crate::act::Status;
use crate::shown::is_begun;
use my_frame::NoMemory;
use my_grammar::Login;
use my_judge::{Ending, Reader, between};
use my_reading::{Answer, Error};
use my_script::{Step, Tape, TapeCall};
use my_statements::Statement;
use std::alloc::Global;

/// Where the lines so far are at a connection.
#[derive(Clone, Copy, PartialEq, Eq)]
pub struct Spot {
    pub status: Status,
    /// The index of the call that is open, or of the next one.
    pub next: usize,
    /// Where the bytes that it received begin.
    pub from: usize,
    /// How many bytes were received so far.
    pub taken: usize,
}

/// The walk of a connection.
#[derive(Drop)]
pub struct Walker {
    /// The reading of the calls that ended.
    pub reader: Reader,
    pub spot: Spot,
}

// How the tape says that a call ended.
fn told_in(
    alloc: Global,
    answer: &Option<Result<Answer, Error>>,
) -> Result<Option<Ending>, NoMemory>
    ensures { IfOk result (λ ending. option_map told_of ending ≡ told_in answer.now) }
{
    match answer {
        None => Ok(None),
        Some(Ok(answer)) => Ok(Some(Ending::Answered(answer.copy(alloc)?))),
        Some(Err(error)) => Ok(Some(Ending::Failed(error.copy(alloc)?))),
    }
}

fn ending_of(alloc: Global, cancelled: bool, call: &TapeCall) -> Result<Option<Ending>, NoMemory>
    ensures { IfOk result (λ ending. option_map told_of ending ≡ ending_of cancelled call.now) }
{
    if cancelled {
        return Ok(Some(Ending::Cancelled(false)));
    }
    told_in(alloc, &call.answer)
}

// Where the bytes end that a call sent, before this one.
fn sent_end(after: Option<&TapeCall>, tape: &Tape) -> usize
    ensures { result ≡ sent_end (option_copied after.entry) (seen tape.now) }
{
    match after {
        Some(next) => next.sent_from as usize,
        None => tape.sent.len(),
    }
}

/// The call in turn.
pub fn call_at(tape: &Tape, next: usize) -> Option<&TapeCall>
    ensures { option_copied result ≡ slice_get (seen tape.now).calls next }
{
    tape.calls.get(next)
}

/// The call after the one in turn.
pub fn call_after(tape: &Tape, next: usize) -> Option<&TapeCall>
    ensures { option_copied result ≡ slice_get (seen tape.now).calls (next + 1) }
{
    if next < tape.calls.len() {
        tape.calls.get(next + 1)
    } else {
        None
    }
}

impl Walker {
    /// Whether a stream took the set that is read, or whose end is left, on an open connection.
    pub fn is_taken(&self) -> bool
        ensures { IsTakenAt self.now result }
    {
        self.reader.is_taken()
    }

    // How many bytes were sent by then.
    fn sent_len(&self) -> usize
        ensures { IsSentAt self.now result }
    {
        self.reader.sent_len()
    }

    /// Whether the call in turn is the one that the step begins, if it begins one, with the statement that it names.
    pub fn begins(&self, tape: &Tape, named: Option<&Statement>, step: &Step) -> bool
        ensures { Begins (seen tape.now) (option_copied named.entry) step.now self.now result }
    {
        is_begun(self.is_taken(), named, step, call_at(tape, self.spot.next))
    }

    // Reads the call in turn over its bytes.
    #[tactic(auto, unfolding(crate::specs::Does::StandsAt))]
    fn read_call(
        &mut self,
        alloc: Global,
        login: &Login,
        tape: &Tape,
        cancelled: bool,
        call: &TapeCall,
    ) -> Result<bool, NoMemory>
        requires { IsSomewhere login.now self.old }
        ensures spot { self.new.spot ≡ self.old.spot }
        ensures read { IfOk result (λ right.
            IsReadCall login.now (seen tape.now) cancelled self.old call.now right self.new) }
    {
        let ending = ending_of(alloc, cancelled, call)?;
        let end = sent_end(call_after(tape, self.spot.next), tape);
        let sent = between(tape.sent.as_slice(), call.sent_from as usize, end);
        let taken = between(tape.taken.as_slice(), self.spot.from, self.spot.taken);
        self.reader
            .read_settled(alloc, login, &call.call, ending, sent, taken)
    }

    /// The call in turn ends, and it is returned whether it is right.
    pub fn end_call(
        &mut self,
        alloc: Global,
        login: &Login,
        tape: &Tape,
        cancelled: bool,
    ) -> Result<bool, NoMemory>
        requires { IsSomewhere login.now self.old }
        ensures { let there = IsEnded login.now (seen tape.now) cancelled in
            let after = ended login.now (seen tape.now) cancelled in
            IfOk result (λ right. Does login.now there after self.old right self.new) }
    {
        let Some(call) = tape.calls.get(self.spot.next) else {
            return Ok(false);
        };
        let sent = self.sent_len();
        if call.sent_from as usize != sent {
            return Ok(false);
        }
        let right = self.read_call(alloc, login, tape, cancelled, call)?;
        self.spot.next += 1;
        self.spot.from = self.spot.taken;
        Ok(right)
    }
}
