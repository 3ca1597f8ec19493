//! Whether a tape is accepted.

ghost use Rattle.std.specs.Prelude.{◌≡◌, IfOk, map};
ghost use Rattle.my_reading.specs.Order.{begins_first, is_within, leads_to};
ghost use Rattle.my_judge.specs.Tapes.{call_of, tape_of};
ghost use Rattle.my_judge.specs.Verdicts.{IsAtFirst, IsVerdict};

use crate::reader::Reader;
use crate::stand::Stand;
use crate::tape::{Tape, TapeCall};
use my_frame::NoMemory;
use my_grammar::Login;
use std::alloc::Global;

/// What is found of a tape.
#[derive(Clone, Copy, PartialEq, Eq)]
pub enum Verdict {
    Accepted,
    /// The first call that isn't read right or doesn't stand in order, with its index from 0; 0 where a tape without
    /// calls has bytes.
    Refuted(usize),
}

/// Before the first call.
pub fn first_reader(alloc: Global, login: &Login) -> Result<Reader, NoMemory>
    ensures { IfOk result (λ reader. IsAtFirst login.now reader) }
{
    let stand = Stand::first(alloc, login)?;
    Ok(Reader {
        stand,
        closed: false,
    })
}

// Whether the tape's first call begins with the first bytes, and without a call there are none.
fn begins_first(tape: &Tape) -> bool
    ensures { let t = tape_of tape.now in
        result ≡ begins_first t t.calls }
{
    match tape.calls.as_slice() {
        [] => tape.sent.is_empty() && tape.taken.is_empty(),
        [call, ..] => call.sent_from == 0 && call.taken_from == 0,
    }
}

// Whether the call begins among the tape's bytes, or at their end.
fn is_within(tape: &Tape, call: &TapeCall) -> bool
    ensures { result ≡ is_within (tape_of tape.now) (call_of call.now) }
{
    call.sent_from <= tape.sent.len() && call.taken_from <= tape.taken.len()
}

// Whether the call ended before the next one of these began, which doesn't begin before it.
fn leads_to(call: &TapeCall, after: &[TapeCall]) -> bool
    ensures { result ≡ leads_to (call_of call.now) (map call_of after.now) }
{
    match after {
        [] => true,
        [next, ..] => {
            call.ending.is_some()
                && call.sent_from <= next.sent_from
                && call.taken_from <= next.taken_from
        }
    }
}

// What is found of the tape, before its first call.
fn judge_calls(
    alloc: Global,
    login: &Login,
    tape: &Tape,
    reader: &mut Reader,
) -> Result<Verdict, NoMemory>
    requires { IsAtFirst login.now reader.old }
    ensures exact { IfOk result (λ verdict. IsVerdict login.now (tape_of tape.now) verdict) }
{
    if !begins_first(tape) {
        return Ok(Verdict::Refuted(0));
    }
    let mut left = tape.calls.as_slice();
    let mut index = 0;
    'calls: while let Some((call, after)) = left.split_first() {
        if !is_within(tape, call) {
            return Ok(Verdict::Refuted(index));
        }
        if !reader.take_call(alloc, login, tape, index, call, after)? {
            return Ok(Verdict::Refuted(index));
        }
        index += 1;
        if !leads_to(call, after) {
            return Ok(Verdict::Refuted(index));
        }
        left = after;
    }
    Ok(Verdict::Accepted)
}

/// Whether the tape is one of a client that logs in so, by the reading of `my_reading`: its first call connects and no
/// other does; each call ended as the reading says over its bytes, or is open there; what was sent is a beginning of
/// what the calls say; and on a closed connection nothing was sent or received. The calls stand in order: the first one
/// begins with the first bytes, no other one before the one that precedes it or after the tape's end, and only the
/// newest may be open; without a call there are no bytes. The time is that of one pass over the bytes, and for each
/// call one over what was sent so far.
pub fn judge(alloc: Global, login: &Login, tape: &Tape) -> Result<Verdict, NoMemory>
    ensures exact { IfOk result (λ verdict. IsVerdict login.now (tape_of tape.now) verdict) }
{
    let mut reader = first_reader(alloc, login)?;
    let verdict = judge_calls(alloc, login, tape, &mut reader);
    drop(reader);
    verdict
}
