//! The polls of a line.

ghost use Rattle.std.specs.Prelude.{◌≡◌, IfOk, Some, false};
ghost use Rattle.std.specs.Bool.{Decides};
ghost use Rattle.std.specs.Option.{option_copied};
ghost use Rattle.my_handshake.specs.Version.{version_of};
ghost use Rattle.my_run_judge.specs.Does.{Does, IsSomewhere, IsToldAt};
ghost use Rattle.my_run_judge.specs.Lines.{
  Fits,
  IsBegun,
  IsToldBy,
  LastPoll,
  LastRight,
  RowPoll,
  SkipPoll,
  after_last_poll,
  after_row_poll,
  calls_before,
  first_of,
};
ghost use Rattle.my_run_judge.specs.Walks.{Walk, ended};
ghost use Rattle.my_run_judge.specs.Seen.{seen};

use crate::act::Status;
use crate::meets::{last_met, row_met};
use crate::shown::{is_followed_by, is_next, is_pending, is_shown_at, is_skipped};
use crate::walk::{Spot, Walker, call_after, call_at};
use my_frame::NoMemory;
use my_grammar::Login;
use my_handshake::{ServerVersion, server_version};
use my_reading::{Call, Facts};
use my_reply::OkPacket;
use my_script::{Aim, Outcome, Tape, TapeCall, Use};
use std::alloc::Global;

// The calls from a first one to the one in turn.
fn calls_before(tape: &Tape, first: u128, next: usize) -> &[TapeCall]
    ensures { result.now ≡ calls_before (seen tape.now) first next }
{
    let calls = tape.calls.as_slice();
    let (_, rest) = calls.split_at(first.min(calls.len() as u128) as usize);
    let count = (next as u128).saturating_sub(first) as usize;
    let (front, _) = rest.split_at(count.min(rest.len()));
    front
}

/// The calls of a gathering begin with this one.
pub fn first_of(status: Status, next: usize) -> u128
    ensures { result ≡ first_of status next }
{
    match status {
        Status::Gathers(first) => first,
        _ => next as u128,
    }
}

fn is_next_row(call: Option<&TapeCall>) -> bool
    ensures { Decides result (IsBegun (Some Call.NextRow) (option_copied call.entry)) }
{
    match call {
        Some(call) => is_next(&call.call),
        None => false,
    }
}

// Whether the poll is one of this connection, and took bytes of the tape.
fn fits(number: u64, tape: &Tape, spot: Spot, used: &Use) -> bool
    ensures { Decides result (Fits number (seen tape.now) spot used.now) }
{
    let len = tape.taken.len();
    used.number == number && spot.taken <= len && used.met.taken as usize <= len - spot.taken
}

fn is_same_version(a: &ServerVersion, b: &ServerVersion) -> bool
    ensures { Decides result (a.now ≡ b.now) }
{
    a == b
}

fn is_version(version: &ServerVersion, text: &[u8]) -> bool
    ensures { Decides result (version.now ≡ version_of text.now) }
{
    let found = server_version(text);
    let same = is_same_version(version, &found);
    same
}

fn is_greeted(facts: &Facts, id: u32, version: &ServerVersion) -> bool
    ensures { let text = facts.now.version in
        Decides result ((id ≡ facts.now.connection) × (version.now ≡ version_of text)) }
{
    id == facts.connection && is_version(version, facts.version.as_slice())
}

fn is_last_ok(facts: &Facts, ok: &Option<OkPacket>) -> bool
    ensures { Decides result (ok.now ≡ facts.now.ok) }
{
    *ok == facts.ok
}

// Whether the line shows what the server said.
fn is_told_by(facts: &Facts, outcome: &Outcome) -> bool
    ensures { Decides result (IsToldBy facts.now outcome.now) }
{
    match outcome {
        Outcome::Fields(ok) => is_last_ok(facts, ok),
        Outcome::Connected(_, id, version) => is_greeted(facts, *id, version),
        _ => true,
    }
}

impl Walker {
    /// Whether the line shows what the server said by then, where it shows any of it.
    pub fn is_told(&self, outcome: &Outcome) -> bool
        ensures { IsToldAt self.now outcome.now result }
    {
        is_told_by(self.reader.facts(), outcome)
    }

    // The call in turn ends as the line shows.
    fn end_shown(
        &mut self,
        alloc: Global,
        login: &Login,
        tape: &Tape,
        outcome: &Outcome,
        first: u128,
    ) -> Result<bool, NoMemory>
        requires { IsSomewhere login.now self.old }
        ensures { let there = λ (w : Walk). LastRight login.now (seen tape.now) outcome.now first w false in
            let after = ended login.now (seen tape.now) false in
            IfOk result (λ right. Does login.now there after self.old right self.new) }
    {
        let call = call_at(tape, self.spot.next);
        if !is_shown_at(outcome, call, calls_before(tape, first, self.spot.next)) {
            return Ok(false);
        }
        self.end_call(alloc, login, tape, false)
    }

    /// The last poll of a line.
    pub fn poll_last(
        &mut self,
        alloc: Global,
        login: &Login,
        number: u64,
        tape: &Tape,
        outcome: &Outcome,
        first: u128,
        used: &Use,
    ) -> Result<bool, NoMemory>
        requires { IsSomewhere login.now self.old }
        ensures { let there = LastPoll login.now number (seen tape.now) outcome.now first used.now in
            let after = after_last_poll login.now (seen tape.now) outcome.now used.now in
            IfOk result (λ right. Does login.now there after self.old right self.new) }
    {
        if !fits(number, tape, self.spot, used) || !last_met(outcome, &used.met) {
            return Ok(false);
        }
        self.spot.taken += used.met.taken as usize;
        if is_pending(outcome) {
            return Ok(true);
        }
        self.end_shown(alloc, login, tape, outcome, first)
    }

    /// An earlier poll of a line: its call ends, and the next row is asked for.
    pub fn poll_row(
        &mut self,
        alloc: Global,
        login: &Login,
        number: u64,
        tape: &Tape,
        used: &Use,
    ) -> Result<bool, NoMemory>
        requires { IsSomewhere login.now self.old }
        ensures { let there = RowPoll login.now number (seen tape.now) used.now in
            let after = after_row_poll login.now (seen tape.now) used.now in
            IfOk result (λ right. Does login.now there after self.old right self.new) }
    {
        if !fits(number, tape, self.spot, used) || !row_met(&used.met) {
            return Ok(false);
        }
        self.spot.taken += used.met.taken as usize;
        if !is_next_row(call_after(tape, self.spot.next)) {
            return Ok(false);
        }
        self.end_call(alloc, login, tape, false)
    }

    /// The first of several polls: the rest of a set is passed over, and the call that takes the next one, or reads its
    /// row, is begun.
    pub fn poll_skip(
        &mut self,
        alloc: Global,
        login: &Login,
        number: u64,
        tape: &Tape,
        aim: Aim,
        used: &Use,
    ) -> Result<bool, NoMemory>
        requires { IsSomewhere login.now self.old }
        ensures { let there = SkipPoll login.now number (seen tape.now) aim used.now in
            let after = after_row_poll login.now (seen tape.now) used.now in
            IfOk result (λ right. Does login.now there after self.old right self.new) }
    {
        if !fits(number, tape, self.spot, used) || !row_met(&used.met) {
            return Ok(false);
        }
        self.spot.taken += used.met.taken as usize;
        if !is_skipped(call_at(tape, self.spot.next))
            || !is_followed_by(aim, call_after(tape, self.spot.next))
        {
            return Ok(false);
        }
        self.end_call(alloc, login, tape, false)
    }
}
