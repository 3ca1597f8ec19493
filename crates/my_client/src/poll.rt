//! Polls a session's open call over a link until it returns or the link isn't ready.

ghost use Rattle.std.specs.Prelude.{ℕ, ◌≡◌, ◌≢◌, ◌≤◌, ◌<◌, is_some, length, IfOk};
ghost use Rattle.my_link.specs.Met.{nothing_met};
ghost use Rattle.my_link.specs.Moves.{ends_at, faults_at, holds_at};
ghost use Rattle.my_reading.specs.Course.{Awaits, Owes};
ghost use Rattle.my_client.specs.Lives.{Lives, made_in};
ghost use Rattle.my_client.specs.Stands.{StandsAsked, Stopped};
ghost use Rattle.my_client.specs.Turns.{EachPoll, EachTurn, FailsNow, stop_at, took_by};

use crate::notes::{note_sent, note_taken};
use crate::tape::Tape;
use my_frame::NoMemory;
use my_frame::limits::MOST_TAKEN;
use my_link::{Link, Met, ReadStep, WriteStep};
use my_reading::{Answer, Error};
use my_session::{LinkFault, Session, SessionStep};
use std::alloc::Global;

/// What a poll returned.
#[derive(Drop)]
pub enum After {
    Pending,
    Answered(Answer),
    Failed(Error),
}

/// What stopped a poll at its link: nothing, a read or a write that wasn't ready or failed, or the end.
#[derive(Clone, Copy)]
pub(crate) enum Halt {
    Ready,
    ReadHeld,
    WriteHeld,
    ReadFailed,
    WriteFailed,
    Ended,
}

/// What one turn of a poll did.
#[derive(Drop)]
pub(crate) enum Turn {
    /// Bytes were sent.
    Sent,
    /// This number of bytes was received.
    Took(u64),
    /// The poll is over, and returns this.
    Over(Halt, After),
}

// A fault's error, unless memory ran out.
fn fault(error: Error) -> Result<Error, NoMemory>
    ensures value { IfOk result (λ e. e ≡ error) }
    ensures kept { IfOk result (λ e. e ≢ Error.NoMemory) }
{
    match error {
        Error::NoMemory => Err(NoMemory),
        other => Ok(other),
    }
}

// The session was told that its link failed or ended, and its next step is the error. A session that stands at a place of the reading
// does nothing else then.
fn fail_now(alloc: Global, session: &mut Session, now: u64) -> Result<Error, NoMemory>
    ensures fails { IfOk result (λ e. FailsNow session.old.seen session.new.seen e) }
    ensures lives { IfOk result (λ _. Lives now 0 session.old session.new) }
    ensures made { made_in session.new ≡ made_in session.old }
{
    match session.step(alloc, now) {
        SessionStep::Fault(error) => fault(error),
        SessionStep::Send | SessionStep::Need => Err(NoMemory),
        SessionStep::Done(answer) => {
            drop(answer);
            Err(NoMemory)
        }
    }
}

// Sends some of what is owed. A session that stands at a place of the reading owes some where it asks to send.
fn send<L: Link>(
    alloc: Global,
    session: &mut Session,
    link: &mut L,
    tape: &mut Option<Tape>,
    now: u64,
) -> Result<Turn, NoMemory>
    ensures turn { IfOk result (λ turn. (room : ℕ) → EachTurn (Stopped Owes) session.old.seen session.new.seen
        (L.looks link.old) (L.looks link.new) tape.old tape.new room turn) }
    ensures took { IfOk result (λ turn. took_by turn ≡ 0) }
    ensures lives { IfOk result (λ turn. Lives now (took_by turn) session.old session.new) }
    ensures made { made_in session.new ≡ made_in session.old }
    ensures keeps { is_some tape.new ≡ is_some tape.old }
{
    if session.owed().is_empty() {
        return Err(NoMemory);
    }
    match link.write(session.owed()) {
        WriteStep::Took(n) => {
            note_sent(tape, &session.owed()[..n])?;
            session.sent(n);
            Ok(Turn::Sent)
        }
        WriteStep::NotYet => Ok(Turn::Over(Halt::WriteHeld, After::Pending)),
        WriteStep::Failed => {
            session.fail(LinkFault::Link);
            let error = fail_now(alloc, session, now)?;
            Ok(Turn::Over(Halt::WriteFailed, After::Failed(error)))
        }
        WriteStep::NoMemory => Err(NoMemory),
    }
}

// Receives some of what the link has, at most `room` bytes, by a buffer that isn't empty.
fn receive_into<L: Link>(
    alloc: Global,
    session: &mut Session,
    link: &mut L,
    tape: &mut Option<Tape>,
    now: u64,
    room: u64,
    buffer: &mut [u8],
) -> Result<Turn, NoMemory>
    requires room { 0 < room }
    requires buffer { 0 < length buffer.old }
    ensures turn { IfOk result (λ turn. EachTurn (Stopped Awaits) session.old.seen session.new.seen
        (L.looks link.old) (L.looks link.new) tape.old tape.new room turn) }
    ensures took { IfOk result (λ turn. took_by turn ≤ room) }
    ensures lives { IfOk result (λ turn. Lives now (took_by turn) session.old session.new) }
    ensures made { made_in session.new ≡ made_in session.old }
    ensures keeps { is_some tape.new ≡ is_some tape.old }
{
    let most = room.min(buffer.len() as u64) as usize;
    match link.read(&mut buffer[..most]) {
        ReadStep::Got(n) => {
            session.take(&buffer[..n])?;
            note_taken(tape, &buffer[..n])?;
            Ok(Turn::Took(n as u64))
        }
        ReadStep::NotYet => Ok(Turn::Over(Halt::ReadHeld, After::Pending)),
        ReadStep::End => {
            session.end();
            let error = fail_now(alloc, session, now)?;
            Ok(Turn::Over(Halt::Ended, After::Failed(error)))
        }
        ReadStep::Failed => {
            session.fail(LinkFault::Link);
            let error = fail_now(alloc, session, now)?;
            Ok(Turn::Over(Halt::ReadFailed, After::Failed(error)))
        }
    }
}

// Receives some of what the link has, at most `room` bytes.
fn receive<L: Link>(
    alloc: Global,
    session: &mut Session,
    link: &mut L,
    tape: &mut Option<Tape>,
    now: u64,
    room: u64,
) -> Result<Turn, NoMemory>
    requires room { 0 < room }
    ensures turn { IfOk result (λ turn. EachTurn (Stopped Awaits) session.old.seen session.new.seen
        (L.looks link.old) (L.looks link.new) tape.old tape.new room turn) }
    ensures took { IfOk result (λ turn. took_by turn ≤ room) }
    ensures lives { IfOk result (λ turn. Lives now (took_by turn) session.old session.new) }
    ensures made { made_in session.new ≡ made_in session.old }
    ensures keeps { is_some tape.new ≡ is_some tape.old }
{
    let mut buffer = session.lend_buffer(alloc)?;
    let turn = receive_into(alloc, session, link, tape, now, room, &mut buffer);
    session.keep_buffer(buffer);
    turn
}

// One turn: what the session asks for is done with the link.
fn take_turn<L: Link>(
    alloc: Global,
    session: &mut Session,
    link: &mut L,
    tape: &mut Option<Tape>,
    now: u64,
    room: u64,
) -> Result<Turn, NoMemory>
    ensures turn { IfOk result (λ turn. EachTurn StandsAsked session.old.seen session.new.seen
        (L.looks link.old) (L.looks link.new) tape.old tape.new room turn) }
    ensures took { IfOk result (λ turn. took_by turn ≤ room) }
    ensures lives { IfOk result (λ turn. Lives now (took_by turn) session.old session.new) }
    ensures made { made_in session.new ≡ made_in session.old }
    ensures keeps { is_some tape.new ≡ is_some tape.old }
{
    match session.step(alloc, now) {
        SessionStep::Send => send(alloc, session, link, tape, now),
        SessionStep::Need => {
            if room == 0 {
                return Ok(Turn::Over(Halt::Ready, After::Pending));
            }
            receive(alloc, session, link, tape, now, room)
        }
        SessionStep::Done(answer) => Ok(Turn::Over(Halt::Ready, After::Answered(answer))),
        SessionStep::Fault(error) => Ok(Turn::Over(Halt::Ready, After::Failed(fault(error)?))),
    }
}

// What a poll met that received this number of bytes and was stopped so.
fn met_at(taken: u64, halt: Halt) -> Met
    ensures { result ≡ record nothing_met {
      taken = taken;
      faults = faults_at (stop_at halt);
      holds = holds_at (stop_at halt);
      ends = ends_at (stop_at halt);
    } }
{
    let met = Met {
        taken,
        ..Met::nothing()
    };
    match halt {
        Halt::Ready => met,
        Halt::ReadHeld | Halt::WriteHeld => Met { holds: 1, ..met },
        Halt::ReadFailed | Halt::WriteFailed => Met { faults: 1, ..met },
        Halt::Ended => Met { ends: 1, ..met },
    }
}

/// Continues the open call until it returns, the link isn't ready, or the poll received all bytes that it may.
///
/// The result is what the poll returned and what it met. `now`, in milliseconds, is the moment of the payloads that are read. A poll
/// that takes more turns than can be counted is out of memory.
pub(crate) fn poll_session<L: Link>(
    alloc: Global,
    session: &mut Session,
    link: &mut L,
    tape: &mut Option<Tape>,
    now: u64,
) -> Result<(After, Met), NoMemory>
    ensures polls { IfOk result (λ p. EachPoll session.old.seen session.new.seen
        (L.looks link.old) (L.looks link.new) tape.old tape.new p.1 p.0) }
    ensures within { IfOk result (λ p. p.1.taken ≤ MOST_TAKEN) }
    ensures lives { IfOk result (λ p. Lives now p.1.taken session.old session.new) }
    ensures made { made_in session.new ≡ made_in session.old }
    ensures keeps { is_some tape.new ≡ is_some tape.old }
{
    let mut taken = 0;
    'turns: for _ in 0..u64::MAX {
        match take_turn(alloc, session, link, tape, now, MOST_TAKEN - taken)? {
            Turn::Sent => {}
            Turn::Took(n) => taken = taken + n,
            Turn::Over(halt, after) => return Ok((after, met_at(taken, halt))),
        }
    }
    Err(NoMemory)
}
