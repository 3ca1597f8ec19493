//! A call on a session, from its beginning to its end, noted on the tape, where one is kept.
ghost use Rattle.std.specs.Prelude.{◌≡◌, Some, None, is_some, IfOk, OnOk};
ghost use Rattle.my_link.specs.Met.{nothing_met};
ghost use Rattle.my_grammar.specs.declared.login.Login.{Login};
ghost use Rattle.my_client.specs.Ends.{kept_after};
ghost use Rattle.my_client.specs.Kept.{Asked, Kept};
ghost use Rattle.my_client.specs.Notes.{Agrees};
ghost use Rattle.my_client.specs.Drives.{CancelLeaves, closes_by};
ghost use Rattle.my_client.specs.Lives.{made_in};
ghost use Rattle.my_client.specs.Stands.{Waits};
ghost use Rattle.my_client.specs.Calls.{EachCall, Leaves, MayStart};
ghost use Rattle.my_client.specs.Cancels.{EachCancel};

use crate::notes::{note_after, note_call, note_end};
use crate::poll::{After, poll_session};
use crate::tape::{Said, Tape};
use my_frame::NoMemory;
use my_link::{Link, Met};
use my_reading::{Call, Error};
use my_session::Session;
use std::alloc::Global;

/// Polls the open call once, at the moment `now`.
pub(crate) fn poll_open<L: Link>(
    alloc: Global,
    session: &mut Session,
    link: &mut L,
    tape: &mut Option<Tape>,
    now: u64,
) -> Result<(After, Met), NoMemory>
    ensures does { IfOk result (λ p. EachCall None session.old.seen session.new.seen
        (L.looks link.old) (L.looks link.new) tape.old tape.new p.1 p.0) }
    ensures leaves { IfOk result (λ p. Leaves now p.1.taken session.old session.new tape.old tape.new) }
    ensures made { made_in session.new ≡ made_in session.old }
{
    let (after, met) = poll_session(alloc, session, link, tape, now)?;
    match note_after(alloc, tape, &after) {
        Ok(()) => Ok((after, met)),
        Err(NoMemory) => {
            drop(after);
            Err(NoMemory)
        }
    }
}

// Notes that the call that began is refused with this error, and returns what its poll returns.
fn note_refusal(
    alloc: Global,
    tape: &mut Option<Tape>,
    error: Error,
) -> Result<(After, Met), NoMemory>
    ensures after { IfOk result (λ p. p.0 ≡ After.Failed error) }
    ensures met { IfOk result (λ p. p.1 ≡ nothing_met) }
    ensures noted { OnOk result ((k : Kept) (a : Asked) → Agrees tape.old k → k.pending ≡ Some a
        → Agrees tape.new (kept_after k a (After.Failed error))) }
    ensures keeps { OnOk result (is_some tape.new ≡ is_some tape.old) }
{
    let after = After::Failed(error);
    match note_after(alloc, tape, &after) {
        Ok(()) => Ok((after, Met::nothing())),
        Err(NoMemory) => {
            drop(after);
            Err(NoMemory)
        }
    }
}

// Begins a call, and polls it once.
fn begin_call<L: Link>(
    alloc: Global,
    session: &mut Session,
    link: &mut L,
    tape: &mut Option<Tape>,
    call: Call,
    now: u64,
) -> Result<(After, Met), NoMemory>
    requires { session.old.seen.opened ≡ None }
    ensures does { IfOk result (λ p. EachCall (Some call) session.old.seen session.new.seen
        (L.looks link.old) (L.looks link.new) tape.old tape.new p.1 p.0) }
    ensures leaves { IfOk result (λ p. Leaves now p.1.taken session.old session.new tape.old tape.new) }
    ensures made { made_in session.new ≡ made_in session.old }
{
    match note_call(alloc, tape, &call) {
        Ok(()) => match session.begin(call) {
            Ok(()) => poll_open(alloc, session, link, tape, now),
            Err(error) => note_refusal(alloc, tape, error),
        },
        Err(NoMemory) => {
            drop(call);
            Err(NoMemory)
        }
    }
}

/// Polls a call once, at the moment `now`: `call` begins, or where there is none, the open one continues.
pub fn poll_once<L: Link>(
    alloc: Global,
    session: &mut Session,
    link: &mut L,
    tape: &mut Option<Tape>,
    call: Option<Call>,
    now: u64,
) -> Result<(After, Met), NoMemory>
    requires { MayStart call session.old.seen }
    ensures does { IfOk result (λ p. EachCall call session.old.seen session.new.seen
        (L.looks link.old) (L.looks link.new) tape.old tape.new p.1 p.0) }
    ensures leaves { IfOk result (λ p. Leaves now p.1.taken session.old session.new tape.old tape.new) }
    ensures made { made_in session.new ≡ made_in session.old }
{
    match call {
        None => return poll_open(alloc, session, link, tape, now),
        Some(call) => return begin_call(alloc, session, link, tape, call, now),
    }
}

// Cancels the session's open call, and returns whether that closed it.
fn cancel_session(session: &mut Session) -> bool
    ensures cancels { (login : Login) (k : Kept) (a : Asked) → Waits login session.old.seen k a
        → CancelLeaves login session.old.seen session.new.seen k a }
    ensures closing { result ≡ closes_by session.old.seen session.new.seen }
    ensures lifetime { session.new.lifetime ≡ session.old.lifetime }
{
    let was_closed = session.is_closed();
    session.cancel();
    session.is_closed() && !was_closed
}

/// Cancels the open call. It takes no memory.
pub fn cancel_open(session: &mut Session, tape: &mut Option<Tape>)
    ensures lifetime { session.new.lifetime ≡ session.old.lifetime }
    ensures does { EachCancel session.old.seen session.new.seen tape.old tape.new }
    ensures keeps { is_some tape.new ≡ is_some tape.old }
{
    let closing = cancel_session(session);
    note_end(tape, Said::Cancelled(closing));
}
