//! The call that gives a transaction up. It is answered at once, so that no link is needed.
ghost use Rattle.std.specs.Prelude.{◌≡◌, None, is_some, IfOk, OnOk};
ghost use Rattle.my_client.specs.Forgets.{EachAnswered, EachForget};

use crate::notes::{note_call, note_end};
use crate::tape::{Said, Tape};
use my_frame::NoMemory;
use my_reading::{Answer, Call};
use my_session::{Session, SessionStep};
use std::alloc::Global;

// The first step of the open call, which answers it at once. The moment of the last payload stays.
fn step_once(alloc: Global, session: &mut Session) -> Result<Answer, NoMemory>
    ensures answered { IfOk result (λ answer. EachAnswered session.old.seen session.new.seen answer) }
    ensures lifetime { session.new.lifetime ≡ session.old.lifetime }
{
    let last = session.last_io();
    match session.step(alloc, last) {
        SessionStep::Done(answer) => Ok(answer),
        SessionStep::Fault(error) => {
            drop(error);
            Err(NoMemory)
        }
        SessionStep::Send | SessionStep::Need => Err(NoMemory),
    }
}

/// Gives the transaction up, where the server has one: it is rolled back before the next command. Nothing is sent or
/// received.
pub fn forget_open(
    alloc: Global,
    session: &mut Session,
    tape: &mut Option<Tape>,
) -> Result<(), NoMemory>
    requires { session.old.seen.opened ≡ None }
    ensures does { OnOk result (EachForget session.old.seen session.new.seen tape.old tape.new) }
    ensures keeps { OnOk result (is_some tape.new ≡ is_some tape.old) }
    ensures lifetime { session.new.lifetime ≡ session.old.lifetime }
{
    note_call(alloc, tape, &Call::ForgetTransaction)?;
    match session.begin(Call::ForgetTransaction) {
        Ok(()) => {}
        Err(_) => unreachable!(),
    }
    let answer = step_once(alloc, session)?;
    note_end(tape, Said::Answered(answer));
    Ok(())
}
