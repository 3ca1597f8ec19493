//! The calls of a connection as a transcript shows them.

ghost use Rattle.std.specs.Prelude.{◌≡◌, ◌++◌, map, IfOk};
ghost use Rattle.my_client.specs.Conn.{asked_in};
ghost use Rattle.my_run.specs.Tapes.{answer_in as answer_of, tape_call as call_of, open_call as open_of};

use my_client::{DoneCall, OpenCall, Said};
use my_frame::NoMemory;
use my_reading::{Answer, Error};
use my_script::TapeCall;
use std::alloc::Global;

// A call that was cancelled has no answer.
fn answer_in(said: Said) -> Option<Result<Answer, Error>>
    ensures { result ≡ answer_of said }
{
    match said {
        Said::Answered(answer) => Some(Ok(answer)),
        Said::Failed(error) => Some(Err(error)),
        Said::Cancelled(_) => None,
    }
}

fn tape_call(call: DoneCall) -> TapeCall
    ensures { result ≡ call_of call }
{
    TapeCall {
        call: call.call,
        sent_from: call.sent_from,
        answer: answer_in(call.said),
    }
}

// Nor has an open call.
fn open_call(alloc: Global, pending: Option<OpenCall>) -> Result<Vec<TapeCall>, NoMemory>
    ensures { IfOk result (λ tape. tape.items ≡ open_of (asked_in pending)) }
{
    let mut tape = Vec::new(alloc);
    if let Some(open) = pending {
        tape.push(TapeCall {
            call: open.call,
            sent_from: open.sent_from,
            answer: None,
        })?;
    }
    Ok(tape)
}

/// The calls of a connection as a transcript shows them, the oldest first.
pub(crate) fn tape_calls(
    alloc: Global,
    mut calls: Vec<DoneCall>,
    pending: Option<OpenCall>,
) -> Result<Vec<TapeCall>, NoMemory>
    ensures { IfOk result (λ tape. tape.items ≡ map call_of calls.items ++ open_of (asked_in pending)) }
{
    let mut tape = open_call(alloc, pending)?;
    'calls: while let Some(call) = calls.pop() {
        tape.push(tape_call(call))?;
    }
    tape.reverse();
    Ok(tape)
}
