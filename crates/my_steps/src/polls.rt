//! A poll of a connection's call, a step that begins a call, and one that cancels it.
ghost use Rattle.std.specs.Prelude.{◌≡◌, ◌||◌, None, Some, true, false, IfOk};
ghost use Rattle.my_reading.specs.Calls.{is_connect, kind_of};
ghost use Rattle.my_session.specs.Sessions.{is_refused};
ghost use Rattle.my_client.specs.Calls.{MayPoll, pending_after};
ghost use Rattle.my_steps.specs.Did.{EachDid};
ghost use Rattle.my_steps.specs.Polled.{EachPolled, EachRefused, EachShown, ran_out as ran_out_in};
ghost use Rattle.my_steps.specs.declared.slot.Slot.TheVariants.{There as ThereAt};
ghost use Rattle.my_script.specs.declared.action.Work.TheVariants.{Begin as BeginWork, Cancel as CancelWork};

use crate::outcome::{StepResult, shown, unused, used_once};
use my_client::After;
use my_conn::Conn;
use my_frame::NoMemory;
use my_link::{Link, Met};
use my_machine::is_unrefused;
use my_reading::{Call, CallKind, Error};
use my_script::{Outcome, Use};
use std::alloc::Global;

// Whether memory ran out in a poll.
fn ran_out(after: &After) -> bool
    ensures { result ≡ ran_out_in after.now }
{
    match after {
        After::Failed(Error::NoMemory) => true,
        _ => false,
    }
}

/// Polls a call of this kind once, at this moment: `call` begins, or where there is none, the open one continues.
pub(crate) fn poll_kind<L: Link>(
    alloc: Global,
    conn: &mut Conn<L>,
    kind: CallKind,
    call: Option<Call>,
    now: u64,
) -> Result<(After, Met), NoMemory>
    requires { MayPoll kind call conn.old.pending }
    ensures polled { IfOk result (λ p. EachPolled L.looks call conn.old conn.new p.1 p.0) }
    ensures left { IfOk result (λ p. conn.new.pending ≡ pending_after kind p.0) }
{
    let (after, met) = conn.poll_call(alloc, kind, call, now);
    if ran_out(&after) {
        drop(after);
        return Err(NoMemory);
    }
    Ok((after, met))
}

/// Polls it, as a step of one call shows it.
pub(crate) fn poll_shown<L: Link>(
    alloc: Global,
    conn: &mut Conn<L>,
    number: u64,
    kind: CallKind,
    call: Option<Call>,
    now: u64,
) -> Result<StepResult, NoMemory>
    requires { MayPoll kind call conn.old.pending }
    ensures { IfOk result (λ d. EachShown L.looks number call conn.old conn.new d) }
{
    let (after, met) = poll_kind(alloc, conn, kind, call, now)?;
    used_once(alloc, shown(after), Use { number, met })
}

/// Whether the connection is closed, and refuses a call of this kind.
pub(crate) fn is_refusing<L>(conn: &Conn<L>, kind: CallKind) -> bool
    ensures { result ≡ is_refused (conn.now.lost || conn.now.seen.closed) kind }
{
    conn.is_disconnected() && !is_unrefused(kind)
}

/// Begins a call that the connection refuses.
pub(crate) fn refused_call<L: Link>(
    alloc: Global,
    conn: &mut Conn<L>,
    kind: CallKind,
    call: Call,
    now: u64,
) -> Result<StepResult, NoMemory>
    requires may { MayPoll kind (Some call) conn.old.pending }
    requires refused { is_refused (conn.old.lost || conn.old.seen.closed) kind ≡ true }
    ensures { IfOk result (λ d. EachRefused L.looks call conn.old conn.new d) }
{
    let (after, _) = poll_kind(alloc, conn, kind, Some(call), now)?;
    Ok(unused(alloc, shown(after)))
}

/// Begins a call, and polls it.
pub(crate) fn begin_call<L: Link>(
    alloc: Global,
    conn: &mut Conn<L>,
    number: u64,
    now: u64,
    call: Call,
) -> Result<StepResult, NoMemory>
    requires { is_connect (kind_of call) ≡ false }
    ensures { IfOk result (λ d. EachDid L.looks number (BeginWork call) (ThereAt conn.old) (ThereAt conn.new) d) }
{
    match conn.open_call() {
        Some(_) => {
            drop(call);
            Ok(unused(alloc, Outcome::NoSuchHandle))
        }
        None => {
            let kind = call.kind();
            if is_refusing(conn, kind) {
                return refused_call(alloc, conn, kind, call, now);
            }
            poll_shown(alloc, conn, number, kind, Some(call), now)
        }
    }
}

/// Cancels the open call.
pub(crate) fn cancel_there<L: Link>(alloc: Global, conn: &mut Conn<L>, number: u64) -> StepResult
    ensures { EachDid L.looks number CancelWork (ThereAt conn.old) (ThereAt conn.new) result }
{
    match conn.open_call() {
        None => unused(alloc, Outcome::NoSuchHandle),
        Some(kind) => {
            conn.cancel_call(kind);
            unused(alloc, Outcome::Done)
        }
    }
}
