//! A step that polls a connection's open call.
ghost use Rattle.std.specs.Prelude.{◌≡◌, Some, true, IfOk};
ghost use Rattle.my_script.specs.Streams.{is_skip};
ghost use Rattle.my_steps.specs.Did.{EachDid};
ghost use Rattle.my_steps.specs.Midst.{is_linked};
ghost use Rattle.my_steps.specs.declared.slot.Slot.TheVariants.{There as ThereAt};
ghost use Rattle.my_script.specs.declared.action.Work.TheVariants.{Poll as PollWork};

use crate::outcome::{StepResult, unused};
use crate::polls::poll_shown;
use crate::slot::Slot;
use crate::stream::then_read;
use my_conn::Conn;
use my_frame::NoMemory;
use my_link::Link;
use my_reading::CallKind;
use my_script::{Aim, Outcome};
use std::alloc::Global;

// Whether a call of this kind passes over the rest of a set that a stream took.
fn is_skip(kind: CallKind) -> bool
    ensures { result ≡ is_skip kind }
{
    match kind {
        CallKind::SkipTaken => true,
        _ => false,
    }
}

// Polls the open call, which passes over the rest of a set, and then reads on.
fn resume_skip<L: Link>(
    alloc: Global,
    mut conn: Conn<L>,
    number: u64,
    now: u64,
    aim: Aim,
    kind: CallKind,
) -> (Slot<L>, Result<StepResult, NoMemory>)
    requires pending { conn.pending ≡ Some kind }
    requires skips { is_skip kind ≡ true }
    ensures did { IfOk result.1 (λ d. EachDid L.looks number (PollWork aim) (ThereAt conn) result.0 d) }
    ensures linked { is_linked result.0 ≡ true }
{
    match poll_shown(alloc, &mut conn, number, kind, None, now) {
        Ok(skipped) => then_read(alloc, conn, number, now, aim, skipped),
        Err(error) => (Slot::There(conn), Err(error)),
    }
}

/// Polls the open call; where it passes over the rest of a set, reads on then.
pub(crate) fn resume_there<L: Link>(
    alloc: Global,
    mut conn: Conn<L>,
    number: u64,
    now: u64,
    aim: Aim,
) -> (Slot<L>, Result<StepResult, NoMemory>)
    ensures did { IfOk result.1 (λ d. EachDid L.looks number (PollWork aim) (ThereAt conn) result.0 d) }
    ensures linked { is_linked result.0 ≡ true }
{
    match conn.open_call() {
        None => (Slot::There(conn), Ok(unused(alloc, Outcome::NoSuchHandle))),
        Some(kind) => {
            if is_skip(kind) {
                return resume_skip(alloc, conn, number, now, aim, kind);
            }
            let did = poll_shown(alloc, &mut conn, number, kind, None, now);
            (Slot::There(conn), did)
        }
    }
}
