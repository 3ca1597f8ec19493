//! Steps that read a set, or that a stream makes: it takes a set, reads on in it, and lets it go.
ghost use Rattle.std.specs.Prelude.{◌≡◌, ◌++◌, ◌&&◌, ◌||◌, not, true, false, IfOk};
ghost use Rattle.my_reading.specs.Calls.{is_connect, kind_of};
ghost use Rattle.my_session.specs.Sessions.{is_taken};
ghost use Rattle.my_steps.specs.Did.{EachDid, EachFollowed};
ghost use Rattle.my_steps.specs.Grows.{is_done};
ghost use Rattle.my_steps.specs.Midst.{is_linked};
ghost use Rattle.my_steps.specs.Streaming.{EachFollows, EachSkips};
ghost use Rattle.my_steps.specs.declared.slot.Slot.TheVariants.{There as ThereAt};
ghost use Rattle.my_script.specs.declared.action.Work.TheVariants.{Begin as BeginWork, Read as ReadWork, Item as ItemWork, LetGo as LetGoWork};

use crate::gather::collect_call;
use crate::outcome::{StepResult, unused};
use crate::polls::begin_call;
use crate::slot::Slot;
use my_conn::Conn;
use my_frame::NoMemory;
use my_link::Link;
use my_reading::Call;
use my_script::{Aim, Outcome};
use std::alloc::Global;

fn is_done(outcome: &Outcome) -> bool
    ensures { result ≡ is_done outcome.now }
{
    match outcome {
        Outcome::Done => true,
        _ => false,
    }
}

// What both parts of a step came to.
fn joined(first: StepResult, second: StepResult) -> Result<StepResult, NoMemory>
    ensures outcome { IfOk result (λ d. d.outcome ≡ second.outcome) }
    ensures uses { IfOk result (λ d. d.uses.items ≡ first.uses.items ++ second.uses.items) }
{
    drop(first.outcome);
    let mut uses = first.uses;
    let mut later = second.uses;
    match uses.append(&mut later) {
        Ok(()) => Ok(StepResult {
            outcome: second.outcome,
            uses,
        }),
        Err(error) => {
            drop(second.outcome);
            Err(error.into())
        }
    }
}

/// Begins a call on a connection, which stays there.
pub(crate) fn begin_there<L: Link>(
    alloc: Global,
    mut conn: Conn<L>,
    number: u64,
    now: u64,
    call: Call,
) -> (Slot<L>, Result<StepResult, NoMemory>)
    requires { is_connect (kind_of call) ≡ false }
    ensures did { IfOk result.1 (λ d. EachDid L.looks number (BeginWork call) (ThereAt conn) result.0 d) }
    ensures linked { is_linked result.0 ≡ true }
{
    let did = begin_call(alloc, &mut conn, number, now, call);
    (Slot::There(conn), did)
}

// Takes a set for a stream, reads its next row, or gathers its rows.
fn follow<L: Link>(
    alloc: Global,
    conn: Conn<L>,
    number: u64,
    now: u64,
    aim: Aim,
) -> (Slot<L>, Result<StepResult, NoMemory>)
    ensures did { IfOk result.1 (λ d. EachFollowed L.looks number aim conn result.0 d) }
    ensures linked { is_linked result.0 ≡ true }
{
    match aim {
        Aim::Take => begin_there(alloc, conn, number, now, Call::TakeSet),
        Aim::Row => begin_there(alloc, conn, number, now, Call::NextRow),
        Aim::Rows => collect_call(alloc, conn, number, now),
    }
}

/// Once the rest of the earlier set was passed over, reads on.
pub(crate) fn then_read<L: Link>(
    alloc: Global,
    conn: Conn<L>,
    number: u64,
    now: u64,
    aim: Aim,
    skipped: StepResult,
) -> (Slot<L>, Result<StepResult, NoMemory>)
    ensures did { IfOk result.1 (λ d. EachFollows L.looks number aim conn result.0 skipped d) }
    ensures linked { is_linked result.0 ≡ true }
{
    if !is_done(&skipped.outcome) {
        return (Slot::There(conn), Ok(skipped));
    }
    let (slot, read) = follow(alloc, conn, number, now, aim);
    match read {
        Ok(read) => (slot, joined(skipped, read)),
        Err(error) => {
            drop(skipped);
            (slot, Err(error))
        }
    }
}

// Whether a stream took the set that is read, or whose end is left, on an open connection.
fn has_taken<L>(conn: &Conn<L>) -> bool
    ensures { result ≡ not (conn.now.lost || conn.now.seen.closed) && is_taken conn.now.seen }
{
    !conn.is_disconnected() && conn.is_taken()
}

// Passes over the rest of the set that an earlier stream took, and then reads on.
fn skip_call<L: Link>(
    alloc: Global,
    mut conn: Conn<L>,
    number: u64,
    now: u64,
    aim: Aim,
) -> (Slot<L>, Result<StepResult, NoMemory>)
    ensures did { IfOk result.1 (λ d. EachSkips L.looks number aim conn result.0 d) }
    ensures linked { is_linked result.0 ≡ true }
{
    match begin_call(alloc, &mut conn, number, now, Call::SkipTaken) {
        Ok(skipped) => then_read(alloc, conn, number, now, aim, skipped),
        Err(error) => (Slot::There(conn), Err(error)),
    }
}

/// Lets a stream take the set that is read, or the next one, reads its next row, or gathers its rows; the rest of a set
/// that an earlier stream took is passed over first.
pub(crate) fn read_call<L: Link>(
    alloc: Global,
    conn: Conn<L>,
    number: u64,
    now: u64,
    aim: Aim,
) -> (Slot<L>, Result<StepResult, NoMemory>)
    ensures did { IfOk result.1 (λ d. EachDid L.looks number (ReadWork aim) (ThereAt conn) result.0 d) }
    ensures linked { is_linked result.0 ≡ true }
{
    match conn.open_call() {
        Some(_) => (Slot::There(conn), Ok(unused(alloc, Outcome::NoSuchHandle))),
        None => {
            if has_taken(&conn) {
                return skip_call(alloc, conn, number, now, aim);
            }
            follow(alloc, conn, number, now, aim)
        }
    }
}

/// Reads the next row of a stream's set; where that isn't the one that is read any more, nothing is left.
pub(crate) fn item_call<L: Link>(
    alloc: Global,
    conn: &mut Conn<L>,
    number: u64,
    now: u64,
) -> Result<StepResult, NoMemory>
    ensures { IfOk result (λ d. EachDid L.looks number ItemWork (ThereAt conn.old) (ThereAt conn.new) d) }
{
    match conn.open_call() {
        Some(_) => Ok(unused(alloc, Outcome::NoSuchHandle)),
        None => {
            if has_taken(conn) {
                return begin_call(alloc, conn, number, now, Call::NextRow);
            }
            Ok(unused(alloc, Outcome::NoSet))
        }
    }
}

/// Lets a stream go, which changes nothing, unless a call is open.
pub(crate) fn let_go<L: Link>(alloc: Global, conn: &Conn<L>, number: u64) -> StepResult
    ensures { EachDid L.looks number LetGoWork (ThereAt conn.now) (ThereAt conn.now) result }
{
    match conn.open_call() {
        Some(_) => unused(alloc, Outcome::NoSuchHandle),
        None => unused(alloc, Outcome::Done),
    }
}
