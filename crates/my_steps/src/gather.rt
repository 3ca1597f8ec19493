//! A step that gathers the rows of a set.
ghost use Rattle.std.specs.Prelude.{◌≡◌, ◌||◌, [], None, true, false, IfOk};
ghost use Rattle.my_reading.specs.declared.call.CallKind.TheVariants.{NextRow as NextRowKind};
ghost use Rattle.my_session.specs.Sessions.{is_refused};
ghost use Rattle.my_steps.specs.Did.{EachDid, EachFollowed};
ghost use Rattle.my_steps.specs.Gathering.{EachGathers, EachOver, KeepsRow, LeavesOpen, PollsRow, Settles, is_row, row_call};
ghost use Rattle.my_steps.specs.Midst.{is_linked};
ghost use Rattle.my_steps.specs.Polled.{EachPolled};
ghost use Rattle.my_script.specs.declared.action.Work.TheVariants.{Cancel as CancelWork, Poll as PollWork};
ghost use Rattle.my_script.specs.declared.aim.Aim.{Aim};
ghost use Rattle.my_script.specs.declared.aim.Aim.TheVariants.{Rows as RowsAim};
ghost use Rattle.my_steps.specs.declared.slot.Slot.TheVariants.{Gathering as GatheringAt};

use crate::outcome::{StepResult, unused};
use crate::polls::{is_refusing, poll_kind, refused_call};
use crate::slot::Slot;
use my_client::After;
use my_conn::Conn;
use my_frame::NoMemory;
use my_link::{Link, Met};
use my_reading::{Answer, Call, CallKind};
use my_script::{Outcome, Use};
use my_value::Row;
use std::alloc::Global;

// Polls the call of this kind, which is open; where none is, the next row is asked for.
fn poll_row<L: Link>(
    alloc: Global,
    conn: &mut Conn<L>,
    pending: Option<CallKind>,
    now: u64,
) -> Result<(After, Met), NoMemory>
    requires { conn.old.pending ≡ pending }
    ensures polled { IfOk result (λ p. EachPolled L.looks (row_call pending) conn.old conn.new p.1 p.0) }
    ensures left { IfOk result (λ p. LeavesOpen p.0 conn.new.pending) }
{
    match pending {
        Some(kind) => poll_kind(alloc, conn, kind, None, now),
        None => poll_kind(alloc, conn, CallKind::NextRow, Some(Call::NextRow), now),
    }
}

// Keeps the row that came. Where something else did, it is returned.
fn keep_row(rows: &mut Vec<Row>, after: After) -> Result<Option<After>, NoMemory>
    ensures { IfOk result (λ over. KeepsRow rows.old.items rows.new.items after over) }
{
    match after {
        After::Pending => Ok(Some(After::Pending)),
        After::Failed(error) => Ok(Some(After::Failed(error))),
        After::Answered(Answer::Ready) => Ok(Some(After::Answered(Answer::Ready))),
        After::Answered(Answer::SetEnd) => Ok(Some(After::Answered(Answer::SetEnd))),
        After::Answered(Answer::NoSet) => Ok(Some(After::Answered(Answer::NoSet))),
        After::Answered(Answer::Stmt(statement)) => {
            Ok(Some(After::Answered(Answer::Stmt(statement))))
        }
        After::Answered(Answer::Flag(flag)) => Ok(Some(After::Answered(Answer::Flag(flag)))),
        After::Answered(Answer::Row(row)) => {
            rows.push(row)?;
            Ok(None)
        }
    }
}

// One poll: it keeps what was met, and the row that came.
fn gather_row<L: Link>(
    alloc: Global,
    conn: &mut Conn<L>,
    rows: &mut Vec<Row>,
    uses: &mut Vec<Use>,
    pending: Option<CallKind>,
    number: u64,
    now: u64,
) -> Result<Option<After>, NoMemory>
    requires { conn.old.pending ≡ pending }
    ensures { IfOk result (λ over. PollsRow L.looks number pending conn.old conn.new
        rows.old.items rows.new.items uses.old.items uses.new.items over) }
{
    let (after, met) = poll_row(alloc, conn, pending, now)?;
    match uses.push(Use { number, met }) {
        Ok(()) => keep_row(rows, after),
        Err(error) => {
            drop(after);
            Err(error.into())
        }
    }
}

// Polls for rows, until something else comes.
fn gather_rows<L: Link>(
    alloc: Global,
    conn: &mut Conn<L>,
    rows: &mut Vec<Row>,
    uses: &mut Vec<Use>,
    first: Option<CallKind>,
    number: u64,
    now: u64,
) -> Result<After, NoMemory>
    requires pending { conn.old.pending ≡ first }
    requires none { uses.old.items ≡ [] }
    ensures { IfOk result (λ after. EachOver L.looks number first conn.old rows.old.items
        conn.new rows.new.items uses.new.items after) }
{
    let mut pending = first;
    'rows: loop {
        match gather_row(alloc, conn, rows, uses, pending, number, now)? {
            Some(after) => return Ok(after),
            None => {
                // What each poll met is kept, and fits into memory.
                prove!(uses.len() <= usize::MAX);
                pending = None;
            }
        }
    }
}

// What is at the number once the rows were gathered, or the next one is awaited, and what the step shows.
fn settle<L>(conn: Conn<L>, rows: Vec<Row>, after: After) -> (Slot<L>, Outcome)
    requires { is_row after ≡ false }
    ensures settles { Settles conn (GatheringAt conn rows) rows.items after result.0 result.1 }
    ensures linked { is_linked result.0 ≡ true }
{
    match after {
        After::Pending => (Slot::Gathering(conn, rows), Outcome::Pending),
        After::Answered(Answer::SetEnd) => (Slot::There(conn), Outcome::Rows(rows)),
        After::Answered(Answer::NoSet) => (Slot::There(conn), Outcome::Rows(rows)),
        After::Answered(Answer::Ready) => {
            drop(rows);
            (Slot::There(conn), Outcome::Done)
        }
        // No call that gathers rows is answered by a statement, or by a flag.
        After::Answered(Answer::Stmt(statement)) => {
            drop(rows);
            (Slot::There(conn), Outcome::Prepared(statement))
        }
        After::Answered(Answer::Flag(flag)) => {
            drop(rows);
            (Slot::There(conn), Outcome::Flag(flag))
        }
        After::Failed(error) => {
            drop(rows);
            (Slot::There(conn), Outcome::Failed(error))
        }
        After::Answered(Answer::Row(_)) => unreachable!(),
    }
}

// Gathers rows to those that came so far.
fn gather<L: Link>(
    alloc: Global,
    mut conn: Conn<L>,
    mut rows: Vec<Row>,
    pending: Option<CallKind>,
    number: u64,
    now: u64,
) -> (Slot<L>, Result<StepResult, NoMemory>)
    requires { conn.pending ≡ pending }
    ensures did { IfOk result.1 (λ d. EachGathers L.looks number pending conn rows.items result.0 d) }
    ensures linked { is_linked result.0 ≡ true }
{
    let mut uses = Vec::new(alloc);
    match gather_rows(alloc, &mut conn, &mut rows, &mut uses, pending, number, now) {
        Ok(after) => {
            let (slot, outcome) = settle(conn, rows, after);
            (slot, Ok(StepResult { outcome, uses }))
        }
        Err(error) => {
            drop(uses);
            (Slot::Gathering(conn, rows), Err(error))
        }
    }
}

// The connection is closed, and refuses to read a row.
fn collect_refused<L: Link>(
    alloc: Global,
    mut conn: Conn<L>,
    number: u64,
    now: u64,
) -> (Slot<L>, Result<StepResult, NoMemory>)
    requires pending { conn.pending ≡ None }
    requires refused { is_refused (conn.lost || conn.seen.closed) NextRowKind ≡ true }
    ensures did { IfOk result.1 (λ d. EachFollowed L.looks number RowsAim conn result.0 d) }
    ensures linked { is_linked result.0 ≡ true }
{
    let did = refused_call(alloc, &mut conn, CallKind::NextRow, Call::NextRow, now);
    (Slot::There(conn), did)
}

/// Gathers the rows of the set that is read.
pub(crate) fn collect_call<L: Link>(
    alloc: Global,
    conn: Conn<L>,
    number: u64,
    now: u64,
) -> (Slot<L>, Result<StepResult, NoMemory>)
    ensures did { IfOk result.1 (λ d. EachFollowed L.looks number RowsAim conn result.0 d) }
    ensures linked { is_linked result.0 ≡ true }
{
    match conn.open_call() {
        Some(_) => (Slot::There(conn), Ok(unused(alloc, Outcome::NoSuchHandle))),
        None => {
            if is_refusing(&conn, CallKind::NextRow) {
                return collect_refused(alloc, conn, number, now);
            }
            gather(alloc, conn, Vec::new(alloc), None, number, now)
        }
    }
}

/// Continues to gather rows.
pub(crate) fn resume_gathering<L: Link>(
    alloc: Global,
    conn: Conn<L>,
    rows: Vec<Row>,
    number: u64,
    now: u64,
) -> (Slot<L>, Result<StepResult, NoMemory>)
    ensures did { IfOk result.1 (λ d. (aim : Aim) → EachDid L.looks number (PollWork aim) (GatheringAt conn rows) result.0 d) }
    ensures linked { is_linked result.0 ≡ true }
{
    match conn.open_call() {
        None => (
            Slot::Gathering(conn, rows),
            Ok(unused(alloc, Outcome::NoSuchHandle)),
        ),
        Some(kind) => gather(alloc, conn, rows, Some(kind), number, now),
    }
}

/// Cancels the call that gathers rows. The rows that came are dropped.
pub(crate) fn cancel_gathering<L: Link>(
    alloc: Global,
    mut conn: Conn<L>,
    rows: Vec<Row>,
    number: u64,
) -> (Slot<L>, StepResult)
    ensures did { EachDid L.looks number CancelWork (GatheringAt conn rows) result.0 result.1 }
    ensures linked { is_linked result.0 ≡ true }
{
    match conn.open_call() {
        None => (
            Slot::Gathering(conn, rows),
            unused(alloc, Outcome::NoSuchHandle),
        ),
        Some(kind) => {
            drop(rows);
            conn.cancel_call(kind);
            (Slot::There(conn), unused(alloc, Outcome::Done))
        }
    }
}
