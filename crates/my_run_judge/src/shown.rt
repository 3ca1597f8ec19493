//! What a line shows of calls, and what the tape says of them.

ghost use Rattle.std.specs.Prelude.{◌≡◌, Bool, None, Some};
ghost use Rattle.std.specs.Bool.{Decides};
ghost use Rattle.std.specs.Option.{option_copied};
ghost use Rattle.my_reading.specs.Calls.{kind_of};
ghost use Rattle.my_script.specs.Streams.{is_skip};
ghost use Rattle.my_script.specs.Actions.{close_work, execute_work, next_call, reading_call, work_call};
ghost use Rattle.my_run_judge.specs.Acts.{begun_by};
ghost use Rattle.my_run_judge.specs.Lines.{
  IsBegun,
  IsCallOf,
  IsShown,
  IsShownAt,
  IsSkip,
  MayEnd,
  is_pending,
  is_unanswered,
};

use crate::answered::{
    is_error, is_flag, is_gathered, is_no_set, is_ready, is_row, is_same_statement, is_set_end,
    is_statement,
};
use my_frame::Blob;
use my_opts::ChangeUserOpts;
use my_opts_parts::TxOpts;
use my_params::Params;
use my_reading::{Answer, Call, Error};
use my_script::{Aim, Outcome, Step, TapeCall};
use my_statements::Statement;

fn is_query(text: &Blob, call: &Call) -> bool
    ensures { Decides result (call.now ≡ Call.Query text.now) }
{
    match call {
        Call::Query(other) => other == text,
        _ => false,
    }
}

fn is_prepare(text: &Blob, call: &Call) -> bool
    ensures { Decides result (call.now ≡ Call.Prepare text.now) }
{
    match call {
        Call::Prepare(other) => other == text,
        _ => false,
    }
}

fn is_same_params(a: &Params, b: &Params) -> bool
    ensures { Decides result (a.now ≡ b.now) }
{
    a == b
}

fn is_execution(statement: &Statement, params: &Params, call: &Call) -> bool
    ensures { Decides result (call.now ≡ Call.Execute statement.now params.now) }
{
    match call {
        Call::Execute(other, values) => {
            is_same_statement(other, statement) && is_same_params(values, params)
        }
        _ => false,
    }
}

// Whether the call executes this statement, where it is there.
fn is_executed(named: Option<&Statement>, params: &Params, call: &Call) -> bool
    ensures { (taken : Bool) → Decides result (
        IsCallOf (work_call taken (execute_work (option_copied named.entry) params.now)) call.now) }
{
    match named {
        Some(statement) => is_execution(statement, params, call),
        None => true,
    }
}

fn is_close(id: u32, call: &Call) -> bool
    ensures { Decides result (call.now ≡ Call.CloseStmt id) }
{
    match call {
        Call::CloseStmt(other) => *other == id,
        _ => false,
    }
}

// Whether the call closes this statement, where it is there.
fn is_closed(named: Option<&Statement>, call: &Call) -> bool
    ensures { (taken : Bool) → Decides result (
        IsCallOf (work_call taken (close_work (option_copied named.entry))) call.now) }
{
    match named {
        Some(statement) => is_close(statement.id(), call),
        None => true,
    }
}

fn is_connect(call: &Call) -> bool
    ensures { Decides result (call.now ≡ Call.Connect) }
{
    match call {
        Call::Connect => true,
        _ => false,
    }
}

fn is_take(call: &Call) -> bool
    ensures { Decides result (call.now ≡ Call.TakeSet) }
{
    match call {
        Call::TakeSet => true,
        _ => false,
    }
}

fn is_skip(call: &Call) -> bool
    ensures { Decides result (call.now ≡ Call.SkipTaken) }
{
    match call {
        Call::SkipTaken => true,
        _ => false,
    }
}

fn passes_over(call: &Call) -> bool
    ensures { result ≡ is_skip (kind_of call.now) }
{
    match call {
        Call::SkipTaken => true,
        _ => false,
    }
}

/// Whether the call asks for the next row.
pub fn is_next(call: &Call) -> bool
    ensures { Decides result (call.now ≡ Call.NextRow) }
{
    match call {
        Call::NextRow => true,
        _ => false,
    }
}

// Whether the call takes a set, or reads its row.
fn is_following(aim: Aim, call: &Call) -> bool
    ensures { Decides result (call.now ≡ next_call aim) }
{
    match aim {
        Aim::Take => is_take(call),
        Aim::Row | Aim::Rows => is_next(call),
    }
}

// Whether it does so where no stream took the set that is read, or passes over the rest of that one.
fn is_reading(taken: bool, aim: Aim, call: &Call) -> bool
    ensures { Decides result (call.now ≡ reading_call taken aim) }
{
    if taken {
        is_skip(call)
    } else {
        is_following(aim, call)
    }
}

fn is_drop(call: &Call) -> bool
    ensures { Decides result (call.now ≡ Call.DropResult) }
{
    match call {
        Call::DropResult => true,
        _ => false,
    }
}

fn is_ping(call: &Call) -> bool
    ensures { Decides result (call.now ≡ Call.Ping) }
{
    match call {
        Call::Ping => true,
        _ => false,
    }
}

fn is_reset(call: &Call) -> bool
    ensures { Decides result (call.now ≡ Call.Reset) }
{
    match call {
        Call::Reset => true,
        _ => false,
    }
}

fn is_change_of_user(change: &ChangeUserOpts, call: &Call) -> bool
    ensures { Decides result (call.now ≡ Call.ChangeUser change.now) }
{
    match call {
        Call::ChangeUser(other) => other == change,
        _ => false,
    }
}

fn is_begin(opts: TxOpts, call: &Call) -> bool
    ensures { Decides result (call.now ≡ Call.Begin opts) }
{
    match call {
        Call::Begin(other) => *other == opts,
        _ => false,
    }
}

fn is_commit(call: &Call) -> bool
    ensures { Decides result (call.now ≡ Call.Commit) }
{
    match call {
        Call::Commit => true,
        _ => false,
    }
}

fn is_rollback(call: &Call) -> bool
    ensures { Decides result (call.now ≡ Call.Rollback) }
{
    match call {
        Call::Rollback => true,
        _ => false,
    }
}

fn is_forget(call: &Call) -> bool
    ensures { Decides result (call.now ≡ Call.ForgetTransaction) }
{
    match call {
        Call::ForgetTransaction => true,
        _ => false,
    }
}

fn is_quit(call: &Call) -> bool
    ensures { Decides result (call.now ≡ Call.Quit) }
{
    match call {
        Call::Quit => true,
        _ => false,
    }
}

// Whether the step begins this call.
fn begins(taken: bool, named: Option<&Statement>, step: &Step, call: &Call) -> bool
    ensures { Decides result (IsCallOf (begun_by taken (option_copied named.entry) step.now) call.now) }
{
    match step {
        Step::Conn => is_connect(call),
        Step::Query(_, text) => is_query(text, call),
        Step::Prepare(_, text) => is_prepare(text, call),
        Step::Execute(_, _, params) => is_executed(named, params, call),
        Step::CloseStatement(_, _) => is_closed(named, call),
        Step::Next(_) => is_reading(taken, Aim::Row, call),
        Step::Collect(_) => is_reading(taken, Aim::Rows, call),
        Step::Stream(_) => is_reading(taken, Aim::Take, call),
        Step::Item(_) => is_next(call),
        Step::Drop(_) => is_drop(call),
        Step::Ping(_) => is_ping(call),
        Step::Reset(_) => is_reset(call),
        Step::User(_, change) => is_change_of_user(change, call),
        Step::Begin(_, opts) => is_begin(*opts, call),
        Step::Commit(_) => is_commit(call),
        Step::Rollback(_) => is_rollback(call),
        Step::ForgetTransaction(_) => is_forget(call),
        Step::Quit(_) => is_quit(call),
        Step::Unstream(_)
        | Step::Fields(_)
        | Step::Poll(_)
        | Step::Cancel(_)
        | Step::Advance(_)
        | Step::Random(_) => true,
    }
}

/// Whether the call in turn is the one that the step begins, if it begins one, where a stream took the set that is read
/// or none did, and with the statement that the step names.
pub fn is_begun(
    taken: bool,
    named: Option<&Statement>,
    step: &Step,
    call: Option<&TapeCall>,
) -> bool
    ensures { let begun = begun_by taken (option_copied named.entry) step.now in
        Decides result (IsBegun begun (option_copied call.entry)) }
{
    match call {
        Some(call) => begins(taken, named, step, &call.call),
        None => match step {
            Step::Execute(_, _, _) | Step::CloseStatement(_, _) => named.is_none(),
            Step::Unstream(_)
            | Step::Fields(_)
            | Step::Poll(_)
            | Step::Cancel(_)
            | Step::Advance(_)
            | Step::Random(_) => true,
            _ => false,
        },
    }
}

fn is_shown(outcome: &Outcome, answer: &Option<Result<Answer, Error>>, before: &[TapeCall]) -> bool
    ensures { Decides result (IsShown outcome.now answer.now before.now) }
{
    match outcome {
        Outcome::Done | Outcome::Connected(_, _, _) => is_ready(answer),
        Outcome::SetEnd => is_set_end(answer),
        Outcome::NoSet => is_no_set(answer),
        Outcome::Row(row) => is_row(row, answer),
        Outcome::Rows(rows) => is_gathered(rows.as_slice(), answer, before),
        Outcome::Prepared(statement) => is_statement(statement, answer),
        Outcome::Flag(flag) => is_flag(*flag, answer),
        Outcome::Failed(error) => is_error(error, answer),
        Outcome::Pending | Outcome::Fields(_) | Outcome::NoSuchHandle => false,
    }
}

// Whether a line with this outcome may end with the call.
fn may_end(outcome: &Outcome, call: &Call) -> bool
    ensures { Decides result (MayEnd outcome.now call.now) }
{
    match outcome {
        Outcome::Done => !passes_over(call),
        _ => true,
    }
}

/// Whether the call in turn passed over the rest of a set that a stream took.
pub fn is_skipped(call: Option<&TapeCall>) -> bool
    ensures { Decides result (IsSkip (option_copied call.entry)) }
{
    match call {
        Some(call) => is_skip(&call.call) && is_ready(&call.answer),
        None => false,
    }
}

/// Whether the call takes a set, or reads its row.
pub fn is_followed_by(aim: Aim, call: Option<&TapeCall>) -> bool
    ensures { Decides result (IsBegun (Some (next_call aim)) (option_copied call.entry)) }
{
    match call {
        Some(call) => is_following(aim, &call.call),
        None => false,
    }
}

/// Whether the line shows how the call in turn ended; these are the calls of its gathering before it.
pub fn is_shown_at(outcome: &Outcome, call: Option<&TapeCall>, before: &[TapeCall]) -> bool
    ensures { Decides result (IsShownAt outcome.now (option_copied call.entry) before.now) }
{
    match call {
        Some(call) => is_shown(outcome, &call.answer, before) && may_end(outcome, &call.call),
        None => false,
    }
}

/// Whether the call in turn is open.
pub fn is_unanswered(call: Option<&TapeCall>) -> bool
    ensures { Decides result (is_unanswered (option_copied call.entry)) }
{
    match call {
        Some(call) => call.answer.is_none(),
        None => false,
    }
}

/// Whether the call that was polled last is open.
pub fn is_pending(outcome: &Outcome) -> bool
    ensures { result ≡ is_pending outcome.now }
{
    match outcome {
        Outcome::Pending => true,
        _ => false,
    }
}
