//! What a call returned.

ghost use Rattle.std.specs.Prelude.{◌≡◌, Err, Ok, Some};
ghost use Rattle.std.specs.Bool.{Decides};
ghost use Rattle.my_run_judge.specs.Lines.{AreRows, IsGathered};

use my_judge::{is_same_error, is_same_row};
use my_reading::{Answer, Error};
use my_script::TapeCall;
use my_statements::Statement;
use my_statements::laws::equal_statements_are_same;
use my_value::Row;

/// Whether both are the same to their callers.
pub fn is_same_statement(a: &Statement, b: &Statement) -> bool
    ensures { Decides result (a.now ≡ b.now) }
{
    equal_statements_are_same();
    a == b
}

/// Whether the call returned this row.
pub fn is_row(row: &Row, answer: &Option<Result<Answer, Error>>) -> bool
    ensures { Decides result (answer.now ≡ Some (Ok (Answer.Row row.now))) }
{
    match answer {
        Some(Ok(Answer::Row(other))) => is_same_row(other, row),
        _ => false,
    }
}

fn are_rows(rows: &[Row], calls: &[TapeCall]) -> bool
    ensures { Decides result (AreRows rows.now calls.now) }
{
    let mut left = rows;
    let mut others = calls;
    'rows: while let Some((row, later_rows)) = left.split_first() {
        let Some((call, later_calls)) = others.split_first() else {
            return false;
        };
        if !is_row(row, &call.answer) {
            return false;
        }
        left = later_rows;
        others = later_calls;
    }
    others.is_empty()
}

/// Whether the call returned this statement.
pub fn is_statement(statement: &Statement, answer: &Option<Result<Answer, Error>>) -> bool
    ensures { Decides result (answer.now ≡ Some (Ok (Answer.Stmt statement.now))) }
{
    match answer {
        Some(Ok(Answer::Stmt(other))) => is_same_statement(other, statement),
        _ => false,
    }
}

/// Whether the call returned this flag.
pub fn is_flag(flag: bool, answer: &Option<Result<Answer, Error>>) -> bool
    ensures { Decides result (answer.now ≡ Some (Ok (Answer.Flag flag))) }
{
    match answer {
        Some(Ok(Answer::Flag(other))) => *other == flag,
        _ => false,
    }
}

/// Whether the call is done.
pub fn is_ready(answer: &Option<Result<Answer, Error>>) -> bool
    ensures { Decides result (answer.now ≡ Some (Ok Answer.Ready)) }
{
    match answer {
        Some(Ok(Answer::Ready)) => true,
        _ => false,
    }
}

/// Whether the set that is read ended.
pub fn is_set_end(answer: &Option<Result<Answer, Error>>) -> bool
    ensures { Decides result (answer.now ≡ Some (Ok Answer.SetEnd)) }
{
    match answer {
        Some(Ok(Answer::SetEnd)) => true,
        _ => false,
    }
}

/// Whether no set is left.
pub fn is_no_set(answer: &Option<Result<Answer, Error>>) -> bool
    ensures { Decides result (answer.now ≡ Some (Ok Answer.NoSet)) }
{
    match answer {
        Some(Ok(Answer::NoSet)) => true,
        _ => false,
    }
}

/// Whether the call failed so.
pub fn is_error(error: &Error, answer: &Option<Result<Answer, Error>>) -> bool
    ensures { Decides result (answer.now ≡ Some (Err error.now)) }
{
    match answer {
        Some(Err(other)) => is_same_error(other, error),
        _ => false,
    }
}

/// Whether a gathering ended, and these calls returned its rows.
pub fn is_gathered(
    rows: &[Row],
    answer: &Option<Result<Answer, Error>>,
    before: &[TapeCall],
) -> bool
    ensures { Decides result (IsGathered rows.now answer.now before.now) }
{
    if is_set_end(answer) || is_no_set(answer) {
        are_rows(rows, before)
    } else {
        false
    }
}
