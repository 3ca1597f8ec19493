//! What calls return, as words.

use my_conn::NextAnswer;
use my_opts::UrlError;
use my_reading::{Answer, DriverError, Error, IoError, IoKind};
use my_rows::QueryError;
use my_statements::Statement;
use std::alloc::{AllocError, Global};
use std::fmt::Debug;
use std::mem;

// A refusal of the driver.
fn refusal(error: &DriverError) -> &'static str {
    match error {
        DriverError::ConnectionClosed => "error closed",
        DriverError::MixedParams => "error mixed",
        DriverError::NestedTransaction => "error nested",
        DriverError::ReadOnlyTransNotSupported => "error read only",
        DriverError::Params(_) => "error params",
        _ => "error of the driver",
    }
}

// An error from outside.
fn fault(error: &IoError) -> &'static str {
    match error {
        IoError::Io(fault) => match fault.kind {
            IoKind::Link => "error link",
            IoKind::UnexpectedEof => "error end",
            IoKind::Dial | IoKind::InvalidData => "error outside",
        },
        IoError::Codec(_) => "error codec",
    }
}

fn is_of(error: &UrlError, name: &str) -> bool {
    match error {
        UrlError::UnknownParameter { param } => param.as_str() == name,
        _ => false,
    }
}

/// What an error is.
pub fn failure(error: &Error) -> &'static str {
    match error {
        Error::Server(error) if error.code == 1064 => "error 1064",
        Error::Server(error) if error.code == 1045 => "error 1045",
        Error::Driver(error) => refusal(error),
        Error::Io(error) => fault(error),
        Error::Url(error) if is_of(error, "speed") => "error speed",
        Error::Other(error) if error.text.as_str() == "rejected" => "error rejected",
        _ => "error",
    }
}

/// The same of an error that is let go.
pub fn failed(error: Error) -> &'static str {
    let word = failure(&error);
    drop(error);
    word
}

/// What an error of a call that converts rows is.
pub fn refused(error: &QueryError) -> &'static str {
    match error {
        QueryError::Client(error) => failure(error),
        QueryError::FromRow(row) if row.len() == 2 => "error row",
        QueryError::FromRow(_) => "error another row",
    }
}

/// What a call that converts rows returned, in the text of `{:?}`.
pub fn shown<T: Debug + Drop>(
    alloc: Global,
    answer: Result<T, QueryError>,
) -> Result<String, AllocError> {
    let text = match &answer {
        Ok(value) => format!(in alloc; "{value:?}"),
        Err(error) => String::from_str(alloc, refused(error)),
    };
    drop(answer);
    text
}

/// What a caller gets of a call, as a word. A statement is held from then on.
pub trait Word {
    fn word(self, held: &mut Option<Statement>) -> &'static str;
}

// A call that is done.
impl Word for () {
    fn word(self, _held: &mut Option<Statement>) -> &'static str {
        "ok"
    }
}

// A set that was taken or a session that was reset, or neither.
impl Word for bool {
    fn word(self, _held: &mut Option<Statement>) -> &'static str {
        if self { "ok" } else { "none" }
    }
}

// What a pool does with a connection is done.
impl Word for Answer {
    fn word(self, _held: &mut Option<Statement>) -> &'static str {
        let ready = matches!(&self, Answer::Ready);
        drop(self);
        if ready { "ok" } else { "other" }
    }
}

impl Word for NextAnswer {
    fn word(self, _held: &mut Option<Statement>) -> &'static str {
        let word = match &self {
            NextAnswer::Row(_) => "row",
            NextAnswer::SetEnd => "end",
            NextAnswer::NoSet => "none",
        };
        drop(self);
        word
    }
}

// A statement of the id 1 with one parameter, by the name `a` or by its place.
fn statement_word(statement: &Statement) -> &'static str {
    if statement.id() != 1 || statement.num_params() != 1 || statement.names().len() > 1 {
        return "other";
    }
    match statement.names().first() {
        Some(name) if name.as_slice() == b"a".as_slice() => "statement of a",
        Some(_) => "other",
        None => "statement",
    }
}

impl Word for Statement {
    fn word(self, held: &mut Option<Statement>) -> &'static str {
        let word = statement_word(&self);
        drop(mem::replace(held, Some(self)));
        word
    }
}

/// What a call returned.
pub fn word_of<R: Word>(answer: Result<R, Error>, held: &mut Option<Statement>) -> &'static str {
    match answer {
        Ok(value) => value.word(held),
        Err(error) => failed(error),
    }
}
