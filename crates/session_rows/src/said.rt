//! What a call returned, as text.

use crate::given::add_digits;
use my_frame::CodecFault;
use my_reading::{Answer, DriverError, Error, IoError, IoFault, IoKind};
use my_statements::Statement;
use my_value::{Row, Value};
use std::alloc::AllocError;
use std::fmt::Write;
use std::mem;

fn show_row(text: &mut String, row: &Row) -> Result<(), AllocError> {
    text.push_str("row")?;
    for index in 0..row.len() {
        match row.as_ref(index) {
            Some(Value::Bytes(cell)) => {
                text.push(' ')?;
                add_digits(text, cell.as_slice())?;
            }
            Some(Value::Int(number)) => write!(text, " i:{number}")?,
            Some(Value::NULL) => text.push_str(" null")?,
            _ => text.push_str(" other")?,
        }
    }
    Ok(())
}

fn show_answer(text: &mut String, answer: &Answer) -> Result<(), AllocError> {
    match answer {
        Answer::Ready => text.push_str("ok"),
        Answer::Row(row) => show_row(text, row),
        Answer::SetEnd => text.push_str("end"),
        Answer::NoSet => text.push_str("none"),
        Answer::Flag(flag) => write!(text, "flag {flag}"),
        Answer::Stmt(statement) => write!(
            text,
            "statement {} {} {} {}",
            statement.id(),
            statement.connection_id(),
            statement.num_params(),
            statement.num_columns()
        ),
    }
}

fn show_fault(text: &mut String, fault: IoFault) -> Result<(), AllocError> {
    match fault.kind {
        IoKind::Link => write!(text, "link {}", fault.place),
        IoKind::Dial => text.push_str("dial"),
        IoKind::UnexpectedEof => write!(text, "end {}", fault.place),
        IoKind::InvalidData => write!(text, "unfit {}", fault.place),
    }
}

fn show_plugin(text: &mut String, name: &[u8]) -> Result<(), AllocError> {
    text.push_str("plugin ")?;
    match str::from_utf8(name) {
        Ok(name) => text.push_str(name),
        Err(_) => add_digits(text, name),
    }
}

fn show_refusal(text: &mut String, error: &DriverError) -> Result<(), AllocError> {
    match error {
        DriverError::ConnectionClosed => text.push_str("closed"),
        DriverError::MixedParams => text.push_str("mixed"),
        DriverError::NestedTransaction => text.push_str("nested"),
        DriverError::ReadOnlyTransNotSupported => text.push_str("read only"),
        DriverError::Params(_) => text.push_str("params"),
        DriverError::StmtParamsMismatch { required, supplied } => {
            write!(text, "mismatch {required} {supplied}")
        }
        DriverError::StmtParamsNumberExceedsLimit { supplied } => write!(text, "many {supplied}"),
        DriverError::UnexpectedPacket { payload } => {
            text.push_str("unexpected ")?;
            add_digits(text, payload.as_slice())
        }
        DriverError::UnknownAuthPlugin { name } => show_plugin(text, name.as_slice()),
        DriverError::CleartextPluginDisabled => text.push_str("cleartext"),
        DriverError::MysqlOldPasswordDisabled => text.push_str("old"),
        DriverError::FullAuthRefused => text.push_str("full"),
        _ => text.push_str("driver"),
    }
}

fn show_error(text: &mut String, error: &Error) -> Result<(), AllocError> {
    text.push_str("error ")?;
    match error {
        Error::Driver(error) => show_refusal(text, error),
        Error::Io(IoError::Io(fault)) => show_fault(text, *fault),
        Error::Io(IoError::Codec(CodecFault::OutOfOrder { expected, found })) => {
            write!(text, "number {expected} {found}")
        }
        Error::Io(IoError::Codec(CodecFault::TooLarge { length, limit })) => {
            write!(text, "length {length} {limit}")
        }
        Error::Server(error) => write!(
            text,
            "{} {} {}",
            error.code,
            error.state.as_str(),
            error.message.as_str()
        ),
        Error::Url(_) | Error::Other(_) => text.push_str("outside"),
        Error::NoMemory => text.push_str("memory"),
    }
}

// The statement that a call was answered.
fn statement_in(answer: Answer) -> Option<Statement> {
    match answer {
        Answer::Stmt(statement) => Some(statement),
        other => {
            drop(other);
            None
        }
    }
}

/// Adds an answer. A statement is the last that was prepared from then on.
pub fn answered(
    text: &mut String,
    answer: Answer,
    last: &mut Option<Statement>,
) -> Result<(), AllocError> {
    let shown = show_answer(text, &answer);
    if let Some(statement) = statement_in(answer) {
        drop(mem::replace(last, Some(statement)));
    }
    shown
}

/// Adds an error.
pub fn failed(text: &mut String, error: Error) -> Result<(), AllocError> {
    let shown = show_error(text, &error);
    drop(error);
    shown
}
