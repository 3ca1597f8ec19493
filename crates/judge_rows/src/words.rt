//! Calls and endings by their words.

use crate::lines::{cut, number};
use my_frame::{Blob, CodecFault, Listed, NoMemory, Text};
use my_judge::Ending;
use my_opts::ChangeUserOpts;
use my_opts_parts::{IsolationLevel, TxOpts};
use my_params::Params;
use my_reading::{Answer, Call, DriverError, Error, IoError, IoFault, IoKind, ServerError};
use my_reply::Column;
use my_statements::{SetColumns, Statement, StmtInner};
use my_value::{Columns, Row, Value};
use std::alloc::Global;
use std::sync::Arc;

// The column of `SELECT 1`.
fn columns(alloc: Global) -> Result<Columns, NoMemory> {
    let column = Column {
        schema: Blob::new(alloc),
        table: Blob::new(alloc),
        org_table: Blob::new(alloc),
        name: Blob::from_slice(alloc, b"1")?,
        org_name: Blob::new(alloc),
        charset: 63,
        length: 1,
        column_type: 8,
        flags: 129,
        decimals: 0,
    };
    let mut all = Vec::new(alloc);
    all.push(column)?;
    Ok(Arc::new(alloc, all)?)
}

// Statement 1 with `num_params` parameters, of which one is described.
fn statement(alloc: Global, num_params: u16) -> Result<Statement, NoMemory> {
    let inner = StmtInner {
        id: 1,
        connection_id: 7,
        num_params,
        num_columns: 1,
        params: SetColumns::from_columns(columns(alloc)?),
    };
    Ok(Statement::new(Arc::new(alloc, inner)?, Listed::new(alloc)))
}

// The numbers that stand in the text.
fn params(alloc: Global, text: &str) -> Result<Params, NoMemory> {
    let mut values = Listed::new(alloc);
    for word in text.split(' ') {
        values.push(Value::Int(word.parse::<i64>().unwrap_or(i64::MIN)))?;
    }
    Ok(Params::Positional(values))
}

// A list for each text before a comma and after the last one; none where there is no text.
fn lists(alloc: Global, text: &str) -> Result<Listed<Params>, NoMemory> {
    let mut lists = Listed::new(alloc);
    for list in text.split(", ") {
        if !list.is_empty() {
            lists.push(params(alloc, list)?)?;
        }
    }
    Ok(lists)
}

fn to_user(alloc: Global, name: &str) -> Result<ChangeUserOpts, NoMemory> {
    let name = String::from_str(alloc, name)?;
    Ok(ChangeUserOpts::new().with_user(Some(name)))
}

// `plain`: nothing is set. `reading`: it only reads. `full`: it only reads, at the level READ COMMITTED, with a snapshot.
fn tx_opts(word: &str) -> TxOpts {
    let mut opts = TxOpts::new();
    if word != "plain" {
        let _ = opts.with_readonly(Some(true));
    }
    if word == "full" {
        let _ = opts.with_isolation_level(Some(IsolationLevel::ReadCommitted));
        let _ = opts.with_consistent_snapshot(true);
    }
    opts
}

// A call that is one word.
fn bare_call(word: &str) -> Option<Call> {
    match word {
        "connect" => Some(Call::Connect),
        "next" => Some(Call::NextRow),
        "drop" => Some(Call::DropResult),
        "take" => Some(Call::TakeSet),
        "skip" => Some(Call::SkipTaken),
        "ping" => Some(Call::Ping),
        "reset" => Some(Call::Reset),
        "commit" => Some(Call::Commit),
        "rollback" => Some(Call::Rollback),
        "forget" => Some(Call::ForgetTransaction),
        "clean" => Some(Call::CleanForPool),
        "renew" => Some(Call::ResetForPool),
        "quit" => Some(Call::Quit),
        _ => None,
    }
}

/// The call of these words; none for `bytes`, which are those of no call. Statement 1 is executed with the values that
/// follow, or with each list of them that follows; it is closed by its number.
pub fn call_of(alloc: Global, text: &str) -> Result<Option<Call>, NoMemory> {
    let (word, rest) = cut(text);
    match word {
        "query" => Ok(Some(Call::Query(Blob::from_slice(alloc, rest.as_bytes())?))),
        "prepare" => Ok(Some(Call::Prepare(Blob::from_slice(alloc, rest.as_bytes())?))),
        "execute" => Ok(Some(Call::Execute(statement(alloc, 1)?, params(alloc, rest)?))),
        "batch" => Ok(Some(Call::Batch(statement(alloc, 1)?, lists(alloc, rest)?))),
        "close" => Ok(Some(Call::CloseStmt((number(rest) & 0xffff_ffff) as u32))),
        "user" => Ok(Some(Call::ChangeUser(to_user(alloc, rest)?))),
        "begin" => Ok(Some(Call::Begin(tx_opts(rest)))),
        _ => Ok(bare_call(word)),
    }
}

fn row_of(alloc: Global, cell: Value) -> Result<Answer, NoMemory> {
    let mut cells = Vec::new(alloc);
    cells.push(cell)?;
    Ok(Answer::Row(Row::new(cells, columns(alloc)?)))
}

// What a call returned: a row of one cell, as text or as a number; statement 1 with a number of parameters.
fn answer_of(alloc: Global, word: &str, rest: &str) -> Result<Option<Answer>, NoMemory> {
    match word {
        "ready" => Ok(Some(Answer::Ready)),
        "end" => Ok(Some(Answer::SetEnd)),
        "none" => Ok(Some(Answer::NoSet)),
        "flag" => Ok(Some(Answer::Flag(rest == "1"))),
        "row" => {
            let cell = Value::Bytes(Blob::from_slice(alloc, rest.as_bytes())?);
            Ok(Some(row_of(alloc, cell)?))
        }
        "cell" => {
            let cell = Value::Int(rest.parse::<i64>().unwrap_or(i64::MIN));
            Ok(Some(row_of(alloc, cell)?))
        }
        "stmt" => {
            let params = (number(rest) & 0xffff) as u16;
            Ok(Some(Answer::Stmt(statement(alloc, params)?)))
        }
        _ => Ok(None),
    }
}

// ERR 1064 42000 X, or ERR 1213 40001 Y.
fn server_error(alloc: Global, rest: &str) -> Result<Error, NoMemory> {
    let first = rest == "1064";
    Ok(Error::Server(ServerError {
        code: if first { 1064 } else { 1213 },
        state: Text::from_str(alloc, if first { "42000" } else { "40001" })?,
        message: Text::from_str(alloc, if first { "X" } else { "Y" })?,
    }))
}

// The connection is closed; a transaction isn't begun, since there is one, or the server is too old; or a number of
// values, where statement 1 takes one.
fn refusal_of(rest: &str) -> DriverError {
    match rest {
        "closed" => DriverError::ConnectionClosed,
        "nested" => DriverError::NestedTransaction,
        "old" => DriverError::ReadOnlyTransNotSupported,
        _ => DriverError::StmtParamsMismatch {
            required: 1,
            supplied: number(rest),
        },
    }
}

fn fault(kind: IoKind, rest: &str) -> Error {
    Error::Io(IoError::Io(IoFault {
        kind,
        place: number(rest),
    }))
}

// The first sequence id is expected, the second one was found.
fn out_of_order(rest: &str) -> Error {
    let (expected, found) = cut(rest);
    Error::Io(IoError::Codec(CodecFault::OutOfOrder {
        expected: (number(expected) & 255) as u8,
        found: (number(found) & 255) as u8,
    }))
}

// What a call failed with; faults are after a number of packets.
fn error_of(alloc: Global, word: &str, rest: &str) -> Result<Option<Error>, NoMemory> {
    match word {
        "error" => Ok(Some(server_error(alloc, rest)?)),
        "refused" => Ok(Some(Error::Driver(refusal_of(rest)))),
        "link" => Ok(Some(fault(IoKind::Link, rest))),
        "eof" => Ok(Some(fault(IoKind::UnexpectedEof, rest))),
        "unfit" => Ok(Some(fault(IoKind::InvalidData, rest))),
        "number" => Ok(Some(out_of_order(rest))),
        _ => Ok(None),
    }
}

/// How a call ended by these words: it returned or failed so, `cancelled 1` closed the connection, `cancelled 0` didn't;
/// for any other word it is open.
pub fn ending_of(alloc: Global, text: &str) -> Result<Option<Ending>, NoMemory> {
    let (word, rest) = cut(text);
    if word == "cancelled" {
        return Ok(Some(Ending::Cancelled(rest == "1")));
    }
    if let Some(answer) = answer_of(alloc, word, rest)? {
        return Ok(Some(Ending::Answered(answer)));
    }
    match error_of(alloc, word, rest)? {
        Some(error) => Ok(Some(Ending::Failed(error))),
        None => Ok(None),
    }
}
