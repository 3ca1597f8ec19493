//! The calls of rows.

use my_frame::{Blob, Listed, NoMemory};
use my_opts::{ChangeUserOpts, IsolationLevel, TxOpts};
use my_params::Params;
use my_reading::Call;
use my_statements::Statement;
use my_value::Value;
use std::alloc::{AllocError, Global};

fn text(alloc: Global, bytes: &str) -> Result<Blob, NoMemory> {
    Ok(Blob::from_slice(alloc, bytes.as_bytes())?)
}

// How a transaction begins, in words.
fn begin_of(words: &str) -> TxOpts {
    let mut opts = TxOpts::new();
    for word in words.split(' ') {
        match word {
            "snapshot" => drop(opts.with_consistent_snapshot(true)),
            "ro" => drop(opts.with_readonly(Some(true))),
            "rw" => drop(opts.with_readonly(Some(false))),
            "level=0" => drop(opts.with_isolation_level(Some(IsolationLevel::ReadUncommitted))),
            "level=1" => drop(opts.with_isolation_level(Some(IsolationLevel::ReadCommitted))),
            "level=2" => drop(opts.with_isolation_level(Some(IsolationLevel::RepeatableRead))),
            "level=3" => drop(opts.with_isolation_level(Some(IsolationLevel::Serializable))),
            _ => {}
        }
    }
    opts
}

// What a part of a change becomes: `=` keeps it, and `-` clears it.
fn part_of(alloc: Global, word: &str) -> Result<Option<Option<String>>, AllocError> {
    match word {
        "=" => Ok(None),
        "-" => Ok(Some(None)),
        _ => Ok(Some(Some(String::from_str(alloc, word)?))),
    }
}

// A change of user, in words: the user, the password and the database.
fn change_of(alloc: Global, words: &str) -> Result<ChangeUserOpts, NoMemory> {
    let mut change = ChangeUserOpts::new();
    for (place, word) in words.split(' ').enumerate() {
        if let Some(part) = part_of(alloc, word)? {
            change = match place {
                0 => change.with_user(part),
                1 => change.with_pass(part),
                _ => change.with_db_name(part),
            };
        }
    }
    Ok(change)
}

// A value for each letter.
fn values(alloc: Global, letters: &str) -> Result<Params, NoMemory> {
    if letters.is_empty() {
        return Ok(Params::Empty);
    }
    let mut values = Vec::new(alloc);
    for letter in letters.as_bytes() {
        values.push(Value::Bytes(Blob::from_slice(alloc, &[*letter])?))?;
    }
    Ok(Params::Positional(Listed::from(values)))
}

// A list of parameters for each word.
fn lists(alloc: Global, words: &str) -> Result<Listed<Params>, NoMemory> {
    let mut lists = Listed::new(alloc);
    for word in words.split(' ') {
        if !word.is_empty() {
            lists.push(values(alloc, word)?)?;
        }
    }
    Ok(lists)
}

// A call that executes the statement that was prepared last; a ping where there is none.
fn execution(
    alloc: Global,
    word: &str,
    words: &str,
    last: &Option<Statement>,
) -> Result<Call, NoMemory> {
    let Some(statement) = last else {
        return Ok(Call::Ping);
    };
    let statement = statement.copy(alloc)?;
    if word == "execute" {
        return Ok(Call::Execute(statement, values(alloc, words)?));
    }
    Ok(Call::Batch(statement, lists(alloc, words)?))
}

// A query of 1,024 bytes.
fn long_query(alloc: Global) -> Result<Call, NoMemory> {
    Ok(Call::Query(Blob::from(vec![in alloc; b'x'; 1_024]?)))
}

/// The call of this name with these words, or a query of the whole text. An execution is of the statement that was prepared last.
pub fn call_of(alloc: Global, line: &str, last: &Option<Statement>) -> Result<Call, NoMemory> {
    let (word, words) = line.split_once(' ').unwrap_or((line, ""));
    match word {
        "long" => long_query(alloc),
        "connect" => Ok(Call::Connect),
        "next" => Ok(Call::NextRow),
        "drop" => Ok(Call::DropResult),
        "take" => Ok(Call::TakeSet),
        "skip" => Ok(Call::SkipTaken),
        "ping" => Ok(Call::Ping),
        "reset" => Ok(Call::Reset),
        "clean" => Ok(Call::CleanForPool),
        "renew" => Ok(Call::ResetForPool),
        "prepare" if words.is_empty() => Ok(Call::Prepare(text(alloc, "DO ?")?)),
        "prepare" => Ok(Call::Prepare(text(alloc, words)?)),
        "execute" | "batch" => execution(alloc, word, words, last),
        "begin" => Ok(Call::Begin(begin_of(words))),
        "commit" => Ok(Call::Commit),
        "rollback" => Ok(Call::Rollback),
        "forget" => Ok(Call::ForgetTransaction),
        "user" => Ok(Call::ChangeUser(change_of(alloc, words)?)),
        "quit" => Ok(Call::Quit),
        _ => Ok(Call::Query(text(alloc, line)?)),
    }
}
