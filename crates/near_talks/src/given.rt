//! What calls are given, by the words of their rows.

use crate::words::blob_of;
use my_opts::ChangeUserOpts;
use my_opts_parts::{IsolationLevel, TxOpts};
use my_params::Params;
use my_rows::{named, positional};
use my_statements::Statement;
use my_value::Value;
use std::alloc::{AllocError, Global};

/// The parameters of an execution: 42 by the name `a` or by its place, or none.
pub fn params_of(alloc: Global, word: &str) -> Params {
    match word {
        "a=42" => named(alloc, [(blob_of(alloc, "a"), Value::Int(42))]).unwrap_or(Params::Empty),
        "42" => positional(alloc, [Value::Int(42)]).unwrap_or(Params::Empty),
        _ => Params::Empty,
    }
}

/// The parameters of each execution of a batch.
pub fn lists_of(alloc: Global, words: &str) -> Result<Vec<Params>, AllocError> {
    let mut lists = Vec::new(alloc);
    for word in words.split(' ') {
        if !word.is_empty() {
            lists.push(params_of(alloc, word))?;
        }
    }
    Ok(lists)
}

/// A second holder of the statement that is held.
pub fn copy_of(alloc: Global, held: &Option<Statement>) -> Option<Statement> {
    match held {
        Some(statement) => match statement.copy(alloc) {
            Ok(copy) => Some(copy),
            Err(_) => None,
        },
        None => None,
    }
}

fn text_in(alloc: Global, word: Option<&str>) -> Option<String> {
    match String::from_str(alloc, word?) {
        Ok(text) => Some(text),
        Err(_) => None,
    }
}

/// A change of the user, or of the user, the password and the database.
pub fn change_of(alloc: Global, words: &str) -> ChangeUserOpts {
    let mut words = words.split(' ');
    let change = ChangeUserOpts::new().with_user(text_in(alloc, words.next()));
    match words.next() {
        None => change,
        Some(pass) => {
            let change = change.with_pass(text_in(alloc, Some(pass)));
            change.with_db_name(text_in(alloc, words.next()))
        }
    }
}

/// A transaction without options, or with every one.
pub fn begin_of(words: &str) -> TxOpts {
    let mut opts = TxOpts::new();
    if words == "serializable read only with snapshot" {
        opts.with_isolation_level(Some(IsolationLevel::Serializable))
            .with_readonly(Some(true))
            .with_consistent_snapshot(true);
    }
    opts
}
