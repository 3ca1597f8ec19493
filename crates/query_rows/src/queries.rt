//! Texts, and statements with their parameters, that are run at a client.

use my_query::{BatchQuery, Params, Query, QueryError, Value, WithParams, positional};
use near_rows::{Near, Numbered, failed, shown};
use std::alloc::{AllocError, Global};

const TEXT: &str = "SELECT n, t FROM people";

const STATEMENT: &str = "SELECT ?";

fn folded(sum: u64, row: Numbered) -> u64 {
    sum.wrapping_mul(10).wrapping_add(row.0)
}

/// What a text returns.
pub fn asked(alloc: Global, client: &mut Near, how: &str) -> Result<String, AllocError> {
    match how {
        "run" => match TEXT.run(alloc, client) {
            Ok(mut answer) => shown(alloc, answer.collect::<Numbered>(alloc)),
            Err(error) => String::from_str(alloc, failed(error)),
        },
        "first" => shown(alloc, TEXT.first::<Numbered, _>(alloc, client)),
        "fetch" => shown(alloc, TEXT.fetch::<Numbered, _>(alloc, client)),
        "map" => shown(
            alloc,
            TEXT.map::<Numbered, u64, _, _>(alloc, client, |row| row.0),
        ),
        "reduce" => shown(
            alloc,
            TEXT.reduce::<Numbered, u64, _, _>(alloc, client, 1, folded),
        ),
        "stream" => match TEXT.stream::<Numbered, _>(alloc, client) {
            Ok(mut stream) => shown(alloc, stream.collect(alloc)),
            Err(error) => String::from_str(alloc, failed(error)),
        },
        _ => shown(alloc, TEXT.ignore(alloc, client)),
    }
}

fn params(alloc: Global) -> Params {
    positional(alloc, [Value::Int(42)]).unwrap_or(Params::Empty)
}

/// What a statement returns, which is executed with its parameters.
pub fn given(alloc: Global, client: &mut Near, how: &str) -> Result<String, AllocError> {
    let given = STATEMENT.with(params(alloc));
    match how {
        "run" => match given.run(alloc, client) {
            Ok(mut answer) => shown(alloc, answer.collect::<u64>(alloc)),
            Err(error) => String::from_str(alloc, failed(error)),
        },
        "first" => shown(alloc, given.first::<u64, _>(alloc, client)),
        "fetch" => shown(alloc, given.fetch::<u64, _>(alloc, client)),
        "map" => shown(
            alloc,
            given.map::<u64, bool, _, _>(alloc, client, |n| n > 4),
        ),
        "reduce" => shown(
            alloc,
            given.reduce::<u64, u64, _, _>(alloc, client, 1, |sum, n| {
                sum.wrapping_mul(10).wrapping_add(n)
            }),
        ),
        "stream" => match given.stream::<u64, _>(alloc, client) {
            Ok(mut stream) => shown(alloc, stream.collect(alloc)),
            Err(error) => String::from_str(alloc, failed(error)),
        },
        _ => shown(alloc, given.ignore(alloc, client)),
    }
}

/// What a batch of two executions returns.
pub fn batched(alloc: Global, client: &mut Near) -> Result<String, AllocError> {
    let mut lists = Vec::new(alloc);
    lists.push(params(alloc))?;
    lists.push(params(alloc))?;
    let done = STATEMENT.with(lists).batch(alloc, client);
    shown(alloc, done.map_err(QueryError::Client))
}
