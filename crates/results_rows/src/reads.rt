//! Results that are read.

use crate::rows::ROWS;
use crate::streams::{sets, small, streamed};
use crate::tried::kinds;
use my_query::{
    Error, Lent, Params, QueryError, QueryResult, Queryable, Row, TextProtocol, Value, positional,
};
use near_rows::{Near, Numbered, Reads, add, failure, rows_read, shown};
use std::alloc::{AllocError, Global};
use std::test::Fail;

/// A result over a client in memory.
pub type Answer<'a> = QueryResult<Lent<'a, Near>, TextProtocol>;

fn word_of(read: &Result<Option<Row>, Error>) -> &'static str {
    match read {
        Ok(Some(row)) if row.len() == 2 => "2",
        Ok(Some(_)) => "1",
        Ok(None) => "end",
        Err(error) => failure(error),
    }
}

// Four reads.
fn four(alloc: Global, answer: &mut Answer<'_>) -> Result<String, AllocError> {
    let mut text = String::new(alloc);
    for _ in 0..4u8 {
        let read = answer.next(alloc);
        let added = add(&mut text, word_of(&read));
        drop(read);
        added?;
    }
    Ok(text)
}

// What the last OK says.
fn facts(alloc: Global, answer: &mut Answer<'_>) -> Result<String, AllocError> {
    let noted = answer.info() == b"note".as_slice();
    let (rows, id, warnings) = (
        answer.affected_rows(),
        answer.last_insert_id(),
        answer.warnings(),
    );
    format!(in alloc; "{rows} {id:?} {warnings} {noted}")
}

fn folded(sum: u64, row: Numbered) -> u64 {
    sum.wrapping_mul(10).wrapping_add(row.0)
}

// What is read, while the rest is left.
fn read(alloc: Global, answer: &mut Answer<'_>, how: &str) -> Result<String, AllocError> {
    match how {
        "next" => four(alloc, answer),
        "facts" => facts(alloc, answer),
        "stream" => streamed(alloc, answer),
        "small" => small(alloc, answer),
        "sets" | "firsts" => sets(alloc, answer, how),
        "collect" => shown(alloc, answer.collect::<Numbered>(alloc)),
        "try_collect" => kinds(alloc, answer.try_collect::<Numbered>(alloc)),
        "try_small" => kinds(alloc, answer.try_collect::<u8>(alloc)),
        "map" => shown(alloc, answer.map::<usize, _>(alloc, |row| row.len())),
        "sum" => shown(
            alloc,
            answer.reduce::<(u64, u64), u64, _>(alloc, 0, |sum, pair| {
                sum.wrapping_add(pair.0).wrapping_add(pair.1)
            }),
        ),
        "reduce" => shown(alloc, answer.reduce::<Numbered, u64, _>(alloc, 1, folded)),
        _ => shown(alloc, answer.for_each(alloc, |_row| ())),
    }
}

// What is read of the set, after which the rest is dropped.
fn read_and_drop(alloc: Global, answer: Answer<'_>, how: &str) -> Result<String, AllocError> {
    match how {
        "collect" => shown(alloc, answer.collect_and_drop::<Numbered>(alloc)),
        "try_collect" => kinds(alloc, answer.try_collect_and_drop::<Numbered>(alloc)),
        "map" => shown(
            alloc,
            answer.map_and_drop::<usize, _>(alloc, |row| row.len()),
        ),
        "reduce" => shown(
            alloc,
            answer.reduce_and_drop::<Numbered, u64, _>(alloc, 1, folded),
        ),
        "for_each" => shown(alloc, answer.for_each_and_drop(alloc, |_row| ())),
        _ => shown(alloc, answer.drop_result(alloc).map_err(QueryError::Client)),
    }
}

fn answered(alloc: Global, client: &mut Near, how: &str) -> Result<String, AllocError> {
    match client.query_iter(alloc, &"SELECT n, t FROM people") {
        Ok(answer) => match how.split_once(' ') {
            Some((how, _drop)) => read_and_drop(alloc, answer, how),
            None => {
                let mut answer = answer;
                read(alloc, &mut answer, how)
            }
        },
        Err(error) => shown::<()>(alloc, Err(QueryError::Client(error))),
    }
}

// What the rows of an executed statement become.
fn executed(alloc: Global, client: &mut Near) -> Result<String, AllocError> {
    let params = positional(alloc, [Value::Int(42)]).unwrap_or(Params::Empty);
    match client.exec_iter(alloc, &"SELECT ?", params) {
        Ok(mut answer) => shown(alloc, answer.collect::<u64>(alloc)),
        Err(error) => shown::<()>(alloc, Err(QueryError::Client(error))),
    }
}

// The rows of a result that is made of its holder, which is lent to it.
fn of_holder(alloc: Global, client: &mut Near) -> Result<String, AllocError> {
    let mut answer = Answer::of(client);
    shown(alloc, answer.collect::<Numbered>(alloc))
}

// The same of a holder that was lent before.
fn of_lent(alloc: Global, client: &mut Near) -> Result<String, AllocError> {
    let mut answer = Answer::new(Lent::new(client));
    shown(alloc, answer.collect::<Numbered>(alloc))
}

// The rows of a result that is made of its holder, once the query was accepted.
fn made(alloc: Global, client: &mut Near, how: &str) -> Result<String, AllocError> {
    match client.query_iter(alloc, &"SELECT n, t FROM people") {
        Ok(answer) => drop(answer),
        Err(error) => return shown::<()>(alloc, Err(QueryError::Client(error))),
    }
    match how {
        "of" => of_holder(alloc, client),
        _ => of_lent(alloc, client),
    }
}

struct ResultReads;

impl Reads for ResultReads {
    fn read(alloc: Global, client: &mut Near, how: &str) -> Result<String, AllocError> {
        match how {
            "exec" => executed(alloc, client),
            "of" | "new" => made(alloc, client, how),
            _ => answered(alloc, client, how),
        }
    }
}

#[test]
fn results_are_read(rt: HostRuntime) -> Result<(), Fail> {
    let ran = rows_read::<ResultReads>(rt.alloc(), ROWS);
    assert!(rt; ran == Ok(39), "{ran:?}");
    Ok(())
}
