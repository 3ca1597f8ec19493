//! Streams that own their result.

use my_query::{
    BinaryProtocol, Lent, Params, QueryError, Queryable, ResultSetStream, TextProtocol, Value,
    positional, take_first,
};
use near_rows::{Near, Numbered, add, failed, number_word, shown};
use std::alloc::{AllocError, Global};

type Own<'a> = ResultSetStream<Lent<'a, Near>, Numbered, TextProtocol>;

type OwnNumbers<'a> = ResultSetStream<Lent<'a, Near>, u64, BinaryProtocol>;

// Four reads of a stream, and whether it ended after each.
fn four(alloc: Global, stream: &mut Own<'_>) -> Result<String, AllocError> {
    let mut text = String::new(alloc);
    for _ in 0..4u8 {
        let read = stream.next(alloc);
        let word = number_word(&read);
        drop(read);
        add(&mut text, word)?;
        add(&mut text, if stream.is_terminated() { "." } else { "," })?;
    }
    Ok(text)
}

// What is known of a stream's set.
fn facts(alloc: Global, stream: &Own<'_>) -> Result<String, AllocError> {
    let noted = stream.info() == b"note".as_slice();
    let (columns, rows, id, warnings) = (
        stream.columns_ref().len(),
        stream.affected_rows(),
        stream.last_insert_id(),
        stream.get_warnings(),
    );
    let shared = match stream.columns() {
        Ok(shared) => shared.len(),
        Err(_) => 9,
    };
    let is_ok = stream.ok_packet().is_some();
    format!(in alloc; "{columns} {shared} {is_ok} {rows} {id:?} {warnings} {noted}")
}

// What is collected, and then what is collected after that.
fn again(alloc: Global, stream: &mut Own<'_>) -> Result<String, AllocError> {
    let mut text = shown(alloc, stream.collect(alloc))?;
    let rest = shown(alloc, stream.collect(alloc))?;
    add(&mut text, rest.as_str())?;
    Ok(text)
}

fn read(alloc: Global, stream: Own<'_>, how: &str) -> Result<String, AllocError> {
    let mut stream = stream;
    match how {
        "facts" => facts(alloc, &stream),
        "collect" => {
            let collected = stream.collect(alloc);
            shown(alloc, collected)
        }
        "again" => again(alloc, &mut stream),
        _ => four(alloc, &mut stream),
    }
}

/// What a stream that owns the result returns.
pub fn owned(alloc: Global, client: &mut Near, how: &str) -> Result<String, AllocError> {
    match client.query_iter(alloc, &"SELECT n, t FROM people") {
        Ok(answer) => match answer.stream_and_drop::<Numbered>(alloc) {
            Ok(found) => match found {
                Some(stream) => read(alloc, stream, how),
                None => String::from_str(alloc, "none"),
            },
            Err(error) => String::from_str(alloc, failed(error)),
        },
        Err(error) => shown::<()>(alloc, Err(QueryError::Client(error))),
    }
}

/// What a stream of a query returns.
pub fn queried(alloc: Global, client: &mut Near, how: &str) -> Result<String, AllocError> {
    match client.query_stream::<Numbered, _>(alloc, &"SELECT n, t FROM people") {
        Ok(stream) => read(alloc, stream, how),
        Err(error) => String::from_str(alloc, failed(error)),
    }
}

/// What a stream returns of a set that is taken first.
pub fn taken(alloc: Global, client: &mut Near) -> Result<String, AllocError> {
    match take_first(client, alloc, "SELECT n, t FROM people") {
        Ok(set) => {
            let mut stream = Own::of(client, set);
            shown(alloc, stream.collect(alloc))
        }
        Err(error) => String::from_str(alloc, failed(error)),
    }
}

/// What a stream of an executed statement returns.
pub fn executed(alloc: Global, client: &mut Near) -> Result<String, AllocError> {
    let params = positional(alloc, [Value::Int(42)]).unwrap_or(Params::Empty);
    match client.exec_stream::<u64, _>(alloc, &"SELECT ?", params) {
        Ok(stream) => {
            let mut numbers: OwnNumbers<'_> = stream;
            let collected = numbers.collect(alloc);
            shown(alloc, collected)
        }
        Err(error) => String::from_str(alloc, failed(error)),
    }
}
