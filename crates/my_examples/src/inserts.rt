//! A statement that is prepared once: executed in a loop, and in a batch.

use my_query::{
    BlockingLink, Client, Params, QueryError, Queryable, Statement, Value, positional, text,
};
use std::alloc::Global;

const TABLE: &str = "CREATE TEMPORARY TABLE visit (name VARCHAR(20), times INT)";

const INSERT: &str = "INSERT INTO visit (name, times) VALUES (?, ?)";

const MOST: &str = "SELECT COUNT(*), MAX(times) FROM visit";

fn visit(alloc: Global, name: &str, times: u64) -> Result<Params, QueryError> {
    Ok(positional(alloc, [text(alloc, name)?, Value::UInt(times)])?)
}

fn insert_all<L: BlockingLink>(
    alloc: Global,
    client: &mut Client<L>,
    insert: &Statement,
) -> Result<(), QueryError> {
    for times in 1..4u64 {
        client.exec_drop(alloc, insert, visit(alloc, "ann", times)?)?;
    }
    let mut lists = Vec::new(alloc);
    lists.push(visit(alloc, "bo", 4)?)?;
    lists.push(visit(alloc, "cy", 5)?)?;
    Ok(client.exec_batch(alloc, insert, lists)?)
}

/// How many visits were inserted, and the most of one.
pub fn run<L: BlockingLink>(alloc: Global, client: &mut Client<L>) -> Result<String, QueryError> {
    client.query_drop(alloc, &TABLE)?;
    let insert = client.prep(alloc, &INSERT)?;
    insert_all(alloc, client, &insert)?;
    client.close(alloc, insert)?;
    let most: Option<(u64, u64)> = client.query_first(alloc, &MOST)?;
    Ok(format!(in alloc; "{most:?}")?)
}
