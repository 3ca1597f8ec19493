//! Rounds of one call each, and what they give.

use my_query::{
    BlockingLink, Client, Error, Lent, Params, QueryError, Queryable, ResultSetStream, Row,
    Statement, TextProtocol, Value, World, connect,
};
use std::alloc::Global;

// A query whose result has one row of one number.
const NUMBER: &str = "SELECT 12345";

// A query of as many rows as the table has.
const TABLE: &str = "SELECT id,name,ts,val,price FROM t100k";

// What a round over a client does.
#[derive(Drop)]
enum Round {
    // A query whose result has one row of one number.
    Number,
    // An execution of this statement, whose result has one row of one number.
    Executed(Statement),
    // A query of many rows, all of which are kept until the last was read.
    Kept,
    // The same, streamed: no row is kept.
    Streamed,
}

// The round of this mode; its statement is prepared.
fn round_of<L: BlockingLink>(
    alloc: Global,
    client: &mut Client<L>,
    mode: &str,
) -> Result<Round, QueryError> {
    match mode {
        "text" => Ok(Round::Number),
        "prep" => Ok(Round::Executed(client.prep(alloc, &NUMBER)?)),
        "rows" => Ok(Round::Kept),
        _ => Ok(Round::Streamed),
    }
}

// The bytes of a field.
fn field_length(value: &Value) -> u64 {
    match value {
        Value::Bytes(bytes) => bytes.len() as u64,
        _ => 0,
    }
}

// The bytes of a row's fields.
fn row_length(row: &Row) -> u64 {
    let mut sum = 0u64;
    for index in 0..row.len() {
        if let Some(value) = row.as_ref(index) {
            sum = sum.saturating_add(field_length(value));
        }
    }
    sum
}

// The number of the one row.
fn number<L: BlockingLink>(alloc: Global, client: &mut Client<L>) -> Result<u64, QueryError> {
    let number: Option<u64> = client.query_first(alloc, &NUMBER)?;
    Ok(number.unwrap_or(0))
}

// The number of the one row of a statement.
fn executed<L: BlockingLink>(
    alloc: Global,
    client: &mut Client<L>,
    statement: &Statement,
) -> Result<u64, QueryError> {
    let number: Option<u64> = client.exec_first(alloc, statement, Params::Empty)?;
    Ok(number.unwrap_or(0))
}

// The bytes of the table's rows, all of which are kept.
fn kept<L: BlockingLink>(alloc: Global, client: &mut Client<L>) -> Result<u64, QueryError> {
    let rows: Vec<Row> = client.query(alloc, &TABLE)?;
    let mut sum = 0u64;
    for row in rows.as_slice() {
        sum = sum.saturating_add(row_length(row));
    }
    drop(rows);
    Ok(sum)
}

// The bytes of the rows of a stream, none of which is kept.
fn add_up<L: BlockingLink>(
    alloc: Global,
    rows: &mut ResultSetStream<Lent<'_, Client<L>>, Row, TextProtocol>,
) -> Result<u64, QueryError> {
    let mut sum = 0u64;
    for _ in 0..u64::MAX {
        match rows.next(alloc)? {
            Some(row) => {
                sum = sum.saturating_add(row_length(&row));
                drop(row);
            }
            None => return Ok(sum),
        }
    }
    Ok(sum)
}

// The bytes of the table's rows, streamed.
fn streamed<L: BlockingLink>(alloc: Global, client: &mut Client<L>) -> Result<u64, QueryError> {
    let mut rows = client.query_stream::<Row, _>(alloc, &TABLE)?;
    let sum = add_up(alloc, &mut rows);
    drop(rows);
    sum
}

// What a round gives.
fn round_once<L: BlockingLink>(
    alloc: Global,
    client: &mut Client<L>,
    round: &Round,
) -> Result<u64, QueryError> {
    match round {
        Round::Number => number(alloc, client),
        Round::Executed(statement) => executed(alloc, client, statement),
        Round::Kept => kept(alloc, client),
        Round::Streamed => streamed(alloc, client),
    }
}

// The sum of what this number of rounds give.
fn repeated<L: BlockingLink>(
    alloc: Global,
    client: &mut Client<L>,
    round: &Round,
    count: u64,
) -> Result<u64, QueryError> {
    let mut sum = 0u64;
    for _ in 0..count {
        sum = sum.saturating_add(round_once(alloc, client, round)?);
    }
    Ok(sum)
}

/// The sum of what this number of rounds of a mode give. A statement is prepared before the first.
pub fn rounds<L: BlockingLink>(
    alloc: Global,
    client: &mut Client<L>,
    mode: &str,
    count: u64,
) -> Result<u64, QueryError> {
    let round = round_of(alloc, client, mode)?;
    let sum = repeated(alloc, client, &round, count);
    drop(round);
    sum
}

// A connection, a ping and a quit.
fn meet<W: World>(alloc: Global, url: &str, world: &mut W) -> Result<(), Error>
where
    W::L: BlockingLink + Drop,
{
    let mut client = connect(alloc, url, world)?;
    let pinged = client.ping(alloc);
    let ended = client.quit(alloc);
    pinged.and(ended)
}

/// This number of connections, one after the other, and how many there were.
pub fn meetings<W: World>(
    alloc: Global,
    url: &str,
    world: &mut W,
    count: u64,
) -> Result<u64, QueryError>
where
    W::L: BlockingLink + Drop,
{
    for _ in 0..count {
        meet(alloc, url, world)?;
    }
    Ok(count)
}
