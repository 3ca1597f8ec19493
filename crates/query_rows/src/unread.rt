//! What is left of a result.

use my_query::{Lent, QueryError, QueryResult, Queryable, TextProtocol};
use near_rows::{Near, add, shown};
use std::alloc::{AllocError, Global};

type Answer<'a> = QueryResult<Lent<'a, Near>, TextProtocol>;

// What is left of a result: the number of columns of its next set, or whether a further set follows.
fn left_word(answer: &Answer<'_>) -> &'static str {
    let shared = match answer.columns() {
        Ok(Some(columns)) => columns.len(),
        Ok(None) | Err(_) => 0,
    };
    match (answer.is_empty(), answer.columns_ref().len()) {
        (true, 0) => "none",
        (false, 0) => "further",
        (false, 1) if shared == 1 => "1",
        (false, 2) if shared == 2 => "2",
        _ => "wrong",
    }
}

fn five(alloc: Global, answer: &mut Answer<'_>) -> Result<String, AllocError> {
    let mut text = String::new(alloc);
    for _ in 0..5u8 {
        let word = left_word(answer);
        let read = answer.next(alloc);
        drop(read);
        add(&mut text, word)?;
    }
    Ok(text)
}

/// What is left before each of five reads.
pub fn unread(alloc: Global, client: &mut Near) -> Result<String, AllocError> {
    match client.query_iter(alloc, &"SELECT n, t FROM people") {
        Ok(answer) => {
            let mut answer = answer;
            five(alloc, &mut answer)
        }
        Err(error) => shown::<()>(alloc, Err(QueryError::Client(error))),
    }
}
