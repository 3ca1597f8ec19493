//! Results that are streamed.

use crate::reads::Answer;
use my_query::{QueryError, Row};
use near_rows::{Numbered, add, failed, number_word, refused, shown};
use std::alloc::{AllocError, Global};

/// Four reads of a stream, the set of which has people.
pub fn streamed(alloc: Global, answer: &mut Answer<'_>) -> Result<String, AllocError> {
    let mut text = String::new(alloc);
    match answer.stream::<Numbered>(alloc) {
        Ok(found) => {
            let Some(mut stream) = found else {
                add(&mut text, "none")?;
                return Ok(text);
            };
            for _ in 0..4u8 {
                let read = stream.next(alloc);
                let added = add(&mut text, number_word(&read));
                drop(read);
                added?;
            }
        }
        Err(error) => add(&mut text, failed(error))?,
    }
    Ok(text)
}

/// Four reads of a stream, the set of which has cells.
pub fn small(alloc: Global, answer: &mut Answer<'_>) -> Result<String, AllocError> {
    let mut text = String::new(alloc);
    match answer.stream::<u8>(alloc) {
        Ok(found) => {
            let Some(mut stream) = found else {
                add(&mut text, "none")?;
                return Ok(text);
            };
            for _ in 0..4u8 {
                let read = shown(alloc, stream.next(alloc))?;
                add(&mut text, read.as_str())?;
            }
        }
        Err(error) => add(&mut text, failed(error))?,
    }
    Ok(text)
}

// How many rows there are.
fn count_word(rows: Result<Vec<Row>, QueryError>) -> &'static str {
    let word = match &rows {
        Ok(rows) if rows.len() == 2 => "2",
        Ok(rows) if rows.len() == 1 => "1",
        Ok(_) => "other",
        Err(error) => refused(error),
    };
    drop(rows);
    word
}

// How many columns a row has.
fn row_word(row: Result<Option<Row>, QueryError>) -> &'static str {
    let word = match &row {
        Ok(Some(row)) if row.len() == 2 => "2",
        Ok(Some(_)) => "1",
        Ok(None) => "end",
        Err(error) => refused(error),
    };
    drop(row);
    word
}

// The rows of the next set, or one of them.
fn set_word(alloc: Global, answer: &mut Answer<'_>, how: &str) -> &'static str {
    match answer.stream::<Row>(alloc) {
        Ok(found) => {
            let Some(mut stream) = found else {
                return "none";
            };
            match how {
                "sets" => count_word(stream.collect(alloc)),
                _ => row_word(stream.next(alloc)),
            }
        }
        Err(error) => failed(error),
    }
}

/// The rows of each set, up to the third, or one row of each.
pub fn sets(alloc: Global, answer: &mut Answer<'_>, how: &str) -> Result<String, AllocError> {
    let mut text = String::new(alloc);
    for _ in 0..3u8 {
        add(&mut text, set_word(alloc, answer, how))?;
    }
    Ok(text)
}
