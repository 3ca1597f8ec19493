//! Rows of both protocols, and what is taken out of a row.

use crate::words::{byte, bytes_of, part, say, say_value, say_values, short, values_of, word};
use my_frame::{Blob, NoMemory, ReadError};
use my_reply::Column;
use my_value::{Columns, Row, Value, is_binary_row, is_text_row, read_binary_row, read_text_row};
use std::alloc::Global;
use std::sync::Arc;

// A column of this type with these flags.
fn column(alloc: Global, column_type: u8, flags: u16) -> Column {
    Column {
        schema: Blob::new(alloc),
        table: Blob::new(alloc),
        org_table: Blob::new(alloc),
        name: Blob::new(alloc),
        org_name: Blob::new(alloc),
        charset: 63,
        length: 1,
        column_type,
        flags,
        decimals: 0,
    }
}

/// `count` columns of this type.
pub fn columns(alloc: Global, count: usize, kind: u8, flags: u16) -> Result<Columns, NoMemory> {
    let mut all = Vec::new(alloc);
    for _ in 0..count {
        let _ = all.push(column(alloc, kind, flags));
    }
    match Arc::new(alloc, all) {
        Ok(columns) => Ok(columns),
        Err(_) => Err(NoMemory),
    }
}

// Adds the cells of a row, and whether its columns are others than these.
fn say_cells(alloc: Global, text: &mut String, row: Row, columns: &Columns) {
    if row.columns_ref() != columns.as_slice() || row.len() != columns.len() {
        say(text, "other columns: ");
    }
    let values = row.unwrap();
    say_values(alloc, text, values.as_slice());
    drop(values);
}

fn is_row(kind: &str, payload: &[u8], columns: &Columns) -> bool {
    match kind {
        "binary" => is_binary_row(columns.as_slice(), payload),
        _ => is_text_row(columns.len(), payload),
    }
}

fn read_row(
    alloc: Global,
    kind: &str,
    payload: &[u8],
    columns: &Columns,
) -> Result<Row, ReadError> {
    match kind {
        "binary" => read_binary_row(alloc, payload, columns),
        _ => read_text_row(alloc, payload, columns),
    }
}

fn say_read(alloc: Global, text: &mut String, kind: &str, payload: &[u8], columns: &Columns) {
    if !is_row(kind, payload, columns) {
        say(text, "no row: ");
    }
    match read_row(alloc, kind, payload, columns) {
        Ok(row) => say_cells(alloc, text, row, columns),
        Err(ReadError::Malformed) => say(text, "malformed"),
        Err(ReadError::NoMemory) => say(text, "out of memory"),
    }
}

/// Adds the cells of a payload. The words: the columns' type and flags, how many columns there are, and the payload.
pub fn say_payload(alloc: Global, text: &mut String, kind: &str, words: &str) {
    let payload = bytes_of(alloc, word(words, 3));
    match columns(
        alloc,
        part(words, 2) as usize,
        byte(words, 0),
        short(words, 1),
    ) {
        Ok(columns) => say_read(alloc, text, kind, payload.as_slice(), &columns),
        Err(NoMemory) => say(text, "out of memory"),
    }
}

/// The row of these values, each of a column of texts.
pub fn row_of(alloc: Global, written: &str) -> Result<Row, NoMemory> {
    let values = values_of(alloc, written);
    match columns(alloc, values.len(), 253, 0) {
        Ok(columns) => Ok(Row::new(values, columns)),
        Err(NoMemory) => Err(NoMemory),
    }
}

fn say_cell(alloc: Global, text: &mut String, cell: Option<&Value>) {
    match cell {
        Some(value) => say_value(alloc, text, value),
        None => say(text, "none"),
    }
}

/// Adds all cells of a copy of a row, in parentheses.
pub fn say_row(alloc: Global, text: &mut String, row: &Row) {
    match row.copy(alloc) {
        Ok(copy) => {
            let values = copy.unwrap();
            say(text, "(");
            say_values(alloc, text, values.as_slice());
            say(text, ")");
            drop(values);
        }
        Err(NoMemory) => say(text, "out of memory"),
    }
}

// Takes the cell at a place of the row of these values.
fn say_taking(alloc: Global, text: &mut String, row: &mut Row, whole: &Row, place: usize) {
    say_cell(alloc, text, row.as_ref(place));
    say(text, " is taken as ");
    let taken = row.take(place);
    say_cell(alloc, text, taken.as_ref());
    drop(taken);
    say(
        text,
        if *row == *whole {
            " and leaves the same "
        } else {
            " and leaves "
        },
    );
    say_row(alloc, text, row);
}

/// Adds what is taken out of a row, and what is left. The words: the cell's place, and the row.
pub fn say_taken(alloc: Global, text: &mut String, words: &str) {
    let (place, written) = words.split_once(' ').unwrap_or((words, ""));
    let row = row_of(alloc, written);
    match (row, row_of(alloc, written)) {
        (Ok(row), Ok(whole)) => {
            let mut row = row;
            say_taking(alloc, text, &mut row, &whole, part(place, 0) as usize);
            drop(row);
            drop(whole);
        }
        _ => say(text, "out of memory"),
    }
}
