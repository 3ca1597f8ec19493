//! What values and rows convert to.

use crate::cells::{row_of, say_row};
use crate::words::{say, say_value, value_of};
use my_frame::NoMemory;
use my_value::{
    FromRow, FromRowError, FromValue, FromValueError, Row, Value, from_row, from_value,
};
use std::alloc::Global;
use std::fmt::Debug;

// Adds what a copy of the error says, and the value that is given back.
fn say_refusal(alloc: Global, text: &mut String, error: &FromValueError) {
    match error.copy(alloc) {
        Ok(copy) => {
            let _ = write!(text, "{copy}");
            drop(copy);
        }
        Err(NoMemory) => say(text, "no copy"),
    }
    if let FromValueError::Value(value) = error {
        say(text, ": ");
        say_value(alloc, text, value);
    }
}

// Adds what a copy of the error says, and the row that is given back.
fn say_row_refusal(alloc: Global, text: &mut String, error: &FromRowError) {
    match error.copy(alloc) {
        Ok(copy) => {
            let _ = write!(text, "{copy}");
            drop(copy);
        }
        Err(NoMemory) => say(text, "no copy"),
    }
    if let FromRowError::Row(row) = error {
        say(text, ": ");
        say_row(alloc, text, row);
    }
}

fn say_row_as<T: FromRow + Debug + Drop>(alloc: Global, text: &mut String, row: Row) {
    match from_row::<T>(alloc, row) {
        Ok(converted) => {
            let _ = write!(text, "{converted:?}");
            drop(converted);
        }
        Err(error) => {
            say_row_refusal(alloc, text, &error);
            drop(error);
        }
    }
}

// Adds what a value becomes, and after a bar what a row becomes.
fn say_as<T: FromValue + FromRow + Debug + Drop>(
    alloc: Global,
    text: &mut String,
    value: Value,
    row: Row,
) {
    match from_value::<T>(alloc, value) {
        Ok(converted) => {
            let _ = write!(text, "{converted:?}");
            drop(converted);
        }
        Err(error) => {
            say_refusal(alloc, text, &error);
            drop(error);
        }
    }
    say(text, " | ");
    say_row_as::<T>(alloc, text, row);
}

fn say_become(alloc: Global, text: &mut String, wanted: &str, value: Value, row: Row) {
    match wanted {
        "u8" => say_as::<u8>(alloc, text, value, row),
        "i8" => say_as::<i8>(alloc, text, value, row),
        "u16" => say_as::<u16>(alloc, text, value, row),
        "i16" => say_as::<i16>(alloc, text, value, row),
        "u32" => say_as::<u32>(alloc, text, value, row),
        "i32" => say_as::<i32>(alloc, text, value, row),
        "u64" => say_as::<u64>(alloc, text, value, row),
        "i64" => say_as::<i64>(alloc, text, value, row),
        "bool" => say_as::<bool>(alloc, text, value, row),
        "String" => say_as::<String>(alloc, text, value, row),
        "Vec<u8>" => say_as::<Vec<u8>>(alloc, text, value, row),
        "Option<u8>" => say_as::<Option<u8>>(alloc, text, value, row),
        _ => say_as::<Value>(alloc, text, value, row),
    }
}

/// Adds what the first value of a row becomes, and what the row does. The words: the type, and the row's values.
pub fn say_converted(alloc: Global, text: &mut String, words: &str) {
    let (wanted, written) = words.split_once(' ').unwrap_or((words, ""));
    let (first, _) = written.split_once(", ").unwrap_or((written, ""));
    match row_of(alloc, written) {
        Ok(row) => say_become(alloc, text, wanted, value_of(alloc, first), row),
        Err(NoMemory) => say(text, "out of memory"),
    }
}

fn say_row_itself(alloc: Global, text: &mut String, row: Row) {
    match from_row::<Row>(alloc, row) {
        Ok(row) => {
            say_row(alloc, text, &row);
            drop(row);
        }
        Err(error) => {
            say_row_refusal(alloc, text, &error);
            drop(error);
        }
    }
}

fn say_row_become(alloc: Global, text: &mut String, wanted: &str, row: Row) {
    match wanted {
        "(u8,)" => say_row_as::<(u8,)>(alloc, text, row),
        "(u8,u8)" => say_row_as::<(u8, u8)>(alloc, text, row),
        "(u8,Option<bool>)" => say_row_as::<(u8, Option<bool>)>(alloc, text, row),
        "(u8,u8,u8)" => say_row_as::<(u8, u8, u8)>(alloc, text, row),
        "(u8,u8,u8,u8)" => say_row_as::<(u8, u8, u8, u8)>(alloc, text, row),
        _ => say_row_itself(alloc, text, row),
    }
}

/// Adds what a row becomes as a tuple, or as itself. The words: the type, and the row's values.
pub fn say_tuple(alloc: Global, text: &mut String, words: &str) {
    let (wanted, written) = words.split_once(' ').unwrap_or((words, ""));
    match row_of(alloc, written) {
        Ok(row) => say_row_become(alloc, text, wanted, row),
        Err(NoMemory) => say(text, "out of memory"),
    }
}
