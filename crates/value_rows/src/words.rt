//! Words of rows: numbers, bytes and values, as rows write them and as what comes out is told.
//!
//! A value is written `NULL`, `int 1`, `uint 1`, `bytes 61ff`, `text a`, `many 3` (three bytes 9), `float 1` and `double 1`
//! by its bits, `date 2020 12 31 23 59 58 0` or `time 1 0 22 59 58 0`, where the first 1 is the sign. Out of memory a text
//! lacks a part, and isn't the wanted one.

use my_frame::{Blob, NoMemory};
use my_opts::Millis;
use my_value::Value;
use my_value::shown::ShownValue;
use std::alloc::Global;

/// Adds a part to a text.
pub fn say(text: &mut String, part: &str) {
    let _ = text.push_str(part);
}

/// Adds a name and a number.
pub fn say_number(text: &mut String, name: &str, number: u128) {
    let _ = write!(text, "{name}{number}");
}

/// Adds hexadecimal digits of bytes.
pub fn say_bytes(alloc: Global, text: &mut String, bytes: &[u8]) {
    match hex::encode(alloc, bytes) {
        Ok(digits) => say(text, digits.as_str()),
        Err(_) => say(text, "out of memory"),
    }
}

/// Adds a value: bytes in hexadecimal digits, others as they are printed.
pub fn say_value(alloc: Global, text: &mut String, value: &Value) {
    match value {
        Value::Bytes(bytes) => {
            say(text, "bytes ");
            say_bytes(alloc, text, bytes.as_slice());
            return;
        }
        Value::Int(_) => say(text, "int "),
        Value::UInt(_) => say(text, "uint "),
        _ => {}
    }
    let _ = write!(text, "{}", ShownValue(value));
}

/// Adds values with a comma between them.
pub fn say_values(alloc: Global, text: &mut String, values: &[Value]) {
    let mut between = "";
    for value in values {
        say(text, between);
        say_value(alloc, text, value);
        between = ", ";
    }
}

/// The bytes that hexadecimal digits spell.
pub fn bytes_of(alloc: Global, digits: &str) -> Vec<u8> {
    match hex::decode(alloc, digits) {
        Ok(bytes) => bytes,
        Err(_) => Vec::new(alloc),
    }
}

/// The bytes of a word.
pub fn blob_of(alloc: Global, word: &str) -> Blob {
    match Blob::from_slice(alloc, word.as_bytes()) {
        Ok(bytes) => bytes,
        Err(NoMemory) => Blob::new(alloc),
    }
}

// This many bytes.
fn many(alloc: Global, count: u32) -> Blob {
    match vec![in alloc; 9u8; count as usize] {
        Ok(bytes) => Blob::from(bytes),
        Err(_) => Blob::new(alloc),
    }
}

/// The word at a place, counted from 0.
pub fn word(words: &str, place: usize) -> &str {
    words.split(' ').nth(place).unwrap_or("")
}

/// The number at a place.
pub fn number(words: &str, place: usize) -> Option<u64> {
    word(words, place).parse::<u64>().ok()
}

/// The milliseconds at a place.
pub fn millis(words: &str, place: usize) -> Option<Millis> {
    match number(words, place) {
        Some(millis) => Some(Millis::from_millis(millis)),
        None => None,
    }
}

/// The number of four bytes at a place.
pub fn part(words: &str, place: usize) -> u32 {
    word(words, place).parse::<u32>().unwrap_or(u32::MAX)
}

/// The number of two bytes at a place.
pub fn short(words: &str, place: usize) -> u16 {
    word(words, place).parse::<u16>().unwrap_or(u16::MAX)
}

/// The number of one byte at a place.
pub fn byte(words: &str, place: usize) -> u8 {
    word(words, place).parse::<u8>().unwrap_or(u8::MAX)
}

fn date_of(words: &str) -> Value {
    Value::Date(
        short(words, 0),
        byte(words, 1),
        byte(words, 2),
        byte(words, 3),
        byte(words, 4),
        byte(words, 5),
        part(words, 6),
    )
}

fn time_of(words: &str) -> Value {
    Value::Time(
        byte(words, 0) == 1,
        part(words, 1),
        byte(words, 2),
        byte(words, 3),
        byte(words, 4),
        part(words, 5),
    )
}

/// The value that a row writes so.
pub fn value_of(alloc: Global, written: &str) -> Value {
    let (kind, rest) = written.split_once(' ').unwrap_or((written, ""));
    match kind {
        "int" => Value::Int(rest.parse::<i64>().unwrap_or(i64::MIN)),
        "uint" => Value::UInt(number(rest, 0).unwrap_or(u64::MAX)),
        "bytes" => Value::Bytes(Blob::from(bytes_of(alloc, rest))),
        "text" => Value::Bytes(blob_of(alloc, rest)),
        "many" => Value::Bytes(many(alloc, part(rest, 0))),
        "float" => Value::FloatBits(part(rest, 0)),
        "double" => Value::DoubleBits(number(rest, 0).unwrap_or(u64::MAX)),
        "date" => date_of(rest),
        "time" => time_of(rest),
        _ => Value::NULL,
    }
}

/// The values that a row writes with a comma between them.
pub fn values_of(alloc: Global, written: &str) -> Vec<Value> {
    let mut values = Vec::new(alloc);
    for item in written.split(", ") {
        if !item.is_empty() {
            let _ = values.push(value_of(alloc, item));
        }
    }
    values
}
