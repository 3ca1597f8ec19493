//! The words of rows.

use crate::parts::PARTS;
use my_frame::Blob;
use std::alloc::{AllocError, Global};

/// A field of a line: the call, what the link plays for it, or what it sends with its answer.
pub fn field(line: &str, number: usize) -> &str {
    line.split('|').nth(number).unwrap_or("").trim()
}

/// The line that makes the connection.
pub fn first_line(talk: &str) -> &str {
    talk.lines().next().unwrap_or("")
}

/// The last of what a call sends with its answer.
pub fn answer_of(line: &str) -> &str {
    let want = field(line, 2);
    match want.rsplit_once(", ") {
        Some((_sent, answer)) => answer,
        None => want,
    }
}

fn part_of(name: &str) -> &'static str {
    for line in PARTS.lines() {
        let (found, digits) = line.split_once(' ').unwrap_or((line, ""));
        if found == name {
            return digits;
        }
    }
    ""
}

/// The digits of a word that has bytes: a part, or digits of which the first is below ten. Another word has none.
pub fn digits_of(word: &str) -> &str {
    if let Some(name) = word.strip_prefix('@') {
        return part_of(name);
    }
    match word.as_bytes().first() {
        Some(b'0'..=b'9') => word,
        _ => "",
    }
}

/// Adds the digits of words.
pub fn add_digits(text: &mut String, words: &str) -> Result<(), AllocError> {
    for word in words.split(' ') {
        text.push_str(digits_of(word))?;
    }
    Ok(())
}

/// The bytes of a text, or none where there is no memory.
pub fn blob_of(alloc: Global, text: &str) -> Blob {
    match Blob::from_slice(alloc, text.as_bytes()) {
        Ok(bytes) => bytes,
        Err(_) => Blob::new(alloc),
    }
}
