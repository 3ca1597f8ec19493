//! Fields of lines, and the bytes that they name.

use crate::parts::PARTS;
use my_frame::NoMemory;
use std::alloc::Global;

/// A field of a line.
pub fn field(line: &str, number: usize) -> &str {
    line.split('|').nth(number).unwrap_or("").trim()
}

/// A word, and what follows the space after it.
pub fn cut(text: &str) -> (&str, &str) {
    text.split_once(' ').unwrap_or((text, ""))
}

/// A number; the largest one where the text isn't one.
pub fn number(text: &str) -> u64 {
    text.parse::<u64>().unwrap_or(u64::MAX)
}

/// A place in a list; the largest one where the text isn't one.
pub fn place(text: &str) -> usize {
    text.parse::<usize>().unwrap_or(usize::MAX)
}

// The digits of the part that the word names after an `@`, or the word.
fn digits_of(word: &str) -> &str {
    let Some(name) = word.strip_prefix('@') else {
        return word;
    };
    for line in PARTS.lines() {
        let (found, digits) = cut(line);
        if found == name {
            return digits;
        }
    }
    "no such part"
}

fn add_digits(alloc: Global, bytes: &mut Vec<u8>, digits: &str) -> Result<(), NoMemory> {
    match hex::decode(alloc, digits) {
        Ok(part) => Ok(bytes.extend_from_slice(part.as_slice())?),
        Err(_) => Err(NoMemory),
    }
}

/// Adds the bytes of each word: a part's name after an `@`, or their digits; `-` has none.
pub fn add_bytes(alloc: Global, bytes: &mut Vec<u8>, words: &str) -> Result<(), NoMemory> {
    for word in words.split(' ') {
        if word != "-" {
            add_digits(alloc, bytes, digits_of(word))?;
        }
    }
    Ok(())
}

/// The text with the digits of each part in place of its name.
pub fn spelled(alloc: Global, text: &str) -> Result<String, NoMemory> {
    let mut all = String::new(alloc);
    for line in text.lines() {
        for word in line.split(' ') {
            all.push_str(digits_of(word))?;
            all.push(' ')?;
        }
        all.push('\n')?;
    }
    Ok(all)
}

/// The bytes of these words.
pub fn bytes_of(alloc: Global, words: &str) -> Result<Vec<u8>, NoMemory> {
    let mut bytes = Vec::new(alloc);
    add_bytes(alloc, &mut bytes, words)?;
    Ok(bytes)
}
