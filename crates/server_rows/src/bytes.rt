//! Bytes as words of text.

use crate::rows::PARTS;
use my_frame::NoMemory;
use std::alloc::Global;

/// What is before the mark, and the number after it; 1 where there is no mark.
pub fn counted(text: &str, mark: char) -> (&str, u64) {
    match text.split_once(mark) {
        Some((item, count)) => (item, count.parse::<u64>().unwrap_or(0)),
        None => (text, 1),
    }
}

/// The words that a name is short for, or the word itself.
pub fn part_of(word: &str) -> &str {
    for line in PARTS.lines() {
        let (name, words) = line.split_once(' ').unwrap_or((line, ""));
        if name == word {
            return words;
        }
    }
    word
}

// Adds the bytes that hexadecimal digits spell; where they spell none, the row fails.
fn add_digits(alloc: Global, bytes: &mut Vec<u8>, digits: &str) -> Result<(), NoMemory> {
    match hex::decode(alloc, digits) {
        Ok(part) => Ok(bytes.extend_from_slice(part.as_slice())?),
        Err(_) => Err(NoMemory),
    }
}

// Adds packets of the same payload, with rising sequence ids.
fn add_packets(
    alloc: Global,
    bytes: &mut Vec<u8>,
    number: u64,
    payload: &str,
) -> Result<(), NoMemory> {
    let (digits, count) = counted(payload, '*');
    for index in 0..count {
        let len = (digits.len() / 2 % 0x100_0000) as u32;
        let id = (number.wrapping_add(index) % 256) as u32;
        bytes.extend_from_slice(&(len | id << 24).to_le_bytes())?;
        add_digits(alloc, bytes, digits)?;
    }
    Ok(())
}

fn add_word(alloc: Global, bytes: &mut Vec<u8>, word: &str) -> Result<(), NoMemory> {
    if let Some((number, payload)) = word.split_once(':') {
        return add_packets(alloc, bytes, number.parse::<u64>().unwrap_or(0), payload);
    }
    let Some(count) = word.strip_prefix('#') else {
        return add_digits(alloc, bytes, word);
    };
    for _ in 0..count.parse::<u64>().unwrap_or(0) {
        bytes.push(b'x')?;
    }
    Ok(())
}

/// The bytes that words spell.
pub fn bytes_of(alloc: Global, text: &str) -> Result<Vec<u8>, NoMemory> {
    let mut bytes = Vec::new(alloc);
    for name in text.split(' ') {
        for word in part_of(name).split(' ') {
            add_word(alloc, &mut bytes, word)?;
        }
    }
    Ok(bytes)
}
