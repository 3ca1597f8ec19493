//! Words of a row, and what its player notes.

use my_frame::NoMemory;
use std::alloc::Global;
use std::fmt::{Display, Write};

/// What the calls of a row do, in words, each after a space. Bytes are hexadecimal digits, `-` where there are none.
#[derive(Drop)]
pub struct Notes {
    pub alloc: Global,
    text: String,
    // Memory ran out, or digits of the row spell no bytes.
    is_broken: bool,
}

impl Notes {
    /// No words.
    pub fn new(alloc: Global) -> Notes {
        Notes {
            alloc,
            text: String::new(alloc),
            is_broken: false,
        }
    }

    /// Forgets its words.
    pub fn clear(&mut self) {
        self.text.clear();
    }

    /// The row fails unless this holds.
    pub fn must(&mut self, holds: bool) {
        self.is_broken = self.is_broken || !holds;
    }

    pub fn word(&mut self, word: &str) {
        self.shown(&word);
    }

    pub fn number(&mut self, number: u64) {
        self.shown(&number);
    }

    pub fn shown<T: Display>(&mut self, value: &T) {
        let is_noted = write!(self.text, " {value}").is_ok();
        self.must(is_noted);
    }

    pub fn bytes(&mut self, bytes: &[u8]) {
        if bytes.is_empty() {
            return self.word("-");
        }
        match hex::encode(self.alloc, bytes) {
            Ok(digits) => self.word(digits.as_str()),
            Err(_) => self.must(false),
        }
    }

    /// Notes these numbers, and then these texts.
    pub fn record(&mut self, numbers: &[u64], texts: &[&[u8]]) {
        for &number in numbers {
            self.number(number);
        }
        for text in texts {
            self.bytes(text);
        }
    }

    /// Notes a payload that is to be sent.
    pub fn payload(&mut self, written: Result<Vec<u8>, NoMemory>) {
        match written {
            Ok(payload) => self.bytes(payload.as_slice()),
            Err(_) => self.must(false),
        }
    }

    /// The bytes that digits spell.
    pub fn spelled(&mut self, digits: &str) -> Vec<u8> {
        match hex::decode(self.alloc, digits.trim_start_matches('-')) {
            Ok(bytes) => bytes,
            Err(_) => {
                self.must(false);
                Vec::new(self.alloc)
            }
        }
    }

    /// Whether these are the words.
    pub fn are(&self, words: &str) -> bool {
        !self.is_broken && self.text.as_str() == words
    }
}

/// The number that a word spells; the greatest one where it spells none.
pub fn number(word: &str) -> u64 {
    word.parse::<u64>().unwrap_or(u64::MAX)
}

/// The first word, and those after it.
pub fn pair(words: &str) -> (&str, &str) {
    words.split_once(' ').unwrap_or((words, ""))
}

/// The first four words.
pub fn four(words: &str, between: char) -> [&str; 4] {
    let mut parts = words.split(between);
    [
        parts.next().unwrap_or(""),
        parts.next().unwrap_or(""),
        parts.next().unwrap_or(""),
        parts.next().unwrap_or(""),
    ]
}
