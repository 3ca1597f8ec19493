//! What reads return, as texts.

use my_connect::QueryError;
use near_talks::refused;
use std::alloc::AllocError;

/// A person: a number, and a name.
pub type Numbered = (u64, String);

/// Adds a word.
pub fn add(text: &mut String, word: &str) -> Result<(), AllocError> {
    if !text.is_empty() {
        text.push_str(" ")?;
    }
    text.push_str(word)?;
    Ok(())
}

/// Which person was read.
pub fn number_word(read: &Result<Option<Numbered>, QueryError>) -> &'static str {
    match read {
        Ok(Some((7, _))) => "7",
        Ok(Some((9, _))) => "9",
        Ok(Some(_)) => "a number",
        Ok(None) => "end",
        Err(error) => refused(error),
    }
}
