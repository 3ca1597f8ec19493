//! Why a run ended, in one line for standard error.
ghost use Rattle.std.specs.Prelude.{◌≡◌, ◌++◌, ◌∷◌, [], encode_utf8, map, option_map, string_bytes, OnOk, IfOk};
ghost use Rattle.my_cli.specs.Message.{printable, printed, words_text, no_command_text, bad_line_text, MessageIs};

use crate::help::USAGE;
use crate::unread::{Unread, why_unread};
use crate::words::is_live;
use my_run::Status;
use std::alloc::{AllocError, Global};

/// The character of a byte that can be printed, or `?`.
pub fn printable_char(byte: u8) -> char
    ensures { encode_utf8 result ≡ printable byte ∷ [] }
{
    if byte.is_ascii_graphic() || byte == b' ' {
        byte as char
    } else {
        '?'
    }
}

// Appends the bytes, with `?` in place of what can't be printed.
fn push_printed(text: &mut String, bytes: &[u8]) -> Result<(), AllocError>
    ensures { OnOk result (string_bytes text.new ≡ string_bytes text.old ++ printed bytes.now) }
{
    for byte in bytes {
        text.push(printable_char(*byte))?;
    }
    Ok(())
}

// Appends each word after a blank.
fn push_words(text: &mut String, words: &[String]) -> Result<(), AllocError>
    ensures { OnOk result (string_bytes text.new ≡ string_bytes text.old ++ words_text (map string_bytes words.now)) }
{
    for word in words {
        text.push(' ')?;
        push_printed(text, word.as_bytes())?;
    }
    Ok(())
}

fn no_command(alloc: Global, words: &[String]) -> Result<String, AllocError>
    ensures { IfOk result (λ text. string_bytes text ≡ no_command_text (map string_bytes words.now)) }
{
    if words.is_empty() {
        return String::from_str(alloc, USAGE);
    }
    let mut text = String::from_str(alloc, "no such command:")?;
    push_words(&mut text, words)?;
    text.push_str("; --help teaches the words")?;
    Ok(text)
}

// Of a longer line no more is there, so that no word of it is missing.
const LONGEST_SHOWN: usize = 200;

fn cause_of(is_live: bool, line: &[u8]) -> Unread {
    if line.last() == Some(&b'\r') {
        return Unread::Return;
    }
    match str::from_utf8(line) {
        Err(_) => Unread::Word,
        Ok(text) => match why_unread(is_live, text) {
            Unread::MissingWord if line.len() >= LONGEST_SHOWN => Unread::Word,
            cause => cause,
        },
    }
}

fn bad_line(alloc: Global, number: u64, cause: Unread, line: &[u8]) -> Result<String, AllocError>
    ensures { IfOk result (λ text. string_bytes text ≡ bad_line_text number cause line.now) }
{
    let mut text = String::from_str(alloc, "line ")?;
    text.push_str(number.to_string(alloc)?.as_str())?;
    text.push_str(" doesn't read (")?;
    text.push_str(cause.text())?;
    text.push_str("): ")?;
    push_printed(&mut text, line)?;
    Ok(text)
}

/// Why a run of these words ended with this status; none where all steps were run.
pub fn message(
    alloc: Global,
    words: &[String],
    status: &Status,
) -> Result<Option<String>, AllocError>
    ensures { IfOk result (λ m. MessageIs (map string_bytes words.now) status.now (option_map string_bytes m)) }
{
    let text = match status {
        Status::Done => return Ok(None),
        Status::NoCommand => no_command(alloc, words)?,
        Status::Unread(line) => {
            let bytes = line.text.as_slice();
            bad_line(alloc, line.number, cause_of(is_live(words), bytes), bytes)?
        }
        Status::SourceFailed => String::from_str(alloc, "standard input failed")?,
        Status::SinkFailed => String::from_str(alloc, "standard output failed")?,
        Status::Refused(fault) => format!(in alloc; "{fault}")?,
        Status::TooLong => {
            String::from_str(alloc, "standard input has more than 67108864 bytes")?
        }
        Status::NoMemory => String::from_str(alloc, "out of memory")?,
    };
    Ok(Some(text))
}
