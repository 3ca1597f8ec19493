//! Tapes as text, and what the lines of a talk say of its tape.

use my_client::{Said, Tape};
use near_talks::{add_digits, digits_of, field};
use std::alloc::{AllocError, Global};

// How a call ended.
fn ended(said: &Said) -> &'static str {
    match said {
        Said::Answered(_) => "answered ",
        Said::Failed(_) => "failed ",
        Said::Cancelled(false) => "cancelled ",
        Said::Cancelled(true) => "cancelled and closed ",
    }
}

// How a call ends that has this answer.
fn ends(answer: &str) -> &'static str {
    match answer {
        "pending" => "pending ",
        "cancelled" => "cancelled ",
        "cancelled and closed" => "cancelled and closed ",
        // The call was answered, and the aid refused the connection.
        "error rejected" => "answered ",
        _ => {
            if answer.starts_with("error") {
                "failed "
            } else {
                "answered "
            }
        }
    }
}

// Adds a part of these bytes.
fn add_part(
    alloc: Global,
    text: &mut String,
    bytes: &[u8],
    from: usize,
    to: usize,
) -> Result<(), AllocError> {
    let part = bytes.get(from..to).unwrap_or(&[]);
    let digits = hex::encode(alloc, part)?;
    text.push_str(digits.as_str())?;
    text.push('\n')
}

// Adds how each call ended, with what it sent.
fn add_calls(alloc: Global, text: &mut String, tape: &Tape) -> Result<(), AllocError> {
    let sent = tape.sent.as_slice();
    let mut from = 0usize;
    for call in tape.calls.as_slice() {
        let to = call.sent_from as usize;
        add_part(alloc, text, sent, from, to)?;
        text.push_str(ended(&call.said))?;
        from = to;
    }
    if let Some(call) = &tape.pending {
        let to = call.sent_from as usize;
        add_part(alloc, text, sent, from, to)?;
        text.push_str("pending ")?;
        from = to;
    }
    add_part(alloc, text, sent, from, sent.len())
}

// How each call ended with what it sent, and what was taken.
fn written(alloc: Global, tape: &Option<Tape>) -> Result<String, AllocError> {
    let mut text = String::new(alloc);
    if let Some(tape) = tape {
        add_calls(alloc, &mut text, tape)?;
        add_part(alloc, &mut text, tape.taken.as_slice(), 0, tape.taken.len())?;
    }
    Ok(text)
}

// Adds how the calls of a line end, with what they send.
fn add_wanted(text: &mut String, want: &str) -> Result<(), AllocError> {
    if let Some((calls, answer)) = want.rsplit_once(", ") {
        let (earlier, last) = calls.rsplit_once(", ").unwrap_or(("", calls));
        for sent in earlier.split(", ") {
            if !sent.is_empty() {
                text.push_str("\nanswered ")?;
                add_digits(text, sent)?;
            }
        }
        text.push('\n')?;
        text.push_str(ends(answer))?;
        add_digits(text, last)?;
    }
    Ok(())
}

/// The digits of what is taken: of all that is played before `unread`.
pub fn add_taken(text: &mut String, talk: &str) -> Result<(), AllocError> {
    for line in talk.lines() {
        for word in field(line, 1).split(' ') {
            if word == "unread" {
                return Ok(());
            }
            text.push_str(digits_of(word))?;
        }
    }
    Ok(())
}

fn wanted(alloc: Global, talk: &str) -> Result<String, AllocError> {
    let mut text = String::new(alloc);
    for line in talk.lines() {
        add_wanted(&mut text, field(line, 2))?;
    }
    if !text.is_empty() {
        text.push('\n')?;
        add_taken(&mut text, talk)?;
        text.push('\n')?;
    }
    Ok(text)
}

/// Whether a tape is what the lines of a talk say, or none is kept. It is let go.
pub fn is_taped(alloc: Global, tape: Option<Tape>, talk: &str) -> bool {
    let text = written(alloc, &tape);
    drop(tape);
    match (text, wanted(alloc, talk)) {
        (Ok(text), Ok(want)) => text.as_str() == want.as_str(),
        _ => false,
    }
}
