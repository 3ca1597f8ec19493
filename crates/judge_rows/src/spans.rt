//! Tapes of rows.

use crate::lines::{bytes_of, cut, field, place};
use crate::logins::login;
use crate::words::{call_of, ending_of};
use my_frame::{Blob, Listed, NoMemory};
use my_judge::{Ending, Tape, TapeCall, Verdict, judge};
use my_reading::Call;
use std::alloc::Global;

/// A call with its bytes and how it ended.
#[derive(Drop)]
pub struct Span {
    /// None where the bytes are those of no call.
    pub call: Option<Call>,
    pub sent: Vec<u8>,
    pub taken: Vec<u8>,
    pub ending: Option<Ending>,
    /// Where it begins, if that isn't where the one before it ends.
    pub place: Option<(usize, usize)>,
}

/// Whether a line has a call of the tape.
pub fn is_call(line: &str) -> bool {
    !line.starts_with('-') && !field(line, 3).is_empty()
}

fn place_of(words: &str) -> Option<(usize, usize)> {
    let words = words.strip_prefix("at ")?;
    let (sent, taken) = cut(words);
    Some((place(sent), place(taken)))
}

/// The call of a line.
pub fn span_of(alloc: Global, line: &str) -> Result<Span, NoMemory> {
    let sent = bytes_of(alloc, field(line, 1))?;
    let taken = bytes_of(alloc, field(line, 2))?;
    let ending = ending_of(alloc, field(line, 3))?;
    let call = match call_of(alloc, field(line, 0)) {
        Ok(call) => call,
        Err(NoMemory) => {
            drop(ending);
            return Err(NoMemory);
        }
    };
    Ok(Span {
        call,
        sent,
        taken,
        ending,
        place: place_of(field(line, 4)),
    })
}

/// The calls of a row.
pub fn spans_of(alloc: Global, row: &str) -> Result<Vec<Span>, NoMemory> {
    let mut spans = Vec::new(alloc);
    for line in row.lines() {
        if is_call(line) {
            spans.push(span_of(alloc, line)?)?;
        }
    }
    Ok(spans)
}

// The bytes and calls of spans so far.
#[derive(Drop)]
struct Parts {
    sent: Vec<u8>,
    taken: Vec<u8>,
    calls: Listed<TapeCall>,
}

fn add_call(parts: &mut Parts, span: Span, here: (usize, usize)) -> Result<(), NoMemory> {
    let Span {
        call,
        ending,
        place,
        ..
    } = span;
    let (sent_from, taken_from) = place.unwrap_or(here);
    match call {
        Some(call) => parts.calls.push(TapeCall {
            call,
            sent_from,
            taken_from,
            ending,
        }),
        None => Ok(()),
    }
}

fn add_span(parts: &mut Parts, span: Span) -> Result<(), NoMemory> {
    let here = (parts.sent.len(), parts.taken.len());
    parts.sent.extend_from_slice(span.sent.as_slice())?;
    parts.taken.extend_from_slice(span.taken.as_slice())?;
    add_call(parts, span, here)
}

fn add_spans(parts: &mut Parts, spans: Vec<Span>) -> Result<(), NoMemory> {
    for span in spans {
        add_span(parts, span)?;
    }
    Ok(())
}

// The tape of these calls.
fn tape_of(alloc: Global, spans: Vec<Span>) -> Result<Tape, NoMemory> {
    let mut parts = Parts {
        sent: Vec::new(alloc),
        taken: Vec::new(alloc),
        calls: Listed::new(alloc),
    };
    add_spans(&mut parts, spans)?;
    Ok(Tape {
        sent: Blob::from(parts.sent),
        taken: Blob::from(parts.taken),
        calls: parts.calls,
    })
}

/// What is found of the tape of these calls, of a client that logs in so.
pub fn judged(alloc: Global, who: &str, spans: Vec<Span>) -> Result<Verdict, NoMemory> {
    let tape = tape_of(alloc, spans)?;
    let verdict = match login(alloc, who) {
        Ok(login) => {
            let verdict = judge(alloc, &login, &tape);
            drop(login);
            verdict
        }
        Err(NoMemory) => Err(NoMemory),
    };
    drop(tape);
    verdict
}
