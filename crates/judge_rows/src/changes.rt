//! Changes of tapes.

use crate::spans::Span;
use crate::words::ending_of;
use my_frame::NoMemory;
use std::alloc::{AllocError, Global};

/// One change of a tape, at one of its calls. By name: `ending`, another ending, in its words; `sent byte`, `taken
/// byte`, a bit of the byte at this place is turned; `sent less`, `sent more`, `taken less`, `taken more`, the last byte
/// is missing, or there is one more; `missing`, `missing name`, the call is missing with its bytes, or without them;
/// `swapped`, the call and the next one; `sent later`, `taken later`, the last byte is counted for the next call;
/// `sent earlier`, `taken earlier`, the next call's first byte is counted for the call; `nothing`.
#[derive(Clone, Copy)]
pub struct Change<'a> {
    pub name: &'a str,
    pub place: usize,
    pub told: &'a str,
}

fn turn(bytes: &mut Vec<u8>, at: usize) {
    if at < bytes.len() {
        bytes[at] ^= 1;
    }
}

fn change_span(alloc: Global, span: &mut Span, change: Change) -> Result<(), NoMemory> {
    match change.name {
        "ending" => span.ending = ending_of(alloc, change.told)?,
        "sent byte" => turn(&mut span.sent, change.place),
        "taken byte" => turn(&mut span.taken, change.place),
        "sent less" => {
            let _ = span.sent.pop();
        }
        "sent more" => span.sent.push(0x77)?,
        "taken less" => {
            let _ = span.taken.pop();
        }
        "taken more" => span.taken.push(0x77)?,
        _ => {}
    }
    Ok(())
}

fn put_first(bytes: &mut Vec<u8>, byte: Option<u8>) -> Result<(), AllocError> {
    if let Some(byte) = byte {
        bytes.insert(0, byte)?;
    }
    Ok(())
}

fn put_last(bytes: &mut Vec<u8>, byte: Option<u8>) -> Result<(), AllocError> {
    if let Some(byte) = byte {
        bytes.push(byte)?;
    }
    Ok(())
}

fn take_first(bytes: &mut Vec<u8>) -> Option<u8> {
    if bytes.is_empty() {
        return None;
    }
    Some(bytes.remove(0))
}

// The bytes of a call that is gone are those of the call before it.
fn give_back(spans: &mut Vec<Span>, at: usize, gone: &Span) -> Result<(), NoMemory> {
    if at > 0 && at <= spans.len() {
        spans[at - 1].sent.extend_from_slice(gone.sent.as_slice())?;
        spans[at - 1]
            .taken
            .extend_from_slice(gone.taken.as_slice())?;
    }
    Ok(())
}

fn change_order(spans: &mut Vec<Span>, at: usize, name: &str) -> Result<(), NoMemory> {
    if at >= spans.len() {
        return Ok(());
    }
    match name {
        "missing" => drop(spans.remove(at)),
        "missing name" => {
            let gone = spans.remove(at);
            let given = give_back(spans, at, &gone);
            drop(gone);
            given?;
        }
        _ => {}
    }
    Ok(())
}

fn change_two(spans: &mut Vec<Span>, at: usize, name: &str) -> Result<(), NoMemory> {
    if at.saturating_add(1) >= spans.len() {
        return Ok(());
    }
    match name {
        "swapped" => spans.swap(at, at + 1),
        "sent later" => {
            let byte = spans[at].sent.pop();
            put_first(&mut spans[at + 1].sent, byte)?;
        }
        "taken later" => {
            let byte = spans[at].taken.pop();
            put_first(&mut spans[at + 1].taken, byte)?;
        }
        "sent earlier" => {
            let byte = take_first(&mut spans[at + 1].sent);
            put_last(&mut spans[at].sent, byte)?;
        }
        "taken earlier" => {
            let byte = take_first(&mut spans[at + 1].taken);
            put_last(&mut spans[at].taken, byte)?;
        }
        _ => {}
    }
    Ok(())
}

/// Makes the change at this call.
pub fn change_spans(
    alloc: Global,
    spans: &mut Vec<Span>,
    at: usize,
    change: Change,
) -> Result<(), NoMemory> {
    if at < spans.len() {
        change_span(alloc, &mut spans[at], change)?;
    }
    change_order(spans, at, change.name)?;
    change_two(spans, at, change.name)
}
