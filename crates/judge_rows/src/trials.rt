//! The changes that are made of each call of a tape, and what is found of the tape then.

use crate::changes::{Change, change_spans};
use crate::lines::{bytes_of, field};
use crate::spans::{is_call, judged, spans_of};
use my_frame::NoMemory;
use my_judge::Verdict;
use std::alloc::Global;

const ENDINGS: &str =
    "ready, row 1, row 2, end, none, flag 0, flag 1, error 1064, refused closed, link 4, eof 4, \
unfit 4, number 1 3, cancelled 0, cancelled 1, open";

/// How many changes were refuted, and whether each had the verdict that it should have.
#[derive(Drop)]
pub struct Count {
    pub refuted: usize,
    pub is_right: bool,
}

fn is_among(word: &str, all: &str) -> bool {
    for other in all.split(", ") {
        if other == word {
            return true;
        }
    }
    false
}

/// Who logs in on the tape of a row.
pub fn who(row: &str) -> &str {
    for line in row.lines() {
        if let Some(who) = line.strip_prefix("login ") {
            return who.trim();
        }
    }
    ""
}

// How many calls a row has.
fn calls_in(row: &str) -> usize {
    let mut calls = 0usize;
    for line in row.lines() {
        if is_call(line) {
            calls = calls.wrapping_add(1);
        }
    }
    calls
}

// What is found of the tape with a change.
fn found(alloc: Global, row: &str, at: usize, change: Change) -> Result<Verdict, NoMemory> {
    let mut spans = spans_of(alloc, row)?;
    change_spans(alloc, &mut spans, at, change)?;
    judged(alloc, who(row), spans)
}

/// A change of this name alone.
pub fn named(name: &str) -> Change<'_> {
    Change {
        name,
        place: 0,
        told: "",
    }
}

/// The change of this call is refuted at that one.
pub fn refute(
    alloc: Global,
    row: &str,
    count: &mut Count,
    at: usize,
    change: Change,
    by: usize,
) -> Result<(), NoMemory> {
    if found(alloc, row, at, change)? != Verdict::Refuted(by) {
        count.is_right = false;
    }
    count.refuted = count.refuted.saturating_add(1);
    Ok(())
}

/// The change is one that the reading allows.
pub fn allow(
    alloc: Global,
    row: &str,
    count: &mut Count,
    at: usize,
    change: Change,
) -> Result<(), NoMemory> {
    if found(alloc, row, at, change)? != Verdict::Accepted {
        count.is_right = false;
    }
    Ok(())
}

// An ending that the bytes allow may close the connection.
fn may_end(
    alloc: Global,
    row: &str,
    count: &mut Count,
    at: usize,
    change: Change,
) -> Result<(), NoMemory> {
    if found(alloc, row, at, change)? == Verdict::Refuted(at) {
        count.is_right = false;
    }
    Ok(())
}

// Each other ending is refuted, but for those that the bytes allow.
fn endings(
    alloc: Global,
    row: &str,
    count: &mut Count,
    at: usize,
    line: &str,
) -> Result<(), NoMemory> {
    for told in ENDINGS.split(", ") {
        let change = Change {
            name: "ending",
            place: 0,
            told,
        };
        if is_among(told, field(line, 5)) {
            may_end(alloc, row, count, at, change)?;
        } else if told != field(line, 3) {
            refute(alloc, row, count, at, change, at)?;
        }
    }
    Ok(())
}

// The first byte that was sent, one in the middle, and the last one are others.
fn sent_bytes(
    alloc: Global,
    row: &str,
    count: &mut Count,
    at: usize,
    bytes: usize,
) -> Result<(), NoMemory> {
    for place in [0, bytes / 2, bytes.saturating_sub(1)] {
        let change = Change {
            name: "sent byte",
            place,
            told: "",
        };
        refute(alloc, row, count, at, change, at)?;
    }
    Ok(())
}

// Bytes that were sent are those of the call.
fn sent(
    alloc: Global,
    row: &str,
    count: &mut Count,
    at: usize,
    line: &str,
) -> Result<(), NoMemory> {
    refute(alloc, row, count, at, named("sent more"), at)?;
    let bytes = bytes_of(alloc, field(line, 1))?.len();
    if bytes == 0 {
        return Ok(());
    }
    sent_bytes(alloc, row, count, at, bytes)?;
    if field(line, 4) != "more" {
        refute(alloc, row, count, at, named("sent less"), at)?;
        if at.saturating_add(1) < calls_in(row) {
            refute(alloc, row, count, at, named("sent later"), at)?;
        }
    }
    if at > 0 {
        refute(alloc, row, count, at, named("missing name"), at - 1)?;
        refute(alloc, row, count, at - 1, named("sent earlier"), at - 1)?;
    }
    Ok(())
}

// A byte of the first header that was received is another.
fn header_byte(
    alloc: Global,
    row: &str,
    count: &mut Count,
    at: usize,
    place: usize,
    needed: bool,
) -> Result<(), NoMemory> {
    let change = Change {
        name: "taken byte",
        place,
        told: "",
    };
    if needed {
        refute(alloc, row, count, at, change, at)
    } else {
        allow(alloc, row, count, at, change)
    }
}

// A call needs the headers of the bytes that it received, and all of them.
fn all_taken(alloc: Global, row: &str, count: &mut Count, at: usize) -> Result<(), NoMemory> {
    header_byte(alloc, row, count, at, 0, true)?;
    header_byte(alloc, row, count, at, 3, true)?;
    refute(alloc, row, count, at, named("taken less"), at)?;
    if at.saturating_add(1) < calls_in(row) {
        refute(alloc, row, count, at, named("taken later"), at)?;
    }
    Ok(())
}

// By what the call needs of what it received.
fn taken(
    alloc: Global,
    row: &str,
    count: &mut Count,
    at: usize,
    line: &str,
) -> Result<(), NoMemory> {
    if field(line, 4) == "closed" {
        return refute(alloc, row, count, at, named("taken more"), at);
    }
    if field(line, 2) == "-" || field(line, 4) == "more" {
        return Ok(());
    }
    if field(line, 4) != "number" {
        return all_taken(alloc, row, count, at);
    }
    header_byte(alloc, row, count, at, 3, true)?;
    header_byte(alloc, row, count, at, 0, false)?;
    allow(alloc, row, count, at, named("taken less"))
}

fn all_of_call(
    alloc: Global,
    row: &str,
    count: &mut Count,
    at: usize,
    line: &str,
) -> Result<(), NoMemory> {
    endings(alloc, row, count, at, line)?;
    sent(alloc, row, count, at, line)?;
    taken(alloc, row, count, at, line)
}

/// All changes of each call from this one on.
pub fn all(alloc: Global, row: &str, count: &mut Count, from: usize) -> Result<(), NoMemory> {
    let mut at = 0usize;
    for line in row.lines() {
        if is_call(line) {
            if at >= from {
                all_of_call(alloc, row, count, at, line)?;
            }
            at = at.wrapping_add(1);
        }
    }
    Ok(())
}
