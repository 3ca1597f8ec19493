//! Runs a row, and compares how it ends and what is written.

use crate::judged::fault_of;
use crate::text::{cut, field, marked, number};
use my_frame::{MemSink, MemSource, NoMemory, Source};
use my_link::{MemWorld, World};
use my_run::{Report, Status, run_tool};
use my_script::BadLine;
use std::alloc::{AllocError, Global};
use std::str;

/// The words of a plain script.
pub const PLAIN: &str = "script\nplain,root,,4194304,28800\n";

fn words_of(alloc: Global, words: &str) -> Result<Vec<String>, AllocError> {
    let mut owned = Vec::new(alloc);
    for word in words.lines() {
        owned.push(String::from_str(alloc, word)?)?;
    }
    Ok(owned)
}

/// How the program ends with these words, each in a line.
pub fn ends<S: Source, N: World>(
    alloc: Global,
    words: &str,
    src: &mut S,
    out: &mut MemSink,
    world: &mut N,
) -> Result<Report, NoMemory> {
    let words = words_of(alloc, words)?;
    Ok(run_tool(alloc, words.as_slice(), src, out, world))
}

fn is_line(line: &BadLine, cause: &str) -> bool {
    let (at, text) = cut(cause);
    line.number == number(at) && line.text.as_slice() == text.as_bytes()
}

fn is_caused(alloc: Global, status: &Status, row: &str) -> Result<bool, AllocError> {
    let cause = field(row, "cause ").unwrap_or("");
    match status {
        Status::Refused(fault) => Ok(fault.to_string(alloc)?.as_str() == cause),
        Status::Unread(line) => Ok(is_line(line, cause)),
        _ => Ok(cause.is_empty()),
    }
}

fn is_shown(out: &[u8], shows: &str, row: &str) -> bool {
    if field(row, "whole").is_some() {
        out == shows.as_bytes()
    } else {
        out.starts_with(shows.as_bytes())
    }
}

fn is_ended(alloc: Global, status: &Status, out: &[u8], row: &str) -> Result<bool, AllocError> {
    let code = match field(row, "status ") {
        Some(text) => number(text),
        None => 0,
    };
    let shows = marked(alloc, row, '<')?;
    Ok(
        u64::from(status.code()) == code
            && is_shown(out, shows.as_str(), row)
            && is_caused(alloc, status, row)?,
    )
}

fn room_of(row: &str) -> usize {
    match field(row, "room ") {
        Some(text) => (number(text) & 0xff_ffff) as usize,
        None => 65_536,
    }
}

// What is otherwise in this row than it says, where the run ended well.
fn fault_after(
    alloc: Global,
    words: &str,
    script: &str,
    report: Report,
    row: &str,
) -> Result<String, NoMemory> {
    let Report { status, transcript } = report;
    let is_judged = status.code() == 0 && field(row, "unjudged").is_none();
    drop(status);
    if is_judged {
        fault_of(alloc, words, script, transcript, row)
    } else {
        drop(transcript);
        Ok(String::new(alloc))
    }
}

/// What is otherwise in the run of a row with these words, each in a line, in this world than the row says; nothing where all is so.
pub fn fault_with<N: World>(
    alloc: Global,
    words: &str,
    row: &str,
    world: &mut N,
) -> Result<String, NoMemory> {
    let script = marked(alloc, row, '>')?;
    let mut src = MemSource::new(script.as_bytes().to_vec(alloc)?);
    let mut out = MemSink::new(alloc, room_of(row))?;
    let report = ends(alloc, words, &mut src, &mut out, world)?;
    let is_ended = is_ended(alloc, &report.status, out.taken(), row);
    let fault = fault_after(alloc, words, script.as_str(), report, row);
    if is_ended? {
        fault
    } else {
        let written = str::from_utf8(out.taken()).unwrap_or("no text");
        Ok(String::from_str(alloc, written)?)
    }
}

/// What is otherwise in the run of a row in a world in memory than the row says.
pub fn fault_in_memory(alloc: Global, row: &str) -> Result<String, NoMemory> {
    let mut world = MemWorld::new(alloc);
    if field(row, "$").is_none() {
        return fault_with(alloc, PLAIN, row, &mut world);
    }
    let words = marked(alloc, row, '$')?;
    fault_with(alloc, words.as_str(), row, &mut world)
}
