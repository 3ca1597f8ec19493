//! Plays the rows.

use crate::calls::call_of;
use crate::given::{Head, Then, bytes_of, head_of, login, options};
use crate::peer::Peer;
use crate::said::{answered, failed};
use my_frame::NoMemory;
use my_reading::Call;
use my_session::{Session, SessionStep};
use my_statements::Statement;
use std::alloc::{AllocError, Global};
use std::fmt::Write;

// Steps the open call until it is answered or waits in vain. Where bytes are awaited, the next part is received.
fn carried(
    alloc: Global,
    peer: &mut Session,
    parts: &[&[u8]],
    then: Then,
    text: &mut String,
    last: &mut Option<Statement>,
) -> Result<(), NoMemory> {
    let mut given = 0usize;
    for _ in 0..100u8 {
        match peer.steps(alloc, 5) {
            None => return Ok(text.push_str("no call")?),
            Some(SessionStep::Send) => {
                peer.sends(text)?;
                text.push(' ')?;
            }
            Some(SessionStep::Need) => match parts.get(given) {
                Some(bytes) => {
                    peer.receives(bytes)?;
                    given = given.saturating_add(1);
                }
                None => {
                    if !peer.stops(then) {
                        return Ok(text.push_str("waits")?);
                    }
                }
            },
            Some(SessionStep::Done(answer)) => return Ok(answered(text, answer, last)?),
            Some(SessionStep::Fault(error)) => return Ok(failed(text, error)?),
        }
    }
    Ok(())
}

/// Begins a call and steps it, and adds what was sent, and the answer. These parts are received meanwhile, each where bytes are
/// awaited.
pub fn played(
    alloc: Global,
    peer: &mut Session,
    call: Call,
    parts: &[&[u8]],
    then: Then,
    text: &mut String,
    last: &mut Option<Statement>,
) -> Result<(), NoMemory> {
    match peer.begins(call) {
        Ok(true) => carried(alloc, peer, parts, then, text, last),
        Ok(false) => Ok(text.push_str("not begun")?),
        Err(error) => Ok(failed(text, error)?),
    }
}

/// Connects a session as its head says, and adds what was sent, and the answer.
pub fn connected(
    alloc: Global,
    peer: &mut Session,
    head: &Head,
    text: &mut String,
) -> Result<(), NoMemory> {
    let bytes = login(alloc, head)?;
    let mut last = None;
    let parts = [bytes.as_slice()];
    let played = played(
        alloc,
        peer,
        Call::Connect,
        &parts,
        head.then,
        text,
        &mut last,
    );
    drop(last);
    played
}

fn show_settings(peer: &Session, text: &mut String) -> Result<(), AllocError> {
    let (limit, wait) = peer.settings();
    write!(text, "{limit} {wait}")
}

// How many columns are known of the last statement.
fn show_columns(
    peer: &Session,
    text: &mut String,
    last: &Option<Statement>,
) -> Result<(), AllocError> {
    let known = match last {
        Some(statement) => peer.columns(statement),
        None => None,
    };
    match known {
        Some(count) => write!(text, "{count}"),
        None => text.push_str("none"),
    }
}

// A call with its bytes, of which so many come first.
fn shown_call(
    alloc: Global,
    peer: &mut Session,
    call: &str,
    bytes: &str,
    first: usize,
    then: Then,
    text: &mut String,
    last: &mut Option<Statement>,
) -> Result<(), NoMemory> {
    let bytes = bytes_of(alloc, bytes)?;
    let (head, rest) = bytes.as_slice().split_at(first.min(bytes.len()));
    let call = call_of(alloc, call, last)?;
    played(alloc, peer, call, &[head, rest], then, text, last)
}

// What a row shows. The bytes of a call after `~` are cut at this place.
fn shown(
    alloc: Global,
    peer: &mut Session,
    call: &str,
    bytes: &str,
    place: usize,
    then: Then,
    last: &mut Option<Statement>,
) -> Result<String, NoMemory> {
    let mut text = String::new(alloc);
    match call.strip_prefix('~') {
        Some(call) => shown_call(alloc, peer, call, bytes, place, then, &mut text, last)?,
        None => match call {
            "settings" => show_settings(peer, &mut text)?,
            "columns" => show_columns(peer, &mut text, last)?,
            "opts" => text.push_str(peer.user().unwrap_or("none"))?,
            _ => shown_call(alloc, peer, call, bytes, usize::MAX, then, &mut text, last)?,
        },
    }
    Ok(text)
}

// The call of a row, its bytes, and what it shows.
fn parts_of(row: &str) -> (&str, &str, &str) {
    let (call, rest) = row.split_once('|').unwrap_or((row, "|"));
    let (bytes, want) = rest.split_once('|').unwrap_or((rest, ""));
    (call, bytes, want)
}

// The first row that shows something else, with that; nothing where there is none.
fn fault_of_calls(
    alloc: Global,
    peer: &mut Session,
    talk: &str,
    place: usize,
    then: Then,
    last: &mut Option<Statement>,
) -> Result<String, NoMemory> {
    for row in talk.lines() {
        if row.starts_with('#') || row.starts_with('@') || row.starts_with('+') {
            continue;
        }
        let (call, bytes, want) = parts_of(row);
        let text = shown(alloc, peer, call, bytes, place, then, last)?;
        if text.as_str() != want {
            return Ok(format!(in alloc; "{row}\n{text}")?);
        }
    }
    Ok(String::new(alloc))
}

// The same of a new session, which connects first where the head says so.
fn fault_of_peer(
    alloc: Global,
    peer: &mut Session,
    head: &Head,
    talk: &str,
    place: usize,
) -> Result<String, NoMemory> {
    let mut text = String::new(alloc);
    if head.connects {
        connected(alloc, peer, head, &mut text)?;
        if !text.ends_with(" ok") {
            return Ok(text);
        }
    }
    let mut last = None;
    let fault = fault_of_calls(alloc, peer, talk, place, head.then, &mut last);
    drop(last);
    fault
}

// The head of a talk.
fn head_line(talk: &str) -> &str {
    for line in talk.lines() {
        if !line.starts_with('#') {
            return line;
        }
    }
    ""
}

fn fault_at(alloc: Global, talk: &str, place: usize) -> Result<String, NoMemory> {
    let head = head_of(head_line(talk));
    let mut peer = Session::made(alloc, options(alloc, &head)?)?;
    let fault = fault_of_peer(alloc, &mut peer, &head, talk, place);
    drop(peer);
    fault
}

// How many bytes the longest row has that is cut.
fn longest(alloc: Global, talk: &str) -> Result<usize, NoMemory> {
    let mut longest = 0usize;
    for row in talk.lines() {
        if row.starts_with('~') {
            let (_, bytes, _) = parts_of(row);
            longest = longest.max(bytes_of(alloc, bytes)?.len());
        }
    }
    Ok(longest)
}

/// The first row of a talk that shows something else, with that, wherever the bytes are cut; nothing where there is none.
pub fn fault_of_talk(alloc: Global, talk: &str) -> Result<String, NoMemory> {
    for place in 0..longest(alloc, talk)? {
        let fault = fault_at(alloc, talk, place)?;
        if !fault.is_empty() {
            return Ok(fault);
        }
    }
    fault_at(alloc, talk, usize::MAX)
}
