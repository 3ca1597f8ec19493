//! What no row has: moments, the buffer, what is owed of a long value, and many statements.

use crate::given::{Head, add_digits, bytes_of, head_of, options};
use crate::peer::Peer;
use crate::play::{connected, played};
use my_frame::{Blob, Listed, NoMemory};
use my_params::Params;
use my_reading::{Answer, Call};
use my_session::{Session, SessionStep};
use my_statements::Statement;
use my_value::Value;
use std::alloc::Global;
use std::fmt::Write;
use std::test::Fail;

// Whether a step asks to send, or for bytes, or the call is ready: `s`, `n` or `r`; `-` where no call is open.
fn letter(step: Option<SessionStep>) -> char {
    let letter = match &step {
        Some(SessionStep::Send) => 's',
        Some(SessionStep::Need) => 'n',
        Some(SessionStep::Done(Answer::Ready)) => 'r',
        Some(SessionStep::Done(_) | SessionStep::Fault(_)) => '?',
        None => '-',
    };
    drop(step);
    letter
}

// Adds what a step at this moment asks, and the moment of the last payload.
fn step_at(alloc: Global, peer: &mut Session, now: u64, text: &mut String) -> Result<(), NoMemory> {
    text.push(letter(peer.steps(alloc, now)))?;
    write!(text, "{} ", peer.read_at())?;
    Ok(())
}

// Begins a call that isn't refused.
fn begins(peer: &mut Session, call: Call) -> bool {
    match peer.begins(call) {
        Ok(begun) => begun,
        Err(error) => {
            drop(error);
            false
        }
    }
}

// A ping that is sent at 6, awaited at 7 and answered at 8.
fn pings(alloc: Global, peer: &mut Session, text: &mut String) -> Result<(), NoMemory> {
    write!(text, "{} ", begins(peer, Call::Ping))?;
    step_at(alloc, peer, 6, text)?;
    peer.sends(text)?;
    text.push(' ')?;
    step_at(alloc, peer, 7, text)?;
    peer.receives(bytes_of(alloc, "0700000100000002000000")?.as_slice())?;
    step_at(alloc, peer, 8, text)?;
    step_at(alloc, peer, 9, text)
}

// What a session says of itself before it connects, then, and after a ping; and the lengths of its buffer, and what is read of it.
fn lived(alloc: Global, peer: &mut Session, head: &Head) -> Result<String, NoMemory> {
    let mut text = String::new(alloc);
    write!(text, "{} ", peer.read_at())?;
    let mut sent = String::new(alloc);
    connected(alloc, peer, head, &mut sent)?;
    write!(text, "{} {} ", peer.read_at(), peer.is_plain())?;
    pings(alloc, peer, &mut text)?;
    let (first, _) = peer.lends(alloc, 7)?;
    let (second, byte) = peer.lends(alloc, 8)?;
    write!(text, "{first} {second} {byte}")?;
    Ok(text)
}

fn lived_new(alloc: Global) -> Result<String, NoMemory> {
    let head = head_of("8.0.36");
    let mut peer = Session::made(alloc, options(alloc, &head)?)?;
    let text = lived(alloc, &mut peer, &head);
    drop(peer);
    text
}

#[test]
fn sessions_know_when_they_read_last(rt: HostRuntime) -> Result<(), Fail> {
    let text = lived_new(rt.alloc())?;
    assert!(rt;
        text.as_str() == "0 5 true true s5 010000000e n5 r8 -8 1024 1024 7",
        "{text}"
    );
    Ok(())
}

// Prepares this text, and adds what is sent and answered.
fn prepares(
    alloc: Global,
    peer: &mut Session,
    statement: &str,
    reply: &[u8],
    head: &Head,
    text: &mut String,
    last: &mut Option<Statement>,
) -> Result<(), NoMemory> {
    let call = Call::Prepare(Blob::from_slice(alloc, statement.as_bytes())?);
    played(alloc, peer, call, &[reply], head.then, text, last)
}

// The packet of a statement with this text, the close of the one that has to go for it, and the answer; then the answer alone.
fn wanted(alloc: Global, number: u32, statement: &str) -> Result<String, NoMemory> {
    let mut want = String::new(alloc);
    write!(want, "{:02x}00000016", statement.len().saturating_add(1))?;
    add_digits(&mut want, statement.as_bytes())?;
    want.push(' ')?;
    if number > 3 {
        want.push_str("0500000019")?;
        add_digits(&mut want, &(number - 3).to_le_bytes())?;
        want.push(' ')?;
    }
    write!(want, "statement {number} 7 0 0statement {number} 7 0 0")?;
    Ok(want)
}

// The reply with this id.
fn reply(alloc: Global, number: u32) -> Result<Vec<u8>, NoMemory> {
    let mut bytes = bytes_of(alloc, "0c000001 00")?;
    bytes.extend_from_slice(&number.to_le_bytes())?;
    bytes.extend_from_slice(&[0; 7])?;
    Ok(bytes)
}

// Whether a statement with a text of this number is prepared so, and found again without a byte.
fn is_kept(
    alloc: Global,
    peer: &mut Session,
    number: u32,
    head: &Head,
    last: &mut Option<Statement>,
) -> Result<bool, NoMemory> {
    let statement = format!(in alloc; "DO {number}")?;
    let bytes = reply(alloc, number)?;
    let mut text = String::new(alloc);
    prepares(
        alloc,
        peer,
        statement.as_str(),
        bytes.as_slice(),
        head,
        &mut text,
        last,
    )?;
    prepares(
        alloc,
        peer,
        statement.as_str(),
        bytes.as_slice(),
        head,
        &mut text,
        last,
    )?;
    let want = wanted(alloc, number, statement.as_str())?;
    Ok(text.as_str() == want.as_str())
}

// How many of 300 statements are kept so by a cache of three.
fn kept(
    alloc: Global,
    peer: &mut Session,
    head: &Head,
    last: &mut Option<Statement>,
) -> Result<u32, NoMemory> {
    let mut text = String::new(alloc);
    connected(alloc, peer, head, &mut text)?;
    for number in 1..301u32 {
        if !is_kept(alloc, peer, number, head, last)? {
            return Ok(number);
        }
    }
    Ok(301)
}

fn kept_new(alloc: Global) -> Result<u32, NoMemory> {
    let head = head_of("8.0.36 cached=3");
    let mut peer = Session::made(alloc, options(alloc, &head)?)?;
    let mut last = None;
    let kept = kept(alloc, &mut peer, &head, &mut last);
    drop(last);
    drop(peer);
    kept
}

#[test]
fn three_of_300_statements_are_kept(rt: HostRuntime) -> Result<(), Fail> {
    assert!(rt; kept_new(rt.alloc())? == 301);
    Ok(())
}

// Two parts of a long value, of 16,777,216 and 8 bytes with their heads, and the execution, each from the sequence id 0.
fn is_sent_ahead(owed: &[u8]) -> bool {
    let head = b"\xff\xff\xff\x00\x18\x01\x00\x00\x00\x00\x00a";
    let tail = b"\x01\x00\x00\x01a\x08\x00\x00\x00\x18\x01\x00\x00\x00\x00\x00a\
        \x0e\x00\x00\x00\x17\x01\x00\x00\x00\x00\x01\x00\x00\x00\x00\x01\xfd\x00";
    owed.len() == 16_777_254 && owed.starts_with(head.as_slice()) && owed[16_777_219..] == tail[..]
}

// The execution of a statement with a value of 16,777,210 bytes; a ping where there is no statement.
fn long_execution(alloc: Global, last: &Option<Statement>) -> Result<Call, NoMemory> {
    let Some(statement) = last else {
        return Ok(Call::Ping);
    };
    let mut values = Vec::new(alloc);
    values.push(Value::Bytes(Blob::from(vec![in alloc; b'a'; 16_777_210]?)))?;
    Ok(Call::Execute(
        statement.copy(alloc)?,
        Params::Positional(Listed::from(values)),
    ))
}

// The reply to a statement with one parameter.
const ONE_PARAMETER: &str = "0c000001 00 01000000 0000 0100 00 0000 \
    17000002 0364656600000001 3f 000c3f0000000000fd8000000000";

// Whether the value is sent so.
fn sends_ahead(
    alloc: Global,
    peer: &mut Session,
    head: &Head,
    last: &mut Option<Statement>,
) -> Result<bool, NoMemory> {
    let mut text = String::new(alloc);
    connected(alloc, peer, head, &mut text)?;
    let reply = bytes_of(alloc, ONE_PARAMETER)?;
    prepares(alloc, peer, "DO ?", reply.as_slice(), head, &mut text, last)?;
    let begun = begins(peer, long_execution(alloc, last)?);
    Ok(begun && letter(peer.steps(alloc, 0)) == 's' && is_sent_ahead(peer.owes()))
}

fn sends_ahead_new(alloc: Global) -> Result<bool, NoMemory> {
    let head = head_of("8.0.36 limit=1073741824");
    let mut peer = Session::made(alloc, options(alloc, &head)?)?;
    let mut last = None;
    let sent = sends_ahead(alloc, &mut peer, &head, &mut last);
    drop(last);
    drop(peer);
    sent
}

#[test]
fn a_long_value_is_sent_ahead(rt: HostRuntime) -> Result<(), Fail> {
    assert!(rt; sends_ahead_new(rt.alloc())?);
    Ok(())
}
