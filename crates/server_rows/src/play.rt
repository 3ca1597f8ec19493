//! Plays the rows.

use crate::bytes::bytes_of;
use crate::rows::ROWS;
use crate::script::server_of;
use my_frame::{CodecFault, NoMemory};
use my_server::{CloseCause, ScriptFault, ServerCore, ServerStep};
use std::alloc::Global;
use std::test::Fail;

// A word with numbers.
type Told = (&'static str, u64, u64);

fn closed(cause: CloseCause) -> Told {
    match cause {
        CloseCause::Quit => ("quit", 0, 0),
        CloseCause::Denied => ("denied", 0, 0),
        CloseCause::BadPacket(place) => ("bad", place, 0),
        CloseCause::Codec(CodecFault::OutOfOrder { expected, found }) => {
            ("order", u64::from(expected), u64::from(found))
        }
        CloseCause::Codec(_) => ("codec", 0, 0),
    }
}

fn refused(fault: ScriptFault) -> Told {
    match fault {
        ScriptFault::BadVersion => ("version", 0, 0),
        ScriptFault::BadReply(place) => ("reply", place, 0),
        ScriptFault::NoMemory => ("memory", 0, 0),
    }
}

// Sends bytes that the server owes, at most `most`: what is wanted after them, where it begins with them.
fn send<'a>(server: &mut ServerCore, want: &'a [u8], most: usize) -> Option<&'a [u8]> {
    let owed = server.owed();
    let count = owed.len().min(most);
    let rest = want.strip_prefix(&owed[..count])?;
    server.sent(count);
    Some(rest)
}

// Hands the server these bytes, at most `most` at a time, also those after it is closed: its last step, where it sent what is wanted.
fn serves(alloc: Global, server: &mut ServerCore, input: &[u8], want: &[u8], most: usize) -> Told {
    let mut rest = input;
    let mut left = want;
    for _ in 0..u64::MAX {
        let step = server.step(alloc);
        if matches!(step, ServerStep::Send) {
            match send(server, left, most) {
                Some(after) => left = after,
                None => return ("other", 0, 0),
            }
        } else if rest.is_empty() {
            if !left.is_empty() {
                return ("less", 0, 0);
            }
            return match step {
                ServerStep::Need => ("need", 0, 0),
                ServerStep::Closed(cause) => closed(cause),
                ServerStep::Send | ServerStep::NoMemory => ("memory", 0, 0),
            };
        } else {
            let count = rest.len().min(most);
            if server.take(&rest[..count]).is_err() {
                return ("memory", 0, 0);
            }
            rest = &rest[count..];
        }
    }
    ("endless", 0, 0)
}

// The last step of a new server, or the fault of its script.
fn plays(alloc: Global, script: &str, input: &[u8], want: &[u8], most: usize) -> Told {
    match server_of(alloc, script) {
        Ok(mut server) => {
            let told = serves(alloc, &mut server, input, want, most);
            drop(server);
            told
        }
        Err(fault) => refused(fault),
    }
}

fn is_told(told: Told, end: &str) -> bool {
    let (word, first, second) = told;
    let mut words = end.split(' ');
    words.next() == Some(word)
        && words.next().unwrap_or("0").parse::<u64>() == Ok(first)
        && words.next().unwrap_or("0").parse::<u64>() == Ok(second)
}

// Whether it ends so byte by byte and all at once; many bytes are handed over in pieces of 65,536.
fn ends(alloc: Global, script: &str, input: &[u8], want: &[u8], end: &str) -> bool {
    if input.len().max(want.len()) > 65_536 {
        return is_told(plays(alloc, script, input, want, 65_536), end);
    }
    is_told(plays(alloc, script, input, want, 1), end)
        && is_told(plays(alloc, script, input, want, usize::MAX), end)
}

fn goes(alloc: Global, script: &str, row: &str) -> Result<bool, NoMemory> {
    let (input, rest) = row.split_once(" > ").unwrap_or((row, ""));
    let (want, end) = rest.split_once(" > ").unwrap_or((rest, ""));
    let input = bytes_of(alloc, input)?;
    let want = bytes_of(alloc, want)?;
    Ok(ends(alloc, script, input.as_slice(), want.as_slice(), end))
}

#[test]
fn servers(rt: HostRuntime) -> Result<(), Fail> {
    let mut ran = 0u64;
    let mut script = "";
    for row in ROWS.lines() {
        if let Some(next) = row.strip_prefix("# ") {
            script = next;
        } else {
            assert!(rt; goes(rt.alloc(), script, row)?, "{row}");
            ran = ran.saturating_add(1);
        }
    }
    assert_eq!(rt; ran, 107);
    println!(rt; "{ran} rows of servers")?;
    Ok(())
}

const ANY: &str = "VERSION - A=ok2";

// How many bytes of a login more is needed after, where a packet of only these is no login.
fn count_cuts(alloc: Global, login: &mut [u8], greeting: &[u8]) -> usize {
    for end in 0..login.len() {
        let len = login[0];
        let waits = ends(alloc, ANY, &login[..end], greeting, "need");
        login[0] = (end.saturating_sub(4) % 256) as u8;
        if !waits || (end >= 4 && !ends(alloc, ANY, &login[..end], greeting, "bad")) {
            return end;
        }
        login[0] = len;
    }
    login.len()
}

#[test]
fn cut_logins(rt: HostRuntime) -> Result<(), Fail> {
    let greeting = bytes_of(rt.alloc(), "GREETING")?;
    for (name, len) in [("LOGIN", 64), ("OLD_LOGIN", 64), ("FULL_LOGIN", 72)] {
        let mut login = bytes_of(rt.alloc(), name)?;
        assert_eq!(rt;
            count_cuts(rt.alloc(), login.as_mut_slice(), greeting.as_slice()),
            len,
            "{name}"
        );
    }
    Ok(())
}
