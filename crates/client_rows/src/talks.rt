//! Talks are played.

use crate::facts::is_none;
use crate::polled::{HELD, POLLED};
use crate::polls::polled;
use crate::tapes::{add_taken, is_taped};
use crate::waiting::WAITING;
use crate::waits::{ended, waited};
use my_conn::{Conn, Connected};
use my_frame::NoMemory;
use my_link::{MemLink, Met};
use near_talks::{Waiting, answer_of, begun, failed, failure, field, first_line, made, new_by};
use std::alloc::Global;
use std::test::Fail;

// At most how many times a call is polled, and the call.
fn polls_of(line: &str) -> (u64, &str) {
    let call = field(line, 0);
    match call.split_once(' ') {
        Some((polls, rest)) => match polls.parse::<u64>() {
            Ok(polls) => (polls, rest),
            Err(_) => (1, call),
        },
        None => (1, call),
    }
}

// Whether there are no lines after the first.
fn is_short(talk: &str) -> bool {
    talk.lines().count() == 1
}

// Whether each line after the first returns what it should.
fn goes_on(alloc: Global, conn: &mut Conn<MemLink>, talk: &str) -> bool {
    let mut held = None;
    let mut well = true;
    for line in talk.lines().skip(1) {
        let (polls, call) = polls_of(line);
        let word = polled(alloc, conn, &mut held, polls, call);
        well = well && word == answer_of(line);
    }
    drop(held);
    well
}

// Whether what came of the making goes on so. A tape is handed out once.
fn is_right(alloc: Global, connected: &mut Connected<MemLink>, talk: &str) -> bool {
    let answer = answer_of(first_line(talk));
    match connected {
        Connected::Made(conn) => {
            answer == "ok"
                && goes_on(alloc, conn, talk)
                && is_taped(alloc, conn.take_tape(), talk)
                && is_none(conn.take_tape())
        }
        Connected::Pending(connecting) => {
            answer == "pending"
                && is_short(talk)
                && is_taped(alloc, connecting.take_tape(), talk)
                && is_none(connecting.take_tape())
        }
        Connected::Failed(left) => {
            answer == failure(&left.error)
                && is_short(talk)
                && is_taped(alloc, left.tape.take(), talk)
        }
    }
}

// Whether the last poll of the making met what its answer says.
fn is_met(met: Met, answer: &str) -> bool {
    met.faults == u64::from(answer == "error link")
        && met.ends == u64::from(answer == "error end")
        && met.holds == u64::from(answer == "pending")
        && met.refused == u64::from(answer == "error rejected")
}

// Whether a talk is polled so, where the link isn't ready once before the byte of the number `hold`.
fn is_polled(alloc: Global, talk: &str, hold: usize) -> bool {
    let (polls, call) = polls_of(talk);
    let texts = call.strip_prefix("connect ").unwrap_or("");
    match begun(alloc, talk, hold) {
        Ok(connecting) => {
            let (connected, met) = made(alloc, connecting, polls, texts);
            let mut connected = connected;
            let right = is_right(alloc, &mut connected, talk);
            drop(connected);
            right && is_met(met, answer_of(first_line(talk)))
        }
        Err(NoMemory) => false,
    }
}

// Whether each line after the first returns what it should.
fn waits_on(alloc: Global, conn: &mut Waiting, talk: &str) -> bool {
    let mut held = None;
    let mut well = true;
    for line in talk.lines().skip(1) {
        let word = waited(alloc, conn, &mut held, field(line, 0));
        well = well && word == answer_of(line);
    }
    drop(held);
    well
}

// Whether a connection that was made goes on so, keeps no tape, and quits at its end.
fn ends_right(alloc: Global, conn: Waiting, talk: &str) -> bool {
    let mut conn = conn;
    let right = answer_of(first_line(talk)) == "ok"
        && waits_on(alloc, &mut conn, talk)
        && is_none(conn.take_tape());
    ended(alloc, conn) == "ok" && right
}

/// Whether the calls of a talk wait and return what it says.
pub fn is_waited(alloc: Global, talk: &str) -> bool {
    match new_by(alloc, talk) {
        Ok(conn) => ends_right(alloc, conn, talk),
        Err(error) => answer_of(first_line(talk)) == failed(error) && is_short(talk),
    }
}

#[test]
fn talks_are_polled(rt: HostRuntime) -> Result<(), Fail> {
    let mut ran = 0u64;
    for talk in POLLED.split("\n\n") {
        if !talk.starts_with('#') {
            assert!(rt; is_polled(rt.alloc(), talk, usize::MAX), "{talk}");
            ran = ran.wrapping_add(1);
        }
    }
    assert!(rt; ran == 148);
    Ok(())
}

#[test]
fn talks_are_held(rt: HostRuntime) -> Result<(), Fail> {
    let mut digits = String::new(rt.alloc());
    add_taken(&mut digits, HELD)?;
    let bytes = digits.len() / 2;
    for hold in 0..bytes {
        assert!(rt; is_polled(rt.alloc(), HELD, hold), "{hold}");
    }
    assert!(rt; bytes == 326);
    Ok(())
}

#[test]
fn talks_wait(rt: HostRuntime) -> Result<(), Fail> {
    let mut ran = 0u64;
    for talk in WAITING.split("\n\n") {
        if !talk.starts_with('#') {
            assert!(rt; is_waited(rt.alloc(), talk), "{talk}");
            ran = ran.wrapping_add(1);
        }
    }
    assert!(rt; ran == 43);
    Ok(())
}
