//! Plays the rows.

use crate::auth::{auth, named, scramble};
use crate::client::sent;
use crate::frames::{chunks, copied, drips, follow, length, shortest, stream, unsent};
use crate::link::{polls, pool, posts};
use crate::notes::{Notes, pair};
use crate::outside::{memory, retried, room, sink, source};
use crate::rows::{LARGE_ROWS, ROWS};
use crate::server::{again, read, row, version};
use my_flags::StatusFlags;
use std::alloc::Global;
use std::process::Abort;

fn play(notes: &mut Notes, kind: &str, given: &str) {
    match kind {
        "length" => length(notes, given),
        "shortest" => shortest(notes, given),
        "copied" => copied(notes, given),
        "stream" => stream(notes, given),
        "named" => named(notes, given),
        "scramble" => scramble(notes, given),
        "auth" => auth(notes, given),
        "drips" => drips(notes, given),
        "unsent" => unsent(notes, given),
        "follow" => follow(notes, given),
        "chunks" => chunks(notes, given),
        "sent" => sent(notes, given),
        "read" => read(notes, given),
        "again" => again(notes, given),
        "row" => row(notes, given),
        "version" => version(notes, given),
        "source" => source(notes, given),
        "retried" => retried(notes, given),
        "memory" => memory(notes, given),
        "sink" => sink(notes, given),
        "room" => room(notes, given),
        "polls" => polls(notes, given),
        "posts" => posts(notes, given),
        "pool" => pool(notes, given),
        _ => notes.must(false),
    }
}

// The words that are found stand after ` =`, each after a space.
fn holds(alloc: Global, line: &str) -> bool {
    let (row, found) = line.split_once(" =").unwrap_or((line, ""));
    let (kind, given) = pair(row);
    let mut notes = Notes::new(alloc);
    play(&mut notes, kind, given);
    notes.are(found)
}

// How many rows there are, each of which holds.
fn count_of(rt: &impl Abort, alloc: Global, rows: &str) -> u64 {
    let mut count = 0_u64;
    for line in rows.lines() {
        if !line.starts_with('#') {
            assert!(rt; holds(alloc, line), "{line}");
            count = count.saturating_add(1);
        }
    }
    count
}

#[test]
fn ample_rows(rt: HostRuntime) {
    assert_eq!(rt; count_of(&rt, rt.alloc(), ROWS), 190);
    assert_eq!(rt; StatusFlags::SERVER_STATUS_AUTOCOMMIT.0, 2);
}

#[test]
fn ample_large_rows(rt: HostRuntime) {
    assert_eq!(rt; count_of(&rt, rt.alloc(), LARGE_ROWS), 3);
}
