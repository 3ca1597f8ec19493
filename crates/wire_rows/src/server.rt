//! What a server sends.

use crate::notes::{Notes, pair};
use my_frame::{Blob, Listed, ReadError};
use my_handshake::{Greeting, read_greeting, read_more_data, read_switch, server_version};
use my_reply::{
    Column, ErrPacket, OkPacket, ServerPacket, read_column, read_column_count, read_end_ok,
    read_eof, read_err, read_event, read_infile, read_ok, read_prepare_ok, write_server,
};
use std::alloc::Global;

fn note_greeting(notes: &mut Notes, greeting: &Greeting) {
    let numbers = [
        u64::from(greeting.id),
        u64::from(greeting.capabilities.0),
        u64::from(greeting.status.0),
        u64::from(greeting.extended.0),
    ];
    let texts = [
        greeting.version.as_slice(),
        greeting.nonce.as_slice(),
        greeting.plugin.as_slice(),
    ];
    notes.record(&numbers, &texts);
}

fn note_ok(notes: &mut Notes, ok: &OkPacket) {
    let numbers = [
        ok.affected,
        ok.insert,
        u64::from(ok.status.0),
        u64::from(ok.warnings),
    ];
    notes.record(&numbers, &[ok.info.as_slice()]);
}

fn note_err(notes: &mut Notes, err: &ErrPacket) {
    let texts = [err.state.as_slice(), err.message.as_str().as_bytes()];
    notes.record(&[u64::from(err.code)], &texts);
}

fn note_column(notes: &mut Notes, column: &Column) {
    let numbers = [
        u64::from(column.charset),
        u64::from(column.length),
        u64::from(column.column_type),
        u64::from(column.flags),
        u64::from(column.decimals),
    ];
    let texts = [
        column.schema.as_slice(),
        column.table.as_slice(),
        column.org_table.as_slice(),
        column.name.as_slice(),
        column.org_name.as_slice(),
    ];
    notes.record(&numbers, &texts);
}

// What a payload reads as.
fn packet_of(alloc: Global, kind: &str, payload: &[u8]) -> Result<ServerPacket, ReadError> {
    match kind {
        "greeting" => Ok(ServerPacket::Greeting(read_greeting(alloc, payload)?)),
        "fine" => Ok(ServerPacket::Fine(read_ok(alloc, payload)?)),
        "end" => Ok(ServerPacket::End(read_end_ok(alloc, payload)?)),
        "err" => Ok(ServerPacket::Refuse(read_err(alloc, payload, false)?)),
        "early_err" => Ok(ServerPacket::Refuse(read_err(alloc, payload, true)?)),
        "column" => Ok(ServerPacket::Column(read_column(alloc, payload)?)),
        _ => Ok(ServerPacket::Count(read_column_count(payload, false)?.count)),
    }
}

fn packet(notes: &mut Notes, kind: &str, payload: &[u8]) -> Result<(), ReadError> {
    let packet = packet_of(notes.alloc, kind, payload)?;
    match &packet {
        ServerPacket::Greeting(greeting) => note_greeting(notes, greeting),
        ServerPacket::Fine(ok) | ServerPacket::End(ok) => note_ok(notes, ok),
        ServerPacket::Refuse(err) => note_err(notes, err),
        ServerPacket::Column(column) => note_column(notes, column),
        ServerPacket::Count(_) | ServerPacket::TextRow(_) => notes.must(false),
    }
    drop(packet);
    Ok(())
}

fn eof(notes: &mut Notes, payload: &[u8]) -> Result<(), ReadError> {
    let eof = read_eof(payload)?;
    notes.record(&[u64::from(eof.warnings), u64::from(eof.status.0)], &[]);
    Ok(())
}

fn count(notes: &mut Notes, payload: &[u8], cached: bool) -> Result<(), ReadError> {
    let columns = read_column_count(payload, cached)?;
    notes.record(&[u64::from(columns.count), u64::from(columns.skipped)], &[]);
    Ok(())
}

fn switch(notes: &mut Notes, payload: &[u8]) -> Result<(), ReadError> {
    let request = read_switch(notes.alloc, payload)?;
    notes.record(&[], &[request.plugin.as_slice(), request.nonce.as_slice()]);
    drop(request);
    Ok(())
}

fn more(notes: &mut Notes, payload: &[u8]) -> Result<(), ReadError> {
    let more = read_more_data(payload)?;
    notes.number(u64::from(more.kind));
    Ok(())
}

fn prepared(notes: &mut Notes, payload: &[u8]) -> Result<(), ReadError> {
    let ok = read_prepare_ok(payload)?;
    let numbers = [
        u64::from(ok.id),
        u64::from(ok.columns),
        u64::from(ok.params),
        u64::from(ok.warnings),
    ];
    notes.record(&numbers, &[]);
    Ok(())
}

fn infile(notes: &mut Notes, payload: &[u8]) -> Result<(), ReadError> {
    let request = read_infile(notes.alloc, payload)?;
    notes.bytes(request.name.as_slice());
    drop(request);
    Ok(())
}

fn event(notes: &mut Notes, payload: &[u8]) -> Result<(), ReadError> {
    let event = read_event(notes.alloc, payload)?;
    let numbers = [
        u64::from(event.timestamp),
        u64::from(event.kind),
        u64::from(event.server),
        u64::from(event.size),
        u64::from(event.position),
        u64::from(event.flags),
        event.table_id().unwrap_or(0),
    ];
    notes.record(&numbers, &[event.body.as_slice()]);
    drop(event);
    Ok(())
}

// Notes what the reader of this kind gives; an error where the payload is malformed.
fn reads(notes: &mut Notes, kind: &str, payload: &[u8]) -> Result<(), ReadError> {
    match kind {
        "eof" => eof(notes, payload),
        "count" => count(notes, payload, false),
        "cached_count" => count(notes, payload, true),
        "switch" => switch(notes, payload),
        "more" => more(notes, payload),
        "prepared" => prepared(notes, payload),
        "infile" => infile(notes, payload),
        "event" => event(notes, payload),
        _ => packet(notes, kind, payload),
    }
}

/// `read READER BYTES = NUMBER.. TEXT.. PREFIXES`, or `malformed` and `PREFIXES`: the record that a payload reads as, and how
/// many of its prefixes (itself too) are a record.
pub fn read(notes: &mut Notes, given: &str) {
    let (kind, digits) = pair(given);
    let payload = notes.spelled(digits);
    let mut prefixes = 0_u64;
    for len in 0..=payload.len() {
        notes.clear();
        match reads(notes, kind, &payload[..len]) {
            Ok(()) => prefixes = prefixes.saturating_add(1),
            Err(ReadError::Malformed) => notes.word("malformed"),
            Err(ReadError::NoMemory) => notes.must(false),
        }
    }
    notes.number(prefixes);
}

// What is written of the packet that a payload reads as; nothing where that fails.
fn written(alloc: Global, kind: &str, payload: &[u8]) -> Vec<u8> {
    let Ok(packet) = packet_of(alloc, kind, payload) else {
        return Vec::new(alloc);
    };
    let written = write_server(alloc, &packet);
    drop(packet);
    written.unwrap_or(Vec::new(alloc))
}

/// `again READER BYTES = true true`: whether a payload is written as it was read, and again so when what was written is read.
pub fn again(notes: &mut Notes, given: &str) {
    let (kind, digits) = pair(given);
    let payload = notes.spelled(digits);
    let once = written(notes.alloc, kind, payload.as_slice());
    let twice = written(notes.alloc, kind, once.as_slice());
    notes.shown(&(once.as_slice() == payload.as_slice()));
    notes.shown(&(twice.as_slice() == payload.as_slice()));
}

/// The cells that words spell, parted by commas; what spells no bytes is NULL.
pub fn cells(alloc: Global, words: &str) -> Listed<Option<Blob>> {
    let mut cells = Listed::new(alloc);
    for word in words.split(',') {
        let cell = match hex::decode(alloc, word.trim_start_matches('-')) {
            Ok(bytes) => Some(Blob::from(bytes)),
            Err(_) => None,
        };
        let _ = cells.push(cell);
    }
    cells
}

/// `row CELL,.. = BYTES`: a row of text as it is written.
pub fn row(notes: &mut Notes, given: &str) {
    let packet = ServerPacket::TextRow(cells(notes.alloc, given));
    let written = write_server(notes.alloc, &packet);
    drop(packet);
    notes.payload(written);
}

/// `version TEXT = IS_MARIADB MAJOR MINOR PATCH`: the version that a text spells.
pub fn version(notes: &mut Notes, given: &str) {
    let version = server_version(given.as_bytes());
    let numbers = [
        u64::from(version.major),
        u64::from(version.minor),
        u64::from(version.patch),
    ];
    notes.shown(&version.mariadb);
    notes.record(&numbers, &[]);
}
