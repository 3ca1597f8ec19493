//! What the bytes of a stream are cut into. Of a row: its name; words; payloads; and what is found. The words are the exchanges that
//! were begun after the login (`prepare`, `execute` with the parts of a long value, `query`), `old` where sets end with an EOF, a
//! limit, a number of rows, what is shown, and `each` where the stream is cut off at each byte, too. A payload has its sequence id;
//! `login` is the greeting and an OK, and bytes after `+` end the stream.

use crate::given::{add_digits, bytes_of, options, usual};
use crate::rows::cuts::CUTS;
use my_flags::CapabilityFlags;
use my_frame::{Blob, CodecFault, Listed, NoMemory};
use my_grammar::{
    CutRest, Found, Kind, Login, Offer, Opening, Packet, Queue, Terms, cut_bytes, password_answer,
};
use my_session::login_for;
use std::alloc::{AllocError, Global};
use std::fmt::Write;
use std::test::Fail;

// What the client can do, after the greeting too; and where sets end with an EOF.
const KEPT: CapabilityFlags = CapabilityFlags(0x10f_a281);

const KEPT_OLD: CapabilityFlags = CapabilityFlags(0x0f_a281);

const GREETING: &str = "0a382e302e333600070000006162636465666768008ba22d02001f01150000\
    0000000000000000696a6b6c6d6e6f7071727374006d7973716c5f6e61746976655f70617373776f726400";

const OK: &str = "00000002000000";

// A row: its name, its words, its payloads, and what is found.
#[derive(Clone, Copy)]
struct Row<'a> {
    words: &'a str,
    packets: &'a str,
    shows: &'a str,
}

fn row_of(line: &str) -> Row<'_> {
    let (_, rest) = line.split_once('|').unwrap_or((line, ""));
    let (words, rest) = rest.split_once('|').unwrap_or((rest, ""));
    let (packets, shows) = rest.split_once('|').unwrap_or((rest, ""));
    Row {
        words,
        packets,
        shows,
    }
}

fn has(words: &str, name: &str) -> bool {
    for word in words.split(' ') {
        if word == name {
            return true;
        }
    }
    false
}

// The number after this name; 0 where there is none.
fn number_of(words: &str, name: &str) -> u64 {
    for word in words.split(' ') {
        if let Some(number) = word.strip_prefix(name) {
            return number.parse::<u64>().unwrap_or(0);
        }
    }
    0
}

fn terms_of(words: &str) -> Terms {
    let limit = match number_of(words, "limit=") {
        0 => 4_194_304,
        limit => limit,
    };
    let kept = if has(words, "old") { KEPT_OLD } else { KEPT };
    Terms { kept, limit }
}

// The parts of a long value that go ahead of statement 1.
fn ahead_of(alloc: Global, word: &str) -> Result<Listed<Blob>, NoMemory> {
    let mut ahead = Listed::new(alloc);
    for text in word.split('+').skip(1) {
        let mut part = bytes_of(alloc, "18010000000000")?;
        part.extend_from_slice(text.as_bytes())?;
        ahead.push(Blob::from(part))?;
    }
    Ok(ahead)
}

fn add_opening(
    alloc: Global,
    openings: &mut Vec<Opening>,
    word: &str,
    terms: Terms,
) -> Result<(), NoMemory> {
    if word == "query" {
        let command = Blob::from_slice(alloc, b"\x03SELECT 1")?;
        openings.push(Opening::Query { terms, command })?;
    } else if word == "prepare" {
        let command = Blob::from_slice(alloc, b"\x16SELECT CONCAT(?, ?) AS col1")?;
        openings.push(Opening::Prepare { terms, command })?;
    } else if word.starts_with("execute") {
        let ahead = ahead_of(alloc, word)?;
        let command = Blob::from(bytes_of(alloc, "17010000000001000000")?);
        openings.push(Opening::Execute {
            terms,
            ahead,
            command,
        })?;
    }
    Ok(())
}

// A connection, then the exchanges of the words.
fn openings(alloc: Global, words: &str) -> Result<Vec<Opening>, NoMemory> {
    let mut openings = Vec::new(alloc);
    openings.push(Opening::Connect)?;
    let terms = terms_of(words);
    for word in words.split(' ') {
        add_opening(alloc, &mut openings, word, terms)?;
    }
    Ok(openings)
}

fn show_row(text: &mut String, cells: &[u8]) -> Result<(), AllocError> {
    text.push_str("row:")?;
    add_digits(text, cells)?;
    text.push(' ')
}

fn show_offer(text: &mut String, offer: Offer) -> Result<(), AllocError> {
    let name = if offer.caching { "caches" } else { "greets" };
    write!(text, "{name}:{:x} ", offer.capabilities.0)
}

fn show_packet(text: &mut String, packet: &Packet) -> Result<(), AllocError> {
    match packet.kind {
        Kind::Greets(offer) => show_offer(text, offer),
        Kind::Asks(_) => text.push_str("asks "),
        Kind::Good(status) => write!(text, "ok:{} ", status.0),
        Kind::Failed => text.push_str("err "),
        Kind::Count(columns) => write!(text, "count:{columns} "),
        Kind::Column => text.push_str("column "),
        Kind::ColumnsDone => text.push_str("eof "),
        Kind::Row => show_row(text, packet.payload.as_slice()),
        Kind::End(status) => write!(text, "end:{} ", status.0),
        Kind::Prepared { params, columns } => write!(text, "prepared:{params}:{columns} "),
        Kind::Parameter => text.push_str("parameter "),
        Kind::Field => text.push_str("field "),
        Kind::Bad => text.push_str("bad "),
    }
}

fn show_rest(text: &mut String, rest: CutRest) -> Result<(), AllocError> {
    match rest {
        CutRest::Trailing => text.push_str("trailing"),
        CutRest::Unfinished => text.push_str("unfinished"),
        CutRest::Unfit => text.push_str("unfit"),
        CutRest::Blamed(CodecFault::OutOfOrder { expected, found }) => {
            write!(text, "number {found} for {expected}")
        }
        CutRest::Blamed(CodecFault::TooLarge { length, limit }) => {
            write!(text, "length {length} above {limit}")
        }
    }
}

// The exchanges, payload by payload.
fn show_payloads(text: &mut String, found: &Found) -> Result<(), AllocError> {
    for exchange in &found.exchanges {
        for packet in &exchange.packets {
            show_packet(text, packet)?;
        }
        text.push_str("| ")?;
    }
    show_rest(text, found.rest)
}

// What the client sends.
fn show_sent(text: &mut String, found: &Found) -> Result<(), AllocError> {
    for exchange in &found.exchanges {
        add_digits(text, exchange.sent.as_slice())?;
        text.push(' ')?;
    }
    Ok(())
}

// The number of payloads of each exchange.
fn show_counts(text: &mut String, found: &Found) -> Result<(), AllocError> {
    for exchange in &found.exchanges {
        let count = exchange.packets.len();
        write!(text, "{count} ")?;
    }
    show_rest(text, found.rest)
}

// What is found, as the words want it.
fn show(text: &mut String, found: &Found, words: &str) -> Result<(), AllocError> {
    if has(words, "sent") {
        show_sent(text, found)
    } else if has(words, "counts") {
        show_counts(text, found)
    } else {
        show_payloads(text, found)
    }
}

// Adds a payload, and where it ends.
fn add_payload(
    alloc: Global,
    bytes: &mut Queue,
    ends: &mut Vec<usize>,
    number: u8,
    digits: &str,
) -> Result<(), NoMemory> {
    let payload = bytes_of(alloc, digits)?;
    bytes.push_payload(payload.as_slice(), number)?;
    ends.push(bytes.len())?;
    Ok(())
}

// Rows of one cell, with sequence ids from 3 on.
fn add_rows(bytes: &mut Queue, rows: u64) -> Result<(), NoMemory> {
    let mut number = 3u8;
    for _ in 0..rows {
        bytes.push(&[2, 0, 0, number, 1, b'x'])?;
        number = number.wrapping_add(1);
    }
    Ok(())
}

fn add_word(
    alloc: Global,
    bytes: &mut Queue,
    ends: &mut Vec<usize>,
    word: &str,
    rows: u64,
) -> Result<(), NoMemory> {
    if word == "login" || word == "greeting" {
        add_payload(alloc, bytes, ends, 0, GREETING)?;
        if word == "login" {
            add_payload(alloc, bytes, ends, 2, OK)?;
        }
        return Ok(());
    }
    if let Some(tail) = word.strip_prefix('+') {
        add_rows(bytes, rows)?;
        return bytes.push(bytes_of(alloc, tail)?.as_slice());
    }
    match word.split_once(':') {
        Some((number, digits)) => {
            let number = number.parse::<u8>().unwrap_or(0);
            add_payload(alloc, bytes, ends, number, digits)
        }
        None => Ok(()),
    }
}

// The stream, and where its payloads end.
fn stream(alloc: Global, row: &Row, ends: &mut Vec<usize>) -> Result<Queue, NoMemory> {
    let mut bytes = Queue::new(alloc);
    let rows = number_of(row.words, "rows=");
    for word in row.packets.split(' ') {
        add_word(alloc, &mut bytes, ends, word, rows)?;
    }
    Ok(bytes)
}

// How many payloads were found.
fn count_found(found: &Found) -> usize {
    let mut count = 0usize;
    for exchange in &found.exchanges {
        count = count.saturating_add(exchange.packets.len());
    }
    count
}

// Whether these bytes hold `whole` payloads, and then a part of one.
fn is_part(
    alloc: Global,
    login: &Login,
    openings: &[Opening],
    bytes: &[u8],
    whole: usize,
) -> Result<bool, NoMemory> {
    let found = cut_bytes(alloc, login, openings, bytes)?;
    let fits = found.rest == CutRest::Unfinished && count_found(&found) == whole;
    drop(found);
    Ok(fits)
}

// The first place at which the bytes that are cut off there don't hold the payloads that end there.
fn first_bad_part(
    alloc: Global,
    login: &Login,
    openings: &[Opening],
    bytes: &[u8],
    ends: &[usize],
) -> Result<Option<usize>, NoMemory> {
    for len in 0..bytes.len() {
        let whole = ends.iter().filter(|end| **end <= len).count();
        let (part, _) = bytes.split_at(len);
        if !is_part(alloc, login, openings, part, whole)? {
            return Ok(Some(len));
        }
    }
    Ok(None)
}

// What is shown of the stream.
fn shown(
    alloc: Global,
    login: &Login,
    openings: &[Opening],
    bytes: &[u8],
    words: &str,
) -> Result<String, NoMemory> {
    let mut text = String::new(alloc);
    let found = cut_bytes(alloc, login, openings, bytes)?;
    let shown = show(&mut text, &found, words);
    drop(found);
    shown?;
    Ok(text)
}

// What is shown otherwise than the row has it; nothing where all is as it has it.
fn fault_of(alloc: Global, login: &Login, row: &Row) -> Result<String, NoMemory> {
    let openings = openings(alloc, row.words)?;
    let mut ends = Vec::new(alloc);
    let bytes = stream(alloc, row, &mut ends)?;
    let text = shown(
        alloc,
        login,
        openings.as_slice(),
        bytes.as_slice(),
        row.words,
    )?;
    if text.as_str().trim_end() != row.shows {
        return Ok(text);
    }
    if has(row.words, "each") {
        let cut = first_bad_part(alloc, login, openings.as_slice(), bytes.as_slice(), &ends)?;
        if let Some(place) = cut {
            return Ok(format!(in alloc; "cut at {place}")?);
        }
    }
    Ok(String::new(alloc))
}

// The first row that shows something else, with that; nothing where there is none.
fn fault_in(alloc: Global, login: &Login, rows: &str) -> Result<String, NoMemory> {
    for line in rows.lines() {
        if line.is_empty() || line.starts_with('#') {
            continue;
        }
        let fault = fault_of(alloc, login, &row_of(line))?;
        if !fault.is_empty() {
            return Ok(format!(in alloc; "{line}\n{fault}")?);
        }
    }
    Ok(String::new(alloc))
}

fn fault(alloc: Global, rows: &str) -> Result<String, NoMemory> {
    let head = usual("8.0.36");
    let opts = options(alloc, &head)?;
    let login = login_for(alloc, &opts);
    drop(opts);
    let login = login?;
    let fault = fault_in(alloc, &login, rows);
    drop(login);
    fault
}

#[test]
fn streams_are_cut(rt: HostRuntime) -> Result<(), Fail> {
    let fault = fault(rt.alloc(), CUTS)?;
    assert!(rt; fault.is_empty(), "{fault}");
    let rows = CUTS.lines().filter(|line| line.contains('|')).count();
    println!(rt; "{rows} streams")?;
    assert!(rt; rows == 63);
    Ok(())
}

// The digits of the answer that a password has to a nonce.
fn answer(alloc: Global) -> Result<String, NoMemory> {
    let password = Some(Blob::from_slice(alloc, b"password")?);
    let answer = password_answer(alloc, false, &password, b"abcdefghijklmnopqrst")?;
    let mut text = String::new(alloc);
    add_digits(&mut text, answer.as_slice())?;
    Ok(text)
}

#[test]
fn a_password_is_answered(rt: HostRuntime) -> Result<(), Fail> {
    let answer = answer(rt.alloc())?;
    assert!(rt; answer.as_str() == "bfdd49584b917d42c758edd2a7a541f721843041");
    Ok(())
}
