//! Sources and sinks.

ghost use Rattle.std.specs.Prelude.{◌≤◌, IfSome, length};

use crate::notes::{Notes, number, pair};
use my_frame::{MemSink, MemSource, Sink, SinkStep, Source, SourceStep, StdSink, StdSource};
use std::alloc::Global;
use std::io;
use std::io::{ErrorKind, Read, Write};

/// A reader, a writer and a link that play words, parted by commas. `retry` is interrupted, `fail` fails. A read gives the
/// bytes that its word spells, a write takes at most as many as its word says. With no word left nothing is given or taken.
#[derive(Drop)]
pub struct Played<'a> {
    pub words: &'a str,
    pub kept: Vec<u8>,
    pub faults: u64,
    pub holds: u64,
    pub ends: u64,
}

/// What plays these words.
pub fn player_of(alloc: Global, words: &str) -> Played<'_> {
    Played {
        words,
        kept: Vec::new(alloc),
        faults: 0,
        holds: 0,
        ends: 0,
    }
}

/// The first word, and those after it.
pub fn first_word(words: &str) -> (&str, &str) {
    words.split_once(',').unwrap_or((words, ""))
}

/// Puts the bytes that a word spells to the buffer's front, none where they don't fit.
pub fn give(buf: &mut [u8], digits: &str) -> usize
    ensures { result ≤ length buf.new }
{
    let count = digits.len() / 2;
    if count > buf.len() {
        return 0;
    }
    match hex::decode_to_slice(digits, &mut buf[..count]) {
        Ok(()) => count,
        Err(_) => 0,
    }
}

/// Keeps at most as many bytes as a word says.
pub fn keep(kept: &mut Vec<u8>, bytes: &[u8], most: &str) -> Option<usize>
    ensures { IfSome result (λ count. count ≤ length bytes.now) }
{
    let count = bytes.len().min(most.parse::<usize>().unwrap_or(0));
    match kept.extend_from_slice(&bytes[..count]) {
        Ok(()) => Some(count),
        Err(_) => None,
    }
}

impl Read for Played<'_> {
    fn read(&mut self, buf: &mut [u8]) -> io::Result<usize> {
        let (word, rest) = first_word(self.words);
        self.words = rest;
        match word {
            "retry" => Err(io::Error::from(ErrorKind::Interrupted)),
            "fail" => Err(io::Error::from(ErrorKind::Other)),
            digits => Ok(give(buf, digits)),
        }
    }
}

impl Write for Played<'_> {
    fn write(&mut self, bytes: &[u8]) -> io::Result<usize> {
        let (word, rest) = first_word(self.words);
        self.words = rest;
        match word {
            "retry" => Err(io::Error::from(ErrorKind::Interrupted)),
            "fail" => Err(io::Error::from(ErrorKind::Other)),
            most => match keep(&mut self.kept, bytes, most) {
                Some(count) => Ok(count),
                None => Err(io::Error::from(ErrorKind::OutOfMemory)),
            },
        }
    }

    fn flush(&mut self) -> io::Result<()> {
        Ok(())
    }
}

// What a read into a buffer of four dots does, and the buffer then.
fn note_read<S: Source>(notes: &mut Notes, source: &mut S) {
    let mut buf = *b"....";
    match source.read(&mut buf) {
        SourceStep::Got(count) => notes.number(count as u64),
        SourceStep::End => notes.word("end"),
        SourceStep::Failed => notes.word("fail"),
    }
    notes.bytes(&buf);
}

// What a write of these bytes does.
fn note_write<S: Sink>(notes: &mut Notes, sink: &mut S, bytes: &str) {
    if bytes.is_empty() {
        return;
    }
    match sink.write(bytes.as_bytes()) {
        SinkStep::Took(count) => notes.number(count as u64),
        SinkStep::Failed => notes.word("fail"),
    }
}

/// `source COUNT WORD,.. = STEP BUFFER FAULTS ENDS ..`: what as many reads of a reader do, and the counts after each.
pub fn source(notes: &mut Notes, given: &str) {
    let (count, words) = pair(given);
    let mut source = StdSource::new(player_of(notes.alloc, words));
    for _ in 0..number(count) {
        note_read(notes, &mut source);
        notes.record(&[source.faults(), source.ends()], &[]);
    }
}

/// `retried TIMES = STEP BUFFER FAULTS ENDS ..`: what two reads of a reader do that is interrupted as often as said.
pub fn retried(notes: &mut Notes, given: &str) {
    let mut words = String::new(notes.alloc);
    let _ = words.push_str("2 ");
    for _ in 0..number(given) {
        let _ = words.push_str("retry,");
    }
    source(notes, words.as_str());
}

/// `memory COUNT BYTES = STEP BUFFER ..`: what as many reads of memory do.
pub fn memory(notes: &mut Notes, given: &str) {
    let (count, digits) = pair(given);
    let mut source = MemSource::new(notes.spelled(digits));
    for _ in 0..number(count) {
        note_read(notes, &mut source);
    }
}

/// `sink WORD,.. BYTES,.. = STEP FAULTS .. KEPT`: what writes to a writer do, the count after each, and what it has then.
pub fn sink(notes: &mut Notes, given: &str) {
    let (words, texts) = pair(given);
    let mut sink = StdSink::new(player_of(notes.alloc, words));
    for bytes in texts.split(',') {
        note_write(notes, &mut sink, bytes);
        notes.number(sink.faults());
    }
    notes.bytes(sink.inner.kept.as_slice());
}

/// `room COUNT BYTES,.. = STEP .. KEPT`: what writes to memory with this room do, and what it has then.
pub fn room(notes: &mut Notes, given: &str) {
    let (count, texts) = pair(given);
    let Ok(mut sink) = MemSink::new(notes.alloc, number(count) as usize) else {
        return notes.must(false);
    };
    for bytes in texts.split(',') {
        note_write(notes, &mut sink, bytes);
    }
    notes.bytes(sink.taken());
}
