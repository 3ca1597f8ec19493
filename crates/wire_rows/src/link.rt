//! One payload over a bare link, and a pool of buffers.

use crate::notes::{Notes, four, number, pair};
use crate::outside::{Played, first_word, give, keep, player_of};
use bytes::BytesMut;
use my_frame::PacketCodec;
use my_link::{CheckStep, Link, ReadStep, WriteStep};
use my_packets::{BufferPool, Poll, ReadPacket, WritePacket};
use my_reading::Error;

impl Link for Played<'_> {
    ghost use Rattle.std.specs.Prelude.{None, false};

    ghost looks = { λ p. record {
      items = None;
      writes = None;
      got = None;
      counts = record { faults = p.faults; holds = p.holds; ends = p.ends; deaths = 0 };
    } };

    ghost socket = { λ p. false };

    fn read(&mut self, buf: &mut [u8]) -> ReadStep {
        let (word, rest) = first_word(self.words);
        self.words = rest;
        match word {
            "fail" => {
                self.faults = self.faults.saturating_add(1);
                ReadStep::Failed
            }
            "end" => {
                self.ends = self.ends.saturating_add(1);
                ReadStep::End
            }
            digits => match give(buf, digits) {
                0 => {
                    self.holds = self.holds.saturating_add(1);
                    ReadStep::NotYet
                }
                count => ReadStep::Got(count),
            },
        }
    }

    fn write(&mut self, bytes: &[u8]) -> WriteStep {
        let (word, rest) = first_word(self.words);
        self.words = rest;
        if word == "fail" {
            self.faults = self.faults.saturating_add(1);
            return WriteStep::Failed;
        }
        match keep(&mut self.kept, bytes, word) {
            Some(0) => {
                self.holds = self.holds.saturating_add(1);
                WriteStep::NotYet
            }
            Some(count) => WriteStep::Took(count),
            None => WriteStep::NoMemory,
        }
    }

    fn check(&mut self) -> CheckStep {
        CheckStep::Alive
    }

    fn is_socket(&self) -> bool {
        false
    }
}

fn note_error(notes: &mut Notes, error: Error) {
    notes.shown(&error);
    drop(error);
}

fn note_poll(notes: &mut Notes, polled: Poll<Result<Vec<u8>, Error>>) {
    match polled {
        Poll::Pending => notes.word("pending"),
        Poll::Ready(Ok(payload)) => notes.bytes(payload.as_slice()),
        Poll::Ready(Err(error)) => note_error(notes, error),
    }
}

/// `polls COUNT WORD,.. = FOUND .. LEFT`: what as many polls, each of a read of one payload, do over what the link plays, and
/// what is left in the buffer.
pub fn polls(notes: &mut Notes, given: &str) {
    let (count, words) = pair(given);
    let mut link = player_of(notes.alloc, words);
    let mut codec = PacketCodec::new();
    let mut src = BytesMut::new(notes.alloc);
    for _ in 0..number(count) {
        note_poll(
            notes,
            ReadPacket::new().poll(notes.alloc, &mut link, &mut codec, &mut src),
        );
    }
    notes.bytes(src.as_slice());
}

fn note_post(notes: &mut Notes, polled: Poll<Result<(), Error>>) {
    match polled {
        Poll::Pending => notes.word("pending"),
        Poll::Ready(Ok(())) => notes.word("sent"),
        Poll::Ready(Err(error)) => note_error(notes, error),
    }
}

/// `posts COUNT LIMIT BYTES WORD,.. = FOUND .. SENT`: what as many polls of a write of one payload do, and what the link was
/// sent.
pub fn posts(notes: &mut Notes, given: &str) {
    let [count, limit, digits, words] = four(given, ' ');
    let mut link = player_of(notes.alloc, words);
    let mut codec = PacketCodec::new();
    codec.set_max_allowed_packet(number(limit));
    let mut packet = WritePacket::new(notes.alloc, notes.spelled(digits));
    for _ in 0..number(count) {
        note_post(notes, packet.poll(&mut link, &mut codec));
    }
    notes.bytes(link.kept.as_slice());
}

// The bytes of a buffer that is taken with these, whether it has this room, and how many are spare once it is given back.
fn note_buffer(notes: &mut Notes, pool: &mut BufferPool, bytes: &str, room: &str) {
    let taken = if bytes.is_empty() {
        pool.get()
    } else {
        pool.get_with(bytes.as_bytes())
    };
    match taken {
        Ok(mut buffer) => {
            notes.bytes(buffer.as_slice());
            notes.shown(&(buffer.as_mut().capacity() as u64 >= number(room)));
            pool.give(buffer);
            notes.number(pool.spare() as u64);
        }
        Err(_) => notes.must(false),
    }
}

/// `pool BUFFERS MOST FIRST BYTES:ROOM,.. = BYTES HAS_ROOM SPARE ..`: buffers of a pool that keeps so many, each of at most so
/// much room, where a new one has room for as many bytes as its last number says.
pub fn pool(notes: &mut Notes, given: &str) {
    let [buffers, most, first, words] = four(given, ' ');
    let (buffers, most, first) = (number(buffers), number(most), number(first));
    let made = BufferPool::new(notes.alloc, buffers as usize, most as usize, first as usize);
    let Ok(mut pool) = made else {
        return notes.must(false);
    };
    for word in words.split(',') {
        let (bytes, room) = word.split_once(':').unwrap_or((word, ""));
        note_buffer(notes, &mut pool, bytes, room);
    }
}
