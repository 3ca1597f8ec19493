//! Bytes that come in at the end and go out at the front.

ghost use Rattle.std.specs.Prelude.{◌≡◌, ◌≤◌, ◌==◌, [], ◌++◌, length, drop, OnOk, OnErr, IfOk};
ghost use Rattle.my_frame.specs.Chunks.{chunks, number_after_payload};

use bytes::BytesMut;
use my_frame::{NoMemory, append_payload};
use std::alloc::Global;
use std::marker::Model;

/// Bytes in order, which contracts see as their list. What is taken out leaves room for what is put in:
/// over a whole stream each byte is moved a bounded number of times.
#[derive(Drop)]
pub struct Queue {
    bytes: BytesMut,
}

impl Model for Queue {
    ghost use Rattle.std.specs.Prelude.{ℕ, List};

    ghost Value = { List ℕ };

    ghost view = { λ q. q.bytes.items };
}

impl Queue {
    /// No bytes.
    pub fn new(alloc: Global) -> Queue
        ensures { result ≡ [] }
    {
        Queue {
            bytes: BytesMut::new(alloc),
        }
    }

    pub fn as_slice(&self) -> &[u8]
        ensures { result.now ≡ self.now }
    {
        self.bytes.as_slice()
    }

    pub fn len(&self) -> usize
        ensures { result ≡ length self.now }
    {
        self.bytes.len()
    }

    pub fn is_empty(&self) -> bool
        ensures { result ≡ (length self.now == 0) }
    {
        self.bytes.is_empty()
    }

    /// Takes `count` bytes out at the front.
    pub fn skip(&mut self, count: usize)
        requires { count ≤ length self.old }
        ensures { self.new ≡ drop count self.old }
    {
        self.bytes.advance(count);
    }

    /// Takes all bytes out.
    pub fn clear(&mut self)
        ensures { self.new ≡ [] }
    {
        self.bytes.clear();
    }

    /// Puts bytes in at the end.
    pub fn push(&mut self, bytes: &[u8]) -> Result<(), NoMemory>
        ensures ok { OnOk result (self.new ≡ self.old ++ bytes.now) }
        ensures err { OnErr result (self.new ≡ self.old) }
    {
        self.bytes.extend_from_slice(bytes)?;
        Ok(())
    }

    /// Puts a payload's packets in at the end, with sequence ids from `number` on, and returns the
    /// next one.
    pub fn push_payload(&mut self, payload: &[u8], number: u8) -> Result<u8, NoMemory>
        ensures ok { IfOk result (λ next. (self.new ≡ self.old ++ chunks payload.now number)
            × (next ≡ number_after_payload payload.now number)) }
        ensures err { OnErr result (self.new ≡ self.old) }
    {
        append_payload(&mut self.bytes, payload, number)
    }
}
