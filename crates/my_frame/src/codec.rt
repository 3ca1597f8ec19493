//! Payloads as numbered chunks, over a buffer.

ghost use Rattle.std.specs.Prelude.{◌≡◌, ◌<◌, ◌≤◌, ◌+◌, ◌↔◌, ℕ, List, ◌++◌, length, OnOk, OnErr, IfOk, IfSome, IfNone, IsSomeAnd, MatchResult, IsErrOf};
ghost use Rattle.my_frame.specs.Chunks.{chunks, number_after_payload};
ghost use Rattle.my_frame.specs.Faults.{Faulty, HasNoPayload, HasNoFault};
ghost use Rattle.my_frame.specs.declared.fault.CodecFault.{CodecFault as AnyFault};

use crate::append::append_payload;
use crate::fault::{CodecError, CodecFault};
use crate::front::{FramedPayload, payload_in_front};
use crate::limits::DEFAULT_MAX_ALLOWED_PACKET;
use crate::no_memory::NoMemory;
use bytes::BytesMut;
use std::alloc::Global;
use std::marker::Model;

/// Reads and writes payloads as numbered chunks. The sequence id counts over both directions.
#[derive(Drop)]
pub struct PacketCodec {
    number: u8,
    limit: u64,
}

impl Model for PacketCodec {
    ghost use Rattle.my_frame.specs.Codec.{Codec};

    ghost Value = { Codec };

    ghost view = { λ c. record { number = c.number; limit = c.limit } };
}

impl PacketCodec {
    ghost use Rattle.my_frame.specs.Codec.{Takes};

    /// The longest payload in bytes, where nothing else was set.
    pub const DEFAULT_LIMIT: u64 = DEFAULT_MAX_ALLOWED_PACKET;

    /// A codec whose next chunk has the sequence id 0.
    pub fn new() -> PacketCodec
        ensures { result ≡ record { number = 0; limit = DEFAULT_MAX_ALLOWED_PACKET } }
    {
        PacketCodec {
            number: 0,
            limit: Self::DEFAULT_LIMIT,
        }
    }

    /// The next chunk has the sequence id 0 again, as a new command's first has.
    pub fn reset_seq_id(&mut self)
        ensures { self.new ≡ record self.old { number = 0 } }
    {
        self.number = 0;
    }

    /// From now on a payload may have `limit` bytes.
    pub fn set_max_allowed_packet(&mut self, limit: u64)
        ensures { self.new ≡ record self.old { limit = limit } }
    {
        self.limit = limit;
    }

    /// The longest payload in bytes.
    pub fn max_allowed_packet(&self) -> u64
        ensures { result ≡ self.now.limit }
    {
        self.limit
    }

    /// Takes the next payload from the front of `src`, once all its chunks are there.
    pub fn decode(
        &mut self,
        alloc: Global,
        src: &mut BytesMut,
    ) -> Result<Option<Vec<u8>>, CodecError>
        ensures taken { IfOk result
            (λ o. IfSome o (λ v. Takes self.old self.new v.items src.old.items src.new.items)) }

        // What was written is read again, whatever follows it.
        ensures read_back { (p more : List ℕ) → length p ≤ self.old.limit
            → src.old.items ≡ chunks p self.old.number ++ more
            → MatchResult result
            (λ o. IsSomeAnd o (λ v. v.items ≡ p) × (src.new.items ≡ more))
            (λ e. e ≡ CodecError.NoMemory) }

        ensures waits { (result ≡ Ok None)
            ↔ (HasNoPayload src.old.items self.old.number
            × HasNoFault src.old.items self.old.number self.old.limit) }
        ensures fault { (f : AnyFault) → IsErrOf result (CodecError.Fault f)
            ↔ Faulty src.old.items self.old.number 0 self.old.limit f }

        // An error and a `None` change nothing.
        ensures none { IfOk result (λ o. IfNone o ((self.new ≡ self.old) × (src.new ≡ src.old))) }
        ensures err { OnErr result ((self.new ≡ self.old) × (src.new ≡ src.old)) }
    {
        let found = match payload_in_front(alloc, src.as_slice(), self.number, self.limit) {
            Ok(Some(found)) => found,
            Ok(None) => return Ok(None),
            Err(e) => return Err(e),
        };
        let FramedPayload { payload, span } = found;
        src.advance(span.len);
        self.number = span.next;
        Ok(Some(payload.into_vec()))
    }

    /// Adds the payload's chunks to `dst`.
    pub fn encode(&mut self, payload: &[u8], dst: &mut BytesMut) -> Result<(), CodecError>
        ensures ok { OnOk result ((dst.new.items ≡ dst.old.items ++ chunks payload.now self.old.number)
            × (self.new ≡ record self.old { number = number_after_payload payload.now self.old.number })) }
        ensures fault { (f : AnyFault) → IsErrOf result (CodecError.Fault f)
            ↔ ((self.old.limit < length payload.now)
            × (f ≡ CodecFault.TooLarge (length payload.now) self.old.limit)) }
        ensures err { OnErr result ((self.new ≡ self.old) × (dst.new.items ≡ dst.old.items)) }
    {
        let length = payload.len() as u64;
        if length > self.limit {
            return Err(CodecError::Fault(CodecFault::TooLarge {
                length,
                limit: self.limit,
            }));
        }
        match append_payload(dst, payload, self.number) {
            Ok(next) => {
                self.number = next;
                Ok(())
            }
            Err(NoMemory) => Err(CodecError::NoMemory),
        }
    }
}
