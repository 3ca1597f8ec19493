//! One payload is read from a bare link.

ghost use Rattle.std.specs.Prelude.{◌≡◌, ◌<◌, ◌++◌};
ghost use Rattle.my_packets.specs.Reading.{IsTaken, IsReceived, ReadsPacket};

use crate::fault::link_error;
use bytes::BytesMut;
use my_frame::limits::MOST_TAKEN;
use my_frame::{CodecError, PacketCodec};
use my_link::{Link, Poll, ReadStep};
use my_reading::{Error, IoError, IoKind};
use std::alloc::Global;

// The most bytes that are read at once.
const PIECE: usize = 4096;

// What a read of a link gave.
enum Received {
    // So many bytes are added.
    Bytes(u64),
    Nothing,
    Failed(Error),
}

// The payload in front, if it is whole, or the fault of its packets.
fn take_payload(
    alloc: Global,
    codec: &mut PacketCodec,
    src: &mut BytesMut,
) -> Option<Result<Vec<u8>, Error>>
    ensures { IsTaken result (λ v. v.items) codec.old codec.new src.old.items src.new.items }
{
    match codec.decode(alloc, src) {
        Ok(None) => None,
        Ok(Some(payload)) => Some(Ok(payload)),
        Err(CodecError::Fault(fault)) => Some(Err(Error::Io(IoError::Codec(fault)))),
        Err(CodecError::NoMemory) => Some(Err(Error::NoMemory)),
    }
}

// Reads once, at most `room` bytes. Room for them is made before, so that none that was read is lost.
fn receive<L: Link>(link: &mut L, src: &mut BytesMut, room: u64) -> Received
    requires { 0 < room }
    ensures { IsReceived (L.looks link.old) (L.looks link.new) src.old.items src.new.items room result }
{
    if src.reserve(PIECE).is_err() {
        return Received::Failed(Error::NoMemory);
    }
    let mut piece = [0u8; PIECE];
    let most = room.min(PIECE as u64) as usize;
    match link.read(&mut piece[..most]) {
        ReadStep::Got(n) => {
            src.extend_from_slice(&piece[..n]).unwrap();
            Received::Bytes(n as u64)
        }
        ReadStep::NotYet => Received::Nothing,
        ReadStep::End => Received::Failed(link_error(IoKind::UnexpectedEof)),
        ReadStep::Failed => Received::Failed(link_error(IoKind::Link)),
    }
}

/// Reads one payload from a bare link, with a codec that counts its packets.
#[derive(Clone, Copy, PartialEq, Eq)]
pub struct ReadPacket;

impl ReadPacket {
    /// A read that has not begun.
    pub fn new() -> ReadPacket {
        ReadPacket
    }

    /// Goes on until a whole payload is in `src`, which it takes from there, or the link isn't ready.
    ///
    /// It reads the link only where `src` holds no whole payload and no fault, at most 67,108,864 bytes in one poll. What was
    /// read is in `src`, also after an error. The place of its errors is 0.
    pub fn poll<L: Link>(
        &mut self,
        alloc: Global,
        link: &mut L,
        codec: &mut PacketCodec,
        src: &mut BytesMut,
    ) -> Poll<Result<Vec<u8>, Error>>
        ensures { ReadsPacket result (λ v. v.items) (L.looks link.old) (L.looks link.new) codec.old codec.new
            src.old.items src.new.items }
    {
        let mut taken = 0;
        'reads: loop {
            if let Some(found) = take_payload(alloc, codec, src) {
                return Poll::Ready(found);
            }
            if taken == MOST_TAKEN {
                return Poll::Pending;
            }
            match receive(link, src, MOST_TAKEN - taken) {
                Received::Bytes(n) => taken += n,
                Received::Nothing => return Poll::Pending,
                Received::Failed(error) => return Poll::Ready(Err(error)),
            }
        }
    }
}
