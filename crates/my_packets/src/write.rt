//! One payload is written to a bare link.

ghost use Rattle.std.specs.Prelude.{◌≡◌, ◌≢◌, [], false};
ghost use Rattle.my_frame.specs.declared.fault.CodecFault.TheVariants.{TooLarge};
ghost use Rattle.my_reading.specs.Errors.{codec_error};
ghost use Rattle.my_packets.specs.Writing.{IsBegun, IsSent, SendsOn, WritesPacket};

use crate::fault::link_error;
use bytes::BytesMut;
use my_frame::{CodecError, CodecFault, PacketCodec};
use my_link::{Link, Poll, WriteStep};
use my_reading::{Error, IoError, IoKind};
use std::alloc::Global;
use std::marker::Model;

fn too_large(length: u64, limit: u64) -> Error
    ensures { result ≡ codec_error (TooLarge length limit) }
{
    Error::Io(IoError::Codec(CodecFault::TooLarge { length, limit }))
}

// What a write of a link came to.
enum Sent {
    Some,
    Nothing,
    Failed(Error),
}

/// Writes one payload to a bare link, with a codec that counts its packets.
#[derive(Drop)]
pub struct WritePacket {
    payload: Vec<u8>,
    begun: bool,
    // The bytes of its packets that are still to be sent, once it began.
    owed: BytesMut,
}

impl Model for WritePacket {
    ghost use Rattle.my_packets.specs.Writing.{Sending};

    ghost Value = { Sending };

    ghost view = { λ w. record { payload = w.payload.items; begun = w.begun; owed = w.owed.items } };
}

impl WritePacket {
    /// A write of this payload that has not begun.
    pub fn new(alloc: Global, payload: Vec<u8>) -> WritePacket
        ensures { result ≡ record { payload = payload.items; begun = false; owed = [] } }
    {
        WritePacket {
            payload,
            begun: false,
            owed: BytesMut::new(alloc),
        }
    }

    // The packets are made, unless they are.
    fn begin(&mut self, codec: &mut PacketCodec) -> Result<(), Error>
        ensures { IsBegun codec.old codec.new self.old self.new result }
    {
        if self.begun {
            return Ok(());
        }
        if self.payload.len() as u64 > codec.max_allowed_packet() {
            return Err(too_large(self.payload.len() as u64, codec.max_allowed_packet()));
        }
        match codec.encode(self.payload.as_slice(), &mut self.owed) {
            Ok(()) => {
                self.begun = true;
                Ok(())
            }
            // Its length was tested before.
            Err(CodecError::Fault(_) | CodecError::NoMemory) => Err(Error::NoMemory),
        }
    }

    // Writes once.
    fn send<L: Link>(&mut self, link: &mut L) -> Sent
        requires { self.old.owed ≢ [] }
        ensures { IsSent (L.looks link.old) (L.looks link.new) self.old self.new result }
    {
        match link.write(self.owed.as_slice()) {
            WriteStep::Took(n) => {
                self.owed.advance(n);
                Sent::Some
            }
            WriteStep::NotYet => Sent::Nothing,
            WriteStep::Failed => Sent::Failed(link_error(IoKind::Link)),
            WriteStep::NoMemory => Sent::Failed(Error::NoMemory),
        }
    }

    // Goes on until all bytes are sent, or the link isn't ready.
    fn send_all<L: Link>(&mut self, link: &mut L) -> Poll<Result<(), Error>>
        ensures { SendsOn (L.looks link.old) (L.looks link.new) self.old self.new result }
    {
        'writes: while !self.owed.is_empty() {
            match self.send(link) {
                Sent::Some => {}
                Sent::Nothing => return Poll::Pending,
                Sent::Failed(error) => return Poll::Ready(Err(error)),
            }
        }
        Poll::Ready(Ok(()))
    }

    /// Goes on until all packets of the payload are sent, or the link isn't ready.
    ///
    /// It writes only where bytes are still to be sent. The place of its errors is 0. A payload that is too large is refused
    /// whenever it is polled.
    pub fn poll<L: Link>(
        &mut self,
        link: &mut L,
        codec: &mut PacketCodec,
    ) -> Poll<Result<(), Error>>
        ensures { WritesPacket (L.looks link.old) (L.looks link.new) codec.old codec.new self.old self.new result }
    {
        match self.begin(codec) {
            Ok(()) => self.send_all(link),
            Err(error) => Poll::Ready(Err(error)),
        }
    }
}
