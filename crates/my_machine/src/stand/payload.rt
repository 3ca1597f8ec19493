//! The payload that unread bytes begin with, read where it stands.

ghost use Rattle.std.specs.Prelude.{◌≡◌};
ghost use Rattle.my_frame.specs.Front.{front_at};
ghost use Rattle.my_machine.specs.Found.{Finds, IsPlaced, payload_in};

use my_frame::limits::FULL_LENGTH;
use my_frame::{Blob, CodecError, FramedPayload, Span, payload_in_front, scan_front};
use std::alloc::Global;

/// A payload that some bytes begin with, and its place in them. One that came in several chunks was joined to a copy.
#[derive(Drop)]
pub struct FoundPayload {
    pub joined: Option<Blob>,
    pub span: Span,
}

impl FoundPayload {
    /// The payload, in the bytes in which it was found.
    pub fn in_bytes<'a>(&'a self, bytes: &'a [u8]) -> &'a [u8]
        requires { IsPlaced bytes.now self.now }
        ensures { result.now ≡ payload_in bytes.now self.now }
    {
        match &self.joined {
            None => &bytes[4..self.span.len],
            Some(payload) => payload.as_slice(),
        }
    }
}

/// Finds the payload that the bytes begin with. One that came in one chunk isn't copied.
pub fn find_payload(
    alloc: Global,
    bytes: &[u8],
    number: u8,
    limit: u64,
) -> Result<Option<FoundPayload>, CodecError>
    ensures { Finds number bytes.now (front_at number limit bytes.now) result }
{
    let span = match scan_front(bytes, number, limit) {
        Ok(Some(span)) => span,
        Ok(None) => return Ok(None),
        Err(fault) => return Err(CodecError::Fault(fault)),
    };
    if span.len < 4 + FULL_LENGTH {
        return Ok(Some(FoundPayload { joined: None, span }));
    }
    match payload_in_front(alloc, bytes, number, limit) {
        Ok(Some(FramedPayload { payload, span })) => Ok(Some(FoundPayload {
            joined: Some(payload),
            span,
        })),
        Ok(None) => Ok(None),
        Err(error) => Err(error),
    }
}
