//! The payload that a client's bytes begin with.

ghost use Rattle.std.specs.Prelude.{◌≡◌};
ghost use Rattle.my_server.specs.Arrival.{Arrives};

use my_frame::limits::GREATEST_MAX_ALLOWED_PACKET;
use my_frame::{CodecError, FramedPayload, payload_in_front};
use std::alloc::Global;

/// The payload in front, whose first chunk has the sequence id `number`.
pub fn payload_there(
    alloc: Global,
    bytes: &[u8],
    number: u8,
) -> Result<Option<FramedPayload>, CodecError>
    ensures { Arrives number bytes.now result }
{
    payload_in_front(alloc, bytes, number, GREATEST_MAX_ALLOWED_PACKET)
}
