//! Payloads to send, added to a buffer.

ghost use Rattle.std.specs.Prelude.{◌≡◌, ◌++◌, OnErr, IfOk};
ghost use Rattle.my_frame.specs.Chunks.{chunks, number_after_payload};

use crate::limits::FULL_LENGTH;
use crate::no_memory::NoMemory;
use crate::put::put_chunks;
use bytes::BytesMut;

/// Adds the payload's chunks, with sequence ids from `number` on, and returns the next sequence id.
pub fn append_payload(dst: &mut BytesMut, payload: &[u8], number: u8) -> Result<u8, NoMemory>
    ensures ok { IfOk result (λ next. (dst.new.items ≡ dst.old.items ++ chunks payload.now number)
        × (next ≡ number_after_payload payload.now number)) }
    ensures err { OnErr result (dst.new.items ≡ dst.old.items) }
{
    let room = payload.len() + 4 * (payload.len() / FULL_LENGTH + 1);
    if dst.reserve(room).is_err() {
        return Err(NoMemory);
    }
    Ok(put_chunks(dst, payload, number))
}
