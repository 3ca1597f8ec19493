// Writing a payload's chunks into a buffer that has room for them.

ghost use Rattle.std.specs.Prelude.{◌≡◌, ◌≤◌, ◌+◌, ◌*◌, ◌/◌, ◌++◌, length};
ghost use Rattle.my_frame.specs.Chunks.{full_length, chunk, chunks, number_after_payload};

use crate::limits::FULL_LENGTH;
use bytes::BytesMut;

// Adds the chunk of this part.
fn put_chunk(dst: &mut BytesMut, part: &[u8], number: u8)
    requires fits { length part.now ≤ full_length }
    requires room { 4 + length part.now ≤ dst.old.spare }
    ensures items { dst.new.items ≡ dst.old.items ++ chunk part.now number }
    ensures spare { dst.new.spare + (4 + length part.now) ≡ dst.old.spare }
{
    let len = part.len();
    let header = [
        (len % 256) as u8,
        (len / 256 % 256) as u8,
        (len / 65536) as u8,
        number,
    ];
    dst.extend_reserved(&header);
    dst.extend_reserved(part);
}

// Adds the payload's chunks, with sequence ids from `number` on, and returns the next sequence id.
pub fn put_chunks(dst: &mut BytesMut, payload: &[u8], number: u8) -> u8
    requires { length payload.now + 4 * (length payload.now / full_length + 1) ≤ dst.old.spare }
    ensures items { dst.new.items ≡ dst.old.items ++ chunks payload.now number }
    ensures number { result ≡ number_after_payload payload.now number }
{
    let mut rest = payload;
    let mut next = number;
    'chunks: while rest.len() >= FULL_LENGTH {
        let (part, after) = rest.split_at(FULL_LENGTH);
        put_chunk(dst, part, next);
        rest = after;
        next = next.wrapping_add(1);
    }
    put_chunk(dst, rest, next);
    next.wrapping_add(1)
}
