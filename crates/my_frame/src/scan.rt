//! The chunks of the payload that some bytes begin with, found without taking memory.

ghost use Rattle.std.specs.Prelude.{◌≡◌, length};
ghost use Rattle.my_frame.specs.Front.{front_at, span_of};

use crate::fault::CodecFault;
use crate::header::read_header;
use crate::limits::FULL_LENGTH;

/// The chunks of one payload: their length with their headers, in bytes, and the next sequence id.
#[derive(Clone, Copy, PartialEq, Eq)]
pub struct Span {
    pub len: usize,
    pub next: u8,
}

/// Looks for a whole payload that the bytes begin with. Its chunks have sequence ids from `number`
/// on, and it has at most `limit` bytes. `Ok(None)` means that neither it nor a fault is there yet.
pub fn scan_front(bytes: &[u8], number: u8, limit: u64) -> Result<Option<Span>, CodecFault>
    ensures { result ≡ span_of bytes.now (front_at number limit bytes.now) }
{
    let mut rest = bytes;
    let mut expected = number;
    let mut before: u64 = 0;
    'chunks: while rest.len() >= 4 {
        let header = read_header(rest);
        if header.number != expected {
            return Err(CodecFault::OutOfOrder {
                expected,
                found: header.number,
            });
        }
        let length = before + header.len as u64;
        if length > limit {
            return Err(CodecFault::TooLarge { length, limit });
        }
        let (_, body) = rest.split_at(4);
        if body.len() < header.len {
            return Ok(None);
        }
        let (_, after) = body.split_at(header.len);
        expected = expected.wrapping_add(1);
        if header.len < FULL_LENGTH {
            return Ok(Some(Span {
                len: bytes.len() - after.len(),
                next: expected,
            }));
        }
        rest = after;
        before = length;
    }
    Ok(None)
}
