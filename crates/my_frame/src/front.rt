//! The payload that some bytes begin with, copied.

ghost use Rattle.std.specs.Prelude.{◌≡◌, IfOk};
ghost use Rattle.my_frame.specs.Front.{front_at};
ghost use Rattle.my_frame.specs.FrontLaws.{FrontMeans};
ghost use Rattle.my_frame.specs.Framed.{IsFramed, IsThePayload};

use crate::blob::Blob;
use crate::fault::CodecError;
use crate::header::read_header;
use crate::limits::FULL_LENGTH;
use crate::scan::{Span, scan_front};
use std::alloc::{AllocError, Global};

/// A payload and the span of its chunks.
#[derive(Drop)]
pub struct FramedPayload {
    pub payload: Blob,
    pub span: Span,
}

// The payload whose chunks the bytes begin with, where they begin with one.
fn gather(alloc: Global, bytes: &[u8]) -> Result<Vec<u8>, AllocError>
    ensures { IfOk result (λ v. IsThePayload bytes.now v.items) }
{
    let mut payload = Vec::new(alloc);
    let mut rest = bytes;
    'chunks: while rest.len() >= 4 {
        let header = read_header(rest);
        let (_, body) = rest.split_at(4);
        if body.len() < header.len {
            return Ok(payload);
        }
        let (part, after) = body.split_at(header.len);
        payload.extend_from_slice(part)?;
        if header.len < FULL_LENGTH {
            return Ok(payload);
        }
        rest = after;
    }
    Ok(payload)
}

/// Copies the payload that the bytes begin with. Its chunks have sequence ids from `number` on, and it
/// has at most `limit` bytes. `Ok(None)` means that neither it nor a fault is there yet. The next
/// payload may follow its span.
pub fn payload_in_front(
    alloc: Global,
    bytes: &[u8],
    number: u8,
    limit: u64,
) -> Result<Option<FramedPayload>, CodecError>
    ensures framed { IsFramed bytes.now (front_at number limit bytes.now) result }
    ensures means { FrontMeans number limit bytes.now (front_at number limit bytes.now) }
{
    let span = match scan_front(bytes, number, limit) {
        Ok(Some(span)) => span,
        Ok(None) => return Ok(None),
        Err(fault) => return Err(CodecError::Fault(fault)),
    };
    match gather(alloc, bytes) {
        Ok(payload) => Ok(Some(FramedPayload {
            payload: Blob::from(payload),
            span,
        })),
        Err(_) => Err(CodecError::NoMemory),
    }
}
