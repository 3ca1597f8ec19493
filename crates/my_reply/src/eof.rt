//! The packet that ends columns or rows where no OK packet does.

ghost use Rattle.std.specs.Prelude.{◌≡◌, Some};
ghost use Rattle.std.specs.Option.{ok_or};
ghost use Rattle.my_frame.specs.Reading.{ReadsExactly};
ghost use Rattle.my_reply.specs.EofPacket.{IsEof, eof_at};

use my_flags::StatusFlags;
use my_frame::ReadError;
use my_frame::numbers::{take_head, take_u16};

/// The end of columns or rows.
#[derive(Clone, Copy, PartialEq, Eq)]
pub struct EofPacket {
    pub warnings: u16,
    pub status: StatusFlags,
}

fn eof_of(payload: &[u8]) -> Option<EofPacket>
    ensures { result ≡ eof_at payload.now }
{
    let rest = take_head(payload, 0xFE)?;
    let (warnings, rest) = take_u16(rest)?;
    let (status, rest) = take_u16(rest)?;
    if rest.len() > 2 {
        return None;
    }
    Some(EofPacket {
        warnings,
        status: StatusFlags(status),
    })
}

/// Reads the end of columns or rows.
pub fn read_eof(payload: &[u8]) -> Result<EofPacket, ReadError>
    ensures gives { result ≡ ok_or (eof_at payload.now) ReadError.Malformed }
    ensures exact { ReadsExactly (IsEof payload.now) result }
{
    eof_of(payload).ok_or(ReadError::Malformed)
}
