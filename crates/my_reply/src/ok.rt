//! The packet that says that a command succeeded, or that a set of rows ended.

ghost use Rattle.std.specs.Prelude.{◌≡◌, IfOk, Some};
ghost use Rattle.my_frame.specs.Reading.{Gives, ReadsExactly};
ghost use Rattle.my_reply.specs.OkPacket.{IsEndOk, IsOk, end_ok_at, fields_at, info_of, ok_at};

use my_flags::StatusFlags;
use my_frame::numbers::{take_head, take_len, take_text, take_u16};
use my_frame::{Blob, FULL_LENGTH, NoMemory, ReadError};
use std::alloc::Global;

/// The OK packet: a command succeeded, or a set of rows ended.
#[derive(Drop, PartialEq, Eq)]
pub struct OkPacket {
    /// The number of rows that were changed.
    pub affected: u64,
    /// The id that the server generated for the last new row, 0 where it generated none.
    pub insert: u64,
    pub status: StatusFlags,
    pub warnings: u16,
    /// A remark for people.
    pub info: Blob,
}

impl OkPacket {
    /// A second value of the same packet.
    pub fn copy(&self, alloc: Global) -> Result<OkPacket, NoMemory>
        ensures { IfOk result (λ copy. copy ≡ self.now) }
    {
        Ok(OkPacket {
            affected: self.affected,
            insert: self.insert,
            status: self.status,
            warnings: self.warnings,
            info: self.info.copy(alloc)?,
        })
    }
}

// The text that follows its length, of which more may follow; else all that is left.
fn info_of(left: &[u8]) -> &[u8]
    ensures { result.now ≡ info_of left.now }
{
    match take_text(left) {
        Some((text, _)) => text,
        None => left,
    }
}

#[tactic(auto, unfolding(crate::specs::OkPacket::fields_at))]
fn fields_of(alloc: Global, bytes: &[u8]) -> Result<OkPacket, ReadError>
    ensures { Gives result (fields_at bytes.now) }
{
    let (affected, rest) = take_len(bytes).ok_or(ReadError::Malformed)?;
    let (insert, rest) = take_len(rest).ok_or(ReadError::Malformed)?;
    let (status, rest) = take_u16(rest).ok_or(ReadError::Malformed)?;
    let (warnings, rest) = take_u16(rest).ok_or(ReadError::Malformed)?;
    let info = Blob::from_slice(alloc, info_of(rest))?;
    Ok(OkPacket {
        affected,
        insert,
        status: StatusFlags(status),
        warnings,
        info,
    })
}

fn ok_of(alloc: Global, payload: &[u8]) -> Result<OkPacket, ReadError>
    ensures { Gives result (ok_at payload.now) }
{
    let rest = take_head(payload, 0x00).ok_or(ReadError::Malformed)?;
    fields_of(alloc, rest)
}

fn end_ok_of(alloc: Global, payload: &[u8]) -> Result<OkPacket, ReadError>
    ensures { Gives result (end_ok_at payload.now) }
{
    if payload.len() >= FULL_LENGTH {
        return Err(ReadError::Malformed);
    }
    let rest = take_head(payload, 0xFE).ok_or(ReadError::Malformed)?;
    fields_of(alloc, rest)
}

/// Reads that a command succeeded.
pub fn read_ok(alloc: Global, payload: &[u8]) -> Result<OkPacket, ReadError>
    ensures gives { Gives result (ok_at payload.now) }
    ensures exact { ReadsExactly (IsOk payload.now) result }
{
    ok_of(alloc, payload)
}

/// Reads that a set of rows ended, where an OK packet ends it.
pub fn read_end_ok(alloc: Global, payload: &[u8]) -> Result<OkPacket, ReadError>
    ensures gives { Gives result (end_ok_at payload.now) }
    ensures exact { ReadsExactly (IsEndOk payload.now) result }
{
    end_ok_of(alloc, payload)
}
