//! The replies to a statement to prepare, and to a query that reads a file of the client.

ghost use Rattle.std.specs.Prelude.{◌≡◌, IfOk, Some};
ghost use Rattle.std.specs.Option.{ok_or};
ghost use Rattle.my_frame.specs.Reading.{Gives, ReadsExactly};
ghost use Rattle.my_reply.specs.Replies.{IsInfile, IsPrepareOk, infile_at, prepare_ok_at};

use my_frame::numbers::{take_bytes, take_head, take_u16, take_u32};
use my_frame::{Blob, NoMemory, ReadError};
use std::alloc::Global;

/// A statement was prepared.
#[derive(Clone, Copy, PartialEq, Eq)]
pub struct PrepareOk {
    /// The statement's id.
    pub id: u32,
    /// The number of columns that its rows have.
    pub columns: u16,
    /// The number of parameters that it takes.
    pub params: u16,
    pub warnings: u16,
}

/// The server asks for a file of the client.
#[derive(Drop)]
pub struct InfileRequest {
    pub name: Blob,
}

impl InfileRequest {
    /// A second value of the same request.
    pub fn copy(&self, alloc: Global) -> Result<InfileRequest, NoMemory>
        ensures { IfOk result (λ copy. copy ≡ self.now) }
    {
        Ok(InfileRequest {
            name: self.name.copy(alloc)?,
        })
    }
}

#[tactic(auto, unfolding(crate::specs::Replies::prepare_ok_at))]
fn prepare_ok_of(payload: &[u8]) -> Option<PrepareOk>
    ensures { result ≡ prepare_ok_at payload.now }
{
    let rest = take_head(payload, 0x00)?;
    let (id, rest) = take_u32(rest)?;
    let (columns, rest) = take_u16(rest)?;
    let (params, rest) = take_u16(rest)?;
    let (_filler, rest) = take_bytes(rest, 1)?;
    let (warnings, _) = take_u16(rest)?;
    Some(PrepareOk {
        id,
        columns,
        params,
        warnings,
    })
}

/// Reads that a statement was prepared. What follows its numbers is ignored.
pub fn read_prepare_ok(payload: &[u8]) -> Result<PrepareOk, ReadError>
    ensures gives { result ≡ ok_or (prepare_ok_at payload.now) ReadError.Malformed }
    ensures exact { ReadsExactly (IsPrepareOk payload.now) result }
{
    prepare_ok_of(payload).ok_or(ReadError::Malformed)
}

fn infile_of(alloc: Global, payload: &[u8]) -> Result<InfileRequest, ReadError>
    ensures { Gives result (infile_at payload.now) }
{
    let rest = take_head(payload, 0xFB).ok_or(ReadError::Malformed)?;
    Ok(InfileRequest {
        name: Blob::from_slice(alloc, rest)?,
    })
}

/// Reads that the server asks for a file of the client.
pub fn read_infile(alloc: Global, payload: &[u8]) -> Result<InfileRequest, ReadError>
    ensures gives { Gives result (infile_at payload.now) }
    ensures exact { ReadsExactly (IsInfile payload.now) result }
{
    infile_of(alloc, payload)
}
