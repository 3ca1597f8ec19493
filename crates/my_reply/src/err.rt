//! The packet that says that a command failed.

ghost use Rattle.std.specs.Prelude.{◌≡◌, IfOk};
ghost use Rattle.my_frame.specs.Reading.{Gives, GivesAs, ReadsExactly};
ghost use Rattle.my_reply.specs.ErrPacket.{IsErr, err_at, told_at};

use my_frame::numbers::{take_bytes, take_head, take_u16};
use my_frame::{NoMemory, ReadError, Text};
use std::alloc::Global;

/// The ERR packet: a command failed.
#[derive(Drop)]
pub struct ErrPacket {
    pub code: u16,
    /// The SQL state, `HY000` where the server sent none.
    pub state: [u8; 5],
    pub message: Text,
}

impl ErrPacket {
    /// A second value of the same packet.
    pub fn copy(&self, alloc: Global) -> Result<ErrPacket, NoMemory>
        ensures { IfOk result (λ copy. copy ≡ self.now) }
    {
        Ok(ErrPacket {
            code: self.code,
            state: self.state,
            message: self.message.copy(alloc)?,
        })
    }
}

// The state and the message after the code.
fn told_of(before_response: bool, left: &[u8]) -> Result<([u8; 5], &[u8]), ReadError>
    ensures { GivesAs (λ x. (x.0, x.1.now)) result (told_at before_response left.now) }
{
    match left {
        [b'#', rest @ ..] if !before_response => {
            let (state, rest) = take_bytes(rest, 5).ok_or(ReadError::Malformed)?;
            Ok(([state[0], state[1], state[2], state[3], state[4]], rest))
        }
        _ => Ok((*b"HY000", left)),
    }
}

fn err_of(alloc: Global, payload: &[u8], before_response: bool) -> Result<ErrPacket, ReadError>
    ensures { Gives result (err_at before_response payload.now) }
{
    let rest = take_head(payload, 0xFF).ok_or(ReadError::Malformed)?;
    let (code, rest) = take_u16(rest).ok_or(ReadError::Malformed)?;
    let (state, rest) = told_of(before_response, rest)?;
    let message = Text::from_utf8_lossy(alloc, rest)?;
    Ok(ErrPacket {
        code,
        state,
        message,
    })
}

/// Reads that a command failed. Before the client's response the packet has no SQL state.
pub fn read_err(
    alloc: Global,
    payload: &[u8],
    before_response: bool,
) -> Result<ErrPacket, ReadError>
    ensures gives { Gives result (err_at before_response payload.now) }
    ensures exact { ReadsExactly (IsErr before_response payload.now) result }
{
    err_of(alloc, payload, before_response)
}
