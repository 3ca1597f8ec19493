//! What a payload is, found without taking memory: each call returns a part of what the reader of
//! that packet would return.

ghost use Rattle.std.specs.Prelude.{◌≡◌, is_some};
ghost use Rattle.std.specs.Option.{option_map};
ghost use Rattle.my_reply.specs.OkPacket.{end_ok_at, fields_at, ok_at};
ghost use Rattle.my_reply.specs.ErrPacket.{err_at, told_at};
ghost use Rattle.my_reply.specs.Column.{column_at};

use crate::column::parts_of;
use my_flags::StatusFlags;
use my_frame::FULL_LENGTH;
use my_frame::numbers::{take_head, take_len, take_u16};

// The status after an OK's head.
#[tactic(auto, unfolding(crate::specs::OkPacket::fields_at))]
fn fields_status(bytes: &[u8]) -> Option<StatusFlags>
    ensures { result ≡ option_map (λ ok. ok.status) (fields_at bytes.now) }
{
    let (_affected, rest) = take_len(bytes)?;
    let (_insert, rest) = take_len(rest)?;
    let (status, rest) = take_u16(rest)?;
    let (_warnings, _rest) = take_u16(rest)?;
    Some(StatusFlags(status))
}

/// The status of the OK packet, if it is one.
pub fn ok_status(payload: &[u8]) -> Option<StatusFlags>
    ensures { result ≡ option_map (λ ok. ok.status) (ok_at payload.now) }
{
    let rest = take_head(payload, 0x00)?;
    fields_status(rest)
}

/// The status of the OK packet that ends a set of rows, if it is one.
pub fn end_ok_status(payload: &[u8]) -> Option<StatusFlags>
    ensures { result ≡ option_map (λ ok. ok.status) (end_ok_at payload.now) }
{
    let rest = take_head(payload, 0xFE)?;
    if payload.len() >= FULL_LENGTH {
        return None;
    }
    fields_status(rest)
}

// Whether a state and a message can be read.
fn has_state(before_response: bool, left: &[u8]) -> bool
    ensures { result ≡ is_some (told_at before_response left.now) }
{
    match left {
        [b'#', rest @ ..] if !before_response => rest.len() >= 5,
        _ => true,
    }
}

/// Whether it says that a command failed.
pub fn is_err(payload: &[u8], before_response: bool) -> bool
    ensures { result ≡ is_some (err_at before_response payload.now) }
{
    let Some(rest) = take_head(payload, 0xFF) else {
        return false;
    };
    let Some((_code, rest)) = take_u16(rest) else {
        return false;
    };
    has_state(before_response, rest)
}

/// Whether it describes a column.
pub fn is_column(payload: &[u8]) -> bool
    ensures { result ≡ is_some (column_at payload.now) }
{
    parts_of(payload).is_some()
}
