//! Values of bytes that are sent before the execution of their statement.

ghost use Rattle.std.specs.Prelude.{◌≡◌, ◌≤◌, ◌++◌, IfOk, OnOk, length, map};
ghost use Rattle.my_command.specs.Client.Packet.{long_data_bytes};
ghost use Rattle.my_params.specs.LongData.{ahead_of, long_data, long_value, pieces_of};

use crate::execute::is_long;
use my_frame::writing::{put_u8, put_u16, put_u32};
use my_frame::{Blob, FULL_LENGTH, Listed, NoMemory};
use my_value::Value;
use std::alloc::Global;

/// The most bytes of a value that one payload sends ahead: a chunk's without the statement's number and the parameter's
/// place (MySQL internals, "COM_STMT_SEND_LONG_DATA"). With the command's byte the payload of a whole piece is one byte
/// longer than a chunk.
pub const MOST_LONG_PIECE: usize = FULL_LENGTH - 6;

// The payload that sends a piece of the value at a place.
fn long_payload(alloc: Global, id: u32, place: u16, piece: &[u8]) -> Result<Blob, NoMemory>
    ensures { IfOk result (λ payload. payload ≡ long_data_bytes id place piece.now) }
{
    let mut payload = Vec::new(alloc);
    put_u8(&mut payload, 0x18)?;
    put_u32(&mut payload, id)?;
    put_u16(&mut payload, place)?;
    payload.extend_from_slice(piece)?;
    Ok(Blob::from(payload))
}

// Adds the payloads of a value's pieces.
fn add_pieces(
    alloc: Global,
    payloads: &mut Listed<Blob>,
    id: u32,
    place: u16,
    bytes: &[u8],
) -> Result<(), NoMemory>
    ensures { OnOk result (payloads.new ≡ payloads.old ++ map (long_data_bytes id place) (pieces_of bytes.now)) }
{
    let mut rest = bytes;
    'pieces: while rest.len() > MOST_LONG_PIECE {
        let (piece, more) = rest.split_at(MOST_LONG_PIECE);
        payloads.push(long_payload(alloc, id, place, piece)?)?;
        rest = more;
    }
    payloads.push(long_payload(alloc, id, place, rest)?)
}

// Adds the payloads of the value at a place.
fn add_value(
    alloc: Global,
    payloads: &mut Listed<Blob>,
    id: u32,
    place: u16,
    value: &Value,
) -> Result<(), NoMemory>
    ensures { OnOk result (payloads.new ≡ payloads.old ++ long_value id place value.now) }
{
    match value {
        Value::Bytes(bytes) => add_pieces(alloc, payloads, id, place, bytes.as_slice()),
        _ => Ok(()),
    }
}

// Adds the payloads of all values.
fn add_values(
    alloc: Global,
    payloads: &mut Listed<Blob>,
    id: u32,
    values: &[Value],
) -> Result<(), NoMemory>
    requires { length values.now ≤ 65535 }
    ensures { OnOk result (payloads.new ≡ payloads.old ++ long_data id values.now) }
{
    let mut place: u16 = 0;
    for value in values {
        add_value(alloc, payloads, id, place, value)?;
        place += 1;
    }
    Ok(())
}

/// The payloads that are sent before the one that executes the statement with these values: the values of bytes, in
/// pieces, where that one would be longer than a chunk, and else none. No value is copied but into its payloads.
pub fn ahead_of(alloc: Global, id: u32, values: &[Value]) -> Result<Listed<Blob>, NoMemory>
    requires { length values.now ≤ 65535 }
    ensures { IfOk result (λ payloads. payloads ≡ ahead_of id values.now) }
{
    let mut payloads = Listed::new(alloc);
    if is_long(values) {
        add_values(alloc, &mut payloads, id, values)?;
    }
    Ok(payloads)
}
