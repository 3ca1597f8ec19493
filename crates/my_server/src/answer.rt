//! The payloads that a server sends for an answer of its script.

ghost use Rattle.std.specs.Prelude.{◌≡◌, ℕ, List, ◌<◌, ◌≤◌, ◌^◌, ◌∷◌, [], ◌++◌, IfOk, OnOk, length, map, IsTrue, true};
ghost use Rattle.my_reply.specs.Server.{server_bytes};
ghost use Rattle.my_server.specs.Answer.{AreFew, CanSend, close_payloads, column_payload, end_payload, eof_payload, head_payloads, ok_of, reply_payloads, row_payload, set_payloads, set_status, sets_payloads};

use crate::script::{ReplyAnswer, ServerSet};
use my_flags::StatusFlags;
use my_frame::writing::{put_u8, put_u16};
use my_frame::{Blob, Copied, Listed, NoMemory};
use my_reply::{Column, ErrPacket, OkPacket, ServerPacket, write_server};
use std::alloc::Global;

/// The status of a session that is in no transaction, with nothing more to come.
pub const DONE: StatusFlags = StatusFlags(StatusFlags::SERVER_STATUS_AUTOCOMMIT.0);

/// The same with another set to come.
pub const FURTHER: StatusFlags = StatusFlags(
    StatusFlags::SERVER_STATUS_AUTOCOMMIT.0 | StatusFlags::SERVER_MORE_RESULTS_EXISTS.0,
);

/// An OK with this status and nothing else to say.
pub fn ok_of(alloc: Global, status: StatusFlags) -> OkPacket
    ensures { result ≡ ok_of status }
{
    OkPacket {
        affected: 0,
        insert: 0,
        status,
        warnings: 0,
        info: Blob::new(alloc),
    }
}

fn payload_of(alloc: Global, packet: &ServerPacket) -> Result<Blob, NoMemory>
    ensures { IfOk result (λ payload. payload ≡ server_bytes packet.now) }
{
    Ok(Blob::from(write_server(alloc, packet)?))
}

/// The payload of a packet. It alone drops packets.
pub fn written(alloc: Global, packet: ServerPacket) -> Result<Blob, NoMemory>
    ensures { IfOk result (λ payload. payload ≡ server_bytes packet) }
{
    payload_of(alloc, &packet)
}

// One payload more.
fn add(payloads: &mut Listed<Blob>, payload: Result<Blob, NoMemory>) -> Result<(), NoMemory>
    ensures { (bytes : List ℕ) → IfOk payload (λ p. p ≡ bytes)
        → OnOk result (payloads.new ≡ payloads.old ++ bytes ∷ []) }
{
    payloads.push(payload?)
}

fn eof_payload(alloc: Global, status: StatusFlags) -> Result<Blob, NoMemory>
    ensures { IfOk result (λ payload. payload ≡ eof_payload status) }
{
    let mut payload = Vec::new(alloc);
    put_u8(&mut payload, 0xFE)?;
    put_u16(&mut payload, 0)?;
    put_u16(&mut payload, status.0)?;
    Ok(Blob::from(payload))
}

// The end of a set: an OK where EOF packets are deprecated, else an EOF.
fn end_payload(alloc: Global, deprecates: bool, status: StatusFlags) -> Result<Blob, NoMemory>
    ensures { IfOk result (λ payload. payload ≡ end_payload deprecates status) }
{
    if deprecates {
        written(alloc, ServerPacket::End(ok_of(alloc, status)))
    } else {
        eof_payload(alloc, status)
    }
}

fn column_payload(alloc: Global, name: &Blob) -> Result<Blob, NoMemory>
    ensures { IfOk result (λ payload. payload ≡ column_payload name.now) }
{
    let name = name.copy(alloc)?;
    let column = Column {
        schema: Blob::new(alloc),
        table: Blob::new(alloc),
        org_table: Blob::new(alloc),
        name,
        org_name: Blob::new(alloc),
        charset: 45,
        length: 1_024,
        column_type: 253,
        flags: 0,
        decimals: 0,
    };
    written(alloc, ServerPacket::Column(column))
}

fn add_columns(alloc: Global, payloads: &mut Listed<Blob>, names: &[Blob]) -> Result<(), NoMemory>
    ensures { OnOk result (payloads.new ≡ payloads.old ++ map column_payload names.now) }
{
    for name in names {
        add(payloads, column_payload(alloc, name))?;
    }
    Ok(())
}

// The EOF after the columns, where EOF packets aren't deprecated.
fn add_close(
    alloc: Global,
    payloads: &mut Listed<Blob>,
    deprecates: bool,
    status: StatusFlags,
) -> Result<(), NoMemory>
    ensures { OnOk result (payloads.new ≡ payloads.old ++ close_payloads deprecates status) }
{
    if deprecates {
        return Ok(());
    }
    add(payloads, eof_payload(alloc, status))
}

fn add_row(
    alloc: Global,
    payloads: &mut Listed<Blob>,
    row: &Listed<Option<Blob>>,
) -> Result<(), NoMemory>
    ensures { OnOk result (payloads.new ≡ payloads.old ++ row_payload row.now ∷ []) }
{
    let row = row.copy(alloc)?;
    add(payloads, written(alloc, ServerPacket::TextRow(row)))
}

fn add_rows(
    alloc: Global,
    payloads: &mut Listed<Blob>,
    rows: &[Listed<Option<Blob>>],
) -> Result<(), NoMemory>
    ensures { OnOk result (payloads.new ≡ payloads.old ++ map row_payload rows.now) }
{
    for row in rows {
        add_row(alloc, payloads, row)?;
    }
    Ok(())
}

// The payloads of a set before its rows.
fn add_head(
    alloc: Global,
    payloads: &mut Listed<Blob>,
    deprecates: bool,
    status: StatusFlags,
    names: &[Blob],
) -> Result<(), NoMemory>
    requires { length names.now < 2 ^ 16 }
    ensures { OnOk result (payloads.new ≡ payloads.old ++ head_payloads deprecates status names.now) }
{
    add(
        payloads,
        written(alloc, ServerPacket::Count(names.len() as u16)),
    )?;
    add_columns(alloc, payloads, names)?;
    add_close(alloc, payloads, deprecates, status)
}

fn add_set(
    alloc: Global,
    payloads: &mut Listed<Blob>,
    deprecates: bool,
    status: StatusFlags,
    set: &ServerSet,
) -> Result<(), NoMemory>
    requires { length set.now.names < 2 ^ 16 }
    ensures { OnOk result (payloads.new ≡ payloads.old ++ set_payloads deprecates status set.now) }
{
    add_head(alloc, payloads, deprecates, status, set.names.as_slice())?;
    add_rows(alloc, payloads, set.rows.as_slice())?;
    add(payloads, end_payload(alloc, deprecates, status))
}

fn set_status(left: usize) -> StatusFlags
    ensures { result ≡ set_status left }
{
    if left == 0 { DONE } else { FURTHER }
}

fn add_sets(
    alloc: Global,
    payloads: &mut Listed<Blob>,
    deprecates: bool,
    sets: &[ServerSet],
) -> Result<(), NoMemory>
    requires { AreFew sets.now }
    ensures { OnOk result (payloads.new ≡ payloads.old ++ sets_payloads deprecates sets.now) }
{
    for (index, set) in sets.iter().enumerate() {
        let status = set_status(sets.len() - 1 - index);
        add_set(alloc, payloads, deprecates, status, set)?;
    }
    Ok(())
}

fn add_answer(
    alloc: Global,
    payloads: &mut Listed<Blob>,
    deprecates: bool,
    answer: &ReplyAnswer,
) -> Result<(), NoMemory>
    requires { CanSend answer.now }
    ensures { OnOk result (payloads.new ≡ payloads.old ++ reply_payloads deprecates answer.now) }
{
    match answer {
        ReplyAnswer::Fine(ok) => add(
            payloads,
            written(alloc, ServerPacket::Fine(ok.copy(alloc)?)),
        ),
        ReplyAnswer::Refuse(err) => add(
            payloads,
            written(alloc, ServerPacket::Refuse(err.copy(alloc)?)),
        ),
        ReplyAnswer::Sets(sets) => add_sets(alloc, payloads, deprecates, sets.as_slice()),
    }
}

/// The payloads of an answer, to a client with which EOF packets are deprecated or are not.
pub fn reply_payloads(
    alloc: Global,
    deprecates: bool,
    answer: &ReplyAnswer,
) -> Result<Listed<Blob>, NoMemory>
    requires { CanSend answer.now }
    ensures { IfOk result (λ payloads. payloads ≡ reply_payloads deprecates answer.now) }
{
    let mut payloads = Listed::new(alloc);
    add_answer(alloc, &mut payloads, deprecates, answer)?;
    Ok(payloads)
}
