//! What a server sends: its packets become payloads.

ghost use Rattle.std.specs.Prelude.{◌≡◌, ◌++◌, IfOk, OnOk, drop, length, take};
ghost use Rattle.std.specs.List.{flat_map};
ghost use Rattle.my_frame.specs.Writing.{le_bytes, text0_bytes};
ghost use Rattle.my_reply.specs.Server.{cell_bytes, column_bytes, err_bytes, fitted, form_bytes, greeting_bytes, info_bytes, names_bytes, ok_bytes, server_bytes, settings_bytes};

use crate::column::Column;
use crate::err::ErrPacket;
use crate::ok::OkPacket;
use my_frame::writing::{put_len, put_text, put_text0, put_u8, put_u16, put_u32};
use my_frame::{Blob, Listed, NoMemory};
use my_handshake::Greeting;
use std::alloc::Global;

/// A packet of the server.
#[derive(Drop)]
pub enum ServerPacket {
    /// Sent first.
    Greeting(Greeting),
    /// A command succeeded.
    Fine(OkPacket),
    /// A set of rows ended.
    End(OkPacket),
    /// A command failed.
    Refuse(ErrPacket),
    /// A set of rows begins: the number of its columns.
    Count(u16),
    Column(Column),
    /// The cells of a row as text; `None` is NULL.
    TextRow(Listed<Option<Blob>>),
}

// A nonce of 20 bytes: cut, or filled with zeros.
#[tactic(auto, unfolding(crate::specs::Server::fitted))]
fn fitted(alloc: Global, nonce: &[u8]) -> Result<Vec<u8>, NoMemory>
    ensures bytes { IfOk result (λ v. v.items ≡ fitted nonce.now) }
    ensures len { IfOk result (λ v. length v.items ≡ 20) }
{
    let mut bytes = Vec::from_slice(alloc, nonce)?;
    bytes.extend_from_slice(&[0; 20])?;
    bytes.truncate(20);
    Ok(bytes)
}

fn put_settings(out: &mut Vec<u8>, greeting: &Greeting) -> Result<(), NoMemory>
    ensures { OnOk result (out.new.items ≡ out.old.items ++ settings_bytes greeting.now) }
{
    put_u16(out, (greeting.capabilities.0 % 65_536) as u16)?;
    put_u8(out, 45)?;
    put_u16(out, greeting.status.0)?;
    put_u16(out, (greeting.capabilities.0 / 65_536) as u16)?;
    put_u8(out, 21)?;
    out.extend_from_slice(&[0; 6])?;
    put_u32(out, greeting.extended.0)
}

// A greeting with this nonce, which has its 20 bytes.
fn put_with_nonce(out: &mut Vec<u8>, greeting: &Greeting, nonce: &[u8]) -> Result<(), NoMemory>
    requires { length nonce.now ≡ 20 }
    ensures { OnOk result (out.new.items ≡ out.old.items
        ++ (le_bytes 1 10 ++ text0_bytes greeting.now.version ++ le_bytes 4 greeting.now.id
        ++ take 8 nonce.now ++ le_bytes 1 0 ++ settings_bytes greeting.now
        ++ drop 8 nonce.now ++ le_bytes 1 0 ++ text0_bytes greeting.now.plugin)) }
{
    let (first, second) = nonce.split_at(8);
    put_u8(out, 10)?;
    put_text0(out, greeting.version.as_slice())?;
    put_u32(out, greeting.id)?;
    out.extend_from_slice(first)?;
    put_u8(out, 0)?;
    put_settings(out, greeting)?;
    out.extend_from_slice(second)?;
    put_u8(out, 0)?;
    put_text0(out, greeting.plugin.as_slice())
}

fn put_greeting(alloc: Global, out: &mut Vec<u8>, greeting: &Greeting) -> Result<(), NoMemory>
    ensures { OnOk result (out.new.items ≡ out.old.items ++ greeting_bytes greeting.now) }
{
    let nonce = fitted(alloc, greeting.nonce.as_slice())?;
    let done = put_with_nonce(out, greeting, nonce.as_slice());
    drop(nonce);
    done
}

fn put_info(out: &mut Vec<u8>, info: &[u8]) -> Result<(), NoMemory>
    ensures { OnOk result (out.new.items ≡ out.old.items ++ info_bytes info.now) }
{
    if info.is_empty() {
        return Ok(());
    }
    put_text(out, info)
}

fn put_ok(out: &mut Vec<u8>, head: u8, ok: &OkPacket) -> Result<(), NoMemory>
    ensures { OnOk result (out.new.items ≡ out.old.items ++ ok_bytes head ok.now) }
{
    put_u8(out, head)?;
    put_len(out, ok.affected)?;
    put_len(out, ok.insert)?;
    put_u16(out, ok.status.0)?;
    put_u16(out, ok.warnings)?;
    put_info(out, ok.info.as_slice())
}

fn put_err(out: &mut Vec<u8>, err: &ErrPacket) -> Result<(), NoMemory>
    ensures { OnOk result (out.new.items ≡ out.old.items ++ err_bytes err.now) }
{
    put_u8(out, 0xFF)?;
    put_u16(out, err.code)?;
    put_u8(out, b'#')?;
    out.extend_from_slice(&err.state)?;
    out.extend_from_slice(err.message.as_str().as_bytes())?;
    Ok(())
}

fn put_names(out: &mut Vec<u8>, column: &Column) -> Result<(), NoMemory>
    ensures { OnOk result (out.new.items ≡ out.old.items ++ names_bytes column.now) }
{
    put_text(out, b"def")?;
    put_text(out, column.schema.as_slice())?;
    put_text(out, column.table.as_slice())?;
    put_text(out, column.org_table.as_slice())?;
    put_text(out, column.name.as_slice())?;
    put_text(out, column.org_name.as_slice())
}

fn put_form(out: &mut Vec<u8>, column: &Column) -> Result<(), NoMemory>
    ensures { OnOk result (out.new.items ≡ out.old.items ++ form_bytes column.now) }
{
    put_len(out, 0x0C)?;
    put_u16(out, column.charset)?;
    put_u32(out, column.length)?;
    put_u8(out, column.column_type)?;
    put_u16(out, column.flags)?;
    put_u8(out, column.decimals)?;
    put_u16(out, 0)
}

fn put_column(out: &mut Vec<u8>, column: &Column) -> Result<(), NoMemory>
    ensures { OnOk result (out.new.items ≡ out.old.items ++ column_bytes column.now) }
{
    put_names(out, column)?;
    put_form(out, column)
}

fn put_cell(out: &mut Vec<u8>, cell: &Option<Blob>) -> Result<(), NoMemory>
    ensures { OnOk result (out.new.items ≡ out.old.items ++ cell_bytes cell.now) }
{
    match cell {
        None => put_u8(out, 0xFB),
        Some(text) => put_text(out, text.as_slice()),
    }
}

fn put_row(out: &mut Vec<u8>, cells: &[Option<Blob>]) -> Result<(), NoMemory>
    ensures { OnOk result (out.new.items ≡ out.old.items ++ flat_map cell_bytes cells.now) }
{
    for cell in cells {
        put_cell(out, cell)?;
    }
    Ok(())
}

fn put_packet(alloc: Global, out: &mut Vec<u8>, packet: &ServerPacket) -> Result<(), NoMemory>
    ensures { OnOk result (out.new.items ≡ out.old.items ++ server_bytes packet.now) }
{
    match packet {
        ServerPacket::Greeting(greeting) => put_greeting(alloc, out, greeting),
        ServerPacket::Fine(ok) => put_ok(out, 0x00, ok),
        ServerPacket::End(ok) => put_ok(out, 0xFE, ok),
        ServerPacket::Refuse(err) => put_err(out, err),
        ServerPacket::Count(count) => put_len(out, u64::from(*count)),
        ServerPacket::Column(column) => put_column(out, column),
        ServerPacket::TextRow(cells) => put_row(out, cells.as_slice()),
    }
}

/// The payload of a server's packet.
pub fn write_server(alloc: Global, packet: &ServerPacket) -> Result<Vec<u8>, NoMemory>
    ensures { IfOk result (λ payload. payload.items ≡ server_bytes packet.now) }
{
    let mut payload = Vec::new(alloc);
    put_packet(alloc, &mut payload, packet)?;
    Ok(payload)
}
