//! How a client's packets become payloads.

ghost use Rattle.std.specs.Prelude.{◌≡◌, ◌∷◌, ◌++◌, IfOk, OnOk};
ghost use Rattle.my_command.specs.Client.Packet.{PartsFit, client_bytes, long_data_bytes};
ghost use Rattle.my_frame.specs.Writing.{le_bytes};

use crate::client::ClientPacket;
use crate::replica::{put_dump, put_dump_gtid, put_slave};
use crate::statement::{put_bulk, put_execute};
use my_frame::NoMemory;
use my_frame::writing::{put_u8, put_u16, put_u32};
use my_handshake::{put_change_user, put_response};
use std::alloc::Global;

fn put_bytes(out: &mut Vec<u8>, bytes: &[u8]) -> Result<(), NoMemory>
    ensures { OnOk result (out.new.items ≡ out.old.items ++ bytes.now) }
{
    out.extend_from_slice(bytes)?;
    Ok(())
}

fn put_headed(out: &mut Vec<u8>, head: u8, bytes: &[u8]) -> Result<(), NoMemory>
    ensures { OnOk result (out.new.items ≡ out.old.items ++ head ∷ bytes.now) }
{
    out.push(head)?;
    out.extend_from_slice(bytes)?;
    Ok(())
}

fn put_close(out: &mut Vec<u8>, statement: u32) -> Result<(), NoMemory>
    ensures { OnOk result (out.new.items ≡ out.old.items ++ 0x19 ∷ le_bytes 4 statement) }
{
    out.push(0x19)?;
    put_u32(out, statement)
}

fn put_long_data(
    out: &mut Vec<u8>,
    statement: u32,
    parameter: u16,
    bytes: &[u8],
) -> Result<(), NoMemory>
    ensures { OnOk result (out.new.items ≡ out.old.items ++ long_data_bytes statement parameter bytes.now) }
{
    put_u8(out, 0x18)?;
    put_u32(out, statement)?;
    put_u16(out, parameter)?;
    out.extend_from_slice(bytes)?;
    Ok(())
}

fn put_packet(alloc: Global, out: &mut Vec<u8>, packet: &ClientPacket) -> Result<(), NoMemory>
    requires { PartsFit packet.now }
    ensures { OnOk result (out.new.items ≡ out.old.items ++ client_bytes packet.now) }
{
    match packet {
        ClientPacket::Response(response) => put_response(alloc, out, response),
        ClientPacket::SwitchAnswer(answer) => put_bytes(out, answer.as_slice()),
        ClientPacket::Quit => put_headed(out, 0x01, &[]),
        ClientPacket::Ping => put_headed(out, 0x0E, &[]),
        ClientPacket::ResetConnection => put_headed(out, 0x1F, &[]),
        ClientPacket::ChangeUser(change) => put_change_user(alloc, out, change),
        ClientPacket::Query(text) => put_headed(out, 0x03, text.as_slice()),
        ClientPacket::InfilePiece(piece) => put_bytes(out, piece.as_slice()),
        ClientPacket::Prepare(text) => put_headed(out, 0x16, text.as_slice()),
        ClientPacket::Execute(execute) => put_execute(alloc, out, execute),
        ClientPacket::LongData {
            statement,
            parameter,
            bytes,
        } => put_long_data(out, *statement, *parameter, bytes.as_slice()),
        ClientPacket::BulkExecute(bulk) => put_bulk(out, bulk),
        ClientPacket::CloseStatement(statement) => put_close(out, *statement),
        ClientPacket::RegisterSlave(slave) => put_slave(out, slave),
        ClientPacket::Dump(dump) => put_dump(out, dump),
        ClientPacket::DumpGtid(dump) => put_dump_gtid(alloc, out, dump),
    }
}

/// The payload of a client's packet. Each part that is written with one byte of length has at most
/// 255 bytes, each with four fewer than 2^32.
pub fn write_client(alloc: Global, packet: &ClientPacket) -> Result<Vec<u8>, NoMemory>
    requires { PartsFit packet.now }
    ensures { IfOk result (λ payload. payload.items ≡ client_bytes packet.now) }
{
    let mut payload = Vec::new(alloc);
    put_packet(alloc, &mut payload, packet)?;
    Ok(payload)
}
