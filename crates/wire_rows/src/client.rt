//! What a client sends.

ghost use Rattle.std.specs.Prelude.{◌≡◌, ◌<◌, ◌^◌, IfOk, length};
ghost use Rattle.my_command.specs.Client.Packet.{PartsFit};
ghost use Rattle.my_command.specs.Client.Replica.{gtid_block};

use crate::notes::{Notes, four, number, pair};
use crate::server::cells;
use my_command::laws::gtid_block_has_this_length;
use my_command::replica::{Dump, DumpGtid, RegisterSlave, Sid};
use my_command::statement::{BulkExecute, Execute, Parameter, ParameterType};
use my_command::{ClientPacket, write_client};
use my_flags::{CapabilityFlags, MariadbCapabilities};
use my_frame::{Blob, Listed, NoMemory};
use my_handshake::{Attributes, ChangeUser, HandshakeResponse};
use std::alloc::Global;

fn number_32(word: &str) -> u32 {
    word.parse::<u32>().unwrap_or(u32::MAX)
}

fn number_16(word: &str) -> u16 {
    word.parse::<u16>().unwrap_or(u16::MAX)
}

fn number_8(word: &str) -> u8 {
    word.parse::<u8>().unwrap_or(u8::MAX)
}

// The bytes that a word spells; none where it spells none.
fn spelled(alloc: Global, word: &str) -> Blob {
    match hex::decode(alloc, word.trim_start_matches('-')) {
        Ok(bytes) => Blob::from(bytes),
        Err(_) => Blob::new(alloc),
    }
}

// The same where they are few.
fn short(alloc: Global, word: &str) -> Blob
    ensures { length result < 256 }
{
    let bytes = spelled(alloc, word);
    if bytes.len() < 256 {
        bytes
    } else {
        Blob::new(alloc)
    }
}

fn text(alloc: Global, text: &[u8]) -> Blob {
    match Blob::from_slice(alloc, text) {
        Ok(bytes) => bytes,
        Err(_) => Blob::new(alloc),
    }
}

fn put(attributes: &mut Attributes, alloc: Global, key: &str, value: &str) {
    let _ = attributes.put(text(alloc, key.as_bytes()), text(alloc, value.as_bytes()));
}

// A copy of two attributes, `KEY:VALUE:KEY:VALUE`, which are put in this order.
fn attributes(alloc: Global, pairs: &str) -> Attributes {
    let [key, value, other_key, other_value] = four(pairs, ':');
    let mut attributes = Attributes::new(alloc);
    put(&mut attributes, alloc, key, value);
    put(&mut attributes, alloc, other_key, other_value);
    match attributes.copy(alloc) {
        Ok(copy) => copy,
        Err(_) => Attributes::new(alloc),
    }
}

fn login(alloc: Global, capabilities: &str, extended: &str, scramble: &str) -> ClientPacket
    ensures { PartsFit result }
{
    ClientPacket::Response(HandshakeResponse {
        capabilities: CapabilityFlags(number_32(capabilities)),
        max_packet: 4_194_304,
        charset: 45,
        extended: MariadbCapabilities(number_32(extended)),
        user: text(alloc, b"root\0more"),
        scramble: short(alloc, scramble),
        database: text(alloc, b"shop"),
        plugin: text(alloc, b"mysql_native_password"),
        attributes: attributes(alloc, "pid:7:osx:x"),
    })
}

fn change_user(alloc: Global, charset: &str, scramble: &str, pairs: &str) -> ClientPacket
    ensures { PartsFit result }
{
    ClientPacket::ChangeUser(ChangeUser {
        user: text(alloc, b"root\0more"),
        scramble: short(alloc, scramble),
        database: text(alloc, b"db"),
        charset: number_16(charset),
        plugin: text(alloc, b"native"),
        attributes: Some(attributes(alloc, pairs)),
    })
}

// `KIND:FLAG:VALUE`, or `KIND:FLAG:null`.
fn parameter(alloc: Global, word: &str) -> Parameter {
    let [kind, flag, digits, _] = four(word, ':');
    let form = ParameterType {
        kind: number_8(kind),
        flag: number_8(flag),
    };
    let value = match digits {
        "null" => None,
        _ => Some(spelled(alloc, digits)),
    };
    Parameter { form, value }
}

fn execute(alloc: Global, statement: &str, words: &str) -> ClientPacket
    ensures { PartsFit result }
{
    let mut parameters = Listed::new(alloc);
    for word in words.split(',') {
        if !word.is_empty() {
            let _ = parameters.push(parameter(alloc, word));
        }
    }
    ClientPacket::Execute(Execute {
        statement: number_32(statement),
        parameters,
    })
}

// Rows of numbers of eight bytes, parted by `/`.
fn bulk(alloc: Global, statement: &str, words: &str) -> ClientPacket
    ensures { PartsFit result }
{
    let mut types = Listed::new(alloc);
    let _ = types.push(ParameterType { kind: 8, flag: 0 });
    let mut rows = Listed::new(alloc);
    for word in words.split('/') {
        let _ = rows.push(cells(alloc, word));
    }
    ClientPacket::BulkExecute(BulkExecute {
        statement: number_32(statement),
        types,
        rows,
    })
}

fn register(alloc: Global, host: &str, password: &str, port: &str) -> ClientPacket
    ensures { PartsFit result }
{
    ClientPacket::RegisterSlave(RegisterSlave {
        server: 9,
        host: short(alloc, host),
        user: Blob::new(alloc),
        password: short(alloc, password),
        port: number_16(port),
    })
}

fn sid(alloc: Global) -> Result<Sid, NoMemory>
    ensures uuid { IfOk result (λ s. length s.uuid ≡ 16) }
    ensures intervals { IfOk result (λ s. length s.intervals ≡ 1) }
{
    let mut intervals = Vec::new(alloc);
    intervals.push((1, 6))?;
    Ok(Sid {
        uuid: *b"0123456789abcdef",
        intervals,
    })
}

fn sids(alloc: Global) -> Result<Listed<Sid>, NoMemory>
    ensures { IfOk result (λ v. length (gtid_block v) < 2 ^ 32) }
{
    gtid_block_has_this_length();
    let mut all = Listed::new(alloc);
    all.push(sid(alloc)?)?;
    Ok(all)
}

fn dump_gtid(alloc: Global) -> ClientPacket
    ensures { PartsFit result }
{
    match sids(alloc) {
        Ok(sids) => ClientPacket::DumpGtid(DumpGtid {
            position: 4,
            non_blocking: true,
            server: 9,
            file: short(alloc, "662e31"),
            sids,
        }),
        Err(_) => ClientPacket::Quit,
    }
}

// The packet of this kind, with up to three words of its own.
fn packet_of(alloc: Global, kind: &str, first: &str, second: &str, third: &str) -> ClientPacket
    ensures { PartsFit result }
{
    match kind {
        "login" => login(alloc, first, second, third),
        "change_user" => change_user(alloc, first, second, third),
        "ping" => ClientPacket::Ping,
        "reset" => ClientPacket::ResetConnection,
        "query" => ClientPacket::Query(spelled(alloc, first)),
        "prepare" => ClientPacket::Prepare(spelled(alloc, first)),
        "piece" => ClientPacket::InfilePiece(spelled(alloc, first)),
        "answer" => ClientPacket::SwitchAnswer(spelled(alloc, first)),
        "execute" => execute(alloc, first, second),
        "long_data" => ClientPacket::LongData {
            statement: number_32(first),
            parameter: number_16(second),
            bytes: spelled(alloc, third),
        },
        "bulk" => bulk(alloc, first, second),
        "close" => ClientPacket::CloseStatement(number_32(first)),
        "register" => register(alloc, first, second, third),
        "dump" => ClientPacket::Dump(Dump {
            position: number(first),
            non_blocking: second == "ends",
            server: 9,
            file: spelled(alloc, third),
        }),
        "dump_gtid" => dump_gtid(alloc),
        _ => ClientPacket::Quit,
    }
}

/// `sent PACKET WORD.. = BYTES`: a packet as it is written.
pub fn sent(notes: &mut Notes, given: &str) {
    let (kind, words) = pair(given);
    let [first, second, third, _] = four(words, ' ');
    let packet = packet_of(notes.alloc, kind, first, second, third);
    let written = write_client(notes.alloc, &packet);
    drop(packet);
    notes.payload(written);
}
