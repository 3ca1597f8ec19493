//! What a client sends.

use crate::replica::{Dump, DumpGtid, RegisterSlave};
use crate::statement::{BulkExecute, Execute};
use my_frame::Blob;
use my_handshake::{ChangeUser, HandshakeResponse};

/// A packet of the client.
#[derive(Drop)]
pub enum ClientPacket {
    /// The response to the server's greeting.
    Response(HandshakeResponse),
    /// The response to a switch of the authentication plugin.
    SwitchAnswer(Blob),
    /// Ends the connection.
    Quit,
    Ping,
    /// Resets the connection without a new login.
    ResetConnection,
    /// Logs in again on the same connection.
    ChangeUser(ChangeUser),
    /// A query's text.
    Query(Blob),
    /// A part of a file that the server asked for; an empty one ends it.
    InfilePiece(Blob),
    /// The text of a statement to prepare.
    Prepare(Blob),
    Execute(Execute),
    /// A part of one parameter's value, before `Execute`.
    LongData {
        statement: u32,
        parameter: u16,
        bytes: Blob,
    },
    /// Executes a statement of a MariaDB once for each row.
    BulkExecute(BulkExecute),
    /// Closes a statement.
    CloseStatement(u32),
    RegisterSlave(RegisterSlave),
    /// Asks for a binary log from a position in a file on.
    Dump(Dump),
    /// Asks for a binary log without the transactions that the client has.
    DumpGtid(DumpGtid),
}
