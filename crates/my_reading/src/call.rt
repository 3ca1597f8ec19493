//! What a caller asks of a connection.

ghost use Rattle.std.specs.Prelude.{◌≡◌, IfOk, IfSome};

use my_command::ClientPacket;
use my_frame::{Blob, Listed, NoMemory};
use my_opts::ChangeUserOpts;
use my_opts_parts::TxOpts;
use my_params::Params;
use my_statements::Statement;
use std::alloc::Global;

/// A call, with what it carries.
#[derive(Drop, PartialEq, Eq)]
pub enum Call {
    /// The handshake, with which a connection begins, and the queries that set the connection up.
    Connect,
    /// A query of this text.
    Query(Blob),
    /// A statement of this text is prepared, unless it is cached. The text may have named parameters.
    Prepare(Blob),
    /// A statement is executed with these parameters.
    Execute(Statement, Params),
    /// A statement is executed once with each of these parameters, and each response is read whole.
    Batch(Statement, Listed<Params>),
    /// The statement of this id is closed.
    CloseStmt(u32),
    /// The next row of the set that is read, its end, or that nothing is left.
    NextRow,
    /// Reads what is left and passes over it.
    DropResult,
    /// A stream takes the set that is read, or the next one, or nothing is left.
    TakeSet,
    /// Passes over the rest of the set that is read, and its end.
    SkipTaken,
    Ping,
    /// The server's session is reset, where the server can, and the queries that set a connection up are sent again.
    Reset,
    /// The connection gets another user: the options are changed, the server is told, and the queries that set a connection up
    /// are sent again.
    ChangeUser(ChangeUserOpts),
    /// A transaction begins.
    Begin(TxOpts),
    /// The transaction is committed. Where the server refuses, it is rolled back, and the first refusal is the answer.
    Commit,
    /// The transaction is rolled back.
    Rollback,
    /// The transaction is given up, and rolled back before the next command. Nothing is sent.
    ForgetTransaction,
    /// What is left of the last response is read, and a server's error in it dropped; a transaction is rolled back.
    CleanForPool,
    /// The server's session is reset for its next user, by a change to the same user where the server can't reset it.
    ResetForPool,
    Quit,
}

/// Which call it is, without what it carries.
#[derive(Clone, Copy, PartialEq, Eq)]
pub enum CallKind {
    Connect,
    Query,
    Prepare,
    Execute,
    Batch,
    CloseStmt,
    NextRow,
    DropResult,
    TakeSet,
    SkipTaken,
    Ping,
    Reset,
    ChangeUser,
    Begin,
    Commit,
    Rollback,
    ForgetTransaction,
    CleanForPool,
    ResetForPool,
    Quit,
}

impl Call {
    ghost use Rattle.my_command.specs.Client.Packet.{PartsFit};
    ghost use Rattle.my_reading.specs.Calls.{kind_of};
    ghost use Rattle.my_reading.specs.Commands.{simple_packet};

    /// Which call it is.
    pub fn kind(&self) -> CallKind
        ensures { result ≡ kind_of self.now }
    {
        match self {
            Call::Connect => CallKind::Connect,
            Call::Query(_) => CallKind::Query,
            Call::Prepare(_) => CallKind::Prepare,
            Call::Execute(_, _) => CallKind::Execute,
            Call::Batch(_, _) => CallKind::Batch,
            Call::CloseStmt(_) => CallKind::CloseStmt,
            Call::NextRow => CallKind::NextRow,
            Call::DropResult => CallKind::DropResult,
            Call::TakeSet => CallKind::TakeSet,
            Call::SkipTaken => CallKind::SkipTaken,
            Call::Ping => CallKind::Ping,
            Call::Reset => CallKind::Reset,
            Call::ChangeUser(_) => CallKind::ChangeUser,
            Call::Begin(_) => CallKind::Begin,
            Call::Commit => CallKind::Commit,
            Call::Rollback => CallKind::Rollback,
            Call::ForgetTransaction => CallKind::ForgetTransaction,
            Call::CleanForPool => CallKind::CleanForPool,
            Call::ResetForPool => CallKind::ResetForPool,
            Call::Quit => CallKind::Quit,
        }
    }

    /// The packet of a call that sends one which one OK or ERR answers.
    pub fn simple_packet(&self) -> Option<ClientPacket>
        ensures packet { result ≡ simple_packet self.now }
        ensures fits { IfSome result PartsFit }
    {
        match self {
            Call::Ping => Some(ClientPacket::Ping),
            Call::Reset => Some(ClientPacket::ResetConnection),
            _ => None,
        }
    }

    /// A second value of the same call.
    pub fn copy(&self, alloc: Global) -> Result<Call, NoMemory>
        ensures { IfOk result (λ copy. copy ≡ self.now) }
    {
        match self {
            Call::Connect => Ok(Call::Connect),
            Call::Query(text) => Ok(Call::Query(text.copy(alloc)?)),
            Call::Prepare(text) => Ok(Call::Prepare(text.copy(alloc)?)),
            Call::Execute(statement, params) => {
                Ok(Call::Execute(statement.copy(alloc)?, params.copy(alloc)?))
            }
            Call::Batch(statement, lists) => {
                Ok(Call::Batch(statement.copy(alloc)?, lists.copy(alloc)?))
            }
            Call::CloseStmt(id) => Ok(Call::CloseStmt(*id)),
            Call::NextRow => Ok(Call::NextRow),
            Call::DropResult => Ok(Call::DropResult),
            Call::TakeSet => Ok(Call::TakeSet),
            Call::SkipTaken => Ok(Call::SkipTaken),
            Call::Ping => Ok(Call::Ping),
            Call::Reset => Ok(Call::Reset),
            Call::ChangeUser(change) => Ok(Call::ChangeUser(change.copy(alloc)?)),
            Call::Begin(opts) => Ok(Call::Begin(*opts)),
            Call::Commit => Ok(Call::Commit),
            Call::Rollback => Ok(Call::Rollback),
            Call::ForgetTransaction => Ok(Call::ForgetTransaction),
            Call::CleanForPool => Ok(Call::CleanForPool),
            Call::ResetForPool => Ok(Call::ResetForPool),
            Call::Quit => Ok(Call::Quit),
        }
    }
}
