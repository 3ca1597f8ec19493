//! What a scripted server says.

use my_frame::{Blob, Listed, NoMemory};
use my_reply::{ErrPacket, OkPacket};
use thiserror::Error;

/// A server's identity, the one user that it admits, and its replies.
#[derive(Drop)]
pub struct ServerScript {
    /// The server's version as text, of at most 255 bytes without a zero.
    pub version: Blob,
    /// The connection id.
    pub id: u32,
    /// The random bytes of the greeting.
    pub nonce: [u8; 20],
    pub user: Blob,
    /// SHA1(SHA1(password)) of the user's password, none where the user has no password.
    pub stored: Option<[u8; 20]>,
    /// The first reply with a query's text answers it.
    pub replies: Listed<Reply>,
}

/// The answer to the queries of one text.
#[derive(Drop)]
pub struct Reply {
    pub text: Blob,
    pub answer: ReplyAnswer,
}

/// How a query is answered.
#[derive(Drop)]
pub enum ReplyAnswer {
    /// An OK, whose status is SERVER_STATUS_AUTOCOMMIT alone.
    Fine(OkPacket),
    /// An ERR.
    Refuse(ErrPacket),
    /// Sets of rows, at least one.
    Sets(Listed<ServerSet>),
}

/// A set of rows.
#[derive(Drop)]
pub struct ServerSet {
    /// The names of the columns, from 1 to 65,535.
    pub names: Listed<Blob>,
    /// The cells of each row, one for each column; `None` is NULL.
    pub rows: Listed<Listed<Option<Blob>>>,
}

/// Why a script can't be served.
#[derive(Clone, Copy, Debug, PartialEq, Eq, Error)]
pub enum ScriptFault {
    #[error("the version has a zero byte or more than 255 bytes")]
    BadVersion,
    /// The index of the first reply that can't be sent.
    #[error("reply {0} can't be sent")]
    BadReply(u64),
    #[error("out of memory")]
    NoMemory,
}

impl From<NoMemory> for ScriptFault {
    ghost use Rattle.std.specs.Prelude.{◌≡◌};
    ghost use Rattle.my_server.specs.declared.script.ScriptFault.TheVariants as faults;

    ghost from_gives = { λ _ e. e ≡ faults.NoMemory };

    fn from(_e: NoMemory) -> ScriptFault {
        ScriptFault::NoMemory
    }
}
