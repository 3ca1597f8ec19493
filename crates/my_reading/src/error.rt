//! Why a call of a session ends without its answer.

ghost use Rattle.std.specs.Prelude.{◌≡◌, IfOk};

use my_frame::{Blob, CodecFault, NoMemory, Text};
use my_opts_parts::UrlError;
use my_params::ParamsError;
use std::alloc::Global;
use std::fmt;
use thiserror::Error as ThisError;

/// The driver's own refusals.
#[derive(Debug, Drop, PartialEq, Eq)]
pub enum DriverError {
    ConnectionClosed,
    /// A text to prepare has both named parameters and `?`.
    MixedParams,
    /// A transaction was to begin while there is one.
    NestedTransaction,
    /// The pool is closed, and gives no connection any more.
    PoolDisconnected,
    /// A request would have to wait for a connection of the pool, and `waiting` others do, as many as may.
    PoolFull { waiting: u64, limit: u64 },
    /// The server is too old to be told whether a transaction only reads: it is below 5.6.5.
    ReadOnlyTransNotSupported,
    /// The parameters don't fit the statement's names, or one of them can't be sent.
    Params(ParamsError),
    StmtParamsMismatch { required: u16, supplied: u64 },
    /// More values than an execution can have: 65,535.
    StmtParamsNumberExceedsLimit { supplied: u64 },
    TooLong,
    /// This payload of the server doesn't belong where the client shows who it is.
    UnexpectedPacket { payload: Blob },
    /// The server asks for a plugin of this name, which the client doesn't have.
    UnknownAuthPlugin { name: Blob },
    /// The server asks for the password as it is, by `mysql_clear_password`, and the options don't allow it.
    CleartextPluginDisabled,
    /// The server asks for `mysql_old_password`, and the options refuse it.
    MysqlOldPasswordDisabled,
    /// The server asks for the password as it is, by `caching_sha2_password`, over a link that others may read.
    FullAuthRefused,
    CantParseServerVersion,
    PacketOutOfOrder,
    PacketTooLarge,
    BadCompressedPacketHeader,
    NoKeyFound,
    NamedPipesDisabled,
    InvalidParsecSalt,
    NoClientSslFlagFromServer,
}

impl DriverError {
    // What it says, up to its values where it has some.
    fn text(&self) -> &'static str {
        match self {
            DriverError::ConnectionClosed => "connection is closed",
            DriverError::MixedParams => "named and positional parameters in one text",
            DriverError::NestedTransaction => "nested transaction",
            DriverError::PoolDisconnected => "Pool was disconnected.",
            DriverError::PoolFull { .. } => "Too many requests wait for a connection: ",
            DriverError::ReadOnlyTransNotSupported => "the server has no read-only transactions",
            DriverError::Params(_) => "",
            DriverError::StmtParamsMismatch { .. } => "statement takes ",
            DriverError::StmtParamsNumberExceedsLimit { .. } => {
                "too many parameters for a statement: "
            }
            DriverError::TooLong => "the call took too many bytes without an answer",
            DriverError::UnexpectedPacket { .. } => "unexpected packet",
            DriverError::UnknownAuthPlugin { .. } => "unknown authentication plugin",
            DriverError::CleartextPluginDisabled => "mysql_clear_password must be enabled",
            DriverError::MysqlOldPasswordDisabled => "mysql_old_password is disabled",
            DriverError::FullAuthRefused => "the password isn't sent in clear over this link",
            DriverError::CantParseServerVersion => "can't parse the server's version",
            DriverError::PacketOutOfOrder => "packet out of order",
            DriverError::PacketTooLarge => "packet too large",
            DriverError::BadCompressedPacketHeader => "bad header of a compressed packet",
            DriverError::NoKeyFound => "no key found",
            DriverError::NamedPipesDisabled => "named pipes are disabled",
            DriverError::InvalidParsecSalt => "invalid salt for parsec authentication",
            DriverError::NoClientSslFlagFromServer => "no flag for SSL from the server",
        }
    }

    /// A second value of the same refusal.
    pub fn copy(&self, alloc: Global) -> Result<DriverError, NoMemory>
        ensures { IfOk result (λ copy. copy ≡ self.now) }
    {
        match self {
            DriverError::ConnectionClosed => Ok(DriverError::ConnectionClosed),
            DriverError::MixedParams => Ok(DriverError::MixedParams),
            DriverError::NestedTransaction => Ok(DriverError::NestedTransaction),
            DriverError::PoolDisconnected => Ok(DriverError::PoolDisconnected),
            DriverError::PoolFull { waiting, limit } => Ok(DriverError::PoolFull {
                waiting: *waiting,
                limit: *limit,
            }),
            DriverError::ReadOnlyTransNotSupported => Ok(DriverError::ReadOnlyTransNotSupported),
            DriverError::Params(error) => Ok(DriverError::Params(error.copy(alloc)?)),
            DriverError::StmtParamsMismatch { required, supplied } => {
                Ok(DriverError::StmtParamsMismatch {
                    required: *required,
                    supplied: *supplied,
                })
            }
            DriverError::StmtParamsNumberExceedsLimit { supplied } => {
                Ok(DriverError::StmtParamsNumberExceedsLimit {
                    supplied: *supplied,
                })
            }
            DriverError::TooLong => Ok(DriverError::TooLong),
            DriverError::UnexpectedPacket { payload } => Ok(DriverError::UnexpectedPacket {
                payload: payload.copy(alloc)?,
            }),
            DriverError::UnknownAuthPlugin { name } => Ok(DriverError::UnknownAuthPlugin {
                name: name.copy(alloc)?,
            }),
            DriverError::CleartextPluginDisabled => Ok(DriverError::CleartextPluginDisabled),
            DriverError::MysqlOldPasswordDisabled => Ok(DriverError::MysqlOldPasswordDisabled),
            DriverError::FullAuthRefused => Ok(DriverError::FullAuthRefused),
            DriverError::CantParseServerVersion => Ok(DriverError::CantParseServerVersion),
            DriverError::PacketOutOfOrder => Ok(DriverError::PacketOutOfOrder),
            DriverError::PacketTooLarge => Ok(DriverError::PacketTooLarge),
            DriverError::BadCompressedPacketHeader => Ok(DriverError::BadCompressedPacketHeader),
            DriverError::NoKeyFound => Ok(DriverError::NoKeyFound),
            DriverError::NamedPipesDisabled => Ok(DriverError::NamedPipesDisabled),
            DriverError::InvalidParsecSalt => Ok(DriverError::InvalidParsecSalt),
            DriverError::NoClientSslFlagFromServer => Ok(DriverError::NoClientSslFlagFromServer),
        }
    }
}

impl fmt::Display for DriverError {
    fn fmt<W: fmt::Write>(&self, f: &mut fmt::Formatter<W>) -> fmt::Result {
        f.write_str(self.text())?;
        match self {
            DriverError::Params(error) => fmt::Display::fmt(error, f),
            DriverError::PoolFull { waiting, limit } => write!(f, "{waiting} of at most {limit}."),
            DriverError::StmtParamsMismatch { required, supplied } => {
                write!(f, "{required} parameters but {supplied} were supplied")
            }
            DriverError::StmtParamsNumberExceedsLimit { supplied } => write!(f, "{supplied}"),
            _ => Ok(()),
        }
    }
}

impl std::error::Error for DriverError {}

/// What failed on the way between client and server.
#[derive(Clone, Copy, Debug, PartialEq, Eq)]
pub enum IoKind {
    /// The link failed.
    Link,
    /// No link could be made.
    Dial,
    /// The link ended where a packet was awaited.
    UnexpectedEof,
    /// A payload was received that fits no case.
    InvalidData,
}

impl IoKind {
    // What failed, in words.
    fn text(self) -> &'static str {
        match self {
            IoKind::Link => "the link failed",
            IoKind::Dial => "no link could be made",
            IoKind::UnexpectedEof => "the link ended where a packet was awaited",
            IoKind::InvalidData => "a packet came that may not stand there",
        }
    }
}

impl fmt::Display for IoKind {
    fn fmt<W: fmt::Write>(&self, f: &mut fmt::Formatter<W>) -> fmt::Result {
        f.write_str(self.text())
    }
}

impl std::error::Error for IoKind {}

/// A fault on the way, with the number of whole payloads that were taken before.
#[derive(Clone, Copy, Debug, PartialEq, Eq, ThisError)]
#[error("{kind} (after {place} packets)")]
pub struct IoFault {
    pub kind: IoKind,
    pub place: u64,
}

/// What was wrong with the bytes, or with the link that carries them.
#[derive(Clone, Copy, Debug, PartialEq, Eq, ThisError)]
pub enum IoError {
    #[error(transparent)]
    Io(IoFault),
    /// The packets of a payload are wrong.
    #[error(transparent)]
    Codec(CodecFault),
}

/// A server's error, after a command that failed.
#[derive(Debug, Drop, PartialEq, Eq, ThisError)]
#[error("ERROR {code} ({}): {}", state.as_str(), message.as_str())]
pub struct ServerError {
    pub code: u16,
    /// Five characters that name the class of the error.
    pub state: Text,
    pub message: Text,
}

impl ServerError {
    /// A second value of the same error.
    pub fn copy(&self, alloc: Global) -> Result<ServerError, NoMemory>
        ensures { IfOk result (λ copy. copy ≡ self.now) }
    {
        Ok(ServerError {
            code: self.code,
            state: self.state.copy(alloc)?,
            message: self.message.copy(alloc)?,
        })
    }
}

/// A refusal in a caller's own words.
#[derive(Debug, Drop, PartialEq, Eq, ThisError)]
#[error("{}", text.as_str())]
pub struct OtherError {
    pub text: Text,
}

impl OtherError {
    /// A second value of the same error.
    pub fn copy(&self, alloc: Global) -> Result<OtherError, NoMemory>
        ensures { IfOk result (λ copy. copy ≡ self.now) }
    {
        Ok(OtherError {
            text: self.text.copy(alloc)?,
        })
    }
}

/// Why a call has no answer.
#[derive(Debug, Drop, PartialEq, Eq, ThisError)]
pub enum Error {
    #[error(transparent)]
    Driver(DriverError),
    #[error(transparent)]
    Io(IoError),
    #[error(transparent)]
    Server(ServerError),
    /// The URL gives no options. No call of a session comes to it.
    #[error(transparent)]
    Url(UrlError),
    /// The caller refused the connection while it was made. No call of a session comes to it.
    #[error(transparent)]
    Other(OtherError),
    #[error("out of memory")]
    NoMemory,
}

impl From<NoMemory> for Error {
    ghost use Rattle.my_reading.specs.declared.error.Error.TheVariants as errors;

    ghost from_gives = { λ _ e. e ≡ errors.NoMemory };

    fn from(_e: NoMemory) -> Error {
        Error::NoMemory
    }
}

impl Error {
    ghost use Rattle.my_reading.specs.Errors.{is_fatal};

    /// Whether a connection is of no use after it: a server's error alone leaves it open.
    pub fn is_fatal(&self) -> bool
        ensures { result ≡ is_fatal self.now }
    {
        match self {
            Error::Driver(_) | Error::Io(_) | Error::Url(_) | Error::Other(_) | Error::NoMemory =>
                true,
            Error::Server(_) => false,
        }
    }

    /// A second value of the same error.
    pub fn copy(&self, alloc: Global) -> Result<Error, NoMemory>
        ensures { IfOk result (λ copy. copy ≡ self.now) }
    {
        match self {
            Error::Driver(error) => Ok(Error::Driver(error.copy(alloc)?)),
            Error::Io(error) => Ok(Error::Io(*error)),
            Error::Server(error) => Ok(Error::Server(error.copy(alloc)?)),
            Error::Url(error) => Ok(Error::Url(error.copy(alloc)?)),
            Error::Other(error) => Ok(Error::Other(error.copy(alloc)?)),
            Error::NoMemory => Ok(Error::NoMemory),
        }
    }
}
