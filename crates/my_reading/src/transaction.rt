//! Transactions: where one stands, the queries that begin and end one, and why one isn't begun.

ghost use Rattle.std.specs.Prelude.{◌≡◌, ◌<◌, IfSome, slice_get, option_copied};
ghost use Rattle.my_reading.specs.Transactions.{
  access_texts,
  begin_refusal,
  begin_texts,
  commit_text,
  given_up,
  is_given_up,
  level_texts,
  rollback_text,
  rolled_back,
  start_text,
};

use crate::error::{DriverError, ServerError};
use crate::version::can_set_access;
use my_handshake::ServerVersion;
use my_opts_parts::{IsolationLevel, TxOpts};

/// Whether the server has a transaction of this client.
#[derive(Clone, Copy, PartialEq, Eq)]
pub enum TxStatus {
    /// A transaction was begun, and neither committed nor rolled back.
    InTransaction,
    /// A transaction was given up: it is rolled back before the next command.
    RequiresRollback,
    /// There is none.
    None,
}

impl TxStatus {
    /// The status once the caller gave the transaction up.
    pub fn given_up(self) -> TxStatus
        ensures { result ≡ given_up self }
    {
        match self {
            TxStatus::None => TxStatus::None,
            TxStatus::InTransaction | TxStatus::RequiresRollback => TxStatus::RequiresRollback,
        }
    }

    /// The status once a transaction that was given up was rolled back.
    pub fn rolled_back(self) -> TxStatus
        ensures { result ≡ rolled_back self }
    {
        match self {
            TxStatus::InTransaction => TxStatus::InTransaction,
            TxStatus::None | TxStatus::RequiresRollback => TxStatus::None,
        }
    }

    /// Whether a transaction was given up, and not yet rolled back.
    pub fn is_given_up(self) -> bool
        ensures { result ≡ is_given_up self }
    {
        match self {
            TxStatus::None | TxStatus::InTransaction => false,
            TxStatus::RequiresRollback => true,
        }
    }
}

/// Whether a transaction is being committed: an ERR then has it rolled back first, and is the answer.
#[derive(Drop)]
pub enum Trial {
    /// None is.
    Off,
    /// One is.
    On,
    /// It couldn't be committed, for this reason, and is rolled back.
    Refused(ServerError),
}

/// The query that commits a transaction.
pub fn commit_text() -> &'static [u8]
    ensures { result.now ≡ commit_text }
{
    b"COMMIT"
}

/// The query that rolls a transaction back.
pub fn rollback_text() -> &'static [u8]
    ensures { result.now ≡ rollback_text }
{
    b"ROLLBACK"
}

fn level_text(level: IsolationLevel) -> &'static [u8]
    ensures { Some result.now ≡ slice_get (level_texts (Some level)) 0 }
{
    match level {
        IsolationLevel::ReadUncommitted => b"SET TRANSACTION ISOLATION LEVEL READ UNCOMMITTED",
        IsolationLevel::ReadCommitted => b"SET TRANSACTION ISOLATION LEVEL READ COMMITTED",
        IsolationLevel::RepeatableRead => b"SET TRANSACTION ISOLATION LEVEL REPEATABLE READ",
        IsolationLevel::Serializable => b"SET TRANSACTION ISOLATION LEVEL SERIALIZABLE",
    }
}

fn access_text(readonly: bool) -> &'static [u8]
    ensures { Some result.now ≡ slice_get (access_texts (Some readonly)) 0 }
{
    if readonly {
        b"SET TRANSACTION READ ONLY"
    } else {
        b"SET TRANSACTION READ WRITE"
    }
}

fn start_text(consistent_snapshot: bool) -> &'static [u8]
    ensures { result.now ≡ start_text consistent_snapshot }
{
    if consistent_snapshot {
        b"START TRANSACTION WITH CONSISTENT SNAPSHOT"
    } else {
        b"START TRANSACTION"
    }
}

/// The query that begins such a transaction after `place` others; `None` after the last.
pub fn begin_text(opts: TxOpts, place: usize) -> Option<&'static [u8]>
    ensures text { option_copied result ≡ slice_get (begin_texts opts) place }
    ensures few { IfSome result (λ _. place < 3) }
{
    let mut left = place;
    if let Some(level) = opts.isolation_level() {
        if left == 0 {
            return Some(level_text(level));
        }
        left -= 1;
    }
    if let Some(readonly) = opts.readonly() {
        if left == 0 {
            return Some(access_text(readonly));
        }
        left -= 1;
    }
    if left == 0 {
        Some(start_text(opts.consistent_snapshot()))
    } else {
        None
    }
}

/// Why a transaction isn't begun, where it isn't: there is one, or the server is too old to be told whether it only reads.
pub fn begin_refusal(opts: TxOpts, version: ServerVersion, status: TxStatus) -> Option<DriverError>
    ensures { result ≡ begin_refusal opts version status }
{
    match status {
        TxStatus::InTransaction => Some(DriverError::NestedTransaction),
        TxStatus::None | TxStatus::RequiresRollback => {
            if opts.readonly().is_some() && !can_set_access(version) {
                Some(DriverError::ReadOnlyTransNotSupported)
            } else {
                None
            }
        }
    }
}
