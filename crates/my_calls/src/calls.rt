//! The calls of a connection: each has a state by which it is polled by hand.
ghost use Rattle.std.specs.Prelude.{◌≡◌, true};
ghost use Rattle.my_reading.specs.Calls.{kind_of};
ghost use Rattle.my_reading.specs.declared.call.Call.TheVariants as calls;
ghost use Rattle.my_calls.specs.States.{first_state, is_for_pool};

use crate::states::CallState;
use my_conn::NextAnswer;
use my_frame::{Blob, Listed};
use my_opts::ChangeUserOpts;
use my_opts_parts::TxOpts;
use my_params::Params;
use my_reading::{Answer, Call};
use my_statements::Statement;

/// A query, until the server accepts it.
pub type QueryCall = CallState<Query, ()>;

/// Marks `QueryCall`.
#[derive(Drop)]
pub struct Query;

impl CallState<Query, ()> {
    pub fn new(text: Blob) -> QueryCall
        ensures { result ≡ first_state (calls.Query text) }
    {
        CallState::first(Call::Query(text))
    }
}

/// A statement that is prepared, unless it is cached.
pub type PrepCall = CallState<Prepare, Statement>;

/// Marks `PrepCall`.
#[derive(Drop)]
pub struct Prepare;

impl CallState<Prepare, Statement> {
    /// The text may have named parameters.
    pub fn new(text: Blob) -> PrepCall
        ensures { result ≡ first_state (calls.Prepare text) }
    {
        CallState::first(Call::Prepare(text))
    }
}

/// A statement that is executed, until the server accepts it.
pub type ExecCall = CallState<Execute, ()>;

/// Marks `ExecCall`.
#[derive(Drop)]
pub struct Execute;

impl CallState<Execute, ()> {
    pub fn new(statement: Statement, params: Params) -> ExecCall
        ensures { result ≡ first_state (calls.Execute statement params) }
    {
        CallState::first(Call::Execute(statement, params))
    }

    /// The statement is executed once with each of these parameters, until each result is read whole.
    pub fn batch(statement: Statement, lists: Vec<Params>) -> ExecCall
        ensures { result ≡ first_state (calls.Batch statement lists.items) }
    {
        CallState::first(Call::Batch(statement, Listed::from(lists)))
    }
}

/// The close of a statement.
pub type CloseCall = CallState<CloseStmt, ()>;

/// Marks `CloseCall`.
#[derive(Drop)]
pub struct CloseStmt;

impl CallState<CloseStmt, ()> {
    pub fn new(statement: Statement) -> CloseCall
        ensures { result ≡ first_state (calls.CloseStmt statement.inner.id) }
    {
        let id = statement.id();
        drop(statement);
        CallState::first(Call::CloseStmt(id))
    }
}

/// A read of the next row.
pub type NextCall = CallState<NextRow, NextAnswer>;

/// Marks `NextCall`.
#[derive(Drop)]
pub struct NextRow;

impl CallState<NextRow, NextAnswer> {
    pub fn new() -> NextCall
        ensures { result ≡ first_state calls.NextRow }
    {
        CallState::first(Call::NextRow)
    }
}

/// A pass over all that is left of a result.
pub type DropCall = CallState<DropResult, ()>;

/// Marks `DropCall`.
#[derive(Drop)]
pub struct DropResult;

impl CallState<DropResult, ()> {
    pub fn new() -> DropCall
        ensures { result ≡ first_state calls.DropResult }
    {
        CallState::first(Call::DropResult)
    }
}

/// A question whether the server is there.
pub type PingCall = CallState<Ping, ()>;

/// Marks `PingCall`.
#[derive(Drop)]
pub struct Ping;

impl CallState<Ping, ()> {
    pub fn new() -> PingCall
        ensures { result ≡ first_state calls.Ping }
    {
        CallState::first(Call::Ping)
    }
}

/// A reset of the server's session. `false`: the server can't, and nothing was sent.
pub type ResetCall = CallState<Reset, bool>;

/// Marks `ResetCall`.
#[derive(Drop)]
pub struct Reset;

impl CallState<Reset, bool> {
    pub fn new() -> ResetCall
        ensures { result ≡ first_state calls.Reset }
    {
        CallState::first(Call::Reset)
    }
}

/// A change of the connection's user.
pub type ChangeUserCall = CallState<ChangeUser, ()>;

/// Marks `ChangeUserCall`.
#[derive(Drop)]
pub struct ChangeUser;

impl CallState<ChangeUser, ()> {
    pub fn new(opts: ChangeUserOpts) -> ChangeUserCall
        ensures { result ≡ first_state (calls.ChangeUser opts) }
    {
        CallState::first(Call::ChangeUser(opts))
    }
}

/// What a pool does with a connection that came back: it is cleaned, or renewed for its next user.
pub type PoolCall = CallState<ForPool, Answer>;

/// Marks `PoolCall`.
#[derive(Drop)]
pub struct ForPool;

impl CallState<ForPool, Answer> {
    pub fn new(call: Call) -> PoolCall
        requires { is_for_pool (kind_of call) ≡ true }
        ensures { result ≡ first_state call }
    {
        CallState::first(call)
    }
}

/// The beginning of a transaction, or its end.
pub type TxCall = CallState<Transact, ()>;

/// Marks `TxCall`.
#[derive(Drop)]
pub struct Transact;

impl CallState<Transact, ()> {
    /// A transaction begins. It is refused where there is one, or where the server is too old for the options.
    pub fn start(opts: TxOpts) -> TxCall
        ensures { result ≡ first_state (calls.Begin opts) }
    {
        CallState::first(Call::Begin(opts))
    }

    /// The transaction is committed. Where the server answers with an error, it is rolled back before that error is
    /// returned.
    pub fn commit() -> TxCall
        ensures { result ≡ first_state calls.Commit }
    {
        CallState::first(Call::Commit)
    }

    /// The transaction is rolled back. Where there is none, the server is asked all the same.
    pub fn rollback() -> TxCall
        ensures { result ≡ first_state calls.Rollback }
    {
        CallState::first(Call::Rollback)
    }
}

/// The end of a connection.
pub type QuitCall = CallState<Quit, ()>;

/// Marks `QuitCall`.
#[derive(Drop)]
pub struct Quit;

impl CallState<Quit, ()> {
    pub fn new() -> QuitCall
        ensures { result ≡ first_state calls.Quit }
    {
        CallState::first(Call::Quit)
    }
}
