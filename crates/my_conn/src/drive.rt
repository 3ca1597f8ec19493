//! Calls that wait, over links that never hold: each polls its call until it returns.
ghost use Rattle.std.specs.Prelude.{◌≡◌, None, Some, true};
ghost use Rattle.my_client.specs.Calls.{MayPoll};
ghost use Rattle.my_reading.specs.declared.answer.Answer.TheVariants as answers;
ghost use Rattle.my_reading.specs.declared.call.Call.TheVariants as calls;
ghost use Rattle.my_reading.specs.declared.call.CallKind.TheVariants as kinds;
ghost use Rattle.my_reading.specs.Told.{told};
ghost use Rattle.my_session.specs.Fits.{may_be};
ghost use Rattle.my_conn.specs.Answers.{next_of};
ghost use Rattle.my_conn.specs.Drives.{DoneIs, DriveIs, NextIs, PrepareIs, ResetIs};

use crate::conn::Conn;
use my_client::{After, TOO_LONG, never_holds};
use my_frame::{Blob, Listed};
use my_link::BlockingLink;
use my_opts::ChangeUserOpts;
use my_opts_parts::TxOpts;
use my_params::Params;
use my_reading::{Answer, Call, CallKind, DriverError, Error};
use my_statements::Statement;
use my_value::Row;
use std::alloc::Global;

/// What a read of the next row returns.
#[derive(Drop)]
pub enum NextAnswer {
    Row(Row),
    /// The set that is read ended.
    SetEnd,
    /// Nothing is left to be read.
    NoSet,
}

/// What a caller gets of a read's answer. `Ready`, `Stmt` and `Flag` are never answers of a read.
pub fn next_answer(given: Answer) -> NextAnswer
    ensures { result ≡ next_of given }
{
    match given {
        Answer::Row(row) => NextAnswer::Row(row),
        Answer::SetEnd => NextAnswer::SetEnd,
        Answer::NoSet => NextAnswer::NoSet,
        Answer::Ready => NextAnswer::NoSet,
        Answer::Stmt(statement) => {
            drop(statement);
            NextAnswer::NoSet
        }
        Answer::Flag(_) => NextAnswer::NoSet,
    }
}

/// The statement that is the answer to a statement to prepare.
pub fn statement_answer(given: Answer) -> Statement
    requires { may_be kinds.Prepare (told given) ≡ true }
    ensures { given ≡ answers.Stmt result }
{
    match given {
        Answer::Stmt(statement) => statement,
        Answer::Ready | Answer::Row(_) | Answer::SetEnd | Answer::NoSet | Answer::Flag(_) => {
            unreachable!()
        }
    }
}

/// The flag that is the answer to a reset.
pub fn flag_answer(given: Answer) -> bool
    requires { may_be kinds.Reset (told given) ≡ true }
    ensures { given ≡ answers.Flag result }
{
    match given {
        Answer::Flag(flag) => flag,
        Answer::Ready | Answer::Row(_) | Answer::SetEnd | Answer::NoSet | Answer::Stmt(_) => {
            unreachable!()
        }
    }
}

impl<L: BlockingLink> Conn<L> {
    // Begins a call, and polls it until it returns.
    pub(crate) fn drive(
        &mut self,
        alloc: Global,
        kind: CallKind,
        call: Call,
    ) -> Result<Answer, Error>
        requires { MayPoll kind (Some call) self.old.pending }
        ensures { DriveIs L.looks kind call self.old self.new result }
    {
        let now = self.now();
        let mut next = Some(call);
        let mut spent = 0u64;
        'polls: loop {
            if spent >= TOO_LONG {
                drop(next);
                self.give_up();
                return Err(Error::Driver(DriverError::TooLong));
            }
            never_holds(self.link());
            let (after, met) = self.poll_call(alloc, kind, next, now);
            never_holds(self.link());
            spent += met.taken;
            match after {
                After::Pending => next = None,
                After::Answered(answer) => return Ok(answer),
                After::Failed(error) => return Err(error),
            }
        }
    }

    // Makes a call of this kind, and waits until it is done.
    fn wait(&mut self, alloc: Global, kind: CallKind, call: Call) -> Result<(), Error>
        requires { MayPoll kind (Some call) self.old.pending }
        ensures { DoneIs L.looks kind call self.old self.new result }
    {
        match self.drive(alloc, kind, call) {
            Ok(answer) => {
                drop(answer);
                return Ok(());
            }
            Err(error) => return Err(error),
        }
    }

    /// Sends a query, and waits until the server accepts it.
    pub fn send_query(&mut self, alloc: Global, text: Blob) -> Result<(), Error>
        requires { self.old.pending ≡ None }
        ensures { DoneIs L.looks kinds.Query (calls.Query text) self.old self.new result }
    {
        self.wait(alloc, CallKind::Query, Call::Query(text))
    }

    /// Prepares a statement of this text, which may have named parameters, and waits for it. One that is cached is
    /// returned at once.
    pub fn send_prepare(&mut self, alloc: Global, text: Blob) -> Result<Statement, Error>
        requires { self.old.pending ≡ None }
        ensures { PrepareIs L.looks text self.old self.new result }
    {
        match self.drive(alloc, CallKind::Prepare, Call::Prepare(text)) {
            Ok(answer) => return Ok(statement_answer(answer)),
            Err(error) => return Err(error),
        }
    }

    /// Executes a statement with these parameters, and waits until the server accepts it.
    pub fn send_execution(
        &mut self,
        alloc: Global,
        statement: Statement,
        params: Params,
    ) -> Result<(), Error>
        requires { self.old.pending ≡ None }
        ensures { DoneIs L.looks kinds.Execute (calls.Execute statement params) self.old self.new result }
    {
        let call = Call::Execute(statement, params);
        self.wait(alloc, CallKind::Execute, call)
    }

    /// Executes a statement once with each of these parameters, and waits until each result is read whole.
    pub fn send_batch(
        &mut self,
        alloc: Global,
        statement: Statement,
        lists: Vec<Params>,
    ) -> Result<(), Error>
        requires { self.old.pending ≡ None }
        ensures { DoneIs L.looks kinds.Batch (calls.Batch statement lists.items) self.old self.new result }
    {
        let call = Call::Batch(statement, Listed::from(lists));
        self.wait(alloc, CallKind::Batch, call)
    }

    /// Closes a statement: it isn't cached any more, and the server forgets it.
    pub fn send_close(&mut self, alloc: Global, statement: Statement) -> Result<(), Error>
        requires { self.old.pending ≡ None }
        ensures { DoneIs L.looks kinds.CloseStmt (calls.CloseStmt statement.inner.id) self.old self.new result }
    {
        let id = statement.id();
        drop(statement);
        self.wait(alloc, CallKind::CloseStmt, Call::CloseStmt(id))
    }

    /// Waits for the next row.
    pub fn next_row(&mut self, alloc: Global) -> Result<NextAnswer, Error>
        requires { self.old.pending ≡ None }
        ensures { NextIs L.looks self.old self.new result }
    {
        match self.drive(alloc, CallKind::NextRow, Call::NextRow) {
            Ok(answer) => return Ok(next_answer(answer)),
            Err(error) => return Err(error),
        }
    }

    /// Passes over all that is left of a result.
    pub fn drop_rest(&mut self, alloc: Global) -> Result<(), Error>
        requires { self.old.pending ≡ None }
        ensures { DoneIs L.looks kinds.DropResult calls.DropResult self.old self.new result }
    {
        self.wait(alloc, CallKind::DropResult, Call::DropResult)
    }

    /// Begins a transaction with these options, and waits until the server has begun it.
    pub fn send_begin(&mut self, alloc: Global, opts: TxOpts) -> Result<(), Error>
        requires { self.old.pending ≡ None }
        ensures { DoneIs L.looks kinds.Begin (calls.Begin opts) self.old self.new result }
    {
        self.wait(alloc, CallKind::Begin, Call::Begin(opts))
    }

    /// Commits the transaction, and waits until the server has done it.
    pub fn send_commit(&mut self, alloc: Global) -> Result<(), Error>
        requires { self.old.pending ≡ None }
        ensures { DoneIs L.looks kinds.Commit calls.Commit self.old self.new result }
    {
        self.wait(alloc, CallKind::Commit, Call::Commit)
    }

    /// Rolls the transaction back, and waits until the server has done it.
    pub fn send_rollback(&mut self, alloc: Global) -> Result<(), Error>
        requires { self.old.pending ≡ None }
        ensures { DoneIs L.looks kinds.Rollback calls.Rollback self.old self.new result }
    {
        self.wait(alloc, CallKind::Rollback, Call::Rollback)
    }

    /// Asks whether the server is there.
    pub fn ping(&mut self, alloc: Global) -> Result<(), Error>
        requires { self.old.pending ≡ None }
        ensures { DoneIs L.looks kinds.Ping calls.Ping self.old self.new result }
    {
        self.wait(alloc, CallKind::Ping, Call::Ping)
    }

    /// Resets the server's session without a new login, and waits until that is done. An open transaction is rolled
    /// back; variables of the session are as after the login; temporary tables, locks and prepared statements are
    /// gone, also those of the cache. Then the texts of the option `setup` are sent again.
    ///
    /// `false`: the server can't, and nothing was sent. MySQL can from 5.7.3 on, MariaDB from 10.2.4 on.
    pub fn reset(&mut self, alloc: Global) -> Result<bool, Error>
        requires { self.old.pending ≡ None }
        ensures { ResetIs L.looks self.old self.new result }
    {
        match self.drive(alloc, CallKind::Reset, Call::Reset) {
            Ok(answer) => return Ok(flag_answer(answer)),
            Err(error) => return Err(error),
        }
    }

    /// Changes the connection's user, and waits until that is done: the options get the account that the change gives
    /// them, the server is told, and its session is a new one. Prepared statements are gone, also those of the cache.
    /// Then the texts of the option `setup` are sent again.
    pub fn change_user(&mut self, alloc: Global, change: ChangeUserOpts) -> Result<(), Error>
        requires { self.old.pending ≡ None }
        ensures { DoneIs L.looks kinds.ChangeUser (calls.ChangeUser change) self.old self.new result }
    {
        self.wait(alloc, CallKind::ChangeUser, Call::ChangeUser(change))
    }

    /// Ends the connection.
    pub fn quit(&mut self, alloc: Global) -> Result<(), Error>
        requires { self.old.pending ≡ None }
        ensures { DoneIs L.looks kinds.Quit calls.Quit self.old self.new result }
    {
        self.wait(alloc, CallKind::Quit, Call::Quit)
    }
}
