//! A transaction of a client that is lent.
ghost use Rattle.std.specs.Prelude.{◌≡◌, IfOk, Ok, []};
ghost use Rattle.std.specs.Borrow.{sem, Lends, RestsIfErr};
ghost use mir.Syntax.{named};
ghost use Rattle.my_reading.specs.declared.call.Call.TheVariants as calls;
ghost use Rattle.my_reading.specs.declared.call.CallKind.TheVariants as kinds;
ghost use Rattle.my_conn.specs.Drives.{DoneIs};
ghost use Rattle.my_conn.specs.Forgets.{ForgetIs};
ghost use Rattle.my_connect.specs.Idle.{idle_of};
ghost use Rattle.my_connect.specs.Transactions.{BeginIs, begun_by, name_of, with_client};
ghost use Rattle.my_connect.specs.contracts.client.Client.{the_row};
ghost use Rattle.my_connect.specs.contracts.transaction.Transaction.{the_row as row_of};

use crate::client::Client;
use my_conn::{Conn, NextAnswer};
use my_frame::Blob;
use my_link::BlockingLink;
use my_opts_parts::TxOpts;
use my_params::Params;
use my_reading::Error;
use my_rows::Calls;
use my_statements::Statement;
use std::alloc::Global;

/// A transaction of a client that is lent. One that is let go is given up: it is rolled back before the client's next
/// command.
pub struct Transaction<'a, L> {
    client: &'a mut Client<L>,
}

impl<L: BlockingLink> Client<L> {
    /// Begins a transaction with these options, and lends the client to it.
    pub fn start_transaction(
        &mut self,
        alloc: Global,
        opts: TxOpts,
    ) -> Result<Transaction<'_, L>, Error>
        ensures* rests { sem 𝓛 (RestsIfErr (the_row L.row) self.entry name_of result
            (λ n. BeginIs L.looks opts self.old n (begun_by result))) }
        ensures name { IfOk result (λ t. t.client.ghost_name ≡ self.entry.ghost_name) }
        ensures begun { IfOk result (λ t. BeginIs L.looks opts self.old t.client.now (Ok tt)) }
    {
        match self.send_begin(alloc, opts) {
            Ok(()) => Ok(Transaction { client: self }),
            Err(error) => Err(error),
        }
    }
}

impl<'a, L: BlockingLink> Transaction<'a, L> {
    /// Commits it.
    pub fn commit(self, alloc: Global) -> Result<(), Error>
        ensures { DoneIs L.looks kinds.Commit calls.Commit
            (idle_of self.entry.client.now) (idle_of self.exit.0.now) result }
    {
        let Transaction { client } = self;
        let client = &mut *client;
        client.send_commit(alloc)
    }

    /// Rolls it back.
    pub fn rollback(self, alloc: Global) -> Result<(), Error>
        ensures { DoneIs L.looks kinds.Rollback calls.Rollback
            (idle_of self.entry.client.now) (idle_of self.exit.0.now) result }
    {
        let Transaction { client } = self;
        let client = &mut *client;
        client.send_rollback(alloc)
    }
}

impl<'a, L> Transaction<'a, L> {
    /// Its client, lent on.
    pub fn client(&mut self) -> &mut Client<L>
        ensures* lends { sem 𝓛 (Lends (row_of (record { mir = named 1; lft = [] }) L.row) (the_row L.row)
            self.entry result (with_client self.old)) }
        ensures value { result.now ≡ self.old.client.now }
    {
        &mut *self.client
    }
}

impl<L> Drop for Transaction<'_, L> {
    fn drop(self)
        ensures { ForgetIs self.entry.client.now self.exit.0.now }
    {
        self.client.forget_transaction();
        let Transaction { client: _ } = self;
    }
}

impl<'a, L: BlockingLink> Calls for Transaction<'a, L> {
    ghost use Rattle.std.specs.Prelude.{◌∷◌};

    type L = L;

    ghost conn_of = { λ t. idle_of t.client.now };

    ghost loans_of = { λ t. t.client.ghost_name ∷ [] };

    fn conn(&self) -> &Conn<L> {
        Calls::conn(&*self.client)
    }

    fn send_ping(&mut self, alloc: Global) -> Result<(), Error> {
        self.client.send_ping(alloc)
    }

    fn send_prepare(&mut self, alloc: Global, query: Blob) -> Result<Statement, Error> {
        self.client.send_prepare(alloc, query)
    }

    fn send_close(&mut self, alloc: Global, statement: Statement) -> Result<(), Error> {
        self.client.send_close(alloc, statement)
    }

    fn send_query(&mut self, alloc: Global, query: Blob) -> Result<(), Error> {
        self.client.send_query(alloc, query)
    }

    fn send_execution(
        &mut self,
        alloc: Global,
        statement: Statement,
        params: Params,
    ) -> Result<(), Error> {
        self.client.send_execution(alloc, statement, params)
    }

    fn send_batch(
        &mut self,
        alloc: Global,
        statement: Statement,
        lists: Vec<Params>,
    ) -> Result<(), Error> {
        self.client.send_batch(alloc, statement, lists)
    }

    fn next_row(&mut self, alloc: Global) -> Result<NextAnswer, Error> {
        self.client.next_row(alloc)
    }

    fn take_set(&mut self, alloc: Global) -> Result<bool, Error> {
        self.client.take_set(alloc)
    }

    fn drop_rest(&mut self, alloc: Global) -> Result<(), Error> {
        self.client.drop_rest(alloc)
    }

    fn send_begin(&mut self, alloc: Global, opts: TxOpts) -> Result<(), Error> {
        self.client.send_begin(alloc, opts)
    }

    fn send_commit(&mut self, alloc: Global) -> Result<(), Error> {
        self.client.send_commit(alloc)
    }

    fn send_rollback(&mut self, alloc: Global) -> Result<(), Error> {
        self.client.send_rollback(alloc)
    }
}
