//! A connection at which no call is open, by its type.
ghost use Rattle.std.specs.Prelude.{◌≡◌, None, IfErr, OkIff};
ghost use Rattle.my_handshake.specs.Version.{version_of};
ghost use Rattle.my_conn.specs.Drives.{EndIs};
ghost use Rattle.my_conn.specs.Forgets.{ForgetIs};
ghost use Rattle.my_connect.specs.Ends.{QuitIs};
ghost use Rattle.my_connect.specs.Idle.{idle_of};
ghost use Rattle.my_conn.specs.Facts.{affected_by, info_by, insert_by, warnings_by};

use my_conn::{Conn, NextAnswer};
use my_frame::Blob;
use my_link::BlockingLink;
use my_opts_parts::TxOpts;
use my_params::Params;
use my_reading::Error;
use my_rows::Calls;
use my_statements::Statement;
use std::alloc::Global;
use std::marker::Model;

/// A connection at which no call is open, by its type: so its calls have no condition. Each waits until it is done.
#[derive(Drop)]
pub struct Client<L> {
    conn: Conn<L>,
}

impl<L> Model for Client<L> {
    ghost use Rattle.my_conn.specs.Conn.{ConnSeen};
    ghost use Rattle.std.specs.Prelude.{◌≡◌, None};

    ghost Value = { ConnSeen L };

    ghost view = { λ c. c.conn };

    ghost invariant = { λ c. c.conn.pending ≡ None };
}

impl<L> Client<L> {
    // Of a connection at which no call is open.
    pub(crate) fn of(conn: Conn<L>) -> Client<L>
        requires { conn.pending ≡ None }
        ensures { result ≡ conn }
    {
        Client { conn }
    }

    /// Of this connection. One at which a call is open is given back.
    pub fn new(conn: Conn<L>) -> Result<Client<L>, Conn<L>>
        ensures client { OkIff result (conn.pending ≡ None) conn }
        ensures back { IfErr result (λ c. c ≡ conn) }
    {
        match conn.open_call() {
            None => Ok(Client { conn }),
            Some(_) => Err(conn),
        }
    }

    /// The connection.
    pub fn into_conn(self) -> Conn<L>
        ensures conn { result ≡ self }
        ensures idle { result.pending ≡ None }
    {
        self.conn
    }

    /// The connection, to look at.
    pub fn conn(&self) -> &Conn<L>
        ensures { result.now ≡ self.now }
    {
        &self.conn
    }

    /// The number of the connection, as the server reported it.
    pub fn id(&self) -> u32
        ensures { result ≡ self.now.seen.stand.facts.connection }
    {
        self.conn.id()
    }

    /// The three numbers of the server's version.
    pub fn server_version(&self) -> (u16, u16, u16)
        ensures major { result.0 ≡ (version_of self.now.seen.stand.facts.version).major }
        ensures minor { result.1 ≡ (version_of self.now.seen.stand.facts.version).minor }
        ensures patch { result.2 ≡ (version_of self.now.seen.stand.facts.version).patch }
    {
        self.conn.server_version()
    }

    /// The number of rows that the last statement changed, by the last OK; 0 without one.
    pub fn affected_rows(&self) -> u64
        ensures { result ≡ affected_by self.now.seen.stand.facts.ok }
    {
        self.conn.affected_rows()
    }

    /// The id that the server generated for the last new row, by the last OK; none where it generated none,
    /// or without an OK.
    pub fn last_insert_id(&self) -> Option<u64>
        ensures { result ≡ insert_by self.now.seen.stand.facts.ok }
    {
        self.conn.last_insert_id()
    }

    /// The number of warnings, by the last OK; 0 without one.
    pub fn get_warnings(&self) -> u16
        ensures { result ≡ warnings_by self.now.seen.stand.facts.ok }
    {
        self.conn.get_warnings()
    }

    /// The last OK's remark for people; empty without one.
    pub fn info(&self) -> &[u8]
        ensures { result.now ≡ info_by self.now.seen.stand.facts.ok }
    {
        self.conn.info()
    }

    /// Gives the transaction up, where the server has one: it is rolled back before the next command. Nothing is sent.
    pub fn forget_transaction(&mut self)
        ensures { ForgetIs self.old self.new }
    {
        self.conn.forget_transaction();
    }

    /// Sets the moment of its calls, in milliseconds.
    pub fn set_now(&mut self, now: u64)
        ensures { self.new ≡ record self.old { fixed = record self.old.fixed { now = now } } }
    {
        self.conn.set_now(now);
    }
}

impl<L: BlockingLink> Client<L> {
    /// Ends the connection, and returns its link, for its caller to let go. After the quit nothing is sent there.
    pub fn disconnect(self, alloc: Global) -> (Result<(), Error>, L)
        ensures { EndIs L.looks self result }
    {
        self.conn.disconnect(alloc)
    }
}

impl<L: BlockingLink + Drop> Client<L> {
    /// Ends the connection, as `disconnect` does, and lets its link go.
    pub fn quit(self, alloc: Global) -> Result<(), Error>
        ensures { QuitIs L.looks self result }
    {
        let (ended, link) = self.conn.disconnect(alloc);
        drop(link);
        ended
    }
}

impl<L: BlockingLink> Calls for Client<L> {
    ghost use Rattle.std.specs.Prelude.{[]};

    type L = L;

    ghost conn_of = { λ c. idle_of c };

    ghost loans_of = { λ c. [] };

    fn conn(&self) -> &Conn<L> {
        &self.conn
    }

    fn send_ping(&mut self, alloc: Global) -> Result<(), Error> {
        self.conn.ping(alloc)
    }

    fn send_prepare(&mut self, alloc: Global, query: Blob) -> Result<Statement, Error> {
        self.conn.send_prepare(alloc, query)
    }

    fn send_close(&mut self, alloc: Global, statement: Statement) -> Result<(), Error> {
        self.conn.send_close(alloc, statement)
    }

    fn send_query(&mut self, alloc: Global, query: Blob) -> Result<(), Error> {
        self.conn.send_query(alloc, query)
    }

    fn send_execution(
        &mut self,
        alloc: Global,
        statement: Statement,
        params: Params,
    ) -> Result<(), Error> {
        self.conn.send_execution(alloc, statement, params)
    }

    fn send_batch(
        &mut self,
        alloc: Global,
        statement: Statement,
        lists: Vec<Params>,
    ) -> Result<(), Error> {
        self.conn.send_batch(alloc, statement, lists)
    }

    fn next_row(&mut self, alloc: Global) -> Result<NextAnswer, Error> {
        self.conn.next_row(alloc)
    }

    fn take_set(&mut self, alloc: Global) -> Result<bool, Error> {
        Calls::take_set(&mut self.conn, alloc)
    }

    fn drop_rest(&mut self, alloc: Global) -> Result<(), Error> {
        self.conn.drop_rest(alloc)
    }

    fn send_begin(&mut self, alloc: Global, opts: TxOpts) -> Result<(), Error> {
        self.conn.send_begin(alloc, opts)
    }

    fn send_commit(&mut self, alloc: Global) -> Result<(), Error> {
        self.conn.send_commit(alloc)
    }

    fn send_rollback(&mut self, alloc: Global) -> Result<(), Error> {
        self.conn.send_rollback(alloc)
    }
}
