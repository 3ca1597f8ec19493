//! A connection that a pool has handed out to be worked on.

use crate::boxed::BoxedConn;
use my_client::After;
use my_conn::Conn;
use my_link::{Link, Met};
use my_reading::{Call, CallKind};
use std::alloc::Global;
use std::marker::Model;

/// A connection with its number, in a caller's hand. It can't be dropped: it ends by a call of the pool.
pub struct Out<L> {
    pub(crate) number: u64,
    pub(crate) conn: BoxedConn<L>,
}

impl<L> Model for Out<L> {
    ghost use Rattle.my_conn.specs.Conn.{ConnSeen};
    ghost use Rattle.my_pool_store.specs.Shelves.{Entry};

    ghost Value = { Entry (ConnSeen L) };

    ghost view = { λ o. record { number = o.number; conn = o.conn } };
}

impl<L> Out<L> {
    ghost use Rattle.std.specs.Prelude.{◌≡◌};

    /// The number of the connection.
    pub fn number(&self) -> u64
        ensures { result ≡ self.now.number }
    {
        self.number
    }

    /// The connection.
    pub fn conn(&self) -> &Conn<L>
        ensures { result.now ≡ self.now.conn }
    {
        self.conn.conn()
    }
}

impl<L: Link> Out<L> {
    ghost use Rattle.std.specs.Prelude.{◌≡◌};
    ghost use Rattle.my_client.specs.Calls.{MayPoll};
    ghost use Rattle.my_conn.specs.Calls.{CallIs};

    /// Polls a call of the connection once, as `Conn::poll_call` does.
    pub fn poll_call(
        &mut self,
        alloc: Global,
        kind: CallKind,
        call: Option<Call>,
        now: u64,
    ) -> (After, Met)
        requires { MayPoll kind call self.old.conn.pending }
        ensures call { CallIs L.looks now kind call self.old.conn self.new.conn result.1 result.0 }
        ensures number { self.new.number ≡ self.old.number }
    {
        self.conn.poll_call(alloc, kind, call, now)
    }
}
