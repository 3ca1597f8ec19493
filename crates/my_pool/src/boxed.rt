//! A connection behind a box.

ghost use Rattle.std.specs.Prelude.{◌≡◌, IfOk, None, Some};
ghost use Rattle.my_client.specs.Calls.{MayPoll};
ghost use Rattle.my_conn.specs.Calls.{CallIs};
ghost use Rattle.my_conn.specs.Cancels.{CancelIs};
ghost use Rattle.my_conn.specs.Checks.{CheckedIs};

use my_client::{After, Tape};
use my_conn::Conn;
use my_frame::NoMemory;
use my_link::{CheckStep, Link, Met};
use my_reading::{Call, CallKind};
use std::alloc::Global;
use std::marker::Model;

/// A connection behind a box, which moves by its address alone. Contracts see the connection. Its methods are those of
/// the connection.
#[derive(Drop)]
pub struct BoxedConn<L> {
    inner: Box<Conn<L>>,
}

impl<L> Model for BoxedConn<L> {
    ghost use Rattle.my_conn.specs.Conn.{ConnSeen};

    ghost Value = { ConnSeen L };

    ghost view = { λ b. b.inner.value };
}

impl<L> BoxedConn<L> {
    /// The connection of a box.
    pub fn of(inner: Box<Conn<L>>) -> BoxedConn<L>
        ensures { result ≡ inner.value }
    {
        BoxedConn { inner }
    }

    /// The connection.
    pub fn conn(&self) -> &Conn<L>
        ensures { result.now ≡ self.now }
    {
        self.inner.as_ref()
    }

    /// Its box, for calls of the connection.
    pub fn into_box(self) -> Box<Conn<L>>
        ensures { result.value ≡ self }
    {
        let BoxedConn { inner } = self;
        inner
    }

    /// The connection without its box.
    pub fn into_conn(self) -> Conn<L>
        ensures { result ≡ self }
    {
        let BoxedConn { inner } = self;
        Box::into_inner(inner)
    }

    /// The kind of the call that is open.
    pub fn open_call(&self) -> Option<CallKind>
        ensures { result ≡ self.now.pending }
    {
        self.inner.open_call()
    }

    /// Hands out the tape, where one is kept. None is kept from here on.
    pub fn take_tape(&mut self) -> Option<Tape>
        ensures tape { result ≡ self.old.tape }
        ensures rest { self.new ≡ record self.old { tape = None } }
    {
        self.inner.take_tape()
    }

    /// Sets whether a pool has handed it out.
    pub fn set_pooled(&mut self, on: bool)
        ensures { self.new ≡ record self.old { fixed = record self.old.fixed { pooled = on } } }
    {
        self.inner.set_pooled(on);
    }
}

impl<L: Drop> BoxedConn<L> {
    /// A connection is put behind a box. Out of memory, it is let go.
    pub fn new(alloc: Global, conn: Conn<L>) -> Result<BoxedConn<L>, NoMemory>
        ensures { IfOk result (λ b. b ≡ conn) }
    {
        Ok(BoxedConn {
            inner: Box::new(alloc, conn)?,
        })
    }
}

impl<L: Link> BoxedConn<L> {
    /// Polls a call once, as `Conn::poll_call` does.
    pub fn poll_call(
        &mut self,
        alloc: Global,
        kind: CallKind,
        call: Option<Call>,
        now: u64,
    ) -> (After, Met)
        requires { MayPoll kind call self.old.pending }
        ensures { CallIs L.looks now kind call self.old self.new result.1 result.0 }
    {
        self.inner.poll_call(alloc, kind, call, now)
    }

    /// Cancels the open call, which is of this kind, as `Conn::cancel_call` does.
    pub fn cancel_call(&mut self, kind: CallKind)
        requires { self.old.pending ≡ Some kind }
        ensures { CancelIs self.old self.new }
    {
        self.inner.cancel_call(kind);
    }

    /// Whether its link is alive, as `Conn::check` says.
    pub fn check(&mut self) -> (CheckStep, Met)
        ensures { CheckedIs L.looks self.old self.new result.1 result.0 }
    {
        self.inner.check()
    }
}
