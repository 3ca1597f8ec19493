//! A connection that was made.
ghost use Rattle.std.specs.Prelude.{◌≡◌, ◌||◌, Some, None, true, false};
ghost use Rattle.std.specs.Option.{option_copied};
ghost use Rattle.my_session.specs.Login.{with_account};
ghost use Rattle.my_session.specs.Sessions.{is_dirty, is_taken, known_by};
ghost use Rattle.my_conn.specs.Clean.{DidAccount, DidClean, EachAccount, EachClean};
ghost use Rattle.my_conn.specs.News.{first_fixed};

mod unread;

use crate::answers::{lost_answer, met_at, pending_after};
use my_client::{After, Tape, cancel_open, forget_open, poll_once};
use my_frame::NoMemory;
use my_link::{CheckStep, Link, Met};
use my_opts::Opts;
use my_reading::{Call, CallKind, Error, SetColumns};
use my_reply::OkPacket;
use my_session::Session;
use my_statements::Statement;
use std::alloc::Global;
use std::marker::Model;

/// What no call changes.
#[derive(Clone, Copy)]
pub(crate) struct Fixed {
    /// The moment of calls that wait, in milliseconds.
    pub(crate) now: u64,
    /// Whether a pool has handed the connection out.
    pub(crate) pooled: bool,
    /// Whether it is to be reset once a pool has it back.
    pub(crate) reset: bool,
}

impl Fixed {
    // Before the first call.
    pub(crate) fn first(opts: &Opts, now: u64) -> Fixed
        ensures { result ≡ first_fixed opts.now now }
    {
        Fixed {
            now,
            pooled: false,
            reset: opts.pool_opts().reset_connection(),
        }
    }
}

/// A connection to a server: a session on its link.
///
/// Out of memory, it is lost: it is closed then, and keeps no tape.
#[derive(Drop)]
pub struct Conn<L> {
    // What a transaction is given up with.
    alloc: Global,
    session: Session,
    link: L,
    tape: Option<Tape>,
    // The kind of the open call.
    pending: Option<CallKind>,
    lost: bool,
    fixed: Fixed,
}

impl<L> Model for Conn<L> {
    ghost use Rattle.my_conn.specs.Conn.{ConnSeen, Standing};

    ghost Value = { ConnSeen L };

    ghost view = { λ c. record {
      seen = c.session.seen;
      lifetime = c.session.lifetime;
      link = c.link;
      tape = c.tape;
      pending = c.pending;
      lost = c.lost;
      fixed = c.fixed;
    } };

    ghost invariant = { λ c. Standing c.lost c.session.seen c.tape c.pending };
}

impl<L> Conn<L> {
    ghost use Rattle.my_conn.specs.Conn.{Standing};

    // A connection whose making is done.
    pub(crate) fn made(
        alloc: Global,
        session: Session,
        link: L,
        tape: Option<Tape>,
        fixed: Fixed,
    ) -> Conn<L>
        requires { Standing false session.seen tape None }
        ensures { result ≡ record {
          seen = session.seen;
          lifetime = session.lifetime;
          link = link;
          tape = tape;
          pending = None;
          lost = false;
          fixed = fixed;
        } }
    {
        Conn {
            alloc,
            session,
            link,
            tape,
            pending: None,
            lost: false,
            fixed,
        }
    }

    /// The options in force: those that it was made with, as each change of user changed them.
    pub fn opts(&self) -> &Opts
        ensures value { result.now ≡ with_account self.now.seen.stand.account self.now.lifetime.opts }
        ensures account { EachAccount self.now result.now }
        ensures did { DidAccount self.now result.now }
    {
        self.session.opts()
    }

    /// The moment at which its life ends, in milliseconds, where it has one.
    pub fn deadline(&self) -> Option<u128>
        ensures { result ≡ self.now.lifetime.deadline }
    {
        self.session.deadline()
    }

    /// The moment at which the last whole payload was read, in milliseconds.
    pub fn last_io(&self) -> u64
        ensures { result ≡ self.now.lifetime.last_io }
    {
        self.session.last_io()
    }

    // The server's timeout, in seconds.
    pub(crate) fn timeout(&self) -> u64
        ensures { result ≡ self.now.seen.stand.facts.settings.wait_timeout }
    {
        self.session.wait_timeout()
    }

    /// Whether the rest of a response is unread (rows, a further set, or the end of a lone OK), or the server has a
    /// transaction, which is open or given up. Where it isn't, and no call is open, a connection that isn't
    /// disconnected is clean: it may go to its next user.
    pub fn is_dirty(&self) -> bool
        ensures value { result ≡ is_dirty self.now.seen }
        ensures clean { EachClean self.now result }
        ensures did { DidClean self.now result }
    {
        self.session.is_dirty()
    }

    /// The kind of the call that is open.
    pub fn open_call(&self) -> Option<CallKind>
        ensures { result ≡ self.now.pending }
    {
        self.pending
    }

    /// Whether it is closed: it refuses each call that has something to do there.
    pub fn is_disconnected(&self) -> bool
        ensures { result ≡ (self.now.lost || self.now.seen.closed) }
    {
        self.lost || self.session.is_closed()
    }

    /// Whether a stream took the set that is read, or whose end is left for a read to return.
    pub fn is_taken(&self) -> bool
        ensures { result ≡ is_taken self.now.seen }
    {
        self.session.is_taken()
    }

    /// The number of the connection, as the server reported it.
    pub fn id(&self) -> u32
        ensures { result ≡ self.now.seen.stand.facts.connection }
    {
        self.session.connection_id()
    }

    /// The server's version, as it reported it.
    pub fn version(&self) -> &[u8]
        ensures { result.now ≡ self.now.seen.stand.facts.version }
    {
        self.session.version()
    }

    /// The last OK, or the OK that ended a set; none after an ERR.
    pub fn last_ok_packet(&self) -> Option<&OkPacket>
        ensures { option_copied result ≡ self.now.seen.stand.facts.ok }
    {
        self.session.last_ok()
    }

    /// The columns of the rows of a prepared statement, where they are known. None are where it is closed.
    pub fn columns_of(&self, statement: &Statement) -> Option<&SetColumns>
        ensures { option_copied result ≡ known_by statement.now.inner.id self.now.seen }
    {
        self.session.columns_of(statement)
    }

    /// Hands out the tape, where one is kept. None is kept from here on.
    pub fn take_tape(&mut self) -> Option<Tape>
        ensures tape { result ≡ self.old.tape }
        ensures rest { self.new ≡ record self.old { tape = None } }
    {
        self.tape.take()
    }

    /// The moment of calls that wait, in milliseconds, as it was set last.
    pub fn now(&self) -> u64
        ensures { result ≡ self.now.fixed.now }
    {
        self.fixed.now
    }

    /// Sets the moment of calls that wait, in milliseconds.
    pub fn set_now(&mut self, now: u64)
        ensures { self.new ≡ record self.old { fixed = record self.old.fixed { now = now } } }
    {
        self.fixed.now = now;
    }

    /// Whether a pool has handed it out.
    pub fn is_pooled(&self) -> bool
        ensures { result ≡ self.now.fixed.pooled }
    {
        self.fixed.pooled
    }

    /// Sets whether a pool has handed it out.
    pub fn set_pooled(&mut self, on: bool)
        ensures { self.new ≡ record self.old { fixed = record self.old.fixed { pooled = on } } }
    {
        self.fixed.pooled = on;
    }

    /// Whether it is to be reset once a pool has it back: as it was set last, and before that as the options say.
    pub fn reset_flag(&self) -> bool
        ensures { result ≡ self.now.fixed.reset }
    {
        self.fixed.reset
    }

    /// Sets whether it is to be reset once a pool has it back.
    pub fn reset_connection(&mut self, on: bool)
        ensures { self.new ≡ record self.old { fixed = record self.old.fixed { reset = on } } }
    {
        self.fixed.reset = on;
    }
}

impl<L: Link> Conn<L> {
    ghost use Rattle.my_client.specs.Calls.{MayPoll};
    ghost use Rattle.my_conn.specs.Calls.{CallIs};
    ghost use Rattle.my_conn.specs.Cancels.{CancelIs};
    ghost use Rattle.my_conn.specs.Checks.{CheckedIs};

    /// Polls a call of this kind once, at the moment `now`, in milliseconds: `call` begins, or where there is none,
    /// the open one continues.
    pub fn poll_call(
        &mut self,
        alloc: Global,
        kind: CallKind,
        call: Option<Call>,
        now: u64,
    ) -> (After, Met)
        requires { MayPoll kind call self.old.pending }
        ensures { CallIs L.looks now kind call self.old self.new result.1 result.0 }
    {
        if self.lost {
            return (lost_answer(kind), Met::nothing());
        }
        match poll_once(
            alloc,
            &mut self.session,
            &mut self.link,
            &mut self.tape,
            call,
            now,
        ) {
            Ok((after, met)) => {
                self.pending = pending_after(kind, &after);
                (after, met)
            }
            Err(NoMemory) => {
                // It is closed, and what the tape keeps isn't what it did any more.
                self.lost = true;
                drop(self.tape.take());
                self.pending = None;
                (After::Failed(Error::NoMemory), Met::nothing())
            }
        }
    }

    /// Cancels the open call, which is of this kind. It takes no memory.
    pub fn cancel_call(&mut self, kind: CallKind)
        requires { self.old.pending ≡ Some kind }
        ensures { CancelIs self.old self.new }
    {
        let _ = kind;
        if self.lost {
            return;
        }
        cancel_open(&mut self.session, &mut self.tape);
        self.pending = None;
    }

    /// Whether its link is alive, while nothing is expected from it, and what was met. It is dead where bytes were
    /// received that no call read.
    pub fn check(&mut self) -> (CheckStep, Met)
        ensures { CheckedIs L.looks self.old self.new result.1 result.0 }
    {
        if self.session.has_unread() {
            return (CheckStep::Dead, Met::nothing());
        }
        let step = self.link.check();
        (step, met_at(step))
    }
}

impl<L> Conn<L> {
    ghost use Rattle.my_conn.specs.Forgets.{ForgetIs};

    /// Gives the transaction up, where the server has one: it is rolled back before the next command. Nothing is
    /// sent, and nothing is waited for.
    pub fn forget_transaction(&mut self)
        requires { self.old.pending ≡ None }
        ensures { ForgetIs self.old self.new }
    {
        if self.lost {
            return;
        }
        match forget_open(self.alloc, &mut self.session, &mut self.tape) {
            Ok(()) => {}
            Err(NoMemory) => {
                self.lost = true;
                drop(self.tape.take());
            }
        }
    }

    /// Lets the connection go, and returns its link. Nothing is sent.
    pub fn into_link(self) -> L
        ensures { result ≡ self.link }
    {
        let Conn {
            alloc: _,
            session,
            link,
            tape,
            pending: _,
            lost: _,
            fixed: _,
        } = self;
        drop(session);
        drop(tape);
        link
    }

    pub(crate) fn link(&self) -> &L
        ensures { result.now ≡ self.now.link }
    {
        &self.link
    }

    // The open call is given up: the connection is closed, and what it keeps isn't what it did any more.
    pub(crate) fn give_up(&mut self)
        ensures { self.new ≡ record self.old { lost = true; tape = None; pending = None } }
    {
        self.lost = true;
        drop(self.tape.take());
        self.pending = None;
    }
}
