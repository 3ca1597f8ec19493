//! A session: its state, and the calls by which a caller begins a call, carries its bytes, and ends it early.

ghost use Rattle.std.specs.Prelude.{◌≡◌, ◌≤◌, ◌↔◌, ◌||◌, ◌==◌, not, length, true, false, OnOk, OnErr, IfOk, IfErr, IsErr, None, Some, is_none};
ghost use Rattle.my_reading.specs.Calls.{kind_of};
ghost use Rattle.my_reading.specs.Errors.{connection_closed};
ghost use Rattle.my_session.specs.Begins.{is_greeted, is_settled};

mod facts;
mod lending;
mod stepping;
mod unread;

use crate::answer::LinkFault;
use crate::login::login_for;
use crate::opened::Opened;
use lending::is_full;
use my_frame::NoMemory;
use my_grammar::{Login, Spot};
use my_machine::{Stand, closes_at, is_unrefused};
use my_opts::Opts;
use my_reading::{Call, CallKind, DriverError, Error};
use std::alloc::Global;
use std::marker::Model;
use std::mem;

/// One connection to a server, with no input or output of its own: a caller begins a call, sends what is owed, hands in what is
/// received, and steps the call until it is answered.
#[derive(Drop)]
pub struct Session {
    login: Login,
    // Where the reading of the connection stands.
    stand: Stand,
    // The open call.
    opened: Option<Opened>,
    closed: bool,
    // Whether the link reported its end.
    ended: bool,
    // The fault by which the open call fails at its next step.
    fault: Option<LinkFault>,
    // The options in force: those that it was made with, as each change of user changed them.
    opts: Opts,
    is_socket: bool,
    // The moment at which the connection ends, where it has one.
    deadline: Option<u128>,
    // The moment of the last whole payload.
    last_io: u64,
    // What the caller's reads of the link read into, between them.
    buffer: Vec<u8>,
    // Whether a read filled it.
    is_busy: bool,
}

// Whether a connected session rests there between calls.
fn is_settled(spot: Spot) -> bool
    ensures { result ≡ is_settled spot }
{
    match spot {
        Spot::Idle | Spot::Further | Spot::Rows => true,
        _ => false,
    }
}

// Whether the greeting was read.
fn is_greeted(spot: Spot) -> bool
    ensures { result ≡ is_greeted spot }
{
    match spot {
        Spot::Greeting(_) => false,
        _ => true,
    }
}

impl Model for Session {
    ghost use Rattle.my_session.specs.View.{View};

    ghost Value = { View };

    ghost use Rattle.my_session.specs.Session.{IsAlive, lifetime, seen};

    ghost view = { λ s. record { seen = seen s; lifetime = lifetime s } };

    ghost invariant = { IsAlive };
}

impl Session {
    ghost use Rattle.my_session.specs.Login.{login_of};
    ghost use Rattle.my_session.specs.View.{first_lifetime};
    ghost use Rattle.my_session.specs.declared.opened.Opened.{Opened};
    ghost use Rattle.my_session.specs.Sessions.{IsBegun, begun, closes_at, ended_by, is_refused, lost, may_begin, owed_by, with_sent, with_taken};

    /// A session that awaits the server's greeting, over a link that is a local socket or isn't. A connection ends at its
    /// deadline, in milliseconds, where it has one; the session itself continues.
    pub fn new(
        alloc: Global,
        opts: Opts,
        is_socket: bool,
        deadline: Option<u128>,
    ) -> Result<Session, NoMemory>
        ensures begun { IfOk result (λ s. IsBegun (login_of opts) s.seen) }
        ensures lifetime { IfOk result (λ s. s.lifetime ≡ first_lifetime opts is_socket deadline) }
    {
        let login = match login_for(alloc, &opts) {
            Ok(login) => login,
            Err(NoMemory) => {
                drop(opts);
                return Err(NoMemory);
            }
        };
        let stand = match Stand::first(alloc, &login) {
            Ok(stand) => stand,
            Err(NoMemory) => {
                drop(opts);
                drop(login);
                return Err(NoMemory);
            }
        };
        Ok(Session {
            login,
            stand,
            opened: None,
            closed: false,
            ended: false,
            fault: None,
            opts,
            is_socket,
            deadline,
            last_io: 0,
            buffer: Vec::new(alloc),
            is_busy: false,
        })
    }

    /// Begins a call. A closed session refuses each but `Quit` and `ForgetTransaction`.
    pub fn begin(&mut self, call: Call) -> Result<(), Error>
        requires idle { self.old.seen.opened ≡ None }
        ensures ok { OnOk result (self.new.seen ≡ begun call self.old.seen) }
        ensures err { OnErr result (self.new.seen ≡ self.old.seen) }
        ensures why { IfErr result (λ e. e ≡ connection_closed) }
        ensures refused { IsErr result ↔ (is_refused self.old.seen.closed (kind_of call) ≡ true) }
        ensures lifetime { self.new.lifetime ≡ self.old.lifetime }
    {
        if self.closed && !is_unrefused(call.kind()) {
            drop(call);
            return Err(Error::Driver(DriverError::ConnectionClosed));
        }
        drop(mem::replace(&mut self.opened, Some(Opened::first(call))));
        self.fault = None;
        Ok(())
    }

    /// Whether a call is open.
    pub fn is_open(&self) -> bool
        ensures value { result ≡ not (is_none self.now.seen.opened) }
        ensures idle { result ≡ false → self.now.seen.opened ≡ None }
    {
        match self.opened {
            Some(_) => true,
            None => false,
        }
    }

    /// Whether the session is closed.
    pub fn is_closed(&self) -> bool
        ensures { result ≡ self.now.seen.closed }
    {
        self.closed
    }

    /// Whether a call of this kind may begin: on an open session Connect before the greeting, and each other
    /// one once it is connected and no answer is awaited.
    pub fn may_begin(&self, call: CallKind) -> bool
        ensures { result ≡ may_begin call self.now.seen }
    {
        if self.closed {
            return true;
        }
        match call {
            CallKind::Connect => !is_greeted(self.stand.context.spot),
            _ => is_settled(self.stand.context.spot),
        }
    }

    /// The bytes that are to be sent: none on a closed session.
    pub fn owed(&self) -> &[u8]
        ensures { result.now ≡ owed_by self.now.seen }
    {
        if self.closed {
            return &[];
        }
        self.stand.owed.as_slice()
    }

    /// Whether bytes were received that weren't read.
    pub fn has_unread(&self) -> bool
        ensures { result ≡ not (length self.now.seen.stand.unread == 0) }
    {
        !self.stand.unread.is_empty()
    }

    /// `count` of the bytes owed were sent.
    pub fn sent(&mut self, count: usize)
        requires { count ≤ length (owed_by self.old.seen) }
        ensures seen { self.new.seen ≡ with_sent count self.old.seen }
        ensures lifetime { self.new.lifetime ≡ self.old.lifetime }
    {
        if !self.closed {
            self.stand.sent(count);
        }
    }

    /// These bytes were received. Out of memory, the open call fails; where none is open, the session is closed.
    pub fn take(&mut self, bytes: &[u8]) -> Result<(), NoMemory>
        ensures ok { OnOk result (self.new.seen ≡ with_taken bytes.now self.old.seen) }
        ensures err { OnErr result (self.new.seen ≡ lost self.old.seen) }
        ensures lifetime { self.new.lifetime ≡ self.old.lifetime }
    {
        self.is_busy = self.is_busy || is_full(bytes);
        match self.stand.take(bytes) {
            Ok(()) => Ok(()),
            Err(NoMemory) => {
                match self.opened {
                    Some(_) => self.fault = Some(LinkFault::NoMemory),
                    None => self.closed = true,
                }
                Err(NoMemory)
            }
        }
    }

    /// The link reported its end.
    pub fn end(&mut self)
        ensures seen { self.new.seen ≡ record self.old.seen { ended = true } }
        ensures lifetime { self.new.lifetime ≡ self.old.lifetime }
    {
        self.ended = true;
    }

    /// The open call fails by this fault of its link: that is its next step, and the session is closed then. Where no call is
    /// open it has no effect, since a call begins without a fault.
    pub fn fail(&mut self, fault: LinkFault)
        ensures seen { self.new.seen ≡ record self.old.seen { fault = Some fault } }
        ensures lifetime { self.new.lifetime ≡ self.old.lifetime }
    {
        self.fault = Some(fault);
    }

    // The open call ends, and the session is closed or isn't.
    fn end_call(&mut self, closes: bool)
        requires { self.old.seen.closed ≡ true → closes ≡ true }
        ensures seen { self.new.seen ≡ ended_by closes self.old.seen }
        ensures lifetime { self.new.lifetime ≡ self.old.lifetime }
    {
        self.opened = None;
        self.closed = closes;
    }

    /// The open call is cancelled, where one is. No byte that was received is lost. A call that sends commands closes the
    /// session; one that reads or passes over sets closes it where the head of a further set is awaited.
    pub fn cancel(&mut self)
        ensures cancelled { let s = self.old.seen in (o : Opened) → s.opened ≡ Some o
            → self.new.seen ≡ ended_by (s.closed || closes_at (kind_of o.call) s.stand.context.spot) s }
        ensures idle { self.old.seen.opened ≡ None → self.new.seen ≡ self.old.seen }
        ensures lifetime { self.new.lifetime ≡ self.old.lifetime }
    {
        let closes = match &self.opened {
            None => return,
            Some(open) => closes_at(open.call.kind(), self.stand.context.spot),
        };
        self.end_call(self.closed || closes);
    }
}
