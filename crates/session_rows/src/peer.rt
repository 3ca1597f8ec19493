//! What the rows ask of a session.

use crate::given::{Then, add_digits};
use my_frame::NoMemory;
use my_opts::Opts;
use my_reading::{Call, Error};
use my_session::{LinkFault, Session, SessionStep};
use my_statements::Statement;
use std::alloc::{AllocError, Global};

/// What the rows ask of a session. A method has no effect where it may not be called.
pub trait Peer: Sized + Drop {
    /// A session over a local socket, which ends at the moment 900.
    fn made(alloc: Global, opts: Opts) -> Result<Self, NoMemory>;

    /// Whether a call of this kind was begun.
    fn begins(&mut self, call: Call) -> Result<bool, Error>;

    /// The next step of the open call; none where no call is open.
    fn steps(&mut self, alloc: Global, now: u64) -> Option<SessionStep>;

    /// Sends what is owed, and adds its digits, where it should.
    fn sends(&mut self, text: &mut String) -> Result<(), AllocError>;

    /// The bytes that are owed.
    fn owes(&self) -> &[u8];

    /// These bytes were received.
    fn receives(&mut self, bytes: &[u8]) -> Result<(), NoMemory>;

    /// No more bytes come. Whether the call is still open.
    fn stops(&mut self, then: Then) -> bool;

    /// The longest payload, and the seconds after which the server ends the connection.
    fn settings(&self) -> (u64, u64);

    /// How many columns are known of a statement's rows.
    fn columns(&self, statement: &Statement) -> Option<usize>;

    /// The user of the options in force.
    fn user(&self) -> Option<&str>;

    /// The moment of the last payload.
    fn read_at(&self) -> u64;

    /// Whether it is what it was made as, and nothing is left of earlier calls.
    fn is_plain(&self) -> bool;

    /// The buffer of its reads, lent and taken back, with this byte in front, and the byte that was there.
    fn lends(&mut self, alloc: Global, byte: u8) -> Result<(usize, u8), NoMemory>;
}

impl Peer for Session {
    fn made(alloc: Global, opts: Opts) -> Result<Session, NoMemory> {
        Session::new(alloc, opts, true, Some(900))
    }

    fn begins(&mut self, call: Call) -> Result<bool, Error> {
        if self.is_open() || !self.may_begin(call.kind()) {
            drop(call);
            return Ok(false);
        }
        self.begin(call)?;
        Ok(true)
    }

    fn steps(&mut self, alloc: Global, now: u64) -> Option<SessionStep> {
        if !self.is_open() {
            return None;
        }
        Some(self.step(alloc, now))
    }

    fn sends(&mut self, text: &mut String) -> Result<(), AllocError> {
        let added = add_digits(text, self.owed());
        let count = self.owed().len();
        self.sent(count);
        added
    }

    fn owes(&self) -> &[u8] {
        self.owed()
    }

    fn receives(&mut self, bytes: &[u8]) -> Result<(), NoMemory> {
        self.take(bytes)
    }

    fn stops(&mut self, then: Then) -> bool {
        if !self.is_open() {
            return false;
        }
        match then {
            Then::Cancels => self.cancel(),
            Then::Fails => self.fail(LinkFault::Link),
            Then::Ends => self.end(),
        }
        self.is_open()
    }

    fn settings(&self) -> (u64, u64) {
        (self.limit(), self.wait_timeout())
    }

    fn columns(&self, statement: &Statement) -> Option<usize> {
        match self.columns_of(statement) {
            None => None,
            Some(columns) => Some(columns.len()),
        }
    }

    fn user(&self) -> Option<&str> {
        self.opts().user()
    }

    fn read_at(&self) -> u64 {
        self.last_io()
    }

    fn is_plain(&self) -> bool {
        self.is_socket()
            && self.deadline() == Some(900)
            && !self.is_open()
            && !self.is_closed()
            && !self.has_unread()
            && !self.is_taken()
            && !self.is_dirty()
            && self.connection_id() == 7
            && self.version() == b"8.0.36".as_slice()
            && self.last_ok().is_some()
    }

    fn lends(&mut self, alloc: Global, byte: u8) -> Result<(usize, u8), NoMemory> {
        let mut buffer = self.lend_buffer(alloc)?;
        let was = buffer[0];
        buffer[0] = byte;
        let count = buffer.len();
        self.keep_buffer(buffer);
        Ok((count, was))
    }
}
