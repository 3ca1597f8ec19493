//! What a caller has of a pool. A request and a lease can't be dropped: each ends by a call of its pool.

ghost use Rattle.std.specs.Prelude.{◌≡◌, true, Some};
ghost use Rattle.my_pool_core.specs.Owners.{is_lease, token};
ghost use Rattle.my_pool_requests.specs.Stages.{left_in, token_in};

use crate::boxed::BoxedMaking;
use my_client::Tape;
use my_conn::Conn;
use my_pool::BoxedConn;
use my_pool_core::Core;
use my_pool_parts::{Place, Standing};
use my_pool_store::numbered;
use my_reading::Error;
use std::marker::Model;

/// What a poll of a request is given of chance, and what is to be kept.
#[derive(Clone, Copy)]
pub struct Moment {
    /// The moment, in milliseconds.
    pub now: u64,
    /// Where the options say that a connection ends, it picks among the moments of its end.
    pub random: u64,
    /// Whether a connection that is made keeps all bytes and calls.
    pub keep_tape: bool,
}

/// What a request does.
#[derive(Drop)]
pub(crate) enum Stage<L> {
    /// It has no connection.
    Free,
    /// It dials the link of this number.
    Dials(u64),
    /// It makes the connection of this number.
    Makes(u64, BoxedMaking<L>),
    /// It looks whether this idle connection is still alive.
    Looks(u64, BoxedConn<L>),
}

impl<L: Drop> Stage<L> {
    /// It is let go. The tape of its connection is left, with its number, where it has one.
    pub(crate) fn let_go(self) -> Option<(u64, Tape)>
        ensures { result ≡ left_in self }
    {
        match self {
            Stage::Free | Stage::Dials(_) => None,
            Stage::Makes(number, making) => {
                let mut making = making.into_making();
                let tape = making.take_tape();
                drop(making);
                numbered(number, tape)
            }
            Stage::Looks(number, conn) => {
                let mut conn = conn;
                let tape = conn.take_tape();
                drop(conn);
                numbered(number, tape)
            }
        }
    }
}

/// A request for a connection.
pub struct Asking<L> {
    pub(crate) age: u64,
    pub(crate) stage: Stage<L>,
}

impl<L> Model for Asking<L> {
    ghost use Rattle.my_pool_requests.specs.Stages.{Asked, IsReady};

    ghost Value = { Asked L };

    ghost view = { λ a. record { age = a.age; stage = a.stage } };

    ghost invariant = { λ a. IsReady a.stage };
}

/// What a poll of a request comes to.
pub enum AskTurn<L> {
    /// It isn't done yet.
    Pending(Asking<L>),
    /// It has a connection, which is leased.
    Held(Held<L>),
    /// It has ended: the pool is closed, as many wait as may, or its dial or its connect call failed.
    Failed(Error),
}

/// A leased connection with its number.
pub struct Held<L> {
    pub(crate) number: u64,
    pub(crate) conn: BoxedConn<L>,
}

impl<L> Model for Held<L> {
    ghost use Rattle.my_conn.specs.Conn.{ConnSeen};
    ghost use Rattle.my_pool_store.specs.Shelves.{Entry};

    ghost Value = { Entry (ConnSeen L) };

    ghost view = { λ h. record { number = h.number; conn = h.conn } };
}

/// The lease of a connection that is elsewhere.
pub struct HeldPlace {
    pub(crate) number: u64,
}

impl<L> Asking<L> {
    /// Its age.
    pub fn age(&self) -> u64
        ensures { result ≡ self.now.age }
    {
        self.age
    }

    /// Whether it is live in this core, with the connection that it has or none.
    pub fn is_of(&self, core: &Core) -> bool
        ensures { result ≡ true → token self.now.age core.now ≡ Some (token_in self.now.stage) }
    {
        match core.live_request(self.age) {
            Some(request) => match (&self.stage, request.standing) {
                (Stage::Free, Standing::Asks | Standing::Waits | Standing::Woken) => true,
                (Stage::Dials(number), Standing::Dials(held)) => *number == held,
                (Stage::Makes(number, _), Standing::Dials(held)) => *number == held,
                (Stage::Looks(number, _), Standing::Checks(held)) => *number == held,
                _ => false,
            },
            None => false,
        }
    }
}

impl<L> Held<L> {
    ghost use Rattle.my_pool_store.specs.Shelves.{entry};

    /// The number of the connection.
    pub fn number(&self) -> u64
        ensures { result ≡ self.now.number }
    {
        self.number
    }

    /// The connection.
    pub fn conn(&self) -> &Conn<L>
        ensures { result.now ≡ self.now.conn }
    {
        self.conn.conn()
    }

    /// The connection, apart from its lease.
    pub fn part(self) -> (HeldPlace, BoxedConn<L>)
        ensures number { result.0.number ≡ self.number }
        ensures conn { result.1 ≡ self.conn }
    {
        let Held { number, conn } = self;
        (HeldPlace { number }, conn)
    }
}

impl HeldPlace {
    ghost use Rattle.my_pool_store.specs.Shelves.{entry};

    /// The lease with a connection in it again.
    pub fn join<L>(self, conn: BoxedConn<L>) -> Held<L>
        ensures { result ≡ entry self.number conn }
    {
        let HeldPlace { number } = self;
        Held { number, conn }
    }
}

/// Whether the connection of a number is leased.
pub(crate) fn is_leased(core: &Core, number: u64) -> bool
    ensures { result ≡ true → is_lease number core.now ≡ true }
{
    match core.connection(number) {
        Some(connection) => matches!(connection.place, Place::Leased),
        None => false,
    }
}

impl<L> Held<L> {
    /// Whether its connection is leased in this core.
    pub fn is_of(&self, core: &Core) -> bool
        ensures { result ≡ true → is_lease self.now.number core.now ≡ true }
    {
        is_leased(core, self.number)
    }
}
