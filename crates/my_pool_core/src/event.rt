//! The events of a pool, and what they return.

ghost use Rattle.std.specs.Prelude.{◌≡◌};
ghost use Rattle.my_pool_core.specs.Events.{times_of};

use my_pool_parts::Times;

/// What is known of a connection whose cleaning, or whose reset, is to be decided on.
#[derive(Clone, Copy)]
pub struct Facts {
    /// Its session or link is closed.
    pub link_closed: bool,
    /// Something of a result is unread, or a transaction is open.
    pub dirty: bool,
    /// Its time is over.
    pub expired: bool,
    /// Its session is to be reset before it is kept.
    pub reset: bool,
    /// The moment of its last read.
    pub last_io: u64,
    /// How long it may be used after its last read; 0 is without an end.
    pub ttl: u128,
    /// The moment up to which it may be used.
    pub deadline: Option<u128>,
}

impl Facts {
    /// The times of a connection that is idle from now on.
    pub(crate) fn idle_since(&self, now: u64) -> Times
        ensures { result ≡ times_of self.now now }
    {
        Times {
            since: now,
            deadline: self.deadline,
            last_io: self.last_io,
            ttl: self.ttl,
        }
    }
}

/// What a polled request is to do.
#[derive(Clone, Copy, PartialEq, Eq)]
pub enum PollAnswer {
    /// It waits.
    Wait,
    /// It has this connection, and checks whether it is still alive.
    Take(u64),
    /// It has this number, and makes the connection.
    Dial(u64),
    /// The pool is closed; the request has ended.
    Closed,
    /// As many requests wait as may, or more; the request has ended.
    Full { waiting: u64, limit: u64 },
}

/// What is to be done with a connection that came back.
#[derive(Clone, Copy, PartialEq, Eq)]
pub enum Verdict {
    /// It is no longer counted.
    Drop,
    /// What is left of its last use is read, and then it is decided anew.
    Clean,
    /// It is closed.
    Close,
    /// Its session is reset.
    Reset,
    /// It is idle.
    Keep,
}

/// An event of a pool.
#[derive(Clone, Copy)]
pub enum PoolEvent {
    /// A connection is asked for.
    Request,
    /// A request looks for a connection.
    PollRequest {
        age: u64,
        now: u64,
    },
    /// A request is given up.
    Cancel {
        age: u64,
    },
    /// A request's connection is good, and is leased.
    Ready {
        age: u64,
        conn: u64,
    },
    /// A request's connection isn't.
    Failed {
        age: u64,
        conn: u64,
    },
    /// A connection comes back.
    GiveBack {
        conn: u64,
    },
    /// A connection is taken out of the pool for good.
    Detach {
        conn: u64,
    },
    /// The next connection is to be cleaned.
    TakeReturned,
    /// What is to be done with a connection that is being cleaned.
    Decide {
        conn: u64,
        facts: Facts,
        now: u64,
    },
    /// A reset, a close or a cleaning came to its end.
    Done {
        conn: u64,
        ok: bool,
        facts: Facts,
        now: u64,
    },
    /// Idle connections are looked through.
    CheckTtl {
        now: u64,
    },
    /// The pool is closed.
    Close,
    /// It is asked whether the pool is gone.
    PollDisconnect,
}

/// What an event returns.
#[derive(Clone, Copy, PartialEq, Eq)]
pub enum Answer {
    /// Nothing.
    Done,
    /// To `Request`: the new request's age.
    Age(u64),
    /// To `PollRequest`.
    Poll(PollAnswer),
    /// To `TakeReturned`: the number of the connection.
    Returned(Option<u64>),
    /// To `Decide` and `Done`.
    Verdict(Verdict),
    /// To `CheckTtl`: how many were moved.
    Moved(u64),
    /// To `PollDisconnect`: whether it is gone.
    Gone(bool),
}
