//! What a pool is made with, and what it counts.

ghost use Rattle.std.specs.Prelude.{◌≡◌};
ghost use Rattle.my_pool_core.specs.State.{one_more};
ghost use Rattle.my_pool_core.specs.Events.{no_counts, creation_failed, unestablished, dirty_return, outlived, being_reset, superfluous, kept, cleanup_failed};

/// What a pool is made with.
#[derive(Clone, Copy)]
pub struct Limits {
    /// How many connections there are at most.
    pub max: u64,
    /// How many idle ones stay however long they are idle.
    pub min: u64,
    /// How many idle ones there are at most.
    pub bound: u64,
    /// How long an idle one above `min` stays, in milliseconds.
    pub inactive: u128,
    /// How many requests wait at most, those that were woken with them; None is without a bound. A request that waited
    /// before may wait again above it, so the number in `PollAnswer::Full` may pass it.
    pub waiting: Option<u64>,
}

/// How often each thing happened. A count at the greatest value of its type stays there.
#[derive(Clone, Copy)]
pub struct Counts {
    pub create_failed: u64,
    pub discarded_unestablished_connection: u64,
    pub dirty_connection_return: u64,
    pub discarded_expired_connection: u64,
    pub resetting_connection: u64,
    pub discarded_superfluous_connection: u64,
    pub connection_returned_to_pool: u64,
    pub discarded_error_during_cleanup: u64,
}

/// How many connections and requests are where, and how often each thing happened.
#[derive(Clone, Copy, PartialEq, Eq)]
pub struct Metrics {
    /// Counted connections.
    pub connection_count: u64,
    /// Idle ones.
    pub connections_in_pool: u64,
    /// Leased ones.
    pub connections_in_use: u64,
    /// Waiting requests.
    pub active_wait_requests: u64,
    /// Connections that could not be made or were not good, and those whose request was given up.
    pub create_failed: u64,
    /// Returned ones whose link was closed.
    pub discarded_unestablished_connection: u64,
    /// Returned ones that were to be cleaned.
    pub dirty_connection_return: u64,
    /// Returned ones that were closed, since their time was over or the pool was closed.
    pub discarded_expired_connection: u64,
    /// Returned ones that were reset.
    pub resetting_connection: u64,
    /// Those that were closed, since enough were idle, or the pool was closed after their reset.
    pub discarded_superfluous_connection: u64,
    /// Those that became idle.
    pub connection_returned_to_pool: u64,
    /// Those whose cleaning, reset or close failed.
    pub discarded_error_during_cleanup: u64,
}

/// One more, except at the greatest value of the type.
pub(crate) const fn one_more(n: u64) -> u64
    ensures { result ≡ one_more n }
{
    if n < u64::MAX { n + 1 } else { n }
}

impl Counts {
    /// Nothing happened yet.
    pub(crate) fn new() -> Counts
        ensures { result ≡ no_counts }
    {
        Counts {
            create_failed: 0,
            discarded_unestablished_connection: 0,
            dirty_connection_return: 0,
            discarded_expired_connection: 0,
            resetting_connection: 0,
            discarded_superfluous_connection: 0,
            connection_returned_to_pool: 0,
            discarded_error_during_cleanup: 0,
        }
    }

    /// A connection could not be made, or was not good, or its request was given up.
    pub(crate) fn creation_failed(&mut self)
        ensures { self.new ≡ creation_failed self.old }
    {
        self.create_failed = one_more(self.create_failed);
    }

    /// One whose link is closed was dropped.
    pub(crate) fn unestablished(&mut self)
        ensures { self.new ≡ unestablished self.old }
    {
        self.discarded_unestablished_connection = one_more(self.discarded_unestablished_connection);
    }

    /// One is to be cleaned.
    pub(crate) fn dirty_return(&mut self)
        ensures { self.new ≡ dirty_return self.old }
    {
        self.dirty_connection_return = one_more(self.dirty_connection_return);
    }

    /// One whose time is over, or whose pool is closed, is to be closed.
    pub(crate) fn outlived(&mut self)
        ensures { self.new ≡ outlived self.old }
    {
        self.discarded_expired_connection = one_more(self.discarded_expired_connection);
    }

    /// One is being reset.
    pub(crate) fn being_reset(&mut self)
        ensures { self.new ≡ being_reset self.old }
    {
        self.resetting_connection = one_more(self.resetting_connection);
    }

    /// One too many is to be closed.
    pub(crate) fn superfluous(&mut self)
        ensures { self.new ≡ superfluous self.old }
    {
        self.discarded_superfluous_connection = one_more(self.discarded_superfluous_connection);
    }

    /// One is idle again.
    pub(crate) fn kept(&mut self)
        ensures { self.new ≡ kept self.old }
    {
        self.connection_returned_to_pool = one_more(self.connection_returned_to_pool);
    }

    /// A cleaning, a reset or a close failed.
    pub(crate) fn cleanup_failed(&mut self)
        ensures { self.new ≡ cleanup_failed self.old }
    {
        self.discarded_error_during_cleanup = one_more(self.discarded_error_during_cleanup);
    }
}
