//! The events of the whole pool, and its counts.

ghost use Rattle.std.specs.Prelude.{◌≡◌, ℕ, ◌+◌, ◌*◌, ◌^◌, ◌≤◌, ◌<◌, length};
ghost use Rattle.my_pool_parts.specs.Lists.{how_many};
ghost use Rattle.my_pool_parts.specs.Requests.{is_waiting};
ghost use Rattle.my_pool_core.specs.Events.{check_ttl, check_ttl_moved, close, is_gone};
ghost use Rattle.my_pool_core.specs.Seen.{metrics_of};

use super::Core;
use crate::limits::Metrics;
use my_pool_parts::{Ledger, Uncounted};

impl Core {
    /// Idle connections whose time is over are marked and returned; returns how many.
    ///
    /// Each past its deadline is, and while more are idle than the lower bound asks for, each that was idle for too
    /// long.
    pub fn check_ttl(&mut self, now: u64) -> u64
        ensures state { self.new ≡ check_ttl now self.old }
        ensures moved { result ≡ check_ttl_moved now self.old }
    {
        let min = self.limits.min;
        let idle = self.connections.count_idle() as u64;
        let many = idle.saturating_sub(min) as usize;
        self.connections.sweep(now, self.limits.inactive, many) as u64
    }

    /// The pool is closed, and each waiting request is woken.
    pub fn close(&mut self)
        ensures { self.new ≡ close self.old }
    {
        self.close_noting(&mut Uncounted);
    }

    /// The same, where `steps` counts each comparison of two ages: there are some for each waiting request.
    pub fn close_noting<C: Ledger>(&mut self, steps: &mut C)
        ensures state { self.new ≡ close self.old }
        ensures cost { (d : ℕ) → length self.old.requests < 2 ^ d
            → C.noted steps.new ≤ C.noted steps.old + how_many is_waiting self.old.requests * (3 * d + 2) }
    {
        self.closed = true;
        self.requests.wake_all(steps);
    }

    /// Whether the pool is closed, counts nothing, and was seen to count nothing by `take_returned`.
    pub fn poll_disconnect(&self) -> bool
        ensures { result ≡ is_gone self.now }
    {
        self.closed && self.connections.len() == 0 && self.settled
    }

    /// How many connections and requests are where, and how often each thing happened.
    pub fn metrics(&self) -> Metrics
        ensures { result ≡ metrics_of self.now }
    {
        Metrics {
            connection_count: self.connections.len() as u64,
            connections_in_pool: self.connections.count_idle() as u64,
            connections_in_use: self.connections.count_leased() as u64,
            active_wait_requests: self.requests.count_waiting() as u64,
            create_failed: self.counts.create_failed,
            discarded_unestablished_connection: self.counts.discarded_unestablished_connection,
            dirty_connection_return: self.counts.dirty_connection_return,
            discarded_expired_connection: self.counts.discarded_expired_connection,
            resetting_connection: self.counts.resetting_connection,
            discarded_superfluous_connection: self.counts.discarded_superfluous_connection,
            connection_returned_to_pool: self.counts.connection_returned_to_pool,
            discarded_error_during_cleanup: self.counts.discarded_error_during_cleanup,
        }
    }
}
