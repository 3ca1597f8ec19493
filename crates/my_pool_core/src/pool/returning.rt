//! The events of a connection that is leased or came back.

ghost use Rattle.std.specs.Prelude.{◌≡◌, ℕ, ◌+◌, ◌*◌, ◌^◌, ◌≤◌, ◌<◌, IsTrue, length};
ghost use Rattle.my_pool_core.specs.Events.{may_move, freed, may_give_back, give_back, detach, take_returned, may_decide, keep, decide, may_done, done};

use super::Core;
use crate::event::{Facts, Verdict};
use my_pool_parts::{Ledger, Place, PlaceKind, Uncounted};

impl Core {
    /// A leased connection comes back.
    pub fn give_back(&mut self, conn: u64)
        requires { IsTrue (may_give_back conn self.old) }
        ensures { self.new ≡ give_back conn self.old }
    {
        self.connections
            .move_to(conn, Place::Returned { marked: false });
    }

    /// A connection that no request holds is no longer counted, and the oldest waiting request is woken.
    fn free<C: Ledger>(&mut self, conn: u64, steps: &mut C)
        requires { IsTrue (may_move conn self.old) }
        ensures state { self.new ≡ freed conn self.old.requests self.old }
        ensures cost { (d : ℕ) → length self.old.requests < 2 ^ d → C.noted steps.new ≤ C.noted steps.old + 3 * d + 2 }
    {
        self.connections.take_out(conn);
        self.spare += 1;
        self.requests.wake(steps);
    }

    /// A leased connection is taken out of the pool for good.
    pub fn detach(&mut self, conn: u64)
        requires { IsTrue (may_give_back conn self.old) }
        ensures { self.new ≡ detach conn self.old }
    {
        self.detach_noting(conn, &mut Uncounted);
    }

    /// The same, where `steps` counts each comparison of two ages.
    pub fn detach_noting<C: Ledger>(&mut self, conn: u64, steps: &mut C)
        requires { IsTrue (may_give_back conn self.old) }
        ensures state { self.new ≡ detach conn self.old }
        ensures cost { (d : ℕ) → length self.old.requests < 2 ^ d → C.noted steps.new ≤ C.noted steps.old + 3 * d + 2 }
    {
        self.free(conn, steps);
    }

    /// The next connection to be cleaned: the one that returned first, or where the pool is closed and none is returned
    /// the one that is idle longest.
    ///
    /// Where there is none and a closed pool counts none, the pool is seen to be gone.
    pub fn take_returned(&mut self) -> Option<u64>
        ensures state { self.new ≡ (take_returned self.old).state }
        ensures answer { result ≡ (take_returned self.old).answer }
    {
        match self.connections.next_to_clean(self.closed) {
            Some(next) => {
                let marked = next.place.mark();
                self.connections
                    .move_to(next.number, Place::Cleaning { marked });
                Some(next.number)
            }
            None => {
                self.settled = self.settled || (self.closed && self.connections.len() == 0);
                None
            }
        }
    }

    /// A connection is kept, unless enough are idle.
    fn keep<C: Ledger>(&mut self, conn: u64, facts: Facts, now: u64, steps: &mut C) -> Verdict
        requires { IsTrue (may_move conn self.old) }
        ensures state { self.new ≡ (keep conn facts now self.old).state }
        ensures answer { result ≡ (keep conn facts now self.old).answer }
        ensures cost { (d : ℕ) → length self.old.requests < 2 ^ d → C.noted steps.new ≤ C.noted steps.old + 3 * d + 2 }
    {
        if self.limits.bound <= self.connections.count_idle() as u64 {
            self.connections.move_to(conn, Place::Closing);
            self.counts.superfluous();
            return Verdict::Close;
        }
        self.connections
            .move_to(conn, Place::Idle(facts.idle_since(now)));
        self.requests.wake(steps);
        self.counts.kept();
        Verdict::Keep
    }

    /// What is to be done with a connection that is being cleaned.
    pub fn decide(&mut self, conn: u64, facts: Facts, now: u64) -> Verdict
        requires { IsTrue (may_decide conn self.old) }
        ensures state { self.new ≡ (decide conn facts now self.old).state }
        ensures answer { result ≡ (decide conn facts now self.old).answer }
    {
        self.decide_noting(conn, facts, now, &mut Uncounted)
    }

    /// The same, where `steps` counts each comparison of two ages.
    pub fn decide_noting<C: Ledger>(
        &mut self,
        conn: u64,
        facts: Facts,
        now: u64,
        steps: &mut C,
    ) -> Verdict
        requires { IsTrue (may_decide conn self.old) }
        ensures state { self.new ≡ (decide conn facts now self.old).state }
        ensures answer { result ≡ (decide conn facts now self.old).answer }
        ensures cost { (d : ℕ) → length self.old.requests < 2 ^ d → C.noted steps.new ≤ C.noted steps.old + 3 * d + 2 }
    {
        if facts.link_closed {
            self.counts.unestablished();
            self.free(conn, steps);
            return Verdict::Drop;
        }
        if facts.dirty {
            self.counts.dirty_return();
            return Verdict::Clean;
        }
        if facts.expired || self.connections.is_marked(conn) || self.closed {
            self.connections.move_to(conn, Place::Closing);
            self.counts.outlived();
            return Verdict::Close;
        }
        if facts.reset {
            self.connections.move_to(conn, Place::Resetting);
            self.counts.being_reset();
            return Verdict::Reset;
        }
        self.keep(conn, facts, now, steps)
    }

    /// A reset, a close, or a cleaning that failed came to its end.
    pub fn done(&mut self, conn: u64, ok: bool, facts: Facts, now: u64) -> Verdict
        requires { IsTrue (may_done conn ok self.old) }
        ensures state { self.new ≡ (done conn ok facts now self.old).state }
        ensures answer { result ≡ (done conn ok facts now self.old).answer }
    {
        self.done_noting(conn, ok, facts, now, &mut Uncounted)
    }

    /// The same, where `steps` counts each comparison of two ages.
    pub fn done_noting<C: Ledger>(
        &mut self,
        conn: u64,
        ok: bool,
        facts: Facts,
        now: u64,
        steps: &mut C,
    ) -> Verdict
        requires { IsTrue (may_done conn ok self.old) }
        ensures state { self.new ≡ (done conn ok facts now self.old).state }
        ensures answer { result ≡ (done conn ok facts now self.old).answer }
        ensures cost { (d : ℕ) → length self.old.requests < 2 ^ d → C.noted steps.new ≤ C.noted steps.old + 3 * d + 2 }
    {
        if ok && self.connections.is_at(conn, PlaceKind::Resetting) {
            if self.closed {
                self.connections.move_to(conn, Place::Closing);
                self.counts.superfluous();
                return Verdict::Close;
            }
            return self.keep(conn, facts, now, steps);
        }
        if !ok {
            self.counts.cleanup_failed();
        }
        self.free(conn, steps);
        Verdict::Drop
    }
}
