//! The events of a request.

ghost use Rattle.std.specs.Prelude.{◌≡◌, ℕ, ◌+◌, ◌*◌, ◌^◌, ◌≤◌, ◌<◌, false, IsTrue, OnOk, OnErr, IfOk, IfSome, find, length};
ghost use Rattle.my_pool_parts.specs.Lists.{found_is, how_many};
ghost use Rattle.my_pool_parts.specs.Connections.{has_number, is_idle};
ghost use Rattle.my_pool_parts.specs.Requests.{is_waiting};
ghost use Rattle.my_pool_core.specs.Events.{is_at_end, request, request_age, may_poll, poll_request, queued, sought, dialed, may_cancel, cancel, may_settle, ready, let_go, failed};

use super::Core;
use crate::event::PollAnswer;
use my_frame::NoMemory;
use my_pool_parts::{LAST, Ledger, Live, Place, Standing, Uncounted};

/// The request of an age ends where it makes a connection, and else asks again.
fn let_go<C: Ledger>(requests: &mut Live, age: u64, steps: &mut C)
    ensures requests { requests.new ≡ let_go age requests.old }
    ensures cost { (d : ℕ) → length requests.old < 2 ^ d → C.noted steps.new ≤ C.noted steps.old + 3 * d + 2 }
{
    let dials = match requests.find(age) {
        Some(request) => request.is_dialing(),
        None => false,
    };
    if dials {
        requests.end(age, steps);
    } else {
        requests.set_standing(age, Standing::Asks, steps);
    }
}

impl Core {
    /// Whether ages or numbers have reached their last one.
    fn is_at_end(&self) -> bool
        ensures { result ≡ is_at_end self.now }
    {
        self.next_age == LAST
            || self.requests.has_last()
            || LAST - self.connections.next() <= self.requests.count_may_dial() as u64
    }

    /// A connection is asked for; returns the age of the new request.
    ///
    /// Where ages or numbers are at their end the pool is closed, and the request has the last age. Out of
    /// memory, nothing changes.
    pub fn request(&mut self) -> Result<u64, NoMemory>
        ensures ok { OnOk result (self.new ≡ request self.old) }
        ensures age { IfOk result (λ age. age ≡ request_age self.old) }
        ensures err { OnErr result (self.new ≡ self.old) }
    {
        self.request_noting(&mut Uncounted)
    }

    /// The same, where `steps` counts each comparison of two ages: there is none, and at the end of ages or numbers
    /// there are some for each waiting request.
    pub fn request_noting<C: Ledger>(&mut self, steps: &mut C) -> Result<u64, NoMemory>
        ensures ok { OnOk result (self.new ≡ request self.old) }
        ensures age { IfOk result (λ age. age ≡ request_age self.old) }
        ensures err { OnErr result (self.new ≡ self.old) }
        ensures none { is_at_end self.old ≡ false → C.noted steps.new ≤ C.noted steps.old }
        ensures cost { (d : ℕ) → length self.old.requests < 2 ^ d
            → C.noted steps.new ≤ C.noted steps.old + how_many is_waiting self.old.requests * (3 * d + 5) }
    {
        let at_end = self.is_at_end();
        let room = self.requests.len() + 1;
        self.connections.reserve(room)?;
        if at_end {
            self.requests.add_last()?;
            self.requests.wake_all(steps);
            self.spare = self.spare.max(room as u64);
            self.closed = true;
            return Ok(LAST);
        }
        let age = self.next_age;
        let dialers = self.requests.count_may_dial() as u64 + 1;
        self.connections.expect(dialers)?;
        self.requests.add(age)?;
        self.spare = self.spare.max(room as u64);
        self.next_age = age + 1;
        Ok(age)
    }

    /// A polled request waits, or ends where too many do.
    fn queue<C: Ledger>(&mut self, age: u64, steps: &mut C) -> PollAnswer
        requires live { IsTrue (may_poll age self.old) }
        requires open_ { self.old.closed ≡ false }
        ensures state { self.new ≡ (queued age self.old).state }
        ensures answer { result ≡ (queued age self.old).answer }
        ensures cost { (d : ℕ) → length self.old.requests < 2 ^ d → C.noted steps.new ≤ C.noted steps.old + 4 * d + 3 }
    {
        if !self.requests.has_waited(age)
            && let Some(limit) = self.limits.waiting
        {
            let waiting = self.requests.count_queued() as u64;
            if limit <= waiting {
                self.requests.end(age, steps);
                return PollAnswer::Full { waiting, limit };
            }
        }
        self.requests.set_waiting(age, steps);
        PollAnswer::Wait
    }

    /// A polled request makes the next connection.
    fn dial<C: Ledger>(&mut self, age: u64, steps: &mut C) -> PollAnswer
        requires live { IsTrue (may_poll age self.old) }
        requires open_ { self.old.closed ≡ false }
        requires few { length self.old.connections < self.old.limits.max }
        ensures state { self.new ≡ (dialed age self.old).state }
        ensures answer { result ≡ (dialed age self.old).answer }
        ensures cost { (d : ℕ) → length self.old.requests < 2 ^ d → C.noted steps.new ≤ C.noted steps.old + 3 * d + 2 }
    {
        let number = self.connections.add();
        self.requests
            .set_standing(age, Standing::Dials(number), steps);
        self.spare -= 1;
        PollAnswer::Dial(number)
    }

    /// A polled request looks for a connection, where this is the latest usable idle one.
    fn seek<C: Ledger>(&mut self, age: u64, latest: Option<u64>, steps: &mut C) -> PollAnswer
        requires live { IsTrue (may_poll age self.old) }
        requires open_ { self.old.closed ≡ false }
        requires idle { IfSome latest (λ n. IsTrue (found_is is_idle (find (has_number n) self.old.connections))) }
        ensures state { self.new ≡ (sought age latest self.old).state }
        ensures answer { result ≡ (sought age latest self.old).answer }
        ensures cost { (d : ℕ) → length self.old.requests < 2 ^ d → C.noted steps.new ≤ C.noted steps.old + 4 * d + 3 }
    {
        if let Some(number) = latest {
            self.connections.move_to(number, Place::Checking);
            self.requests
                .set_standing(age, Standing::Checks(number), steps);
            return PollAnswer::Take(number);
        }
        if (self.connections.len() as u64) < self.limits.max {
            self.dial(age, steps)
        } else {
            self.queue(age, steps)
        }
    }

    /// A request is polled at a moment.
    pub fn poll_request(&mut self, age: u64, now: u64) -> PollAnswer
        requires { IsTrue (may_poll age self.old) }
        ensures state { self.new ≡ (poll_request age now self.old).state }
        ensures answer { result ≡ (poll_request age now self.old).answer }
    {
        self.poll_request_noting(age, now, &mut Uncounted)
    }

    /// The same, where `steps` counts each comparison of two ages.
    pub fn poll_request_noting<C: Ledger>(
        &mut self,
        age: u64,
        now: u64,
        steps: &mut C,
    ) -> PollAnswer
        requires { IsTrue (may_poll age self.old) }
        ensures state { self.new ≡ (poll_request age now self.old).state }
        ensures answer { result ≡ (poll_request age now self.old).answer }
        ensures cost { (d : ℕ) → length self.old.requests < 2 ^ d → C.noted steps.new ≤ C.noted steps.old + 4 * d + 4 }
    {
        if self.closed {
            self.requests.end(age, steps);
            return PollAnswer::Closed;
        }
        if self.requests.waits_up_to(age, steps) {
            return self.queue(age, steps);
        }
        let latest = self.connections.retire(now);
        self.seek(age, latest, steps)
    }

    /// A request is given up: one that was woken wakes the next, and one with a connection frees it.
    pub fn cancel(&mut self, age: u64)
        requires { IsTrue (may_cancel age self.old) }
        ensures { self.new ≡ cancel age self.old }
    {
        self.cancel_noting(age, &mut Uncounted);
    }

    /// The same, where `steps` counts each comparison of two ages.
    pub fn cancel_noting<C: Ledger>(&mut self, age: u64, steps: &mut C)
        requires { IsTrue (may_cancel age self.old) }
        ensures state { self.new ≡ cancel age self.old }
        ensures cost { (d : ℕ) → length self.old.requests < 2 ^ d → C.noted steps.new ≤ C.noted steps.old + 7 * d + 5 }
    {
        let Some(request) = self.requests.find(age) else {
            return;
        };
        self.requests.end(age, steps);
        match request.standing {
            Standing::Asks | Standing::Waits => {}
            Standing::Woken => self.requests.wake(steps),
            Standing::Dials(number) | Standing::Checks(number) => {
                self.connections.take_out(number);
                self.spare += 1;
                self.requests.wake(steps);
                self.counts.creation_failed();
            }
        }
    }

    /// A request's connection is good: it is leased, and the request ends.
    pub fn ready(&mut self, age: u64, conn: u64)
        requires { IsTrue (may_settle age conn self.old) }
        ensures { self.new ≡ ready age conn self.old }
    {
        self.ready_noting(age, conn, &mut Uncounted);
    }

    /// The same, where `steps` counts each comparison of two ages.
    pub fn ready_noting<C: Ledger>(&mut self, age: u64, conn: u64, steps: &mut C)
        requires { IsTrue (may_settle age conn self.old) }
        ensures state { self.new ≡ ready age conn self.old }
        ensures cost { (d : ℕ) → length self.old.requests < 2 ^ d → C.noted steps.new ≤ C.noted steps.old + 3 * d + 2 }
    {
        self.connections.move_to(conn, Place::Leased);
        self.requests.end(age, steps);
    }

    /// A request's connection isn't good: it is freed. A request that was making it ends, one that was checking it
    /// has no connection again.
    pub fn failed(&mut self, age: u64, conn: u64)
        requires { IsTrue (may_settle age conn self.old) }
        ensures { self.new ≡ failed age conn self.old }
    {
        self.failed_noting(age, conn, &mut Uncounted);
    }

    /// The same, where `steps` counts each comparison of two ages.
    pub fn failed_noting<C: Ledger>(&mut self, age: u64, conn: u64, steps: &mut C)
        requires { IsTrue (may_settle age conn self.old) }
        ensures state { self.new ≡ failed age conn self.old }
        ensures cost { (d : ℕ) → length self.old.requests < 2 ^ d → C.noted steps.new ≤ C.noted steps.old + 7 * d + 5 }
    {
        let_go(&mut self.requests, age, steps);
        self.connections.take_out(conn);
        self.spare += 1;
        self.requests.wake(steps);
        self.counts.creation_failed();
    }
}
