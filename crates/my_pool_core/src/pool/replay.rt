//! Any event, whichever it is: so a list of events is replayed by a loop.

ghost use Rattle.std.specs.Prelude.{◌≡◌, true, false, IsOk, OnOk, OnErr, IfOk, IfSome, MatchOption, find};
ghost use Rattle.my_pool_core.specs.Events.{new_pool, may_finish};
ghost use Rattle.my_pool_core.specs.Made.{limits_of};
ghost use Rattle.my_pool_parts.specs.Connections.{has_number};
ghost use Rattle.my_pool_parts.specs.Lists.{found_is};
ghost use Rattle.my_pool_core.specs.Steps.{may, step, answer, AllMay, after};

use super::Core;
use crate::event::{Answer, PoolEvent};
use my_frame::NoMemory;
use my_opts_parts::PoolOpts;
use my_pool_parts::{Connections, PlaceKind};
use std::alloc::Global;

/// Whether the connection of a number is being reset or closed, or its cleaning failed.
fn is_finishing(connections: &Connections, number: u64, ok: bool) -> bool
    ensures { result ≡ found_is (may_finish ok) (find (has_number number) connections.now.list) }
{
    match connections.find(number) {
        Some(connection) => {
            let place = connection.place;
            place.is(PlaceKind::Resetting)
                || place.is(PlaceKind::Closing)
                || (place.is(PlaceKind::Cleaning) && !ok)
        }
        None => false,
    }
}

impl Core {
    /// Whether an event may happen: what the method of that event asks for.
    pub fn may(&self, event: &PoolEvent) -> bool
        ensures { result ≡ may self.now event.now }
    {
        match *event {
            PoolEvent::PollRequest { age, .. } => self.requests.is_free(age),
            PoolEvent::Cancel { age } => self.requests.find(age).is_some(),
            PoolEvent::Ready { age, conn } | PoolEvent::Failed { age, conn } => {
                self.requests.is_held(age, conn)
            }
            PoolEvent::GiveBack { conn } | PoolEvent::Detach { conn } => {
                self.connections.is_at(conn, PlaceKind::Leased)
            }
            PoolEvent::Decide { conn, .. } => self.connections.is_at(conn, PlaceKind::Cleaning),
            PoolEvent::Done { conn, ok, .. } => is_finishing(&self.connections, conn, ok),
            PoolEvent::Request
            | PoolEvent::TakeReturned
            | PoolEvent::CheckTtl { .. }
            | PoolEvent::Close
            | PoolEvent::PollDisconnect => true,
        }
    }

    /// An event happens. Only `Request` takes memory; out of memory, nothing changes.
    pub fn apply(&mut self, event: PoolEvent) -> Result<Answer, NoMemory>
        requires { may self.old event ≡ true }
        ensures state { OnOk result (self.new ≡ step self.old event) }
        ensures answer { IfOk result (λ a. a ≡ answer self.old event) }
        ensures err { OnErr result (self.new ≡ self.old) }
        ensures succeeds { (event ≡ PoolEvent.Request → ⊥) → IsOk result }
    {
        Ok(match event {
            PoolEvent::Request => Answer::Age(self.request()?),
            PoolEvent::PollRequest { age, now } => Answer::Poll(self.poll_request(age, now)),
            PoolEvent::Cancel { age } => {
                self.cancel(age);
                Answer::Done
            }
            PoolEvent::Ready { age, conn } => {
                self.ready(age, conn);
                Answer::Done
            }
            PoolEvent::Failed { age, conn } => {
                self.failed(age, conn);
                Answer::Done
            }
            PoolEvent::GiveBack { conn } => {
                self.give_back(conn);
                Answer::Done
            }
            PoolEvent::Detach { conn } => {
                self.detach(conn);
                Answer::Done
            }
            PoolEvent::TakeReturned => Answer::Returned(self.take_returned()),
            PoolEvent::Decide { conn, facts, now } => Answer::Verdict(self.decide(
                conn, facts, now,
            )),
            PoolEvent::Done {
                conn,
                ok,
                facts,
                now,
            } => { Answer::Verdict(self.done(conn, ok, facts, now)) }
            PoolEvent::CheckTtl { now } => Answer::Moved(self.check_ttl(now)),
            PoolEvent::Close => {
                self.close();
                Answer::Done
            }
            PoolEvent::PollDisconnect => Answer::Gone(self.poll_disconnect()),
        })
    }

    /// Events happen one after the other, up to the first one that may not happen then; returns whether all happened.
    fn happen(&mut self, events: &[PoolEvent]) -> Result<bool, NoMemory>
        ensures allowed { IfOk result (λ all. all ≡ true → AllMay self.old events.now) }
        ensures refused { IfOk result (λ all. all ≡ false → AllMay self.old events.now → ⊥) }
        ensures state { IfOk result (λ all. all ≡ true → self.new ≡ after self.old events.now) }
    {
        for event in events {
            if !self.may(event) {
                return Ok(false);
            }
            self.apply(*event)?;
        }
        Ok(true)
    }

    /// The pool after these events, or `None` where one of them may not happen when its turn comes.
    fn replayed(mut self, events: &[PoolEvent]) -> Result<Option<Core>, NoMemory>
        ensures allowed { IfOk result (λ replayed.
            MatchOption replayed (AllMay self events.now → ⊥) (λ _. AllMay self events.now)) }
        ensures state { IfOk result (λ replayed. IfSome replayed (λ core. core ≡ after self events.now)) }
    {
        let all = self.happen(events);
        if matches!(all, Ok(true)) {
            return Ok(Some(self));
        }
        match all {
            Ok(_) => Ok(None),
            Err(error) => Err(error),
        }
    }

    /// A new pool after these events, or `None` where one of them may not happen when its turn comes.
    pub fn replay(
        alloc: Global,
        opts: &PoolOpts,
        first: u64,
        events: &[PoolEvent],
    ) -> Result<Option<Core>, NoMemory>
        ensures allowed { let start = new_pool (limits_of opts.now) first in IfOk result (λ replayed.
            MatchOption replayed (AllMay start events.now → ⊥) (λ _. AllMay start events.now)) }
        ensures state { let start = new_pool (limits_of opts.now) first in IfOk result (λ replayed.
            IfSome replayed (λ core. core ≡ after start events.now)) }
    {
        Core::new(alloc, opts, first)?.replayed(events)
    }
}
