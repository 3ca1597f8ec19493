//! The events of a lease that is taken out for good, and of the whole pool.

use super::{Exchange, room_for_one_more};
use my_client::Tape;
use my_frame::NoMemory;
use my_pool_core::{Metrics, PoolEvent};
use my_pool_store::{Journal, Slot, Wake};
use std::alloc::Global;

impl<L, J: Journal, W: Wake> Exchange<L, J, W> {
    ghost use Rattle.std.specs.Prelude.{◌≡◌, [], true, map, IfOk, OnErr, OnOk};
    ghost use Rattle.my_pool_core.specs.declared.event.PoolEvent.TheVariants as events;
    ghost use Rattle.my_pool_core.specs.declared.event.Answer.TheVariants as answers;
    ghost use Rattle.my_pool_core.specs.Owners.{is_lease};
    ghost use Rattle.my_pool_core.specs.Seen.{metrics_of};
    ghost use Rattle.my_pool_store.specs.Slots.{entry_of};
    ghost use Rattle.my_pool.specs.Pools.{Made, IsCalled};

    /// A leased connection, which its caller has, is taken out of the pool for good.
    pub fn detach(&mut self, number: u64)
        requires { is_lease number self.old.state ≡ true }
        ensures made { Made (events.Detach number) answers.Done self.old self.new }
        ensures called { IsCalled self.old self.new }
        ensures kept { self.new.kept ≡ self.old.kept }
    {
        let oldest = self.core.oldest_waiting();
        self.core.detach(number);
        self.journal.note(PoolEvent::Detach { conn: number });
        self.wakers.call_at(oldest, &self.core);
    }

    /// Idle connections whose time is over are marked and returned; returns how many.
    pub fn check_ttl(&mut self, now: u64) -> u64
        ensures made { Made (events.CheckTtl now) (answers.Moved result) self.old self.new }
        ensures called { IsCalled self.old self.new }
        ensures kept { self.new.kept ≡ self.old.kept }
    {
        let moved = self.core.check_ttl(now);
        self.journal.note(PoolEvent::CheckTtl { now });
        moved
    }

    /// The pool is closed, and each request that waits is woken.
    pub fn close(&mut self)
        ensures made { Made events.Close answers.Done self.old self.new }
        ensures called { IsCalled self.old self.new }
        ensures kept { self.new.kept ≡ self.old.kept }
    {
        self.core.close();
        self.journal.note(PoolEvent::Close);
        self.wakers.call_closed(&self.core);
    }

    /// Whether the pool is gone. This is an event, too.
    pub fn poll_disconnect(&mut self) -> bool
        ensures made { Made events.PollDisconnect (answers.Gone result) self.old self.new }
        ensures called { IsCalled self.old self.new }
        ensures kept { self.new.kept ≡ self.old.kept }
    {
        let gone = self.core.poll_disconnect();
        self.journal.note(PoolEvent::PollDisconnect);
        gone
    }

    /// The tapes of the connections that are gone, with their numbers, in the order in which they went; none is left.
    /// Out of memory, nothing changes. This is no event.
    pub fn take_tapes(&mut self, alloc: Global) -> Result<Vec<Slot<Tape>>, NoMemory>
        ensures taken { IfOk result (λ tapes. map entry_of tapes.items ≡ self.old.gone) }
        ensures left { OnOk result (self.new ≡ record self.old { gone = [] }) }
        ensures err { OnErr result (self.new ≡ self.old) }
    {
        let Some(count) = room_for_one_more(&self.core) else {
            return Err(NoMemory);
        };
        match self.gone.take_all(alloc, count) {
            Ok(tapes) => Ok(tapes),
            Err(error) => Err(error),
        }
    }

    /// How many connections and requests are where, and how often each thing happened. This is no event.
    pub fn metrics(&self) -> Metrics
        ensures { result ≡ metrics_of self.now.state }
    {
        self.core.metrics()
    }
}
