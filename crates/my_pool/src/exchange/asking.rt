//! The events of a request.

ghost use Rattle.std.specs.Prelude.{◌≡◌};
ghost use Rattle.my_pool.specs.Asks.{is_wait};

use super::{Exchange, room_for_one_more};
use crate::boxed::BoxedConn;
use my_client::Tape;
use my_frame::NoMemory;
use my_pool_core::{PollAnswer, PoolEvent};
use my_pool_store::{Journal, Wake, numbered};

/// Whether a polled request is to wait.
fn is_wait(answer: &PollAnswer) -> bool
    ensures { result ≡ is_wait answer.now }
{
    matches!(answer, PollAnswer::Wait)
}

impl<L: Drop, J: Journal, W: Wake> Exchange<L, J, W> {
    ghost use Rattle.std.specs.Prelude.{◌≡◌, ◌==◌, ◌&&◌, Some, true, false, [], ◌∷◌, ◌++◌, IfOk, IfSome, OnOk, OnErr, is_some};
    ghost use Rattle.my_frame.specs.Lists.{without};
    ghost use Rattle.my_pool_core.specs.declared.event.PoolEvent.TheVariants as events;
    ghost use Rattle.my_pool_core.specs.declared.event.Answer.TheVariants as answers;
    ghost use Rattle.my_pool_core.specs.Events.{may_cancel};
    ghost use Rattle.my_pool_core.specs.Moves.{failed_token, polled_token};
    ghost use Rattle.my_pool_core.specs.Owners.{Free, is_lease, token};
    ghost use Rattle.my_pool_store.specs.Shelves.{left_by, numbered, taken_by};
    ghost use Rattle.my_pool_store.specs.Woken.{kept_for, waiting};
    ghost use Rattle.my_pool.specs.Asks.{GivesFit, IsHolding, TakesOneLess};
    ghost use Rattle.my_pool.specs.Pools.{Made, MadeWith, IsCalled};

    /// A connection is asked for; returns the age of the new request. Room is made for what the connections of the pool
    /// may leave, too. Out of memory, nothing changes.
    pub fn request(&mut self) -> Result<u64, NoMemory>
        ensures made { IfOk result (λ age. Made events.Request (answers.Age age) self.old self.new) }
        ensures called { OnOk result (IsCalled self.old self.new) }
        ensures kept { self.new.kept ≡ self.old.kept }
        ensures holds { IfOk result (λ age. token age self.new.state ≡ Some Free) }
        ensures err { OnErr result (self.new ≡ self.old) }
    {
        let Some(count) = room_for_one_more(&self.core) else {
            return Err(NoMemory);
        };
        self.shelf.make_room(count)?;
        self.wakers.make_room(count)?;
        self.gone.make_more_room(count)?;
        let age = self.core.request()?;
        self.journal.note(PoolEvent::Request);
        self.wakers.call_closed(&self.core);
        Ok(age)
    }

    /// A request without a connection is polled at a moment. Where it waits, its waker is kept, and else returned;
    /// the idle connection that it takes is handed out, and is fit.
    pub fn poll_request(
        &mut self,
        age: u64,
        now: u64,
        waker: Option<W>,
    ) -> (PollAnswer, Option<BoxedConn<L>>, Option<W>)
        requires { token age self.old.state ≡ Some Free }
        ensures made { Made (events.PollRequest age now) (answers.Poll result.0) self.old self.new }
        ensures called { self.new.ages ≡ kept_for age (is_wait result.0 && is_some waker)
            (waiting self.new.state (without (λ a. a == age) self.old.ages)) }
        ensures kept { self.new.kept ≡ left_by result.0 self.old.kept }
        ensures taken { result.1 ≡ taken_by result.0 self.old.kept }
        ensures fit { GivesFit result.0 result.1 }
        ensures holds { token age self.new.state ≡ polled_token age result.0 }
        ensures rest { is_wait result.0 ≡ false → result.2 ≡ waker }
        ensures fewer { TakesOneLess result.0 self.old.state self.new.state }
    {
        self.wakers.forget(age);
        let answer = self.core.poll_request(age, now);
        self.journal.note(PoolEvent::PollRequest { age, now });
        let rest = self.wakers.keep_where(age, is_wait(&answer), waker);
        let conn = self.shelf.take_by(answer);
        (answer, conn, rest)
    }

    /// A request's connection is good: it is leased, and the request ends.
    pub fn ready(&mut self, age: u64, number: u64)
        requires { IsHolding age number self.old }
        ensures made { Made (events.Ready age number) answers.Done self.old self.new }
        ensures called { IsCalled self.old self.new }
        ensures kept { self.new.kept ≡ self.old.kept }
        ensures leased { is_lease number self.new.state ≡ true }
    {
        self.core.ready(age, number);
        self.journal.note(PoolEvent::Ready { age, conn: number });
    }

    /// A request's connection isn't good, and is counted no more. Its tape is kept, where it has one.
    pub fn failed(&mut self, age: u64, number: u64, tape: Option<Tape>)
        requires { IsHolding age number self.old }
        ensures made { MadeWith (numbered number tape) (events.Failed age number) answers.Done self.old self.new }
        ensures called { IsCalled self.old self.new }
        ensures kept { self.new.kept ≡ self.old.kept }
        ensures holds { token age self.new.state ≡ failed_token age (token age self.old.state) }
    {
        let oldest = self.core.oldest_waiting();
        self.core.failed(age, number);
        self.journal.note(PoolEvent::Failed { age, conn: number });
        self.gone.put_left(numbered(number, tape));
        self.wakers.call_at(oldest, &self.core);
    }

    /// A live request is given up: its own waker isn't called. What is left of its connection, its tape, is kept by its
    /// number.
    pub fn cancel(&mut self, age: u64, left: Option<(u64, Tape)>)
        requires live { may_cancel age self.old.state ≡ true }
        requires holds { IfSome left (λ l. IsHolding age l.0 self.old) }
        ensures made { MadeWith left (events.Cancel age) answers.Done self.old self.new }
        ensures called { self.new.ages ≡ waiting self.new.state (without (λ a. a == age) self.old.ages) }
        ensures kept { self.new.kept ≡ self.old.kept }
    {
        self.wakers.forget(age);
        let oldest = self.core.oldest_waiting();
        self.core.cancel(age);
        self.journal.note(PoolEvent::Cancel { age });
        self.gone.put_left(left);
        self.wakers.call_at(oldest, &self.core);
    }
}
