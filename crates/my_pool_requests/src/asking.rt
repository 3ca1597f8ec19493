//! Requests: they begin, are polled, and are given up.

ghost use Rattle.std.specs.Prelude.{◌≡◌, Some, IfOk, OnOk, OnErr, is_some};
ghost use Rattle.my_pool_core.specs.declared.event.Answer.TheVariants as answers;
ghost use Rattle.my_pool_core.specs.declared.event.PoolEvent.TheVariants as events;
ghost use Rattle.my_pool_core.specs.Owners.{Free, Making, token};
ghost use Rattle.my_pool.specs.Pools.{IsCalled, Made};
ghost use Rattle.my_pool_requests.specs.declared.request.Stage.TheVariants as stages;
ghost use Rattle.my_pool_requests.specs.Being.{IsBeingMade};
ghost use Rattle.my_pool_requests.specs.Makes.{outside};
ghost use Rattle.my_pool_requests.specs.Polls.{Cancels, DialsIt, MakesIt, PollsAsk, PollsFree};
ghost use Rattle.my_pool_requests.specs.Settles.{FitsIn, IsAsking};

use crate::boxed::BoxedMaking;
use crate::looks::{Sought, look, seek};
use crate::making::{dial_on, make_on};
use crate::request::{AskTurn, Asking, Moment, Stage};
use crate::settling::settle;
use my_frame::NoMemory;
use my_link::{Aid, Dialer, Link};
use my_pool::Exchange;
use my_pool_store::{Journal, Wake};
use std::alloc::Global;

/// A connection is asked for. Room for it is made first: out of memory, nothing changes.
pub fn ask<L: Drop, J: Journal, W: Wake>(
    pool: &mut Exchange<L, J, W>,
) -> Result<Asking<L>, NoMemory>
    ensures made { IfOk result (λ a. Made events.Request (answers.Age a.age) pool.old pool.new) }
    ensures called { OnOk result (IsCalled pool.old pool.new) }
    ensures kept { pool.new.kept ≡ pool.old.kept }
    ensures free { IfOk result (λ a. a.stage ≡ stages.Free) }
    ensures asking { IfOk result (λ a. IsAsking a pool.new) }
    ensures err { OnErr result (pool.new ≡ pool.old) }
{
    match pool.request() {
        Ok(age) => Ok(Asking {
            age,
            stage: Stage::Free,
        }),
        Err(error) => Err(error),
    }
}

/// A request is given up, and its connection let go, where it has one; its tape is kept. Its own waker isn't called.
pub fn cancel_ask<L: Drop, J: Journal, W: Wake>(pool: &mut Exchange<L, J, W>, asking: Asking<L>)
    requires { IsAsking asking pool.old }
    ensures { Cancels asking pool.old pool.new }
{
    let Asking { age, stage } = asking;
    pool.cancel(age, stage.let_go());
}

// The making of its connection goes on.
fn poll_making<L: Link + Drop, A: Aid, J: Journal, W: Wake>(
    alloc: Global,
    pool: &mut Exchange<L, J, W>,
    age: u64,
    number: u64,
    making: BoxedMaking<L>,
    aid: &mut A,
    now: u64,
) -> AskTurn<L>
    requires holds { token age pool.old.state ≡ Some (Making number) }
    requires being { IsBeingMade making }
    ensures makes { MakesIt L.looks (A.texts aid.old) now age number making pool.old pool.new result }
    ensures fits { FitsIn result pool.new }
    ensures texts { A.texts aid.new ≡ A.texts aid.old }
{
    let making = making.into_making();
    let made = make_on(alloc, making, aid, now);
    settle(pool, age, number, made)
}

// It dials.
fn poll_dial<O: Dialer + Aid, J: Journal, W: Wake>(
    alloc: Global,
    pool: &mut Exchange<O::L, J, W>,
    age: u64,
    number: u64,
    out: &mut O,
    moment: Moment,
) -> AskTurn<O::L>
where
    O::L: Drop,
    requires { token age pool.old.state ≡ Some (Making number) }
    ensures dials { DialsIt (outside O.L.looks O.L.socket O.seen O.texts) moment age number out.old out.new
        pool.old pool.new result }
    ensures fits { FitsIn result pool.new }
{
    let made = dial_on(alloc, pool.opts(), number, out, moment);
    settle(pool, age, number, made)
}

// It has no connection, and looks for one.
fn poll_free<O: Dialer + Aid, J: Journal, W: Wake>(
    alloc: Global,
    pool: &mut Exchange<O::L, J, W>,
    age: u64,
    out: &mut O,
    waker: Option<W>,
    moment: Moment,
) -> AskTurn<O::L>
where
    O::L: Drop,
    requires { token age pool.old.state ≡ Some Free }
    ensures polls { PollsFree (outside O.L.looks O.L.socket O.seen O.texts) moment (is_some waker) age out.old out.new
        pool.old pool.new result }
    ensures fits { FitsIn result pool.new }
{
    match seek(pool, age, waker, moment.now) {
        Sought::Turn(turn) => turn,
        Sought::Dials(number) => poll_dial(alloc, pool, age, number, out, moment),
    }
}

/// A request is polled once, at a moment. An idle connection is leased where it is still alive and no byte is left
/// over; where there is none, and the core says so, one is dialed and made. Where the request waits, its waker is
/// kept, and is called once the request may be polled with a result.
///
/// It fails with `PoolDisconnected` where the pool is closed, with `PoolFull` where as many requests wait as may, and
/// else with the error of its dial or of its connect call.
pub fn poll_ask<O: Dialer + Aid, J: Journal, W: Wake>(
    alloc: Global,
    pool: &mut Exchange<O::L, J, W>,
    asking: Asking<O::L>,
    out: &mut O,
    waker: Option<W>,
    moment: Moment,
) -> AskTurn<O::L>
where
    O::L: Drop,
    requires { IsAsking asking pool.old }
    ensures polls { PollsAsk (outside O.L.looks O.L.socket O.seen O.texts) moment (is_some waker) asking out.old out.new
        pool.old pool.new result }
    ensures fits { FitsIn result pool.new }
{
    let Asking { age, stage } = asking;
    match stage {
        Stage::Free => poll_free(alloc, pool, age, out, waker, moment),
        Stage::Dials(number) => {
            drop(waker);
            poll_dial(alloc, pool, age, number, out, moment)
        }
        Stage::Makes(number, making) => {
            drop(waker);
            poll_making(alloc, pool, age, number, making, out, moment.now)
        }
        Stage::Looks(number, conn) => match look(pool, age, number, conn) {
            Some(turn) => {
                drop(waker);
                turn
            }
            None => poll_free(alloc, pool, age, out, waker, moment),
        },
    }
}
