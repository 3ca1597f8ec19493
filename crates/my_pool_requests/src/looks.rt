//! How a request looks for a connection: it is polled until it waits, ends, has one that is alive, or is to make one.

ghost use Rattle.std.specs.Prelude.{◌≡◌, ◌≤◌, Some, false, is_some};
ghost use Rattle.my_pool_core.specs.declared.event.PoolEvent.TheVariants as events;
ghost use Rattle.my_pool_core.specs.Counted.{idle};
ghost use Rattle.my_pool_core.specs.Owners.{Free, Looking, token};
ghost use Rattle.my_pool_core.specs.Moves.{polled_token};
ghost use Rattle.my_pool.specs.Asks.{GivesFit};
ghost use Rattle.my_pool.specs.Fit.{IsFit};
ghost use Rattle.my_pool_requests.specs.Looks.{AnsweredBy, LookLeaves, LooksOn, SeekLeaves, Seeks, SoughtFits};
ghost use Rattle.my_pool_requests.specs.Looks.{UntakenBy, is_take};
ghost use Rattle.my_pool_requests.specs.Settles.{SettlesWith};
ghost use Rattle.my_pool_store.specs.Shelves.{numbered};

use crate::request::{AskTurn, Asking, Stage};
use crate::settling::lease;
use my_link::{CheckStep, Link};
use my_pool::{BoxedConn, Exchange};
use my_pool_core::PollAnswer;
use my_pool_store::{Journal, Wake};
use my_reading::{DriverError, Error};

/// What a request that looks for a connection comes to.
pub(crate) enum Sought<L> {
    /// Its poll is done.
    Turn(AskTurn<L>),
    /// It makes the connection of this number.
    Dials(u64),
}

// The idle connection that a request took isn't good, and is let go: the request has none again. Its tape is kept.
fn let_go<L: Drop, J: Journal, W: Wake>(
    pool: &mut Exchange<L, J, W>,
    age: u64,
    number: u64,
    conn: BoxedConn<L>,
)
    requires { token age pool.old.state ≡ Some (Looking number) }
    ensures failed { SettlesWith (numbered number conn.tape) (events.Failed age number) pool.old pool.new }
    ensures free { token age pool.new.state ≡ Some Free }
    ensures fewer { idle pool.new.state ≤ idle pool.old.state }
{
    let mut conn = conn;
    let tape = conn.take_tape();
    drop(conn);
    pool.failed(age, number, tape);
}

/// Whether the idle connection that a request took is alive; none where it isn't, and the request looks for another.
pub(crate) fn look<L: Link + Drop, J: Journal, W: Wake>(
    pool: &mut Exchange<L, J, W>,
    age: u64,
    number: u64,
    conn: BoxedConn<L>,
) -> Option<AskTurn<L>>
    requires holds { token age pool.old.state ≡ Some (Looking number) }
    requires fit { IsFit conn }
    ensures looks { LooksOn L.looks age number conn pool.old pool.new result }
    ensures leaves { LookLeaves age result pool.old pool.new }
{
    let mut conn = conn;
    let (step, _met) = conn.check();
    match step {
        CheckStep::Alive => Some(lease(pool, age, number, conn)),
        CheckStep::NotYet => Some(AskTurn::Pending(Asking {
            age,
            stage: Stage::Looks(number, conn),
        })),
        CheckStep::Dead => {
            let_go(pool, age, number, conn);
            None
        }
        CheckStep::Failed => {
            let_go(pool, age, number, conn);
            None
        }
    }
}

// What a request comes to that took no idle connection.
fn untaken<L>(age: u64, answer: PollAnswer) -> Sought<L>
    requires { is_take answer ≡ false }
    ensures { UntakenBy age answer result }
{
    match answer {
        PollAnswer::Wait => Sought::Turn(AskTurn::Pending(Asking {
            age,
            stage: Stage::Free,
        })),
        PollAnswer::Dial(number) => Sought::Dials(number),
        PollAnswer::Closed => Sought::Turn(AskTurn::Failed(Error::Driver(
            DriverError::PoolDisconnected,
        ))),
        PollAnswer::Full { waiting, limit } => Sought::Turn(AskTurn::Failed(Error::Driver(
            DriverError::PoolFull { waiting, limit },
        ))),
        PollAnswer::Take(_) => unreachable!(),
    }
}

// What a polled request comes to by its answer; none where the connection that it took isn't alive.
fn answered<L: Link + Drop, J: Journal, W: Wake>(
    pool: &mut Exchange<L, J, W>,
    age: u64,
    answer: PollAnswer,
    conn: Option<BoxedConn<L>>,
) -> Option<Sought<L>>
    requires holds { token age pool.old.state ≡ polled_token age answer }
    requires fit { GivesFit answer conn }
    ensures answered { AnsweredBy L.looks age answer conn pool.old pool.new result }
    ensures leaves { SeekLeaves age result pool.old pool.new }
{
    match answer {
        PollAnswer::Take(number) => match conn {
            Some(conn) => match look(pool, age, number, conn) {
                Some(turn) => Some(Sought::Turn(turn)),
                None => None,
            },
            None => unreachable!(),
        },
        PollAnswer::Wait | PollAnswer::Dial(_) | PollAnswer::Closed | PollAnswer::Full { .. } => {
            drop(conn);
            Some(untaken(age, answer))
        }
    }
}

/// A request without a connection is polled; and again, as long as the idle connection that it took isn't alive.
pub(crate) fn seek<L: Link + Drop, J: Journal, W: Wake>(
    pool: &mut Exchange<L, J, W>,
    age: u64,
    waker: Option<W>,
    now: u64,
) -> Sought<L>
    requires { token age pool.old.state ≡ Some Free }
    ensures seeks { Seeks L.looks age now (is_some waker) pool.old pool.new result }
    ensures fits { SoughtFits age result pool.new }
{
    let mut waker = waker;
    'rounds: loop {
        let (answer, conn, rest) = pool.poll_request(age, now, waker);
        match answered(pool, age, answer, conn) {
            Some(sought) => {
                drop(rest);
                return sought;
            }
            None => waker = rest,
        }
    }
}
