//! A turn.

ghost use Rattle.std.specs.Prelude.{◌≡◌, ◌<◌, ◌^◌, ◌-◌, true, MatchOption, IfSome};
ghost use Rattle.my_pool_core.specs.Counted.{working};
ghost use Rattle.my_pool_core.specs.Owners.{IsNextAt, IsNoneAt, place_at};
ghost use Rattle.my_pool_parts.specs.Lists.{found_is};
ghost use Rattle.my_pool.specs.Fit.{IsFit, IsStill};
ghost use Rattle.my_pool.specs.Pools.{IsOut};
ghost use Rattle.my_pool_turns.specs.Tasks.{is_place_of, kind_at};
ghost use Rattle.my_pool_turns.specs.Turns.{Ends, PolledAt, PolledOn, PollsAll, TakesAll, Turns};

use crate::task::{Task, Worked, work};
use my_link::Link;
use my_pool::{Exchange, Out};
use my_pool_core::Core;
use my_pool_store::{Journal, Wake};
use std::alloc::Global;

// The next number from this one on, at a task's place of a core. Where no connection is being cleaned, reset or closed,
// no place is looked at.
fn next_in(core: &Core, task: Task, from: u64) -> Option<u64>
    ensures { MatchOption result (IsNoneAt (kind_at task) from core.now)
        (λ n. IsNextAt (kind_at task) from n core.now) }
{
    if core.count_working() == 0 {
        return None;
    }
    core.next_at(task.place(), from)
}

// The next number from this one on, at a task's place.
fn next_at<L, J: Journal, W: Wake>(pool: &Exchange<L, J, W>, task: Task, from: u64) -> Option<u64>
    ensures next { MatchOption result (IsNoneAt (kind_at task) from pool.now.state)
        (λ n. IsNextAt (kind_at task) from n pool.now.state) }
    ensures place { IfSome result (λ n. found_is (is_place_of task) (place_at n pool.now.state) ≡ true) }
    ensures below { IfSome result (λ n. n < 2 ^ 64 - 1) }
{
    pool.core().is_sound();
    next_in(pool.core(), task, from)
}

// A connection in hand whose call was answered is decided on, or done.
fn end<L: Link + Drop, J: Journal, W: Wake>(
    pool: &mut Exchange<L, J, W>,
    out: Out<L>,
    task: Task,
    now: u64,
)
    requires out { IsOut out pool.old }
    requires place { found_is (is_place_of task) (place_at out.number pool.old.state) ≡ true }
    requires still { IsStill out.conn }
    requires fit { task ≡ Task.Reset → IsFit out.conn }
    ensures { Ends task Worked.Done out now pool.old pool.new }
{
    match task {
        Task::Clean => {
            pool.decide(out, now);
        }
        Task::Reset => {
            pool.done(out, true, now);
        }
        Task::Close => {
            pool.done(out, true, now);
        }
    }
}

// A connection in hand is polled once, and what that came to is told the core.
fn poll_on<L: Link + Drop, J: Journal, W: Wake>(
    alloc: Global,
    pool: &mut Exchange<L, J, W>,
    out: Out<L>,
    task: Task,
    now: u64,
)
    requires out { IsOut out pool.old }
    requires place { found_is (is_place_of task) (place_at out.number pool.old.state) ≡ true }
    ensures { PolledOn L.looks task now out pool.old pool.new }
{
    let mut out = out;
    match work(alloc, &mut out, task, now) {
        Worked::Pending => pool.put_back(out),
        Worked::Done => end(pool, out, task, now),
        Worked::Failed => {
            pool.done(out, false, now);
        }
    }
}

// Each connection that came back is decided on, until none is left.
fn take_all<L: Link + Drop, J: Journal, W: Wake>(pool: &mut Exchange<L, J, W>, now: u64)
    ensures { TakesAll now pool.old pool.new }
{
    while let Some(out) = pool.take_returned() {
        pool.decide(out, now);
    }
}

// One at a task's place is polled once, unless it is in hand already.
fn poll_at<L: Link + Drop, J: Journal, W: Wake>(
    alloc: Global,
    pool: &mut Exchange<L, J, W>,
    number: u64,
    task: Task,
    now: u64,
)
    requires { found_is (is_place_of task) (place_at number pool.old.state) ≡ true }
    ensures { PolledAt L.looks task now number pool.old pool.new }
{
    match pool.take_out(number) {
        Some(out) => poll_on(alloc, pool, out, task, now),
        None => {}
    }
}

// Each connection at a task's place is polled once, in rising order of numbers.
fn poll_all<L: Link + Drop, J: Journal, W: Wake>(
    alloc: Global,
    pool: &mut Exchange<L, J, W>,
    task: Task,
    now: u64,
)
    ensures { PollsAll L.looks task now pool.old pool.new }
{
    let mut from = 0;
    while let Some(number) = next_at(pool, task, from) {
        poll_at(alloc, pool, number, task, now);
        from = number + 1;
    }
}

/// A turn, at a moment. Each connection that came back is taken and decided on, until none is left. Then each one that
/// is being cleaned is polled once, in rising order of numbers; so is each that is being reset, and then each that is
/// being closed. What came back meanwhile is taken and decided on. Returns how many are being cleaned, reset or closed.
pub fn turn<L: Link + Drop, J: Journal, W: Wake>(
    alloc: Global,
    pool: &mut Exchange<L, J, W>,
    now: u64,
) -> usize
    ensures turns { Turns L.looks now pool.old pool.new }
    ensures working { result ≡ working pool.new.state }
{
    take_all(pool, now);
    poll_all(alloc, pool, Task::Clean, now);
    poll_all(alloc, pool, Task::Reset, now);
    poll_all(alloc, pool, Task::Close, now);
    take_all(pool, now);
    pool.core().count_working()
}
