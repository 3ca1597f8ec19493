//! Plays the rows of pools.

use crate::rows::POOLS;
use my_frame::NoMemory;
use my_pool_core::{Answer, Core, Limits, PollAnswer, PoolEvent};
use my_pool_parts::Counted;
use pool_looks::{count_rows, event_of, is_wanted, looks, numbers_of, sides, told};
use std::alloc::Global;
use std::test::Fail;

// What an event returns, where it may happen; `steps` counts the ages that are compared.
fn happen(
    core: &mut Core,
    event: PoolEvent,
    steps: &mut Counted,
) -> Result<Option<Answer>, NoMemory> {
    if !core.may(&event) {
        return Ok(None);
    }
    let mut answer = Answer::Done;
    match event {
        PoolEvent::Request => answer = Answer::Age(core.request_noting(steps)?),
        PoolEvent::PollRequest { age, now } => {
            answer = Answer::Poll(core.poll_request_noting(age, now, steps));
        }
        PoolEvent::Cancel { age } => core.cancel_noting(age, steps),
        PoolEvent::Ready { age, conn } => core.ready_noting(age, conn, steps),
        PoolEvent::Failed { age, conn } => core.failed_noting(age, conn, steps),
        PoolEvent::Detach { conn } => core.detach_noting(conn, steps),
        PoolEvent::Decide { conn, facts, now } => {
            answer = Answer::Verdict(core.decide_noting(conn, facts, now, steps));
        }
        PoolEvent::Done {
            conn,
            ok,
            facts,
            now,
        } => answer = Answer::Verdict(core.done_noting(conn, ok, facts, now, steps)),
        PoolEvent::Close => core.close_noting(steps),
        _ => answer = core.apply(event)?,
    }
    Ok(Some(answer))
}

// Whether an event returns what a row wants.
fn happens(core: &mut Core, event: PoolEvent, want: &str) -> Result<bool, NoMemory> {
    let mut steps = Counted::new();
    let Some(answer) = happen(core, event, &mut steps)? else {
        return Ok(want == "no");
    };
    let (word, first, second) = told(answer);
    Ok(is_wanted(want, word, &[first, second], steps.count()))
}

// Whether requests of these ages are asked for and wait. No age is compared where the first one begins to wait, and else two
// times two: the oldest one with it, and it with the one above it in the heap, which is older.
fn all_wait(core: &mut Core, first: u64, last: u64) -> Result<bool, NoMemory> {
    for age in first..=last {
        let mut steps = Counted::new();
        let given = core.request_noting(&mut steps)?;
        if given != age
            || !core.may(&PoolEvent::PollRequest { age, now: 0 })
            || core.poll_request_noting(age, 0, &mut steps) != PollAnswer::Wait
            || steps.count() != if age == first { 0 } else { 2 }
        {
            return Ok(false);
        }
    }
    Ok(true)
}

fn goes(core: &mut Core, row: &str) -> Result<bool, NoMemory> {
    let (given, want) = sides(row);
    if given.starts_with("wait ") {
        let [first, last, ..] = numbers_of(given);
        return all_wait(core, first, last);
    }
    match event_of(given) {
        Some(event) => happens(core, event, want),
        None => Ok(looks(core, given, want)),
    }
}

// How many rows of a block go, up to the first one that doesn't.
fn count_right(alloc: Global, block: &str) -> Result<u64, NoMemory> {
    let [max, min, bound, inactive, waiting, first] = numbers_of(block);
    let waiting = if waiting == u64::MAX {
        None
    } else {
        Some(waiting)
    };
    let inactive = u128::from(inactive);
    let limits = Limits {
        max,
        min,
        bound,
        inactive,
        waiting,
    };
    let mut core = Core::with_limits(alloc, limits, first);
    let mut count = 0u64;
    for row in block.lines().skip(1) {
        if !goes(&mut core, row)? {
            return Ok(count);
        }
        count = count.saturating_add(1);
    }
    Ok(count)
}

#[test]
fn pools(rt: HostRuntime) -> Result<(), Fail> {
    let mut ran = 0u64;
    for block in POOLS.split("# ").skip(1) {
        let count = count_right(rt.alloc(), block)?;
        assert!(rt; count == count_rows(block), "row {count} of {block}");
        ran = ran.saturating_add(count);
    }
    assert_eq!(rt; ran, 463);
    println!(rt; "{ran} rows of pools")?;
    Ok(())
}
