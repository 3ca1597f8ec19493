//! One connection is leased again and again, in rounds of which the cost of one can be counted.

use crate::links::{opts_of, play};
use my_frame::NoMemory;
use my_link::{MemLink, MemWorld};
use my_pool::Exchange;
use my_pool_requests::{AskTurn, Moment, ask, cancel_ask, give, poll_ask};
use my_pool_store::{Dropped, NoWake};
use my_pool_turns::turn;
use std::alloc::Global;
use std::test::Fail;

// Nothing of it is noted.
type Plain = Exchange<MemLink, Dropped, NoWake>;

// A request is leased a connection, which comes back, and is idle then. Whether it was so.
fn round(
    alloc: Global,
    pool: &mut Plain,
    world: &mut MemWorld,
    now: u64,
) -> Result<bool, NoMemory> {
    let asking = ask(pool)?;
    let moment = Moment {
        now,
        random: 0,
        keep_tape: false,
    };
    match poll_ask(alloc, pool, asking, world, None, moment) {
        AskTurn::Held(held) => {
            give(pool, held);
            Ok(turn(alloc, pool, now) == 0)
        }
        AskTurn::Pending(asking) => {
            cancel_ask(pool, asking);
            Ok(false)
        }
        AskTurn::Failed(error) => {
            drop(error);
            Ok(false)
        }
    }
}

// How many rounds go, of so many.
fn count_going(
    alloc: Global,
    pool: &mut Plain,
    world: &mut MemWorld,
    count: u64,
) -> Result<u64, NoMemory> {
    play(alloc, world, 1000, "@greeting turn @login_ok")?;
    let mut went = 0u64;
    for now in 0..count {
        if round(alloc, pool, world, now)? {
            went = went.saturating_add(1);
        }
    }
    Ok(went)
}

// How many rounds go over a new pool, of so many, and how many connections there are then.
fn leased(alloc: Global, count: u64) -> Result<(u64, u64), NoMemory> {
    let opts = opts_of(alloc, "pool_min=1&pool_max=2")?;
    let mut pool = Plain::new(alloc, opts, Dropped, 1000)?;
    let mut world = MemWorld::new(alloc);
    let went = count_going(alloc, &mut pool, &mut world, count);
    let counted = pool.metrics().connection_count;
    drop(pool);
    drop(world);
    Ok((went?, counted))
}

#[test]
fn thousand_leases(rt: HostRuntime) -> Result<(), Fail> {
    assert_eq!(rt; leased(rt.alloc(), 1000)?, (1000, 1));
    Ok(())
}

#[test]
fn two_thousand_leases(rt: HostRuntime) -> Result<(), Fail> {
    assert_eq!(rt; leased(rt.alloc(), 2000)?, (2000, 1));
    Ok(())
}
