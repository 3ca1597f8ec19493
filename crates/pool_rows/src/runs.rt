//! Many events from a seed, with what is known of the pool beside it.

use crate::events::{some_event, some_word};
use crate::scanned::follow;
use my_frame::NoMemory;
use my_opts_parts::{Millis, PoolConstraints, PoolOpts};
use my_pool_core::{Core, PoolEvent};
use my_pool_parts::{Connection, Request};
use pool_looks::{Dice, Shown, is_sound, replayed, told};
use std::alloc::Global;
use std::test::Fail;

// How many pools there are.
const ROUNDS: u64 = 1000;

// How many events happen to each.
const EVENTS: usize = 60;

// Each event with each of its answers.
const NAMES: &str =
    "ask age|ask last|poll wait|poll take|poll dial|poll closed|poll full|cancel done|ready done|failed done|\
give done|detach done|next number|next none|decide drop|decide clean|decide close|decide reset|decide keep|done drop|done close|\
done keep|badly drop|ttl none|ttl moved|close done|gone gone|gone there";

// How often each of these happened.
type Tally = [u64; 28];

fn count(tally: &mut Tally, word: &str, told: &str) {
    for (name, count) in NAMES.split('|').zip(tally.iter_mut()) {
        if name.split_once(' ') == Some((word, told)) {
            *count = count.saturating_add(1);
        }
    }
}

// The options of a round: bounds, times and limits vary.
fn options(round: u64) -> Option<PoolOpts> {
    let min = round % 3;
    let max = min.max(1) + round % 4;
    let constraints = PoolConstraints::new(min, max)?;
    let waiting = if round % 2 == 0 {
        None
    } else {
        Some(round % 5)
    };
    Some(
        PoolOpts::new()
            .with_constraints(constraints)
            .with_inactive_connection_ttl(Millis::from_millis(round % 3))
            .with_max_waiting(waiting),
    )
}

// The number of the first connection of a round: of some there are few left.
fn first_number(round: u64) -> u64 {
    if round % 10 == 0 {
        u64::MAX.saturating_sub(round / 10 % 8)
    } else {
        round.saturating_mul(1000)
    }
}

// What is known of a pool beside it.
#[derive(Drop)]
struct Beside {
    max: u64,
    bound: u64,
    shown: Shown,
    // Its lists.
    connections: Vec<Connection>,
    requests: Vec<Request>,
    // Its live requests, as a list that is scanned.
    plain: Vec<Request>,
    // The events that happened.
    events: Vec<PoolEvent>,
}

// Whether a pool is as it should be.
fn is_right(core: &Core, beside: &Beside) -> bool {
    let shown = &beside.shown;
    let connections = beside.connections.as_slice();
    let requests = beside.requests.as_slice();
    let empty = core.is_closed() && connections.is_empty();
    is_sound(core, connections, requests, shown, beside.max, beside.bound)
        && core.poll_disconnect() == shown.settled
        && (empty || !shown.settled)
        && requests == beside.plain.as_slice()
}

// An event happens, where it may: whether the pool is as it should be then.
fn happens(
    alloc: Global,
    core: &mut Core,
    beside: &mut Beside,
    tally: &mut Tally,
    word: &str,
    event: PoolEvent,
) -> Result<bool, NoMemory> {
    if !core.may(&event) {
        return Ok(true);
    }
    let answer = core.apply(event)?;
    let (told, _, _) = told(answer);
    count(tally, word, told);
    beside.events.push(event)?;
    follow(&mut beside.plain, event, answer)?;
    beside.connections = core.connections(alloc)?;
    beside.requests = core.requests(alloc)?;
    let empty = core.is_closed() && beside.connections.is_empty();
    beside.shown.follow(answer, empty);
    Ok(is_right(core, beside))
}

// Some event of a word.
fn drawn(beside: &Beside, dice: &mut Dice, word: &str, now: u64) -> Option<PoolEvent> {
    some_event(
        dice,
        word,
        beside.connections.as_slice(),
        beside.requests.as_slice(),
        now,
    )
}

// Events from a seed happen: whether there were enough, and the pool was as it should be after each.
fn play(
    alloc: Global,
    core: &mut Core,
    beside: &mut Beside,
    tally: &mut Tally,
    seed: u64,
) -> Result<bool, NoMemory> {
    let mut dice = Dice::new(seed);
    for turn in 0..1000u64 {
        let count = beside.events.len();
        if count >= EVENTS {
            return Ok(true);
        }
        let word = some_word(&mut dice);
        if (word != "close" || count > EVENTS / 4 * 3)
            && let Some(event) = drawn(beside, &mut dice, word, turn / 8)
            && !happens(alloc, core, beside, tally, word, event)?
        {
            return Ok(false);
        }
    }
    Ok(false)
}

// Events happen: whether the pool was as it should be after each, their replay makes it again, and a replay with one that may not
// happen is refused.
fn is_played(
    alloc: Global,
    core: &mut Core,
    beside: &mut Beside,
    tally: &mut Tally,
    opts: &PoolOpts,
    round: u64,
) -> Result<bool, NoMemory> {
    let first = first_number(round);
    if !play(alloc, core, beside, tally, round)?
        || replayed(alloc, core, opts, first, beside.events.as_slice())? != Some(true)
    {
        return Ok(false);
    }
    let conn = first.wrapping_sub(1);
    beside.events.push(PoolEvent::GiveBack { conn })?;
    Ok(replayed(alloc, core, opts, first, beside.events.as_slice())?.is_none())
}

// The same of a new pool.
fn plays(alloc: Global, tally: &mut Tally, opts: &PoolOpts, round: u64) -> Result<bool, NoMemory> {
    let first = first_number(round);
    let mut core = Core::new(alloc, opts, first)?;
    let mut beside = Beside {
        max: opts.constraints().max(),
        bound: opts.active_bound(),
        shown: Shown {
            age: 0,
            number: first,
            settled: false,
        },
        connections: Vec::new(alloc),
        requests: Vec::new(alloc),
        plain: Vec::new(alloc),
        events: Vec::new(alloc),
    };
    let well = is_played(alloc, &mut core, &mut beside, tally, opts, round);
    drop(core);
    drop(beside);
    well
}

// How many rounds go, up to the first one whose pool isn't as it should be.
fn count_right(alloc: Global, tally: &mut Tally) -> Result<u64, NoMemory> {
    for round in 0..ROUNDS {
        let Some(opts) = options(round) else {
            return Ok(round);
        };
        if !plays(alloc, tally, &opts, round)? {
            return Ok(round);
        }
    }
    Ok(ROUNDS)
}

#[test]
fn runs(rt: HostRuntime) -> Result<(), Fail> {
    let mut tally = [0u64; 28];
    assert_eq!(rt; count_right(rt.alloc(), &mut tally)?, ROUNDS);
    assert!(rt; tally.iter().all(|count| *count >= 100));
    Ok(())
}
