//! Many calls of an exchange from a seed, over links in memory.

use crate::links::play;
use crate::requests::{Hands, called};
use crate::table::Table;
use my_frame::NoMemory;
use my_pool_turns::turn;
use pool_looks::{Dice, Shown, is_sound};
use std::alloc::Global;
use std::process::Abort;
use std::test::Fail;

// How many pools there are.
const ROUNDS: u64 = 1000;

// How many calls happen to each.
const CALLS: u64 = 40;

// How many links there are to be dialed.
const LINKS: u64 = 12;

// The options of a pool.
const POOLS: &str = "\
pool_min=1&pool_max=1
pool_min=1&pool_max=2
pool_min=2&pool_max=3
pool_min=1&pool_max=2&pool_max_waiting=1
pool_min=1&pool_max=3&conn_ttl=1
pool_min=1&pool_max=2&pool_max_waiting=0
pool_min=1&pool_max=2&reset_connection=true";

// What a link plays. One that says nothing more ends, so that no call waits for ever.
const PLAYS: &str = "\
@greeting turn @login_ok turn end
@greeting turn @login_ok turn @set turn end
@greeting turn @login_ok turn @set turn @set turn end
@greeting turn @login_ok turn wait @set turn end
@greeting turn wait @login_ok turn @ok turn @ok turn end
@greeting turn @login_ok turn @ok turn @ok turn @ok turn end
@greeting turn @login_ok end
@greeting turn fail
dfail
dwait dfail
dwait @greeting turn @login_ok turn @set turn end";

// Words of calls, as often as they are drawn.
const WORDS: &str =
    "get get get get get get get get again again again again again again again again drop drop give give give \
give give give detach query query query turn turn turn turn turn turn ttl tapes tapes close gone";

// What calls return.
const ANSWERS: &str =
    "lease pending closed full dial failed done no left moved open answered there";

// How often each of these was returned.
type Tally = [u64; 13];

fn count(tally: &mut Tally, told: &str) {
    for (name, count) in ANSWERS.split(' ').zip(tally.iter_mut()) {
        if name == told {
            *count = count.saturating_add(1);
        }
    }
}

// One of the words of a text.
fn some(dice: &mut Dice, text: &'static str, by: char) -> &'static str {
    let index = dice.below(text.split(by).count() as u64) as usize;
    text.split(by).nth(index).unwrap_or("")
}

// Whether the core is as it should be. Its ages and numbers are below those that are shown, which rise with them.
fn is_well(alloc: Global, table: &Table, shown: &mut Shown) -> Result<bool, NoMemory> {
    let core = table.pool.core();
    let opts = table.pool.opts().pool_opts();
    let connections = core.connections(alloc)?;
    let requests = core.requests(alloc)?;
    for connection in connections.iter() {
        shown.number = shown.number.max(connection.number.saturating_add(1));
    }
    for request in requests.iter() {
        shown.age = shown.age.max(request.age.saturating_add(1));
    }
    Ok(is_sound(
        core,
        connections.as_slice(),
        requests.as_slice(),
        shown,
        opts.constraints().max(),
        opts.active_bound(),
    ))
}

// Calls from a seed are made: whether the core was as it should be after each.
fn plays(
    rt: &impl Abort,
    alloc: Global,
    table: &mut Table,
    hands: &mut Hands,
    dice: &mut Dice,
    tally: &mut Tally,
) -> Result<bool, NoMemory> {
    let mut shown = Shown {
        age: 0,
        number: 1000,
        settled: false,
    };
    for call in 0..CALLS {
        let word = some(dice, WORDS, ' ');
        let first = match word {
            "get" | "turn" | "ttl" => call,
            _ => dice.below(4),
        };
        if word != "close" || call >= CALLS / 4 * 3 {
            match called(rt, alloc, table, hands, word, first, call)? {
                Some((told, _, _)) => count(tally, told),
                None => return Ok(false),
            }
            if !is_well(alloc, table, &mut shown)? {
                return Ok(false);
            }
        }
    }
    Ok(table.count_told(alloc)? > 0)
}

// The pool is closed, and its connections end by turns: whether it is gone then.
fn ends(alloc: Global, table: &mut Table) -> bool {
    table.pool.close();
    for now in 0..10u64 {
        if turn(alloc, &mut table.pool, now) == 0 {
            return table.pool.poll_disconnect();
        }
    }
    false
}

// Links play what the seed says, and calls from it are made.
fn plays_linked(
    rt: &impl Abort,
    alloc: Global,
    table: &mut Table,
    hands: &mut Hands,
    dice: &mut Dice,
    tally: &mut Tally,
) -> Result<bool, NoMemory> {
    for number in 0..LINKS {
        let words = some(dice, PLAYS, '\n');
        play(alloc, &mut table.world, number.saturating_add(1000), words)?;
    }
    plays(rt, alloc, table, hands, dice, tally)
}

// The same of a new pool, which ends.
fn round(rt: &impl Abort, alloc: Global, tally: &mut Tally, seed: u64) -> Result<bool, NoMemory> {
    let mut dice = Dice::new(seed);
    let mut table = Table::new(alloc, some(&mut dice, POOLS, '\n'))?;
    let mut hands = Hands::new();
    let well = plays_linked(rt, alloc, &mut table, &mut hands, &mut dice, tally);
    hands.end(rt, &mut table.pool);
    let gone = ends(alloc, &mut table);
    drop(table);
    Ok(well? && gone)
}

#[test]
fn calls(rt: HostRuntime) -> Result<(), Fail> {
    let mut tally = [0u64; 13];
    for seed in 0..ROUNDS {
        assert!(rt;
            round(&rt, rt.alloc(), &mut tally, seed)?,
            "the calls of {seed}"
        );
    }
    assert!(rt; tally.iter().all(|count| *count >= 100));
    Ok(())
}
