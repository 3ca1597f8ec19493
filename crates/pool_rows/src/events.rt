//! Events from random numbers.

use my_pool_core::{Facts, PoolEvent};
use my_pool_parts::{Connection, Request, Standing};
use pool_looks::{Dice, event_by};

// What may be known of a connection.
fn some_facts(dice: &mut Dice, now: u64) -> Facts {
    let deadline = u128::from(now) + u128::from(dice.below(6));
    Facts {
        link_closed: dice.below(10) == 0,
        dirty: dice.below(6) == 0,
        expired: dice.below(10) == 0,
        reset: dice.below(3) == 0,
        last_io: now,
        ttl: u128::from(dice.below(3)),
        deadline: if dice.below(3) == 0 {
            Some(deadline)
        } else {
            None
        },
    }
}

// The age of some request, and the number of its connection, or the moment where it has none.
fn some_request(dice: &mut Dice, requests: &[Request], now: u64) -> (u64, u64) {
    let index = dice.below(requests.len() as u64) as usize;
    match requests.get(index) {
        Some(request) => match request.standing {
            Standing::Dials(number) | Standing::Checks(number) => (request.age, number),
            _ => (request.age, now),
        },
        None => (0, now),
    }
}

// The number of some connection.
fn some_number(dice: &mut Dice, connections: &[Connection]) -> u64 {
    let index = dice.below(connections.len() as u64) as usize;
    match connections.get(index) {
        Some(connection) => connection.number,
        None => 0,
    }
}

// Words of events, as often as they are drawn.
const WORDS: &str =
    "ask ask ask ask ask ask ask poll poll poll poll poll poll poll poll poll poll poll poll cancel cancel ready ready ready \
ready ready ready ready ready ready ready ready ready ready ready failed failed failed give give give give \
give give give give give give give give give give detach detach next next next next next decide decide decide \
decide decide decide decide decide decide decide decide decide decide decide decide decide decide decide \
decide decide done done done done done done done done done done badly badly badly ttl ttl ttl ttl close close \
gone gone";

/// The word of some event.
pub fn some_word(dice: &mut Dice) -> &'static str {
    let index = dice.below(100) as usize;
    WORDS.split(' ').nth(index).unwrap_or("")
}

/// Some event of a word, which needn't be one that may happen.
pub fn some_event(
    dice: &mut Dice,
    word: &str,
    connections: &[Connection],
    requests: &[Request],
    now: u64,
) -> Option<PoolEvent> {
    let facts = some_facts(dice, now);
    let (first, second) = match word {
        "poll" | "cancel" | "ready" | "failed" => some_request(dice, requests, now),
        "ttl" => (now.saturating_add(dice.below(10)), 0),
        _ => (some_number(dice, connections), now),
    };
    event_by(word, first, second, facts)
}
