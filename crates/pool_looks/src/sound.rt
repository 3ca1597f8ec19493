//! What holds of each state of a pool, as tests of it, with the answers of its look-ups beside a look through its lists.

use my_pool_core::{Answer, Core, PollAnswer};
use my_pool_parts::{Connection, Place, PlaceKind, Request, Standing};

/// What the answers of a pool show of it: the next age, the next number, and whether it is settled.
#[derive(Clone, Copy)]
pub struct Shown {
    pub age: u64,
    pub number: u64,
    pub settled: bool,
}

impl Shown {
    /// Holds what an answer shows; `empty` is whether the pool is closed and counts nothing.
    pub fn follow(&mut self, answer: Answer, empty: bool) {
        match answer {
            Answer::Age(age) => if age != u64::MAX {
                self.age = age.saturating_add(1);
            },
            Answer::Poll(PollAnswer::Dial(number)) => self.number = number.saturating_add(1),
            Answer::Returned(None) => self.settled = self.settled || empty,
            _ => {}
        }
    }
}

// How many requests stand so.
fn count_standing(requests: &[Request], standing: Standing) -> u64 {
    let mut count = 0u64;
    for request in requests {
        if request.standing == standing {
            count = count.saturating_add(1);
        }
    }
    count
}

// How many connections have a number.
fn count_number(connections: &[Connection], number: u64) -> u64 {
    let mut count = 0u64;
    for connection in connections {
        if connection.number == number {
            count = count.saturating_add(1);
        }
    }
    count
}

// How many connections are idle.
fn count_idle(connections: &[Connection]) -> u64 {
    let mut count = 0u64;
    for connection in connections {
        if connection.place.is(PlaceKind::Idle) {
            count = count.saturating_add(1);
        }
    }
    count
}

// How many connections are being cleaned, reset or closed.
fn count_working(connections: &[Connection]) -> u64 {
    let mut count = 0u64;
    for connection in connections {
        let place = connection.place;
        if place.is(PlaceKind::Cleaning)
            || place.is(PlaceKind::Resetting)
            || place.is(PlaceKind::Closing)
        {
            count = count.saturating_add(1);
        }
    }
    count
}

// The least number, not below `from`, of a connection at a kind of place.
fn scanned_next(connections: &[Connection], kind: PlaceKind, from: u64) -> Option<u64> {
    let mut next: Option<u64> = None;
    for connection in connections {
        let number = connection.number;
        if connection.place.is(kind) && from <= number && number <= next.unwrap_or(u64::MAX) {
            next = Some(number);
        }
    }
    next
}

// Whether a connection's number is counted once and below the next one, one that is being made or looked at has the one request
// that does it, and look-ups find it.
fn is_connection_sound(
    core: &Core,
    connections: &[Connection],
    requests: &[Request],
    connection: &Connection,
) -> bool {
    let number = connection.number;
    let made = u64::from(matches!(connection.place, Place::Connecting));
    let looked_at = u64::from(matches!(connection.place, Place::Checking));
    for kind in [
        PlaceKind::Idle,
        PlaceKind::Leased,
        PlaceKind::Cleaning,
        PlaceKind::Closing,
    ] {
        if core.next_at(kind, number) != scanned_next(connections, kind, number) {
            return false;
        }
    }
    count_number(connections, number) == 1
        && count_standing(requests, Standing::Dials(number)) == made
        && count_standing(requests, Standing::Checks(number)) == looked_at
        && core.connection(number) == Some(*connection)
}

// Whether each connection is sound.
fn are_connections_sound(
    core: &Core,
    connections: &[Connection],
    requests: &[Request],
    shown: &Shown,
) -> bool {
    for connection in connections {
        if connection.number >= shown.number
            || !is_connection_sound(core, connections, requests, connection)
        {
            return false;
        }
    }
    true
}

// Whether a request is there as a state's soundness asks for: below the next age but for the last one, which asks and has closed
// the pool; marked where it waits or was woken; waiting only in an open pool; and its connection is counted.
fn is_request_sound(core: &Core, request: &Request, shown: &Shown) -> bool {
    let last = request.age == u64::MAX;
    let asks = matches!(request.standing, Standing::Asks);
    let there = match request.standing {
        Standing::Dials(number) | Standing::Checks(number) => core.connection(number).is_some(),
        _ => true,
    };
    (request.age < shown.age || last)
        && (!last || (asks && core.is_closed()))
        && (!request.is_queued() || request.waited)
        && !(core.is_closed() && request.is_waiting())
        && there
}

// Whether the ages rise, each request is sound and look-ups find it, and there are numbers and room for those that may dial.
fn are_requests_sound(core: &Core, requests: &[Request], shown: &Shown) -> bool {
    let mut least = 0u64;
    let mut dialers = 0u64;
    for request in requests {
        if request.age < least
            || !is_request_sound(core, request, shown)
            || core.live_request(request.age) != Some(*request)
            || core.is_waiting(request.age) != request.is_waiting()
        {
            return false;
        }
        least = request.age.saturating_add(1);
        if !request.is_dialing() && request.age != u64::MAX {
            dialers = dialers.saturating_add(1);
        }
    }
    dialers <= u64::MAX.saturating_sub(shown.number) && dialers <= core.spare()
}

// Whether the woken requests before the first waiting one, which is the oldest one that waits, are as many as what they may have.
fn is_covered(core: &Core, connections: &[Connection], requests: &[Request], max: u64) -> bool {
    let left = max.saturating_sub(connections.len() as u64);
    let mut woken = 0u64;
    for request in requests {
        if request.is_waiting() {
            return core.oldest_waiting() == Some(request.age)
                && (core.is_closed() || count_idle(connections).saturating_add(left) <= woken);
        }
        if request.is_queued() {
            woken = woken.saturating_add(1);
        }
    }
    core.oldest_waiting().is_none()
}

/// Whether a pool with these lists is sound, counts no more connections than `max`, no more idle ones than `bound`, and is
/// covered.
pub fn is_sound(
    core: &Core,
    connections: &[Connection],
    requests: &[Request],
    shown: &Shown,
    max: u64,
    bound: u64,
) -> bool {
    are_connections_sound(core, connections, requests, shown)
        && connections.len() as u64 <= max
        && count_idle(connections) <= bound
        && core.count_working() as u64 == count_working(connections)
        && core.count_live() == requests.len()
        && are_requests_sound(core, requests, shown)
        && is_covered(core, connections, requests, max)
}
