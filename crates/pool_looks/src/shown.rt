//! What a row says of how a pool looks.

use crate::words::{is_wanted, numbers_of};
use my_pool_core::Core;
use my_pool_parts::{Place, Standing};

fn stands(standing: Standing) -> &'static str {
    match standing {
        Standing::Asks => "asks",
        Standing::Waits => "waits",
        Standing::Woken => "woken",
        Standing::Dials(_) => "dials",
        Standing::Checks(_) => "checks",
    }
}

// A length of time; the greatest number of 64 bits where it is longer.
fn short(millis: u128) -> u64 {
    u64::try_from(millis).unwrap_or(u64::MAX)
}

fn is_there(place: Place, want: &str) -> bool {
    match place {
        Place::Idle(times) => {
            let deadline = short(times.deadline.unwrap_or(0));
            is_wanted(
                want,
                "idle",
                &[times.since, deadline, times.last_io, short(times.ttl)],
                0,
            )
        }
        Place::Returned { marked } => is_wanted(want, "returned", &[u64::from(marked)], 0),
        Place::Leased => want == "leased",
        Place::Connecting => want == "connecting",
        _ => false,
    }
}

fn counts(core: &Core, want: &str) -> bool {
    let metrics = core.metrics();
    let numbers = [
        metrics.connection_count,
        metrics.connections_in_pool,
        metrics.connections_in_use,
        metrics.active_wait_requests,
        metrics.create_failed,
        metrics.discarded_unestablished_connection,
        metrics.dirty_connection_return,
        metrics.discarded_expired_connection,
        metrics.resetting_connection,
        metrics.discarded_superfluous_connection,
        metrics.connection_returned_to_pool,
        metrics.discarded_error_during_cleanup,
    ];
    is_wanted(want, "counts", &numbers, 0)
}

/// Whether a pool looks so.
pub fn looks(core: &Core, given: &str, want: &str) -> bool {
    let [number, ..] = numbers_of(given);
    match given.split_once(' ') {
        Some(("request", _)) => match core.live_request(number) {
            Some(request) => {
                is_wanted(
                    want,
                    stands(request.standing),
                    &[u64::from(request.waited)],
                    0,
                )
            }
            None => want == "none",
        },
        Some(("place", _)) => match core.connection(number) {
            Some(connection) => is_there(connection.place, want),
            None => want == "none",
        },
        Some(_) => false,
        None if given == "metrics" => counts(core, want),
        None if given == "live" => is_wanted(want, "number", &[core.count_live() as u64], 0),
        None if given == "working" => {
            is_wanted(want, "number", &[core.count_working() as u64], 0)
        }
        None => match core.oldest_waiting() {
            Some(age) => given == "oldest" && is_wanted(want, "age", &[age], 0),
            None => given == "oldest" && want == "none",
        },
    }
}
