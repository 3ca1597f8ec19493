//! Bounds of pools, when their connections end, and what a transaction begins with.

use crate::options::say_bounds;
use crate::words::{millis, number, say, say_number};
use my_frame::Listed;
use my_opts::{
    DEFAULT_PORT, DEFAULT_STMT_CACHE_SIZE, IsolationLevel, Millis, PoolConstraints, PoolOpts,
    TxOpts, UrlFault,
};
use std::alloc::Global;
use std::net::{IpAddr, Ipv4Addr};

/// Adds bounds that a pool can have. The words: the lower and the upper one.
pub fn say_constraints(text: &mut String, words: &str) {
    let min = number(words, 0).unwrap_or(u64::MAX);
    match PoolConstraints::new(min, number(words, 1).unwrap_or(u64::MAX)) {
        Some(bounds) => say_bounds(text, bounds),
        None => say(text, "none"),
    }
}

/// Adds when a connection ends. The words: its time to live and the jitter in milliseconds, `-` for none, now, and a random
/// number.
pub fn say_end(text: &mut String, words: &str) {
    let pool = PoolOpts::new()
        .with_abs_conn_ttl(millis(words, 0))
        .with_abs_conn_ttl_jitter(millis(words, 1));
    let now = number(words, 2).unwrap_or(u64::MAX);
    match pool.new_deadline(now, number(words, 3).unwrap_or(u64::MAX)) {
        Some(end) => say_number(text, "", end),
        None => say(text, "none"),
    }
}

/// Adds how many connections stay where idle ones stay so many milliseconds.
pub fn say_kept(text: &mut String, words: &str) {
    let ttl = Millis::from_millis(number(words, 0).unwrap_or(u64::MAX));
    let pool = PoolOpts::new().with_inactive_connection_ttl(ttl);
    say_number(text, "", u128::from(pool.active_bound()));
}

fn say_levels(text: &mut String) {
    let levels = [
        IsolationLevel::ReadUncommitted,
        IsolationLevel::ReadCommitted,
        IsolationLevel::RepeatableRead,
        IsolationLevel::Serializable,
    ];
    for level in levels {
        let _ = write!(text, ", {level} ");
        say_number(text, "", u128::from(level.number()));
    }
}

fn transaction() -> TxOpts {
    let mut opts = TxOpts::new();
    opts.with_consistent_snapshot(true)
        .with_isolation_level(Some(IsolationLevel::ReadCommitted))
        .with_readonly(Some(false));
    opts
}

// Whether a transaction's options are what was set, and not the default ones.
fn is_kept(opts: &TxOpts) -> bool {
    opts.consistent_snapshot()
        && opts.isolation_level() == Some(IsolationLevel::ReadCommitted)
        && opts.readonly() == Some(false)
        && *opts != TxOpts::default()
}

// Whether options of a transaction and of a pool equal their copies.
fn are_copied(opts: &TxOpts) -> bool {
    matches!(opts.clone(), Ok(copy) if copy == *opts)
        && matches!(PoolOpts::default().clone(), Ok(copy) if copy == PoolOpts::new())
}

fn is_list_copied(alloc: Global) -> bool {
    let mut ips = Listed::new(alloc);
    let _ = ips.push(IpAddr::V4(Ipv4Addr::new(10, 0, 0, 1)));
    matches!(ips.copy(alloc), Ok(copy) if copy == ips)
}

/// Adds the defaults that are constants, whether options of a transaction are kept and copies are equal, the levels of
/// transactions with their numbers, and what out of memory says.
pub fn say_defaults(alloc: Global, text: &mut String) {
    say_number(text, "", u128::from(DEFAULT_PORT));
    say_number(text, " ", u128::from(DEFAULT_STMT_CACHE_SIZE));
    let opts = transaction();
    say(text, if is_kept(&opts) { " kept" } else { " lost" });
    say(
        text,
        if are_copied(&opts) && is_list_copied(alloc) {
            " copied"
        } else {
            " other"
        },
    );
    say_levels(text);
    let _ = write!(text, ", {}", UrlFault::NoMemory);
}
