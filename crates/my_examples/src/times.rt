//! The time that rounds took.

use std::fs;
use std::rt::{Clock, Files};

/// The system counts a process' time in hundredths of a second.
const TICK_NANOS: u64 = 10000000;

/// Nanoseconds since some start: by the clock, and of this process outside and inside the system.
#[derive(Clone, Copy)]
pub struct Times {
    pub wall: u64,
    pub user: u64,
    pub system: u64,
}

// The ticks of this process outside and inside the system.
#[derive(Clone, Copy)]
struct Ticks {
    user: u64,
    system: u64,
}

// The ticks that the text of /proc/self/stat tells: the 14th and 15th word, of which the second ends at the last bracket.
fn ticks_told(text: &str) -> Option<Ticks> {
    let (_, rest) = text.rsplit_once(')')?;
    let mut words = rest.split(' ').skip(12);
    let user = words.next()?.parse::<u64>().ok()?;
    let system = words.next()?.parse::<u64>().ok()?;
    Some(Ticks { user, system })
}

// The ticks so far; none where the system doesn't tell them.
fn read_ticks<R: Files + AllocGlobal>(rt: &R) -> Ticks {
    let none = Ticks { user: 0, system: 0 };
    match fs::read_to_string(rt, "/proc/self/stat") {
        Ok(text) => ticks_told(text.as_str()).unwrap_or(none),
        Err(_) => none,
    }
}

// By the clock; 0 where it can't be read.
fn nanos<R: Clock>(rt: &R) -> u64 {
    match rt.monotonic() {
        Ok(time) => time.as_nanos().min(u64::MAX as u128) as u64,
        Err(_) => 0,
    }
}

impl Times {
    /// The times so far; 0 where the system doesn't tell one.
    pub fn now<R: Clock + Files + AllocGlobal>(rt: &R) -> Times {
        let ticks = read_ticks(rt);
        Times {
            wall: nanos(rt),
            user: ticks.user.saturating_mul(TICK_NANOS),
            system: ticks.system.saturating_mul(TICK_NANOS),
        }
    }

    /// The times since these earlier ones.
    pub fn since(self, start: Times) -> Times {
        Times {
            wall: self.wall.saturating_sub(start.wall),
            user: self.user.saturating_sub(start.user),
            system: self.system.saturating_sub(start.system),
        }
    }
}
