//! A pool's state.

ghost use Rattle.std.specs.Prelude.{◌≡◌};
ghost use Rattle.my_pool_core.specs.Events.{new_pool};

mod asking;
mod made;
mod replay;
mod returning;
mod seen;
mod whole;

use crate::limits::{Counts, Limits};
use my_pool_parts::{Connections, Live};
use std::alloc::Global;
use std::marker::Model;

/// A pool on plain numbers: its connections are numbers, and its requests are their ages.
///
/// Each event is a method. Only `request` takes memory.
#[derive(Drop)]
pub struct Core {
    limits: Limits,
    closed: bool,
    settled: bool,
    connections: Connections,
    requests: Live,
    next_age: u64,
    spare: u64,
    counts: Counts,
}

impl Model for Core {
    ghost use Rattle.my_pool_core.specs.State.{State};
    ghost use Rattle.my_pool_core.specs.Sound.{IsKept};

    ghost Value = { State };

    ghost view = { λ c. record {
      limits = c.limits;
      closed = c.closed;
      settled = c.settled;
      connections = c.connections.list;
      requests = c.requests;
      next_age = c.next_age;
      next_number = c.connections.next;
      spare = c.spare;
      counts = c.counts;
    } };

    ghost invariant = { λ c. IsKept (record {
      limits = c.limits;
      closed = c.closed;
      settled = c.settled;
      connections = c.connections.list;
      requests = c.requests;
      next_age = c.next_age;
      next_number = c.connections.next;
      spare = c.spare;
      counts = c.counts;
    }) c.connections.room c.connections.coming };
}

impl Core {
    /// A pool with no connection, the first of which will have the number `first`.
    pub fn with_limits(alloc: Global, limits: Limits, first: u64) -> Core
        ensures { result ≡ new_pool limits first }
    {
        Core {
            limits,
            closed: false,
            settled: false,
            connections: Connections::new(alloc, first),
            requests: Live::new(alloc),
            next_age: 0,
            spare: 0,
            counts: Counts::new(),
        }
    }
}
