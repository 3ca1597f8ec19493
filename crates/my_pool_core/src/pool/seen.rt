//! What is seen of a pool.

ghost use Rattle.std.specs.Prelude.{◌≡◌, ◌<◌, ◌^◌, MatchOption, IfOk, find, length};
ghost use Rattle.my_pool_parts.specs.Connections.{has_number};
ghost use Rattle.my_pool_parts.specs.Requests.{has_age, IsRising};
ghost use Rattle.my_pool_core.specs.Counted.{working};
ghost use Rattle.my_pool_core.specs.Owners.{IsNextAt, IsNoneAt};
ghost use Rattle.my_pool_core.specs.Sound.{IsSound};
ghost use Rattle.my_pool_core.specs.Wakes.{waits, oldest_waiting};

use super::Core;
use my_frame::NoMemory;
use my_pool_parts::{Connection, PlaceKind, Request};
use std::alloc::Global;

impl Core {
    /// The state of a pool is sound. This does nothing; it is for callers whose proof needs that fact.
    pub fn is_sound(&self)
        ensures { IsSound self.now }
    {
        let _ = &self.limits;
    }

    /// The age of the oldest request that waits, which is the one that the next event that wakes one wakes.
    pub fn oldest_waiting(&self) -> Option<u64>
        ensures { result ≡ oldest_waiting self.now }
    {
        self.requests.oldest()
    }

    /// Whether the request of an age waits.
    pub fn is_waiting(&self, age: u64) -> bool
        ensures { result ≡ waits age self.now }
    {
        match self.requests.find(age) {
            Some(request) => request.is_waiting(),
            None => false,
        }
    }

    /// The live request of an age.
    pub fn live_request(&self, age: u64) -> Option<Request>
        ensures { result ≡ find (has_age age) self.now.requests }
    {
        self.requests.find(age)
    }

    /// The counted connection of a number.
    pub fn connection(&self, number: u64) -> Option<Connection>
        ensures { result ≡ find (has_number number) self.now.connections }
    {
        self.connections.find(number)
    }

    /// The least number, not below `from`, of a connection at a place of a kind.
    pub fn next_at(&self, kind: PlaceKind, from: u64) -> Option<u64>
        ensures { MatchOption result (IsNoneAt kind from self.now) (λ number. IsNextAt kind from number self.now) }
    {
        self.connections.next_at(kind, from)
    }

    /// The counted connections with their places, in the order in which they came to them.
    pub fn connections(&self, alloc: Global) -> Result<Vec<Connection>, NoMemory>
        ensures { IfOk result (λ connections. connections.items ≡ self.now.connections) }
    {
        self.connections.list(alloc)
    }

    /// The live requests, from the oldest on.
    pub fn requests(&self, alloc: Global) -> Result<Vec<Request>, NoMemory>
        ensures list { IfOk result (λ requests. requests.items ≡ self.now.requests) }
        ensures rising { IsRising 0 self.now.requests }
    {
        self.requests.list(alloc)
    }

    /// How many requests are live.
    pub fn count_live(&self) -> usize
        ensures count { result ≡ length self.now.requests }
        ensures small { result < 2 ^ 63 }
    {
        self.requests.len()
    }

    /// How many connections are being cleaned, reset or closed.
    pub fn count_working(&self) -> usize
        ensures { result ≡ working self.now }
    {
        self.connections.count_working()
    }

    /// Whether the pool is closed.
    pub fn is_closed(&self) -> bool
        ensures { result ≡ self.now.closed }
    {
        self.closed
    }

    /// For how many more connections there is room.
    pub fn spare(&self) -> u64
        ensures { result ≡ self.now.spare }
    {
        self.spare
    }
}
