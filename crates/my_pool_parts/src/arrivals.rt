//! Connections in the order in which they came to their places, found by number.

ghost use Rattle.std.specs.Prelude.{◌≡◌, ◌≤◌, ◌<◌, ◌+◌, ◌-◌, ◌^◌, ◌++◌, [], ◌∷◌, IsTrue, find, option_map, None, OnOk, OnErr, IfOk};
ghost use Rattle.std.specs.List.{list_any};
ghost use Rattle.my_pool_parts.specs.Connections.{has_number, move_to, placed};
ghost use Rattle.my_frame.specs.Lists.{without};
ghost use Rattle.my_pool_parts.specs.Arrived.{arrived};
ghost use Rattle.my_pool_parts.specs.Next.{least_at};

use crate::connection::{Connection, Place, PlaceKind};
use crate::places::Places;
use my_frame::NoMemory;
use std::alloc::Global;
use std::marker::Model;

/// Counted connections with their places, and the numbers that may still come.
#[derive(Drop)]
pub struct Arrivals {
    places: Places,
    /// The next number.
    next: u64,
    /// How many numbers from the next one on have their memory.
    coming: u64,
}

impl Model for Arrivals {
    ghost use Rattle.my_pool_parts.specs.Arrived.{Arrived, arrived, counted, IsArrived};

    ghost Value = { Arrived };

    ghost view = { λ a. arrived (counted a.places) a.next a.coming };

    ghost invariant = { λ a. IsArrived a.places a.next a.coming };
}

impl Arrivals {
    /// No connection; the first will have this number.
    pub fn new(alloc: Global, first: u64) -> Arrivals
        ensures { result ≡ arrived [] first 0 }
    {
        Arrivals {
            places: Places::new(alloc),
            next: first,
            coming: 0,
        }
    }

    /// The next number.
    pub fn next(&self) -> u64
        ensures { result ≡ self.now.next }
    {
        self.next
    }

    /// How many numbers from the next one on have their memory.
    pub fn coming(&self) -> u64
        ensures { result ≡ self.now.coming }
    {
        self.coming
    }

    /// Where the connection of a number is.
    pub fn place(&self, number: u64) -> Option<Place>
        ensures { result ≡ option_map (λ c. c.place) (find (has_number number) self.now.list) }
    {
        match self.places.peek(number) {
            Some(place) => place,
            None => None,
        }
    }

    /// The connection of a number gets a place, and goes to the end.
    pub fn move_to(&mut self, number: u64, place: Place)
        requires { IsTrue (list_any (has_number number) self.old.list) }
        ensures { self.new ≡ arrived (move_to number place self.old.list) self.old.next self.old.coming }
    {
        self.places.put(number, Some(place));
    }

    /// The connection of a number is taken out.
    pub fn take_out(&mut self, number: u64)
        requires { IsTrue (list_any (has_number number) self.old.list) }
        ensures { self.new ≡ arrived (without (has_number number) self.old.list) self.old.next self.old.coming }
    {
        self.places.pop(number);
    }

    /// The next number comes to a place.
    pub fn add(&mut self, place: Place) -> u64
        requires { 0 < self.old.coming }
        ensures number { result ≡ self.old.next }
        ensures fresh { find (has_number self.old.next) self.old.list ≡ None }
        ensures arrives { self.new
            ≡ arrived (self.old.list ++ placed self.old.next place ∷ []) (self.old.next + 1) (self.old.coming - 1) }
    {
        let number = self.next;
        self.places.put(number, Some(place));
        self.next = number + 1;
        self.coming -= 1;
        number
    }

    /// One more number may come. Out of memory, nothing changes.
    pub fn reserve(&mut self) -> Result<(), NoMemory>
        requires { self.old.next + self.old.coming < 2 ^ 64 - 1 }
        ensures ok { OnOk result (self.new ≡ arrived self.old.list self.old.next (self.old.coming + 1)) }
        ensures err { OnErr result (self.new ≡ self.old) }
    {
        self.places.insert(self.next + self.coming)?;
        self.coming += 1;
        Ok(())
    }

    /// The connections, in the order in which they came to their places.
    pub fn list(&self, alloc: Global) -> Result<Vec<Connection>, NoMemory>
        ensures { IfOk result (λ all. all.items ≡ self.now.list) }
    {
        self.places.list(alloc)
    }

    /// The least number, not below `from`, of a connection at a place of a kind.
    pub fn next_at(&self, kind: PlaceKind, from: u64) -> Option<u64>
        ensures { result ≡ least_at kind from None self.now.list }
    {
        self.places.next_at(kind, from)
    }
}
