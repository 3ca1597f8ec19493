//! The counted connections, in the order in which they came to their places.

ghost use Rattle.std.specs.Prelude.{◌≡◌, ◌≤◌, ◌<◌, ◌+◌, ◌-◌, ◌^◌, ◌++◌, [], ◌∷◌, IsTrue, None, find, length, OnOk, IfOk};
ghost use Rattle.std.specs.List.{list_any};
ghost use Rattle.my_pool_parts.specs.Connections.{has_number, is_kind, is_marked, move_to, placed, is_idle, is_leased, is_at_work, latest_usable, retire, is_usable, is_outdated, lasting, outdated, next_to_clean};
ghost use Rattle.my_pool_parts.specs.Next.{least_at};
ghost use Rattle.my_frame.specs.Lists.{without};
ghost use Rattle.my_pool_parts.specs.Lists.{how_many, found_is};
ghost use Rattle.my_pool_parts.specs.Stored.{stored, IsIdleAt, connecting};

use crate::arrivals::Arrivals;
use crate::connection::{Connection, Place, PlaceKind, is_at, is_at_work};
use crate::turns::Turns;
use my_frame::NoMemory;
use std::alloc::Global;
use std::marker::Model;

/// Counted connections with their places. One is found by its number; the idle and the returned ones stand in queues.
///
/// Only `reserve`, `expect` and `list` take memory.
#[derive(Drop)]
pub struct Connections {
    arrivals: Arrivals,
    /// The numbers of the idle ones, the one that is idle longest first.
    idle: Turns,
    /// The numbers of the returned ones, the one that returned first first.
    returned: Turns,
    count: usize,
    leased: usize,
    /// How many are being cleaned, reset or closed.
    working: usize,
    /// For how many connections there is room in the queues.
    room: usize,
}

impl Model for Connections {
    ghost use Rattle.my_pool_parts.specs.Stored.{Stored, stored, IsStored};

    ghost Value = { Stored };

    ghost view = { λ c. stored c.arrivals.list c.arrivals.next c.arrivals.coming c.room };

    ghost invariant = { λ c. IsStored c.arrivals.list c.idle.items c.returned.items c.count c.leased c.working
        c.room c.idle.room c.returned.room };
}

impl Connections {
    /// No connection; the first will have this number.
    pub fn new(alloc: Global, first: u64) -> Connections
        ensures { result ≡ stored [] first 0 0 }
    {
        Connections {
            arrivals: Arrivals::new(alloc, first),
            idle: Turns::new(alloc),
            returned: Turns::new(alloc),
            count: 0,
            leased: 0,
            working: 0,
            room: 0,
        }
    }

    /// How many there are.
    pub fn len(&self) -> usize
        ensures { result ≡ length self.now.list }
    {
        self.count
    }

    /// How many are idle.
    pub fn count_idle(&self) -> usize
        ensures { result ≡ how_many is_idle self.now.list }
    {
        self.idle.len()
    }

    /// How many are leased.
    pub fn count_leased(&self) -> usize
        ensures { result ≡ how_many is_leased self.now.list }
    {
        self.leased
    }

    /// How many are being cleaned, reset or closed.
    pub fn count_working(&self) -> usize
        ensures { result ≡ how_many is_at_work self.now.list }
    {
        self.working
    }

    /// The number of the idle one before which `index` others stand.
    fn idle_at(&self, index: usize) -> u64
        requires { index < how_many is_idle self.now.list }
        ensures { IsIdleAt index result self.now.list }
    {
        self.idle.get(index).unwrap()
    }

    /// A counted connection is taken out.
    fn take(&mut self, number: u64)
        requires { IsTrue (list_any (has_number number) self.old.list) }
        ensures { self.new
            ≡ stored (without (has_number number) self.old.list) self.old.next self.old.coming self.old.room }
    {
        let old = self.arrivals.place(number);
        self.idle.leave(is_at(&old, PlaceKind::Idle), number);
        self.returned
            .leave(is_at(&old, PlaceKind::Returned), number);
        self.leased -= usize::from(is_at(&old, PlaceKind::Leased));
        self.working -= usize::from(is_at_work(&old));
        self.count -= 1;
        self.arrivals.take_out(number);
    }

    /// The connection of a number gets a place, and goes to the end.
    pub fn move_to(&mut self, number: u64, place: Place)
        requires { IsTrue (list_any (has_number number) self.old.list) }
        ensures { self.new
            ≡ stored (move_to number place self.old.list) self.old.next self.old.coming self.old.room }
    {
        let old = self.arrivals.place(number);
        let new = Some(place);
        self.idle.leave(is_at(&old, PlaceKind::Idle), number);
        self.returned
            .leave(is_at(&old, PlaceKind::Returned), number);
        self.idle.enter(is_at(&new, PlaceKind::Idle), number);
        self.returned
            .enter(is_at(&new, PlaceKind::Returned), number);
        self.leased = self.leased - usize::from(is_at(&old, PlaceKind::Leased))
            + usize::from(is_at(&new, PlaceKind::Leased));
        self.working = self.working - usize::from(is_at_work(&old)) + usize::from(is_at_work(&new));
        self.arrivals.move_to(number, place);
    }

    /// The connection of a number is taken out, if there is one.
    pub fn take_out(&mut self, number: u64)
        ensures small { self.old.room < 2 ^ 63 }
        ensures state { self.new
            ≡ stored (without (has_number number) self.old.list) self.old.next self.old.coming self.old.room }
    {
        if self.arrivals.place(number).is_some() {
            self.take(number);
        }
    }

    /// The connection of a number.
    pub fn find(&self, number: u64) -> Option<Connection>
        ensures { result ≡ find (has_number number) self.now.list }
    {
        match self.arrivals.place(number) {
            Some(place) => Some(Connection { number, place }),
            None => None,
        }
    }

    /// The next number.
    pub fn next(&self) -> u64
        ensures { result ≡ self.now.next }
    {
        self.arrivals.next()
    }

    /// The next number is being connected.
    pub fn add(&mut self) -> u64
        requires memory { 0 < self.old.coming }
        requires room { length self.old.list < self.old.room }
        ensures number { result ≡ self.old.next }
        ensures state { let all = self.old.list ++ placed self.old.next connecting ∷ []
            in self.new ≡ stored all (self.old.next + 1) (self.old.coming - 1) self.old.room }
    {
        self.count += 1;
        self.arrivals.add(Place::Connecting)
    }

    /// There is room for `more` connections beside those that are counted. Out of memory, there may be less.
    pub fn reserve(&mut self, more: usize) -> Result<(), NoMemory>
        requires { more ≤ 2 ^ 63 }
        ensures same { self.new ≡ stored self.old.list self.old.next self.old.coming self.new.room }
        ensures grows { self.old.room ≤ self.new.room }
        ensures ok { OnOk result (length self.old.list + more ≤ self.new.room) }
    {
        let room = self.count + more;
        if room <= self.room {
            return Ok(());
        }
        self.idle.reserve(room)?;
        self.returned.reserve(room)?;
        self.room = room;
        Ok(())
    }

    /// At least `numbers` numbers have their memory from now on. Out of memory, as many as before.
    pub fn expect(&mut self, numbers: u64) -> Result<(), NoMemory>
        requires more { numbers ≤ self.old.coming + 1 }
        requires limited { self.old.next + numbers < 2 ^ 64 }
        ensures same { self.new ≡ stored self.old.list self.old.next self.new.coming self.old.room }
        ensures grows { self.old.coming ≤ self.new.coming }
        ensures ok { OnOk result (numbers ≤ self.new.coming) }
    {
        if self.arrivals.coming() < numbers {
            self.arrivals.reserve()?;
        }
        Ok(())
    }

    /// The connection whose turn it is to be cleaned: the one that returned first, or where the pool is closed and none
    /// is returned the one that is idle longest.
    pub fn next_to_clean(&self, closed: bool) -> Option<Connection>
        ensures { result ≡ next_to_clean closed self.now.list }
    {
        if let Some(number) = self.returned.get(0) {
            return self.find(number);
        }
        if !closed {
            return None;
        }
        match self.idle.get(0) {
            Some(number) => self.find(number),
            None => None,
        }
    }

    /// Whether the connection of a number is idle and may be used.
    fn is_usable(&self, number: u64, now: u64) -> bool
        ensures { result ≡ found_is (is_usable now) (find (has_number number) self.now.list) }
    {
        match self.find(number) {
            Some(connection) => connection.place.is_usable(now),
            None => false,
        }
    }

    /// Whether the connection of a number is idle and doesn't stay, where `moved` of `many` that need not stay have
    /// gone before it.
    fn is_outdated(&self, number: u64, now: u64, inactive: u128, many: usize, moved: usize) -> bool
        ensures { result
            ≡ found_is (λ c. is_outdated now inactive many moved c.place) (find (has_number number) self.now.list) }
    {
        match self.find(number) {
            Some(connection) => connection.place.is_outdated(now, inactive, many, moved),
            None => false,
        }
    }

    /// The idle connections from the latest on, up to one that isn't expired, are returned; returns that one.
    pub fn retire(&mut self, now: u64) -> Option<u64>
        ensures state { self.new
            ≡ stored (retire now self.old.list) self.old.next self.old.coming self.old.room }
        ensures latest { result ≡ latest_usable now self.old.list }
    {
        let mut left = self.count_idle();
        while left > 0 {
            left -= 1;
            let number = self.idle_at(left);
            if self.is_usable(number, now) {
                return Some(number);
            }
            self.move_to(number, Place::Returned { marked: false });
        }
        None
    }

    /// The idle connections that don't stay are returned and marked, those that are idle longest first; returns how
    /// many.
    pub fn sweep(&mut self, now: u64, inactive: u128, many: usize) -> usize
        ensures state { let all = self.old.list
            in self.new ≡ stored (lasting now inactive many 0 all ++ outdated now inactive many 0 all) self.old.next
            self.old.coming self.old.room }
        ensures moved { result ≡ length (outdated now inactive many 0 self.old.list) }
    {
        let mut index = 0;
        let mut moved = 0;
        'turns: for _ in 0..self.count_idle() {
            let number = self.idle_at(index);
            if self.is_outdated(number, now, inactive, many, moved) {
                self.move_to(number, Place::Returned { marked: true });
                moved += 1;
            } else {
                index += 1;
            }
        }
        moved
    }

    /// The connections, in the order in which they came to their places.
    pub fn list(&self, alloc: Global) -> Result<Vec<Connection>, NoMemory>
        ensures { IfOk result (λ all. all.items ≡ self.now.list) }
    {
        self.arrivals.list(alloc)
    }

    /// The least number, not below `from`, of a connection at a place of a kind.
    pub fn next_at(&self, kind: PlaceKind, from: u64) -> Option<u64>
        ensures { result ≡ least_at kind from None self.now.list }
    {
        self.arrivals.next_at(kind, from)
    }

    /// Whether the connection of a number is counted and at a place of a kind.
    pub fn is_at(&self, number: u64, kind: PlaceKind) -> bool
        ensures { result ≡ found_is (λ c. is_kind kind c.place) (find (has_number number) self.now.list) }
    {
        match self.find(number) {
            Some(connection) => connection.place.is(kind),
            None => false,
        }
    }

    /// Whether the connection of a number is marked.
    pub fn is_marked(&self, number: u64) -> bool
        ensures { result ≡ found_is is_marked (find (has_number number) self.now.list) }
    {
        match self.find(number) {
            Some(connection) => connection.place.mark(),
            None => false,
        }
    }
}
