//! The live requests, by age, with the heap of those that wait.
//!
//! Each comparison of two ages by the heap is counted. A request is found in a map, whose own comparisons no clause
//! counts: they go down one path of its tree.

ghost use Rattle.std.specs.Prelude.{◌≡◌, ℕ, ◌+◌, ◌*◌, ◌^◌, ◌≤◌, ◌<◌, ◌++◌, [], ◌∷◌, Some, None, true, false, length, find, List, Option, slice_set, IfOk, OnOk, OnErr, if◌then◌else◌};
ghost use Rattle.std.specs.List.{list_any};
ghost use Rattle.my_pool_parts.specs.Ages.{age_of, how_many as how_many_held};
ghost use Rattle.my_pool_parts.specs.Lists.{how_many, found_is, change_first};
ghost use Rattle.my_pool_parts.specs.Requests.{last_age, asking, is_free, holds, has_age, is_waiting, is_queued, is_dialing, may_dial, set_standing, set_waiting, ended, wake, wake_all, waits_up_to, has_waited, with_last, IsRising, oldest_in, changed};
ghost use Rattle.my_pool_parts.specs.Live.{IsQueue};

use crate::heap::WaitHeap;
use crate::ledger::Ledger;
use crate::levels::Levels;
use crate::request::{LAST, Request, Standing};
use crate::seat::Seat;
use my_frame::NoMemory;
use std::alloc::Global;
use std::collections::BTreeMap;
use std::marker::Model;

/// The live requests.
#[derive(Drop)]
pub struct Live {
    /// Each request with its slot, by its age.
    seats: BTreeMap<u64, Seat>,
    /// The slots that no request has.
    free: Levels<usize>,
    /// The ages of those that wait.
    waiting: WaitHeap,
    /// How many make a connection.
    dialing: usize,
    /// How many wait, or were woken and not polled since.
    queued: usize,
}

impl Model for Live {
    ghost use Rattle.std.specs.Prelude.{List};
    ghost use Rattle.my_pool_parts.specs.declared.request.Request.{Request};
    ghost use Rattle.my_pool_parts.specs.Live.{requests_of, IsSeated};

    ghost Value = { List Request };

    ghost view = { λ l. requests_of l.seats.entries };

    ghost invariant = { λ l. IsSeated l.seats.entries l.free.items l.free.room l.waiting l.dialing l.queued };
}

/// A count, where one that was counted or not is counted or not from now on.
fn recount(count: usize, was: bool, is: bool) -> usize
    requires there { (if was then 1 else 0) ≤ count }
    requires room { count < 2 ^ 63 }
    ensures { result + (if was then 1 else 0) ≡ count + (if is then 1 else 0) }
{
    if was == is {
        count
    } else if is {
        count + 1
    } else {
        count - 1
    }
}

/// A slot is held by an age from now on, or free.
fn set_held<C: Ledger>(heap: &mut WaitHeap, slot: usize, age: u64, holds: bool, steps: &mut C)
    requires reserved { slot < length heap.old }
    requires alone { (s : ℕ) → age_of heap.old s ≡ Some age → s ≡ slot }
    requires same { (a : ℕ) → age_of heap.old slot ≡ Some a → a ≡ age }
    ensures ages { heap.new ≡ slice_set heap.old slot (if holds then Some age else None) }
    ensures cost { (d : ℕ) → how_many_held heap.old < 2 ^ d → C.noted steps.new ≤ C.noted steps.old + 2 * d + 1 }
{
    if heap.holds(slot) {
        if !holds {
            heap.remove(slot, steps);
        }
    } else if holds {
        heap.push(slot, age, steps);
    }
}

/// Afterwards there is a free slot beside those of `count` requests, and room for the slots that these free. Out of
/// memory, the slots stay as they are.
fn have_slot(free: &mut Levels<usize>, heap: &mut WaitHeap, count: usize) -> Result<(), NoMemory>
    requires small { count < 2 ^ 63 }
    requires roomy { count + length free.old.items ≤ free.old.room }
    ensures queue { (ages : List (Option ℕ)) (slots : List ℕ) → length slots ≡ count
        → IsQueue ages (slots ++ free.old.items) heap.old → IsQueue ages (slots ++ free.new.items) heap.new }
    ensures free { OnOk result (0 < length free.new.items) }
    ensures roomy { count + length free.new.items ≤ free.new.room }
    ensures small { free.new.room < 2 ^ 63 }
{
    if free.len() > 0 {
        return Ok(());
    }
    free.reserve(count + 1)?;
    heap.reserve(count + 1)?;
    free.push(count);
    Ok(())
}

impl Live {
    /// No request.
    pub fn new(alloc: Global) -> Live
        ensures { result ≡ [] }
    {
        Live {
            seats: BTreeMap::new(alloc),
            free: Levels::new(alloc),
            waiting: WaitHeap::new(alloc),
            dialing: 0,
            queued: 0,
        }
    }

    /// The requests, from the oldest on.
    pub fn list(&self, alloc: Global) -> Result<Vec<Request>, NoMemory>
        ensures { IfOk result (λ requests. requests.items ≡ self.now) }
    {
        let mut requests = Vec::new(alloc);
        for seat in self.seats.values() {
            requests.push(seat.request)?;
        }
        Ok(requests)
    }

    /// How many there are.
    pub fn len(&self) -> usize
        ensures count { result ≡ length self.now }
        ensures small { result < 2 ^ 63 }
    {
        self.seats.len()
    }

    /// The request of an age gets another standing, and counts as having waited from now on where it is to.
    fn change<C: Ledger>(&mut self, age: u64, waited: bool, standing: Standing, steps: &mut C)
        ensures requests { self.new ≡ change_first (has_age age) (changed waited standing) self.old }
        ensures cost { (d : ℕ) → length self.old < 2 ^ d → C.noted steps.new ≤ C.noted steps.old + 2 * d + 1 }
    {
        let Some(seat) = self.seats.get_mut(&age) else {
            return;
        };
        let Seat { request: old, slot } = *seat;
        let next = old.changed(waited, standing);
        seat.request = next;
        set_held(&mut self.waiting, slot, age, next.is_waiting(), steps);
        self.dialing = recount(self.dialing, old.is_dialing(), next.is_dialing());
        self.queued = recount(self.queued, old.is_queued(), next.is_queued());
    }

    /// There is one more request, which is younger than each. Out of memory, nothing changes.
    pub fn add(&mut self, age: u64) -> Result<(), NoMemory>
        requires { IsRising 0 (self.old ++ asking age ∷ []) }
        ensures ok { OnOk result (self.new ≡ self.old ++ asking age ∷ []) }
        ensures err { OnErr result (self.new ≡ self.old) }
    {
        have_slot(&mut self.free, &mut self.waiting, self.seats.len())?;
        let slot = self.free.get(self.free.len() - 1);
        let request = Request::asking(age);
        self.seats.insert(age, Seat { request, slot })?;
        self.free.drop_last();
        Ok(())
    }

    /// The request of an age.
    pub fn find(&self, age: u64) -> Option<Request>
        ensures { result ≡ find (has_age age) self.now }
    {
        match self.seats.get(&age) {
            Some(seat) => Some(seat.request),
            None => None,
        }
    }

    /// Whether the request of an age is live and has no connection.
    pub fn is_free(&self, age: u64) -> bool
        ensures { result ≡ found_is is_free (find (has_age age) self.now) }
    {
        match self.find(age) {
            Some(request) => request.is_free(),
            None => false,
        }
    }

    /// Whether the request of an age makes or looks at the connection of a number.
    pub fn is_held(&self, age: u64, number: u64) -> bool
        ensures { result ≡ found_is (holds number) (find (has_age age) self.now) }
    {
        match self.find(age) {
            Some(request) => request.holds(number),
            None => false,
        }
    }

    /// Whether the request of an age ever waited.
    pub fn has_waited(&self, age: u64) -> bool
        ensures { result ≡ found_is has_waited (find (has_age age) self.now) }
    {
        match self.find(age) {
            Some(request) => request.waited,
            None => false,
        }
    }

    /// Sets the standing of the request of an age.
    pub fn set_standing<C: Ledger>(&mut self, age: u64, standing: Standing, steps: &mut C)
        ensures requests { self.new ≡ set_standing age standing self.old }
        ensures cost { (d : ℕ) → length self.old < 2 ^ d → C.noted steps.new ≤ C.noted steps.old + 3 * d + 2 }
    {
        self.change(age, false, standing, steps);
    }

    /// The request of an age waits.
    pub fn set_waiting<C: Ledger>(&mut self, age: u64, steps: &mut C)
        ensures requests { self.new ≡ set_waiting age self.old }
        ensures cost { (d : ℕ) → length self.old < 2 ^ d → C.noted steps.new ≤ C.noted steps.old + 3 * d + 2 }
    {
        self.change(age, true, Standing::Waits, steps);
    }

    /// The request of an age ends, unless its age is the last one.
    pub fn end<C: Ledger>(&mut self, age: u64, steps: &mut C)
        ensures requests { self.new ≡ ended age self.old }
        ensures cost { (d : ℕ) → length self.old < 2 ^ d → C.noted steps.new ≤ C.noted steps.old + 3 * d + 2 }
    {
        if age == LAST {
            return;
        }
        let Some(seat) = self.seats.remove(&age) else {
            return;
        };
        let Seat { request: old, slot } = seat;
        set_held(&mut self.waiting, slot, age, false, steps);
        self.dialing = recount(self.dialing, old.is_dialing(), false);
        self.queued = recount(self.queued, old.is_queued(), false);
        self.free.push(slot);
    }

    /// The oldest waiting request is woken.
    pub fn wake<C: Ledger>(&mut self, steps: &mut C)
        ensures requests { self.new ≡ wake self.old }
        ensures cost { (d : ℕ) → length self.old < 2 ^ d → C.noted steps.new ≤ C.noted steps.old + 3 * d + 2 }
    {
        if let Some(age) = self.waiting.least() {
            self.set_standing(age, Standing::Woken, steps);
        }
    }

    /// Each waiting request is woken.
    pub fn wake_all<C: Ledger>(&mut self, steps: &mut C)
        ensures requests { self.new ≡ wake_all self.old }
        ensures cost { (d : ℕ) → length self.old < 2 ^ d
            → C.noted steps.new ≤ C.noted steps.old + how_many is_waiting self.old * (3 * d + 2) }
    {
        while self.count_waiting() > 0 {
            self.wake(steps);
        }
    }

    /// Whether a request waits that is at least as old as this age.
    pub fn waits_up_to<C: Ledger>(&self, age: u64, steps: &mut C) -> bool
        ensures answer { result ≡ waits_up_to age self.now }
        ensures cost { C.noted steps.new ≤ C.noted steps.old + 1 }
    {
        match self.waiting.least() {
            Some(least) => {
                steps.step();
                least <= age
            }
            None => false,
        }
    }

    /// The oldest waiting age.
    pub fn oldest(&self) -> Option<u64>
        ensures { result ≡ oldest_in self.now }
    {
        self.waiting.least()
    }

    /// Whether the request of the last age is live.
    pub fn has_last(&self) -> bool
        ensures { result ≡ list_any (has_age last_age) self.now }
    {
        self.seats.contains_key(&LAST)
    }

    /// The request of the last age is live from now on. Out of memory, nothing changes.
    pub fn add_last(&mut self) -> Result<(), NoMemory>
        requires { IsRising 0 (with_last self.old) }
        ensures ok { OnOk result (self.new ≡ with_last self.old) }
        ensures err { OnErr result (self.new ≡ self.old) }
    {
        if self.has_last() {
            return Ok(());
        }
        self.add(LAST)
    }

    /// How many wait, or were woken and not polled since.
    pub fn count_queued(&self) -> usize
        ensures { result ≡ how_many is_queued self.now }
    {
        self.queued
    }

    /// How many may still be given a number.
    pub fn count_may_dial(&self) -> usize
        ensures { result ≡ how_many may_dial self.now }
    {
        self.seats.len() - self.dialing
    }

    /// How many wait.
    pub fn count_waiting(&self) -> usize
        ensures { result ≡ how_many is_waiting self.now }
    {
        self.waiting.len()
    }
}
