//! Queues of numbers.

ghost use Rattle.std.specs.Prelude.{◌≡◌, ◌≤◌, ◌<◌, ◌+◌, ◌-◌, ◌^◌, ◌++◌, ◌==◌, false, IsTrue, [], ◌∷◌, OnOk, OnErr, IfSome, IfNone, position, length, vec_len, vec_capacity, drop, slice_get, if◌then◌else◌};
ghost use Rattle.std.specs.List.{list_any};
ghost use Rattle.std.specs.VecDeque.{deque_items, deque_capacity};
ghost use Rattle.my_frame.specs.Lists.{without};
ghost use Rattle.my_pool_parts.specs.Lists.{how_many};
ghost use Rattle.my_pool_parts.specs.Row.{row, strung, stands_in, more_room};

use my_frame::NoMemory;
use std::alloc::Global;
use std::collections::VecDeque;
use std::marker::Model;

/// Numbers in the order of their turns, in parts. More room is one more part, which alone has all of it, and takes the
/// numbers that come from then on: those in the parts before it stay where they are.
#[derive(Drop)]
pub(crate) struct Turns {
    parts: Vec<VecDeque<u64>>,
    len: usize,
}

impl Model for Turns {
    ghost use Rattle.std.specs.Prelude.{◌≡◌, ℕ, length};
    ghost use Rattle.std.specs.VecDeque.{deque_items, deque_capacity};
    ghost use Rattle.my_pool_parts.specs.Row.{Row, row, strung, last_room};

    ghost Value = { Row ℕ };

    ghost view = { λ t. row (strung deque_items t.parts.items) (last_room deque_capacity t.parts.items) };

    ghost invariant = { λ t. t.len ≡ length (strung deque_items t.parts.items) };
}

/// Where a number stands in a part.
fn index_of(part: &VecDeque<u64>, number: u64) -> Option<usize>
    ensures index { result ≡ position (λ m. m == number) part.now.items }
{
    part.iter().position(|m| *m == number)
}

/// A number leaves a part. The first and the last one are found at once.
fn leave_part(part: &mut VecDeque<u64>, number: u64)
    requires { how_many (λ m. m == number) part.old.items ≤ 1 }
    ensures items { part.new.items ≡ without (λ m. m == number) part.old.items }
    ensures capacity { deque_capacity part.new ≡ deque_capacity part.old }
{
    if let Some(last) = part.back()
        && *last == number
    {
        part.pop_back();
        return;
    }
    if let Some(index) = index_of(part, number) {
        part.remove(index);
    }
}

/// Whether a number is the last one of a part.
fn is_last(part: &VecDeque<u64>, number: u64) -> bool
    ensures answer { result ≡ list_any (λ m. m == number) (drop (length part.now.items - 1) part.now.items) }
{
    match part.back() {
        Some(last) => *last == number,
        None => false,
    }
}

/// The first part whose last number is this one.
fn ended_by(parts: &[VecDeque<u64>], number: u64) -> Option<usize>
    ensures part { result
        ≡ position (λ part. list_any (λ m. m == number) (drop (length part.items - 1) part.items)) parts.now }
{
    parts.iter().position(|part| is_last(part, number))
}

/// The first part in which a number stands.
fn first_with(parts: &[VecDeque<u64>], number: u64) -> Option<usize>
    ensures part { result ≡ position (λ part. list_any (λ m. m == number) part.items) parts.now }
{
    parts.iter().position(|part| part.contains(&number))
}

/// A part in which a number stands. Where it is the last one of a part no other number is looked at, and else those
/// before it are.
fn part_of(parts: &[VecDeque<u64>], number: u64) -> Option<usize>
    ensures found { IfSome result (λ k. IsTrue (stands_in deque_items number parts.now k)) }
    ensures none { IfNone result (list_any (λ m. m == number) (strung deque_items parts.now) ≡ false) }
{
    match ended_by(parts, number) {
        Some(at) => Some(at),
        None => first_with(parts, number),
    }
}

/// Parts in which no number stands are let go.
fn forget_empty(parts: &mut Vec<VecDeque<u64>>, count: usize)
    requires { count ≡ length (strung deque_items parts.old.items) }
    ensures items { strung deque_items parts.new.items ≡ strung deque_items parts.old.items }
    ensures empty { count ≡ 0 → parts.new.items ≡ [] }
    ensures len { vec_len parts.new ≤ vec_len parts.old }
    ensures capacity { vec_capacity parts.new ≡ vec_capacity parts.old }
{
    if count == 0 {
        parts.clear();
    }
}

impl Turns {
    /// No number, and no room.
    pub(crate) fn new(alloc: Global) -> Turns
        ensures empty { result ≡ row [] 0 }
    {
        Turns {
            parts: Vec::new(alloc),
            len: 0,
        }
    }

    /// How many numbers there are.
    pub(crate) fn len(&self) -> usize
        ensures count { result ≡ length self.now.items }
    {
        self.len
    }

    /// For how many numbers there is room.
    fn room(&self) -> usize
        ensures room { result ≡ self.now.room }
        ensures small { result < 2 ^ 63 }
    {
        match self.parts.last() {
            Some(part) => part.capacity(),
            None => 0,
        }
    }

    /// The number before which `index` others stand.
    pub(crate) fn get(&self, index: usize) -> Option<u64>
        ensures number { result ≡ slice_get self.now.items index }
    {
        let mut left = index;
        for part in &self.parts {
            if left < part.len() {
                return Some(part[left]);
            }
            left -= part.len();
        }
        None
    }

    /// A number that is to stand in the queue goes to its end.
    pub(crate) fn enter(&mut self, stands: bool, number: u64)
        requires { length self.old.items < self.old.room }
        ensures items { self.new.items ≡ self.old.items ++ (if stands then number ∷ [] else []) }
        ensures room { self.new.room ≡ self.old.room }
    {
        if stands {
            let last = self.parts.len() - 1;
            self.parts[last].push_back(number).unwrap();
            self.len += 1;
        }
    }

    /// A number that stands in the queue, if it does, leaves it. The first one, and the last one of a part, are found at
    /// once.
    pub(crate) fn leave(&mut self, stands: bool, number: u64)
        requires { how_many (λ m. m == number) self.old.items ≤ 1 }
        ensures items { self.new.items
            ≡ (if stands then without (λ m. m == number) self.old.items else self.old.items) }
        ensures room { self.new.room ≡ self.old.room }
    {
        if !stands {
            return;
        }
        let Some(at) = part_of(&self.parts, number) else {
            return;
        };
        leave_part(&mut self.parts[at], number);
        self.len -= 1;
    }

    /// There is room for so many numbers from now on, and where there was too little for twice as many as before at
    /// least, so that there are few parts. Out of memory, nothing changes.
    pub(crate) fn reserve(&mut self, room: usize) -> Result<(), NoMemory>
        ensures items { self.new.items ≡ self.old.items }
        ensures ok { OnOk result (self.new.room ≡ more_room self.old.room room) }
        ensures err { OnErr result (self.new.room ≡ self.old.room) }
        ensures small { self.new.room < 2 ^ 63 }
    {
        let before = self.room();
        if room <= before {
            return Ok(());
        }
        self.parts.reserve(1)?;
        let part = VecDeque::with_capacity(*self.parts.allocator(), room.max(2 * before))?;
        forget_empty(&mut self.parts, self.len);
        self.parts.push(part).unwrap();
        Ok(())
    }
}
