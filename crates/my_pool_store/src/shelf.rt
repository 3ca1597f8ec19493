//! The connections that a pool keeps, by their numbers; and the tapes of those that are gone.

ghost use Rattle.std.specs.Prelude.{◌≡◌, ◌==◌, ◌+◌, ◌≤◌, ◌<◌, ◌++◌, true, [], ◌∷◌, length, position, is_some, OnOk};
ghost use Rattle.my_pool_store.specs.Shelves.{numbered};

use my_frame::NoMemory;
use my_pool_core::{PollAnswer, Verdict};
use std::alloc::Global;
use std::marker::Model;
use std::mem;

/// A connection, or what is left of it, with its number.
#[derive(Drop)]
pub struct Slot<C> {
    number: u64,
    conn: C,
}

/// What is left of a connection, with its number.
pub fn numbered<C>(number: u64, left: Option<C>) -> Option<(u64, C)>
    ensures { result ≡ numbered number left }
{
    match left {
        Some(left) => Some((number, left)),
        None => None,
    }
}

/// The kept connections, in the order in which they came. Contracts see for how many there is room, too.
#[derive(Drop)]
pub struct Shelf<C> {
    slots: Vec<Slot<C>>,
}

impl<C> Model for Shelf<C> {
    ghost use Rattle.std.specs.Prelude.{map, vec_capacity};
    ghost use Rattle.my_pool_store.specs.Shelves.{Shelved};
    ghost use Rattle.my_pool_store.specs.Slots.{entry_of};

    ghost Value = { Shelved C };

    ghost view = { λ s. record {
      kept = map entry_of s.slots.items;
      room = vec_capacity s.slots;
    } };
}

/// The index of the connection of a number.
fn index_of<C>(slots: &[Slot<C>], number: u64) -> Option<usize>
    ensures { result ≡ position (λ s. s.number == number) slots.now }
{
    slots.iter().position(|s| s.number == number)
}

impl<C> Slot<C> {
    ghost use Rattle.my_pool_store.specs.Shelves.{entry};
    ghost use Rattle.my_pool_store.specs.Slots.{entry_of};

    /// The number, and what has it.
    pub fn open(self) -> (u64, C)
        ensures { entry result.0 result.1 ≡ entry_of self }
    {
        let Slot { number, conn } = self;
        (number, conn)
    }
}

impl<C> Shelf<C> {
    ghost use Rattle.my_frame.specs.Lists.{without};
    ghost use Rattle.my_pool_store.specs.Shelves.{has, entry, kept_at, left_by, put_by, rest_by, taken_by, with_left};

    /// No connection.
    pub fn new(alloc: Global) -> Shelf<C>
        ensures { result.kept ≡ [] }
    {
        Shelf {
            slots: Vec::new(alloc),
        }
    }

    /// There is room for this number of connections in all. Out of memory, nothing changes.
    pub fn make_room(&mut self, count: usize) -> Result<(), NoMemory>
        ensures kept { self.new.kept ≡ self.old.kept }
        ensures more { self.old.room ≤ self.new.room }
        ensures room { OnOk result (count ≤ self.new.room) }
    {
        let len = self.slots.len();
        if len < count {
            self.slots.reserve(count - len)?;
        }
        Ok(())
    }

    /// There is room for this number of connections more. Out of memory, nothing changes.
    pub fn make_more_room(&mut self, count: usize) -> Result<(), NoMemory>
        ensures kept { self.new.kept ≡ self.old.kept }
        ensures more { self.old.room ≤ self.new.room }
        ensures room { OnOk result (length self.new.kept + count ≤ self.new.room) }
    {
        self.slots.reserve(count)?;
        Ok(())
    }

    /// A connection is kept. It takes no memory.
    pub fn put(&mut self, number: u64, conn: C)
        requires { length self.old.kept < self.old.room }
        ensures kept { self.new.kept ≡ self.old.kept ++ entry number conn ∷ [] }
        ensures room { self.old.room ≤ self.new.room }
    {
        self.slots.push_reserved(Slot { number, conn });
    }

    /// What is left of a connection is kept, where there is something. It takes no memory.
    pub fn put_left(&mut self, left: Option<(u64, C)>)
        requires { is_some left ≡ true → length self.old.kept < self.old.room }
        ensures kept { self.new.kept ≡ with_left left self.old.kept }
        ensures room { self.old.room ≤ self.new.room }
    {
        match left {
            Some((number, conn)) => self.put(number, conn),
            None => {}
        }
    }

    /// A connection is kept. One on which the verdict is that it is counted no more is returned.
    pub fn put_by(&mut self, verdict: Verdict, number: u64, conn: C) -> Option<C>
        requires { length self.old.kept < self.old.room }
        ensures kept { self.new.kept ≡ put_by verdict (entry number conn) self.old.kept }
        ensures rest { result ≡ rest_by verdict conn }
        ensures room { self.old.room ≤ self.new.room }
    {
        match verdict {
            Verdict::Drop => Some(conn),
            Verdict::Clean | Verdict::Close | Verdict::Reset | Verdict::Keep => {
                self.put(number, conn);
                None
            }
        }
    }

    /// The connection of a number is kept no more, and is returned.
    pub fn take(&mut self, number: u64) -> Option<C>
        ensures found { result ≡ kept_at number self.old.kept }
        ensures kept { self.new.kept ≡ without (has number) self.old.kept }
        ensures room { self.new.room ≡ self.old.room }
    {
        match index_of(&self.slots, number) {
            Some(index) => Some(self.slots.remove(index).conn),
            None => None,
        }
    }

    /// The connection that a polled request takes, if any, is kept no more, and is returned.
    pub fn take_by(&mut self, answer: PollAnswer) -> Option<C>
        ensures found { result ≡ taken_by answer self.old.kept }
        ensures kept { self.new.kept ≡ left_by answer self.old.kept }
        ensures room { self.new.room ≡ self.old.room }
    {
        match answer {
            PollAnswer::Take(number) => self.take(number),
            PollAnswer::Wait | PollAnswer::Dial(_) | PollAnswer::Closed | PollAnswer::Full { .. } =>
                None,
        }
    }
}

impl<C: Drop> Shelf<C> {
    ghost use Rattle.std.specs.Prelude.{map, IfOk, OnErr};
    ghost use Rattle.my_pool_store.specs.Slots.{entry_of};

    /// All are handed out, the one that came first at the front, and none is left; there is room for this number of others.
    /// Out of memory, nothing changes.
    pub fn take_all(&mut self, alloc: Global, count: usize) -> Result<Vec<Slot<C>>, NoMemory>
        ensures taken { IfOk result (λ slots. map entry_of slots.items ≡ self.old.kept) }
        ensures left { OnOk result (self.new.kept ≡ []) }
        ensures room { OnOk result (count ≤ self.new.room) }
        ensures err { OnErr result (self.new ≡ self.old) }
    {
        let fresh = Vec::with_capacity(alloc, count)?;
        Ok(mem::replace(&mut self.slots, fresh))
    }
}
