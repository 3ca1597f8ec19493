//! A list that grows and moves nothing that it holds.

ghost use Rattle.std.specs.Prelude.{◌≡◌, ◌+◌, ◌-◌, ◌*◌, ◌^◌, ◌<◌, ◌≤◌, ◌++◌, [], ◌∷◌, ◌==◌, OnOk, OnErr, length, take, max, replicate, slice_set, slice_index_or};
ghost use Rattle.my_pool_parts.specs.Row.{row};

use my_frame::NoMemory;
use std::alloc::Global;
use std::marker::Model;

/// A list in levels. Each has twice the room of the one before it, and the first has room for one element. More room is
/// one more level, so that no element is ever moved; one is found by its index alone.
#[derive(Drop)]
pub(crate) struct Levels<T: Copy> {
    levels: Vec<Vec<T>>,
    len: usize,
}

impl<T: Copy> Model for Levels<T> {
    ghost use Rattle.std.specs.Prelude.{◌≤◌, length};
    ghost use Rattle.my_pool_parts.specs.Row.{Row, row, joined, room_of, IsFilled};

    ghost Value = { Row T };

    ghost view = { λ l. row (joined l.levels.items) (room_of (length l.levels.items)) };

    ghost invariant = { λ l. (IsFilled 1 l.len l.levels.items) × (length l.levels.items ≤ 63) };
}

/// Where an element is.
#[derive(Clone, Copy)]
struct Spot {
    level: usize,
    /// Its index in the level.
    offset: usize,
}

/// The room of a level.
fn size_of_level(level: usize) -> usize
    requires { level < 64 }
    ensures size { result ≡ 2 ^ level }
{
    1 << level
}

/// Where the element of an index is: a level begins one before its size.
fn spot_of(index: usize) -> Spot
    requires { index < 2 ^ 63 }
    ensures whole { result.offset + 2 ^ result.level ≡ index + 1 }
    ensures within { result.offset < 2 ^ result.level }
{
    let level = (index + 1).ilog2() as usize;
    Spot {
        level,
        offset: index + 1 - size_of_level(level),
    }
}

impl<T: Copy> Levels<T> {
    /// No element, and no room.
    pub(crate) fn new(alloc: Global) -> Levels<T>
        ensures empty { result ≡ row [] 0 }
    {
        Levels {
            levels: Vec::new(alloc),
            len: 0,
        }
    }

    /// How many elements there are.
    pub(crate) fn len(&self) -> usize
        ensures count { result ≡ length self.now.items }
        ensures fits { result ≤ self.now.room }
        ensures small { self.now.room < 2 ^ 63 }
    {
        self.len
    }

    /// Whether there is none.
    pub(crate) fn is_empty(&self) -> bool
        ensures answer { result ≡ (length self.now.items == 0) }
    {
        self.len == 0
    }

    /// For how many elements there is room.
    fn room(&self) -> usize
        ensures room { result ≡ self.now.room }
        ensures small { result < 2 ^ 63 }
    {
        size_of_level(self.levels.len()) - 1
    }

    /// The element at an index.
    pub(crate) fn get(&self, index: usize) -> T
        requires { index < length self.now.items }
        ensures element { result ≡ slice_index_or self.now.items index result }
    {
        let levels = &self.levels;
        let Spot { level, offset } = spot_of(index);
        levels[level][offset]
    }

    /// Another element stands at an index.
    pub(crate) fn set(&mut self, index: usize, value: T)
        requires { index < length self.old.items }
        ensures items { self.new.items ≡ slice_set self.old.items index value }
        ensures room { self.new.room ≡ self.old.room }
    {
        let levels = &mut self.levels;
        let Spot { level, offset } = spot_of(index);
        levels[level][offset] = value;
    }

    /// One more element, for which there is room.
    pub(crate) fn push(&mut self, value: T)
        requires { length self.old.items < self.old.room }
        ensures items { self.new.items ≡ self.old.items ++ value ∷ [] }
        ensures room { self.new.room ≡ self.old.room }
    {
        let level = spot_of(self.len).level;
        self.levels[level].push(value).unwrap();
        self.len += 1;
    }

    /// There are so many elements from now on, for which there is room: where there were fewer, each new one is `value`.
    pub(crate) fn fill(&mut self, len: usize, value: T)
        requires { len ≤ self.old.room }
        ensures items { self.new.items ≡ self.old.items ++ replicate (len - length self.old.items) value }
        ensures room { self.new.room ≡ self.old.room }
    {
        while self.len() < len {
            self.push(value);
        }
    }

    /// The last element leaves.
    pub(crate) fn drop_last(&mut self)
        requires { 0 < length self.old.items }
        ensures items { self.new.items ≡ take (length self.old.items - 1) self.old.items }
        ensures room { self.new.room ≡ self.old.room }
    {
        self.len -= 1;
        let level = spot_of(self.len).level;
        self.levels[level].pop();
    }

    /// One more level. Out of memory, nothing changes.
    fn add_level(&mut self) -> Result<(), NoMemory>
        ensures ok { OnOk result (self.new ≡ row self.old.items (2 * self.old.room + 1)) }
        ensures err { OnErr result (self.new ≡ self.old) }
    {
        let level = Vec::with_capacity(*self.levels.allocator(), size_of_level(self.levels.len()))?;
        self.levels.push(level)?;
        Ok(())
    }

    /// There is room for so many elements from now on, and no more than for about twice as many where there was too
    /// little. Out of memory, the elements stay as they are.
    pub(crate) fn reserve(&mut self, room: usize) -> Result<(), NoMemory>
        ensures items { self.new.items ≡ self.old.items }
        ensures ok { OnOk result (room ≤ self.new.room) }
        ensures grows { self.old.room ≤ self.new.room }
        ensures least { self.new.room ≤ max self.old.room (2 * room) }
        ensures small { self.new.room < 2 ^ 63 }
    {
        while self.room() < room {
            self.add_level()?;
        }
        Ok(())
    }
}
