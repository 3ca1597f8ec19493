//! The tree of entries, and the place of each slot in it.

ghost use Rattle.std.specs.Prelude.{◌≡◌, ◌+◌, ◌-◌, ◌<◌, ◌≤◌, ◌++◌, [], ◌∷◌, None, Some, OnOk, OnErr, replicate, take, slice_set, length, nat_lt};
ghost use Rattle.my_pool_parts.specs.Ages.{age_of};
ghost use Rattle.my_pool_parts.specs.Tree.{entry, age_at, slot_at, IsTree, IsSwapped};

use crate::entry::Entry;
use crate::ledger::Ledger;
use crate::levels::Levels;
use my_frame::NoMemory;

/// A tree of entries in a list: below the one at index `i` are those at `2 * i + 1` and `2 * i + 2`.
#[derive(Drop)]
pub(crate) struct Tree {
    /// The age that holds each slot.
    pub ages: Levels<Option<u64>>,
    /// The place of each held slot in the tree.
    pub places: Levels<usize>,
    pub entries: Levels<Entry>,
}

impl Tree {
    /// Whether the entry at one index is older than that at another.
    pub(crate) fn is_older<C: Ledger>(&self, i: usize, j: usize, steps: &mut C) -> bool
        requires i { i < length self.now.entries.items }
        requires j { j < length self.now.entries.items }
        ensures answer { result ≡ nat_lt (age_at self.now.entries.items i) (age_at self.now.entries.items j) }
        ensures cost { C.noted steps.new ≤ C.noted steps.old + 1 }
    {
        self.entries.get(i).is_older(&self.entries.get(j), steps)
    }

    /// Two entries change their places.
    pub(crate) fn swap(&mut self, i: usize, j: usize)
        requires linked { IsTree self.old }
        requires i { i < length self.old.entries.items }
        requires j { j < length self.old.entries.items }
        ensures linked { IsTree self.new }
        ensures swapped { IsSwapped self.old.entries.items self.new.entries.items i j }
        ensures ages { self.new.ages ≡ self.old.ages }
        ensures capacity { self.old.entries.room ≤ self.new.entries.room }
    {
        let first = self.entries.get(i);
        let second = self.entries.get(j);
        self.entries.set(i, second);
        self.entries.set(j, first);
        self.places.set(second.slot, i);
        self.places.set(first.slot, j);
    }

    /// A slot that isn't held gets an age, whose entry is last.
    pub(crate) fn add(&mut self, slot: usize, age: u64)
        requires linked { IsTree self.old }
        requires reserved { slot < length self.old.ages.items }
        requires free { age_of self.old.ages.items slot ≡ None }
        requires room { length self.old.entries.items < self.old.entries.room }
        ensures linked { IsTree self.new }
        ensures ages { self.new.ages.items ≡ slice_set self.old.ages.items slot (Some age) }
        ensures entries { self.new.entries.items ≡ self.old.entries.items ++ entry slot age ∷ [] }
        ensures capacity { self.old.entries.room ≤ self.new.entries.room }
    {
        self.ages.set(slot, Some(age));
        self.places.set(slot, self.entries.len());
        self.entries.push(Entry { slot, age });
    }

    /// The last entry leaves, and its slot isn't held any more.
    pub(crate) fn drop_last(&mut self)
        requires linked { IsTree self.old }
        requires some { 0 < length self.old.entries.items }
        ensures linked { IsTree self.new }
        ensures ages { let last = slot_at self.old.entries.items (length self.old.entries.items - 1)
            in self.new.ages.items ≡ slice_set self.old.ages.items last None }
        ensures entries { self.new.entries.items ≡ take (length self.old.entries.items - 1) self.old.entries.items }
        ensures capacity { self.old.entries.room ≤ self.new.entries.room }
    {
        let last = self.entries.len() - 1;
        self.ages.set(self.entries.get(last).slot, None);
        self.entries.drop_last();
    }

    /// Afterwards there are at least `slots` slots, and room for an entry of each. Out of memory, their number stays.
    pub(crate) fn reserve(&mut self, slots: usize) -> Result<(), NoMemory>
        requires { IsTree self.old }
        ensures linked { IsTree self.new }
        ensures entries { self.new.entries.items ≡ self.old.entries.items }
        ensures ok { OnOk result (self.new.ages.items
            ≡ self.old.ages.items ++ replicate (slots - length self.old.ages.items) None) }
        ensures err { OnErr result (self.new.ages.items ≡ self.old.ages.items) }
        ensures room { OnOk result (slots ≤ self.new.entries.room) }
        ensures capacity { self.old.entries.room ≤ self.new.entries.room }
    {
        self.entries.reserve(slots)?;
        self.places.reserve(slots)?;
        self.ages.reserve(slots)?;
        self.places.fill(slots, 0);
        self.ages.fill(slots, None);
        Ok(())
    }
}
