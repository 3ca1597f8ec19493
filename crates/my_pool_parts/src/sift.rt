//! Moves entries to where they belong in the order of the ages.

ghost use Rattle.std.specs.Prelude.{◌≡◌, ℕ, ◌+◌, ◌*◌, ◌^◌, ◌<◌, ◌≤◌, None, slice_set, length};
ghost use Rattle.my_pool_parts.specs.Tree.{entry_at, age_at, slot_at, IsTree, IsOrdered, IsOrderedBut, IsAbove, IsBelow};

use crate::entry::Entry;
use crate::ledger::Ledger;
use crate::tree::Tree;

impl Tree {
    /// The entry at an index goes up to where none before it is younger.
    pub(crate) fn sift_up<C: Ledger>(&mut self, start: usize, steps: &mut C)
        requires linked { IsTree self.old }
        requires within { start < length self.old.entries.items }
        requires but { IsOrderedBut (length self.old.entries.items) (age_at self.old.entries.items) start }
        requires above { IsAbove (length self.old.entries.items) (age_at self.old.entries.items) start }
        ensures linked { IsTree self.new }
        ensures ordered { IsOrdered (length self.new.entries.items) (age_at self.new.entries.items) }
        ensures ages { self.new.ages ≡ self.old.ages }
        ensures capacity { self.old.entries.room ≤ self.new.entries.room }
        ensures cost { (e : ℕ) → start + 1 < 2 ^ (e + 1) → C.noted steps.new ≤ C.noted steps.old + e }
    {
        let mut i = start;
        while i > 0 {
            let parent = (i - 1) / 2;
            if !self.is_older(i, parent, steps) {
                return;
            }
            self.swap(i, parent);
            i = parent;
        }
    }

    /// The older one of the entries after an index.
    fn older_after<C: Ledger>(&self, i: usize, steps: &mut C) -> usize
        requires { 2 * i + 2 ≤ length self.now.entries.items }
        ensures low { 2 * i + 1 ≤ result }
        ensures high { result ≤ 2 * i + 2 }
        ensures within { result < length self.now.entries.items }
        ensures least { (c : ℕ) → 2 * i + 1 ≤ c → c ≤ 2 * i + 2 → c < length self.now.entries.items
            → age_at self.now.entries.items result ≤ age_at self.now.entries.items c }
        ensures cost { C.noted steps.new ≤ C.noted steps.old + 1 }
    {
        let count = self.entries.len();
        let left = 2 * i + 1;
        let right = left + 1;
        if right < count && self.is_older(right, left, steps) {
            right
        } else {
            left
        }
    }

    /// The entry at an index goes down to where none after it is older.
    fn sift_down<C: Ledger>(&mut self, start: usize, steps: &mut C)
        requires linked { IsTree self.old }
        requires within { start < length self.old.entries.items }
        requires but { IsOrderedBut (length self.old.entries.items) (age_at self.old.entries.items) start }
        requires below { IsBelow (age_at self.old.entries.items) start }
        ensures linked { IsTree self.new }
        ensures ordered { IsOrdered (length self.new.entries.items) (age_at self.new.entries.items) }
        ensures ages { self.new.ages ≡ self.old.ages }
        ensures capacity { self.old.entries.room ≤ self.new.entries.room }
        ensures cost { (d : ℕ) → length self.old.entries.items < 2 ^ d → C.noted steps.new ≤ C.noted steps.old + 2 * d }
    {
        let mut i = start;
        while i < self.entries.len() / 2 {
            let following = self.older_after(i, steps);
            if !self.is_older(following, i, steps) {
                return;
            }
            self.swap(i, following);
            i = following;
        }
    }

    /// The entry at an index goes to where it belongs.
    fn restore<C: Ledger>(&mut self, i: usize, steps: &mut C)
        requires linked { IsTree self.old }
        requires within { i < length self.old.entries.items }
        requires but { IsOrderedBut (length self.old.entries.items) (age_at self.old.entries.items) i }
        ensures linked { IsTree self.new }
        ensures ordered { IsOrdered (length self.new.entries.items) (age_at self.new.entries.items) }
        ensures ages { self.new.ages ≡ self.old.ages }
        ensures capacity { self.old.entries.room ≤ self.new.entries.room }
        ensures cost { (d : ℕ) → length self.old.entries.items < 2 ^ d
            → C.noted steps.new ≤ C.noted steps.old + 2 * d + 1 }
    {
        if i > 0 && self.is_older(i, (i - 1) / 2, steps) {
            self.sift_up(i, steps);
        } else {
            self.sift_down(i, steps);
        }
    }

    /// The entry at an index leaves, and its slot isn't held any more.
    pub(crate) fn remove_at<C: Ledger>(&mut self, i: usize, steps: &mut C) -> Entry
        requires linked { IsTree self.old }
        requires within { i < length self.old.entries.items }
        requires ordered { IsOrdered (length self.old.entries.items) (age_at self.old.entries.items) }
        ensures entry { result ≡ entry_at self.old.entries.items i }
        ensures linked { IsTree self.new }
        ensures ordered { IsOrdered (length self.new.entries.items) (age_at self.new.entries.items) }
        ensures ages { self.new.ages.items ≡ slice_set self.old.ages.items (slot_at self.old.entries.items i) None }
        ensures capacity { self.old.entries.room ≤ self.new.entries.room }
        ensures cost { (d : ℕ) → length self.old.entries.items < 2 ^ d
            → C.noted steps.new ≤ C.noted steps.old + 2 * d + 1 }
    {
        let removed = self.entries.get(i);
        let last = self.entries.len() - 1;
        self.swap(i, last);
        self.drop_last();
        if i < last {
            self.restore(i, steps);
        }
        removed
    }
}
