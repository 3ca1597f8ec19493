//! The heap.

ghost use Rattle.std.specs.Prelude.{◌≡◌, ℕ, true, false, ◌+◌, ◌-◌, ◌*◌, ◌^◌, ◌<◌, ◌≤◌, ◌++◌, [], None, Some, OnOk, OnErr, IsSome, is_some, MatchOption, replicate, length, slice_set};
ghost use Rattle.my_pool_parts.specs.Ages.{age_of, how_many, IsLeast};

use crate::entry::Entry;
use crate::ledger::Ledger;
use crate::levels::Levels;
use crate::tree::Tree;
use my_frame::NoMemory;
use std::alloc::Global;
use std::marker::Model;

/// An indexed heap. Each reserved slot is free or held by an age, and no two slots by the same one.
///
/// Only `reserve` takes memory. A step is one comparison of two ages.
#[derive(Drop)]
pub struct WaitHeap {
    tree: Tree,
}

impl Model for WaitHeap {
    ghost use Rattle.std.specs.Prelude.{ℕ, Option, List};
    ghost use Rattle.my_pool_parts.specs.Tree.{IsHeap};

    ghost Value = { List (Option ℕ) };

    ghost view = { λ h. h.tree.ages.items };

    ghost invariant = { λ h. IsHeap h.tree };
}

impl WaitHeap {
    /// A heap with no slot.
    pub fn new(alloc: Global) -> WaitHeap
        ensures { result ≡ [] }
    {
        WaitHeap {
            tree: Tree {
                ages: Levels::new(alloc),
                places: Levels::new(alloc),
                entries: Levels::new(alloc),
            },
        }
    }

    /// Afterwards there are at least `slots` slots, and new ones are free. Out of memory, nothing changes.
    pub fn reserve(&mut self, slots: usize) -> Result<(), NoMemory>
        ensures ok { OnOk result (self.new ≡ self.old ++ replicate (slots - length self.old) None) }
        ensures err { OnErr result (self.new ≡ self.old) }
    {
        self.tree.reserve(slots)
    }

    /// Gives a free slot to an age.
    pub fn push<C: Ledger>(&mut self, slot: usize, age: u64, steps: &mut C)
        requires reserved { slot < length self.old }
        requires free { age_of self.old slot ≡ None }
        requires fresh { (s : ℕ) → age_of self.old s ≡ Some age → ⊥ }
        ensures ages { self.new ≡ slice_set self.old slot (Some age) }
        ensures cost { (d : ℕ) → how_many self.old < 2 ^ d → C.noted steps.new ≤ C.noted steps.old + d }
    {
        let last = self.tree.entries.len();
        self.tree.add(slot, age);
        self.tree.sift_up(last, steps);
    }

    /// Frees a held slot.
    pub fn remove<C: Ledger>(&mut self, slot: usize, steps: &mut C)
        requires { IsSome (age_of self.old slot) }
        ensures ages { self.new ≡ slice_set self.old slot None }
        ensures cost { (d : ℕ) → how_many self.old < 2 ^ d → C.noted steps.new ≤ C.noted steps.old + 2 * d + 1 }
    {
        let place = self.tree.places.get(slot);
        self.tree.remove_at(place, steps);
    }

    /// Frees the slot of the least age; returns both, or `None` where no slot is held.
    pub fn pop_least<C: Ledger>(&mut self, steps: &mut C) -> Option<Entry>
        ensures entry { MatchOption result (how_many self.old ≡ 0) (λ e. IsLeast self.old e.slot e.age) }
        ensures ages { MatchOption result (self.new ≡ self.old) (λ e. self.new ≡ slice_set self.old e.slot None) }
        ensures cost { (d : ℕ) → how_many self.old < 2 ^ d → C.noted steps.new ≤ C.noted steps.old + 2 * d + 1 }
    {
        if self.tree.entries.is_empty() {
            return None;
        }
        Some(self.tree.remove_at(0, steps))
    }

    /// The least age, or `None` where no slot is held.
    pub fn least(&self) -> Option<u64>
        ensures { MatchOption result (how_many self.now ≡ 0) (λ age. (slot : ℕ) × IsLeast self.now slot age) }
    {
        if self.tree.entries.is_empty() {
            return None;
        }
        Some(self.tree.entries.get(0).age)
    }

    /// Whether a slot is held. One that isn't reserved is not.
    pub fn holds(&self, slot: usize) -> bool
        ensures { result ≡ is_some (age_of self.now slot) }
    {
        slot < self.tree.ages.len() && self.tree.ages.get(slot).is_some()
    }

    /// Whether some slot is held by an age: each slot is looked at.
    pub fn has_age(&self, age: u64) -> bool
        ensures some { result ≡ true → (slot : ℕ) × (age_of self.now slot ≡ Some age) }
        ensures none { result ≡ false → (slot : ℕ) → age_of self.now slot ≡ Some age → ⊥ }
    {
        for slot in 0..self.tree.ages.len() {
            if let Some(other) = self.tree.ages.get(slot)
                && other == age
            {
                return true;
            }
        }
        false
    }

    /// How many slots are held.
    pub fn len(&self) -> usize
        ensures { result ≡ how_many self.now }
    {
        self.tree.entries.len()
    }

    /// How many slots are reserved.
    pub fn slots(&self) -> usize
        ensures { result ≡ length self.now }
    {
        self.tree.ages.len()
    }
}
