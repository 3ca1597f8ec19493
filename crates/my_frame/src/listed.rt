//! Items that a record holds.

ghost use Rattle.std.specs.Prelude.{◌≡◌, ◌==◌, [], ◌∷◌, ◌++◌, IfOk, OnErr, OnOk, ◌≤◌, insert, length};

use crate::copied::{Copied, copy_items};
use crate::no_memory::NoMemory;
use std::alloc::Global;
use std::marker::Model;

/// Items in order, which contracts see as their list.
///
/// It is made from a `Vec` and turned back into one without taking memory.
#[derive(Drop)]
pub struct Listed<T> {
    items: Vec<T>,
}

impl<T> Model for Listed<T> {
    ghost use Rattle.std.specs.Prelude.{List};

    ghost Value = { List T };

    ghost view = { λ l. l.items.items };
}

impl<T> From<Vec<T>> for Listed<T> {
    ghost use Rattle.std.specs.Prelude.{◌≡◌};

    ghost from_gives = { λ items l. l ≡ items.items };

    fn from(items: Vec<T>) -> Listed<T> {
        Listed { items }
    }
}

impl<T: PartialEq> PartialEq for Listed<T> {
    ghost use Rattle.std.specs.Cmp.Lexicographic.{pointwise, lists_per};

    ghost eq = { pointwise T.eq };

    ghost laws = { lists_per T.laws };

    fn eq(&self, other: &Listed<T>) -> bool {
        self.items == other.items
    }
}

impl<T: Eq> Eq for Listed<T> {
    ghost use Rattle.std.specs.Cmp.Lexicographic.{lists_equiv};

    ghost laws = { lists_equiv T.Eq.laws };
}

impl<T> Listed<T> {
    /// No items.
    pub fn new(alloc: Global) -> Listed<T>
        ensures { result ≡ [] }
    {
        Listed {
            items: Vec::new(alloc),
        }
    }

    /// The items.
    pub fn as_slice(&self) -> &[T]
        ensures { result.now ≡ self.now }
    {
        self.items.as_slice()
    }

    /// The items in the `Vec` that has them.
    pub fn as_vec(&self) -> &Vec<T>
        ensures { result.now.items ≡ self.now }
    {
        &self.items
    }

    /// The `Vec` of the items.
    pub fn into_vec(self) -> Vec<T>
        ensures { result.items ≡ self }
    {
        self.items
    }

    /// The number of items.
    pub fn len(&self) -> usize
        ensures { result ≡ length self.now }
    {
        self.items.len()
    }

    pub fn is_empty(&self) -> bool
        ensures { result ≡ (length self.now == 0) }
    {
        self.items.is_empty()
    }
}

impl<T: Drop> Listed<T> {
    /// Adds an item after the others.
    pub fn push(&mut self, item: T) -> Result<(), NoMemory>
        ensures ok { OnOk result (self.new ≡ self.old ++ item ∷ []) }
        ensures err { OnErr result (self.new ≡ self.old) }
    {
        match self.items.push(item) {
            Ok(()) => Ok(()),
            Err(_) => Err(NoMemory),
        }
    }

    /// Puts an item before those from `index` on.
    pub fn insert(&mut self, index: usize, item: T) -> Result<(), NoMemory>
        requires { index ≤ length self.old }
        ensures ok { OnOk result (self.new ≡ insert self.old index item) }
        ensures err { OnErr result (self.new ≡ self.old) }
    {
        match self.items.insert(index, item) {
            Ok(()) => Ok(()),
            Err(_) => Err(NoMemory),
        }
    }
}

impl<T: Copied> Listed<T> {
    /// A second list of the same items.
    pub fn copy(&self, alloc: Global) -> Result<Listed<T>, NoMemory>
        ensures { IfOk result (λ copy. copy ≡ self.now) }
    {
        Ok(Listed {
            items: copy_items(alloc, self.items.as_slice())?,
        })
    }
}

impl<T: Copied> Copied for Listed<T> {
    fn copy(&self, alloc: Global) -> Result<Listed<T>, NoMemory> {
        Listed::copy(self, alloc)
    }
}
