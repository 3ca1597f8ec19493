//! An entry of a heap.

ghost use Rattle.std.specs.Prelude.{◌≡◌, ◌+◌, ◌≤◌, nat_lt};

use crate::ledger::Ledger;

/// A held slot and the age that holds it.
#[derive(Clone, Copy, PartialEq, Eq)]
pub struct Entry {
    pub slot: usize,
    pub age: u64,
}

impl Entry {
    /// Whether its age is below another one's: this is the step that is counted.
    pub(crate) fn is_older<C: Ledger>(&self, other: &Entry, steps: &mut C) -> bool
        ensures answer { result ≡ nat_lt self.now.age other.now.age }
        ensures cost { C.noted steps.new ≤ C.noted steps.old + 1 }
    {
        steps.step();
        self.age < other.age
    }
}
