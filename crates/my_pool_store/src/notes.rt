//! What a pool notes, one after the other.

use my_frame::NoMemory;
use std::alloc::Global;
use std::marker::Model;
use std::mem;

/// Notes, the oldest first. Where there is no memory for one, it and all later ones are missing.
#[derive(Drop)]
pub struct Notes<T> {
    noted: Vec<T>,
    cut: bool,
}

impl<T> Model for Notes<T> {
    ghost use Rattle.std.specs.Prelude.{Option, Some, None, List, if◌then◌else◌};

    ghost Value = { Option (List T) };

    ghost view = { λ n. if n.cut then None else Some n.noted.items };
}

impl<T> Notes<T> {
    ghost use Rattle.std.specs.Prelude.{◌≡◌, Some, [], option_map};

    /// No note.
    pub fn new(alloc: Global) -> Notes<T>
        ensures { result ≡ Some [] }
    {
        Notes {
            noted: Vec::new(alloc),
            cut: false,
        }
    }

    /// All notes are handed out, and none is left. Where one is missing, since there was no memory for it, there are none.
    pub fn take(&mut self, alloc: Global) -> Option<Vec<T>>
        ensures taken { option_map (λ notes. notes.items) result ≡ self.old }
        ensures left { self.new ≡ option_map (λ _. []) self.old }
    {
        if self.cut {
            return None;
        }
        Some(mem::replace(&mut self.noted, Vec::new(alloc)))
    }
}

impl<T: Drop> Notes<T> {
    ghost use Rattle.my_pool_store.specs.Noted.{IsNoted, MayNote};

    /// One more note.
    pub fn note(&mut self, one: T)
        ensures { IsNoted self.old one self.new }
    {
        if self.cut {
            drop(one);
            return;
        }
        if self.noted.push(one).is_err() {
            self.cut = true;
        }
    }

    /// One more note, where there is one.
    pub fn note_if(&mut self, one: Option<T>)
        ensures { MayNote self.old one self.new }
    {
        if let Some(one) = one {
            self.note(one);
        }
    }
}

impl<T: Copy> Notes<T> {
    ghost use Rattle.std.specs.Prelude.{◌≡◌, Some, IfOk};

    /// A copy of the notes. Where one is missing, since there was no memory for it, there is none.
    pub fn copy(&self, alloc: Global) -> Result<Vec<T>, NoMemory>
        ensures { IfOk result (λ notes. self.now ≡ Some notes.items) }
    {
        if self.cut {
            return Err(NoMemory);
        }
        let mut copied = Vec::new(alloc);
        copied.extend_from_slice(&self.noted)?;
        Ok(copied)
    }
}
