//! What opens files by their names.
ghost use Rattle.std.specs.Prelude.{[], ◌∷◌, ℕ, IfOk, List, Option};
ghost use Rattle.my_files.specs.Lending.{Asked, Asks, IsNamed};

use std::io::Read;
use std::rt::Files;
use std::{fs, io};

/// What opens files for reading.
pub trait Opens {
    type File: Read + Drop;

    /// The names that it was asked to open, in order, where they are known.
    ghost asked: { Self → Asked };

    /// The name that a file was opened by, where it is known.
    ghost name_of: { Self.File → Option (List ℕ) };

    /// Opens the file of this name.
    fn open(&mut self, name: &str) -> io::Result<Self::File>
        ensures asked { Asks (asked self.old) (name.now ∷ []) (asked self.new) }
        ensures named { IfOk result (λ f. IsNamed (name_of f) name.now) };
}

/// The files of the system. It doesn't tell which of them it was asked to open.
#[derive(Drop)]
pub struct SystemFiles<R> {
    rt: R,
}

impl<R> SystemFiles<R> {
    pub fn new(rt: R) -> SystemFiles<R> {
        SystemFiles { rt }
    }
}

impl<R: Files> Opens for SystemFiles<R> {
    ghost use Rattle.std.specs.Prelude.{None};

    type File = R::File;

    ghost asked = { λ s. None };

    ghost name_of = { λ f. None };

    fn open(&mut self, name: &str) -> io::Result<R::File> {
        fs::open(&self.rt, name)
    }
}
