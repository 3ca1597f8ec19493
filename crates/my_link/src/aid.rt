//! What lends a connection files and texts.
ghost use Rattle.std.specs.Prelude.{◌≡◌, ◌<◌, IfOk, Ok, length};
ghost use Rattle.my_frame.specs.Sources.{Gave};
ghost use Rattle.my_link.specs.Aid.{FileSeen, CountsOpening, CountsRead, Texts, IsTold};

use my_frame::{Blob, NoMemory, SourceStep, Text};
use std::alloc::Global;

/// What the opening of a file returns.
#[derive(Clone, Copy, PartialEq, Eq)]
pub enum Opening {
    Opened,
    /// It isn't among the files that may be read.
    NotListed,
    /// No file may be read: no handler is set.
    Absent,
    Failed,
}

/// What opens the files that a server asks for, one after another.
pub trait GlobalHandler {
    /// What the opened file has left to be read, where it is known, and how often an opening or a read failed. The count
    /// never falls, and rises with each such result until it is at its greatest value.
    ghost file: { Self → FileSeen };

    /// Opens the file of this name, in place of the one that is open.
    fn open_file(&mut self, name: &[u8]) -> Opening
        ensures { CountsOpening (file self.old).faults (file self.new).faults result };

    /// Reads the opened file into a buffer that is not empty.
    fn read(&mut self, buf: &mut [u8]) -> SourceStep
        requires { 0 < length buf.old }
        ensures bytes { Gave (file self.old).left buf.new (file self.new).left result }
        ensures counts { CountsRead (file self.old).faults (file self.new).faults result };
}

/// A file that is sent once, in place of the next that a server asks for.
pub trait InfileSource: Drop {
    /// What it has left to be read, where it is known, and how often a read failed. The count never falls, and rises with
    /// each such result until it is at its greatest value.
    ghost seen: { Self → FileSeen };

    /// Reads it into a buffer that is not empty.
    fn read(&mut self, buf: &mut [u8]) -> SourceStep
        requires { 0 < length buf.old }
        ensures bytes { Gave (seen self.old).left buf.new (seen self.new).left result }
        ensures counts { CountsRead (seen self.old).faults (seen self.new).faults result };
}

/// What follows a login.
#[derive(Drop)]
pub enum AfterStep {
    /// This text is sent.
    Query(Blob),
    Done,
    /// The connection is refused, for this reason.
    Refuse(Text),
}

/// What says which texts are sent after a login.
pub trait AfterConnect {
    /// What follows for each number, where it is known.
    ghost texts: { Self → Texts };

    /// What follows the login and the earlier texts, which are `n`.
    fn next(&mut self, alloc: Global, n: u64) -> Result<AfterStep, NoMemory>
        ensures told { IfOk result (λ step. IsTold (texts self.old) n step) }
        ensures same { texts self.new ≡ texts self.old };
}

/// What lends a connection its files and texts.
pub trait Aid: GlobalHandler + AfterConnect {}

/// No file, and no text.
#[derive(Clone, Copy, Drop)]
pub struct NoAid;

impl GlobalHandler for NoAid {
    ghost use Rattle.std.specs.Prelude.{[], Some};

    ghost file = { λ a. record { left = Some []; faults = 0 } };

    fn open_file(&mut self, _name: &[u8]) -> Opening
        ensures { result ≡ Opening.Absent }
    {
        Opening::Absent
    }

    fn read(&mut self, _buf: &mut [u8]) -> SourceStep
        ensures { result ≡ SourceStep.End }
    {
        SourceStep::End
    }
}

impl AfterConnect for NoAid {
    ghost use Rattle.my_link.specs.Aid.{no_texts};

    ghost texts = { λ a. no_texts };

    fn next(&mut self, _alloc: Global, _n: u64) -> Result<AfterStep, NoMemory>
        ensures { result ≡ Ok AfterStep.Done }
    {
        Ok(AfterStep::Done)
    }
}

impl Aid for NoAid {}
