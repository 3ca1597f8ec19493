//! The taking of a set by a stream that waits.
ghost use Rattle.std.specs.Prelude.{◌≡◌, None};
ghost use Rattle.my_conn.specs.Answers.{taken_of};
ghost use Rattle.my_conn.specs.Drives.{TakeIs};
ghost use Rattle.my_conn.specs.Streams.{SkipIs, StreamWaits};

use crate::conn::Conn;
use my_link::BlockingLink;
use my_reading::{Answer, Call, CallKind, Error};
use std::alloc::Global;

/// Whether a set was there.
pub fn taken_answer(given: &Answer) -> bool
    ensures { result ≡ taken_of given.now }
{
    match given {
        Answer::Ready => true,
        Answer::Row(_) | Answer::SetEnd | Answer::NoSet | Answer::Stmt(_) | Answer::Flag(_) => {
            false
        }
    }
}

impl<L: BlockingLink> Conn<L> {
    // Takes the set that is read, or the next one.
    fn take_next_set(&mut self, alloc: Global) -> Result<bool, Error>
        requires { self.old.pending ≡ None }
        ensures { TakeIs L.looks self.old self.new result }
    {
        match self.drive(alloc, CallKind::TakeSet, Call::TakeSet) {
            Ok(answer) => {
                let taken = taken_answer(&answer);
                drop(answer);
                return Ok(taken);
            }
            Err(error) => return Err(error),
        }
    }

    // Passes over the rest of the set that an earlier stream took, and takes the next one.
    fn skip_to_set(&mut self, alloc: Global) -> Result<bool, Error>
        requires { self.old.pending ≡ None }
        ensures { SkipIs L.looks self.old self.new result }
    {
        match self.drive(alloc, CallKind::SkipTaken, Call::SkipTaken) {
            Ok(answer) => {
                drop(answer);
                return self.take_next_set(alloc);
            }
            Err(error) => return Err(error),
        }
    }

    /// Lets a stream take the set that is read, or the next one, and waits for it. The rest of a set that an earlier
    /// stream took is passed over first. `false`: nothing is left.
    pub fn take_set(&mut self, alloc: Global) -> Result<bool, Error>
        requires { self.old.pending ≡ None }
        ensures { StreamWaits L.looks self.old self.new result }
    {
        if self.is_taken() {
            return self.skip_to_set(alloc);
        }
        self.take_next_set(alloc)
    }
}
