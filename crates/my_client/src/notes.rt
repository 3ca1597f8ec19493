//! What is noted on the tape of a connection, where one is kept.
ghost use Rattle.std.specs.Prelude.{◌≡◌, None, Some, is_some, OnOk};
ghost use Rattle.my_client.specs.Ends.{kept_after};
ghost use Rattle.my_client.specs.Kept.{Asked, Kept, asking, ended_by};
ghost use Rattle.my_client.specs.Notes.{Agrees, NotesSent, NotesTaken};

use crate::poll::After;
use crate::tape::{Said, Tape};
use my_frame::NoMemory;
use my_reading::Call;
use std::alloc::Global;

/// Notes that these bytes were sent.
pub(crate) fn note_sent(tape: &mut Option<Tape>, bytes: &[u8]) -> Result<(), NoMemory>
    ensures noted { OnOk result (NotesSent tape.old tape.new bytes.now) }
    ensures keeps { is_some tape.new ≡ is_some tape.old }
{
    match tape {
        None => Ok(()),
        Some(tape) => {
            tape.sent.extend_from_slice(bytes)?;
            Ok(())
        }
    }
}

/// Notes that these bytes were taken.
pub(crate) fn note_taken(tape: &mut Option<Tape>, bytes: &[u8]) -> Result<(), NoMemory>
    ensures noted { OnOk result (NotesTaken tape.old tape.new bytes.now) }
    ensures keeps { is_some tape.new ≡ is_some tape.old }
{
    match tape {
        None => Ok(()),
        Some(tape) => {
            tape.taken.extend_from_slice(bytes)?;
            Ok(())
        }
    }
}

/// Notes that this call begins.
pub(crate) fn note_call(alloc: Global, tape: &mut Option<Tape>, call: &Call) -> Result<(), NoMemory>
    ensures noted { OnOk result ((k : Kept) → Agrees tape.old k → Agrees tape.new (asking k call.now None)) }
    ensures keeps { OnOk result (is_some tape.new ≡ is_some tape.old) }
{
    match tape {
        None => Ok(()),
        Some(tape) => tape.ask(call.copy(alloc)?),
    }
}

/// Notes what a poll of the open call returned.
pub(crate) fn note_after(
    alloc: Global,
    tape: &mut Option<Tape>,
    after: &After,
) -> Result<(), NoMemory>
    ensures noted { OnOk result ((k : Kept) (a : Asked) → Agrees tape.old k → k.pending ≡ Some a
        → Agrees tape.new (kept_after k a after.now)) }
    ensures keeps { OnOk result (is_some tape.new ≡ is_some tape.old) }
{
    match tape {
        None => Ok(()),
        Some(tape) => tape.keep(alloc, after),
    }
}

/// Notes how the open call ended. It takes no memory.
pub(crate) fn note_end(tape: &mut Option<Tape>, said: Said)
    ensures noted { (k : Kept) (a : Asked) → Agrees tape.old k → k.pending ≡ Some a
        → Agrees tape.new (ended_by k a said) }
    ensures keeps { is_some tape.new ≡ is_some tape.old }
{
    match tape {
        None => drop(said),
        Some(tape) => tape.note(said),
    }
}
