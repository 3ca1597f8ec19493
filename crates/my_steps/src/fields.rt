//! A step that shows the server's last OK packet.
ghost use Rattle.std.specs.Prelude.{◌≡◌, IfOk};
ghost use Rattle.my_steps.specs.Did.{EachDid};
ghost use Rattle.my_steps.specs.declared.slot.Slot.TheVariants.{There as ThereAt};
ghost use Rattle.my_script.specs.declared.action.Work.TheVariants.{Fields as FieldsWork};

use crate::outcome::{StepResult, unused};
use my_conn::Conn;
use my_frame::NoMemory;
use my_link::Link;
use my_reply::OkPacket;
use my_script::Outcome;
use std::alloc::Global;

// A copy of the last OK packet.
fn last_ok<L>(alloc: Global, conn: &Conn<L>) -> Result<Option<OkPacket>, NoMemory>
    ensures { IfOk result (λ ok. ok ≡ conn.now.seen.stand.facts.ok) }
{
    match conn.last_ok_packet() {
        None => Ok(None),
        Some(packet) => Ok(Some(packet.copy(alloc)?)),
    }
}

/// Shows the last OK packet, unless a call is open.
pub(crate) fn tell<L: Link>(
    alloc: Global,
    conn: &Conn<L>,
    number: u64,
) -> Result<StepResult, NoMemory>
    ensures { IfOk result (λ d. EachDid L.looks number FieldsWork (ThereAt conn.now) (ThereAt conn.now) d) }
{
    match conn.open_call() {
        Some(_) => Ok(unused(alloc, Outcome::NoSuchHandle)),
        None => {
            let fields = last_ok(alloc, conn)?;
            Ok(unused(alloc, Outcome::Fields(fields)))
        }
    }
}
