//! A payload with what it is.

ghost use Rattle.std.specs.Prelude.{◌≡◌, IfOk};

use crate::spot::Kind;
use my_frame::{Blob, NoMemory};
use std::alloc::Global;

/// A payload of the server, and what it was in its context.
#[derive(Drop)]
pub struct Packet {
    pub kind: Kind,
    pub payload: Blob,
}

impl Packet {
    /// A second value of the same packet.
    pub fn copy(&self, alloc: Global) -> Result<Packet, NoMemory>
        ensures { IfOk result (λ copy. copy ≡ self.now) }
    {
        Ok(Packet {
            kind: self.kind,
            payload: self.payload.copy(alloc)?,
        })
    }
}
