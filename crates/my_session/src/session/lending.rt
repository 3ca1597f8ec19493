//! The buffer that a caller's reads of its link read into.

ghost use Rattle.std.specs.Prelude.{◌≡◌, ◌<◌, IfOk, length};

use super::Session;
use my_frame::NoMemory;
use std::alloc::Global;
use std::mem;

// How many bytes a read of the link may bring: the first ones, and each after one that brought as many.
const FIRST_SIZE: usize = 1_024;

const READ_SIZE: usize = 16_384;

// How many bytes the next read may bring.
fn read_size(busy: bool) -> usize
    ensures { 0 < result }
{
    if busy { READ_SIZE } else { FIRST_SIZE }
}

/// Whether a read brought so many bytes that the next one may bring more.
pub(super) fn is_full(bytes: &[u8]) -> bool {
    bytes.len() >= FIRST_SIZE
}

impl Session {
    /// Lends the buffer that the caller's reads of its link read into, until `keep_buffer`. It has the bytes of earlier reads;
    /// one is made for the first read, and a longer one once a read filled it.
    pub fn lend_buffer(&mut self, alloc: Global) -> Result<Vec<u8>, NoMemory>
        ensures room { IfOk result (λ buffer. 0 < length buffer.items) }
        ensures seen { self.new.seen ≡ self.old.seen }
        ensures lifetime { self.new.lifetime ≡ self.old.lifetime }
    {
        let size = read_size(self.is_busy);
        let buffer = mem::replace(&mut self.buffer, Vec::new(alloc));
        if buffer.len() < size {
            drop(buffer);
            return Ok(vec![in alloc; 0u8; size]?);
        }
        Ok(buffer)
    }

    /// Keeps the buffer for the next read.
    pub fn keep_buffer(&mut self, buffer: Vec<u8>)
        ensures seen { self.new.seen ≡ self.old.seen }
        ensures lifetime { self.new.lifetime ≡ self.old.lifetime }
    {
        self.buffer = buffer;
    }
}
