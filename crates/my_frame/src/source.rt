//! Where bytes come from.

ghost use Rattle.std.specs.Prelude.{◌≡◌, ◌<◌, Some, drop, length, min, take};
ghost use Rattle.my_frame.specs.Sources.{Gave, KeepsRest, SourceCounts, SourceSeen, mem_step};

use std::marker::Model;

/// What a read did.
#[derive(Clone, Copy, PartialEq, Eq)]
pub enum SourceStep {
    /// This number of bytes came, to the buffer's front: at least one, and at most as many as it has.
    Got(usize),
    /// Nothing is left.
    End,
    Failed,
}

/// A source of bytes.
pub trait Source {
    /// The bytes that are left, where they are known, and how often a read failed and returned the end. A count never
    /// falls, and rises with each such result until it is at its greatest value.
    ghost seen: { Self → SourceSeen };

    /// Reads some bytes into a buffer that is not empty.
    fn read(&mut self, buf: &mut [u8]) -> SourceStep
        requires { 0 < length buf.old }
        ensures bytes { Gave (seen self.old).left buf.new (seen self.new).left result }
        ensures counts { SourceCounts (seen self.old) (seen self.new) result };
}

/// A source in memory, which contracts see as the bytes that it has left and the count of its ends. It never fails.
#[derive(Drop)]
pub struct MemSource {
    bytes: Vec<u8>,
    from: usize,
    ends: u64,
}

impl Model for MemSource {
    ghost use Rattle.std.specs.Prelude.{◌≤◌, drop, vec_len};
    ghost use Rattle.my_frame.specs.Sources.{Supply};

    ghost Value = { Supply };

    ghost view = { λ s. record { left = drop s.from s.bytes.items; ends = s.ends } };

    ghost invariant = { λ s. s.from ≤ vec_len s.bytes };
}

impl MemSource {
    pub fn new(bytes: Vec<u8>) -> MemSource
        ensures { result ≡ record { left = bytes.items; ends = 0 } }
    {
        MemSource {
            bytes,
            from: 0,
            ends: 0,
        }
    }
}

// Copies to the buffer's front as many bytes as fit.
fn copy_front(buf: &mut [u8], bytes: &[u8]) -> usize
    ensures count { result ≡ min (length buf.old) (length bytes.now) }
    ensures copied { take result buf.new ≡ take result bytes.now }
    ensures kept { drop result buf.new ≡ drop result buf.old }
{
    let count = buf.len().min(bytes.len());
    buf[..count].copy_from_slice(&bytes[..count]);
    count
}

impl Source for MemSource {
    ghost seen = { λ s. record { left = Some s.left; faults = 0; ends = s.ends } };

    fn read(&mut self, buf: &mut [u8]) -> SourceStep
        requires { 0 < length buf.old }
        ensures bytes { Gave (Some self.old.left) buf.new (Some self.new.left) result }
        ensures counts { SourceCounts (record { left = Some self.old.left; faults = 0; ends = self.old.ends })
            (record { left = Some self.new.left; faults = 0; ends = self.new.ends }) result }
        ensures exact { result ≡ mem_step self.old.left buf.old }

        // The buffer stays as it was after the bytes that came.
        ensures kept { KeepsRest buf.old buf.new result }
    {
        let (_, left) = self.bytes.as_slice().split_at(self.from);
        if left.is_empty() {
            self.ends = self.ends.saturating_add(1);
            return SourceStep::End;
        }
        let count = copy_front(buf, left);
        self.from += count;
        SourceStep::Got(count)
    }
}
