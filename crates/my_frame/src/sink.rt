//! Where bytes go.

ghost use Rattle.std.specs.Prelude.{◌≡◌, ◌-◌, ◌<◌, [], Some, length, IfOk};
ghost use Rattle.my_frame.specs.Sinks.{TookBytes, SinkCounts, SinkSeen, held_step};

use crate::no_memory::NoMemory;
use bytes::BytesMut;
use std::alloc::Global;
use std::marker::Model;

/// What a write did.
#[derive(Clone, Copy, PartialEq, Eq)]
pub enum SinkStep {
    /// This number of bytes went out, from the front: at least one, and at most all.
    Took(usize),
    Failed,
}

/// A sink of bytes.
pub trait Sink {
    /// The bytes that it took, where they are known, and how often a write failed. The count never falls, and rises
    /// with each fault until it is at its greatest value.
    ghost seen: { Self → SinkSeen };

    /// Writes some of the bytes, of which there are some.
    fn write(&mut self, bytes: &[u8]) -> SinkStep
        requires { 0 < length bytes.now }
        ensures bytes { TookBytes (seen self.old).took bytes.now (seen self.new).took result }
        ensures counts { SinkCounts (seen self.old).faults (seen self.new).faults result };
}

/// A sink in memory. It takes its memory when it is made, and fails once its room is spent.
#[derive(Drop)]
pub struct MemSink {
    taken: BytesMut,
    room: usize,
    faults: u64,
}

impl Model for MemSink {
    ghost use Rattle.std.specs.Prelude.{◌≤◌};
    ghost use Rattle.my_frame.specs.Sinks.{Held};

    ghost Value = { Held };

    ghost view = { λ s. record { taken = s.taken.items; room = s.room; faults = s.faults } };

    ghost invariant = { λ s. s.room ≤ s.taken.spare };
}

impl MemSink {
    /// A sink that takes `room` bytes.
    pub fn new(alloc: Global, room: usize) -> Result<MemSink, NoMemory>
        ensures { IfOk result (λ s. s ≡ record { taken = []; room = room; faults = 0 }) }
    {
        let mut taken = BytesMut::new(alloc);
        taken.reserve(room)?;
        Ok(MemSink {
            taken,
            room,
            faults: 0,
        })
    }

    /// The bytes that it took.
    pub fn taken(&self) -> &[u8]
        ensures { result.now ≡ self.now.taken }
    {
        self.taken.as_slice()
    }
}

impl Sink for MemSink {
    ghost seen = { λ s. record { took = Some s.taken; faults = s.faults } };

    fn write(&mut self, bytes: &[u8]) -> SinkStep
        requires { 0 < length bytes.now }
        ensures bytes { TookBytes (Some self.old.taken) bytes.now (Some self.new.taken) result }
        ensures counts { SinkCounts self.old.faults self.new.faults result }
        ensures exact { result ≡ held_step self.old.room bytes.now }
        ensures room { self.new.room ≡ self.old.room - length bytes.now }
    {
        if self.room == 0 {
            self.faults = self.faults.saturating_add(1);
            return SinkStep::Failed;
        }
        let count = self.room.min(bytes.len());
        let (front, _) = bytes.split_at(count);
        self.taken.extend_reserved(front);
        self.room -= count;
        SinkStep::Took(count)
    }
}
