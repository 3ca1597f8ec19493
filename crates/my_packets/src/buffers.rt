//! Buffers that are used again.

ghost use Rattle.std.specs.Prelude.{◌≡◌, ◌-◌, ◌<◌, ◌++◌, [], length, IsOk, IfOk, OnOk, OnErr, vec_capacity};
ghost use Rattle.my_packets.specs.Buffers.{content, room, kept_after};

use my_frame::NoMemory;
use std::alloc::Global;
use std::marker::Model;

/// A buffer of bytes that came from a pool of buffers.
#[derive(Drop)]
pub struct PooledBuf {
    bytes: Vec<u8>,
}

impl PooledBuf {
    ghost use Rattle.std.specs.Borrow.{Lends, sem};
    ghost use Rattle.my_packets.specs.contracts.buffers.PooledBuf.{the_row};
    ghost use Rattle.my_packets.specs.Rows.{bytes_row};

    /// Its bytes.
    pub fn as_slice(&self) -> &[u8]
        ensures { result.now ≡ content self.now }
    {
        self.bytes.as_slice()
    }

    /// Its bytes, to be changed.
    pub fn as_mut(&mut self) -> &mut Vec<u8>
        ensures* writes_back { sem 𝓛 (Lends the_row bytes_row self.entry result (λ v. record { bytes = v })) }
        ensures shows { result.now.items ≡ content self.old }
    {
        &mut self.bytes
    }

    // Adds bytes at the end. Out of memory, nothing changes.
    fn fill(&mut self, bytes: &[u8]) -> Result<(), NoMemory>
        ensures ok { OnOk result (content self.new ≡ content self.old ++ bytes.now) }
        ensures same { OnErr result (content self.new ≡ content self.old) }
        ensures room { OnErr result (room self.new ≡ room self.old) }
        ensures none { bytes.now ≡ [] → IsOk result }
    {
        self.bytes.reserve(bytes.len())?;
        self.bytes.extend_from_slice(bytes).unwrap();
        Ok(())
    }
}

// An empty buffer with room for `capacity` bytes.
fn new_buffer(alloc: Global, capacity: usize) -> Result<PooledBuf, NoMemory>
    ensures content { IfOk result (λ b. content b ≡ []) }
    ensures room { IfOk result (λ b. room b ≡ capacity) }
    ensures none { capacity ≡ 0 → IsOk result }
{
    Ok(PooledBuf {
        bytes: Vec::with_capacity(alloc, capacity)?,
    })
}

/// Empty buffers that are kept to be used again.
///
/// At most `pool_cap` of them are kept, each with room for at most `size_cap` bytes; a new one has room for `init_cap` bytes.
#[derive(Drop)]
pub struct BufferPool {
    alloc: Global,
    buffers: Vec<PooledBuf>,
    pool_cap: usize,
    size_cap: usize,
    init_cap: usize,
}

impl Model for BufferPool {
    ghost use Rattle.std.specs.Prelude.{vec_len};
    ghost use Rattle.my_packets.specs.Buffers.{Spare, IsPool};

    ghost Value = { Spare };

    ghost view = { λ p. record {
      kept = vec_len p.buffers;
      pool_cap = p.pool_cap;
      size_cap = p.size_cap;
      init_cap = p.init_cap;
    } };

    ghost invariant = { λ p. IsPool p.buffers p.pool_cap p.size_cap };
}

impl BufferPool {
    /// A pool that keeps no buffer yet, with room for those that it may keep.
    pub fn new(
        alloc: Global,
        pool_cap: usize,
        size_cap: usize,
        init_cap: usize,
    ) -> Result<BufferPool, NoMemory>
        ensures { IfOk result (λ p.
            p ≡ record { kept = 0; pool_cap = pool_cap; size_cap = size_cap; init_cap = init_cap }) }
    {
        Ok(BufferPool {
            alloc,
            buffers: Vec::with_capacity(alloc, pool_cap)?,
            pool_cap,
            size_cap,
            init_cap,
        })
    }

    /// How many buffers are kept.
    pub fn spare(&self) -> usize
        ensures { result ≡ self.now.kept }
    {
        self.buffers.len()
    }

    /// An empty buffer: one that is kept, or a new one where none is.
    pub fn get(&mut self) -> Result<PooledBuf, NoMemory>
        ensures content { IfOk result (λ b. content b ≡ []) }
        ensures fresh { self.old.kept ≡ 0 → IfOk result (λ b. room b ≡ self.old.init_cap) }
        ensures kept { 0 < self.old.kept → IsOk result }
        ensures ok { OnOk result (self.new ≡ record self.old { kept = self.old.kept - 1 }) }
        ensures err { OnErr result (self.new ≡ self.old) }
    {
        match self.buffers.pop() {
            Some(buffer) => Ok(buffer),
            None => new_buffer(self.alloc, self.init_cap),
        }
    }

    /// A buffer that holds `bytes`. Out of memory, nothing changes.
    pub fn get_with(&mut self, bytes: &[u8]) -> Result<PooledBuf, NoMemory>
        ensures content { IfOk result (λ b. content b ≡ bytes.now) }
        ensures ok { OnOk result (self.new ≡ record self.old { kept = self.old.kept - 1 }) }
        ensures err { OnErr result (self.new ≡ self.old) }
    {
        match self.buffers.pop() {
            Some(mut buffer) => {
                if buffer.fill(bytes).is_ok() {
                    return Ok(buffer);
                }
                self.buffers.push(buffer).unwrap();
                Err(NoMemory)
            }
            None => {
                let mut buffer = new_buffer(self.alloc, self.init_cap)?;
                buffer.fill(bytes)?;
                Ok(buffer)
            }
        }
    }

    /// Empties a buffer and keeps it, or frees it where as many are kept as may be, or its room passes what is kept.
    pub fn give(&mut self, buffer: PooledBuf)
        ensures { self.new ≡ record self.old { kept = kept_after self.old (room buffer) } }
    {
        if self.buffers.len() < self.pool_cap && buffer.bytes.capacity() <= self.size_cap {
            let mut buffer = buffer;
            buffer.bytes.clear();
            self.buffers.push(buffer).unwrap();
        }
    }
}
