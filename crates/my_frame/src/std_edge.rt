//! Readers and writers of the standard library as sources and sinks. Contracts don't say which
//! bytes they have left or took.

ghost use Rattle.std.specs.Prelude.{◌≡◌, ◌≤◌, IfSome, None, length};

use crate::sink::{Sink, SinkStep};
use crate::source::{Source, SourceStep};
use std::io::{ErrorKind, Read, Write};

/// The most times that a read or a write is tried which is interrupted each time.
const MOST_TRIES: u32 = 1_000;

/// A reader as a source.
#[derive(Drop)]
pub struct StdSource<R> {
    pub inner: R,
    faults: u64,
    ends: u64,
}

impl<R> StdSource<R> {
    pub fn new(inner: R) -> StdSource<R>
        ensures inner { result.inner ≡ inner }
        ensures faults { result.faults ≡ 0 }
        ensures ends { result.ends ≡ 0 }
    {
        StdSource {
            inner,
            faults: 0,
            ends: 0,
        }
    }

    /// The number of reads that failed; it stays at its greatest value.
    pub fn faults(&self) -> u64
        ensures { result ≡ self.now.faults }
    {
        self.faults
    }

    /// The number of reads that returned the end; it stays at its greatest value.
    pub fn ends(&self) -> u64
        ensures { result ≡ self.now.ends }
    {
        self.ends
    }
}

// The bytes that a read gave, or `None` where it failed. An interrupted one is tried again.
fn read_some<R: Read>(inner: &mut R, buf: &mut [u8]) -> Option<usize>
    ensures { IfSome result (λ count. count ≤ length buf.new) }
{
    for _ in 0..MOST_TRIES {
        match inner.read(buf) {
            Ok(count) => return Some(count),
            Err(error) => {
                if error.kind() != ErrorKind::Interrupted {
                    return None;
                }
            }
        }
    }
    None
}

impl<R: Read> Source for StdSource<R> {
    ghost seen = { λ s. record { left = None; faults = s.faults; ends = s.ends } };

    fn read(&mut self, buf: &mut [u8]) -> SourceStep {
        match read_some(&mut self.inner, buf) {
            Some(0) => {
                self.ends = self.ends.saturating_add(1);
                SourceStep::End
            }
            Some(count) => SourceStep::Got(count),
            None => {
                self.faults = self.faults.saturating_add(1);
                SourceStep::Failed
            }
        }
    }
}

/// A writer as a sink. A write that takes nothing is a fault, too.
#[derive(Drop)]
pub struct StdSink<W> {
    pub inner: W,
    faults: u64,
}

impl<W> StdSink<W> {
    pub fn new(inner: W) -> StdSink<W>
        ensures inner { result.inner ≡ inner }
        ensures faults { result.faults ≡ 0 }
    {
        StdSink { inner, faults: 0 }
    }

    /// The number of writes that failed; it stays at its greatest value.
    pub fn faults(&self) -> u64
        ensures { result ≡ self.now.faults }
    {
        self.faults
    }
}

// The bytes that a write took, or `None` where it failed. An interrupted one is tried again.
fn write_some<W: Write>(inner: &mut W, bytes: &[u8]) -> Option<usize>
    ensures { IfSome result (λ count. count ≤ length bytes.now) }
{
    for _ in 0..MOST_TRIES {
        match inner.write(bytes) {
            Ok(count) => return Some(count),
            Err(error) => {
                if error.kind() != ErrorKind::Interrupted {
                    return None;
                }
            }
        }
    }
    None
}

impl<W: Write> Sink for StdSink<W> {
    ghost seen = { λ s. record { took = None; faults = s.faults } };

    fn write(&mut self, bytes: &[u8]) -> SinkStep {
        match write_some(&mut self.inner, bytes) {
            Some(count) if count > 0 => SinkStep::Took(count),
            _ => {
                self.faults = self.faults.saturating_add(1);
                SinkStep::Failed
            }
        }
    }
}
