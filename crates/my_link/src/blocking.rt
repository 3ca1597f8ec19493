//! Links that are always ready.
ghost use Rattle.std.specs.Prelude.{◌≡◌, ◌<◌, length};
ghost use Rattle.my_link.specs.Check.{CheckIs, read_of};
ghost use Rattle.my_frame.specs.Outside.{Rose};
ghost use Rattle.my_link.specs.Moves.{ReadIs, WriteIs};

use crate::link::{CheckStep, Link, ReadStep, WriteStep};
use my_frame::SourceStep;

/// A link that waits until it is ready: no call returns `NotYet`.
pub trait BlockingLink: Link {
    /// It never wasn't ready. A result `NotYet` would raise this count.
    ghost never_holds: { (l : Self) → (Self.looks l).counts.holds ≡ 0 };
}

/// Another link, of which each result `NotYet` is a fault.
#[derive(Drop)]
pub struct ReadyLink<K> {
    inner: K,
    faults: u64,
}

impl<K> ReadyLink<K> {
    pub fn new(inner: K) -> ReadyLink<K>
        ensures inner { result.inner ≡ inner }
        ensures faults { result.faults ≡ 0 }
    {
        ReadyLink { inner, faults: 0 }
    }

    fn fault(&mut self)
        ensures inner { self.new.inner ≡ self.old.inner }
        ensures faults { Rose self.old.faults self.new.faults }
    {
        self.faults = self.faults.saturating_add(1);
    }
}

impl<K: Link> Link for ReadyLink<K> {
    ghost use Rattle.my_link.specs.Ready.{ready_looks, ReadyRead, ReadyWrite, ReadyCheck};

    ghost looks = { ready_looks K.looks };

    ghost socket = { λ l. K.socket l.inner };

    fn read(&mut self, buf: &mut [u8]) -> ReadStep
        requires { 0 < length buf.old }
        ensures looks { ReadIs (ready_looks K.looks self.old) buf.new (ready_looks K.looks self.new) result }
        ensures socket { K.socket self.new.inner ≡ K.socket self.old.inner }
        ensures inner { ReadyRead (K.looks self.old.inner) buf.new (K.looks self.new.inner) result }
    {
        match self.inner.read(buf) {
            ReadStep::Got(count) => ReadStep::Got(count),
            ReadStep::End => ReadStep::End,
            ReadStep::NotYet | ReadStep::Failed => {
                self.fault();
                ReadStep::Failed
            }
        }
    }

    fn write(&mut self, bytes: &[u8]) -> WriteStep
        requires { 0 < length bytes.now }
        ensures looks { WriteIs (ready_looks K.looks self.old) bytes.now (ready_looks K.looks self.new) result }
        ensures socket { K.socket self.new.inner ≡ K.socket self.old.inner }
        ensures inner { ReadyWrite (K.looks self.old.inner) bytes.now (K.looks self.new.inner) result }
    {
        match self.inner.write(bytes) {
            WriteStep::Took(count) => WriteStep::Took(count),
            WriteStep::NoMemory => WriteStep::NoMemory,
            WriteStep::NotYet | WriteStep::Failed => {
                self.fault();
                WriteStep::Failed
            }
        }
    }

    fn check(&mut self) -> CheckStep
        ensures looks { CheckIs (ready_looks K.looks self.old) (ready_looks K.looks self.new) result }
        ensures socket { K.socket self.new.inner ≡ K.socket self.old.inner }
        ensures inner { ReadyCheck (K.looks self.old.inner) (K.looks self.new.inner) result }
    {
        match self.inner.check() {
            CheckStep::Alive => CheckStep::Alive,
            CheckStep::Dead => CheckStep::Dead,
            CheckStep::NotYet | CheckStep::Failed => {
                self.fault();
                CheckStep::Failed
            }
        }
    }

    fn is_socket(&self) -> bool {
        self.inner.is_socket()
    }
}

impl<K: Link> BlockingLink for ReadyLink<K> {
    ghost use Rattle.std.specs.Prelude.{refl};

    ghost never_holds = { λ l. refl };
}

/// Reads from a link that is always ready.
pub fn read_blocking<L: BlockingLink>(link: &mut L, buf: &mut [u8]) -> SourceStep
    requires { 0 < length buf.old }
    ensures looks { ReadIs (L.looks link.old) buf.new (L.looks link.new) (read_of result) }
    ensures socket { L.socket link.new ≡ L.socket link.old }
{
    match link.read(buf) {
        ReadStep::Got(count) => SourceStep::Got(count),
        ReadStep::End => SourceStep::End,
        ReadStep::Failed => SourceStep::Failed,
        ReadStep::NotYet => unreachable!(),
    }
}
