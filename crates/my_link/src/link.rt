//! What a session reads from and writes to.
ghost use Rattle.std.specs.Prelude.{◌≡◌, ◌<◌, Bool, length};
ghost use Rattle.my_link.specs.Looks.{Looks};
ghost use Rattle.my_link.specs.Moves.{ReadIs, WriteIs};
ghost use Rattle.my_link.specs.Check.{CheckIs};

use my_frame::Blob;

/// What can be read from a link, one item after another.
#[derive(Drop)]
pub enum ReadItem {
    /// Bytes that can be read.
    Bytes(Blob),
    /// What follows can be read once a write took a byte; until then a read isn't ready.
    Turn,
    /// The next read isn't ready, once.
    Wait,
    /// The next read fails, once.
    Fail,
    /// The end: every read from here on returns it.
    End,
}

/// What a link does with writes, one item after another. With no item left it takes all bytes of a write.
#[derive(Clone, Copy, PartialEq, Eq)]
pub enum WriteItem {
    /// The next bytes are taken, this many in all.
    Accept(u64),
    /// The next write isn't ready, once.
    Wait,
    /// The next write fails, once.
    Fail,
}

/// What a read returns. `Got` has the number of bytes that are in the buffer now, at least one.
#[derive(Clone, Copy, PartialEq, Eq)]
pub enum ReadStep {
    Got(usize),
    NotYet,
    End,
    Failed,
}

/// What a write returns. `Took` has the number of bytes that were taken, at least one.
#[derive(Clone, Copy, PartialEq, Eq)]
pub enum WriteStep {
    Took(usize),
    NotYet,
    Failed,
    NoMemory,
}

/// What a check returns. A link is dead where bytes or the end can be read: nothing may come before the next command.
#[derive(Clone, Copy, PartialEq, Eq)]
pub enum CheckStep {
    Alive,
    Dead,
    NotYet,
    Failed,
}

/// A way to a server and back.
///
/// It counts how often it failed, wasn't ready, ended and was found dead. A count never falls, and rises with each such
/// result until it is at its greatest value.
pub trait Link {
    /// The items that are left for reads and for writes and the bytes that it was sent, where the link tells them,
    /// and its counts.
    ghost looks: { Self → Looks };

    /// Whether it is a local socket.
    ghost socket: { Self → Bool };

    /// Reads into `buf`, which is not empty.
    fn read(&mut self, buf: &mut [u8]) -> ReadStep
        requires { 0 < length buf.old }
        ensures looks { ReadIs (looks self.old) buf.new (looks self.new) result }
        ensures socket { socket self.new ≡ socket self.old };

    /// Writes some of `bytes`, which is not empty.
    fn write(&mut self, bytes: &[u8]) -> WriteStep
        requires { 0 < length bytes.now }
        ensures looks { WriteIs (looks self.old) bytes.now (looks self.new) result }
        ensures socket { socket self.new ≡ socket self.old };

    /// Whether it is alive, while nothing is expected from it.
    fn check(&mut self) -> CheckStep
        ensures looks { CheckIs (looks self.old) (looks self.new) result }
        ensures socket { socket self.new ≡ socket self.old };

    /// Whether it is a local socket.
    fn is_socket(&self) -> bool
        ensures { result ≡ socket self.now };
}
