//! The lines of a world's plan.

ghost use Rattle.std.specs.Prelude.{◌≡◌};
ghost use Rattle.my_link.specs.Plan.{link_of};

use my_frame::Blob;

/// A line of a world's plan. Its first field is the number of its link, which is that of the link's connection; the last two
/// are of no link.
#[derive(Drop)]
pub enum WorldLine {
    /// A packet can be read: a header with this number, then the payload.
    Packet(u64, u8, Blob),
    /// These bytes can be read.
    Bytes(u64, Blob),
    /// What follows can be read once a write took a byte while this line is first.
    Turn(u64),
    /// The next read isn't ready, once.
    Wait(u64),
    /// The next read fails, once.
    Fail(u64),
    /// The end: every read from here on returns it.
    End(u64),
    /// As a packet, but after each byte, of the header too, the next read isn't ready, once.
    Drip(u64, u8, Blob),
    /// The number of the next bytes that are written which are taken in one piece, or in shorter ones where the writes
    /// are shorter.
    Accept(u64, u64),
    /// The next write isn't ready, once.
    WriteWait(u64),
    /// The next write fails, once.
    WriteFail(u64),
    /// The next dial isn't ready, once.
    DialWait(u64),
    /// The next dial fails, once.
    DialFail(u64),
    /// The moment grows by this many milliseconds, and stops at the last one.
    Advance(u64),
    /// This word comes after the other random words.
    Random(u64),
}

impl WorldLine {
    /// The number of the link that it is of, and 0 where it is of none.
    pub fn link(&self) -> u64
        ensures { result ≡ link_of self.now }
    {
        match self {
            WorldLine::Packet(link, _, _)
            | WorldLine::Bytes(link, _)
            | WorldLine::Turn(link)
            | WorldLine::Wait(link)
            | WorldLine::Fail(link)
            | WorldLine::End(link)
            | WorldLine::Drip(link, _, _)
            | WorldLine::Accept(link, _)
            | WorldLine::WriteWait(link)
            | WorldLine::WriteFail(link)
            | WorldLine::DialWait(link)
            | WorldLine::DialFail(link) => *link,
            WorldLine::Advance(_) | WorldLine::Random(_) => 0,
        }
    }
}
