//! Where a server is with its client, and what its steps ask for.

use my_flags::CapabilityFlags;
use my_frame::CodecFault;

/// Why a server's core is closed.
#[derive(Clone, Copy, PartialEq, Eq)]
pub enum CloseCause {
    /// The client quit.
    Quit,
    /// The login was not admitted.
    Denied,
    /// A payload that fits no case, with the number of whole payloads before it.
    BadPacket(u64),
    /// A header with a fault.
    Codec(CodecFault),
}

/// What a step of a server's core comes to.
#[derive(Clone, Copy, PartialEq, Eq)]
pub enum ServerStep {
    /// Bytes are to be sent.
    Send,
    /// Bytes are needed.
    Need,
    /// The core is closed, and nothing is to be sent.
    Closed(CloseCause),
    /// Out of memory: nothing changed.
    NoMemory,
}

/// Where a server is with its client.
#[derive(Clone, Copy)]
pub enum Phase {
    /// The client's login is awaited.
    Login,
    /// Commands are answered; both sides have these capabilities.
    Commands(CapabilityFlags),
    Closed(CloseCause),
}
