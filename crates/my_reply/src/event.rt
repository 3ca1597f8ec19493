//! The packet that holds one event of a binary log.

ghost use Rattle.std.specs.Prelude.{◌≡◌, IfOk, Some};
ghost use Rattle.std.specs.Option.{option_map};
ghost use Rattle.my_frame.specs.Reading.{Gives, ReadsExactly};
ghost use Rattle.my_reply.specs.Event.{IsEvent, event_at, header_at};

use my_frame::numbers::{take_head, take_u8, take_u16, take_u32, take_u48};
use my_frame::{Blob, NoMemory, ReadError};
use std::alloc::Global;

/// An event of a binary log.
#[derive(Drop)]
pub struct Event {
    /// Seconds since 1970.
    pub timestamp: u32,
    /// The number of the event's type.
    pub kind: u8,
    /// The id of the server that wrote it.
    pub server: u32,
    /// The length of header and body in bytes.
    pub size: u32,
    /// The position after it in its file.
    pub position: u32,
    pub flags: u16,
    /// What follows the header.
    pub body: Blob,
}

/// The type of an event that maps a table to an id.
pub const TABLE_MAP: u8 = 19;

// What comes before an event's body.
#[derive(Clone, Copy)]
struct EventHeader {
    timestamp: u32,
    kind: u8,
    server: u32,
    size: u32,
    position: u32,
    flags: u16,
}

#[tactic(auto, unfolding(crate::specs::Event::header_at))]
fn header_of(bytes: &[u8]) -> Option<(EventHeader, &[u8])>
    ensures { option_map (λ x. (x.0, x.1.now)) result ≡ header_at bytes.now }
{
    let (timestamp, rest) = take_u32(bytes)?;
    let (kind, rest) = take_u8(rest)?;
    let (server, rest) = take_u32(rest)?;
    let (size, rest) = take_u32(rest)?;
    let (position, rest) = take_u32(rest)?;
    let (flags, rest) = take_u16(rest)?;
    let header = EventHeader {
        timestamp,
        kind,
        server,
        size,
        position,
        flags,
    };
    Some((header, rest))
}

fn event_of(alloc: Global, payload: &[u8]) -> Result<Event, ReadError>
    ensures { Gives result (event_at payload.now) }
{
    let bytes = take_head(payload, 0x00).ok_or(ReadError::Malformed)?;
    let (header, body) = header_of(bytes).ok_or(ReadError::Malformed)?;
    if bytes.len() as u64 != u64::from(header.size) {
        return Err(ReadError::Malformed);
    }
    Ok(Event {
        timestamp: header.timestamp,
        kind: header.kind,
        server: header.server,
        size: header.size,
        position: header.position,
        flags: header.flags,
        body: Blob::from_slice(alloc, body)?,
    })
}

/// Reads an event of a binary log. One whose size isn't that of its bytes is malformed.
pub fn read_event(alloc: Global, payload: &[u8]) -> Result<Event, ReadError>
    ensures gives { Gives result (event_at payload.now) }
    ensures exact { ReadsExactly (IsEvent payload.now) result }
{
    event_of(alloc, payload)
}

impl Event {
    ghost use Rattle.my_reply.specs.Event.{table_id_of};

    /// A second value of the same event.
    pub fn copy(&self, alloc: Global) -> Result<Event, NoMemory>
        ensures { IfOk result (λ copy. copy ≡ self.now) }
    {
        Ok(Event {
            timestamp: self.timestamp,
            kind: self.kind,
            server: self.server,
            size: self.size,
            position: self.position,
            flags: self.flags,
            body: self.body.copy(alloc)?,
        })
    }

    /// The id of the table that it maps, where it maps one.
    pub fn table_id(&self) -> Option<u64>
        ensures { result ≡ table_id_of self.now }
    {
        if self.kind != TABLE_MAP {
            return None;
        }
        let (id, _) = take_u48(self.body.as_slice())?;
        Some(id)
    }
}
