//! A link in memory, which plays the items that it is made with.
ghost use Rattle.std.specs.Prelude.{◌≡◌, ◌<◌, ◌≤◌, [], Some, None, true, false, length, take, drop};
ghost use Rattle.std.specs.List.{list_all};
ghost use Rattle.my_link.specs.Memory.{is_sound, is_filled, CopiesFront};

pub(crate) mod planned;
pub(crate) mod writes;

use crate::link::{CheckStep, Link, ReadItem, ReadStep, WriteStep};
use crate::memory::writes::{Room, Writes};
use std::alloc::Global;

/// A link in memory.
///
/// It keeps the bytes that it was sent. A read returns bytes of one item, and a write takes bytes for one item.
#[derive(Drop)]
pub struct MemLink {
    items: Vec<ReadItem>,
    // The item that is read next, and the number of its bytes that were read.
    place: usize,
    from: usize,
    writes: Writes,
    got: Vec<u8>,
    faults: u64,
    holds: u64,
    ends: u64,
    deaths: u64,
    ghost sound: { is_sound from (drop place items.items) ≡ true },
}

fn copy_front(buf: &mut [u8], bytes: &[u8]) -> usize
    requires room { 0 < length buf.old }
    requires some { 0 < length bytes.now }
    ensures { CopiesFront buf.new bytes.now result }
{
    let n = buf.len().min(bytes.len());
    buf[..n].copy_from_slice(&bytes[..n]);
    n
}

fn following(bytes: &[u8], from: usize) -> &[u8]
    requires { from < length bytes.now }
    ensures { result.now ≡ drop from bytes.now }
{
    &bytes[from..]
}

fn front(bytes: &[u8], n: usize) -> &[u8]
    requires { n ≤ length bytes.now }
    ensures { result.now ≡ take n bytes.now }
{
    &bytes[..n]
}

impl MemLink {
    ghost use Rattle.my_link.specs.MemLink.{unread, unwritten, counted, sent_to, Keeps};
    ghost use Rattle.my_link.specs.Outside.{no_counts};

    /// A link with these items for reads and for writes.
    pub fn new(alloc: Global, items: Vec<ReadItem>, writes: Writes) -> MemLink
        requires { list_all is_filled items.items ≡ true }
        ensures items { unread result ≡ items.items }
        ensures writes { unwritten result ≡ writes }
        ensures counts { counted result ≡ no_counts }
        ensures got { sent_to result ≡ [] }
    {
        MemLink {
            items,
            place: 0,
            from: 0,
            writes,
            got: Vec::new(alloc),
            faults: 0,
            holds: 0,
            ends: 0,
            deaths: 0,
        }
    }

    // Keeps all of `bytes`.
    fn keep(&mut self, bytes: &[u8]) -> WriteStep
        requires { 0 < length bytes.now }
        ensures { Keeps self.old self.new bytes.now result }
    {
        match self.got.extend_from_slice(bytes) {
            Err(_) => WriteStep::NoMemory,
            Ok(()) => {
                if let Some(ReadItem::Turn) = self.items.get(self.place) {
                    self.place += 1;
                }
                self.writes.take(bytes.len() as u64);
                WriteStep::Took(bytes.len())
            }
        }
    }
}

impl Link for MemLink {
    ghost use Rattle.my_link.specs.MemLink.{looks_of};

    ghost looks = { looks_of };

    ghost socket = { λ m. false };

    fn read(&mut self, buf: &mut [u8]) -> ReadStep {
        match self.items.get(self.place) {
            None => {
                self.holds = self.holds.saturating_add(1);
                ReadStep::NotYet
            }
            Some(ReadItem::Bytes(bytes)) => {
                let n = copy_front(buf, following(bytes.as_slice(), self.from));
                let from = self.from + n;
                if from < bytes.len() {
                    self.from = from;
                } else {
                    self.place += 1;
                    self.from = 0;
                }
                ReadStep::Got(n)
            }
            Some(ReadItem::Turn) => {
                self.holds = self.holds.saturating_add(1);
                ReadStep::NotYet
            }
            Some(ReadItem::Wait) => {
                self.place += 1;
                self.holds = self.holds.saturating_add(1);
                ReadStep::NotYet
            }
            Some(ReadItem::Fail) => {
                self.place += 1;
                self.faults = self.faults.saturating_add(1);
                ReadStep::Failed
            }
            Some(ReadItem::End) => {
                self.ends = self.ends.saturating_add(1);
                ReadStep::End
            }
        }
    }

    fn write(&mut self, bytes: &[u8]) -> WriteStep {
        match self.writes.room(bytes.len()) {
            Room::Take(n) => self.keep(front(bytes, n)),
            Room::Hold => {
                self.writes.pass();
                self.holds = self.holds.saturating_add(1);
                WriteStep::NotYet
            }
            Room::Fail => {
                self.writes.pass();
                self.faults = self.faults.saturating_add(1);
                WriteStep::Failed
            }
        }
    }

    fn check(&mut self) -> CheckStep {
        match self.items.get(self.place) {
            Some(ReadItem::Bytes(_) | ReadItem::End) => {
                self.deaths = self.deaths.saturating_add(1);
                CheckStep::Dead
            }
            Some(ReadItem::Turn | ReadItem::Wait | ReadItem::Fail) | None => CheckStep::Alive,
        }
    }

    fn is_socket(&self) -> bool {
        false
    }
}
