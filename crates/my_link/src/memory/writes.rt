//! What a link in memory does with writes.
ghost use Rattle.std.specs.Prelude.{◌≡◌, ◌<◌, ◌++◌, ◌∷◌, [], OnOk, OnErr, true, drop};
ghost use Rattle.std.specs.List.{list_all};
ghost use Rattle.my_link.specs.Link.{after_taken};
ghost use Rattle.my_link.specs.Memory.{is_open, RoomIs};

use crate::link::WriteItem;
use my_frame::NoMemory;
use std::alloc::Global;
use std::collections::VecDeque;
use std::marker::Model;

/// The items for writes that are left, the next first.
#[derive(Drop)]
pub struct Writes {
    items: VecDeque<WriteItem>,
}

/// What the next write does: it takes this many bytes, isn't ready, or fails.
#[derive(Clone, Copy, PartialEq, Eq)]
pub enum Room {
    Take(usize),
    Hold,
    Fail,
}

impl Model for Writes {
    ghost use Rattle.std.specs.Prelude.{◌≡◌, List, true};
    ghost use Rattle.std.specs.List.{list_all};
    ghost use Rattle.my_link.specs.Memory.{is_open};
    ghost use Rattle.my_link.specs.declared.link.WriteItem.{WriteItem};

    ghost Value = { List WriteItem };

    ghost view = { λ w. w.items.items };

    ghost invariant = { λ w. list_all is_open w.items.items ≡ true };
}

impl Writes {
    /// No items: all bytes of each write are taken.
    pub fn new(alloc: Global) -> Writes
        ensures { result ≡ [] }
    {
        Writes {
            items: VecDeque::new(alloc),
        }
    }

    pub fn push(&mut self, item: WriteItem) -> Result<(), NoMemory>
        requires { is_open item ≡ true }
        ensures ok { OnOk result (self.new ≡ self.old ++ item ∷ []) }
        ensures err { OnErr result (self.new ≡ self.old) }
    {
        self.items.push_back(item)?;
        Ok(())
    }

    /// What a write of `len` bytes does.
    pub fn room(&self, len: usize) -> Room
        requires { 0 < len }
        ensures { RoomIs self.now len result }
    {
        match self.items.front() {
            None => Room::Take(len),
            Some(WriteItem::Accept(most)) => Room::Take((*most).min(len as u64) as usize),
            Some(WriteItem::Wait) => Room::Hold,
            Some(WriteItem::Fail) => Room::Fail,
        }
    }

    /// Drops the first item.
    pub fn pass(&mut self)
        ensures { self.new ≡ drop 1 self.old }
    {
        self.items.pop_front();
    }

    /// Records that a write took `taken` bytes.
    pub fn take(&mut self, taken: u64)
        ensures { self.new ≡ after_taken taken self.old }
    {
        if let Some(WriteItem::Accept(most)) = self.items.front() {
            let left = most.saturating_sub(taken);
            if left == 0 {
                self.items.pop_front();
            } else {
                self.items[0] = WriteItem::Accept(left);
            }
        }
    }
}
