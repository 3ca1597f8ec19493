//! The items of a link that isn't dialed yet.
ghost use Rattle.std.specs.Prelude.{◌≡◌, OnOk, OnErr, true};
ghost use Rattle.std.specs.List.{list_all};
ghost use Rattle.my_link.specs.Memory.{is_filled};
ghost use Rattle.my_link.specs.Items.{no_items};
ghost use Rattle.my_link.specs.Planned.{is_lawful, with_more};

use crate::link::{ReadItem, WriteItem};
use crate::memory::writes::Writes;
use my_frame::NoMemory;
use std::alloc::Global;
use std::marker::Model;
use std::mem;

/// What one line of a plan adds to its link.
#[derive(Drop)]
pub enum Addition {
    Nothing,
    Reads(Vec<ReadItem>),
    Write(WriteItem),
}

/// A link's number and items.
#[derive(Drop)]
pub struct Planned {
    number: u64,
    reads: Vec<ReadItem>,
    writes: Writes,
}

impl Model for Planned {
    ghost use Rattle.std.specs.Prelude.{◌≡◌, true};
    ghost use Rattle.std.specs.List.{list_all};
    ghost use Rattle.my_link.specs.Planned.{PlannedItems};
    ghost use Rattle.my_link.specs.Memory.{is_filled};

    ghost Value = { PlannedItems };

    ghost view = { λ p. record { number = p.number; items = record { reads = p.reads.items; writes = p.writes } } };

    ghost invariant = { λ p. list_all is_filled p.reads.items ≡ true };
}

impl Planned {
    pub fn new(alloc: Global, number: u64) -> Planned
        ensures { result ≡ record { number = number; items = no_items } }
    {
        Planned {
            number,
            reads: Vec::new(alloc),
            writes: Writes::new(alloc),
        }
    }

    pub fn number(&self) -> u64
        ensures { result ≡ self.now.number }
    {
        self.number
    }

    fn add_reads(&mut self, mut reads: Vec<ReadItem>) -> Result<(), NoMemory>
        requires { list_all is_filled reads.items ≡ true }
        ensures ok { OnOk result (self.new ≡ with_more self.old (Addition.Reads reads)) }
        ensures err { OnErr result (self.new ≡ self.old) }
    {
        self.reads.append(&mut reads)?;
        Ok(())
    }

    /// Appends these items.
    pub fn add(&mut self, addition: Addition) -> Result<(), NoMemory>
        requires { is_lawful addition ≡ true }
        ensures ok { OnOk result (self.new ≡ with_more self.old addition) }
        ensures err { OnErr result (self.new ≡ self.old) }
    {
        match addition {
            Addition::Nothing => Ok(()),
            Addition::Reads(reads) => self.add_reads(reads),
            Addition::Write(item) => self.writes.push(item),
        }
    }

    /// Takes out all items.
    pub fn take(&mut self, alloc: Global) -> (Vec<ReadItem>, Writes)
        ensures reads { result.0.items ≡ self.old.items.reads }
        ensures writes { result.1 ≡ self.old.items.writes }
        ensures filled { list_all is_filled result.0.items ≡ true }
        ensures left { self.new ≡ record { number = self.old.number; items = no_items } }
    {
        let reads = mem::replace(&mut self.reads, Vec::new(alloc));
        let writes = mem::replace(&mut self.writes, Writes::new(alloc));
        (reads, writes)
    }
}
