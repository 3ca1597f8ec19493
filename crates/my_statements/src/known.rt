//! The columns of the results of statements.

ghost use Rattle.std.specs.Prelude.{◌≡◌, [], IfOk, OnErr, OnOk};
ghost use Rattle.std.specs.Option.{option_copied};
ghost use Rattle.my_statements.specs.Known.{known_of, known_put};

use crate::columns::SetColumns;
use lru::LruCache;
use my_frame::NoMemory;
use my_frame::limits::MOST_STATEMENTS;
use std::alloc::Global;
use std::marker::Model;
use std::num::NonZeroUsize;

/// The columns of the results of statements, by the statements' numbers: of at most `MOST_STATEMENTS`.
///
/// Contracts see it as the list of the numbers with their columns, the ones that were put last first.
#[derive(Drop)]
pub struct KnownColumns {
    sets: LruCache<u32, SetColumns>,
}

impl Model for KnownColumns {
    ghost use Rattle.std.specs.Prelude.{◌≡◌, ◌≤◌, ℕ, List, length};
    ghost use Rattle.my_frame.specs.declared.limits.TheConstants.{MOST_STATEMENTS as most};
    ghost use Rattle.my_reply.specs.declared.column.Column.{Column as AnyColumn};

    ghost Value = { List (ℕ × List AnyColumn) };

    ghost view = { λ k. k.sets.entries };

    ghost invariant = { λ k. (k.sets.cap ≡ most) × (length k.sets.entries ≤ most) };
}

impl KnownColumns {
    /// No columns are known.
    pub fn new(alloc: Global) -> Result<KnownColumns, NoMemory>
        ensures { IfOk result (λ known. known ≡ []) }
    {
        let room = match NonZeroUsize::new(MOST_STATEMENTS) {
            Some(room) => room,
            None => NonZeroUsize::MIN,
        };
        Ok(KnownColumns {
            sets: LruCache::sparse(alloc, room)?,
        })
    }

    /// The columns of a statement are these from now on. Where one too many is known, those that were put before all
    /// others go. Out of memory, nothing changes.
    pub fn put(&mut self, id: u32, columns: SetColumns) -> Result<(), NoMemory>
        ensures ok { OnOk result (self.new ≡ known_put id columns self.old) }
        ensures err { OnErr result (self.new ≡ self.old) }
    {
        match self.sets.put(id, columns) {
            Ok(_) => Ok(()),
            Err(_) => Err(NoMemory),
        }
    }

    /// No columns are known any more.
    pub fn clear(&mut self)
        ensures { self.new ≡ [] }
    {
        self.sets.clear();
    }

    /// The columns of a statement, where they are known.
    pub fn get(&self, id: u32) -> Option<&SetColumns>
        ensures { option_copied result ≡ known_of id self.now }
    {
        self.sets.peek(&id)
    }
}
